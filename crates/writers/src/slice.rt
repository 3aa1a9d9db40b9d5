//! The writer into a caller's buffer.
ghost use Rattle.std.specs.Prelude.{◌≤◌, length};

pub mod methods;

/// Fills a caller's buffer from the front. The bytes from its place on stay as they were, and are what is free.
// It keeps the caller's buffer whole, with a place in it: what it has kept is to be had from it, so it may not cut that off.
#[derive(Drop)]
pub struct SliceWriter<'a> {
    slice: &'a mut [u8],
    at: usize,
    ghost within: { at ≤ length slice.now },
}
