//! The reader over a caller's bytes.
ghost use Rattle.std.specs.Prelude.{◌≤◌, length};

pub mod methods;

/// Reads a caller's bytes from the front. Those from its place on wait, and all of them are in view.
// The rule of the readers: the caller's bytes are kept whole, with a place in them.
#[derive(Drop)]
pub struct SliceReader<'a> {
    slice: &'a [u8],
    at: usize,
    ghost within: { at ≤ length slice.now },
}
