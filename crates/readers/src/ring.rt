//! The reader over a ring.
ghost use Rattle.std.specs.Prelude.{◌-◌, ◌≤◌, length};

pub mod methods;

/// Reads `count` bytes of a buffer from `start` on, which go on at the buffer's front where its end comes first.
// The rule of the readers: the caller's bytes are kept whole, with a place in them.
#[derive(Drop)]
pub struct RingReader<'a> {
    buffer: &'a [u8],
    start: usize,
    count: usize,
    // an empty buffer has the start 0
    ghost inside: { start ≤ length buffer.now - 1 },
    ghost enough: { count ≤ length buffer.now },
}
