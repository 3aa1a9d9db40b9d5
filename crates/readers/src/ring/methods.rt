//! Making a ring reader, filling it, what it tells, and reading from it.
ghost use Rattle.std.specs.Prelude.{◌≡◌, ◌+◌, ◌-◌, ◌≤◌, ◌++◌, length, take};
ghost use Rattle.readers.specs.Rings.{Filled, Ring, ring_waiting, ring_view, ring_gone, ring_reader, ring_reader_laws};
ghost use Rattle.readers.specs.Wraps.{wrapped};

use super::RingReader;
use format::error::{DecodeError, RingError};
use interfaces::de::read::Reader;

// The index `n` after `start` in a buffer of `len` bytes. Behind the end comes the front.
fn index_after(start: usize, n: usize, len: usize) -> usize
    requires { (start ≤ len - 1) × (n ≤ len) }
    ensures { result ≡ wrapped len (start + n) }
{
    let to_end = len - start;
    if n < to_end { start + n } else { n - to_end }
}

// Fills the buffer with both parts, one after the other.
fn copy_both(bytes: &mut [u8], first: &[u8], second: &[u8])
    requires { length bytes.old ≡ length first.now + length second.now }
    ensures { bytes.new ≡ first.now ++ second.now }
{
    let (front, back) = bytes.split_at_mut(first.len());
    front.copy_from_slice(first);
    back.copy_from_slice(second);
}

impl<'a> RingReader<'a> {
    /// A reader over a ring in which nothing waits.
    pub fn new(buffer: &'a [u8]) -> RingReader<'a>
        ensures { Ring result buffer.entry 0 0 }
    {
        RingReader {
            buffer,
            start: 0,
            count: 0,
        }
    }

    /// Lets `count` bytes wait from `start` on. A start that is not below the buffer's length is refused, but for 0 in an empty buffer, and so is a count above
    /// the length; nothing changes then.
    pub fn fill(&mut self, start: usize, count: usize) -> Result<(), RingError>
        ensures { Filled self.old start count result self.new }
    {
        let len = self.buffer.len();
        if start > len.saturating_sub(1) || count > len {
            return Err(RingError::BadRing);
        }
        *self = RingReader {
            buffer: self.buffer,
            start,
            count,
        };
        Ok(())
    }

    /// How many bytes wait.
    pub fn remaining(&self) -> usize
        ensures count { result ≡ self.now.count }
        ensures waiting { result ≡ length (ring_waiting self.now) }
    {
        self.count
    }

    // Those of the bytes that wait that lie before the buffer's end.
    fn view(&self) -> &'a [u8]
        ensures value { result.now ≡ take (ring_view self.now) (ring_waiting self.now) }
        ensures len { length result.now ≡ ring_view self.now }
    {
        let n = (self.buffer.len() - self.start).min(self.count);
        &self.buffer[self.start..self.start + n]
    }

    // The first n bytes that wait, in two parts: up to the buffer's end, and on from its front.
    fn parts(&self, n: usize) -> (&'a [u8], &'a [u8])
        requires { n ≤ self.now.count }
        ensures value { result.0.now ++ result.1.now ≡ take n (ring_waiting self.now) }
        ensures len { length result.0.now + length result.1.now ≡ n }
    {
        let view = self.view();
        let first = n.min(view.len());
        (&view[..first], &self.buffer[..n - first])
    }

    // Lets n bytes go.
    fn advance(&mut self, n: usize)
        requires { n ≤ self.old.count }
        ensures { self.new ≡ ring_gone n self.old }
    {
        *self = RingReader {
            buffer: self.buffer,
            start: index_after(self.start, n, self.buffer.len()),
            count: self.count - n,
        };
    }
}

impl<'a> Reader for RingReader<'a> {
    ghost meaning = { ring_reader };

    ghost laws = { ring_reader_laws };

    fn read(&mut self, bytes: &mut [u8]) -> Result<(), DecodeError> {
        let n = bytes.len();
        let count = self.remaining();
        if n > count {
            return Err(DecodeError::UnexpectedEnd {
                additional: (n - count) as u64,
            });
        }
        let (first, second) = self.parts(n);
        copy_both(bytes, first, second);
        self.advance(n);
        Ok(())
    }

    fn peek_read(&self, n: usize) -> Option<&[u8]> {
        self.view().get(..n)
    }

    fn consume(&mut self, n: usize) {
        self.advance(n.min(self.view().len()));
    }
}
