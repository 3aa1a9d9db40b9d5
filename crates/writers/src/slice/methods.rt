//! Making a slice writer, what it tells, and writing to it.
ghost use Rattle.std.specs.Prelude.{◌≡◌};
ghost use Rattle.writers.specs.Slices.{slice_start, slice_free, slice_meaning, slice_laws};

use super::SliceWriter;
use crate::store::store;
use format::error::EncodeError;
use interfaces::enc::write::Writer;

impl<'a> SliceWriter<'a> {
    /// A writer at the start of the buffer.
    pub fn new(slice: &'a mut [u8]) -> SliceWriter<'a>
        ensures { result ≡ slice_start slice.entry }
    {
        SliceWriter { slice, at: 0 }
    }

    /// How many bytes it has written.
    pub fn bytes_written(&self) -> usize
        ensures { result ≡ self.now.at }
    {
        self.at
    }

    /// How many bytes are free.
    pub fn remaining(&self) -> usize
        ensures { result ≡ slice_free self.now }
    {
        self.slice.len() - self.at
    }
}

impl<'a> Writer for SliceWriter<'a> {
    ghost meaning = { slice_meaning };

    ghost laws = { slice_laws };

    fn write(&mut self, bytes: &[u8]) -> Result<(), EncodeError> {
        if bytes.len() > self.remaining() {
            return Err(EncodeError::UnexpectedEnd);
        }
        let SliceWriter { slice, at } = self;
        store(slice, *at, bytes);
        *at += bytes.len();
        Ok(())
    }
}
