//! Making a slice reader, what it tells, and reading from it.
ghost use Rattle.std.specs.Prelude.{◌≡◌, length};
ghost use Rattle.interfaces.specs.Readers.{Taken};
ghost use Rattle.readers.specs.Slices.{slice_front, slice_waiting, slice_reader, slice_reader_laws};

use super::SliceReader;
use format::error::DecodeError;
use interfaces::de::read::{BorrowReader, Reader};

impl<'a> SliceReader<'a> {
    /// A reader at the start of the bytes.
    pub fn new(slice: &'a [u8]) -> SliceReader<'a>
        ensures { result ≡ slice_front slice.entry }
    {
        SliceReader { slice, at: 0 }
    }

    /// How many bytes wait.
    pub fn remaining(&self) -> usize
        ensures { result ≡ length (slice_waiting self.now) }
    {
        self.rest().len()
    }

    // The bytes that wait.
    fn rest(&self) -> &'a [u8]
        ensures { result.now ≡ slice_waiting self.now }
    {
        &self.slice[self.at..]
    }

    // The next bytes, which then go. A read copies them, and a borrow hands them out.
    fn take(&mut self, n: usize) -> Result<&'a [u8], DecodeError>
        ensures { Taken slice_reader self.old n result self.new }
    {
        let rest = self.rest();
        let Some(part) = rest.get(..n) else {
            return Err(DecodeError::UnexpectedEnd {
                additional: (n - rest.len()) as u64,
            });
        };
        self.at += n;
        Ok(part)
    }
}

impl<'a> Reader for SliceReader<'a> {
    ghost meaning = { slice_reader };

    ghost laws = { slice_reader_laws };

    fn read(&mut self, bytes: &mut [u8]) -> Result<(), DecodeError> {
        let part = self.take(bytes.len())?;
        bytes.copy_from_slice(part);
        Ok(())
    }

    fn peek_read(&self, n: usize) -> Option<&[u8]> {
        self.rest().get(..n)
    }

    fn consume(&mut self, n: usize) {
        self.at += n.min(self.remaining());
    }
}

impl<'a> BorrowReader<'a> for SliceReader<'a> {
    fn take_bytes(&mut self, length: usize) -> Result<&'a [u8], DecodeError> {
        self.take(length)
    }
}
