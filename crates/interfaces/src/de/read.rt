//! Where bytes come from.
ghost use Rattle.interfaces.specs.LentReaders.{lent_reader, lent_reader_laws};
ghost use Rattle.interfaces.specs.Readers.{ReaderMeaning, ReaderLaws, Read, Peeked, Consumed, Taken};

use format::error::DecodeError;

/// A place where bytes wait.
pub trait Reader {
    ghost meaning: { ReaderMeaning Self };

    /// Fills the buffer from the front, and those bytes go; where too few wait it refuses, and nothing changes.
    fn read(&mut self, bytes: &mut [u8]) -> Result<(), DecodeError>
        ensures { Read meaning self.old bytes.old result self.new bytes.new };

    /// The first n bytes that wait, if as many are in view. Nothing changes.
    fn peek_read(&self, n: usize) -> Option<&[u8]>
        ensures { Peeked meaning self.now n result };

    /// Lets n bytes go, or as many as are in view.
    fn consume(&mut self, n: usize)
        ensures { Consumed meaning self.old n self.new };

    ghost laws: { ReaderLaws meaning };
}

/// A reader over bytes that outlive it, so that it can hand them out instead of copying them.
pub trait BorrowReader<'de>: Reader {
    /// The next `length` bytes, which live as long as the input does, and those bytes go; where too few wait it refuses, and nothing changes.
    fn take_bytes(&mut self, length: usize) -> Result<&'de [u8], DecodeError>
        ensures { Taken Self.Reader.meaning self.old length result self.new };
}

/// A lent reader reads from the one behind the reference.
impl<'a, R: Reader> Reader for &'a mut R {
    ghost meaning = { lent_reader R.Reader.meaning };

    ghost laws = { lent_reader_laws R.Reader.laws };

    fn read(&mut self, bytes: &mut [u8]) -> Result<(), DecodeError> {
        (**self).read(bytes)
    }

    fn peek_read(&self, n: usize) -> Option<&[u8]> {
        (**self).peek_read(n)
    }

    fn consume(&mut self, n: usize) {
        (**self).consume(n)
    }
}

/// A lent reader hands out the bytes of the one behind the reference.
impl<'a, 'de, R: BorrowReader<'de>> BorrowReader<'de> for &'a mut R {
    fn take_bytes(&mut self, length: usize) -> Result<&'de [u8], DecodeError> {
        (**self).take_bytes(length)
    }
}
