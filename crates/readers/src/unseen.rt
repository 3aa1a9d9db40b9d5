//! The reader that lets nothing be seen ahead.
ghost use Rattle.std.specs.Prelude.{◌≡◌};
ghost use Rattle.readers.specs.Unseen.{over, unseen_reader, unseen_reader_laws};

use format::error::DecodeError;
use interfaces::de::read::Reader;

/// Reads from the reader inside, but has nothing in view: what waits can only be read.
#[derive(Drop)]
pub struct Unseen<R> {
    reader: R,
}

impl<R: Reader> Unseen<R> {
    /// Hides what waits in the reader.
    pub fn new(reader: R) -> Unseen<R>
        ensures { result ≡ over reader }
    {
        Unseen { reader }
    }

    /// Gives the reader back, with what waits in it.
    pub fn into_inner(self) -> R
        ensures { result ≡ self.reader }
    {
        let Unseen { reader } = self;
        reader
    }
}

impl<R: Reader> Reader for Unseen<R> {
    ghost meaning = { unseen_reader R.Reader.meaning };

    ghost laws = { unseen_reader_laws R.Reader.laws };

    fn read(&mut self, bytes: &mut [u8]) -> Result<(), DecodeError> {
        self.reader.read(bytes)
    }

    fn peek_read(&self, n: usize) -> Option<&[u8]> {
        if n == 0 { Some(&[]) } else { None }
    }

    // With nothing in view, nothing goes.
    fn consume(&mut self, _n: usize) {}
}
