//! The writer that only counts.
ghost use Rattle.std.specs.Prelude.{◌≡◌};
ghost use Rattle.writers.specs.Sizes.{counted, size_meaning, size_laws};

use format::error::EncodeError;
use interfaces::enc::write::Writer;

/// Counts the bytes and keeps none of them. At 2^64 - 1 it is full: the count never wraps.
#[derive(Clone, Copy, PartialEq, Eq, Debug)]
pub struct SizeWriter {
    bytes_written: usize,
}

impl SizeWriter {
    /// A writer that has counted nothing.
    pub fn new() -> SizeWriter
        ensures { result ≡ counted 0 }
    {
        SizeWriter { bytes_written: 0 }
    }

    /// How many bytes it has counted.
    pub fn bytes_written(&self) -> usize
        ensures { result ≡ self.now.bytes_written }
    {
        self.bytes_written
    }
}

impl Writer for SizeWriter {
    ghost meaning = { size_meaning };

    ghost laws = { size_laws };

    fn write(&mut self, bytes: &[u8]) -> Result<(), EncodeError> {
        let SizeWriter { bytes_written } = self;
        *bytes_written = bytes_written
            .checked_add(bytes.len())
            .ok_or(EncodeError::UnexpectedEnd)?;
        Ok(())
    }
}
