//! Making a page writer, what it tells, and writing to it.
ghost use Rattle.std.specs.Prelude.{◌≡◌, ◌+◌, ◌≤◌, length, replicate};
ghost use Rattle.writers.specs.Pages.{page_free, page_meaning, page_laws, added};

use super::{Page, PageWriter};
use crate::store::store;
use format::error::EncodeError;
use interfaces::enc::write::Writer;

impl Page {
    // Adds the bytes behind those that are written.
    fn put(&mut self, bytes: &[u8])
        requires { self.old.len + length bytes.now ≤ 256 }
        ensures { self.new ≡ added bytes.now self.old }
    {
        store(&mut self.bytes, self.len, bytes);
        self.len += bytes.len();
    }
}

impl PageWriter {
    /// A writer with an empty page.
    pub fn new() -> PageWriter
        ensures { result.page ≡ record { bytes = replicate 256 0; len = 0 } }
    {
        PageWriter {
            page: Page {
                bytes: [0; 256],
                len: 0,
            },
        }
    }

    /// How many bytes it has written.
    pub fn bytes_written(&self) -> usize
        ensures { result ≡ self.now.page.len }
    {
        self.page.len
    }

    /// How many bytes are free.
    pub fn remaining(&self) -> usize
        ensures { result ≡ page_free self.now }
    {
        256 - self.page.len
    }
}

impl Writer for PageWriter {
    ghost meaning = { page_meaning };

    ghost laws = { page_laws };

    // The steps of the slice writer; one text for both would want a trait for bytes with a place in them, which two types do not make shorter.
    fn write(&mut self, bytes: &[u8]) -> Result<(), EncodeError> {
        if bytes.len() > self.remaining() {
            return Err(EncodeError::UnexpectedEnd);
        }
        self.page.put(bytes);
        Ok(())
    }
}
