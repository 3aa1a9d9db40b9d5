//! Where bytes go.
ghost use Rattle.interfaces.specs.Lent.{lent_meaning, lent_laws};
ghost use Rattle.interfaces.specs.Writers.{WriterMeaning, WriterLaws, Written};

use format::error::EncodeError;

/// A place that takes bytes as long as it has room.
pub trait Writer {
    ghost meaning: { WriterMeaning Self };

    /// Takes the bytes if they number at most what is free; else refuses, and nothing changes.
    fn write(&mut self, bytes: &[u8]) -> Result<(), EncodeError>
        ensures { Written meaning self.old bytes.now result self.new };

    ghost laws: { WriterLaws meaning };
}

/// A lent writer writes to the one behind the reference.
impl<'a, W: Writer> Writer for &'a mut W {
    ghost meaning = { lent_meaning W.Writer.meaning };

    ghost laws = { lent_laws W.Writer.laws };

    fn write(&mut self, bytes: &[u8]) -> Result<(), EncodeError> {
        (**self).write(bytes)
    }
}
