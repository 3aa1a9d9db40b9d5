//! Encoders: a writer under a policy.
ghost use Rattle.std.specs.Prelude.{◌≡◌};
ghost use Rattle.interfaces.specs.Writers.{Written};

use crate::config::Policy;
use crate::enc::write::Writer;
use format::error::EncodeError;

/// A writer under a policy. Neither is handed out: bytes go in by `write` alone.
// Its clause names the writer apart; the short words of `specs/Calls.antt` are made of this trait's ghosts, so that only code above can use them.
pub trait Encoder {
    /// The writer inside.
    type W: Writer;
    /// The policy.
    type C: Policy;

    ghost writer: { Self → Self.W };

    /// Hands the bytes to the writer as one piece.
    fn write(&mut self, bytes: &[u8]) -> Result<(), EncodeError>
        ensures { Written Self.W.Writer.meaning (writer self.old) bytes.now result (writer self.new) };
}

/// The encoder over any writer and any policy.
pub struct EncoderImpl<W, C> {
    writer: W,
    config: C,
}

impl<W: Writer, C: Policy> EncoderImpl<W, C> {
    /// An encoder that writes to `writer` under the policy `config`.
    pub fn new(writer: W, config: C) -> EncoderImpl<W, C>
        ensures { result ≡ record { writer = writer; config = config } }
    {
        EncoderImpl { writer, config }
    }

    /// Ends the encoder and gives its writer back.
    pub fn into_writer(self) -> W
        ensures { result ≡ self.writer }
    {
        let EncoderImpl { writer, config: _ } = self;
        writer
    }
}

impl<W: Writer, C: Policy> Encoder for EncoderImpl<W, C> {
    type W = W;

    type C = C;

    ghost writer = { λ e. e.writer };

    fn write(&mut self, bytes: &[u8]) -> Result<(), EncodeError> {
        self.writer.write(bytes)
    }
}
