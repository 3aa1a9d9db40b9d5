//! Decoders: a reader under a policy, and a count of claims.
ghost use Rattle.std.specs.Prelude.{◌≡◌, ℕ, false, length, is_ok};
ghost use Rattle.interfaces.specs.Decodes.{Did, filled, lent};
ghost use Rattle.interfaces.specs.Readers.{Peeked, Consumed};
ghost use Rattle.readings.specs.Readings.{claiming, taking};

use crate::config::Policy;
use crate::de::read::{BorrowReader, Reader};
use format::error::DecodeError;

/// A reader under a policy, with a count of what was claimed. Neither is handed out: bytes come by the calls below alone.
// These clauses name reader and count apart; the short words of `specs/Calls.antt` are made of this trait's ghosts, so that only code above can use them.
pub trait Decoder {
    /// The reader inside.
    type R: Reader;
    /// The policy.
    type C: Policy;

    ghost reader: { Self → Self.R };

    ghost count: { Self → ℕ };

    /// Claims n bytes that are about to be read.
    fn claim_bytes_read(&mut self, n: u64) -> Result<(), DecodeError>
        ensures { Did (claiming n) Self.C.Policy.meaning Self.R.Reader.meaning (reader self.old) (count self.old) result (reader self.new) (count self.new) };

    /// Fills the buffer from the front.
    fn read(&mut self, bytes: &mut [u8]) -> Result<(), DecodeError>
        ensures did { Did (taking (length bytes.old)) Self.C.Policy.meaning Self.R.Reader.meaning (reader self.old) (count self.old) (filled result bytes.new) (reader self.new) (count self.new) }
        ensures same { is_ok result ≡ false → bytes.new ≡ bytes.old };

    /// The first n bytes that wait, if as many are in view.
    fn peek_read(&self, n: usize) -> Option<&[u8]>
        ensures { Peeked Self.R.Reader.meaning (reader self.now) n result };

    /// Lets n bytes go, or as many as are in view.
    fn consume(&mut self, n: usize)
        ensures holds { Consumed Self.R.Reader.meaning (reader self.old) n (reader self.new) }
        ensures count { count self.new ≡ count self.old };
}

/// A decoder over bytes that outlive it, so that it can hand them out instead of copying them.
pub trait BorrowDecoder<'de>: Decoder {
    // This clause names reader and count apart, as those of `Decoder` do.
    /// The next n bytes, which live as long as the input does.
    fn take_bytes(&mut self, n: usize) -> Result<&'de [u8], DecodeError>
        ensures { Did (taking n) Self.C.Policy.meaning Self.R.Reader.meaning (Self.Decoder.reader self.old) (Self.Decoder.count self.old) (lent result) (Self.Decoder.reader self.new) (Self.Decoder.count self.new) };
}

/// What a decoder has claimed. It is changed by its own call alone.
#[derive(Clone, Copy)]
pub struct Claims {
    count: u64,
}

/// The decoder over any reader and any policy.
pub struct DecoderImpl<R, C> {
    reader: R,
    config: C,
    claims: Claims,
}

impl<R: Reader, C: Policy> DecoderImpl<R, C> {
    /// A decoder that reads from `reader` under the policy `config` and has claimed nothing.
    pub fn new(reader: R, config: C) -> DecoderImpl<R, C>
        ensures { result ≡ record { reader = reader; config = config; claims = record { count = 0 } } }
    {
        DecoderImpl {
            reader,
            config,
            claims: Claims { count: 0 },
        }
    }

    /// How many bytes are claimed.
    pub fn claimed(&self) -> u64
        ensures { result ≡ self.now.claims.count }
    {
        let Claims { count } = self.claims;
        count
    }

    /// Ends the decoder and gives its reader back.
    pub fn into_reader(self) -> R
        ensures { result ≡ self.reader }
    {
        let DecoderImpl {
            reader,
            config: _,
            claims: _,
        } = self;
        reader
    }
}

impl<R: Reader, C: Policy> Decoder for DecoderImpl<R, C> {
    type R = R;

    type C = C;

    ghost reader = { λ d. d.reader };

    ghost count = { λ d. d.claims.count };

    fn claim_bytes_read(&mut self, n: u64) -> Result<(), DecodeError> {
        let Some(limit) = C::byte_limit() else {
            return Ok(());
        };
        let total = self
            .claims
            .count
            .checked_add(n)
            .ok_or(DecodeError::LimitExceeded)?;
        self.claims.count = total;
        if total <= limit {
            Ok(())
        } else {
            Err(DecodeError::LimitExceeded)
        }
    }

    fn read(&mut self, bytes: &mut [u8]) -> Result<(), DecodeError> {
        self.reader.read(bytes)
    }

    fn peek_read(&self, n: usize) -> Option<&[u8]> {
        self.reader.peek_read(n)
    }

    fn consume(&mut self, n: usize) {
        self.reader.consume(n);
    }
}

impl<'de, R: BorrowReader<'de>, C: Policy> BorrowDecoder<'de> for DecoderImpl<R, C> {
    fn take_bytes(&mut self, n: usize) -> Result<&'de [u8], DecodeError> {
        self.reader.take_bytes(n)
    }
}
