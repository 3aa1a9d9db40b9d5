//! What can be encoded.
ghost use Rattle.std.specs.Prelude.{◌≡◌};
ghost use Rattle.elements.specs.Elements.{ElementMeaning, Encodes, within64};

use format::error::EncodeError;
use interfaces::enc::encoder::Encoder;

/// A type whose values can be written.
pub trait Element: Sized {
    ghost meaning: { ElementMeaning Self };

    /// Offers the pieces of the value's writing to the encoder's writer, in order, and stops at the first that is refused.
    fn encode<E: Encoder>(&self, encoder: &mut E) -> Result<(), EncodeError>
        ensures { Encodes E.Encoder E.C.Policy E.W.Writer meaning self.now encoder.old result encoder.new };

    /// The bytes that a decoder claims for the value, or none where they pass 2^64 - 1.
    fn claim(&self) -> Option<u64>
        ensures { result ≡ within64 (meaning.claim self.now) };
}
