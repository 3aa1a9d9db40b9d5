//! What can be decoded.
ghost use Rattle.format.specs.declared.config.Endianness.{Endianness as Order};
ghost use Rattle.format.specs.declared.config.IntEncoding.{IntEncoding as Encoding};
ghost use Rattle.interfaces.specs.Calls.{Charges};
ghost use Rattle.meanings.specs.Decodes.{ElementLaws, Decodes};
ghost use Rattle.readings.specs.Readings.{Reading};

use elements::element::Element;
use format::error::DecodeError;
use interfaces::de::decoder::Decoder;

/// An element type whose values can be read too. Anybody may add one, by showing the laws.
pub trait Decode: Element {
    ghost reading: { Order → Encoding → Reading Self };

    /// Does what the reading of the type says: this is what a type supplies, and `decode` is what is called.
    fn decode_value<D: Decoder>(decoder: &mut D) -> Result<Self, DecodeError>
        ensures { Decodes D.Decoder D.C.Policy D.R.Reader Self.Element.meaning reading decoder.old result decoder.new };

    // A member's type names one of the trait above only below the last function that an impl writes.
    ghost laws: { ElementLaws Self.Element.meaning reading };

    /// Decodes a value; what is consumed is paid for by what is claimed.
    final fn decode<D: Decoder>(decoder: &mut D) -> Result<Self, DecodeError>
        ensures decoded { Decodes D.Decoder D.C.Policy D.R.Reader Self.Element.meaning reading decoder.old result decoder.new }
        ensures charged { Charges D.Decoder D.C.Policy D.R.Reader decoder.old result decoder.new }
    {
        Self::decode_value(decoder)
    }
}
