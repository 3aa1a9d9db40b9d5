//! Which bytes stand for which value, above the element types: what is accepted stands for its value, and what stands for a value is accepted.
#![tactic(auto)]

pub mod compounds;
pub mod scalar_types;

ghost use Rattle.std.specs.Prelude.{ℕ, List};
ghost use Rattle.format.specs.declared.config.Endianness.{Endianness as Order};
ghost use Rattle.format.specs.declared.config.IntEncoding.{IntEncoding as Encoding};
ghost use Rattle.interfaces.specs.Calls.{Charges, StandsFor, Finds};
ghost use Rattle.meanings.specs.Decodes.{Decodes};
ghost use Rattle.meanings.specs.Relations.{Stands, WrittenStands};

use decodes::decode::Decode;
use elements::element::Element;
use format::error::DecodeError;
use interfaces::de::decoder::Decoder;

/// An element type with the relation that the public documents give: these bytes stand for this value under this byte order and integer encoding. It knows
/// nothing of the steps by which a value is read, and long forms of integers and nanoseconds that carry are in it too.
pub trait Standing: Decode {
    ghost stands: { Order → Encoding → List ℕ → Self → Type 0 };

    // The relation is the type's: a value's writing stands for it, what stands for a value is read as it, and what was used in reading a value stands for it.
    ghost law: { Stands Self.Element.meaning Self.Decode.reading stands };

    /// Does nothing; its promise is the law.
    final fn standing()
        ensures { Stands Self.Element.meaning Self.Decode.reading stands }
    {}
}

/// Decodes a value, and promises both directions: what an accepted decode consumed stands for its value; and where a beginning of the waiting bytes stands for
/// a value and the claim is granted, that value is given and just that beginning is consumed. And a value's writing stands for it.
pub fn decode_standing<T: Standing, D: Decoder>(decoder: &mut D) -> Result<T, DecodeError>
    ensures decoded { Decodes D.Decoder D.C.Policy D.R.Reader T.Element.meaning T.Decode.reading decoder.old result decoder.new }
    ensures charged { Charges D.Decoder D.C.Policy D.R.Reader decoder.old result decoder.new }
    ensures stood { StandsFor D.Decoder D.C.Policy D.R.Reader T.Standing.stands decoder.old result decoder.new }
    ensures found { Finds D.Decoder D.C.Policy D.R.Reader T.Standing.stands T.Element.meaning.claim decoder.old result decoder.new }
    ensures written { WrittenStands T.Element.meaning T.Standing.stands }
{
    T::decode(decoder)
}
