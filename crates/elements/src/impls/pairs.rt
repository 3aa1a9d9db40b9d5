//! The pair: its first and then its second. The sum types are written by the same text, as a tag and then a value.
ghost use Rattle.std.specs.Prelude.{◌≡◌, ◌+◌};
ghost use Rattle.elements.specs.Compounds.{pair};
ghost use Rattle.elements.specs.Elements.{Encodes, within64};

use crate::element::Element;
use format::error::EncodeError;
use interfaces::enc::encoder::Encoder;

/// Encodes one value and then another.
pub(crate) fn encode_both<T: Element, U: Element, E: Encoder>(
    first: &T,
    second: &U,
    encoder: &mut E,
) -> Result<(), EncodeError>
    ensures { Encodes E.Encoder E.C.Policy E.W.Writer (pair T.Element.meaning U.Element.meaning) (first.now, second.now) encoder.old result encoder.new }
{
    first.encode(encoder)?;
    second.encode(encoder)
}

/// The claims of two values, added.
pub(crate) fn claim_both<T: Element, U: Element>(first: &T, second: &U) -> Option<u64>
    ensures { result ≡ within64 (T.Element.meaning.claim first.now + U.Element.meaning.claim second.now) }
{
    let claimed = first.claim()?;
    claimed.checked_add(second.claim()?)
}

impl<T: Element, U: Element> Element for (T, U) {
    ghost meaning = { pair T.Element.meaning U.Element.meaning };

    fn encode<E: Encoder>(&self, encoder: &mut E) -> Result<(), EncodeError> {
        encode_both(&self.0, &self.1, encoder)
    }

    fn claim(&self) -> Option<u64> {
        claim_both(&self.0, &self.1)
    }
}
