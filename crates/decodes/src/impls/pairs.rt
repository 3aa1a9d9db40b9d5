//! The pair: its first and then its second. The sum types are written by the same text, as a tag and then a value.
ghost use Rattle.meanings.proofs.Laws.{pair_laws};
ghost use Rattle.readings.specs.Compounds.{pair_reading};

use crate::decode::Decode;
use elements::element::Element;
use format::error::DecodeError;
use interfaces::de::decoder::Decoder;

/// A first value that was decoded is let go where the second is refused, so its type is `Drop`.
impl<T: Decode + Drop, U: Decode> Decode for (T, U) {
    ghost reading = { λ o i. pair_reading (T.Decode.reading o i) (U.Decode.reading o i) };

    ghost laws = { pair_laws T.Element.meaning U.Element.meaning T.Decode.reading U.Decode.reading T.Decode.laws U.Decode.laws };

    fn decode_value<D: Decoder>(decoder: &mut D) -> Result<(T, U), DecodeError> {
        let first = T::decode(decoder)?;
        let second = U::decode(decoder)?;
        Ok((first, second))
    }
}
