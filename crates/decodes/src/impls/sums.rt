//! `Option`, `Result` and `Bound`: a tag, and then the value that the case has.
ghost use Rattle.meanings.proofs.Laws.{option_laws, result_laws, bound_laws};
ghost use Rattle.readings.specs.Compounds.{option_reading, result_reading, bound_reading};

use crate::decode::Decode;
use elements::element::Element;
use format::error::DecodeError;
use interfaces::de::decoder::Decoder;
use std::ops::Bound;

impl<T: Decode> Decode for Option<T> {
    ghost reading = { λ o i. option_reading (T.Decode.reading o i) };

    ghost laws = { option_laws T.Element.meaning T.Decode.reading T.Decode.laws };

    fn decode_value<D: Decoder>(decoder: &mut D) -> Result<Option<T>, DecodeError> {
        match u8::decode(decoder)? {
            0 => Ok(None),
            1 => Ok(Some(T::decode(decoder)?)),
            found => Err(DecodeError::UnexpectedVariant {
                found: u32::from(found),
                min: 0,
                max: 1,
            }),
        }
    }
}

impl<T: Decode, U: Decode> Decode for Result<T, U> {
    ghost reading = { λ o i. result_reading o i (T.Decode.reading o i) (U.Decode.reading o i) };

    ghost laws = { result_laws T.Element.meaning U.Element.meaning T.Decode.reading U.Decode.reading T.Decode.laws U.Decode.laws };

    fn decode_value<D: Decoder>(decoder: &mut D) -> Result<Result<T, U>, DecodeError> {
        match u32::decode(decoder)? {
            0 => Ok(Ok(T::decode(decoder)?)),
            1 => Ok(Err(U::decode(decoder)?)),
            found => Err(DecodeError::UnexpectedVariant {
                found,
                min: 0,
                max: 1,
            }),
        }
    }
}

impl<T: Decode> Decode for Bound<T> {
    ghost reading = { λ o i. bound_reading o i (T.Decode.reading o i) };

    ghost laws = { bound_laws T.Element.meaning T.Decode.reading T.Decode.laws };

    fn decode_value<D: Decoder>(decoder: &mut D) -> Result<Bound<T>, DecodeError> {
        match u32::decode(decoder)? {
            0 => Ok(Bound::Unbounded),
            1 => Ok(Bound::Included(T::decode(decoder)?)),
            2 => Ok(Bound::Excluded(T::decode(decoder)?)),
            found => Err(DecodeError::UnexpectedVariant {
                found,
                min: 0,
                max: 2,
            }),
        }
    }
}
