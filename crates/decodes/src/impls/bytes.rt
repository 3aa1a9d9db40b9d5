//! `u8` and `bool`: one byte in both integer encodings.
ghost use Rattle.meanings.proofs.Laws.{byte_laws, truth_laws};
ghost use Rattle.readings.specs.Scalars.{byte_reading, truth_reading};

use crate::decode::Decode;
use elements::element::Element;
use format::error::DecodeError;
use interfaces::de::decoder::Decoder;
use scalars::bytes::{decode_bool, decode_byte};

impl Decode for u8 {
    ghost reading = { λ o i. byte_reading };

    ghost laws = { byte_laws };

    fn decode_value<D: Decoder>(decoder: &mut D) -> Result<u8, DecodeError> {
        decode_byte(decoder)
    }
}

impl Decode for bool {
    ghost reading = { λ o i. truth_reading };

    ghost laws = { truth_laws };

    fn decode_value<D: Decoder>(decoder: &mut D) -> Result<bool, DecodeError> {
        decode_bool(decoder)
    }
}
