//! The character.
ghost use Rattle.meanings.proofs.Laws.{character_laws};
ghost use Rattle.readings.specs.Chars.{char_reading};

use crate::decode::Decode;
use elements::element::Element;
use format::error::DecodeError;
use format::scalar::Char;
use interfaces::de::decoder::Decoder;
use texts::scalar::decode_char;

impl Decode for Char {
    ghost reading = { λ o i. char_reading };

    ghost laws = { character_laws };

    fn decode_value<D: Decoder>(decoder: &mut D) -> Result<Char, DecodeError> {
        decode_char(decoder)
    }
}
