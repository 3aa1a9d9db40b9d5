//! The character.
ghost use Rattle.elements.specs.Scalars.{character};

use crate::element::Element;
use format::error::EncodeError;
use format::scalar::Char;
use interfaces::enc::encoder::Encoder;
use primitives::utf8::{encode_utf8, utf8_width};

impl Element for Char {
    ghost meaning = { character };

    fn encode<E: Encoder>(&self, encoder: &mut E) -> Result<(), EncodeError> {
        encode_utf8(encoder, *self)
    }

    fn claim(&self) -> Option<u64> {
        Some(utf8_width(*self))
    }
}
