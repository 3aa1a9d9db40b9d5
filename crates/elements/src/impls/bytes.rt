//! `u8` and `bool`: one byte in both integer encodings.
ghost use Rattle.elements.specs.Scalars.{byte, truth};

use crate::element::Element;
use format::error::EncodeError;
use interfaces::enc::encoder::Encoder;

impl Element for u8 {
    ghost meaning = { byte };

    fn encode<E: Encoder>(&self, encoder: &mut E) -> Result<(), EncodeError> {
        encoder.write(&[*self])
    }

    fn claim(&self) -> Option<u64> {
        Some(1)
    }
}

impl Element for bool {
    ghost meaning = { truth };

    fn encode<E: Encoder>(&self, encoder: &mut E) -> Result<(), EncodeError> {
        u8::from(*self).encode(encoder)
    }

    fn claim(&self) -> Option<u64> {
        u8::from(*self).claim()
    }
}
