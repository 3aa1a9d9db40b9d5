//! The double.
ghost use Rattle.elements.specs.Scalars.{double};

use crate::element::Element;
use format::double::F64;
use format::error::EncodeError;
use interfaces::enc::encoder::Encoder;
use primitives::varint::{Width, put_number};

impl Element for F64 {
    ghost meaning = { double };

    fn encode<E: Encoder>(&self, encoder: &mut E) -> Result<(), EncodeError> {
        put_number(encoder, Width::Eight, self.to_bits())
    }

    fn claim(&self) -> Option<u64> {
        Some(8)
    }
}
