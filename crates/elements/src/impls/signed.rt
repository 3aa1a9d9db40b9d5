//! The signed integers.
ghost use Rattle.elements.specs.Scalars.{signed};

use crate::element::Element;
use format::error::EncodeError;
use interfaces::enc::encoder::Encoder;
use primitives::varint::{Width, encode_signed};

// One impl to a type. One impl for all integers is to be had, over a trait that each type writes: but each would say there what it says in its impls here, with
// two conversions and the laws that tie them, and the trait would come on top; the work itself is one text already, over the width.
impl Element for i16 {
    ghost meaning = { signed 2 };

    fn encode<E: Encoder>(&self, encoder: &mut E) -> Result<(), EncodeError> {
        encode_signed(encoder, Width::Two, i64::from(*self))
    }

    fn claim(&self) -> Option<u64> {
        Some(2)
    }
}

impl Element for i32 {
    ghost meaning = { signed 4 };

    fn encode<E: Encoder>(&self, encoder: &mut E) -> Result<(), EncodeError> {
        encode_signed(encoder, Width::Four, i64::from(*self))
    }

    fn claim(&self) -> Option<u64> {
        Some(4)
    }
}

impl Element for i64 {
    ghost meaning = { signed 8 };

    fn encode<E: Encoder>(&self, encoder: &mut E) -> Result<(), EncodeError> {
        encode_signed(encoder, Width::Eight, *self)
    }

    fn claim(&self) -> Option<u64> {
        Some(8)
    }
}
