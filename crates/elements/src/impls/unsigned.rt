//! The unsigned integers wider than a byte.
ghost use Rattle.elements.specs.Scalars.{unsigned};

use crate::element::Element;
use format::error::EncodeError;
use interfaces::enc::encoder::Encoder;
use primitives::varint::{Width, encode_unsigned};

// One impl to a type. One impl for all integers is to be had, over a trait that each type writes: but each would say there what it says in its impls here, with
// two conversions and the laws that tie them, and the trait would come on top; the work itself is one text already, over the width.
impl Element for u16 {
    ghost meaning = { unsigned 2 };

    fn encode<E: Encoder>(&self, encoder: &mut E) -> Result<(), EncodeError> {
        encode_unsigned(encoder, Width::Two, u64::from(*self))
    }

    fn claim(&self) -> Option<u64> {
        Some(2)
    }
}

impl Element for u32 {
    ghost meaning = { unsigned 4 };

    fn encode<E: Encoder>(&self, encoder: &mut E) -> Result<(), EncodeError> {
        encode_unsigned(encoder, Width::Four, u64::from(*self))
    }

    fn claim(&self) -> Option<u64> {
        Some(4)
    }
}

impl Element for u64 {
    ghost meaning = { unsigned 8 };

    fn encode<E: Encoder>(&self, encoder: &mut E) -> Result<(), EncodeError> {
        encode_unsigned(encoder, Width::Eight, *self)
    }

    fn claim(&self) -> Option<u64> {
        Some(8)
    }
}

/// It goes as `u64`.
impl Element for usize {
    ghost meaning = { unsigned 8 };

    fn encode<E: Encoder>(&self, encoder: &mut E) -> Result<(), EncodeError> {
        (*self as u64).encode(encoder)
    }

    fn claim(&self) -> Option<u64> {
        (*self as u64).claim()
    }
}
