//! The signed integers.
ghost use Rattle.format.specs.declared.error.IntegerType.TheVariants.{I16, I32, I64};
ghost use Rattle.meanings.proofs.Laws.{signed_laws};
ghost use Rattle.readings.specs.Scalars.{signed_reading};

use crate::decode::Decode;
use elements::element::Element;
use format::error::{DecodeError, IntegerType};
use interfaces::de::decoder::Decoder;
use scalars::signed::decode_signed;

// One impl to a type. One impl for all integers is to be had, over a trait that each type writes: but each would say there what it says in its impls here, with
// two conversions and the laws that tie them, and the trait would come on top; the work itself is one text already, over the width.
impl Decode for i16 {
    ghost reading = { signed_reading I16 };

    ghost laws = { signed_laws I16 };

    fn decode_value<D: Decoder>(decoder: &mut D) -> Result<i16, DecodeError> {
        Ok(decode_signed(decoder, IntegerType::I16)? as i16)
    }
}

impl Decode for i32 {
    ghost reading = { signed_reading I32 };

    ghost laws = { signed_laws I32 };

    fn decode_value<D: Decoder>(decoder: &mut D) -> Result<i32, DecodeError> {
        Ok(decode_signed(decoder, IntegerType::I32)? as i32)
    }
}

impl Decode for i64 {
    ghost reading = { signed_reading I64 };

    ghost laws = { signed_laws I64 };

    fn decode_value<D: Decoder>(decoder: &mut D) -> Result<i64, DecodeError> {
        decode_signed(decoder, IntegerType::I64)
    }
}
