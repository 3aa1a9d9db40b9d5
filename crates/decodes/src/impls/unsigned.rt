//! The unsigned integers wider than a byte.
ghost use Rattle.format.specs.declared.error.IntegerType.TheVariants.{U16, U32, U64, Usize};
ghost use Rattle.meanings.proofs.Laws.{unsigned_laws};
ghost use Rattle.readings.specs.Integers.{integer_reading};

use crate::decode::Decode;
use elements::element::Element;
use format::error::{DecodeError, IntegerType};
use interfaces::de::decoder::Decoder;
use parsers::varint::decode_integer;

// One impl to a type. One impl for all integers is to be had, over a trait that each type writes: but each would say there what it says in its impls here, with
// two conversions and the laws that tie them, and the trait would come on top; the work itself is one text already, over the width.
impl Decode for u16 {
    ghost reading = { integer_reading U16 };

    ghost laws = { unsigned_laws U16 };

    fn decode_value<D: Decoder>(decoder: &mut D) -> Result<u16, DecodeError> {
        Ok(decode_integer(decoder, IntegerType::U16)? as u16)
    }
}

impl Decode for u32 {
    ghost reading = { integer_reading U32 };

    ghost laws = { unsigned_laws U32 };

    fn decode_value<D: Decoder>(decoder: &mut D) -> Result<u32, DecodeError> {
        Ok(decode_integer(decoder, IntegerType::U32)? as u32)
    }
}

impl Decode for u64 {
    ghost reading = { integer_reading U64 };

    ghost laws = { unsigned_laws U64 };

    fn decode_value<D: Decoder>(decoder: &mut D) -> Result<u64, DecodeError> {
        decode_integer(decoder, IntegerType::U64)
    }
}

/// It goes as `u64`.
impl Decode for usize {
    ghost reading = { integer_reading Usize };

    ghost laws = { unsigned_laws Usize };

    fn decode_value<D: Decoder>(decoder: &mut D) -> Result<usize, DecodeError> {
        Ok(decode_integer(decoder, IntegerType::Usize)? as usize)
    }
}
