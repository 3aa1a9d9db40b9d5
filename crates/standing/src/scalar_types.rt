//! The scalars: each has the relation of its public document.
ghost use Rattle.format.specs.declared.error.IntegerType.TheVariants.{U16, U32, U64, Usize, I16, I32, I64};
ghost use Rattle.meanings.proofs.OfScalars.{byte_stands, truth_stands, unsigned_stands, signed_stands, double_stands, character_stands, duration_stands};
ghost use Rattle.format.specs.Standing.{UnsignedStands, SignedStands, ByteStands, TruthStands, DoubleStands, CharStands, DurationStands};

use crate::Standing;
use decodes::decode::Decode;
use elements::element::Element;
use format::double::F64;
use format::duration::Duration;
use format::scalar::Char;

// One impl to a type, of two lines: the relation and the law.
impl Standing for u8 {
    ghost stands = { λ o i. ByteStands };

    ghost law = { byte_stands };
}

impl Standing for bool {
    ghost stands = { λ o i. TruthStands };

    ghost law = { truth_stands };
}

impl Standing for u16 {
    ghost stands = { UnsignedStands 2 };

    ghost law = { unsigned_stands U16 };
}

impl Standing for u32 {
    ghost stands = { UnsignedStands 4 };

    ghost law = { unsigned_stands U32 };
}

impl Standing for u64 {
    ghost stands = { UnsignedStands 8 };

    ghost law = { unsigned_stands U64 };
}

impl Standing for usize {
    ghost stands = { UnsignedStands 8 };

    ghost law = { unsigned_stands Usize };
}

impl Standing for i16 {
    ghost stands = { SignedStands 2 };

    ghost law = { signed_stands I16 };
}

impl Standing for i32 {
    ghost stands = { SignedStands 4 };

    ghost law = { signed_stands I32 };
}

impl Standing for i64 {
    ghost stands = { SignedStands 8 };

    ghost law = { signed_stands I64 };
}

impl Standing for F64 {
    ghost stands = { λ o i. DoubleStands o };

    ghost law = { double_stands };
}

impl Standing for Char {
    ghost stands = { λ o i. CharStands };

    ghost law = { character_stands };
}

impl Standing for Duration {
    ghost stands = { DurationStands };

    ghost law = { duration_stands };
}
