//! What the refusals are printed as. `specs/Shown.antt` says it, with the numbers of `specs/Refusals.antt`.
ghost use Rattle.std.specs.Prelude.{Some};
ghost use Rattle.format.specs.Shown.{encode_shown, value_shown, decode_shown, ring_shown, type_shown};

use super::{DecodeError, EncodeError, IntegerType, RingError, ValueError};
use std::error::Error;
use std::fmt;

#[tactic(auto, using(crate::proofs::Shown::encode_text))]
impl fmt::Display for EncodeError {
    ghost output = { λ e. Some (encode_shown e) };

    fn fmt<W: fmt::Write>(&self, f: &mut fmt::Formatter<W>) -> fmt::Result {
        match self {
            EncodeError::UnexpectedEnd => f.write_str("UnexpectedEnd (1)"),
        }
    }
}

#[tactic(auto, using(crate::proofs::Shown::value_texts))]
impl fmt::Display for ValueError {
    ghost output = { λ e. Some (value_shown e) };

    fn fmt<W: fmt::Write>(&self, f: &mut fmt::Formatter<W>) -> fmt::Result {
        match self {
            ValueError::NotScalar => f.write_str("NotScalar (10)"),
            ValueError::InvalidDuration { secs, nanos } => {
                write!(f, "InvalidDuration (9): secs {secs}, nanos {nanos}")
            }
        }
    }
}

impl fmt::Display for IntegerType {
    ghost output = { λ t. Some (type_shown t) };

    fn fmt<W: fmt::Write>(&self, f: &mut fmt::Formatter<W>) -> fmt::Result {
        f.write_str(match self {
            IntegerType::U16 => "u16",
            IntegerType::U32 => "u32",
            IntegerType::U64 => "u64",
            IntegerType::U128 => "u128",
            IntegerType::Usize => "usize",
            IntegerType::I16 => "i16",
            IntegerType::I32 => "i32",
            IntegerType::I64 => "i64",
            IntegerType::I128 => "i128",
            IntegerType::Reserved => "reserved",
        })
    }
}

#[tactic(auto, using(crate::proofs::Shown::decode_texts))]
impl fmt::Display for DecodeError {
    ghost output = { λ e. Some (decode_shown e) };

    fn fmt<W: fmt::Write>(&self, f: &mut fmt::Formatter<W>) -> fmt::Result {
        match self {
            DecodeError::UnexpectedEnd { additional } => {
                write!(f, "UnexpectedEnd (2): additional {additional}")
            }
            DecodeError::LimitExceeded => f.write_str("LimitExceeded (3)"),
            DecodeError::InvalidIntegerType { expected, found } => {
                write!(
                    f,
                    "InvalidIntegerType (4): expected {expected}, found {found}"
                )
            }
            DecodeError::UnexpectedVariant { found, min, max } => {
                write!(
                    f,
                    "UnexpectedVariant (5): found {found}, min {min}, max {max}"
                )
            }
            DecodeError::Utf8 {
                valid_up_to,
                error_len,
            } => match error_len {
                None => write!(f, "Utf8 (6): valid_up_to {valid_up_to}"),
                Some(n) => write!(f, "Utf8 (6): valid_up_to {valid_up_to}, error_len {n}"),
            },
            DecodeError::InvalidCharEncoding {
                first,
                second,
                third,
                fourth,
            } => {
                write!(
                    f,
                    "InvalidCharEncoding (7): bytes {first} {second} {third} {fourth}"
                )
            }
            DecodeError::InvalidBooleanValue { found } => {
                write!(f, "InvalidBooleanValue (8): found {found}")
            }
            DecodeError::InvalidDuration { secs, nanos } => {
                write!(f, "InvalidDuration (9): secs {secs}, nanos {nanos}")
            }
        }
    }
}

#[tactic(auto, using(crate::proofs::Shown::ring_text))]
impl fmt::Display for RingError {
    ghost output = { λ e. Some (ring_shown e) };

    fn fmt<W: fmt::Write>(&self, f: &mut fmt::Formatter<W>) -> fmt::Result {
        match self {
            RingError::BadRing => f.write_str("BadRing (11)"),
        }
    }
}

impl Error for EncodeError {}

impl Error for ValueError {}

impl Error for DecodeError {}

impl Error for RingError {}
