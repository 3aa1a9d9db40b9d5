//! The refusals. docs/FORMAT.md has their numbers, and `specs/Refusals.antt` ties them to these cases.

pub mod display;

/// Why an encode was refused.
#[derive(Clone, Copy, PartialEq, Eq, Debug)]
pub enum EncodeError {
    /// A piece was longer than what the writer has free.
    UnexpectedEnd,
}

/// Why no value of a bounded type was made.
#[derive(Clone, Copy, PartialEq, Eq, Debug)]
pub enum ValueError {
    /// The number is no Unicode scalar value.
    NotScalar,
    /// The seconds that the nanoseconds carry pass 2^64 - 1.
    InvalidDuration {
        /// The seconds asked for.
        secs: u64,
        /// The nanoseconds asked for.
        nanos: u32,
    },
}

/// An integer type, as the tag of a variable integer and the type that was asked for name it.
#[derive(Clone, Copy, PartialEq, Eq, Debug)]
pub enum IntegerType {
    /// `u16`
    U16,
    /// `u32`
    U32,
    /// `u64`
    U64,
    /// `u128`, which tag 254 stands for
    U128,
    /// `usize`
    Usize,
    /// `i16`
    I16,
    /// `i32`
    I32,
    /// `i64`
    I64,
    /// `i128`
    I128,
    /// Tag 255, which stands for no type.
    Reserved,
}

/// Why a decode was refused.
#[derive(Clone, Copy, PartialEq, Eq, Debug)]
pub enum DecodeError {
    /// Fewer bytes wait than are wanted.
    UnexpectedEnd {
        /// How many more are wanted.
        additional: u64,
    },
    /// The claim passes the limit.
    LimitExceeded,
    /// The tag of a variable integer is too wide for the type.
    InvalidIntegerType {
        /// The type that was asked for.
        expected: IntegerType,
        /// The type that the tag stands for.
        found: IntegerType,
    },
    /// The tag of a sum type stands for none of its cases.
    UnexpectedVariant {
        /// The tag.
        found: u32,
        /// The lowest tag that there is.
        min: u32,
        /// The highest tag that there is.
        max: u32,
    },
    /// The text is ill formed.
    Utf8 {
        /// The length of its longest well-formed beginning.
        valid_up_to: u64,
        /// How many bytes after that are the start of no character, or none where the text only ends too soon.
        error_len: Option<u8>,
    },
    /// The bytes are no character's UTF-8 form. Those that were not read are 0.
    InvalidCharEncoding {
        /// The first byte.
        first: u8,
        /// The second byte.
        second: u8,
        /// The third byte.
        third: u8,
        /// The fourth byte.
        fourth: u8,
    },
    /// The byte of a `bool` is above 1.
    InvalidBooleanValue {
        /// The byte.
        found: u8,
    },
    /// The seconds that the nanoseconds carry pass 2^64 - 1.
    InvalidDuration {
        /// The seconds as they were read.
        secs: u64,
        /// The nanoseconds as they were read.
        nanos: u32,
    },
}

/// Why a ring was not filled.
#[derive(Clone, Copy, PartialEq, Eq, Debug)]
pub enum RingError {
    /// The start is not below the buffer's length, or the count is above it.
    BadRing,
}
