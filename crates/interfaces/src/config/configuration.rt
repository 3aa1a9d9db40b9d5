//! Policies put together from a byte order, an integer encoding and a limit, and the five that are supplied.
//!
//! Each choice is a type, as in bincode: a policy is put together from types, and a const parameter could be a number or a truth value alone.
ghost use Rattle.std.specs.Prelude.{◌≡◌, ℕ, Some, None, Option as Maybe, refl};
ghost use Rattle.format.specs.declared.config.Endianness.{Endianness as Order};
ghost use Rattle.format.specs.declared.config.Endianness.TheVariants.{Little, Big};
ghost use Rattle.format.specs.declared.config.IntEncoding.{IntEncoding as Encoding};
ghost use Rattle.format.specs.declared.config.IntEncoding.TheVariants.{Fixed, Variable};
ghost use Rattle.interfaces.specs.Policies.{PolicyMeaning, Below64};

use crate::config::Policy;
use format::config::{Endianness, IntEncoding};

/// A byte order as a type.
pub trait EndianConfig: Copy {
    ghost ENDIAN: { Order };

    /// The byte order.
    const ENDIAN: Endianness;

    /// The byte order.
    final fn endianness() -> Endianness
        ensures { result ≡ ENDIAN }
    {
        Self::ENDIAN
    }
}

/// The lowest byte first.
#[derive(Clone, Copy)]
pub struct LittleEndian;

impl EndianConfig for LittleEndian {
    ghost ENDIAN = { Little };

    const ENDIAN: Endianness = Endianness::Little;
}

/// The highest byte first.
#[derive(Clone, Copy)]
pub struct BigEndian;

impl EndianConfig for BigEndian {
    ghost ENDIAN = { Big };

    const ENDIAN: Endianness = Endianness::Big;
}

/// An integer encoding as a type.
pub trait IntEncodingConfig: Copy {
    ghost INT_ENCODING: { Encoding };

    /// The integer encoding.
    const INT_ENCODING: IntEncoding;

    /// The integer encoding.
    final fn integer_encoding() -> IntEncoding
        ensures { result ≡ INT_ENCODING }
    {
        Self::INT_ENCODING
    }
}

/// Integers in as few bytes as their size asks for.
#[derive(Clone, Copy)]
pub struct Varint;

impl IntEncodingConfig for Varint {
    ghost INT_ENCODING = { Variable };

    const INT_ENCODING: IntEncoding = IntEncoding::Variable;
}

/// Integers at the full width of their type.
#[derive(Clone, Copy)]
pub struct Fixint;

impl IntEncodingConfig for Fixint {
    ghost INT_ENCODING = { Fixed };

    const INT_ENCODING: IntEncoding = IntEncoding::Fixed;
}

/// A limit as a type.
pub trait LimitConfig: Copy {
    ghost LIMIT: { Maybe ℕ };

    /// The limit, if there is one.
    const LIMIT: Option<u64>;

    /// The limit, if there is one.
    final fn byte_limit() -> Option<u64>
        ensures value { result ≡ LIMIT }
        ensures bound { Below64 LIMIT }
    {
        Self::LIMIT
    }
}

/// No limit.
#[derive(Clone, Copy)]
pub struct NoLimit;

impl LimitConfig for NoLimit {
    ghost LIMIT = { None };

    const LIMIT: Option<u64> = None;
}

/// A limit of N bytes.
#[derive(Clone, Copy)]
pub struct Limit<const N: u64>;

impl<const N: u64> LimitConfig for Limit<N> {
    ghost LIMIT = { Some N };

    const LIMIT: Option<u64> = Some(N);
}

/// The policy of a byte order, an integer encoding and a limit.
#[derive(Clone, Copy)]
pub struct Configuration<E, I, L> {
    /// The byte order.
    pub endian: E,
    /// The integer encoding.
    pub int_encoding: I,
    /// The limit.
    pub limit: L,
}

impl<E: EndianConfig, I: IntEncodingConfig, L: LimitConfig> Policy for Configuration<E, I, L> {
    ghost meaning = { record { order = E.ENDIAN; encoding = I.INT_ENCODING; limit = L.LIMIT } };

    ghost ENDIAN = { E.ENDIAN };

    ghost INT_ENCODING = { I.INT_ENCODING };

    ghost LIMIT = { L.LIMIT };

    ghost agrees = { refl };

    const ENDIAN: Endianness = E::ENDIAN;

    const INT_ENCODING: IntEncoding = I::INT_ENCODING;

    const LIMIT: Option<u64> = L::LIMIT;
}

/// Little-endian, variable integers, no limit.
pub type LV = Configuration<LittleEndian, Varint, NoLimit>;
/// Little-endian, fixed integers, no limit.
pub type LF = Configuration<LittleEndian, Fixint, NoLimit>;
/// Big-endian, variable integers, no limit.
pub type BV = Configuration<BigEndian, Varint, NoLimit>;
/// Big-endian, fixed integers, no limit.
pub type BF = Configuration<BigEndian, Fixint, NoLimit>;
/// Big-endian, variable integers, limit 4,096.
pub type BV4096 = Configuration<BigEndian, Varint, Limit<4096>>;

/// The policy LV.
pub const LITTLE_VARIABLE: LV = Configuration {
    endian: LittleEndian,
    int_encoding: Varint,
    limit: NoLimit,
};
/// The policy LF.
pub const LITTLE_FIXED: LF = Configuration {
    endian: LittleEndian,
    int_encoding: Fixint,
    limit: NoLimit,
};
/// The policy BV.
pub const BIG_VARIABLE: BV = Configuration {
    endian: BigEndian,
    int_encoding: Varint,
    limit: NoLimit,
};
/// The policy BF.
pub const BIG_FIXED: BF = Configuration {
    endian: BigEndian,
    int_encoding: Fixint,
    limit: NoLimit,
};
/// The policy BV4096.
pub const BIG_VARIABLE_4096: BV4096 = Configuration {
    endian: BigEndian,
    int_encoding: Varint,
    limit: Limit,
};
