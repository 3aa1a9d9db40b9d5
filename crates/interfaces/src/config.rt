//! Policies: byte order, integer encoding, limit.
ghost use Rattle.std.specs.Prelude.{◌≡◌, ℕ, Option as Maybe};
ghost use Rattle.format.specs.declared.config.Endianness.{Endianness as Order};
ghost use Rattle.format.specs.declared.config.IntEncoding.{IntEncoding as Encoding};
ghost use Rattle.interfaces.specs.Policies.{PolicyMeaning, Below64};

use format::config::{Endianness, IntEncoding};

pub mod configuration;

/// What encoding and decoding are governed by: three constants. Anybody may add a policy.
// Code matches on them: what is matched is a constant of a type, so that one arm is left when it is compiled, and a closure would carry the same two arms.
pub trait Policy: Copy {
    ghost meaning: { PolicyMeaning };

    ghost ENDIAN: { Order };

    ghost INT_ENCODING: { Encoding };

    ghost LIMIT: { Maybe ℕ };

    ghost agrees: { meaning ≡ record { order = ENDIAN; encoding = INT_ENCODING; limit = LIMIT } };

    /// The byte order.
    const ENDIAN: Endianness;
    /// The integer encoding.
    const INT_ENCODING: IntEncoding;
    /// The limit on what a decoder may claim, if there is one.
    const LIMIT: Option<u64>;

    /// The byte order.
    final fn endianness() -> Endianness
        ensures { result ≡ meaning.order }
    {
        Self::ENDIAN
    }

    /// The integer encoding.
    final fn integer_encoding() -> IntEncoding
        ensures { result ≡ meaning.encoding }
    {
        Self::INT_ENCODING
    }

    /// The limit.
    final fn byte_limit() -> Option<u64>
        ensures value { result ≡ meaning.limit }
        ensures bound { Below64 meaning.limit }
    {
        Self::LIMIT
    }
}
