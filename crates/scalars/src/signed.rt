//! Signed integers: the number that was read, turned back by two's complement or by the zigzag. One text for all widths.
//!
//! That a number fits its type is a clause here, as in `parsers`, since which type is asked for is a value.
ghost use Rattle.std.specs.Prelude.{◌≡◌, ◌+◌, ◌^◌, true};
ghost use Rattle.format.specs.Integers.{unsigned_range, signed_range, from_zigzag, from_complement};
ghost use Rattle.interfaces.specs.Calls.{Reads};
ghost use Rattle.interfaces.specs.Decodes.{Passes};
ghost use Rattle.readings.specs.Integers.{type_width};
ghost use Rattle.readings.specs.Scalars.{signed_reading};

use format::config::IntEncoding;
use format::error::{DecodeError, IntegerType};
use interfaces::config::Policy;
use interfaces::de::decoder::Decoder;
use parsers::varint::{decode_integer, type_width};

// The highest number of an integer type's width.
fn highest(asked: IntegerType) -> u64
    ensures { result + 1 ≡ 256 ^ type_width asked }
{
    u64::MAX >> (64 - 8 * type_width(asked))
}

// Back from two's complement: above the middle, the number less 256^w.
fn from_complement(asked: IntegerType, n: u64) -> i64
    requires { unsigned_range (type_width asked) n ≡ true }
    ensures value { result ≡ from_complement (type_width asked) n }
    ensures range { signed_range (type_width asked) result ≡ true }
{
    let highest = highest(asked);
    if n <= highest / 2 {
        n as i64
    } else {
        !((highest - n) as i64)
    }
}

// Back from the zigzag: n / 2 where n is even, and -(n + 1) / 2 where it is odd.
fn from_zigzag(asked: IntegerType, n: u64) -> i64
    requires { unsigned_range (type_width asked) n ≡ true }
    ensures value { result ≡ from_zigzag n }
    ensures range { signed_range (type_width asked) result ≡ true }
{
    let half = (n / 2) as i64;
    if n % 2 == 0 { half } else { !half }
}

/// Reads a signed integer of the type that is asked for.
pub fn decode_signed<D: Decoder>(decoder: &mut D, asked: IntegerType) -> Result<i64, DecodeError>
    ensures did { Reads D.Decoder D.C.Policy D.R.Reader (signed_reading asked D.C.Policy.meaning.order D.C.Policy.meaning.encoding) decoder.old result decoder.new }
    ensures range { Passes (signed_range (type_width asked)) result }
{
    let n = decode_integer(decoder, asked)?;
    // A constant of the policy is matched, so one arm is left when this is compiled; a closure would carry both.
    match D::C::integer_encoding() {
        IntEncoding::Fixed => Ok(from_complement(asked, n)),
        IntEncoding::Variable => Ok(from_zigzag(asked, n)),
    }
}
