//! Integers: fixed at their full width, or variable by their tag. One text for all widths.
//!
//! That a number fits its type is a clause of each call and not the promise of a type of its own: which type is asked for is a value here, and what is read is
//! narrowed at once where it is known.
ghost use Rattle.std.specs.Prelude.{◌≡◌, ◌+◌, ◌≤◌, true, length, take};
ghost use Rattle.format.specs.Integers.{unsigned_range};
ghost use Rattle.format.specs.Numbers.{number};
ghost use Rattle.interfaces.specs.Calls.{Reads};
ghost use Rattle.interfaces.specs.Decodes.{Passes};
ghost use Rattle.primitives.specs.Widths.{size};
ghost use Rattle.parsers.specs.Tags.{tag_kind, seen_in, SeenRange};
ghost use Rattle.readings.specs.Integers.{type_width, peek_name, named_for, number_reading, after_tag, tag_first, variable_reading, integer_reading};

use format::config::{Endianness, IntEncoding};
use format::error::{DecodeError, IntegerType};
use interfaces::config::Policy;
use interfaces::de::decoder::Decoder;
use primitives::varint::Width;

/// The width of an integer type.
fn width_of(t: IntegerType) -> Width
    ensures { size result ≡ type_width t }
{
    match t {
        IntegerType::U16 | IntegerType::I16 => Width::Two,
        IntegerType::U32 | IntegerType::I32 => Width::Four,
        _ => Width::Eight,
    }
}

/// How many bytes an integer type has.
pub fn type_width(t: IntegerType) -> usize
    ensures { result ≡ type_width t }
{
    width_of(t).size()
}

/// The type that a fault names as expected where the integer was peeked.
fn peek_name(t: IntegerType) -> IntegerType
    ensures { result ≡ peek_name t }
{
    match t {
        IntegerType::U64 => IntegerType::U32,
        IntegerType::I64 => IntegerType::I32,
        _ => t,
    }
}

/// A type's name, turned to a signed one where the type that was asked for is signed.
fn named_for(asked: IntegerType, t: IntegerType) -> IntegerType
    ensures { result ≡ named_for asked t }
{
    match asked {
        IntegerType::I16 | IntegerType::I32 | IntegerType::I64 | IntegerType::I128 => match t {
            IntegerType::U16 => IntegerType::I16,
            IntegerType::U32 => IntegerType::I32,
            IntegerType::U64 => IntegerType::I64,
            IntegerType::U128 => IntegerType::I128,
            _ => t,
        },
        _ => t,
    }
}

/// The width of the number that follows a tag, or none where the tag is the number itself. A tag that is too wide for the type that was asked for is refused
/// with the type that it stands for.
pub fn judge_tag(asked: IntegerType, tag: u8) -> Result<Option<Width>, IntegerType>
    ensures { result ≡ tag_kind asked tag }
{
    let width = type_width(asked);
    match tag {
        0..=250 => Ok(None),
        251 => Ok(Some(Width::Two)),
        252 if width >= 4 => Ok(Some(Width::Four)),
        253 if width >= 8 => Ok(Some(Width::Eight)),
        252 => Err(named_for(asked, IntegerType::U32)),
        253 => Err(named_for(asked, IntegerType::U64)),
        254 => Err(named_for(asked, IntegerType::U128)),
        _ => Err(IntegerType::Reserved),
    }
}

/// The number that at most eight bytes stand for: that of eight bytes, of which the others are 0.
// Inlined, so that the length is known where the copy is compiled.
#[inline(always)]
fn number_of(order: Endianness, bytes: &[u8]) -> u64
    requires { length bytes.now ≤ 8 }
    ensures value { result ≡ number order bytes.now }
    ensures range { unsigned_range (length bytes.now) result ≡ true }
{
    let mut eight = [0u8; 8];
    let len = bytes.len();
    // A closure would carry both arms.
    match order {
        Endianness::Little => {
            eight[..len].copy_from_slice(bytes);
            u64::from_le_bytes(eight)
        }
        Endianness::Big => {
            eight[8 - len..].copy_from_slice(bytes);
            u64::from_be_bytes(eight)
        }
    }
}

/// Reads a number in so many bytes in the policy's byte order.
fn read_bytes<const N: usize, D: Decoder>(decoder: &mut D) -> Result<u64, DecodeError>
    requires { N ≤ 8 }
    ensures did { Reads D.Decoder D.C.Policy D.R.Reader (number_reading D.C.Policy.meaning.order N) decoder.old result decoder.new }
    ensures range { Passes (unsigned_range N) result }
{
    let mut bytes = [0u8; N];
    decoder.read(&mut bytes)?;
    Ok(number_of(D::C::endianness(), &bytes))
}

/// Reads a number of a width in the policy's byte order.
pub fn read_number<D: Decoder>(decoder: &mut D, width: Width) -> Result<u64, DecodeError>
    ensures did { Reads D.Decoder D.C.Policy D.R.Reader (number_reading D.C.Policy.meaning.order (size width)) decoder.old result decoder.new }
    ensures range { Passes (unsigned_range (size width)) result }
{
    // An arm to a width, so that each has a buffer of its own length: one buffer of eight for all was tried, and is slower.
    match width {
        Width::Two => read_bytes::<2, D>(decoder),
        Width::Four => read_bytes::<4, D>(decoder),
        Width::Eight => read_bytes::<8, D>(decoder),
    }
}

/// Reads what a tag says to the type that was asked for.
fn read_after_tag<D: Decoder>(
    decoder: &mut D,
    asked: IntegerType,
    tag: u8,
) -> Result<u64, DecodeError>
    ensures did { Reads D.Decoder D.C.Policy D.R.Reader (after_tag asked D.C.Policy.meaning.order tag) decoder.old result decoder.new }
    ensures range { Passes (unsigned_range (type_width asked)) result }
{
    match judge_tag(asked, tag) {
        Ok(None) => Ok(u64::from(tag)),
        Ok(Some(width)) => read_number(decoder, width),
        Err(found) => Err(DecodeError::InvalidIntegerType {
            expected: asked,
            found,
        }),
    }
}

/// Reads a tag, and then what it says.
fn read_tagged<D: Decoder>(decoder: &mut D, asked: IntegerType) -> Result<u64, DecodeError>
    ensures did { Reads D.Decoder D.C.Policy D.R.Reader (tag_first asked D.C.Policy.meaning.order) decoder.old result decoder.new }
    ensures range { Passes (unsigned_range (type_width asked)) result }
{
    // The first of the reading's two steps; a call that reads a byte would give a reading of its own.
    let mut tag = [0u8; 1];
    decoder.read(&mut tag)?;
    read_after_tag(decoder, asked, tag[0])
}

/// The number at the front of some bytes, of which there are enough.
fn number_at(bytes: &[u8], order: Endianness, width: Width) -> u64
    requires { size width ≤ length bytes.now }
    ensures value { result ≡ number order (take (size width) bytes.now) }
    ensures range { unsigned_range (size width) result ≡ true }
{
    number_of(order, &bytes[..width.size()])
}

/// The number at the front of the bytes in view, of which there is one more than the type has, and how many of them it takes; or the type that a tag stands
/// for which is too wide.
fn parse_seen(
    bytes: &[u8],
    asked: IntegerType,
    order: Endianness,
) -> Result<(u64, usize), IntegerType>
    requires { length bytes.now ≡ type_width asked + 1 }
    ensures value { result ≡ seen_in asked order bytes.now }
    ensures range { SeenRange asked result }
{
    match bytes {
        [] => unreachable!(),
        [tag, rest @ ..] => match judge_tag(asked, *tag)? {
            None => Ok((u64::from(*tag), 1)),
            Some(width) => Ok((number_at(rest, order, width), 1 + width.size())),
        },
    }
}

/// Reads a variable integer: from what is in view where that is one byte more than the type has, and else the tag and then the number.
pub fn read_variable<D: Decoder>(decoder: &mut D, asked: IntegerType) -> Result<u64, DecodeError>
    ensures did { Reads D.Decoder D.C.Policy D.R.Reader (variable_reading asked D.C.Policy.meaning.order) decoder.old result decoder.new }
    ensures range { Passes (unsigned_range (type_width asked)) result }
{
    let seen = match decoder.peek_read(type_width(asked) + 1) {
        Some(bytes) => parse_seen(bytes, asked, D::C::endianness()),
        None => return read_tagged(decoder, asked),
    };
    match seen {
        Ok((value, used)) => {
            decoder.consume(used);
            Ok(value)
        }
        Err(found) => Err(DecodeError::InvalidIntegerType {
            expected: peek_name(asked),
            found,
        }),
    }
}

/// Reads an integer under the policy's integer encoding, after its width was claimed.
pub fn decode_integer<D: Decoder>(decoder: &mut D, asked: IntegerType) -> Result<u64, DecodeError>
    ensures did { Reads D.Decoder D.C.Policy D.R.Reader (integer_reading asked D.C.Policy.meaning.order D.C.Policy.meaning.encoding) decoder.old result decoder.new }
    ensures range { Passes (unsigned_range (type_width asked)) result }
{
    decoder.claim_bytes_read(type_width(asked) as u64)?;
    // A constant of the policy is matched, so one arm is left when this is compiled; a closure would carry both.
    match D::C::integer_encoding() {
        IntEncoding::Fixed => read_number(decoder, width_of(asked)),
        IntEncoding::Variable => read_variable(decoder, asked),
    }
}
