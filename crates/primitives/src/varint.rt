//! Integers: fixed at their full width, or variable by their size. One text for all widths.
ghost use Rattle.format.specs.Integers.{tagged, variable, unsigned_writing, zigzag, signed_writing};
ghost use Rattle.format.specs.Numbers.{bytes};
ghost use Rattle.interfaces.specs.Calls.{Writes, Offers};
ghost use Rattle.primitives.specs.Widths.{size};
ghost use Rattle.std.specs.Prelude.{◌≡◌};

use format::config::{Endianness, IntEncoding};
use format::error::EncodeError;
use interfaces::config::Policy;
use interfaces::enc::encoder::Encoder;

/// The byte before a number in two bytes, in four and in eight; all below are numbers themselves.
const U16_BYTE: u8 = 251;

const U32_BYTE: u8 = 252;

const U64_BYTE: u8 = 253;

/// How many bytes an integer has.
#[derive(Clone, Copy, PartialEq, Eq, Debug)]
pub enum Width {
    /// Two bytes.
    Two,
    /// Four bytes.
    Four,
    /// Eight bytes.
    Eight,
}

impl Width {
    /// As a number.
    pub fn size(self) -> usize
        ensures { result ≡ size self }
    {
        match self {
            Width::Two => 2,
            Width::Four => 4,
            Width::Eight => 8,
        }
    }
}

/// Writes the lowest bytes of a number, as many as the width says, in the policy's byte order and as one piece.
pub fn put_number<E: Encoder>(encoder: &mut E, width: Width, n: u64) -> Result<(), EncodeError>
    ensures { Writes E.Encoder E.W.Writer (bytes E.C.Policy.meaning.order (size width) n) encoder.old result encoder.new }
{
    let size = width.size();
    // A constant of the policy is matched, so one arm is left when this is compiled; a closure would carry both.
    match E::C::endianness() {
        Endianness::Little => encoder.write(&n.to_le_bytes()[0..size]),
        Endianness::Big => encoder.write(&n.to_be_bytes()[8 - size..8]),
    }
}

/// Offers a tag, and then a number in that many bytes.
fn put_tagged<E: Encoder>(encoder: &mut E, tag: u8, width: Width, n: u64) -> Result<(), EncodeError>
    ensures { Offers E.Encoder E.W.Writer (tagged E.C.Policy.meaning.order tag (size width) n) encoder.old result encoder.new }
{
    encoder.write(&[tag])?;
    put_number(encoder, width, n)
}

/// Offers the variable writing of a number.
fn put_variable<E: Encoder>(encoder: &mut E, n: u64) -> Result<(), EncodeError>
    ensures { Offers E.Encoder E.W.Writer (variable E.C.Policy.meaning.order n) encoder.old result encoder.new }
{
    if n < 251 {
        encoder.write(&[n as u8])
    } else if n < 0x1_0000 {
        put_tagged(encoder, U16_BYTE, Width::Two, n)
    } else if n < 0x1_0000_0000 {
        put_tagged(encoder, U32_BYTE, Width::Four, n)
    } else {
        put_tagged(encoder, U64_BYTE, Width::Eight, n)
    }
}

/// Offers the writing of an unsigned integer of a width.
pub fn encode_unsigned<E: Encoder>(encoder: &mut E, width: Width, n: u64) -> Result<(), EncodeError>
    ensures { Offers E.Encoder E.W.Writer (unsigned_writing (size width) E.C.Policy.meaning.order E.C.Policy.meaning.encoding n) encoder.old result encoder.new }
{
    // A constant of the policy is matched, so one arm is left when this is compiled; a closure would carry both.
    match E::C::integer_encoding() {
        IntEncoding::Fixed => put_number(encoder, width, n),
        IntEncoding::Variable => put_variable(encoder, n),
    }
}

/// The zigzag: 2n, or -2n - 1 below zero.
fn zigzag(n: i64) -> u64
    ensures { result ≡ zigzag n }
{
    if n < 0 {
        2 * (!n) as u64 + 1
    } else {
        2 * n as u64
    }
}

/// Offers the writing of a signed integer of a width; of one that does not fit the width, that of its lowest bytes.
pub fn encode_signed<E: Encoder>(encoder: &mut E, width: Width, n: i64) -> Result<(), EncodeError>
    ensures { Offers E.Encoder E.W.Writer (signed_writing (size width) E.C.Policy.meaning.order E.C.Policy.meaning.encoding n) encoder.old result encoder.new }
{
    // A constant of the policy is matched, so one arm is left when this is compiled; a closure would carry both.
    match E::C::integer_encoding() {
        IntEncoding::Fixed => put_number(encoder, width, n.cast_unsigned()),
        IntEncoding::Variable => put_variable(encoder, zigzag(n)),
    }
}
