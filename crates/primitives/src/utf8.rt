//! The UTF-8 form of a character.
ghost use Rattle.std.specs.Prelude.{◌≡◌};
ghost use Rattle.format.specs.Utf8.{utf8, width, continuation};
ghost use Rattle.interfaces.specs.Calls.{Writes};

use format::error::EncodeError;
use format::scalar::Char;
use interfaces::enc::encoder::Encoder;

const TAG_CONT: u8 = 0b1000_0000;

const TAG_TWO_B: u8 = 0b1100_0000;

const TAG_THREE_B: u8 = 0b1110_0000;

const TAG_FOUR_B: u8 = 0b1111_0000;

const MAX_ONE_B: u32 = 0x80;

const MAX_TWO_B: u32 = 0x800;

const MAX_THREE_B: u32 = 0x1_0000;

/// The byte that carries the six lowest bits of a number.
fn continuation(n: u32) -> u8
    ensures { result ≡ continuation n }
{
    TAG_CONT + (n % 64) as u8
}

/// Writes the UTF-8 form of a character as one piece.
pub fn encode_utf8<E: Encoder>(encoder: &mut E, c: Char) -> Result<(), EncodeError>
    ensures { Writes E.Encoder E.W.Writer (utf8 c.code) encoder.old result encoder.new }
{
    let code = c.code();
    if code < MAX_ONE_B {
        encoder.write(&[code as u8])
    } else if code < MAX_TWO_B {
        encoder.write(&[TAG_TWO_B + (code / 64) as u8, continuation(code)])
    } else if code < MAX_THREE_B {
        encoder.write(&[
            TAG_THREE_B + (code / 4096) as u8,
            continuation(code / 64),
            continuation(code),
        ])
    } else {
        encoder.write(&[
            TAG_FOUR_B + (code / 262144) as u8,
            continuation(code / 4096),
            continuation(code / 64),
            continuation(code),
        ])
    }
}

/// How many bytes the UTF-8 form of a character has.
pub fn utf8_width(c: Char) -> u64
    ensures { result ≡ width c.code }
{
    match c.code() {
        0..MAX_ONE_B => 1,
        MAX_ONE_B..MAX_TWO_B => 2,
        MAX_TWO_B..MAX_THREE_B => 3,
        _ => 4,
    }
}
