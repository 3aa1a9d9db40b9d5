//! Reading a character.
ghost use Rattle.std.specs.Prelude.{◌≡◌, slice_index};
ghost use Rattle.format.specs.Refusals.{answer, decode_refusal};
ghost use Rattle.interfaces.specs.Calls.{Reads};
ghost use Rattle.readings.specs.Chars.{not_char, judged_char, after_first, char_reading};

use crate::form::{code_of, form_width, is_form};
use format::error::DecodeError;
use format::scalar::Char;
use interfaces::de::decoder::Decoder;

/// The byte at an index, or 0 past the end.
fn byte_at(bytes: &[u8], i: usize) -> u8
    ensures { result ≡ slice_index bytes.now i }
{
    bytes.get(i).copied().unwrap_or(0)
}

/// The fault that these bytes are no character's form. Those that were not read are 0.
fn not_char(bytes: &[u8]) -> DecodeError
    ensures { decode_refusal result ≡ not_char bytes.now }
{
    DecodeError::InvalidCharEncoding {
        first: byte_at(bytes, 0),
        second: byte_at(bytes, 1),
        third: byte_at(bytes, 2),
        fourth: byte_at(bytes, 3),
    }
}

/// The character whose form these bytes are.
fn judge(form: &[u8]) -> Result<Char, DecodeError>
    ensures { answer decode_refusal (λ c. c) result ≡ judged_char form.now }
{
    if is_form(form) {
        // What a form stands for is a scalar value, so there is such a character.
        Ok(Char::new(code_of(form)).unwrap())
    } else {
        Err(not_char(form))
    }
}

/// Reads a character after its first byte.
fn decode_after<D: Decoder>(decoder: &mut D, first: u8) -> Result<Char, DecodeError>
    ensures { Reads D.Decoder D.C.Policy D.R.Reader (after_first first) decoder.old result decoder.new }
{
    let Some(width) = form_width(first) else {
        return Err(not_char(&[first]));
    };
    // An array as long as the longest form, since the library allocates nothing.
    let mut form = [first, 0, 0, 0];
    decoder.claim_bytes_read(width as u64)?;
    decoder.read(&mut form[1..width])?;
    judge(&form[..width])
}

/// Reads a character: its first byte, then, after the claim, the others in one read.
pub fn decode_char<D: Decoder>(decoder: &mut D) -> Result<Char, DecodeError>
    ensures { Reads D.Decoder D.C.Policy D.R.Reader char_reading decoder.old result decoder.new }
{
    let mut first = [0u8; 1];
    decoder.read(&mut first)?;
    decode_after(decoder, first[0])
}
