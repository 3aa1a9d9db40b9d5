//! Judging bytes as text. The checker is our own, by a rule of this project; it goes over the rest of the bytes, form by form.
ghost use Rattle.std.specs.Prelude.{◌≡◌, true, false, length, slice_index, nat_lt, MatchOption};
ghost use Rattle.format.specs.Refusals.{answer, decode_refusal};
ghost use Rattle.format.specs.Texts.{TextJudged, bad_length, begins_form, start_length, text_verdict};
ghost use Rattle.format.specs.WellFormed.{form_width};

use crate::form::{form_width, is_form, is_second, is_tail};
use format::error::DecodeError;
use std::str::from_utf8_unchecked;

/// How many bytes the character's form has that begins the bytes, if one does.
fn leading_width(bytes: &[u8]) -> Option<usize>
    ensures { MatchOption result (begins_form bytes.now ≡ false) (λ w. (begins_form bytes.now ≡ true) × (w ≡ form_width (slice_index bytes.now 0))) }
{
    match bytes {
        [] => None,
        [0x00..=0x7f, ..] => Some(1),
        [first, ..] => {
            let width = form_width(*first)?;
            let form = bytes.get(..width)?;
            if is_form(form) { Some(width) } else { None }
        }
    }
}

/// Whether a character's form begins with this byte that has more than n bytes.
fn is_longer(first: u8, n: usize) -> bool
    ensures { result ≡ nat_lt n (form_width first) }
{
    match form_width(first) {
        Some(width) => n < width,
        None => false,
    }
}

/// How many bytes the longest start of a character has that begins the bytes.
fn start_length(bytes: &[u8]) -> u8
    ensures { result ≡ start_length bytes.now }
{
    match bytes {
        [a, b, c, ..] if is_longer(*a, 3) && is_second(*a, *b) && is_tail(*c) => 3,
        [a, b, ..] if is_longer(*a, 2) && is_second(*a, *b) => 2,
        [a, ..] if is_longer(*a, 1) => 1,
        _ => 0,
    }
}

/// The bad length of bytes that no character's form begins: none where they only end too soon.
fn bad_length(rest: &[u8]) -> Option<u8>
    ensures { result ≡ bad_length (start_length rest.now) (length rest.now) }
{
    let start = start_length(rest);
    if usize::from(start) == rest.len() {
        None
    } else {
        Some(start.max(1))
    }
}

/// The bytes as text, or how many of them are and how many after those begin no character.
pub fn check_text(bytes: &[u8]) -> Result<&str, DecodeError>
    ensures verdict { answer decode_refusal (λ x. x.now) result ≡ text_verdict bytes.now }
    ensures judged { TextJudged bytes.now (answer decode_refusal (λ x. x.now) result) }
{
    let mut rest = bytes;
    while !rest.is_empty() {
        let Some(width) = leading_width(rest) else {
            return Err(DecodeError::Utf8 {
                valid_up_to: (bytes.len() - rest.len()) as u64,
                error_len: bad_length(rest),
            });
        };
        rest = &rest[width..];
    }
    Ok(unsafe { from_utf8_unchecked(bytes) })
}
