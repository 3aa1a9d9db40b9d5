//! Which bytes are a character's UTF-8 form, by the table of RFC 3629, section 4.
ghost use Rattle.std.specs.Prelude.{◌≡◌, ◌<◌, true, MatchOption};
ghost use Rattle.format.specs.WellFormed.{form_width, tail, second, well_formed, code_of};

/// How many bytes a character's form has that begins with this byte, if one does.
pub fn form_width(first: u8) -> Option<usize>
    ensures { MatchOption result (form_width first ≡ 0) (λ w. (0 < w) × (w ≡ form_width first)) }
{
    match first {
        0x00..=0x7f => Some(1),
        0xc2..=0xdf => Some(2),
        0xe0..=0xef => Some(3),
        0xf0..=0xf4 => Some(4),
        _ => None,
    }
}

/// Whether a byte may follow the second one.
pub(crate) fn is_tail(byte: u8) -> bool
    ensures { result ≡ tail byte }
{
    matches!(byte, 0x80..=0xbf)
}

/// Whether a byte may be the second one after `first`.
pub(crate) fn is_second(first: u8, byte: u8) -> bool
    ensures { result ≡ second first byte }
{
    match first {
        0xe0 => matches!(byte, 0xa0..=0xbf),
        0xed => matches!(byte, 0x80..=0x9f),
        0xf0 => matches!(byte, 0x90..=0xbf),
        0xf4 => matches!(byte, 0x80..=0x8f),
        _ => is_tail(byte),
    }
}

/// Whether the bytes are one character's form.
pub(crate) fn is_form(bytes: &[u8]) -> bool
    ensures { result ≡ well_formed bytes.now }
{
    match bytes {
        [a] => form_width(*a) == Some(1),
        [a, b] => form_width(*a) == Some(2) && is_second(*a, *b),
        [a, b, c] => form_width(*a) == Some(3) && is_second(*a, *b) && is_tail(*c),
        [a, b, c, d] => {
            form_width(*a) == Some(4) && is_second(*a, *b) && is_tail(*c) && is_tail(*d)
        }
        _ => false,
    }
}

/// The number that a character's form stands for.
pub(crate) fn code_of(form: &[u8]) -> u32
    requires { well_formed form.now ≡ true }
    ensures { result ≡ code_of form.now }
{
    match form {
        [a] => u32::from(*a),
        [a, b] => u32::from(*a - 0xc0) * 64 + u32::from(*b - 0x80),
        [a, b, c] => {
            u32::from(*a - 0xe0) * 4096 + u32::from(*b - 0x80) * 64 + u32::from(*c - 0x80)
        }
        [a, b, c, d] => {
            u32::from(*a - 0xf0) * 262144
                + u32::from(*b - 0x80) * 4096
                + u32::from(*c - 0x80) * 64
                + u32::from(*d - 0x80)
        }
        _ => unreachable!(),
    }
}
