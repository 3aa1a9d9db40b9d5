//! Making a character, and its code.
ghost use Rattle.std.specs.Prelude.{◌≡◌};
ghost use Rattle.format.specs.Refusals.{answer, value_refusal};
ghost use Rattle.format.specs.Scalars.{made_char};

use super::Char;
use crate::error::ValueError;

impl Char {
    /// The character with this code, or `NotScalar`.
    pub fn new(code: u32) -> Result<Char, ValueError>
        ensures { answer value_refusal (λ c. c.code) result ≡ made_char code }
    {
        if code < 0xd800 || 0xe000 <= code && code < 0x11_0000 {
            Ok(Char { code })
        } else {
            Err(ValueError::NotScalar)
        }
    }

    /// Its code.
    pub fn code(self) -> u32
        ensures { result ≡ self.code }
    {
        self.code
    }
}

/// The character with this code, as `Char::new` makes it.
impl TryFrom<u32> for Char {
    type Error = ValueError;

    ghost try_from_gives = { λ code r. answer value_refusal (λ c. c.code) r ≡ made_char code };

    fn try_from(code: u32) -> Result<Char, ValueError> {
        Char::new(code)
    }
}

/// Its code.
impl From<Char> for u32 {
    ghost from_gives = { λ c n. n ≡ c.code };

    fn from(c: Char) -> u32 {
        c.code()
    }
}
