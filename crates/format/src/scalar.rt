//! The character. By a rule of this project it is a type of its own, and not the `char` of Rattle.
ghost use Rattle.std.specs.Prelude.{◌≡◌, T};
ghost use Rattle.format.specs.Scalars.{scalar};

pub mod methods;

/// A character: a Unicode scalar value, which is any code below 0x110000 but the surrogates 0xd800 to 0xdfff.
#[derive(Clone, Copy, PartialEq, Eq, PartialOrd, Ord, Debug)]
pub struct Char {
    code: u32,
    ghost ok: { T (scalar code) },
}
