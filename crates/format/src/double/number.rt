//! The fields of a double's bits, and the number that they stand for. `specs/Doubles.antt` says which, by IEEE 754.
ghost use Rattle.std.specs.Prelude.{◌≡◌, Decides};
ghost use Rattle.format.specs.Doubles.{sign, exponent, fraction, negative, not_a_number, stands_for, NumberOf};

use super::F64;

impl F64 {
    /// Whether the bit of its sign, the highest, is set.
    pub fn sign(self) -> bool
        ensures { result ≡ negative (sign self.bits) }
    {
        self.bits >> 63 == 1
    }

    /// The field of its exponent: the 11 bits below the sign.
    pub fn exponent(self) -> u16
        ensures { result ≡ exponent self.bits }
    {
        ((self.bits >> 52) % (1 << 11)) as u16
    }

    /// The field of its fraction: the 52 lowest bits.
    pub fn fraction(self) -> u64
        ensures { result ≡ fraction self.bits }
    {
        self.bits % (1 << 52)
    }

    /// Whether its bits are a NaN's, and so stand for no number.
    pub fn is_nan(self) -> bool
        ensures { Decides result (stands_for self.bits ≡ not_a_number) }
    {
        self.exponent() == 0x7ff && self.fraction() != 0
    }

    /// The number that its bits stand for, or `None` where they are a NaN's.
    pub fn to_f64(self) -> Option<f64>
        ensures { NumberOf self.bits result }
    {
        if self.is_nan() {
            return None;
        }
        Some(f64::from_bits(self.bits))
    }
}
