//! The double: IEEE 754's binary64, held as its bits. By a rule of this project it is a type of its own, and not `f64`, which has one NaN for proofs.
ghost use Rattle.std.specs.Prelude.{◌≡◌};

pub mod number;

/// A double. It holds and means its 64 bits, those of a NaN too: -0 is not 0, and NaNs with other bits are other values.
#[derive(Clone, Copy, PartialEq, Eq, Debug)]
pub struct F64 {
    bits: u64,
}

// The names are those of `f64`'s own methods; `From` would say that a double is a number of 64 bits.
impl F64 {
    /// The double with these bits.
    pub fn from_bits(bits: u64) -> F64
        ensures { result ≡ record { bits = bits } }
    {
        F64 { bits }
    }

    /// Its bits.
    pub fn to_bits(self) -> u64
        ensures { result ≡ self.bits }
    {
        self.bits
    }
}
