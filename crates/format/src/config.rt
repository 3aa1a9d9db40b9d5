//! What a policy chooses.

/// The order in which the bytes of a number are written.
#[derive(Clone, Copy, PartialEq, Eq, Debug)]
pub enum Endianness {
    /// The lowest byte first.
    Little,
    /// The highest byte first.
    Big,
}

/// How integers wider than a byte are written.
#[derive(Clone, Copy, PartialEq, Eq, Debug)]
pub enum IntEncoding {
    /// At the full width of their type.
    Fixed,
    /// In as few bytes as their size asks for.
    Variable,
}
