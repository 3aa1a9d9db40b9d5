//! One short impl to a type.
pub mod bytes;
pub mod floats;
pub mod pairs;
pub mod signed;
pub mod sums;
pub mod text;
pub mod time;
pub mod unsigned;
