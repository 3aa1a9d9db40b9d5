//! Encoding: writers and encoders.
pub mod encoder;
pub mod write;
