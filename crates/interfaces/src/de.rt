//! Decoding: readers and decoders.
pub mod decoder;
pub mod read;
