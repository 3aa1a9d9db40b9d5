//! Answers of the crate bincode 2.0.1, held against this library.
//!
//! Each row is a request and its answer from a line program over bincode 2.0.1's own sources, built with rustc for release on a 64-bit machine: a value is
//! encoded under a policy into a buffer of so many bytes, and the answer and the bytes that the call left are compared; the rest of the buffer must be as it
//! was. The answers were handed over and not made again here. The sources had
//! stand-ins for missing files: the crate's root, its tuples and arrays, and the test that tells a slice of bytes from others, so that rows for pairs, byte strings
//! and text test these too. The rows are the first few of each type among the requests of one value; requests of several values are left out.
//!
//! Beside these answers stand the format's own rules at their boundaries, which `tests/boundaries.rt` says how to read.
#![tactic(auto)]

#[cfg(test)]
mod tests;
