//! What is read, held against answers of the crate bincode 2.0.1 and against the format's own rules.
//!
//! Each row is a request and its answer from a line program over bincode 2.0.1's own sources, built with rustc for release on a 64-bit machine: a value is
//! decoded under a policy from some bytes through a reader, and the answer and how many bytes are left are compared. The answers were handed over and not
//! made again here. The sources had stand-ins for missing files: the crate's root, its tuples and arrays, and the test that tells a slice of bytes from others, so
//! that rows for pairs, byte strings and text test these too. The rows are all requests of one value under no limit.
//!
//! A row names the reader that the request had. Where the answer is no InvalidIntegerType, on which alone it may depend what can be peeked, the row is tried
//! through the slice, through a ring at every start, and through a reader that hides what waits. The bytes left are read to their end.
#![tactic(auto)]

#[cfg(test)]
mod tests;
