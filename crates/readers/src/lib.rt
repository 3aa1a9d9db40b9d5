//! The readers: one over a caller's bytes, one over a ring, and one that hides what waits from a look ahead.
#![tactic(auto)]

pub mod ring;
pub mod slice;
pub mod unseen;
