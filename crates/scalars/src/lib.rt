//! The scalars, read from any decoder: each claims, then reads, then judges what it read. Characters stand in the crate `texts`.
#![tactic(auto)]

pub mod bytes;
pub mod floats;
pub mod signed;
pub mod time;
