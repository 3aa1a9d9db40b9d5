//! The writers: one that only counts, one into a caller's buffer, and one with a page of its own.
#![tactic(auto)]

pub mod page;
pub mod size;
pub mod slice;
mod store;
