//! The element types: what can be written, and how.
#![tactic(auto)]

pub mod element;
pub mod impls;
