//! What the element types are read with: integers of every width.
#![tactic(auto)]

pub mod varint;
