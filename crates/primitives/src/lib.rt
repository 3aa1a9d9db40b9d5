//! What the element types are written with: integers of every width, and the UTF-8 form of a character.
#![tactic(auto)]

pub mod utf8;
pub mod varint;
