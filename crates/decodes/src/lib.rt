//! What can be read, and how: the element types above their writing.
#![tactic(auto)]

pub mod decode;
pub mod impls;
