//! Characters and text by RFC 3629: bytes are judged here, with nothing allocated.
#![tactic(auto)]

pub mod form;
pub mod scalar;
pub mod text;
