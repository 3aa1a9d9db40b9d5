//! What the wire format is made of: its configuration, its refusals, and the value types that carry a bound of their own.
#![tactic(auto)]

pub mod config;
pub mod double;
pub mod duration;
pub mod error;
pub mod scalar;
