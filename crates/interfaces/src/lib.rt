//! The interfaces: what a policy, a writer, an encoder and an element type mean and owe. docs/LAWS.md has them in words.
#![tactic(auto)]

pub mod config;
pub mod de;
pub mod enc;
