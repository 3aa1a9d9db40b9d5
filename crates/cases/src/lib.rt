//! The fourteen cases of the listing.
#![tactic(auto)]

pub mod line;
pub mod listing;
