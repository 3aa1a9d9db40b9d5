//! The language in which the readings of all types are written, with its laws. There is no code here: the definitions stand in `specs/`, the proofs in `proofs/`.
#![tactic(auto)]
