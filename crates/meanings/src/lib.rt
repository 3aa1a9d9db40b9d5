//! The laws of an element type that is read and of what stands for its values, and that every type keeps them. There is no code here: the definitions stand in `specs/`, the proofs in `proofs/`, and the code that owes the laws in `decodes` and `standing`.
#![tactic(auto)]
