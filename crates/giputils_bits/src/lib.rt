//! Bit vectors: lists of truth values, packed into words of 64 bits.
#![tactic(auto)]

pub mod bitvec;
pub mod run;
