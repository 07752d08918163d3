//! A vector with several index types, and options that are kept in one number.
#![tactic(auto)]

pub mod gvec;
pub mod others;
