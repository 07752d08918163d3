//! A hashed set and a hashed map.
#![tactic(auto)]

pub mod hash;
