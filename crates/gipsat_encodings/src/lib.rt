//! Clauses that say what a problem says: how many literals are true, what gates give, what is odd; each with its meaning
//! proved.
#![tactic(auto)]

pub mod counts;
pub mod fresh;
pub mod gates;
pub mod pairs;
pub mod parity;
mod sums;
