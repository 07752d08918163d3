//! What the answers of a SAT solver rest on: a formula, and clauses each of which follows from it. And what those of a
//! checker of proofs rest on: a formula that changes by steps which keep satisfiability.
#![tactic(auto)]

mod chains;
mod flags;
pub mod kernel;
mod marks;
pub mod occurrences;
pub mod rat;

pub use kernel::Kernel;
pub use occurrences::Ids;
pub use rat::RatKernel;
