//! A solver of some lines, for tests of what asks a solver: it tries both values of one variable after another, and learns
//! nothing.
#![tactic(auto)]

mod search;
pub mod solver;

pub use solver::Plain;
