//! What is found out about a justice property.

use gipmc_reduce::{Lasso, Means};
use gipsat_cnf::Literal;

/// What is found out about a justice property.
#[derive(Debug, Drop)]
pub enum Verdict {
    /// This lasso, which was replayed, is a counterexample.
    Fails(Lasso),
    /// The circuit is live, as these clauses show: an invariant of the longer circuit.
    Live(Means, Vec<Vec<Literal>>),
    /// Nothing was found out.
    Unknown,
}
