//! A formula that was read.

use gipsat_cnf::ClauseSink;

/// A formula, and how many variables its text has: variable k of the text is variable k - 1 of the formula.
#[derive(Drop)]
pub struct Instance<S: ClauseSink> {
    /// How many variables there are.
    pub variables: u32,
    /// What was given the clauses, as a [`gipsat_cnf::Cnf`].
    pub clauses: S,
}
