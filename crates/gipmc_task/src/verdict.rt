//! What is known of a property, and what shows it.
ghost use Rattle.std.specs.Prelude.{◌≡◌};
ghost use Rattle.gipmc_task.specs.Verdicts.{outcome_of};

use crate::outcome::Outcome;
use gipmc_circuits::Trace;
use gipmc_reduce::Means;
use gipsat_cnf::Literal;

/// What is known of a property: of a bad literal, or of a justice property under all fairness constraints.
#[derive(Debug, Drop)]
pub enum Verdict {
    /// It fails by this trace, which was replayed. That of a justice property is a lasso.
    Fails(Trace),
    /// It holds.
    Holds(Evidence),
    /// No trace of at most so many transitions fails. It is said of bad literals alone.
    ClearTo(usize),
    /// Nothing.
    Unknown,
}

/// What shows that a property holds.
#[derive(Debug, Drop)]
pub enum Evidence {
    /// An invariant of the circuit excludes the bad literal.
    Invariant,
    /// The bad literal is k-inductive, for this k.
    Induction(usize),
    /// The clauses of an invariant, over the variables of a longer circuit, show a justice property.
    Longer(Means, Vec<Vec<Literal>>),
}

impl Verdict {
    /// What it says of its property, in a word.
    pub fn outcome(&self) -> Outcome
        ensures { result ≡ outcome_of self.now }
    {
        match self {
            Verdict::Fails(_) => Outcome::Fails,
            Verdict::Holds(_) => Outcome::Safe,
            Verdict::ClearTo(_) => Outcome::Open,
            Verdict::Unknown => Outcome::Open,
        }
    }
}
