//! What is asked of a solver, and what it answers.
use crate::literal::Literal;

/// What is found out about a formula.
#[derive(Debug, Drop)]
pub enum Answer {
    /// A value for each variable, by which the formula is satisfied; a variable past the end is false.
    Sat(Vec<bool>),
    /// No assignment satisfies the formula.
    Unsat,
    /// It has learned as many clauses as the limit allows.
    Unknown,
}

/// What is found out about a formula under assumptions.
#[derive(Debug, Drop)]
pub enum AnswerUnder {
    /// A value for each variable, by which the formula is satisfied and each assumption is true; a variable past the
    /// end is false.
    Sat(Vec<bool>),
    /// Some of the assumptions: no assignment satisfies the formula and makes all of them true. Where it is empty, none
    /// satisfies the formula.
    Unsat(Vec<Literal>),
    /// It has learned as many clauses as the limit allows, or its budget is spent.
    Unknown,
}

/// What is found out about a formula under assumptions where the formula is not read at the end.
#[derive(Debug, Drop)]
pub enum Guess {
    /// No conflict was met, and no variable waits to be decided:
    /// [`SatSolver::value`](crate::solver::SatSolver::value) tells the values. Nothing is promised of them; nothing is
    /// known to be wrong with them.
    Sat,
    /// Some of the assumptions: no assignment satisfies the formula and makes all of them true. Where it is empty, none
    /// satisfies the formula.
    Unsat(Vec<Literal>),
    /// It has given up, after it learned at most as many clauses as the limit allows.
    Unknown,
}

/// How much a call may do before it gives up.
#[derive(Clone, Copy, Debug, PartialEq, Eq)]
pub struct Budget {
    /// How many clauses it may learn.
    pub clauses: usize,
    /// How many literals it may propagate. It ends at the next decision after as many.
    pub propagations: u64,
}

/// What a solver holds and has done. Nothing is proved of these numbers.
#[derive(Clone, Copy, Debug, PartialEq, Eq)]
pub struct Effort {
    /// How many clauses it holds: those of the formula, and those that follow and were not freed.
    pub clauses: usize,
    /// How many clauses it has learned from conflicts.
    pub learned: usize,
    /// How many literals it has propagated.
    pub propagations: u64,
}
