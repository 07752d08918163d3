//! Literals and formulas in conjunctive form: what solvers, checkers and encodings share.
#![tactic(auto)]

pub mod answers;
pub mod cnf;
pub mod dimacs;
pub mod enumerate;
pub mod literal;
pub mod sink;
pub mod solver;
pub mod values;

pub use answers::{Answer, AnswerUnder, Budget, Effort, Guess};
pub use cnf::{ClauseIter, Cnf, Span};
pub use literal::Literal;
pub use sink::ClauseSink;
pub use solver::SatSolver;
