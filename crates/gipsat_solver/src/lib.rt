//! A solver for formulas in conjunctive form, whose answers are proved right.
#![tactic(auto)]

mod answers;
mod listener;
pub mod progress;
pub mod solver;
mod turns;

pub use gipsat_cnf::{Answer, AnswerUnder, Budget, Guess, Literal};
pub use gipsat_search::Stats;
pub use solver::{Inprocessing, Solver};
