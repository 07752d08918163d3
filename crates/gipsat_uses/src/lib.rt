//! Uses of the solver, as a caller writes them: a module a topic, each use proved on public contracts alone.
#![tactic(auto)]

pub mod bounded;
pub mod cardinality;
pub mod colouring;
pub mod first_question;
pub mod follows;
pub mod incremental;
pub mod minimal_core;
pub mod pages;
