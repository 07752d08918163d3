//! The search of a SAT solver: it chooses what to try, and derives clauses by a kernel. No answer rests on it.
#![tactic(auto)]

mod activity;
mod analyze;
mod arena;
mod assume;
mod attach;
mod backtrack;
mod candidates;
mod chains;
mod clauses;
mod collect;
mod decide;
mod derive;
mod domain;
mod eliminate;
mod eliminated;
mod elimination;
mod glue;
mod keep;
mod learn;
mod minimize;
mod modes;
mod occurrences;
mod phases;
mod propagate;
mod reason_sides;
mod reduce;
mod restart;
mod restart_policy;
mod root;
mod rounds;
mod scores;
pub mod search;
pub mod settings;
mod simplify;
mod stamps;
mod state;
pub mod stats;
mod subsume;
mod trail;
mod units;
mod vivify;
mod walk;
mod watches;

pub use search::{Query, Search, Turn};
pub use stats::Stats;
