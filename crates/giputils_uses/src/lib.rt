//! Uses of the containers, as a caller writes them: a module a topic, each use proved on public contracts alone.
#![tactic(auto)]

pub mod activity;
pub mod compaction;
pub mod counts;
pub mod drain;
pub mod heap_caller;
pub mod last;
pub mod learned;
pub mod paths;
pub mod reachable;
pub mod report;
pub mod rows;
pub mod scheduler;
pub mod sieve;
pub mod simulate;
pub mod small_set;
pub mod sorting;
pub mod states;
pub mod timers;
