//! Engines that decide whether a circuit is live, by longer circuits that those of this crate decide.

mod chain;
mod counting;
pub mod decide;
mod hearing;
mod merged;
mod saving;
mod shown;
pub mod verdict;

pub use decide::decide_live;
pub use verdict::Verdict;
