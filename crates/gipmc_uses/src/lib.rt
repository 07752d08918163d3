//! Uses of circuits, as a caller writes them: a module a topic, each use proved on public contracts alone.
#![tactic(auto)]

pub mod adders;
pub mod arbiter;
pub mod confirm;
pub mod counter;
pub mod larger;
pub mod lights;
pub mod pages;
pub mod throughout;
