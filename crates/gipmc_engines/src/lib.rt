//! Engines that decide whether a circuit fails: random simulation, bounded model checking, induction,
//! and IC3.
#![tactic(auto)]

mod alone;
pub mod bounded;
pub mod engines;
mod explicit;
pub mod findings;
mod guide;
mod hits;
mod ic3;
pub mod joint;
pub mod liveness;
pub mod observer;
mod rounds;
mod settings;
pub mod simulation;
mod steps;
mod ternary;
mod turns;
mod unrolling;
pub mod verdict;
mod worker;

pub use bounded::{Bounds, search};
pub use engines::{Engine, Plan, Technique, check, check_all, decide, decide_by_turns};
pub use findings::{Finding, Findings};
pub use joint::Joint;
pub use observer::{Event, Observer};
pub use simulation::{RUNS, Tries, simulate};
pub use verdict::{Verdict, replayed};
