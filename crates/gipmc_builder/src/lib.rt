//! Circuits that are built step by step, each step with its meaning by contract.
#![tactic(auto)]

pub mod build;

pub use build::{Builder, constant, digits};
