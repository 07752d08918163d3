//! The command line of gipmc: its options, and what words ask for.
#![tactic(auto)]

pub mod about;
pub mod misuse;
pub mod options;

pub use about::ABOUT;
pub use misuse::UsageError;
pub use options::{Options, Task};
