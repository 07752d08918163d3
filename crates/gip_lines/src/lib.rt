//! The program part of `gip`: a script of lines over a set of keys with its greatest member, and vectors of bits.
#![tactic(auto)]

mod fault;
mod scripts;
mod task;
mod texts;
mod transfer;
mod vectors;
pub mod watched;

pub use fault::GipFault;
pub use scripts::{lines, script};
pub use task::Task;
pub use transfer::INPUT_LIMIT;
pub use vectors::{bits, lines_are_binary_texts};
