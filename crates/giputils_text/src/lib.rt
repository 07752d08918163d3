//! Parts that readers and writers of texts share: lines, the pieces between the places of a byte, numbers in decimal
//! digits, and numbers in groups of 7 bits.
#![tactic(auto)]

pub mod groups;
pub mod lines;
pub mod numbers;

pub use groups::write_groups;
pub use lines::{split_line, split_once};
pub use numbers::number;
