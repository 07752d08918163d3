//! An allocator of indexes.
#![tactic(auto)]

pub mod allocator;
