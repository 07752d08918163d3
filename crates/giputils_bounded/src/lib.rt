//! A heap of small integer keys that takes all its memory at once, and what it shares with the one that grows.
#![tactic(auto)]

pub mod bounded;
pub mod calls;
pub mod comparers;
pub mod counting;
pub mod key;
mod sealed;
mod sift;
mod table;
pub mod tree;

pub use bounded::BoundedHeap;
pub use comparers::{ByNumber, ByOrd, ByRank, RankTable};
pub use counting::Counting;
pub use key::{BinaryHeapCmp, HeapKey};
