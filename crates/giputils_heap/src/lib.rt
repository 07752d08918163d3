//! A binary heap of small integer keys, lent its comparer at each call.
#![tactic(auto)]

pub mod heap;
pub mod priority;
pub mod run;

pub use giputils_bounded::{
    BinaryHeapCmp, BoundedHeap, ByNumber, ByOrd, ByRank, Counting, HeapKey, RankTable, bounded,
    comparers, counting, key,
};
pub use heap::{BinaryHeap, order_laws};
pub use priority::PriorityQueue;
pub use run::{
    HeapCall, HeapReply, HeapStep, answers_at_each_step, heap_run, keeps_counts_at_each_step,
    one_order_is_steady, pops_list_downward,
};
