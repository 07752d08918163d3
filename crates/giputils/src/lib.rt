//! Containers for solvers, model checkers, simulators and schedulers, under the module names of the crate giputils.
//!
//! This crate has one container of its own, a shared value, and gathers the crates beside it.
#![tactic(auto)]

pub mod grc;

pub use giputils_hash::hash;
pub use giputils_index::allocator;
pub use giputils_stat::{decimal, logger, statistic};
pub use giputils_vec::others::{OptionU8, OptionU32};
pub use giputils_vec::{gvec, others};

/// A vector of bits, and lists of calls on it.
pub mod bitvec {
    pub use giputils_bits::bitvec::{
        BitVec, BitVecError, Hex, IntoIter, Iter, Ones, Zeros, binary_texts_tell, de_morgan,
        double_not, hex_texts_do_not_tell, xor_with_itself,
    };
    pub use giputils_bits::run::{BitCall, BitReply, bit_run};
}

/// A set of small keys that gives up a greatest one and repairs a changed one, lent its comparer at each call; one that
/// takes all its memory at once; and one that owns the priorities of its keys.
pub mod heap {
    pub use giputils_heap::{
        BinaryHeap, BinaryHeapCmp, BoundedHeap, ByNumber, ByOrd, ByRank, Counting, HeapCall,
        HeapKey, HeapReply, HeapStep, PriorityQueue, RankTable, answers_at_each_step, heap_run,
        keeps_counts_at_each_step, one_order_is_steady, order_laws, pops_list_downward,
    };
}
