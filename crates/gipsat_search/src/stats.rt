//! How much a search did.

/// How much a search did since it was made. After a call that was refused memory the counts are those of before it.
#[derive(Clone, Copy)]
pub struct Stats {
    /// Clauses all of whose literals were false.
    pub conflicts: u64,
    /// Variables that were given a value with no reason.
    pub decisions: u64,
    /// Literals whose clauses were looked at.
    pub propagations: u64,
    /// How often the search restarted. It keeps the first decisions that it would make again.
    pub restarts: u64,
    /// Derived clauses that are not looked at any more.
    pub deleted: u64,
    /// How often the values that were taken for a model left a clause of the formula open.
    pub left_open: u64,
}

impl Stats {
    // Nothing was done.
    pub(crate) fn new() -> Self {
        Stats {
            conflicts: 0,
            decisions: 0,
            propagations: 0,
            restarts: 0,
            deleted: 0,
            left_open: 0,
        }
    }
}
