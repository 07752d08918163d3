//! The clauses that clauses were resolved from. Nothing rests on what it says.
use std::alloc::{AllocError, Global};

// The chain of each derivation, which is the ids of the clauses that it used, in order. They are kept only on request.
pub(crate) struct Chains {
    // All chains, one behind the other. That of the clause that is being derived comes last.
    ids: Vec<usize>,
    // Where the chain of each working clause ends, from one clause on.
    ends: Vec<usize>,
    // The id of that clause.
    first: usize,
    are_kept: bool,
}

// One call in its owners' proofs, in place of one for each field.
impl Drop for Chains {
    fn drop(self) {
        let Chains {
            ids,
            ends,
            first: _,
            are_kept: _,
        } = self;
    }
}

impl Chains {
    // No chain, and none is asked for. It takes no memory.
    pub(crate) fn new(alloc: Global) -> Self {
        Chains {
            ids: Vec::new(alloc),
            ends: Vec::new(alloc),
            first: 0,
            are_kept: false,
        }
    }

    // Asks for the chains of later derivations, the next of which gets this id, or no more.
    pub(crate) fn keep(&mut self, are_kept: bool, next: usize) {
        self.forget(next);
        self.are_kept = are_kept;
    }

    // Forgets all chains. The next derivation gets this id.
    pub(crate) fn forget(&mut self, next: usize) {
        self.ids.clear();
        self.ends.clear();
        self.first = next;
    }

    // A derivation begins, which gets this id if it ends. What a refused one left is forgotten.
    pub(crate) fn begin(&mut self, next: usize) {
        self.ends.truncate(next.saturating_sub(self.first));
        let end = self.end();
        self.ids.truncate(end);
    }

    // Notes one more clause.
    pub(crate) fn push(&mut self, id: usize) -> Result<(), AllocError> {
        if self.are_kept {
            self.ids.push(id)?;
        }
        Ok(())
    }

    // Ends the chain of the clause with this id. Clauses before it that were not derived have none.
    pub(crate) fn end_at(&mut self, id: usize) -> Result<(), AllocError> {
        if !self.are_kept {
            return Ok(());
        }
        let index = id.saturating_sub(self.first);
        self.ends.truncate(index);
        let end = self.end();
        for _ in self.ends.len()..index {
            self.ends.push(end)?;
        }
        self.ends.push(self.ids.len())?;
        Ok(())
    }

    // Where the last chain that has an end ends.
    fn end(&self) -> usize {
        self.ends.last().copied().unwrap_or(0)
    }

    // The chain of the clause with this id.
    pub(crate) fn of(&self, id: usize) -> &[usize] {
        let Some(index) = id.checked_sub(self.first) else {
            return &[];
        };
        let end = self.ends.get(index).copied().unwrap_or(0);
        let start = match index.checked_sub(1) {
            Some(before) => self.ends.get(before).copied().unwrap_or(0),
            None => 0,
        };
        if start > end || end > self.ids.len() {
            return &[];
        }
        &self.ids[start..end]
    }
}
