//! Which clauses each derivation of a step used, as a proof with hints tells them. Nothing rests on it.
use std::alloc::{AllocError, Global};

// The derivations since they were forgotten last. They are kept only on request.
pub(crate) struct Derivations {
    is_kept: bool,
    // The ids of the clauses that each one used, in the order of use, one behind another.
    used: Vec<usize>,
    // The id of each clause that was derived, and where the ids that it used end.
    ends: Vec<(usize, usize)>,
}

// One call in its owners' proofs, in place of one for each field.
impl Drop for Derivations {
    fn drop(self) {
        let Derivations {
            is_kept: _,
            used,
            ends,
        } = self;
    }
}

impl Derivations {
    // None, and none is asked for.
    pub(crate) fn new(alloc: Global) -> Self {
        Derivations {
            is_kept: false,
            used: Vec::new(alloc),
            ends: Vec::new(alloc),
        }
    }

    // Asks for those that come.
    pub(crate) fn keep(&mut self) {
        self.is_kept = true;
    }

    // Forgets all.
    pub(crate) fn clear(&mut self) {
        self.used.clear();
        self.ends.clear();
    }

    // Where the last one ends.
    fn end(&self) -> usize {
        match self.ends.last() {
            Some((_, end)) => *end,
            None => 0,
        }
    }

    // One begins, maybe with a clause. What one without an end left is forgotten.
    pub(crate) fn begin(&mut self) {
        let end = self.end();
        self.used.truncate(end);
    }

    // It uses a clause.
    pub(crate) fn push(&mut self, id: usize) -> Result<(), AllocError> {
        if self.is_kept {
            self.used.push(id)?;
        }
        Ok(())
    }

    // It has derived a clause, if it has.
    pub(crate) fn conclude(&mut self, id: Option<usize>) -> Result<(), AllocError> {
        if self.is_kept {
            if let Some(id) = id {
                self.ends.push((id, self.used.len()))?;
            }
        }
        Ok(())
    }

    // How many there are.
    pub(crate) fn len(&self) -> usize {
        self.ends.len()
    }

    // One of them: the id of its clause, and the ids that it used.
    pub(crate) fn get(&self, number: usize) -> Option<(usize, &[usize])> {
        let (id, end) = *self.ends.get(number)?;
        let start = match number.checked_sub(1) {
            Some(before) => self.ends.get(before)?.1,
            None => 0,
        };
        if start > end || end > self.used.len() {
            return None;
        }
        Some((id, &self.used[start..end]))
    }
}
