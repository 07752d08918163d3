//! The hints of a step.
use std::alloc::{AllocError, Global};

// The name of a clause; a negative one is that of a clause with the pivot's negation.
#[derive(Clone, Copy)]
pub(crate) struct Hint {
    pub name: u64,
    pub positive: bool,
}

// The hints of a step, in a vector that is as long as the longest list so far.
pub(crate) struct HintList {
    hints: Vec<Hint>,
    // How many of them are the step's.
    len: usize,
}

// One call in its owners' proofs, in place of one for each field.
impl Drop for HintList {
    fn drop(self) {
        let HintList { hints, len: _ } = self;
    }
}

impl HintList {
    // No hint.
    pub(crate) fn new(alloc: Global) -> Self {
        HintList {
            hints: Vec::new(alloc),
            len: 0,
        }
    }

    // One more.
    #[inline]
    pub(crate) fn push(&mut self, hint: Hint) -> Result<(), AllocError> {
        match self.hints.get_mut(self.len) {
            Some(old) => *old = hint,
            None => self.lengthen(hint)?,
        }
        self.len = self.len.saturating_add(1);
        Ok(())
    }

    // Lets the vector be longer, by one that is not the step's yet.
    #[cold]
    #[inline(never)]
    fn lengthen(&mut self, hint: Hint) -> Result<(), AllocError> {
        self.hints.push(hint)?;
        Ok(())
    }

    // How many there are.
    pub(crate) fn len(&self) -> usize {
        self.len.min(self.hints.len())
    }

    // The one at a place.
    pub(crate) fn get(&self, place: usize) -> Option<Hint> {
        self.as_slice().get(place).copied()
    }

    // The one at a place, to change it.
    pub(crate) fn get_mut(&mut self, place: usize) -> Option<&mut Hint> {
        self.hints.get_mut(place)
    }

    // Drops all but the first, so many.
    pub(crate) fn truncate(&mut self, len: usize) {
        self.len = self.len.min(len);
    }

    // Drops all.
    pub(crate) fn clear(&mut self) {
        self.len = 0;
    }

    // The step's hints, in order.
    pub(crate) fn as_slice(&self) -> &[Hint] {
        if self.len > self.hints.len() {
            return &[];
        }
        &self.hints[..self.len]
    }
}
