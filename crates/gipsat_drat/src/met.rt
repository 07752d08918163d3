//! Which variables a step has met. No verdict rests on it: where it is wrong, a step is followed another way.
use gipsat_cnf::Literal;
use std::alloc::{AllocError, Global};

// The variables that the last step has met, and how often it served to keep them.
pub(crate) struct Met {
    // The last step that met the variable.
    steps: Vec<u32>,
    // The number of the step.
    step: u32,
    // How many steps were resolved backwards, and how many were not.
    hits: usize,
    misses: usize,
}

// One call in its owners' proofs, in place of one for each field.
impl Drop for Met {
    fn drop(self) {
        let Met {
            steps,
            step: _,
            hits: _,
            misses: _,
        } = self;
    }
}

// So many steps are tried at first.
const FEW_STEPS: usize = 256;

impl Met {
    // No step has met a variable, and there is none so far.
    pub(crate) fn new(alloc: Global) -> Self {
        Met {
            steps: Vec::new(alloc),
            step: 0,
            hits: 0,
            misses: 0,
        }
    }

    // Has room for so many variables, if there are more than before.
    pub(crate) fn cover(&mut self, variables: usize) -> Result<(), AllocError> {
        if variables > self.steps.len() {
            self.steps.resize(variables, 0)?;
        }
        Ok(())
    }

    // Whether most steps are resolved backwards so far.
    pub(crate) fn is_worth(&self) -> bool {
        self.misses <= self.hits.saturating_add(FEW_STEPS)
    }

    // Counts whether a step was resolved backwards.
    pub(crate) fn count(&mut self, is_hit: bool) {
        if is_hit {
            self.hits = self.hits.saturating_add(1);
        } else {
            self.misses = self.misses.saturating_add(1);
        }
    }

    // Begins a step with the variables of its clause. False if one comes twice, or has no room.
    pub(crate) fn begin(&mut self, clause: &[Literal]) -> bool {
        if self.step == u32::MAX {
            for step in self.steps.iter_mut() {
                *step = 0;
            }
            self.step = 0;
        }
        self.step = self.step.saturating_add(1);
        for l in clause {
            if !self.meet(*l) {
                return false;
            }
        }
        true
    }

    // Meets the variable of a literal. False if the step has met it before, or if it has no room.
    #[inline]
    pub(crate) fn meet(&mut self, l: Literal) -> bool {
        let step = self.step;
        match self.steps.get_mut(l.variable() as usize) {
            Some(last) if *last != step => {
                *last = step;
                true
            }
            _ => false,
        }
    }
}
