//! Glue: on how many decision levels the literals of a clause lie (LBD: G. Audemard and L. Simon, 2009).

use crate::stamps::Stamps;
use crate::trail::Trail;
use gipsat_cnf::Literal;
use std::alloc::{AllocError, Global};

// Counts decision levels.
#[derive(Drop)]
pub(crate) struct Glue {
    // The levels of the clause at hand.
    levels: Stamps,
}

impl Glue {
    // No clause was counted. It takes no memory.
    pub(crate) fn new(alloc: Global) -> Self {
        Glue {
            levels: Stamps::new(alloc),
        }
    }

    // Makes room for the root level and one level for each of so many variables.
    pub(crate) fn grow(&mut self, count: usize) -> Result<(), AllocError> {
        self.levels.grow(count.saturating_add(1))
    }

    // The glue of a clause whose literals have all been assigned.
    pub(crate) fn of(&mut self, trail: &Trail, clause: &[Literal]) -> u32 {
        self.levels.clear();
        let mut glue = 0u32;
        for l in clause {
            let is_new = self.levels.add(trail.level_of(*l));
            glue = glue.saturating_add(u32::from(is_new));
        }
        glue
    }
}
