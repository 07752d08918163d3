//! Reason sides: the variables in the reasons of a learned clause, which are bumped too in the stable mode (J. H.
//! Liang, V. Ganesh, P. Poupart and K. Czarnecki, 2016).

use crate::settings::SETTINGS;
use crate::stamps::Stamps;
use crate::trail::Trail;
use gipsat_cnf::Literal;
use gipsat_kernel::Kernel;
use std::alloc::{AllocError, Global};

// The variables in the reasons of a clause.
pub(crate) struct ReasonSides {
    variables: Vec<u32>,
    // These variables, and those that analysis has seen.
    met: Stamps,
}

// One call in its owners' proofs, in place of one for each field.
impl Drop for ReasonSides {
    fn drop(self) {
        let ReasonSides { variables, met } = self;
    }
}

impl ReasonSides {
    // Of no clause. It takes no memory.
    pub(crate) fn new(alloc: Global) -> Self {
        ReasonSides {
            variables: Vec::new(alloc),
            met: Stamps::new(alloc),
        }
    }

    // Makes room for so many variables.
    pub(crate) fn grow(&mut self, variables: usize) -> Result<(), AllocError> {
        self.met.grow(variables)
    }

    // The variables that were collected last.
    pub(crate) fn variables(&self) -> &[u32] {
        &self.variables
    }

    // Collects the variables in the reasons of the marked literals, but for those of the root and the first ones that
    // analysis has seen, which are so many. Where they are too many, none is collected.
    pub(crate) fn collect(
        &mut self,
        kernel: &Kernel,
        trail: &Trail,
        analyzed: usize,
    ) -> Result<(), AllocError> {
        self.variables.clear();
        self.met.clear();
        let mut most = 0usize;
        for l in kernel.marked().iter().take(analyzed) {
            self.met.add(l.variable() as usize);
            if kernel.is_marked(*l) {
                most = most.saturating_add(SETTINGS.reason_sides);
            }
        }
        for l in kernel.marked().iter().take(analyzed) {
            if kernel.is_marked(*l) {
                self.add_reason(kernel, trail, *l)?;
            }
            if self.variables.len() > most {
                self.variables.clear();
                return Ok(());
            }
        }
        Ok(())
    }

    // Collects the variables in the reason of a literal.
    fn add_reason(&mut self, kernel: &Kernel, trail: &Trail, l: Literal) -> Result<(), AllocError> {
        let Some(step) = trail.step_of(l) else {
            return Ok(());
        };
        let Some(clause) = kernel.clause(step.reason as usize) else {
            return Ok(());
        };
        for other in clause {
            if trail.level_of(*other) > 0 && self.met.add(other.variable() as usize) {
                self.variables.push(other.variable())?;
            }
        }
        Ok(())
    }
}
