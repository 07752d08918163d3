//! The state of a search.

use crate::activity::Activity;
use crate::candidates::Candidates;
use crate::chains::Chains;
use crate::clauses::Clauses;
use crate::eliminated::Eliminated;
use crate::glue::Glue;
use crate::phases::Phases;
use crate::reason_sides::ReasonSides;
use crate::restart_policy::RestartPolicy;
use crate::rounds::Rounds;
use crate::stamps::Stamps;
use crate::stats::Stats;
use crate::trail::Trail;
use crate::watches::Watches;
use gipsat_cnf::Literal;
use gipsat_kernel::Kernel;
use std::alloc::{AllocError, Global};

// What a search knows beside the clauses of its kernel.
pub(crate) struct State {
    pub trail: Trail,
    pub clauses: Clauses,
    pub watches: Watches,
    pub activity: Activity,
    pub glue: Glue,
    pub chains: Chains,
    pub reason_sides: ReasonSides,
    pub restart_policy: RestartPolicy,
    pub phases: Phases,
    pub eliminated: Eliminated,
    pub candidates: Candidates,
    pub rounds: Rounds,
    // The literals, by their codes, of the clause at hand.
    pub met: Stamps,
    // How many of the root literals are clauses.
    pub units: usize,
    // How many of the assumptions are true.
    pub assumed: usize,
    // A clause that the last candidate for a model leaves open.
    pub open: Option<u32>,
    // At how many propagations the call ends.
    pub end: u64,
    // From which id on vivification has not looked at clauses, and how many were deleted at the last collection.
    pub vivified: usize,
    pub collected: u64,
    pub stats: Stats,
}

// One call in its owners' proofs, in place of one for each field.
impl Drop for State {
    fn drop(self) {
        let State {
            trail,
            clauses,
            watches,
            activity,
            glue,
            chains,
            reason_sides,
            restart_policy: _,
            phases,
            eliminated,
            candidates,
            rounds: _,
            met,
            units: _,
            assumed: _,
            open: _,
            end: _,
            vivified: _,
            collected: _,
            stats: _,
        } = self;
    }
}

impl State {
    // Of no variable and no clause.
    pub(crate) fn new(alloc: Global, stats: Stats) -> Result<Self, AllocError> {
        Ok(State {
            activity: Activity::new(alloc)?,
            trail: Trail::new(alloc),
            clauses: Clauses::new(alloc),
            watches: Watches::new(alloc),
            glue: Glue::new(alloc),
            chains: Chains::new(alloc),
            reason_sides: ReasonSides::new(alloc),
            restart_policy: RestartPolicy::new(),
            phases: Phases::new(alloc),
            eliminated: Eliminated::new(alloc),
            candidates: Candidates::new(alloc),
            rounds: Rounds::new(),
            met: Stamps::new(alloc),
            units: 0,
            assumed: 0,
            open: None,
            end: u64::MAX,
            vivified: 0,
            collected: stats.deleted,
            stats,
        })
    }

    // Restores the eliminated ones among the variables of assumptions, of a domain and of new clauses.
    pub(crate) fn restore(
        &mut self,
        kernel: &Kernel,
        assumptions: &[Literal],
        domain: &[u32],
    ) -> Result<(), AllocError> {
        self.eliminated.restore(
            kernel,
            &mut self.clauses,
            &mut self.activity,
            assumptions,
            domain,
        )
    }

    // Makes room for so many variables.
    pub(crate) fn grow(&mut self, alloc: Global, variables: usize) -> Result<(), AllocError> {
        self.watches.grow(alloc, variables)?;
        self.trail.grow(variables)?;
        self.glue.grow(variables)?;
        self.chains.grow(variables)?;
        self.reason_sides.grow(variables)?;
        self.phases.grow(variables)?;
        self.eliminated.grow(variables)?;
        self.met.grow(variables.saturating_mul(2))?;
        self.activity.grow(variables)
    }
}
