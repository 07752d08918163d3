//! What is left of a circuit where equal variables are merged.
ghost use Rattle.std.specs.Prelude.{◌≡◌, IfSome};
ghost use Rattle.gipmc_task.specs.Left.{StandFor};
ghost use Rattle.gipmc_reduce.specs.Correspondence.{IsSweptOf, merged};

use crate::parted::part_of;
use gipmc_circuits::{Netlist, Trace};
use gipmc_reduce::{Bounds, Cone, Correspondence};
use gipsat_cnf::{Literal, SatSolver};
use std::alloc::{AllocError, Global};

/// What is left of a circuit.
#[derive(Drop)]
pub(crate) struct Left {
    sweep: Correspondence,
    /// The part of that which its bad literals depend on.
    pub(crate) part: Cone,
}

impl Left {
    /// What is left of a circuit where latches are merged, and gates if that is wanted. None where that was not found out by
    /// so much work, or where memory is refused.
    pub(crate) fn of<S: SatSolver + Drop>(
        alloc: Global,
        whole: &Netlist,
        with_gates: bool,
        work: u64,
    ) -> Option<Self>
        ensures { IfSome result (λ left. StandFor left.part.netlist.circuit left.part.netlist.circuit.bads.items
            whole.now.circuit whole.now.circuit.bads.items) }
    {
        let bounds = Bounds {
            with_gates,
            work,
            ..Bounds::default()
        };
        match Correspondence::new::<S>(alloc, whole, &whole.circuit.bads, bounds) {
            Ok(Some(sweep)) => Left::in_part(alloc, sweep),
            _ => None,
        }
    }

    // The same, by a sweep.
    fn in_part(alloc: Global, sweep: Correspondence) -> Option<Self>
        ensures { IfSome result (λ left. StandFor left.part.netlist.circuit left.part.netlist.circuit.bads.items
            sweep.netlist.circuit sweep.netlist.circuit.bads.items) }
    {
        match part_of(alloc, &sweep.netlist, &sweep.netlist.circuit.bads) {
            Some(part) => Some(Left { sweep, part }),
            None => None,
        }
    }

    /// Whether a tenth of the latches of the circuit is gone, so that a search has fewer states, or half of its gates, so
    /// that each question costs less.
    pub(crate) fn is_small(&self, whole: &Netlist) -> bool {
        let (left, whole) = (&self.part.netlist.circuit, &whole.circuit);
        let (latches, gates) = (left.latches.len(), left.gates.len());
        latches.saturating_mul(10) <= whole.latches.len().saturating_mul(9)
            || (gates < whole.gates.len() && gates.saturating_mul(2) <= whole.gates.len())
    }

    /// The trace of the circuit that goes on as one of what is left does. A replay tells whether it is one.
    pub(crate) fn trace_of(
        &self,
        alloc: Global,
        whole: &Netlist,
        trace: &Trace,
    ) -> Result<Trace, AllocError> {
        let trace = self.part.trace_of(alloc, &self.sweep.netlist, trace)?;
        self.sweep.trace_of(alloc, whole, &trace)
    }

    /// The clauses of the merges, and behind them these of an invariant of what is left, over the variables of the circuit.
    pub(crate) fn clauses_of(
        &self,
        alloc: Global,
        clauses: &[Vec<Literal>],
    ) -> Result<Vec<Vec<Literal>>, AllocError> {
        let clauses = self.part.names.clauses_of(alloc, clauses)?;
        self.sweep.clauses_of(alloc, &clauses)
    }
}

/// What is left, once it is put where it is kept.
pub(crate) fn kept(slot: &mut Option<Left>, left: Left) -> Option<&Left>
    ensures { IfSome result (λ l. l.now ≡ left) }
{
    *slot = Some(left);
    slot.as_ref()
}
