//! What is left of a longer circuit where equal variables are merged. Nothing is proved of it: what is found in it is tried
//! on the longer circuit.

use crate::settings::MERGE_WORK;
use gipmc_circuits::{Circuit, Netlist, Trace};
use gipmc_reduce::{Bounds, Cone, Correspondence, Merges};
use gipsat_cnf::{Literal, SatSolver};
use std::alloc::{AllocError, Global};

// Numbers of variables are below this.
const VARIABLE_LIMIT: u32 = 1 << 31;

// A circuit in which equal variables are merged.
#[derive(Drop)]
pub(crate) struct Merged {
    sweep: Correspondence,
    // The part of it that its bad literals depend on.
    pub(crate) part: Cone,
}

impl Merged {
    // What is left of a circuit with some bad literals. None where that is not found out by a bounded work, and where fewer
    // than a tenth of the latches are gone: a search has about as many states then.
    pub(crate) fn of<S: SatSolver + Drop>(
        alloc: Global,
        whole: &Netlist,
    ) -> Result<Option<Self>, AllocError> {
        let bounds = Bounds {
            work: MERGE_WORK,
            ..Bounds::default()
        };
        let bads = &whole.circuit.bads;
        let Some(sweep) = Correspondence::new::<S>(alloc, whole, bads, bounds)? else {
            return Ok(None);
        };
        let bads = &sweep.netlist.circuit.bads;
        let Some(part) = Cone::new(alloc, &sweep.netlist, bads)? else {
            return Ok(None);
        };
        let left = part.netlist.circuit.latches.len();
        if left.saturating_mul(10) > whole.circuit.latches.len().saturating_mul(9) {
            return Ok(None);
        }
        Ok(Some(Merged { sweep, part }))
    }

    // The trace of the circuit that goes on as one of what is left does.
    pub(crate) fn trace_of(
        &self,
        alloc: Global,
        whole: &Netlist,
        trace: &Trace,
    ) -> Result<Trace, AllocError> {
        let trace = self.part.trace_of(alloc, &self.sweep.netlist, trace)?;
        self.sweep.trace_of(alloc, whole, &trace)
    }

    // Clauses of what is left, over the variables of the circuit, with those by which merged variables are equal: of latches
    // alone, unless gates may be named.
    pub(crate) fn clauses_of(
        &self,
        alloc: Global,
        whole: &Netlist,
        clauses: &[Vec<Literal>],
        names_gates: bool,
    ) -> Result<Vec<Vec<Literal>>, AllocError> {
        let named = self.part.names.clauses_of(alloc, clauses)?;
        if names_gates {
            return self.sweep.clauses_of(alloc, &named);
        }
        let mut all = equalities(alloc, &whole.circuit, &self.sweep.merges)?;
        let mut named = named;
        all.append(&mut named)?;
        Ok(all)
    }
}

// The clauses by which each latch has the value of the constant or of the latch that stands for it.
fn equalities(
    alloc: Global,
    circuit: &Circuit,
    merges: &Merges,
) -> Result<Vec<Vec<Literal>>, AllocError> {
    let mut is_named = Vec::new(alloc);
    for latch in circuit.latches.iter() {
        let len = usize::saturating_add(latch.variable as usize, 1);
        if is_named.len() < len {
            is_named.resize(len, false)?;
        }
        if let Some(slot) = is_named.get_mut(latch.variable as usize) {
            *slot = true;
        }
    }
    let mut all = Vec::new(alloc);
    for latch in circuit.latches.iter() {
        if latch.variable >= VARIABLE_LIMIT {
            continue;
        }
        let own = Literal::new(latch.variable, true);
        let other = merges.literal(own);
        let is_latch = is_named.get(other.variable() as usize).copied();
        if other.variable() == 0 {
            add_clause(
                alloc,
                &mut all,
                &[Literal::new(own.variable(), !other.is_positive())],
            )?;
        } else if other != own && is_latch == Some(true) {
            add_clause(alloc, &mut all, &[own.negated(), other])?;
            add_clause(alloc, &mut all, &[own, other.negated()])?;
        }
    }
    Ok(all)
}

// Adds a clause.
fn add_clause(
    alloc: Global,
    clauses: &mut Vec<Vec<Literal>>,
    clause: &[Literal],
) -> Result<(), AllocError> {
    let own = clause.to_vec(alloc)?;
    clauses.reserve(1)?;
    clauses.push_reserved(own);
    Ok(())
}
