//! Where a trace makes literals true. Nothing is proved of it: a trace is replayed for each literal.

use gipmc_circuits::trace::{advance, begin};
use gipmc_circuits::{Circuit, Trace};
use gipsat_cnf::Literal;
use std::alloc::{AllocError, Global};

// At how many transitions each literal becomes true first, as far as the trace is one of the circuit.
pub(crate) fn first_hits(
    alloc: Global,
    circuit: &Circuit,
    literals: &[Literal],
    trace: &Trace,
) -> Result<Vec<Option<usize>>, AllocError> {
    let mut hits = Vec::new(alloc);
    hits.resize(literals.len(), None)?;
    let mut last = Vec::new(alloc);
    for (moment, row) in trace.inputs.iter().enumerate() {
        let next = if moment == 0 {
            begin(alloc, circuit, &trace.latches, row)?
        } else {
            advance(alloc, circuit, &last, row)?
        };
        let Some(values) = next else {
            return Ok(hits);
        };
        note_hits(&mut hits, literals, &values, moment);
        last = values;
    }
    Ok(hits)
}

// Notes which literals become true at a moment with these values.
fn note_hits(hits: &mut [Option<usize>], literals: &[Literal], values: &[bool], moment: usize) {
    for (hit, l) in hits.iter_mut().zip(literals) {
        let value = values.get(l.variable() as usize).copied();
        if hit.is_none() && value.unwrap_or(false) == l.is_positive() {
            *hit = Some(moment);
        }
    }
}

// A copy of the first moments of a trace, behind so many transitions the last one.
pub(crate) fn beginning(
    alloc: Global,
    trace: &Trace,
    transitions: usize,
) -> Result<Trace, AllocError> {
    let mut inputs = Vec::new(alloc);
    for row in trace.inputs.iter().take(transitions.saturating_add(1)) {
        let row = row.to_vec(alloc)?;
        inputs.reserve(1)?;
        inputs.push_reserved(row);
    }
    Ok(Trace {
        latches: trace.latches.to_vec(alloc)?,
        inputs,
    })
}
