//! Why a trace is no counterexample.

use crate::circuit::Circuit;
use crate::netlist::Netlist;
use crate::trace::{Trace, evaluate, fits, is_reset, is_true, next_latches};
use gipsat_cnf::Literal;
use std::alloc::{AllocError, Global};
use std::fmt::{self, Display};

/// Why a trace is no counterexample. Moments, latches and constraints are counted from 0.
#[derive(Clone, Copy, Debug, PartialEq, Eq)]
pub enum TraceDoubt {
    /// It has more or fewer values than the circuit has latches or inputs.
    Width,
    /// It has no moment.
    Empty,
    /// This latch does not begin at its reset.
    Reset(usize),
    /// At the moment that stands first, the constraint that stands second is false.
    Constraint(usize, usize),
    /// At its last moment, which is this one, the bad literal is false.
    NotBad(usize),
}

impl Display for TraceDoubt {
    fn fmt<W: fmt::Write>(&self, f: &mut fmt::Formatter<W>) -> fmt::Result {
        match self {
            TraceDoubt::Width => write!(f, "more or fewer values than latches or inputs"),
            TraceDoubt::Empty => write!(f, "no moment"),
            TraceDoubt::Reset(latch) => write!(f, "latch {latch} does not begin at its reset"),
            TraceDoubt::Constraint(moment, place) => {
                write!(f, "constraint {place} is false at moment {moment}")
            }
            TraceDoubt::NotBad(moment) => {
                write!(f, "the bad literal is false at the last moment, {moment}")
            }
        }
    }
}

// The first latch that does not begin at its reset.
fn wrong_reset(circuit: &Circuit, latches: &[bool]) -> Option<usize> {
    for (place, latch) in circuit.latches.iter().enumerate() {
        let value = latches.get(place).copied().unwrap_or(false);
        if !is_reset(latch.reset, value) {
            return Some(place);
        }
    }
    None
}

// The first of the literals that is false.
fn first_false(values: &[bool], literals: &[Literal]) -> Option<usize> {
    for (place, l) in literals.iter().enumerate() {
        if !is_true(values, *l) {
            return Some(place);
        }
    }
    None
}

/// Why a trace is no counterexample. None if it is one. Nothing is proved of it: [`replay`](crate::replay) is the judge.
///
/// # Errors
/// `AllocError` where memory is refused.
pub fn trace_doubt(
    alloc: Global,
    netlist: &Netlist,
    bad: Literal,
    trace: &Trace,
) -> Result<Option<TraceDoubt>, AllocError> {
    let circuit = &netlist.circuit;
    if !fits(circuit, trace) {
        return Ok(Some(TraceDoubt::Width));
    }
    if let Some(latch) = wrong_reset(circuit, &trace.latches) {
        return Ok(Some(TraceDoubt::Reset(latch)));
    }
    let mut doubt = Some(TraceDoubt::Empty);
    let mut latches = trace.latches.to_vec(alloc)?;
    for (moment, inputs) in trace.inputs.iter().enumerate() {
        let values = evaluate(alloc, circuit, &latches, inputs)?;
        if let Some(place) = first_false(&values, &circuit.constraints) {
            return Ok(Some(TraceDoubt::Constraint(moment, place)));
        }
        doubt = if is_true(&values, bad) {
            None
        } else {
            Some(TraceDoubt::NotBad(moment))
        };
        latches = next_latches(alloc, circuit, &values)?;
    }
    Ok(doubt)
}
