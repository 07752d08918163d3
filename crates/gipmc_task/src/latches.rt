//! Clauses over the latches of a circuit, as texts, which name a latch by its place.

use crate::error::TaskError;
use gipmc_aiger::write_invariant;
use gipmc_circuits::{Circuit, Netlist};
use gipsat_cnf::Literal;
use std::alloc::{AllocError, Global};

/// The text of some clauses over the latches of the circuit.
pub(crate) fn invariant_text(
    alloc: Global,
    netlist: &Netlist,
    invariant: &[Vec<Literal>],
) -> Result<Vec<u8>, TaskError> {
    let places = places_of(alloc, &netlist.circuit)?;
    let mut clauses = Vec::new(alloc);
    for clause in invariant {
        let clause = over_places(alloc, &places, clause)?;
        clauses.reserve(1)?;
        clauses.push_reserved(clause);
    }
    Ok(write_invariant(alloc, netlist.circuit.latches.len(), &clauses)?)
}

// The variables of the latches, rising, each with the place of its latch.
fn places_of(alloc: Global, circuit: &Circuit) -> Result<Vec<(u32, u32)>, AllocError> {
    let mut places = Vec::with_capacity(alloc, circuit.latches.len())?;
    for (place, latch) in circuit.latches.iter().enumerate() {
        let place = u32::try_from(place).map_err(|_| AllocError)?;
        places.push((latch.variable, place))?;
    }
    places.sort_unstable();
    Ok(places)
}

// The place of the latch of a variable, if it is a latch's.
fn place_of(places: &[(u32, u32)], variable: u32) -> Option<u32> {
    let at = match places.binary_search(&(variable, 0)) {
        Ok(at) => at,
        Err(at) => at,
    };
    match places.get(at) {
        Some((latch, place)) if *latch == variable => Some(*place),
        _ => None,
    }
}

// A clause over variables of latches, over their places.
fn over_places(
    alloc: Global,
    places: &[(u32, u32)],
    clause: &[Literal],
) -> Result<Vec<Literal>, TaskError> {
    let mut moved = Vec::new(alloc);
    for l in clause {
        match place_of(places, l.variable()) {
            Some(place) if place < LATCHES => {
                moved.reserve(1)?;
                moved.push_reserved(Literal::new(place, l.is_positive()));
            }
            _ => return Err(TaskError::Uncertified),
        }
    }
    Ok(moved)
}

// The most latches that the text of an invariant may name.
const LATCHES: u32 = 2_147_483_647;
