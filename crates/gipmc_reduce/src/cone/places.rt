//! Where the variables of a circuit stand in tables, which are as long as the circuit and not as its greatest number.

use gipmc_circuits::Netlist;
use std::alloc::{AllocError, Global};

// With so few numbers for each variable the number itself is the place.
const NUMBERS: usize = 4;

/// The places of a circuit's variables.
#[derive(Drop)]
pub(crate) enum Places {
    /// The number itself, below this one.
    Numbers(usize),
    /// The place among these, which rise.
    Sorted(Vec<u32>),
}

impl Places {
    /// Those of a circuit.
    pub(crate) fn new(alloc: Global, netlist: &Netlist) -> Result<Self, AllocError> {
        let circuit = &netlist.circuit;
        let gates = circuit.gates.len();
        let sources = circuit.inputs.len().saturating_add(circuit.latches.len());
        let count = gates.saturating_add(sources).saturating_add(1);
        if netlist.variables / NUMBERS <= count {
            return Ok(Places::Numbers(netlist.variables));
        }
        Ok(Places::Sorted(variables(alloc, netlist)?))
    }

    /// How many there are.
    pub(crate) fn count(&self) -> usize {
        match self {
            Places::Numbers(count) => *count,
            Places::Sorted(variables) => variables.len(),
        }
    }

    /// The place of a variable, if the circuit has it.
    pub(crate) fn place(&self, variable: u32) -> Option<usize> {
        match self {
            Places::Numbers(count) if (variable as usize) < *count => Some(variable as usize),
            Places::Numbers(_) => None,
            Places::Sorted(variables) => variables.binary_search(&variable).ok(),
        }
    }
}

// The variables of a circuit, rising.
fn variables(alloc: Global, netlist: &Netlist) -> Result<Vec<u32>, AllocError> {
    let circuit = &netlist.circuit;
    let mut variables = Vec::new(alloc);
    variables.push(0)?;
    variables.extend_from_slice(&circuit.inputs)?;
    for latch in &circuit.latches {
        variables.push(latch.variable)?;
    }
    for gate in &circuit.gates {
        variables.push(gate.output)?;
    }
    variables.sort_unstable();
    Ok(variables)
}
