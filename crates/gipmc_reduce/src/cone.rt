//! Cones of influence: parts of circuits, with numbers of their own.
ghost use Rattle.std.specs.Prelude.{◌≡◌, map, IfOk, IfSome};
ghost use Rattle.std.specs.List.{All, Contains};
ghost use Rattle.gipmc_reduce.specs.Cone.{IsPartOf, gate_named, latch_named, literal_named};

mod influence;
pub mod names;
mod places;

use gipmc_circuits::{And, Circuit, Latch, Netlist, Trace};
use gipsat_cnf::Literal;
pub use names::Names;
use std::alloc::{AllocError, Global};

/// A part of a circuit: what some literals and all constraints depend on.
#[derive(Drop)]
pub struct Cone {
    /// The part. Its bad literals stand for the literals that were asked for.
    pub netlist: Netlist,
    /// The variables of the whole circuit that its variables stand for.
    pub names: Names,
}

impl Cone {
    /// The part of a circuit that these literals and the constraints depend on. None if one of the literals is of no
    /// variable of the circuit.
    ///
    /// # Errors
    /// `AllocError` where memory is refused.
    pub fn new(
        alloc: Global,
        whole: &Netlist,
        literals: &[Literal],
    ) -> Result<Option<Self>, AllocError>
        ensures part { IfOk result (λ made. IfSome made
            (λ p. IsPartOf p.names.names.items p.netlist.circuit whole.now.circuit)) }
        ensures bads { IfOk result (λ made. IfSome made
            (λ p. map (literal_named p.names.names.items) p.netlist.circuit.bads.items ≡ literals.now)) }
    {
        let names = Names::new(alloc, whole, literals)?;
        if names.name(0) != 0 {
            return Ok(None);
        }
        let Some(circuit) = circuit_in(alloc, &names, &whole.circuit, literals)? else {
            return Ok(None);
        };
        match Netlist::new(alloc, circuit)? {
            Some(netlist) => Ok(Some(Cone { netlist, names })),
            None => Ok(None),
        }
    }

    /// The trace of the whole circuit that goes on as one of the part does: what the part does not depend on is 0, or
    /// begins with its reset. Nothing is proved of it: a replay tells whether it is one.
    ///
    /// # Errors
    /// `AllocError` where memory is refused.
    pub fn trace_of(
        &self,
        alloc: Global,
        whole: &Netlist,
        trace: &Trace,
    ) -> Result<Trace, AllocError> {
        let circuit = &whole.circuit;
        let mut latches = Vec::with_capacity(alloc, circuit.latches.len())?;
        for latch in &circuit.latches {
            let value = self.latch_value(latch.variable, &trace.latches);
            latches.push(value.or(latch.reset).unwrap_or(false))?;
        }
        let places = self.input_places(alloc, &circuit.inputs)?;
        let mut inputs = Vec::with_capacity(alloc, trace.inputs.len())?;
        for row in &trace.inputs {
            let row = row_of(alloc, &places, row)?;
            inputs.push(row)?;
        }
        Ok(Trace { latches, inputs })
    }

    // What the latch of the part that stands for this variable begins with, if there is one.
    fn latch_value(&self, variable: u32, values: &[bool]) -> Option<bool> {
        let number = self.names.number(variable)?;
        let first = self.netlist.circuit.inputs.len().saturating_add(1);
        let place = (number as usize).checked_sub(first)?;
        values.get(place).copied()
    }

    // For each of these inputs, its place among those of the part, if it is one.
    fn input_places(
        &self,
        alloc: Global,
        inputs: &[u32],
    ) -> Result<Vec<Option<usize>>, AllocError> {
        let mut places = Vec::with_capacity(alloc, inputs.len())?;
        for input in inputs {
            let number = self.names.number(*input).unwrap_or(0);
            places.push((number as usize).checked_sub(1))?;
        }
        Ok(places)
    }
}

// The values at these places, false where there is none.
fn row_of(
    alloc: Global,
    places: &[Option<usize>],
    values: &[bool],
) -> Result<Vec<bool>, AllocError> {
    let mut row = Vec::with_capacity(alloc, places.len())?;
    for place in places {
        let value = match place {
            Some(place) => values.get(*place).copied(),
            None => None,
        };
        row.push(value.unwrap_or(false))?;
    }
    Ok(row)
}

// The part of a circuit whose variables have these names, with these literals as its bad ones. None if one of them, or a
// constraint, is of another variable.
fn circuit_in(
    alloc: Global,
    names: &Names,
    whole: &Circuit,
    literals: &[Literal],
) -> Result<Option<Circuit>, AllocError>
    ensures gates { IfOk result (λ made. IfSome made (λ c.
        All (λ g. Contains whole.now.gates.items (gate_named names.now.names.items g)) c.gates.items)) }
    ensures latches { IfOk result (λ made. IfSome made (λ c.
        All (λ l. Contains whole.now.latches.items (latch_named names.now.names.items l)) c.latches.items)) }
    ensures constraints { IfOk result (λ made. IfSome made (λ c.
        map (literal_named names.now.names.items) c.constraints.items ≡ whole.now.constraints.items)) }
    ensures bads { IfOk result (λ made. IfSome made (λ c.
        map (literal_named names.now.names.items) c.bads.items ≡ literals.now)) }
{
    let Some(bads) = names.literals(alloc, literals)? else {
        return Ok(None);
    };
    let Some(constraints) = names.literals(alloc, &whole.constraints)? else {
        return Ok(None);
    };
    let inputs = inputs_in(alloc, names, &whole.inputs)?;
    let latches = latches_in(alloc, names, &whole.latches)?;
    let gates = gates_in(alloc, names, &whole.gates)?;
    Ok(Some(Circuit {
        inputs,
        latches,
        gates,
        bads,
        constraints,
    }))
}

// The inputs of the part.
fn inputs_in(alloc: Global, names: &Names, inputs: &[u32]) -> Result<Vec<u32>, AllocError> {
    let mut all = Vec::new(alloc);
    for input in inputs {
        if let Some(own) = names.number(*input) {
            all.push(own)?;
        }
    }
    Ok(all)
}

// The latches of the part.
fn latches_in(alloc: Global, names: &Names, latches: &[Latch]) -> Result<Vec<Latch>, AllocError>
    ensures { IfOk result (λ own.
        All (λ l. Contains latches.now (latch_named names.now.names.items l)) own.items) }
{
    let mut all = Vec::new(alloc);
    for latch in latches {
        let Some(own) = names.latch(*latch) else {
            continue;
        };
        all.push(own)?;
    }
    Ok(all)
}

// The gates of the part.
fn gates_in(alloc: Global, names: &Names, gates: &[And]) -> Result<Vec<And>, AllocError>
    ensures { IfOk result (λ own.
        All (λ g. Contains gates.now (gate_named names.now.names.items g)) own.items) }
{
    let mut all = Vec::new(alloc);
    for gate in gates {
        let Some(own) = names.gate(*gate) else {
            continue;
        };
        all.push(own)?;
    }
    Ok(all)
}
