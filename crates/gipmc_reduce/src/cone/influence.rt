//! Cones of influence: the variables that some literals depend on at this moment and at those before it.

use crate::cone::places::Places;
use gipmc_circuits::Circuit;
use gipsat_cnf::Literal;
use std::alloc::{AllocError, Global};

// What gives a variable its value.
#[derive(Clone, Copy)]
enum Definition {
    // It is false, or an input.
    Free,
    // The latch at this place.
    Latch(usize),
    // The gate at this place.
    Gate(usize),
}

/// Which variables are reached, by their places.
pub(crate) struct Influence {
    is_reached: Vec<bool>,
    // The places in the order in which they were reached.
    places: Vec<usize>,
}

// One call in its owners' proofs, in place of one for each field.
impl Drop for Influence {
    fn drop(self) {
        let Influence { is_reached, places } = self;
    }
}

impl Influence {
    /// The cone of the constraints and of these literals.
    pub(crate) fn new(
        alloc: Global,
        circuit: &Circuit,
        at: &Places,
        literals: &[Literal],
    ) -> Result<Self, AllocError> {
        let definitions = definitions(alloc, circuit, at)?;
        let mut cone = Influence {
            is_reached: Vec::new(alloc),
            places: Vec::new(alloc),
        };
        cone.is_reached.resize(at.count(), false)?;
        cone.reach_all(at, &circuit.constraints)?;
        cone.reach_all(at, literals)?;
        cone.close(circuit, at, &definitions)?;
        Ok(cone)
    }

    /// Whether a variable is reached.
    pub(crate) fn has(&self, at: &Places, variable: u32) -> bool {
        match at.place(variable) {
            Some(place) => self.is_reached.get(place).copied().unwrap_or(false),
            None => false,
        }
    }

    // Reaches the variables of some literals.
    fn reach_all(&mut self, at: &Places, literals: &[Literal]) -> Result<(), AllocError> {
        for l in literals {
            self.reach(at, *l)?;
        }
        Ok(())
    }

    // Reaches the variable of a literal.
    fn reach(&mut self, at: &Places, l: Literal) -> Result<(), AllocError> {
        let Some(place) = at.place(l.variable()) else {
            return Ok(());
        };
        let Some(is_reached) = self.is_reached.get_mut(place) else {
            return Ok(());
        };
        if *is_reached {
            return Ok(());
        }
        *is_reached = true;
        self.places.push(place)?;
        Ok(())
    }

    // Reaches all that those reached depend on.
    fn close(
        &mut self,
        circuit: &Circuit,
        at: &Places,
        definitions: &[Definition],
    ) -> Result<(), AllocError> {
        for next in 0..at.count() {
            let Some(&place) = self.places.get(next) else {
                break;
            };
            let Some(&definition) = definitions.get(place) else {
                break;
            };
            self.reach_operands(circuit, at, definition)?;
        }
        Ok(())
    }

    // Reaches what a variable depends on.
    fn reach_operands(
        &mut self,
        circuit: &Circuit,
        at: &Places,
        definition: Definition,
    ) -> Result<(), AllocError> {
        match definition {
            Definition::Free => {}
            Definition::Latch(place) => {
                if let Some(latch) = circuit.latches.get(place) {
                    self.reach(at, latch.next)?;
                }
            }
            Definition::Gate(place) => {
                if let Some(gate) = circuit.gates.get(place) {
                    self.reach(at, gate.left)?;
                    self.reach(at, gate.right)?;
                }
            }
        }
        Ok(())
    }
}

// What gives each variable its value, by its place.
fn definitions(
    alloc: Global,
    circuit: &Circuit,
    at: &Places,
) -> Result<Vec<Definition>, AllocError> {
    let mut definitions = Vec::new(alloc);
    definitions.resize(at.count(), Definition::Free)?;
    for (place, latch) in circuit.latches.iter().enumerate() {
        note(
            &mut definitions,
            at,
            latch.variable,
            Definition::Latch(place),
        );
    }
    for (place, gate) in circuit.gates.iter().enumerate() {
        note(&mut definitions, at, gate.output, Definition::Gate(place));
    }
    Ok(definitions)
}

// Notes what gives a variable its value.
fn note(definitions: &mut [Definition], at: &Places, variable: u32, by: Definition) {
    let Some(place) = at.place(variable) else {
        return;
    };
    if let Some(definition) = definitions.get_mut(place) {
        *definition = by;
    }
}
