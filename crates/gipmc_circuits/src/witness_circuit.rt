//! Circuits that certify another one, as the witness circuits of HWMCC do.
ghost use Rattle.std.specs.Prelude.{◌≡◌, map, not, filter, IfOk, OnOk};
ghost use Rattle.gipsat_cnf.specs.Models.{assignment_in};
ghost use Rattle.gipmc_circuits.specs.WellFormed.{is_constant, with_variables};
ghost use Rattle.gipmc_circuits.specs.WitnessCircuits.{link_variables, next_link, reset_link, unlinked, unlinked_variables};

use crate::circuit::Circuit;
use crate::trace::value_of;
use crate::well_formed::define;
use gipsat_cnf::Literal;
use std::alloc::{AllocError, Global};

/// A variable, and a literal whose value it has.
#[derive(Clone, Copy)]
pub struct Link {
    /// The variable.
    pub variable: u32,
    /// The literal.
    pub literal: Literal,
}

/// A latch whose reset may be any literal.
#[derive(Clone, Copy)]
pub struct Register {
    /// Its variable.
    pub variable: u32,
    /// What it holds at the next moment.
    pub next: Literal,
    /// What it holds at the first moment: itself if it may hold either value then.
    pub reset: Literal,
}

/// A circuit as a certificate of another one. It claims that its bad literals are false and its constraints true.
pub struct WitnessCircuit {
    /// Its gates, bad literals and constraints.
    pub circuit: Circuit,
    /// Its inputs and latches that have the value of a literal of the other circuit, at each moment.
    pub shared: Vec<Link>,
    /// What each other latch holds at the first moment: itself if it may hold either value then.
    pub resets: Vec<Link>,
    /// What each other latch holds at the next moment.
    pub nexts: Vec<Link>,
    /// The other inputs.
    pub inputs: Vec<u32>,
}

// One call in its owners' proofs, in place of one for each field.
impl Drop for WitnessCircuit {
    fn drop(self) {
        let WitnessCircuit {
            circuit,
            shared,
            resets,
            nexts,
            inputs,
        } = self;
    }
}

impl WitnessCircuit {
    /// The certificate of a circuit and its latches, of which these inputs and latches are shared.
    ///
    /// # Errors
    /// `AllocError` where memory is refused.
    pub fn new(
        alloc: Global,
        circuit: Circuit,
        registers: &[Register],
        shared: Vec<Link>,
    ) -> Result<Self, AllocError>
        ensures circuit { IfOk result (λ w. w.circuit ≡ circuit) }
        ensures shared { IfOk result (λ w. w.shared ≡ shared) }
        ensures resets { IfOk result
            (λ w. w.resets.items ≡ map reset_link (unlinked shared.items registers.now)) }
        ensures nexts { IfOk result (λ w. w.nexts.items ≡ map next_link (unlinked shared.items registers.now)) }
        ensures inputs { IfOk result
            (λ w. w.inputs.items ≡ unlinked_variables shared.items circuit.inputs.items) }
    {
        let marks = marks(alloc, &shared)?;
        let own = unlinked(alloc, &marks, registers)?;
        let resets = reset_links(alloc, &own)?;
        let nexts = next_links(alloc, &own)?;
        let inputs = unmarked(alloc, &marks, &circuit.inputs)?;
        Ok(WitnessCircuit {
            circuit,
            shared,
            resets,
            nexts,
            inputs,
        })
    }
}

// Notes of the variables of the links, and of 0.
fn marks(alloc: Global, links: &[Link]) -> Result<Vec<bool>, AllocError>
    ensures { IfOk result
        (λ marks. assignment_in marks.items ≡ with_variables (link_variables links.now) is_constant) }
{
    let mut marks = Vec::new(alloc);
    define(&mut marks, 0)?;
    mark_links(&mut marks, links)?;
    Ok(marks)
}

// Notes the variables of the links.
fn mark_links(marks: &mut Vec<bool>, links: &[Link]) -> Result<(), AllocError>
    ensures { OnOk result (assignment_in marks.new.items
        ≡ with_variables (link_variables links.now) (assignment_in marks.old.items)) }
{
    for link in links {
        define(marks, link.variable)?;
    }
    Ok(())
}

// The latches whose variables are not marked.
fn unlinked(
    alloc: Global,
    marks: &[bool],
    registers: &[Register],
) -> Result<Vec<Register>, AllocError>
    ensures { IfOk result
        (λ own. own.items ≡ filter (λ r. not (assignment_in marks.now r.variable)) registers.now) }
{
    let mut own = Vec::new(alloc);
    for register in registers {
        if value_of(marks, register.variable) {
            continue;
        }
        own.push(*register)?;
    }
    Ok(own)
}

// What the latches hold at first.
fn reset_links(alloc: Global, registers: &[Register]) -> Result<Vec<Link>, AllocError>
    ensures { IfOk result (λ links. links.items ≡ map reset_link registers.now) }
{
    registers
        .iter()
        .map(|r| Link {
            variable: r.variable,
            literal: r.reset,
        })
        .collect(alloc)
}

// What the latches hold next.
fn next_links(alloc: Global, registers: &[Register]) -> Result<Vec<Link>, AllocError>
    ensures { IfOk result (λ links. links.items ≡ map next_link registers.now) }
{
    registers
        .iter()
        .map(|r| Link {
            variable: r.variable,
            literal: r.next,
        })
        .collect(alloc)
}

// The variables that are not marked.
fn unmarked(alloc: Global, marks: &[bool], variables: &[u32]) -> Result<Vec<u32>, AllocError>
    ensures { IfOk result (λ left. left.items ≡ filter (λ v. not (assignment_in marks.now v)) variables.now) }
{
    let mut left = Vec::new(alloc);
    for variable in variables {
        if value_of(marks, *variable) {
            continue;
        }
        left.push(*variable)?;
    }
    Ok(left)
}
