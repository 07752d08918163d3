//! The properties of a circuit, each with the size of what it depends on.
ghost use Rattle.std.specs.Prelude.{◌≡◌, map, IfOk};
ghost use Rattle.std.specs.Process.{exit_status};
ghost use Rattle.gip_cli.specs.Statuses.{IsEndedStatus};
ghost use Rattle.gipmc.specs.Asked.{properties};

use crate::errors::Failure;
use crate::files::{Texts, write_out};
use crate::located::located;
use crate::problem_in;
use gip_cli::refuse;
use gipmc_aiger::{Problem, Property};
use gipmc_circuits::Circuit;
use gipmc_command::Options;
use gipmc_reduce::Cone;
use gipmc_task::PropertyName;
use gipsat_cnf::Literal;
use std::alloc::{AllocError, Global};
use std::process::ExitCode;

/// The status of listing the properties of the circuit in the file that the options name, or in standard input.
pub fn run<T: Texts>(rt: &HostRuntime, texts: &T, options: &Options) -> ExitCode
    ensures { IsEndedStatus (exit_status result) }
{
    match texts.text_of(rt, options.file) {
        Ok(bytes) => list_in(rt, options, &bytes),
        Err(error) => refuse(rt, &error),
    }
}

// The status of listing the properties of the circuit that the bytes write.
fn list_in(rt: &HostRuntime, options: &Options, bytes: &[u8]) -> ExitCode
    ensures { IsEndedStatus (exit_status result) }
{
    match list(rt, options, bytes) {
        Ok(()) => ExitCode::SUCCESS,
        Err(error) => refuse(rt, &located(error, bytes, &[])),
    }
}

// Writes a line for each property.
fn list<'a>(rt: &HostRuntime, options: &Options<'a>, bytes: &[u8]) -> Result<(), Failure<'a>> {
    let problem = problem_in(rt, options, bytes)?;
    let rows = rows_of(rt.alloc(), &problem)?;
    let text = text_of(rt.alloc(), &rows)?;
    write_out(rt, &text)
}

// A property, and how many latches, gates and inputs it and the constraints depend on.
#[derive(Clone, Copy)]
struct Listing {
    property: Property,
    latches: usize,
    gates: usize,
    inputs: usize,
}

// A row for each property, in the order of the answers.
#[tactic(auto, using(crate::proofs::Listed::one_more))]
fn rows_of(alloc: Global, problem: &Problem) -> Result<Vec<Listing>, AllocError>
    ensures { IfOk result (λ rows. map (λ row. row.property) rows.items ≡ properties problem.now) }
{
    let mut rows = Vec::new(alloc);
    for bad in 0..problem.netlist.circuit.bads.len() {
        rows.push(row_of(alloc, problem, Property::Bad(bad))?)?;
    }
    for justice in 0..problem.liveness.justice.len() {
        rows.push(row_of(alloc, problem, Property::Justice(justice))?)?;
    }
    Ok(rows)
}

// The row of a property.
fn row_of(alloc: Global, problem: &Problem, property: Property) -> Result<Listing, AllocError>
    ensures { IfOk result (λ row. row.property ≡ property) }
{
    let literals = literals_of(alloc, problem, property)?;
    match Cone::new(alloc, &problem.netlist, &literals)? {
        Some(cone) => Ok(row_in(property, &cone.netlist.circuit)),
        None => Ok(row_in(property, &problem.netlist.circuit)),
    }
}

// The row of a property that depends on all of this circuit.
fn row_in(property: Property, cone: &Circuit) -> Listing
    ensures { result.property ≡ property }
{
    Listing {
        property,
        latches: cone.latches.len(),
        gates: cone.gates.len(),
        inputs: cone.inputs.len(),
    }
}

// The literals that a property is about.
fn literals_of(
    alloc: Global,
    problem: &Problem,
    property: Property,
) -> Result<Vec<Literal>, AllocError> {
    let mut literals = Vec::new(alloc);
    match property {
        Property::Bad(place) => {
            if let Some(bad) = problem.netlist.circuit.bads.get(place) {
                literals.push(*bad)?;
            }
        }
        Property::Justice(place) => {
            if let Some(justice) = problem.liveness.justice.get(place) {
                literals.extend_from_slice(justice)?;
            }
            literals.extend_from_slice(&problem.liveness.fairness)?;
        }
    }
    Ok(literals)
}

// The lines of some rows.
fn text_of(alloc: Global, rows: &[Listing]) -> Result<Vec<u8>, AllocError> {
    let mut text = Vec::new(alloc);
    for row in rows {
        let line = line_of(alloc, row)?;
        text.extend_from_slice(&line)?;
    }
    Ok(text)
}

// The line of a row.
fn line_of(alloc: Global, row: &Listing) -> Result<Vec<u8>, AllocError> {
    let name = PropertyName(row.property);
    let (latches, gates, inputs) = (row.latches, row.gates, row.inputs);
    let line = format!(in alloc; "{name} latches {latches} gates {gates} inputs {inputs}\n")?;
    Ok(line.into_bytes())
}
