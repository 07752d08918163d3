//! What the latches hold at each moment of a trace.
ghost use Rattle.std.specs.Prelude.{◌≡◌, IfOk, IfSome};
ghost use Rattle.gipsat_cnf.specs.Models.{assignment_in};
ghost use Rattle.gipmc_traces.specs.Rows.{Shows, held};

use gipmc_circuits::trace::{advance, begin};
use gipmc_circuits::{Circuit, Netlist, Trace};
use std::alloc::{AllocError, Global};

/// A row for each moment of a trace: what the latches hold, in the order of the circuit. None where the circuit has no
/// such trace.
///
/// # Errors
/// `AllocError` where memory is refused.
pub fn latch_rows(
    alloc: Global,
    netlist: &Netlist,
    trace: &Trace,
) -> Result<Option<Vec<Vec<bool>>>, AllocError>
    ensures { IfOk result (λ found. IfSome found (λ rows. Shows netlist.now.circuit trace.now rows.items)) }
{
    rows_of(alloc, &netlist.circuit, trace)
}

// A row for each moment of a trace.
fn rows_of(
    alloc: Global,
    circuit: &Circuit,
    trace: &Trace,
) -> Result<Option<Vec<Vec<bool>>>, AllocError>
    ensures { IfOk result (λ found. IfSome found (λ rows. Shows circuit.now trace.now rows.items)) }
{
    let Some((first, rest)) = trace.inputs.split_first() else {
        return Ok(None);
    };
    let Some(mut values) = begin(alloc, circuit, &trace.latches, first)? else {
        return Ok(None);
    };
    let mut rows = Vec::new(alloc);
    rows.push(row_of(alloc, circuit, &values)?)?;
    for place in 0..rest.len() {
        let Some(now) = advance(alloc, circuit, &values, &rest[place])? else {
            return Ok(None);
        };
        rows.push(row_of(alloc, circuit, &now)?)?;
        values = now;
    }
    Ok(Some(rows))
}

// What the latches hold where the variables have these values.
fn row_of(alloc: Global, circuit: &Circuit, values: &[bool]) -> Result<Vec<bool>, AllocError>
    ensures { IfOk result (λ row. row.items ≡ held circuit.now (assignment_in values.now)) }
{
    circuit
        .latches
        .iter()
        .map(|l| value_of(values, l.variable))
        .collect(alloc)
}

// The value of a variable, false past the end.
fn value_of(values: &[bool], variable: u32) -> bool
    ensures { result ≡ assignment_in values.now variable }
{
    values.get(variable as usize).copied().unwrap_or(false)
}
