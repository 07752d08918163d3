//! A writer of circuits with their justice properties and fairness constraints, in both forms.
ghost use Rattle.std.specs.Prelude.{◌≡◌, ◌++◌, ℕ, false, map, IfOk, IsErrOf, IsTrue, OnOk};
ghost use Rattle.gipmc_aiger.specs.CircuitTexts.{are_above, is_numbered};
ghost use Rattle.gipmc_aiger.specs.LiveCircuits.{justice_view};
ghost use Rattle.gipmc_aiger.specs.LiveTexts.{justice_lines, live_aag_text, live_aig_text, live_header_line};
ghost use Rattle.gipmc_aiger.specs.LiveTexts.{live_packed_header_line, liveness_lines, size_lines};

use crate::liveness::Liveness;
use crate::writer::{
    WriteError, are_above, are_numbered, greatest_variable, header_text, sum, write_ands,
    write_inputs, write_latches, write_literals, write_number, write_packed_ands,
    write_packed_latches,
};
use gipmc_circuits::Circuit;
use gipsat_cnf::Literal;
use std::alloc::{AllocError, Global};

/// Writes a circuit with its justice properties and fairness constraints in the ascii form, as
/// [`write_aag`](crate::write_aag) writes a circuit.
///
/// # Errors
/// `AllocError` where memory is refused.
pub fn write_live_aag(
    alloc: Global,
    circuit: &Circuit,
    liveness: &Liveness,
) -> Result<Vec<u8>, AllocError>
    ensures { IfOk result (λ text. text.items ≡ live_aag_text circuit.now liveness.now) }
{
    let justice = liveness.justice.len() as u64;
    let fairness = liveness.fairness.len() as u64;
    let greatest = greatest_variable(circuit);
    let mut text = live_header_line(alloc, greatest, circuit, justice, fairness)?;
    write_inputs(&mut text, &circuit.inputs)?;
    write_latches(&mut text, &circuit.latches)?;
    write_literals(&mut text, &circuit.bads)?;
    write_literals(&mut text, &circuit.constraints)?;
    write_liveness(&mut text, liveness)?;
    write_ands(&mut text, &circuit.gates)?;
    Ok(text)
}

/// Writes a circuit with its justice properties and fairness constraints in the binary form, as
/// [`write_aig`](crate::write_aig) writes a circuit.
///
/// # Errors
/// As for [`write_aig`](crate::write_aig).
pub fn write_live_aig(
    alloc: Global,
    circuit: &Circuit,
    liveness: &Liveness,
) -> Result<Vec<u8>, WriteError>
    ensures text { IfOk result (λ text. text.items ≡ live_aig_text circuit.now liveness.now) }
    ensures numbered { IfOk result (λ text. IsTrue (is_numbered circuit.now)) }
    ensures ordered { IfOk result (λ text. IsTrue (are_above circuit.now.gates.items)) }
    ensures refused_number { (variable : ℕ) → IsErrOf result (WriteError.Numbering variable) →
        is_numbered circuit.now ≡ false }
    ensures refused_order { (variable : ℕ) → IsErrOf result (WriteError.Order variable) →
        are_above circuit.now.gates.items ≡ false }
{
    if let Err(variable) = are_numbered(circuit) {
        return Err(WriteError::Numbering(variable));
    }
    if let Err(output) = are_above(&circuit.gates) {
        return Err(WriteError::Order(output));
    }
    match packed(alloc, circuit, liveness) {
        Ok(text) => Ok(text),
        Err(_) => Err(WriteError::Memory),
    }
}

// The text in the binary form.
fn packed(alloc: Global, circuit: &Circuit, liveness: &Liveness) -> Result<Vec<u8>, AllocError>
    ensures { IfOk result (λ text. text.items ≡ live_aig_text circuit.now liveness.now) }
{
    let justice = liveness.justice.len() as u64;
    let fairness = liveness.fairness.len() as u64;
    let mut text = live_packed_header_line(alloc, circuit, justice, fairness)?;
    write_packed_latches(&mut text, &circuit.latches)?;
    write_literals(&mut text, &circuit.bads)?;
    write_literals(&mut text, &circuit.constraints)?;
    write_liveness(&mut text, liveness)?;
    write_packed_ands(&mut text, &circuit.gates)?;
    Ok(text)
}

// The header, with so many justice properties and fairness constraints.
fn live_header_line(
    alloc: Global,
    maximum: u32,
    circuit: &Circuit,
    justice: u64,
    fairness: u64,
) -> Result<Vec<u8>, AllocError>
    ensures { IfOk result (λ text. text.items ≡ live_header_line maximum circuit.now justice fairness) }
{
    header_text(
        alloc,
        b"aag",
        u64::from(maximum),
        circuit,
        &[justice, fairness],
    )
}

// The header of the binary form, with so many justice properties and fairness constraints.
fn live_packed_header_line(
    alloc: Global,
    circuit: &Circuit,
    justice: u64,
    fairness: u64,
) -> Result<Vec<u8>, AllocError>
    ensures { IfOk result (λ text. text.items ≡ live_packed_header_line circuit.now justice fairness) }
{
    header_text(alloc, b"aig", sum(circuit), circuit, &[justice, fairness])
}

// Writes the lines of justice properties and fairness constraints.
#[tactic(auto, using(std::proofs::Common::append_assoc))]
fn write_liveness(text: &mut Vec<u8>, liveness: &Liveness) -> Result<(), AllocError>
    ensures { OnOk result (text.new.items ≡ text.old.items
        ++ liveness_lines (justice_view liveness.now) liveness.now.fairness.items) }
{
    write_sizes(text, &liveness.justice)?;
    write_justice(text, &liveness.justice)?;
    write_literals(text, &liveness.fairness)?;
    Ok(())
}

// Writes how many literals each justice property has, in a line each.
fn write_sizes(text: &mut Vec<u8>, justice: &[Vec<Literal>]) -> Result<(), AllocError>
    ensures { OnOk result (text.new.items ≡ text.old.items
        ++ size_lines (map (λ property. property.items) justice.now)) }
{
    for property in justice {
        write_number(text, property.len() as u64, b'\n')?;
    }
    Ok(())
}

// Writes a line for each literal of justice properties.
fn write_justice(text: &mut Vec<u8>, justice: &[Vec<Literal>]) -> Result<(), AllocError>
    ensures { OnOk result (text.new.items ≡ text.old.items
        ++ justice_lines (map (λ property. property.items) justice.now)) }
{
    for property in justice {
        write_literals(text, property)?;
    }
    Ok(())
}
