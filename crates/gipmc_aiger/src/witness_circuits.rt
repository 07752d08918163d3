//! A reader of circuits that certify another one, as the witness circuits of HWMCC do.
ghost use Rattle.std.specs.Prelude.{◌≡◌, None, IfErr, IfOk, IsErrOf, map};
ghost use Rattle.gipmc_aiger.specs.Reading.{Gives};
ghost use Rattle.gipmc_aiger.specs.Circuits.{IsReordering, rows_of};
ghost use Rattle.gipmc_aiger.specs.Defects.{IsErrorOf};
ghost use Rattle.gipmc_aiger.specs.WitnessCircuits.{IsWitnessOf, WritesWitness, witness_body_at, witness_rows, witness_rows_of};

use crate::circuits::bads_of;
use crate::error::{AigerError, Place, Reason, Stop};
use crate::header::{Form, Header};
use crate::headers::header;
use crate::liveness::behind_liveness;
use crate::order::order;
use crate::place::error_at;
use crate::rows::rows;
use crate::sharing::shared;
use crate::tails::tail;
use gipmc_circuits::{Circuit, Latch, Register, WitnessCircuit};
use std::alloc::{AllocError, Global};

/// Reads a circuit in either form of AIGER 1.9 as a certificate of another one. The reset of a latch may be any literal.
///
/// The certificate shares the inputs and latches whose symbols are `= n` with the literal of number n of the circuit.
/// Where there is no such symbol, it shares inputs and latches with those of the circuit at the same places.
///
/// # Errors
/// - [`AigerError::Refused`] with the place and the reason where the text has another form.
/// - [`AigerError::Twice`], [`AigerError::Undefined`] or [`AigerError::Cycle`] with a variable where an `aag` text
///   writes no circuit.
/// - [`AigerError::Memory`] where memory is refused, or where a variable of the circuit is 2^31 or more.
pub fn read_witness_circuit(
    alloc: Global,
    circuit: &Circuit,
    text: &[u8],
) -> Result<WitnessCircuit, AigerError>
    ensures ok { IfOk result (WritesWitness circuit.now text.now) }
    ensures refused { (place : Place) (reason : Reason) → IsErrOf result (AigerError.Refused place reason) →
        witness_rows_of text.now ≡ None }
{
    let (header, read, registers, symbols) = match whole(alloc, text) {
        Ok(read) => read,
        Err(stop) => return Err(error_at(text, stop)),
    };
    made(alloc, circuit, header.form, read, &registers, symbols)
}

// The header, the circuit and its latches, and what stands behind the rows.
#[tactic(auto, unfolding(crate::specs::WitnessCircuits::witness_rows_of))]
fn whole(alloc: Global, text: &[u8]) -> Result<(Header, Circuit, Vec<Register>, &[u8]), Stop>
    ensures { Gives (λ x. witness_rows x.1 x.2.items x.3.now) result (witness_rows_of text.now) }
{
    let (header, rest) = header(text)?;
    let (circuit, registers, rest) = body(alloc, &header, rest)?;
    Ok((header, circuit, registers, rest))
}

// The circuit and its latches that the rows behind a header write, and what stands behind them.
#[tactic(auto, unfolding(crate::specs::WitnessCircuits::witness_body_at))]
fn body<'a>(
    alloc: Global,
    header: &Header,
    bytes: &'a [u8],
) -> Result<(Circuit, Vec<Register>, &'a [u8]), Stop>
    ensures { Gives (λ x. witness_rows x.0 x.1.items x.2.now) result (witness_body_at header.now bytes.now) }
{
    let (inputs, rest) = rows(alloc, header, header.sizes.inputs, bytes)?;
    let (registers, rest) = rows(alloc, header, header.sizes.latches, rest)?;
    let (outputs, rest) = rows(alloc, header, header.sizes.outputs, rest)?;
    let (bads, rest) = rows(alloc, header, header.bads, rest)?;
    let (constraints, rest) = rows(alloc, header, header.constraints, rest)?;
    let rest = behind_liveness(alloc, header, rest)?;
    let (gates, rest) = rows(alloc, header, header.sizes.gates, rest)?;
    tail(header, rest)?;
    let bads = bads_of(header, outputs, bads);
    let latches = latches(alloc, &registers)?;
    let circuit = Circuit {
        inputs,
        latches,
        gates,
        bads,
        constraints,
    };
    Ok((circuit, registers, rest))
}

// The latches, whose resets are left open.
fn latches(alloc: Global, registers: &[Register]) -> Result<Vec<Latch>, AllocError> {
    registers
        .iter()
        .map(|r| Latch {
            variable: r.variable,
            next: r.next,
            reset: None,
        })
        .collect(alloc)
}

// The certificate of the circuit that consists of these rows, and what it shares.
fn made(
    alloc: Global,
    circuit: &Circuit,
    form: Form,
    read: Circuit,
    registers: &[Register],
    symbols: &[u8],
) -> Result<WitnessCircuit, AigerError>
    ensures ok { IfOk result (IsWitnessOf circuit.now (witness_rows read registers.now symbols.now)) }
    ensures error { IfErr result (IsErrorOf (rows_of read)) }
{
    let links = shared(alloc, circuit, &read.inputs, registers, symbols)?;
    let read = ordered(alloc, form, read)?;
    Ok(WitnessCircuit::new(alloc, read, registers, links)?)
}

// The circuit with its gates in order.
fn ordered(alloc: Global, form: Form, mut circuit: Circuit) -> Result<Circuit, AigerError>
    ensures ok { IfOk result (λ c. IsReordering (rows_of circuit) (rows_of c)) }
    ensures error { IfErr result (IsErrorOf (rows_of circuit)) }
{
    if let Form::Ascii = form {
        if let Err(defect) = order(alloc, &mut circuit) {
            return Err(defect.error());
        }
    }
    Ok(circuit)
}
