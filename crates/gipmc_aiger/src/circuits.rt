//! Readers of circuits, and of problems: circuits with their justice properties and fairness constraints.
ghost use Rattle.std.specs.Prelude.{◌≡◌, ◌++◌, ℕ, None, IfErr, IfOk, IfSome, IsErrOf, IsTrue, OnOk, map, take};
ghost use Rattle.gipmc_circuits.specs.WellFormed.{is_well_formed};
ghost use Rattle.gipmc_aiger.specs.Reading.{Gives};
ghost use Rattle.gipmc_aiger.specs.Defects.{IsCyclic, IsErrorOf, WritesLiveRows, WritesRows, as_bads, is_twice, is_undefined, with_bads};
ghost use Rattle.gipmc_aiger.specs.Circuits.{bads_of, body_at, circuit_of, live_rows_of, rows_of, IsReordering, Writes};
ghost use Rattle.gipmc_aiger.specs.LiveCircuits.{are_defined, flattened, justice_view, live_literals, live_rows, IsProblemOf};

use crate::error::{AigerError, Place, Reason, Stop};
use crate::header::{Form, Header};
use crate::headers::header;
use crate::liveness::{Liveness, properties};
use crate::order::order;
use crate::place::error_at;
use crate::problem::{Problem, is_live_alone};
use crate::rows::rows;
use crate::tails::tail;
use gipmc_circuits::well_formed::is_well_formed;
use gipmc_circuits::{Circuit, Netlist};
use gipsat_cnf::Literal;
use std::alloc::{AllocError, Global};

/// Reads a circuit in either form of AIGER 1.9. Where the text has neither bad literals nor justice properties, its outputs
/// are taken for bad literals. Beside bad literals, justice properties and fairness constraints are read over;
/// [`read_problem`] reads them.
///
/// Gates of an `aag` text may stand in any order; the circuit has each behind those that it depends on.
///
/// # Errors
/// - [`AigerError::Refused`] with the place and the reason where the text has another form.
/// - [`AigerError::Twice`], [`AigerError::Undefined`] or [`AigerError::Cycle`] with a variable where an `aag` text
///   writes no circuit.
/// - [`AigerError::Memory`] where memory is refused.
pub fn read_circuit(alloc: Global, text: &[u8]) -> Result<Netlist, AigerError>
    ensures ok { IfOk result (λ n. Writes text.now n.circuit) }
    ensures refused { (place : Place) (reason : Reason) → IsErrOf result (AigerError.Refused place reason) →
        circuit_of text.now ≡ None }
    ensures twice { (v : ℕ) → IsErrOf result (AigerError.Twice v) →
        WritesRows text.now (λ n. IsTrue (is_twice n v)) }
    ensures undefined { (v : ℕ) → IsErrOf result (AigerError.Undefined v) →
        WritesRows text.now (λ n. IsTrue (is_undefined n v)) }
    ensures cycle { (v : ℕ) → IsErrOf result (AigerError.Cycle v) →
        WritesRows text.now (λ n. IsCyclic n v) }
{
    let (header, circuit) = match alone(alloc, text) {
        Ok(read) => read,
        Err(stop) => return Err(error_at(text, stop)),
    };
    ordered(alloc, header.form, circuit)
}

/// Reads a circuit as [`read_circuit`] does, with its justice properties and fairness constraints. The text need not have
/// bad literals; where it has justice properties and no bad literals, the circuit has none. Else it is the circuit that
/// [`read_circuit`] reads.
///
/// Variables have the numbers that the text gives them.
///
/// # Errors
/// As for [`read_circuit`]. A variable of a justice property or of a fairness constraint that is not defined is one that
/// is used.
pub fn read_problem(alloc: Global, text: &[u8]) -> Result<Problem, AigerError>
    ensures ok { IfOk result (IsProblemOf text.now) }
    ensures defined { IfOk result (λ p. IsTrue (are_defined p.netlist.circuit p.liveness)) }
    ensures refused { (place : Place) (reason : Reason) → IsErrOf result (AigerError.Refused place reason) →
        live_rows_of text.now ≡ None }
    ensures twice { (v : ℕ) → IsErrOf result (AigerError.Twice v) →
        WritesLiveRows text.now (λ n. IsTrue (is_twice n.circuit v)) }
    ensures undefined { (v : ℕ) → IsErrOf result (AigerError.Undefined v) →
        WritesLiveRows text.now (λ n. IsTrue (is_undefined (as_bads n) v)) }
    ensures cycle { (v : ℕ) → IsErrOf result (AigerError.Cycle v) →
        WritesLiveRows text.now (λ n. IsCyclic n.circuit v) }
{
    let (header, circuit, liveness) = match whole(alloc, text) {
        Ok(read) => read,
        Err(stop) => return Err(error_at(text, stop)),
    };
    let netlist = ordered_with(alloc, header.form, circuit, &liveness)?;
    Ok(Problem { netlist, liveness })
}

// The header and the rows of a circuit, whose justice properties stand beside bad literals alone.
#[tactic(auto, unfolding(crate::specs::Circuits::circuit_of))]
fn alone(alloc: Global, text: &[u8]) -> Result<(Header, Circuit), Stop>
    ensures { Gives (λ x. rows_of x.1) result (circuit_of text.now) }
{
    let (header, circuit, liveness) = whole(alloc, text)?;
    if is_live_alone(&circuit, &liveness) {
        return Err(Stop::Refused(Reason::Liveness, text.len()));
    }
    Ok((header, circuit))
}

// The header and the rows.
#[tactic(auto, unfolding(crate::specs::Circuits::live_rows_of))]
fn whole(alloc: Global, text: &[u8]) -> Result<(Header, Circuit, Liveness), Stop>
    ensures { Gives (λ x. live_rows x.1 x.2) result (live_rows_of text.now) }
{
    let (header, rest) = header(text)?;
    let (circuit, liveness) = body(alloc, &header, rest)?;
    Ok((header, circuit, liveness))
}

// The circuit that the rows behind a header write, its justice properties and its fairness constraints.
#[tactic(auto, unfolding(crate::specs::Circuits::body_at))]
fn body(alloc: Global, header: &Header, bytes: &[u8]) -> Result<(Circuit, Liveness), Stop>
    ensures { Gives (λ x. live_rows x.0 x.1) result (body_at header.now bytes.now) }
{
    let (inputs, rest) = rows(alloc, header, header.sizes.inputs, bytes)?;
    let (latches, rest) = rows(alloc, header, header.sizes.latches, rest)?;
    let (outputs, rest) = rows(alloc, header, header.sizes.outputs, rest)?;
    let (bads, rest) = rows(alloc, header, header.bads, rest)?;
    let (constraints, rest) = rows(alloc, header, header.constraints, rest)?;
    let (liveness, rest) = properties(alloc, header, rest)?;
    let (gates, rest) = rows(alloc, header, header.sizes.gates, rest)?;
    tail(header, rest)?;
    let bads = bads_of(header, outputs, bads);
    let circuit = Circuit {
        inputs,
        latches,
        gates,
        bads,
        constraints,
    };
    Ok((circuit, liveness))
}

// The outputs, where a text has neither bad literals nor justice properties; else the bad literals.
pub(crate) fn bads_of(header: &Header, outputs: Vec<Literal>, bads: Vec<Literal>) -> Vec<Literal>
    ensures { result.items ≡ bads_of header.now outputs.items bads.items }
{
    if header.bads == 0 && header.justice == 0 {
        return outputs;
    }
    bads
}

// The circuit with its gates in order.
fn ordered(alloc: Global, form: Form, mut circuit: Circuit) -> Result<Netlist, AigerError>
    ensures ok { IfOk result (λ n. IsReordering (rows_of circuit) (rows_of n.circuit)) }
    ensures defect { IfErr result (IsErrorOf (rows_of circuit)) }
{
    if let Form::Ascii = form {
        if let Err(defect) = order(alloc, &mut circuit) {
            return Err(defect.error());
        }
    }
    match Netlist::new(alloc, circuit) {
        Ok(Some(netlist)) => Ok(netlist),
        // None is not reached: what the ascii form leaves open was tested, and the binary form leaves nothing open.
        _ => Err(AigerError::Memory),
    }
}

// The same, if the literals of justice properties and fairness constraints are of its variables: they are tested as bad
// literals are.
fn ordered_with(
    alloc: Global,
    form: Form,
    mut circuit: Circuit,
    liveness: &Liveness,
) -> Result<Netlist, AigerError>
    ensures ok { IfOk result (λ n. IsReordering (rows_of circuit) (rows_of n.circuit)) }
    ensures defined { IfOk result (λ n. IsTrue (are_defined n.circuit liveness.now)) }
    ensures defect { IfErr result (IsErrorOf (as_bads (live_rows circuit liveness.now))) }
{
    let own = circuit.bads.len();
    push_literals(&mut circuit.bads, liveness)?;
    let circuit = match tested(alloc, form, circuit) {
        Ok(tested) => tested,
        Err(error) => return Err(error),
    };
    match shortened(alloc, circuit, own) {
        Some(netlist) => Ok(netlist),
        None => Err(AigerError::Memory),
    }
}

// The circuit with its gates in order, if it is well-formed.
fn tested(alloc: Global, form: Form, mut circuit: Circuit) -> Result<Circuit, AigerError>
    ensures ok { IfOk result (λ c. IsReordering (rows_of circuit) (rows_of c)) }
    ensures formed { IfOk result (λ c. IsTrue (is_well_formed c)) }
    ensures defect { IfErr result (IsErrorOf (rows_of circuit)) }
{
    if let Form::Ascii = form {
        if let Err(defect) = order(alloc, &mut circuit) {
            return Err(defect.error());
        }
    }
    // Another circuit is not reached, as above.
    if !is_well_formed(alloc, &circuit)? {
        return Err(AigerError::Memory);
    }
    Ok(circuit)
}

// The circuit with so many of its bad literals. None where memory is refused.
fn shortened(alloc: Global, mut circuit: Circuit, count: usize) -> Option<Netlist>
    ensures { IfSome result
        (λ n. rows_of n.circuit ≡ with_bads (rows_of circuit) (take count circuit.bads.items)) }
{
    circuit.bads.truncate(count);
    match Netlist::new(alloc, circuit) {
        Ok(Some(netlist)) => Some(netlist),
        // It is well-formed with the others too.
        _ => None,
    }
}

// Adds the literals of justice properties and the fairness constraints.
fn push_literals(literals: &mut Vec<Literal>, liveness: &Liveness) -> Result<(), AllocError>
    ensures { OnOk result (literals.new.items ≡ literals.old.items
        ++ live_literals (justice_view liveness.now) liveness.now.fairness.items) }
{
    literals.extend_from_slice(&liveness.fairness)?;
    push_justice(literals, &liveness.justice)?;
    Ok(())
}

// Adds the literals of justice properties.
fn push_justice(literals: &mut Vec<Literal>, justice: &[Vec<Literal>]) -> Result<(), AllocError>
    ensures { OnOk result (literals.new.items ≡ literals.old.items
        ++ flattened (map (λ property. property.items) justice.now)) }
{
    for property in justice {
        literals.extend_from_slice(property)?;
    }
    Ok(())
}
