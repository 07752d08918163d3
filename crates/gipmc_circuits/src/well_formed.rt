//! Whether a circuit defines each variable once, its gates in order.
ghost use Rattle.std.specs.Prelude.{◌≡◌, ◌≤◌, ◌&&◌, length, map, IfOk, IsTrue, OnOk};
ghost use Rattle.std.specs.List.{list_all};
ghost use Rattle.gipsat_cnf.specs.Models.{assignment_in};
ghost use Rattle.gipmc_circuits.specs.WellFormed.{are_in_order, are_new, is_well_formed, uses_defined, with_variable, with_variables};

use crate::circuit::{And, Circuit, Latch};
use crate::trace::value_of;
use gipsat_cnf::Literal;
use std::alloc::{AllocError, Global};

// Lets the notes have at least so many places. Nothing more is defined then.
#[tactic(auto, using(crate::proofs::Defined::defined_pushed))]
fn grow(defined: &mut Vec<bool>, len: usize) -> Result<(), AllocError>
    ensures same { OnOk result (assignment_in defined.new.items ≡ assignment_in defined.old.items) }
    ensures long { OnOk result (len ≤ length defined.new.items) }
{
    while defined.len() < len {
        defined.push(false)?;
    }
    Ok(())
}

// Notes that a variable is defined.
#[tactic(auto, using(crate::proofs::Defined::defined_set))]
pub(crate) fn define(defined: &mut Vec<bool>, variable: u32) -> Result<(), AllocError>
    ensures { OnOk result
        (assignment_in defined.new.items ≡ with_variable variable (assignment_in defined.old.items)) }
{
    grow(defined, variable as usize + 1)?;
    defined[variable as usize] = true;
    Ok(())
}

// Whether none of the inputs is defined before it comes; they are defined then.
pub(crate) fn define_inputs(defined: &mut Vec<bool>, inputs: &[u32]) -> Result<bool, AllocError>
    ensures says { IfOk result (λ new. new ≡ are_new inputs.now (assignment_in defined.old.items)) }
    ensures defines { IfOk result (λ new. IsTrue new →
        assignment_in defined.new.items ≡ with_variables inputs.now (assignment_in defined.old.items)) }
{
    for input in inputs {
        if value_of(defined, *input) {
            return Ok(false);
        }
        define(defined, *input)?;
    }
    Ok(true)
}

// Whether no latch's variable is defined before it comes; they are defined then.
fn define_latches(defined: &mut Vec<bool>, latches: &[Latch]) -> Result<bool, AllocError>
    ensures says { IfOk result (λ new.
        new ≡ are_new (map (λ l. l.variable) latches.now) (assignment_in defined.old.items)) }
    ensures defines { IfOk result (λ new. IsTrue new → assignment_in defined.new.items
        ≡ with_variables (map (λ l. l.variable) latches.now) (assignment_in defined.old.items)) }
{
    for latch in latches {
        if value_of(defined, latch.variable) {
            return Ok(false);
        }
        define(defined, latch.variable)?;
    }
    Ok(true)
}

// Whether the gate's operands are defined.
fn has_operands(defined: &[bool], gate: And) -> bool
    ensures { result ≡ (assignment_in defined.now gate.left.variable && assignment_in defined.now gate.right.variable) }
{
    value_of(defined, gate.left.variable()) && value_of(defined, gate.right.variable())
}

// Whether each gate's operands are defined before it and its output is not; the outputs are defined then.
pub(crate) fn define_gates(defined: &mut Vec<bool>, gates: &[And]) -> Result<bool, AllocError>
    ensures says { IfOk result (λ ordered. ordered ≡ are_in_order gates.now (assignment_in defined.old.items)) }
    ensures defines { IfOk result (λ ordered. IsTrue ordered → assignment_in defined.new.items
        ≡ with_variables (map (λ g. g.output) gates.now) (assignment_in defined.old.items)) }
{
    for gate in gates {
        if !has_operands(defined, *gate) {
            return Ok(false);
        }
        if value_of(defined, gate.output) {
            return Ok(false);
        }
        define(defined, gate.output)?;
    }
    Ok(true)
}

// Whether the variables of the latches' next literals are defined.
fn have_next(defined: &[bool], latches: &[Latch]) -> bool
    ensures { result ≡ list_all (λ l. assignment_in defined.now l.next.variable) latches.now }
{
    latches.iter().all(|l| value_of(defined, l.next.variable()))
}

// Whether the variables of the literals are defined.
fn are_defined(defined: &[bool], literals: &[Literal]) -> bool
    ensures { result ≡ list_all (λ l. assignment_in defined.now l.variable) literals.now }
{
    literals.iter().all(|l| value_of(defined, l.variable()))
}

// Whether the variable of each literal is defined.
fn uses_defined(defined: &[bool], circuit: &Circuit) -> bool
    ensures { result ≡ uses_defined (assignment_in defined.now) circuit.now }
{
    have_next(defined, &circuit.latches)
        && (are_defined(defined, &circuit.bads) && are_defined(defined, &circuit.constraints))
}

/// Whether the circuit defines each variable once, the gates in order, and defines each variable that it uses.
///
/// A circuit that is well-formed has exactly one valuation for each choice of the values of inputs and latches. Takes
/// time in proportion to the circuit and its greatest variable, and a byte for each variable up to that.
///
/// # Errors
/// `AllocError` where memory is refused.
pub fn is_well_formed(alloc: Global, circuit: &Circuit) -> Result<bool, AllocError>
    ensures { IfOk result (λ is. is ≡ is_well_formed circuit.now) }
{
    let mut defined = Vec::new(alloc);
    define(&mut defined, 0)?;
    if !define_inputs(&mut defined, &circuit.inputs)? {
        return Ok(false);
    }
    if !define_latches(&mut defined, &circuit.latches)? {
        return Ok(false);
    }
    if !define_gates(&mut defined, &circuit.gates)? {
        return Ok(false);
    }
    let used = uses_defined(&defined, circuit);
    Ok(used)
}
