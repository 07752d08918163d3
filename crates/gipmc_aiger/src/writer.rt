//! A writer of circuits in both forms.
ghost use Rattle.std.specs.Prelude.{◌≡◌, ◌==◌, ◌<◌, ◌+◌, ◌^◌, ◌++◌, ◌∷◌, [], ℕ, decimal, false, length, map, min, nat_le};
ghost use Rattle.std.specs.Prelude.{IfOk, IsErrOf, IsTrue, None, OnErr, OnOk, Some};
ghost use Rattle.gipmc_aiger.specs.CircuitTexts.{aag_text, aig_text, and_line, and_lines, are_above};
ghost use Rattle.gipmc_aiger.specs.CircuitTexts.{greatest_input, greatest_latch, greatest_output, greatest_variable};
ghost use Rattle.gipmc_aiger.specs.CircuitTexts.{header_line, header_numbers, input_lines, is_above, is_numbered};
ghost use Rattle.gipmc_aiger.specs.CircuitTexts.{latch_line, latch_lines, literal_lines, literal_number};
ghost use Rattle.gipmc_aiger.specs.CircuitTexts.{numbered_behind, numbers_text, packed_and, packed_ands, packed_header_line};
ghost use Rattle.gipmc_aiger.specs.CircuitTexts.{packed_latch_line, packed_latch_lines, reset_number};
ghost use Rattle.gipmc_aiger.specs.Writable.{IsWritable, has_room};
ghost use Rattle.giputils_text.specs.Groups.{groups};

use gipmc_circuits::{And, Circuit, Latch, Netlist};
use gipsat_cnf::Literal;
use giputils_text::write_groups;
use std::alloc::{AllocError, AllocFailed, Global};
use std::io::Write;
use thiserror::Error;

/// Writes a circuit in the ascii form, its bad literals as such. The first number of the header is its greatest
/// variable.
///
/// # Errors
/// `AllocError` where memory is refused.
pub fn write_aag(alloc: Global, circuit: &Circuit) -> Result<Vec<u8>, AllocError>
    ensures { IfOk result (λ text. text.items ≡ aag_text circuit.now) }
{
    let mut text = header_line(alloc, greatest_variable(circuit), circuit)?;
    write_inputs(&mut text, &circuit.inputs)?;
    write_latches(&mut text, &circuit.latches)?;
    write_literals(&mut text, &circuit.bads)?;
    write_literals(&mut text, &circuit.constraints)?;
    write_ands(&mut text, &circuit.gates)?;
    Ok(text)
}

/// Whether the forms have room for a circuit: its greatest variable is below 2^31, it has no more inputs, latches and
/// gates than that, and fewer than 2^31 bad literals and constraints.
pub fn is_writable(netlist: &Netlist) -> bool
    ensures yes { IsTrue result → IsWritable netlist.now.circuit }
    ensures no { result ≡ false → ¬ (IsWritable netlist.now.circuit) }
{
    has_room(&netlist.circuit)
}

// Whether the circuit's numbers are small enough for the forms.
fn has_room(circuit: &Circuit) -> bool
    ensures { result ≡ has_room circuit.now }
{
    let greatest = greatest_variable(circuit);
    (greatest < 1 << 31 && has_rows(circuit, greatest as usize))
        && (circuit.bads.len() < 1 << 31 && circuit.constraints.len() < 1 << 31)
}

// Whether the circuit has at most so many inputs, latches and gates.
fn has_rows(circuit: &Circuit, most: usize) -> bool
    ensures { result ≡ nat_le (length circuit.now.inputs.items + length circuit.now.latches.items
        + length circuit.now.gates.items) most }
{
    let Some(left) = most.checked_sub(circuit.inputs.len()) else {
        return false;
    };
    let Some(left) = left.checked_sub(circuit.latches.len()) else {
        return false;
    };
    circuit.gates.len() <= left
}

/// Why no text was written.
#[derive(Clone, Copy, Debug, PartialEq, Eq, Drop, Error)]
pub enum WriteError {
    /// Memory was refused.
    #[error("memory: refused")]
    Memory,
    /// The variables are not numbered in the order of inputs, latches and gates: this one has another place.
    #[error("variable {0} does not stand at its place")]
    Numbering(u32),
    /// An operand of the gate with this output is not below it.
    #[error("the gate of variable {0} has an operand that is not below it")]
    Order(u32),
}

impl From<AllocError> for WriteError {
    fn from(_refused: AllocError) -> WriteError {
        WriteError::Memory
    }
}

impl<T: Drop> From<AllocFailed<T>> for WriteError {
    fn from(_refused: AllocFailed<T>) -> WriteError {
        WriteError::Memory
    }
}

/// Writes a circuit in the binary form, its bad literals as such. Its variables have to be numbered as this form wants
/// it: inputs, latches and gates from 1 on, and each gate behind its operands. Of a gate's operands the one with the
/// greater number is written first, so that it is the left one of the gate that is read.
///
/// # Errors
/// - [`WriteError::Numbering`] with a variable that has another number.
/// - [`WriteError::Order`] with the output of a gate that does not stand behind its operands.
/// - [`WriteError::Memory`] where memory is refused.
pub fn write_aig(alloc: Global, circuit: &Circuit) -> Result<Vec<u8>, WriteError>
    ensures text { IfOk result (λ text. text.items ≡ aig_text circuit.now) }
    ensures numbered { IfOk result (λ text. IsTrue (is_numbered circuit.now)) }
    ensures ordered { IfOk result (λ text. IsTrue (are_above circuit.now.gates.items)) }
    ensures refused_number { (variable : ℕ) → IsErrOf result (WriteError.Numbering variable) →
        is_numbered circuit.now ≡ false }
    ensures refused_order { (variable : ℕ) → IsErrOf result (WriteError.Order variable) →
        are_above circuit.now.gates.items ≡ false }
{
    if let Err(variable) = are_numbered(circuit) {
        return Err(WriteError::Numbering(variable));
    }
    if let Err(output) = are_above(&circuit.gates) {
        return Err(WriteError::Order(output));
    }
    match packed(alloc, circuit) {
        Ok(text) => Ok(text),
        Err(_) => Err(WriteError::Memory),
    }
}

// The text of a circuit in the binary form.
fn packed(alloc: Global, circuit: &Circuit) -> Result<Vec<u8>, AllocError>
    ensures { IfOk result (λ text. text.items ≡ aig_text circuit.now) }
{
    let mut text = packed_header_line(alloc, circuit)?;
    write_packed_latches(&mut text, &circuit.latches)?;
    write_literals(&mut text, &circuit.bads)?;
    write_literals(&mut text, &circuit.constraints)?;
    write_packed_ands(&mut text, &circuit.gates)?;
    Ok(text)
}

// Tests the numbers of the variables. The first that has another number than it should, if there is one.
pub(crate) fn are_numbered(circuit: &Circuit) -> Result<(), u32>
    ensures ok { OnOk result (IsTrue (is_numbered circuit.now)) }
    ensures refused { OnErr result (is_numbered circuit.now ≡ false) }
{
    let input = last_input(&circuit.inputs)?;
    let latch = last_latch(input, &circuit.latches)?;
    last_output(latch, &circuit.gates)?;
    Ok(())
}

// Whether a number is one more than another.
fn follows(next: u32, last: u32) -> bool
    ensures { result ≡ (next == last + 1) }
{
    u64::from(next) == u64::from(last) + 1
}

// The last of the inputs, which are to be the numbers from 1 on.
fn last_input(inputs: &[u32]) -> Result<u32, u32>
    ensures ok { IfOk result (λ last. numbered_behind 0 inputs.now ≡ Some last) }
    ensures refused { OnErr result (numbered_behind 0 inputs.now ≡ None) }
{
    let mut last = 0;
    for input in inputs {
        if !follows(*input, last) {
            return Err(*input);
        }
        last = *input;
    }
    Ok(last)
}

// The last of the latches, which are to be the numbers that follow one.
fn last_latch(first: u32, latches: &[Latch]) -> Result<u32, u32>
    ensures ok { IfOk result (λ last. numbered_behind first (map (λ l. l.variable) latches.now) ≡ Some last) }
    ensures refused { OnErr result (numbered_behind first (map (λ l. l.variable) latches.now) ≡ None) }
{
    let mut last = first;
    for latch in latches {
        if !follows(latch.variable, last) {
            return Err(latch.variable);
        }
        last = latch.variable;
    }
    Ok(last)
}

// The last output of the gates, which are to be the numbers that follow one.
fn last_output(first: u32, gates: &[And]) -> Result<u32, u32>
    ensures ok { IfOk result (λ last. numbered_behind first (map (λ g. g.output) gates.now) ≡ Some last) }
    ensures refused { OnErr result (numbered_behind first (map (λ g. g.output) gates.now) ≡ None) }
{
    let mut last = first;
    for gate in gates {
        if !follows(gate.output, last) {
            return Err(gate.output);
        }
        last = gate.output;
    }
    Ok(last)
}

// The header of the binary form.
fn packed_header_line(alloc: Global, circuit: &Circuit) -> Result<Vec<u8>, AllocError>
    ensures { IfOk result (λ text. text.items ≡ packed_header_line circuit.now) }
{
    header_text(alloc, b"aig", sum(circuit), circuit, &[])
}

// How many inputs, latches and gates there are, as far as numbers go.
pub(crate) fn sum(circuit: &Circuit) -> u64
    ensures { result ≡ min (min (length circuit.now.inputs.items + length circuit.now.latches.items)
        18446744073709551615 + length circuit.now.gates.items) 18446744073709551615 }
{
    let inputs = circuit.inputs.len() as u64;
    let latches = circuit.latches.len() as u64;
    let gates = circuit.gates.len() as u64;
    inputs.saturating_add(latches).saturating_add(gates)
}

// Writes a line for each latch, without its variable.
pub(crate) fn write_packed_latches(text: &mut Vec<u8>, latches: &[Latch]) -> Result<(), AllocError>
    ensures { OnOk result (text.new.items ≡ text.old.items ++ packed_latch_lines latches.now) }
{
    for latch in latches {
        write_packed_latch(text, *latch)?;
    }
    Ok(())
}

// Writes the line of a latch without its variable.
#[tactic(auto, using(std::proofs::Common::append_assoc))]
fn write_packed_latch(text: &mut Vec<u8>, latch: Latch) -> Result<(), AllocError>
    ensures { OnOk result (text.new.items ≡ text.old.items ++ packed_latch_line latch) }
{
    write_number(text, literal_number(latch.next), b' ')?;
    write_number(text, reset_number(latch.variable, latch.reset), b'\n')?;
    Ok(())
}

// Writes the bytes of each gate.
pub(crate) fn write_packed_ands(text: &mut Vec<u8>, gates: &[And]) -> Result<(), AllocError>
    ensures { OnOk result (text.new.items ≡ text.old.items ++ packed_ands gates.now) }
{
    for gate in gates {
        write_packed_and(text, *gate)?;
    }
    Ok(())
}

// Writes the bytes of a gate, whose output is to be above its operands.
fn write_packed_and(text: &mut Vec<u8>, gate: And) -> Result<(), AllocError>
    ensures { OnOk result (text.new.items ≡ text.old.items ++ packed_and gate) }
{
    let left = literal_number(gate.left);
    let right = literal_number(gate.right);
    let output = 2 * u64::from(gate.output);
    write_deltas(
        text,
        output.saturating_sub(left.max(right)),
        left.max(right) - left.min(right),
    )
}

// Whether the gate's output is above its operands.
fn is_above(gate: And) -> bool
    ensures { result ≡ is_above gate }
{
    literal_number(gate.left).max(literal_number(gate.right)) < 2 * u64::from(gate.output)
}

// Tests that each gate's output is above its operands. The first output that is not, if there is one.
pub(crate) fn are_above(gates: &[And]) -> Result<(), u32>
    ensures ok { OnOk result (IsTrue (are_above gates.now)) }
    ensures refused { OnErr result (are_above gates.now ≡ false) }
{
    for gate in gates {
        if !is_above(*gate) {
            return Err(gate.output);
        }
    }
    Ok(())
}

// Writes two numbers in groups of 7 bits.
#[tactic(auto, using(std::proofs::Common::append_assoc))]
fn write_deltas(text: &mut Vec<u8>, first: u64, second: u64) -> Result<(), AllocError>
    requires first { first < 2 ^ 34 }
    requires second { second < 2 ^ 34 }
    ensures { OnOk result (text.new.items ≡ text.old.items ++ (groups 4 first ++ groups 4 second)) }
{
    write_groups(text, first)?;
    write_groups(text, second)?;
    Ok(())
}

// The greatest variable that a circuit defines.
pub(crate) fn greatest_variable(circuit: &Circuit) -> u32
    ensures { result ≡ greatest_variable circuit.now }
{
    let greatest = greatest_input(&circuit.inputs);
    let greatest = greatest_latch(greatest, &circuit.latches);
    greatest_output(greatest, &circuit.gates)
}

// The greatest of some inputs.
fn greatest_input(inputs: &[u32]) -> u32
    ensures { result ≡ greatest_input 0 inputs.now }
{
    let mut greatest = 0;
    for input in inputs {
        greatest = greatest.max(*input);
    }
    greatest
}

// The greatest of a variable and those of some latches.
fn greatest_latch(first: u32, latches: &[Latch]) -> u32
    ensures { result ≡ greatest_latch first latches.now }
{
    let mut greatest = first;
    for latch in latches {
        greatest = greatest.max(latch.variable);
    }
    greatest
}

// The greatest of a variable and the outputs of some gates.
fn greatest_output(first: u32, gates: &[And]) -> u32
    ensures { result ≡ greatest_output first gates.now }
{
    let mut greatest = first;
    for gate in gates {
        greatest = greatest.max(gate.output);
    }
    greatest
}

// The header.
fn header_line(alloc: Global, maximum: u32, circuit: &Circuit) -> Result<Vec<u8>, AllocError>
    ensures { IfOk result (λ text. text.items ≡ header_line maximum circuit.now) }
{
    header_text(alloc, b"aag", u64::from(maximum), circuit, &[])
}

// A header: a word, the greatest variable, how many inputs, latches, outputs, gates, bad literals and constraints there
// are, and further numbers.
pub(crate) fn header_text(
    alloc: Global,
    word: &[u8],
    maximum: u64,
    circuit: &Circuit,
    further: &[u64],
) -> Result<Vec<u8>, AllocError>
    ensures { IfOk result (λ text. text.items ≡ word.now ++ numbers_text (header_numbers maximum circuit.now)
        ++ numbers_text further.now ++ 10 ∷ []) }
{
    let inputs = circuit.inputs.len() as u64;
    let latches = circuit.latches.len() as u64;
    let gates = circuit.gates.len() as u64;
    let bads = circuit.bads.len() as u64;
    let constraints = circuit.constraints.len() as u64;
    let counts = [maximum, inputs, latches, 0, gates, bads, constraints];
    let mut text = Vec::new(alloc);
    text.extend_from_slice(word)?;
    write_numbers(&mut text, &counts)?;
    write_numbers(&mut text, further)?;
    text.push(b'\n')?;
    Ok(text)
}

// Writes numbers, with a space before each.
fn write_numbers(text: &mut Vec<u8>, numbers: &[u64]) -> Result<(), AllocError>
    ensures { OnOk result (text.new.items ≡ text.old.items ++ numbers_text numbers.now) }
{
    for number in numbers {
        text.push(b' ')?;
        write_decimal(text, *number)?;
    }
    Ok(())
}

// Writes a number and a byte behind it.
#[tactic(auto, using(std::proofs::Common::append_assoc))]
pub(crate) fn write_number(text: &mut Vec<u8>, number: u64, end: u8) -> Result<(), AllocError>
    ensures { OnOk result (text.new.items ≡ text.old.items ++ (decimal number ++ end ∷ [])) }
{
    write_decimal(text, number)?;
    text.push(end)?;
    Ok(())
}

// Writes a number.
fn write_decimal(text: &mut Vec<u8>, number: u64) -> Result<(), AllocError>
    ensures { OnOk result (text.new.items ≡ text.old.items ++ decimal number) }
{
    write!(text, "{number}").map_err(|_| AllocError)
}

// The number of a literal: twice its variable, and 1 more for the negation.
fn literal_number(l: Literal) -> u64
    ensures value { result ≡ literal_number l }
    ensures small { result < 2 ^ 32 }
{
    2 * u64::from(l.variable()) + u64::from(!l.is_positive())
}

// Writes a line for each input.
pub(crate) fn write_inputs(text: &mut Vec<u8>, inputs: &[u32]) -> Result<(), AllocError>
    ensures { OnOk result (text.new.items ≡ text.old.items ++ input_lines inputs.now) }
{
    for input in inputs {
        write_number(text, 2 * u64::from(*input), b'\n')?;
    }
    Ok(())
}

// Writes a line for each literal.
pub(crate) fn write_literals(text: &mut Vec<u8>, literals: &[Literal]) -> Result<(), AllocError>
    ensures { OnOk result (text.new.items ≡ text.old.items ++ literal_lines literals.now) }
{
    for l in literals {
        write_number(text, literal_number(*l), b'\n')?;
    }
    Ok(())
}

// Writes a line for each latch.
pub(crate) fn write_latches(text: &mut Vec<u8>, latches: &[Latch]) -> Result<(), AllocError>
    ensures { OnOk result (text.new.items ≡ text.old.items ++ latch_lines latches.now) }
{
    for latch in latches {
        write_latch(text, *latch)?;
    }
    Ok(())
}

// Writes the line of a latch.
#[tactic(auto, using(std::proofs::Common::append_assoc))]
fn write_latch(text: &mut Vec<u8>, latch: Latch) -> Result<(), AllocError>
    ensures { OnOk result (text.new.items ≡ text.old.items ++ latch_line latch) }
{
    write_number(text, 2 * u64::from(latch.variable), b' ')?;
    write_number(text, literal_number(latch.next), b' ')?;
    write_number(text, reset_number(latch.variable, latch.reset), b'\n')?;
    Ok(())
}

// The number of a reset: 0, or 1, or the latch itself.
fn reset_number(variable: u32, reset: Option<bool>) -> u64
    ensures { result ≡ reset_number variable reset }
{
    match reset {
        Some(value) => u64::from(value),
        None => 2 * u64::from(variable),
    }
}

// Writes a line for each gate.
pub(crate) fn write_ands(text: &mut Vec<u8>, gates: &[And]) -> Result<(), AllocError>
    ensures { OnOk result (text.new.items ≡ text.old.items ++ and_lines gates.now) }
{
    for gate in gates {
        write_and(text, *gate)?;
    }
    Ok(())
}

// Writes the line of a gate.
#[tactic(auto, using(std::proofs::Common::append_assoc))]
fn write_and(text: &mut Vec<u8>, gate: And) -> Result<(), AllocError>
    ensures { OnOk result (text.new.items ≡ text.old.items ++ and_line gate) }
{
    write_number(text, 2 * u64::from(gate.output), b' ')?;
    write_number(text, literal_number(gate.left), b' ')?;
    write_number(text, literal_number(gate.right), b'\n')?;
    Ok(())
}
