//! Witnesses in HWMCC's form: `1`, `b` and the property, the latches at first, the inputs at each moment, and `.`.
ghost use Rattle.std.specs.Prelude.{◌≡◌, ◌<◌, ◌==◌, ◌∷◌, ◌++◌, [], None, Some, codes, decimal, length, map, IfErr, IfOk, IfSome, OnOk, MatchOption, IsErrOf};
ghost use Rattle.std.specs.List.{list_all};
ghost use Rattle.gipmc_aiger.specs.Reading.{Gives, IsReadError};
ghost use Rattle.gipmc_aiger.specs.Witnesses.{said_lines, bit_text, bits_at, bits_line, bits_of, frames_lines, frames_of, frames_view, is_bit, is_end, is_remark, is_status, property_at, property_of, status_at, stimulus_of, witness_of};
ghost use Rattle.gipmc_aiger.specs.Traces.{lasso_text, witness_text, witness_view};

use crate::error::{AigerError, Place, Reason, Stop};
use crate::numbers::{expected, number};
use crate::place::error_at;
use gipmc_circuits::Trace;
use giputils_text::split_line;
use std::alloc::{AllocError, Global};
use std::io::Write;

/// A trace, and the bad literal that it is to make true at its last moment.
#[derive(Drop)]
pub struct Witness {
    /// The place of the bad literal among those of the circuit.
    pub property: u32,
    /// The trace.
    pub trace: Trace,
}

/// Reads the first witness of a text, for a circuit of so many latches and inputs. An `x` is read as 0. Lines that
/// begin with `c` or `u` are read over, and so is what stands behind the line `.`.
///
/// # Errors
/// - [`AigerError::Refused`] with the line and the reason where the text has another form.
/// - [`AigerError::Memory`] where memory is refused.
pub fn read_witness(
    alloc: Global,
    latches: usize,
    inputs: usize,
    text: &[u8],
) -> Result<Witness, AigerError>
    ensures ok { IfOk result (λ w. witness_of latches inputs text.now ≡ Some (witness_view w)) }
    ensures refused { (place : Place) (reason : Reason) → IsErrOf result (AigerError.Refused place reason) →
        witness_of latches inputs text.now ≡ None }
    ensures errors { IfErr result IsReadError }
{
    match stimulus(alloc, latches, inputs, text) {
        Ok(witness) => Ok(witness),
        Err(stop) => Err(error_at(text, stop)),
    }
}

// The first witness of a text.
#[tactic(auto, unfolding(crate::specs::Witnesses::stimulus_of))]
fn stimulus(alloc: Global, latches: usize, inputs: usize, text: &[u8]) -> Result<Witness, Stop>
    ensures { Gives witness_view result (stimulus_of latches inputs (said_lines text.now)) }
{
    let rest = status(text)?;
    let (property, rest) = property(rest)?;
    let (latches, rest) = bits(alloc, latches, rest)?;
    let inputs = frames(alloc, inputs, rest)?;
    let trace = Trace { latches, inputs };
    Ok(Witness { property, trace })
}

// The text behind the line `1`.
pub(crate) fn status(text: &[u8]) -> Result<&[u8], Stop>
    ensures { Gives (λ rest. said_lines rest.now) result (status_at (said_lines text.now)) }
{
    let Some((line, rest)) = said_line(text) else {
        return Err(Stop::Refused(Reason::End, 0));
    };
    if !is_status(line) {
        return Err(Stop::Refused(Reason::Status, left_at(line, rest)));
    }
    Ok(rest)
}

// Whether a line says that there is a witness: `1`.
pub(crate) fn is_status(line: &[u8]) -> bool
    ensures { result ≡ is_status line.now }
{
    match line {
        [first, rest @ ..] => *first == b'1' && rest.is_empty(),
        [] => false,
    }
}

// The property that a line names, and the text behind it.
fn property(text: &[u8]) -> Result<(u32, &[u8]), Stop>
    ensures { Gives (λ x. (x.0, said_lines x.1.now)) result (property_at (said_lines text.now)) }
{
    let Some((line, rest)) = said_line(text) else {
        return Err(Stop::Refused(Reason::End, 0));
    };
    match property_of(line) {
        Ok(property) => Ok((property, rest)),
        Err(Stop::Memory) => Err(Stop::Memory),
        Err(Stop::Refused(reason, _)) => Err(Stop::Refused(reason, left_at(line, rest))),
    }
}

// The property that a line names.
fn property_of(line: &[u8]) -> Result<u32, Stop>
    ensures { Gives (λ n. n) result (property_of line.now) }
{
    let digits = expected(b'b', Reason::Property, line)?;
    let (property, rest) = number(GREATEST_PROPERTY, digits)?;
    if !rest.is_empty() {
        return Err(Stop::Refused(Reason::Property, 0));
    }
    Ok(property)
}

// The greatest number of a property.
pub(crate) const GREATEST_PROPERTY: u32 = 2_147_483_647;

// So many values in a line, and the text behind it.
pub(crate) fn bits(alloc: Global, count: usize, text: &[u8]) -> Result<(Vec<bool>, &[u8]), Stop>
    ensures { Gives (λ x. (x.0.items, said_lines x.1.now)) result (bits_at count (said_lines text.now)) }
{
    let Some((line, rest)) = said_line(text) else {
        return Err(Stop::Refused(Reason::End, 0));
    };
    let bits = bits_in(alloc, count, line, left_at(line, rest))?;
    Ok((bits, rest))
}

// The values in a line.
pub(crate) fn bits_in(
    alloc: Global,
    count: usize,
    line: &[u8],
    left: usize,
) -> Result<Vec<bool>, Stop>
    ensures { Gives (λ v. v.items) result (bits_of count line.now) }
{
    if line.len() != count {
        return Err(Stop::Refused(Reason::Length, left));
    }
    if !are_bits(line) {
        return Err(Stop::Refused(Reason::Bit, left));
    }
    Ok(values(alloc, line)?)
}

// Whether all bytes are values.
fn are_bits(line: &[u8]) -> bool
    ensures { result ≡ list_all is_bit line.now }
{
    line.iter().all(|byte| is_bit(*byte))
}

// Whether a byte is a value.
fn is_bit(byte: u8) -> bool
    ensures { result ≡ is_bit byte }
{
    byte == b'0' || byte == b'1' || byte == b'x'
}

// The values that some bytes write.
fn values(alloc: Global, line: &[u8]) -> Result<Vec<bool>, AllocError>
    ensures { IfOk result (λ v. v.items ≡ map (λ b. b == 49) line.now) }
{
    line.iter().map(|byte| *byte == b'1').collect(alloc)
}

// The values at each moment, up to the line `.`.
pub(crate) fn frames(alloc: Global, count: usize, text: &[u8]) -> Result<Vec<Vec<bool>>, Stop>
    ensures { Gives (λ v. frames_view v.items) result (frames_of count (said_lines text.now)) }
{
    let mut frames = Vec::new(alloc);
    let mut rest = text;
    while let Some((line, after)) = said_line(rest) {
        if is_end(line) {
            return Ok(frames);
        }
        let frame = bits_in(alloc, count, line, left_at(line, after))?;
        frames.push(frame)?;
        rest = after;
    }
    Err(Stop::Refused(Reason::End, 0))
}

// Whether a line ends a witness.
pub(crate) fn is_end(line: &[u8]) -> bool
    ensures { result ≡ is_end line.now }
{
    match line {
        [first, ..] => *first == b'.',
        [] => false,
    }
}

// Whether a line says nothing.
fn is_remark(line: &[u8]) -> bool
    ensures { result ≡ is_remark line.now }
{
    match line {
        [first, ..] => *first == b'c' || *first == b'u',
        [] => false,
    }
}

// The first line of a text that says something, and what comes after it.
pub(crate) fn said_line(text: &[u8]) -> Option<(&[u8], &[u8])>
    ensures lines { MatchOption result (said_lines text.now ≡ [])
        (λ split. said_lines text.now ≡ split.0.now ∷ said_lines split.1.now) }
    ensures shorter { IfSome result (λ split. length split.1.now < length text.now) }
{
    let mut rest = text;
    while let Some((line, after)) = split_line(rest) {
        if !is_remark(line) {
            return Some((line, after));
        }
        rest = after;
    }
    None
}

// How many bytes are left at a place within a line, by the line and what comes after it.
pub(crate) fn left_at(line: &[u8], after: &[u8]) -> usize {
    after.len().saturating_add(line.len().max(1))
}

/// Writes a trace as a witness that it makes this property's bad literal true.
///
/// # Errors
/// `AllocError` where memory is refused.
pub fn write_witness(alloc: Global, property: u32, trace: &Trace) -> Result<Vec<u8>, AllocError>
    ensures { IfOk result (λ text. text.items ≡ witness_text property trace.now) }
{
    let mut text = Vec::new(alloc);
    text.extend_from_slice(b"1\nb")?;
    write_trace(&mut text, property, trace)?;
    Ok(text)
}

/// Writes a trace as a witness of a justice property: a lasso, whose last moment leads back to an earlier one.
///
/// # Errors
/// `AllocError` where memory is refused.
pub fn write_lasso(alloc: Global, property: u32, trace: &Trace) -> Result<Vec<u8>, AllocError>
    ensures { IfOk result (λ text. text.items ≡ lasso_text property trace.now) }
{
    let mut text = Vec::new(alloc);
    text.extend_from_slice(b"1\nj")?;
    write_trace(&mut text, property, trace)?;
    Ok(text)
}

// Writes what stands behind the letter of a property: its place, and the trace.
#[tactic(auto, using(std::proofs::Common::append_assoc))]
fn write_trace(text: &mut Vec<u8>, property: u32, trace: &Trace) -> Result<(), AllocError>
    ensures { OnOk result (text.new.items ≡ text.old.items ++ (decimal property ++ codes "\n"
        ++ bits_line trace.now.latches.items ++ frames_lines trace.now.inputs.items)) }
{
    write_number(text, property)?;
    text.push(b'\n')?;
    write_bits(text, &trace.latches)?;
    write_frames(text, &trace.inputs)?;
    Ok(())
}

// Writes a number.
fn write_number(text: &mut Vec<u8>, number: u32) -> Result<(), AllocError>
    ensures { OnOk result (text.new.items ≡ text.old.items ++ decimal number) }
{
    write!(text, "{number}").map_err(|_| AllocError)
}

// Writes a line of values.
fn write_bits(text: &mut Vec<u8>, bits: &[bool]) -> Result<(), AllocError>
    ensures { OnOk result (text.new.items ≡ text.old.items ++ bits_line bits.now) }
{
    for bit in bits {
        write_bit(text, *bit)?;
    }
    text.push(b'\n')?;
    Ok(())
}

// Writes a value.
fn write_bit(text: &mut Vec<u8>, bit: bool) -> Result<(), AllocError>
    ensures { OnOk result (text.new.items ≡ text.old.items ++ bit_text bit) }
{
    if bit {
        text.push(b'1')?;
        return Ok(());
    }
    text.push(b'0')?;
    Ok(())
}

// Writes a line for each moment, and the end.
fn write_frames(text: &mut Vec<u8>, frames: &[Vec<bool>]) -> Result<(), AllocError>
    ensures { OnOk result (text.new.items ≡ text.old.items ++ frames_lines frames.now) }
{
    for frame in frames {
        write_bits(text, frame)?;
    }
    text.extend_from_slice(b".\n")?;
    Ok(())
}
