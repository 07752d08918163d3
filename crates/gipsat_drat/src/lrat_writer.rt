//! Proofs with hints, written as text or binary.
ghost use Rattle.std.specs.Prelude.{◌≡◌, ◌≢◌, IfErr};

use crate::error::Failure;
use crate::hint_list::Hint;
use crate::log::{Added, Log, Trim, Use};
use crate::numbering::Numbering;
use gipsat_cnf::Literal;
use giputils_text::write_groups;
use std::alloc::{AllocError, Global};
use std::io::Write;

// From how many bytes on they are written.
const BUFFER_SIZE: usize = 65_536;

/// How an LRAT proof is written.
#[derive(Clone, Copy, Debug, PartialEq, Eq, Hash)]
pub enum LratFormat {
    /// A line for each step, with numbers in decimal digits.
    Text,
    /// A byte `a` or `d` for each step, and numbers in groups of 7 bits.
    Binary,
}

// Writes the steps that the last one needs, in their order. Each clause is deleted behind the last step that uses it, and
// those of the formula that none uses are deleted at first.
pub(crate) fn write_log<W: Write>(
    alloc: Global,
    log: &Log,
    numbering: &Numbering,
    format: LratFormat,
    writer: &mut W,
) -> Result<(), Failure>
    ensures { IfErr result (λ why. why ≢ Failure.Output → why ≢ Failure.Memory → writer.new ≡ writer.old) }
{
    let mut trim = log.trim(alloc)?;
    let mut gone = Vec::new(alloc);
    let mut bytes = Vec::new(alloc);
    write_steps(
        log, numbering, format, writer, &mut trim, &mut gone, &mut bytes,
    )
}

// Writes the needed steps, with the names of clauses that wait to be deleted, and bytes that wait to be written.
fn write_steps<W: Write>(
    log: &Log,
    numbering: &Numbering,
    format: LratFormat,
    writer: &mut W,
    trim: &mut Trim,
    gone: &mut Vec<u32>,
    bytes: &mut Vec<u8>,
) -> Result<(), Failure>
    ensures { IfErr result (λ why. why ≢ Failure.Output → why ≢ Failure.Memory → writer.new ≡ writer.old) }
{
    list_unneeded(log, trim, gone)?;
    for number in 0..log.len() {
        let Some(step) = log.step(number) else {
            continue;
        };
        if !trim.is_needed(step.name) {
            continue;
        }
        write_step(bytes, numbering, format, log.given(), step, trim, gone)?;
        if bytes.len() >= BUFFER_SIZE {
            flush(bytes, writer)?;
        }
    }
    flush(bytes, writer)
}

// Lists the names of the formula's clauses that no step uses.
fn list_unneeded(log: &Log, trim: &Trim, names: &mut Vec<u32>) -> Result<(), AllocError> {
    for name in 1..log.given().saturating_add(1) {
        if !trim.is_needed(name) {
            names.push(name)?;
        }
    }
    Ok(())
}

// Writes a step that adds a clause, and deletions: of clauses that wait for it, and of those that it uses last. Those that
// wait may be candidates of a clause that is RAT, and go before it then.
fn write_step(
    bytes: &mut Vec<u8>,
    numbering: &Numbering,
    format: LratFormat,
    given: u32,
    step: Added<'_>,
    trim: &mut Trim,
    gone: &mut Vec<u32>,
) -> Result<(), AllocError> {
    if step.uses.iter().any(|used| used.is_candidate) {
        write_deletion(bytes, format, given, gone)?;
        gone.clear();
    }
    write_addition(bytes, numbering, format, step)?;
    for used in step.uses {
        if trim.ends(used.name, step.name) {
            gone.push(used.name)?;
        }
    }
    if !step.literals.is_empty() {
        write_deletion(bytes, format, step.name, gone)?;
        gone.clear();
    }
    Ok(())
}

// Writes a step of this name that adds a clause.
pub(crate) fn write_hinted(
    bytes: &mut Vec<u8>,
    format: LratFormat,
    name: u64,
    clause: &[Literal],
    hints: &[Hint],
) -> Result<(), AllocError> {
    begin_addition(bytes, format, short(name))?;
    for l in clause {
        let number = l.variable().saturating_add(1);
        write_signed(bytes, format, number, l.is_positive())?;
    }
    end_list(bytes, format, b"0 ")?;
    for hint in hints {
        write_signed(bytes, format, short(hint.name), hint.positive)?;
    }
    end_list(bytes, format, b"0\n")
}

// Writes the names of clauses that are deleted behind a step, if there are any.
pub(crate) fn write_deleted_names(
    bytes: &mut Vec<u8>,
    format: LratFormat,
    behind: u64,
    names: &[Hint],
) -> Result<(), AllocError> {
    if names.is_empty() {
        return Ok(());
    }
    begin_deletion(bytes, format, short(behind))?;
    for hint in names {
        write_name(bytes, format, short(hint.name))?;
    }
    end_list(bytes, format, b"0\n")
}

// A name in 32 bits; one that has more is not joined.
fn short(name: u64) -> u32 {
    u32::try_from(name).unwrap_or(u32::MAX)
}

// Writes what was not written yet.
pub(crate) fn flush<W: Write>(bytes: &mut Vec<u8>, writer: &mut W) -> Result<(), Failure>
    ensures { IfErr result (λ why. why ≡ Failure.Output) }
{
    let done = writer.write_all(bytes);
    bytes.clear();
    match done {
        Ok(()) => Ok(()),
        Err(_) => Err(Failure::Output),
    }
}

// Writes a number with a blank behind it.
fn write_number(bytes: &mut Vec<u8>, number: u32) -> Result<(), AllocError> {
    write!(bytes, "{number} ").map_err(|_| AllocError)
}

// Writes a number with its sign.
fn write_signed(
    bytes: &mut Vec<u8>,
    format: LratFormat,
    number: u32,
    positive: bool,
) -> Result<(), AllocError> {
    match format {
        LratFormat::Text => {
            bytes.extend_from_slice(if positive { b"" } else { b"-" })?;
            write_number(bytes, number)
        }
        LratFormat::Binary => write_groups(bytes, 2 * u64::from(number) + u64::from(!positive)),
    }
}

// Writes the names of clauses that are deleted behind a step, if there are any.
fn write_deletion(
    bytes: &mut Vec<u8>,
    format: LratFormat,
    behind: u32,
    names: &[u32],
) -> Result<(), AllocError> {
    if names.is_empty() {
        return Ok(());
    }
    begin_deletion(bytes, format, behind)?;
    for name in names {
        write_name(bytes, format, *name)?;
    }
    end_list(bytes, format, b"0\n")
}

// Begins the list of clauses that are deleted behind a step.
fn begin_deletion(bytes: &mut Vec<u8>, format: LratFormat, behind: u32) -> Result<(), AllocError> {
    match format {
        LratFormat::Text => {
            write_number(bytes, behind)?;
            bytes.extend_from_slice(b"d ")?;
        }
        LratFormat::Binary => bytes.push(b'd')?,
    }
    Ok(())
}

// Writes the name of a clause that is added, or deleted.
fn write_name(bytes: &mut Vec<u8>, format: LratFormat, name: u32) -> Result<(), AllocError> {
    match format {
        LratFormat::Text => write_number(bytes, name),
        LratFormat::Binary => write_groups(bytes, u64::from(name)),
    }
}

// Begins a step that adds a clause.
fn begin_addition(bytes: &mut Vec<u8>, format: LratFormat, name: u32) -> Result<(), AllocError> {
    if format == LratFormat::Binary {
        bytes.push(b'a')?;
    }
    write_name(bytes, format, name)
}

// Writes a step that adds a clause.
fn write_addition(
    bytes: &mut Vec<u8>,
    numbering: &Numbering,
    format: LratFormat,
    step: Added<'_>,
) -> Result<(), AllocError> {
    begin_addition(bytes, format, step.name)?;
    write_literals(bytes, numbering, format, step.literals)?;
    write_hints(bytes, format, step.uses)
}

// Writes the literals of a clause.
fn write_literals(
    bytes: &mut Vec<u8>,
    numbering: &Numbering,
    format: LratFormat,
    literals: &[Literal],
) -> Result<(), AllocError> {
    for l in literals {
        let number = numbering.number(l.variable()).saturating_add(1);
        write_signed(bytes, format, number, l.is_positive())?;
    }
    end_list(bytes, format, b"0 ")
}

// Writes the hints of a step.
fn write_hints(bytes: &mut Vec<u8>, format: LratFormat, uses: &[Use]) -> Result<(), AllocError> {
    for used in uses {
        write_signed(bytes, format, used.name, !used.is_candidate)?;
    }
    end_list(bytes, format, b"0\n")
}

// Writes the end of a list, which is this in a text.
fn end_list(bytes: &mut Vec<u8>, format: LratFormat, end: &[u8]) -> Result<(), AllocError> {
    match format {
        LratFormat::Text => bytes.extend_from_slice(end),
        LratFormat::Binary => {
            bytes.push(0)?;
            Ok(())
        }
    }
}
