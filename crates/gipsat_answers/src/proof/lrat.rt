//! Steps of a proof in the LRAT form.
ghost use Rattle.std.specs.Prelude.{◌≡◌, ◌++◌, OnOk, codes, decimal};
ghost use Rattle.gipsat_dimacs.specs.Writer.{literal_text};
ghost use Rattle.gipsat_answers.specs.Lrat.{hint_bytes, hints_bytes, literals_text, lrat_added, lrat_deleted};
ghost use Rattle.gipsat_answers.specs.Lrat.{name_bytes, zero_bytes};

use crate::proof::decimal::write_decimal;
use crate::proof::steps::write_bytes;
use crate::proof::writer::Format;
use gipsat_cnf::Literal;
use giputils_text::write_groups;
use std::alloc::AllocError;

// Writes that a clause is added under a name, with the names of those that it follows from.
pub(crate) fn write_added(
    bytes: &mut Vec<u8>,
    format: Format,
    name: u32,
    clause: &[Literal],
    hints: &[u32],
) -> Result<(), AllocError>
    ensures { OnOk result (bytes.new.items ≡ bytes.old.items ++ lrat_added format name clause.now hints.now) }
{
    match format {
        Format::Text => {
            write_name(bytes, format, name)?;
            write_literals(bytes, clause)?;
        }
        Format::Binary => {
            bytes.push(b'a')?;
            write_name(bytes, format, name)?;
            write_bytes(bytes, clause)?;
        }
    }
    write_hints(bytes, format, hints)
}

// Writes that the clause of a name is deleted, behind the step of the last name.
pub(crate) fn write_deleted(
    bytes: &mut Vec<u8>,
    format: Format,
    last: u32,
    name: u32,
) -> Result<(), AllocError>
    ensures { OnOk result (bytes.new.items ≡ bytes.old.items ++ lrat_deleted format last name) }
{
    match format {
        Format::Text => {
            write_name(bytes, format, last)?;
            bytes.extend_from_slice(b"d ")?;
        }
        Format::Binary => {
            bytes.push(b'd')?;
        }
    }
    write_name(bytes, format, name)?;
    write_zero(bytes, format)
}

// Writes a number in decimal digits, and a space behind it.
fn write_word(bytes: &mut Vec<u8>, number: u32) -> Result<(), AllocError>
    ensures { OnOk result (bytes.new.items ≡ bytes.old.items ++ (decimal number ++ codes " ")) }
{
    write_decimal(bytes, number)?;
    bytes.push(b' ')?;
    Ok(())
}

// Writes a name.
fn write_name(bytes: &mut Vec<u8>, format: Format, name: u32) -> Result<(), AllocError>
    ensures { OnOk result (bytes.new.items ≡ bytes.old.items ++ name_bytes format name) }
{
    match format {
        Format::Text => write_word(bytes, name),
        Format::Binary => write_groups(bytes, u64::from(name)),
    }
}

// Writes the literals of a clause in a line, and a 0 behind them.
fn write_literals(bytes: &mut Vec<u8>, clause: &[Literal]) -> Result<(), AllocError>
    ensures { OnOk result (bytes.new.items ≡ bytes.old.items ++ literals_text clause.now) }
{
    for l in clause {
        write_literal(bytes, *l)?;
    }
    bytes.extend_from_slice(b"0 ")
}

// Writes a literal in a line.
fn write_literal(bytes: &mut Vec<u8>, l: Literal) -> Result<(), AllocError>
    ensures { OnOk result (bytes.new.items ≡ bytes.old.items ++ literal_text l) }
{
    if !l.is_positive() {
        bytes.push(b'-')?;
    }
    write_word(bytes, l.variable() + 1)
}

// Writes hints, and the end of a step.
fn write_hints(bytes: &mut Vec<u8>, format: Format, hints: &[u32]) -> Result<(), AllocError>
    ensures { OnOk result (bytes.new.items ≡ bytes.old.items ++ hints_bytes format hints.now) }
{
    for hint in hints {
        write_hint(bytes, format, *hint)?;
    }
    write_zero(bytes, format)
}

// Writes a hint.
fn write_hint(bytes: &mut Vec<u8>, format: Format, hint: u32) -> Result<(), AllocError>
    ensures { OnOk result (bytes.new.items ≡ bytes.old.items ++ hint_bytes format hint) }
{
    match format {
        Format::Text => write_word(bytes, hint),
        Format::Binary => write_groups(bytes, 2 * u64::from(hint)),
    }
}

// Writes the end of a step.
fn write_zero(bytes: &mut Vec<u8>, format: Format) -> Result<(), AllocError>
    ensures { OnOk result (bytes.new.items ≡ bytes.old.items ++ zero_bytes format) }
{
    match format {
        Format::Text => bytes.extend_from_slice(b"0\n"),
        Format::Binary => {
            bytes.push(0)?;
            Ok(())
        }
    }
}
