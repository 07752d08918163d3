//! Steps of a proof in the DRAT form.

// How it is proved: writing into a Vec of bytes. The invariant "the written bytes, followed by
// those left to write" is enough.

ghost use Rattle.std.specs.Prelude.{◌≡◌, ◌++◌, ◌<◌, ◌^◌, OnOk};
ghost use Rattle.gipsat_answers.specs.Steps.{clause_bytes, literal_number, step_bytes};

use crate::proof::writer::Format;
use gipsat_cnf::Literal;
use gipsat_dimacs::write_clause;
use giputils_text::write_groups;
use std::alloc::AllocError;

// Writes a step: a clause is deleted, or else added.
pub(crate) fn write_step(
    bytes: &mut Vec<u8>,
    format: Format,
    deleted: bool,
    clause: &[Literal],
) -> Result<(), AllocError>
    ensures { OnOk result (bytes.new.items ≡ bytes.old.items ++ step_bytes format deleted clause.now) }
{
    match format {
        Format::Text => {
            bytes.extend_from_slice(if deleted { b"d " } else { b"" })?;
            write_clause(bytes, clause)
        }
        Format::Binary => {
            bytes.push(if deleted { b'd' } else { b'a' })?;
            write_bytes(bytes, clause)
        }
    }
}

// Writes the bytes of a clause.
pub(crate) fn write_bytes(bytes: &mut Vec<u8>, clause: &[Literal]) -> Result<(), AllocError>
    ensures { OnOk result (bytes.new.items ≡ bytes.old.items ++ clause_bytes clause.now) }
{
    for l in clause {
        write_groups(bytes, number_of(*l))?;
    }
    bytes.push(0)?;
    Ok(())
}

// The number of a literal in bytes.
fn number_of(l: Literal) -> u64
    ensures number { result ≡ literal_number l }
    ensures small { result < 2 ^ 34 }
{
    2 * (u64::from(l.variable()) + 1) + u64::from(!l.is_positive())
}
