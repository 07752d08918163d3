//! Clauses in texts of the DIMACS form: what a word of a clause says, and a writer.
ghost use Rattle.std.specs.Prelude.{◌≡◌, ◌++◌, OnOk};
ghost use Rattle.gipsat_cnf.specs.Dimacs.{clause_line, literal_text};

use crate::literal::Literal;
use std::alloc::AllocError;
use std::io::Write;

/// What a word of a clause says.
#[derive(Clone, Copy)]
pub enum Item {
    /// A literal of the clause.
    Literal(Literal),
    /// The end of the clause.
    End,
}

/// Writes a clause behind a text, as a line with a 0 behind its literals. Variable k of a formula is k + 1 in the text.
///
/// # Errors
///
/// Where no memory is left. Then a part of the line may stand behind the text.
pub fn write_clause(text: &mut Vec<u8>, clause: &[Literal]) -> Result<(), AllocError>
    ensures written { OnOk result (text.new.items ≡ text.old.items ++ clause_line clause.now) }
{
    for l in clause {
        write_literal(text, *l)?;
    }
    text.extend_from_slice(b"0\n")?;
    Ok(())
}

// Writes a literal, and a space behind it.
fn write_literal(text: &mut Vec<u8>, l: Literal) -> Result<(), AllocError>
    ensures written { OnOk result (text.new.items ≡ text.old.items ++ literal_text l) }
{
    if !l.is_positive() {
        text.push(b'-')?;
    }
    let number = l.variable() + 1;
    write!(text, "{number} ").map_err(|_| AllocError)
}
