//! Literals that words name, and formulas in which they are true.
ghost use Rattle.std.specs.Prelude.{◌≡◌, ◌++◌, false, codes, IfOk, OnOk, Some};
ghost use Rattle.std.specs.Bool.{OnTrue};
ghost use Rattle.gipsat_cnf.specs.Formulas.{AreBelow};
ghost use Rattle.gipsat_answers.specs.Answers.{problem_of};
ghost use Rattle.gipsat_answers.specs.Assumed.{assuming, first_variables, literals_in, literals_of, units};

use gipsat_cnf::{Cnf, Literal};
use gipsat_dimacs::{DimacsError, HeaderRule, Instance, read_instance_by};
use std::alloc::{AllocError, Global};

/// The literals of a text, as a clause has them; the 0 behind the last one may be left out.
///
/// # Errors
/// - [`DimacsError::Line`] where the text names anything else.
/// - [`DimacsError::Memory`] where memory is refused.
pub fn read_literals(alloc: Global, text: &[u8]) -> Result<Vec<Literal>, DimacsError>
    ensures { IfOk result (λ literals. literals_in text.now ≡ Some literals.items) }
{
    let bytes = clause_of(alloc, text)?;
    let mut reader = bytes.as_slice();
    let read = read_instance_by(alloc, &mut reader, HeaderRule::Relaxed)?;
    Ok(literals_of(alloc, &read.clauses)?)
}

// A text with a 0 behind it.
fn clause_of(alloc: Global, text: &[u8]) -> Result<Vec<u8>, AllocError>
    ensures { IfOk result (λ bytes. bytes.items ≡ text.now ++ codes " 0") }
{
    let mut bytes = Vec::new(alloc);
    bytes.extend_from_slice(text)?;
    bytes.extend_from_slice(b" 0")?;
    Ok(bytes)
}

// The literals of all clauses, in order.
fn literals_of(alloc: Global, clauses: &Cnf) -> Result<Vec<Literal>, AllocError>
    ensures { IfOk result (λ literals. literals.items ≡ literals_of clauses.now) }
{
    let mut literals = Vec::new(alloc);
    for place in 0..clauses.len() {
        literals.extend_from_slice(clauses.clause(place))?;
    }
    Ok(literals)
}

/// Whether each literal is of one of so many variables.
pub fn are_named(variables: u32, literals: &[Literal]) -> bool
    ensures named { OnTrue result (AreBelow variables literals.now) }
    ensures unnamed { result ≡ false → ¬ (AreBelow variables literals.now) }
{
    for l in literals {
        if l.variable() >= variables {
            return false;
        }
    }
    true
}

/// Adds a clause of each literal alone to a formula that was read.
///
/// # Errors
/// `AllocError` where memory is refused. Some clauses may have been added.
pub fn assume(instance: &mut Instance<Cnf>, literals: &[Literal]) -> Result<(), AllocError>
    ensures { OnOk result (problem_of instance.new.variables instance.new.clauses ≡
        assuming literals.now (problem_of instance.old.variables instance.old.clauses)) }
{
    add_units(&mut instance.clauses, literals)
}

// Adds a clause of each literal alone.
fn add_units(clauses: &mut Cnf, literals: &[Literal]) -> Result<(), AllocError>
    ensures { OnOk result (clauses.new ≡ clauses.old ++ units literals.now) }
{
    for l in literals {
        clauses.push(&[*l])?;
    }
    Ok(())
}

/// A literal of each of the first variables, so many in all.
///
/// # Errors
/// `AllocError` where memory is refused, or there are more than 2^31 variables, which no text has.
pub fn first_variables(alloc: Global, variables: u32) -> Result<Vec<Literal>, AllocError>
    ensures { IfOk result (λ literals. literals.items ≡ first_variables variables) }
{
    if variables > 1 << 31 {
        return Err(AllocError);
    }
    let mut literals = Vec::new(alloc);
    for variable in 0..variables {
        literals.push(Literal::new(variable, true))?;
    }
    Ok(literals)
}
