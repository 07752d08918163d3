//! What truth values make of literals and clauses. The values are by variable, and a variable past their end is false.
ghost use Rattle.std.specs.Prelude.{◌≡◌};
ghost use Rattle.gipsat_cnf.specs.Assumptions.{makes_true};
ghost use Rattle.gipsat_cnf.specs.Formulas.{is_true, satisfies_clause};
ghost use Rattle.gipsat_cnf.specs.Models.{assignment_in};

use crate::literal::Literal;

/// Whether the literal is true.
#[inline]
pub fn is_true(values: &[bool], l: Literal) -> bool
    ensures { result ≡ is_true (assignment_in values.now) l }
{
    match values.get(l.variable() as usize) {
        Some(value) => *value == l.is_positive(),
        None => !l.is_positive(),
    }
}

/// Whether each of the literals is true, as each is if there is none.
pub fn makes_true(values: &[bool], literals: &[Literal]) -> bool
    ensures { result ≡ makes_true (assignment_in values.now) literals.now }
{
    for l in literals {
        if !is_true(values, *l) {
            return false;
        }
    }
    true
}

/// Whether one of the clause's literals is true, as none is of the empty clause.
pub fn satisfies_clause(values: &[bool], clause: &[Literal]) -> bool
    ensures { result ≡ satisfies_clause (assignment_in values.now) clause.now }
{
    for l in clause {
        if is_true(values, *l) {
            return true;
        }
    }
    false
}
