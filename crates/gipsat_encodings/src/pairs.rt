//! Clauses that at least, at most or exactly one of some literals is true, with no variables of their own.
ghost use Rattle.std.specs.Prelude.{◌≡◌, ◌++◌, map, IsTrue, OnOk, OnErr};
ghost use Rattle.gipsat_cnf.specs.Prelude.{Adds, AddsPart, AtLeastOneTrue, AtMostOneTrue, ExactlyOneTrue, at_most_one, one_false, satisfies};

use gipsat_cnf::{ClauseSink, Literal};
use std::alloc::AllocError;

/// Adds the clause that at least one of the literals is true.
///
/// # Errors
/// `AllocError` where memory is refused. The formula stays as it was.
pub fn add_at_least_one<S: ClauseSink>(sink: &mut S, literals: &[Literal]) -> Result<(), AllocError>
    ensures means { OnOk result (Adds (AtLeastOneTrue literals.now) (S.formula sink.old) (S.formula sink.new)) }
    ensures refused { OnErr result (S.formula sink.new ≡ S.formula sink.old) }
{
    sink.add_clause(literals)
}

/// Adds the clauses that at most one of the literals is true: one for each pair, n (n - 1) / 2 for n literals.
///
/// # Errors
/// `AllocError` where memory is refused. Some of the clauses may have been added: the formula lies between the old one
/// and the intended one.
pub fn add_at_most_one<S: ClauseSink>(sink: &mut S, literals: &[Literal]) -> Result<(), AllocError>
    ensures clauses { OnOk result (S.formula sink.new ≡ S.formula sink.old ++ at_most_one literals.now) }
    ensures means { OnOk result (Adds (AtMostOneTrue literals.now) (S.formula sink.old) (S.formula sink.new)) }
    ensures left { OnErr result (AddsPart (AtMostOneTrue literals.now) (S.formula sink.old) (S.formula sink.new)) }
{
    for place in 0..literals.len() {
        add_pairs(sink, literals[place], &literals[place + 1..])?;
    }
    Ok(())
}

/// Adds the clauses that exactly one of the literals is true.
///
/// # Errors
/// `AllocError` where memory is refused. Some of the clauses may have been added: the formula lies between the old one
/// and the intended one.
pub fn add_exactly_one<S: ClauseSink>(sink: &mut S, literals: &[Literal]) -> Result<(), AllocError>
    ensures means { OnOk result (Adds (ExactlyOneTrue literals.now) (S.formula sink.old) (S.formula sink.new)) }
    ensures left { OnErr result (AddsPart (ExactlyOneTrue literals.now) (S.formula sink.old) (S.formula sink.new)) }
{
    add_at_least_one(sink, literals)?;
    add_at_most_one(sink, literals)
}

// Adds the clauses that the literal and another one are not both true, for each of the others.
fn add_pairs<S: ClauseSink>(
    sink: &mut S,
    literal: Literal,
    others: &[Literal],
) -> Result<(), AllocError>
    ensures clauses { OnOk result (S.formula sink.new ≡ S.formula sink.old ++ map (one_false literal) others.now) }
    ensures left { OnErr result (AddsPart (λ a. IsTrue (satisfies a (map (one_false literal) others.now)))
        (S.formula sink.old) (S.formula sink.new)) }
{
    for other in others {
        sink.add_clause(&[literal.negated(), other.negated()])?;
    }
    Ok(())
}
