//! Clauses that a literal has the value of a gate (G. Tseitin, 1968).
ghost use Rattle.std.specs.Prelude.{◌≡◌, [], ◌∷◌, ◌++◌, map, take, IfOk, IsTrue, OnErr, OnOk};
ghost use Rattle.gipsat_cnf.specs.Prelude.{Adds, AddsPart, is_true, negated};
ghost use Rattle.gipsat_encodings.specs.Extending.{SpeaksOf};
ghost use Rattle.gipsat_encodings.specs.Gates.{IsAnd, IsChoice, IsOr, IsXor};

use gipsat_cnf::{ClauseSink, Literal};
use std::alloc::{AllocError, Global};

/// Adds the clauses that the output is true exactly if each of the literals is: n + 1 clauses for n literals.
///
/// # Errors
/// `AllocError` where memory is refused. Some of the clauses may have been added: the formula lies between the old one
/// and the intended one.
pub fn add_and<S: ClauseSink>(
    alloc: Global,
    sink: &mut S,
    output: Literal,
    literals: &[Literal],
) -> Result<(), AllocError>
    ensures means { OnOk result (Adds (IsAnd output literals.now) (S.formula sink.old) (S.formula sink.new)) }
    ensures left { OnErr result (AddsPart (IsAnd output literals.now) (S.formula sink.old) (S.formula sink.new)) }
{
    let negations = negations(alloc, literals)?;
    add_or(alloc, sink, output.negated(), &negations)
}

/// Adds the clauses that the output is true exactly if one of the literals is: n + 1 clauses for n literals.
///
/// # Errors
/// `AllocError` where memory is refused. Some of the clauses may have been added: the formula lies between the old one
/// and the intended one.
pub fn add_or<S: ClauseSink>(
    alloc: Global,
    sink: &mut S,
    output: Literal,
    literals: &[Literal],
) -> Result<(), AllocError>
    ensures means { OnOk result (Adds (IsOr output literals.now) (S.formula sink.old) (S.formula sink.new)) }
    ensures left { OnErr result (AddsPart (IsOr output literals.now) (S.formula sink.old) (S.formula sink.new)) }
{
    let mut clause = Vec::with_capacity(alloc, literals.len())?;
    clause.extend_from_slice(literals)?;
    clause.push(output.negated())?;
    sink.add_clause(&clause)?;
    for l in literals {
        sink.add_clause(&[l.negated(), output])?;
    }
    Ok(())
}

/// Adds the four clauses that the output is true exactly if one of the two literals is, and the other is not.
///
/// # Errors
/// `AllocError` where memory is refused. Some of the clauses may have been added: the formula lies between the old one
/// and the intended one.
pub fn add_xor<S: ClauseSink>(
    sink: &mut S,
    output: Literal,
    l: Literal,
    m: Literal,
) -> Result<(), AllocError>
    ensures means { OnOk result (Adds (IsXor output l m) (S.formula sink.old) (S.formula sink.new)) }
    ensures left { OnErr result (AddsPart (IsXor output l m) (S.formula sink.old) (S.formula sink.new)) }
    ensures speaks { OnErr result (SpeaksOf (output ∷ l ∷ m ∷ []) (S.formula sink.old) (S.formula sink.new)) }
{
    add_choice(sink, output, l, m.negated(), m)
}

/// Adds the four clauses that the output is what `yes` is where the condition is true, and else what `no` is.
///
/// # Errors
/// `AllocError` where memory is refused. Some of the clauses may have been added: the formula lies between the old one
/// and the intended one.
pub fn add_choice<S: ClauseSink>(
    sink: &mut S,
    output: Literal,
    condition: Literal,
    yes: Literal,
    no: Literal,
) -> Result<(), AllocError>
    ensures means { OnOk result (Adds (IsChoice output condition yes no) (S.formula sink.old) (S.formula sink.new)) }
    ensures left { OnErr result
        (AddsPart (IsChoice output condition yes no) (S.formula sink.old) (S.formula sink.new)) }
    ensures speaks { OnErr result
        (SpeaksOf (output ∷ condition ∷ yes ∷ no ∷ []) (S.formula sink.old) (S.formula sink.new)) }
{
    add_chosen(sink, output, condition, yes)?;
    add_chosen(sink, output, condition.negated(), no)
}

// Where the condition is true, the output is what is chosen.
fn add_chosen<S: ClauseSink>(
    sink: &mut S,
    output: Literal,
    condition: Literal,
    chosen: Literal,
) -> Result<(), AllocError>
    ensures means { OnOk result (Adds (λ a. IsTrue (is_true a condition) → is_true a output ≡ is_true a chosen)
        (S.formula sink.old) (S.formula sink.new)) }
    ensures left { OnErr result (AddsPart (λ a. IsTrue (is_true a condition) → is_true a output ≡ is_true a chosen)
        (S.formula sink.old) (S.formula sink.new)) }
    ensures speaks { OnErr result
        (SpeaksOf (output ∷ condition ∷ chosen ∷ []) (S.formula sink.old) (S.formula sink.new)) }
{
    sink.add_clause(&[condition.negated(), chosen.negated(), output])?;
    sink.add_clause(&[condition.negated(), chosen, output.negated()])
}

// The negation of each literal.
fn negations(alloc: Global, literals: &[Literal]) -> Result<Vec<Literal>, AllocError>
    ensures { IfOk result (λ made. made.items ≡ map negated literals.now) }
{
    let mut negations = Vec::with_capacity(alloc, literals.len())?;
    for l in literals {
        negations.push_reserved(l.negated());
    }
    Ok(negations)
}
