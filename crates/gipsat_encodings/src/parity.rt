//! Clauses that an odd number of literals is true, or an even one: an exclusive or of many.
ghost use Rattle.std.specs.Prelude.{◌≡◌, ◌<◌, ◌≤◌, IfOk, OnErr, OnOk, IsTrue, length};
ghost use Rattle.gipsat_cnf.specs.Prelude.{Adds, AreBelow, is_true};
ghost use Rattle.gipsat_encodings.specs.Extending.{Constrains, ConstrainsPart, Defines, DefinesPart};
ghost use Rattle.gipsat_encodings.specs.Gates.{HasParity, differ, parity};

use crate::fresh::{above, fresh};
use crate::gates::add_xor;
use gipsat_cnf::{ClauseSink, Literal};
use std::alloc::AllocError;

/// Adds clauses that an odd number of the literals is true, or an even one where `odd` is false. They take n - 1
/// variables and 4 n - 3 clauses for n literals.
///
/// # Errors
/// `AllocError` where memory is refused, or where a variable would be 2^31 or more. Some of the clauses may have been
/// added: the formula lies between the old one and the intended one.
pub fn add_parity<S: ClauseSink>(
    sink: &mut S,
    variables: &mut usize,
    literals: &[Literal],
    odd: bool,
) -> Result<(), AllocError>
    ensures means { OnOk result (Constrains variables.old variables.new (HasParity literals.now odd)
        (S.formula sink.old) (S.formula sink.new)) }
    ensures left { OnErr result (ConstrainsPart variables.old variables.new (HasParity literals.now odd)
        (S.formula sink.old) (S.formula sink.new)) }
{
    *variables = above(*variables, literals);
    if literals.is_empty() {
        return add_fact(sink, !odd);
    }
    let sum = add_sum(sink, variables, literals)?;
    add_value(sink, sum, odd)
}

// A literal that is true exactly if an odd number of the literals is.
fn add_sum<S: ClauseSink>(
    sink: &mut S,
    variables: &mut usize,
    literals: &[Literal],
) -> Result<Literal, AllocError>
    requires some { 0 < length literals.now }
    requires below { AreBelow variables.old literals.now }
    ensures sum { IfOk result (λ sum. Defines variables.old variables.new
        (λ a. is_true a sum ≡ parity a literals.now) (S.formula sink.old) (S.formula sink.new)) }
    ensures below { IfOk result (λ sum. sum.variable < variables.new) }
    ensures left { OnErr result (DefinesPart variables.old variables.new (S.formula sink.old) (S.formula sink.new)) }
{
    let mut sum = literals[0];
    for place in 1..literals.len() {
        sum = add_next(sink, variables, sum, literals[place])?;
    }
    Ok(sum)
}

// A literal that is true exactly if the two differ.
fn add_next<S: ClauseSink>(
    sink: &mut S,
    variables: &mut usize,
    sum: Literal,
    l: Literal,
) -> Result<Literal, AllocError>
    requires sum { sum.variable < variables.old }
    requires l { l.variable < variables.old }
    ensures sum { IfOk result (λ output. Defines variables.old variables.new
        (λ a. is_true a output ≡ differ (is_true a sum) (is_true a l)) (S.formula sink.old) (S.formula sink.new)) }
    ensures below { IfOk result (λ output. output.variable < variables.new) }
    ensures left { OnErr result (DefinesPart variables.old variables.new (S.formula sink.old) (S.formula sink.new)) }
{
    let output = fresh(variables)?;
    add_xor(sink, output, sum, l)?;
    Ok(output)
}

// The literal has the value.
fn add_value<S: ClauseSink>(sink: &mut S, l: Literal, value: bool) -> Result<(), AllocError>
    ensures means { OnOk result (Adds (λ a. is_true a l ≡ value) (S.formula sink.old) (S.formula sink.new)) }
    ensures refused { OnErr result (S.formula sink.new ≡ S.formula sink.old) }
{
    let l = if value { l } else { l.negated() };
    sink.add_clause(&[l])
}

// It holds, or nothing satisfies the formula.
pub(crate) fn add_fact<S: ClauseSink>(sink: &mut S, holds: bool) -> Result<(), AllocError>
    ensures means { OnOk result (Adds (λ a. IsTrue holds) (S.formula sink.old) (S.formula sink.new)) }
    ensures refused { OnErr result (S.formula sink.new ≡ S.formula sink.old) }
{
    if holds {
        return Ok(());
    }
    sink.add_clause(&[])
}
