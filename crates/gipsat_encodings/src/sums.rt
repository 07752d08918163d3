//! Sums of outputs that count literals: where the left outputs say i and the right ones j, the sums say i + j.
ghost use Rattle.std.specs.Prelude.{◌≡◌, ◌+◌, ◌≤◌, ◌<◌, ◌++◌, length, min, false, true, IfOk, IsTrue, OnErr, OnOk};
ghost use Rattle.gipsat_cnf.specs.Prelude.{Adds, AllBelow, Assignment};
ghost use Rattle.gipsat_encodings.specs.Extending.{AddsSome};
ghost use Rattle.gipsat_encodings.specs.Outputs.{AreFresh, AreSums, SaySums, SaysSum, SumsPart, says, value_or};

use crate::fresh::fresh;
use gipsat_cnf::{ClauseSink, Literal};
use std::alloc::{AllocError, Global};

// What the outputs are to say of the literals that they count.
#[derive(Clone, Copy)]
pub(crate) struct Ways {
    // As many as are true, or more.
    pub(crate) up: bool,
    // As many as are true, or less.
    pub(crate) down: bool,
}

// The literal that outputs say n or more, or not more than n. None where they always do.
pub(crate) fn said(outputs: &[Literal], n: usize, up: bool) -> Option<Literal>
    ensures { (IsTrue up → n ≤ length outputs.now)
        → (a : Assignment) → value_or true a result ≡ says up a outputs.now n }
{
    if up {
        let place = n.checked_sub(1)?;
        return outputs.get(place).copied();
    }
    let l = outputs.get(n)?;
    Some(l.negated())
}

// Where both premises are true, the conclusion is; one that is left out is.
pub(crate) fn add_implied<S: ClauseSink>(
    sink: &mut S,
    first: Option<Literal>,
    second: Option<Literal>,
    conclusion: Option<Literal>,
) -> Result<(), AllocError>
    ensures means { OnOk result (Adds
        (λ a. IsTrue (value_or true a first) → IsTrue (value_or true a second) → IsTrue (value_or true a conclusion))
        (S.formula sink.old) (S.formula sink.new)) }
    ensures refused { OnErr result (S.formula sink.new ≡ S.formula sink.old) }
{
    let Some(l) = conclusion else {
        return Ok(());
    };
    match (first, second) {
        (Some(p), Some(q)) => sink.add_clause(&[p.negated(), q.negated(), l]),
        (Some(p), None) => sink.add_clause(&[p.negated(), l]),
        (None, Some(q)) => sink.add_clause(&[q.negated(), l]),
        (None, None) => sink.add_clause(&[l]),
    }
}

// Where the left outputs say i and the right ones j, the sums say i + j, for each j.
fn add_row<S: ClauseSink>(
    sink: &mut S,
    left: &[Literal],
    i: usize,
    right: &[Literal],
    sums: &[Literal],
    up: bool,
) -> Result<(), AllocError>
    requires { i ≤ length left.now }
    ensures means { OnOk result (Adds
        (λ a. AllBelow (length right.now + 1) (SaysSum up left.now right.now sums.now a i))
        (S.formula sink.old) (S.formula sink.new)) }
    ensures left { OnErr result (AddsSome (left.now ++ right.now ++ sums.now)
        (λ a. AllBelow (length right.now + 1) (SaysSum up left.now right.now sums.now a i))
        (S.formula sink.old) (S.formula sink.new)) }
{
    let Some(most) = sums.len().checked_sub(i) else {
        return Ok(());
    };
    for j in 0..right.len().min(most) + 1 {
        let sum = said(sums, i + j, up);
        add_implied(sink, said(left, i, up), said(right, j, up), sum)?;
    }
    Ok(())
}

// The same for each i.
fn add_rows<S: ClauseSink>(
    sink: &mut S,
    left: &[Literal],
    right: &[Literal],
    sums: &[Literal],
    up: bool,
) -> Result<(), AllocError>
    ensures means { OnOk result
        (Adds (SaySums up left.now right.now sums.now) (S.formula sink.old) (S.formula sink.new)) }
    ensures left { OnErr result (AddsSome (left.now ++ right.now ++ sums.now)
        (SaySums up left.now right.now sums.now) (S.formula sink.old) (S.formula sink.new)) }
{
    for i in 0..left.len() + 1 {
        add_row(sink, left, i, right, sums, up)?;
    }
    Ok(())
}

// The same where it is wanted.
fn add_way<S: ClauseSink>(
    sink: &mut S,
    left: &[Literal],
    right: &[Literal],
    sums: &[Literal],
    up: bool,
    is_wanted: bool,
) -> Result<(), AllocError>
    ensures means { OnOk result (Adds (λ a. IsTrue is_wanted → SaySums up left.now right.now sums.now a)
        (S.formula sink.old) (S.formula sink.new)) }
    ensures left { OnErr result (AddsSome (left.now ++ right.now ++ sums.now)
        (λ a. IsTrue is_wanted → SaySums up left.now right.now sums.now a)
        (S.formula sink.old) (S.formula sink.new)) }
{
    if !is_wanted {
        return Ok(());
    }
    add_rows(sink, left, right, sums, up)
}

// So many variables that come after all others.
fn fresh_many(alloc: Global, variables: &mut usize, len: usize) -> Result<Vec<Literal>, AllocError>
    ensures len { IfOk result (λ made. length made.items ≡ len) }
    ensures fresh { IfOk result (λ made. AreFresh variables.old made.items) }
    ensures next { OnOk result (variables.new ≡ variables.old + len) }
    ensures rises { variables.old ≤ variables.new }
{
    let mut made = Vec::with_capacity(alloc, len)?;
    while made.len() < len {
        made.push(fresh(variables)?)?;
    }
    Ok(made)
}

// Outputs that say the sum of what the left and the right ones say, up to a size.
pub(crate) fn add_sums<S: ClauseSink>(
    alloc: Global,
    sink: &mut S,
    variables: &mut usize,
    left: &[Literal],
    right: &[Literal],
    size: usize,
    ways: Ways,
) -> Result<Vec<Literal>, AllocError>
    ensures len { IfOk result (λ sums. length sums.items ≡ min (length left.now + length right.now) size) }
    ensures fresh { IfOk result (λ sums. AreFresh variables.old sums.items) }
    ensures next { IfOk result (λ sums. variables.new ≡ variables.old + length sums.items) }
    ensures rises { variables.old ≤ variables.new }
    ensures means { IfOk result (λ sums. Adds (AreSums ways.up ways.down left.now right.now sums.items)
        (S.formula sink.old) (S.formula sink.new)) }
    ensures left { OnErr result (SumsPart ways.up ways.down size variables.old variables.new left.now right.now
        (S.formula sink.old) (S.formula sink.new)) }
{
    let len = left.len().saturating_add(right.len()).min(size);
    let sums = fresh_many(alloc, variables, len)?;
    add_way(sink, left, right, &sums, true, ways.up)?;
    add_way(sink, left, right, &sums, false, ways.down)?;
    Ok(sums)
}
