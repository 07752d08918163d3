//! Clauses that at most, at least or exactly k of some literals are true, by variables of their own.
ghost use Rattle.std.specs.Prelude.{◌≡◌, ◌<◌, ◌≤◌, IfOk, OnErr, OnOk, IsTrue, length, min, not, suc};
ghost use Rattle.gipsat_cnf.specs.Prelude.{Adds, AreBelow};
ghost use Rattle.gipsat_encodings.specs.Counts.{AreBetween, AtLeastTrue, AtMostTrue, ExactlyTrue};
ghost use Rattle.gipsat_encodings.specs.Extending.{AddsSome, Constrains, ConstrainsPart, Defines, DefinesPart};
ghost use Rattle.gipsat_encodings.specs.Outputs.{Counts, TellCount, reached};

use crate::fresh::above;
use crate::parity::add_fact;
use crate::sums::{Ways, add_implied, add_sums, said};
use gipsat_cnf::{ClauseSink, Literal};
use std::alloc::{AllocError, Global};

/// In which order literals are counted. All orders mean the same.
#[derive(Clone, Copy, Debug, PartialEq, Eq)]
pub enum Counter {
    /// One literal after another (C. Sinz, 2005): some n k variables and 2 n k clauses for at most k of n literals.
    Sequential,
    /// Halves, and halves of these (O. Bailleux and Y. Boufkhad, 2003): fewer variables where k is great, and more
    /// clauses, up to n^2 / 2 of them.
    Totalizer,
}

/// Adds clauses that at most k of the literals are true. They are none where there are no more than k literals.
///
/// # Errors
/// `AllocError` where memory is refused, or where a variable would be 2^31 or more. Some of the clauses may have been
/// added: the formula lies between the old one and the intended one.
pub fn add_at_most<S: ClauseSink>(
    alloc: Global,
    sink: &mut S,
    variables: &mut usize,
    literals: &[Literal],
    k: usize,
    counter: Counter,
) -> Result<(), AllocError>
    ensures means { OnOk result (Constrains variables.old variables.new (AtMostTrue k literals.now)
        (S.formula sink.old) (S.formula sink.new)) }
    ensures left { OnErr result (ConstrainsPart variables.old variables.new (AtMostTrue k literals.now)
        (S.formula sink.old) (S.formula sink.new)) }
{
    add_between(alloc, sink, variables, literals, 0, k, counter)
}

/// Adds clauses that at least k of the literals are true. They are none where k is 0.
///
/// # Errors
/// `AllocError` where memory is refused, or where a variable would be 2^31 or more. Some of the clauses may have been
/// added: the formula lies between the old one and the intended one.
pub fn add_at_least<S: ClauseSink>(
    alloc: Global,
    sink: &mut S,
    variables: &mut usize,
    literals: &[Literal],
    k: usize,
    counter: Counter,
) -> Result<(), AllocError>
    ensures means { OnOk result (Constrains variables.old variables.new (AtLeastTrue k literals.now)
        (S.formula sink.old) (S.formula sink.new)) }
    ensures left { OnErr result (ConstrainsPart variables.old variables.new (AtLeastTrue k literals.now)
        (S.formula sink.old) (S.formula sink.new)) }
{
    add_between(alloc, sink, variables, literals, k, literals.len(), counter)
}

/// Adds clauses that exactly k of the literals are true.
///
/// # Errors
/// `AllocError` where memory is refused, or where a variable would be 2^31 or more. Some of the clauses may have been
/// added: the formula lies between the old one and the intended one.
pub fn add_exactly<S: ClauseSink>(
    alloc: Global,
    sink: &mut S,
    variables: &mut usize,
    literals: &[Literal],
    k: usize,
    counter: Counter,
) -> Result<(), AllocError>
    ensures means { OnOk result (Constrains variables.old variables.new (ExactlyTrue k literals.now)
        (S.formula sink.old) (S.formula sink.new)) }
    ensures left { OnErr result (ConstrainsPart variables.old variables.new (ExactlyTrue k literals.now)
        (S.formula sink.old) (S.formula sink.new)) }
{
    add_between(alloc, sink, variables, literals, k, k, counter)
}

/// Adds outputs that tell how many of the literals are true, up to a size: the output at place j is true exactly if
/// more than j of them are. So a bound can be assumed, and changed from one question to the next.
///
/// # Errors
/// `AllocError` where memory is refused, or where a variable would be 2^31 or more. Some of the clauses may have been
/// added: the formula lies between the old one and the intended one.
pub fn add_count<S: ClauseSink>(
    alloc: Global,
    sink: &mut S,
    variables: &mut usize,
    literals: &[Literal],
    size: usize,
    counter: Counter,
) -> Result<Vec<Literal>, AllocError>
    ensures len { IfOk result (λ outputs. length outputs.items ≡ min (length literals.now) size) }
    ensures tell { IfOk result (λ outputs. Defines variables.old variables.new (TellCount outputs.items literals.now)
        (S.formula sink.old) (S.formula sink.new)) }
    ensures left { OnErr result (DefinesPart variables.old variables.new (S.formula sink.old) (S.formula sink.new)) }
{
    if size == 0 {
        return Ok(Vec::new(alloc));
    }
    *variables = above(*variables, literals);
    let ways = Ways {
        up: true,
        down: true,
    };
    count(alloc, sink, variables, literals, size, ways, counter)
}

// At least and at most so many of the literals are true.
fn add_between<S: ClauseSink>(
    alloc: Global,
    sink: &mut S,
    variables: &mut usize,
    literals: &[Literal],
    least: usize,
    most: usize,
    counter: Counter,
) -> Result<(), AllocError>
    ensures means { OnOk result (Constrains variables.old variables.new (AreBetween least most literals.now)
        (S.formula sink.old) (S.formula sink.new)) }
    ensures left { OnErr result (ConstrainsPart variables.old variables.new (AreBetween least most literals.now)
        (S.formula sink.old) (S.formula sink.new)) }
{
    let len = literals.len();
    if least > most || least > len {
        return add_fact(sink, false);
    }
    let ways = Ways {
        up: most < len,
        down: least > 0,
    };
    let size = if most < len { most + 1 } else { least };
    if size == 0 {
        return Ok(());
    }
    *variables = above(*variables, literals);
    let outputs = count(alloc, sink, variables, literals, size, ways, counter)?;
    add_bounds(sink, &outputs, least, most)
}

// The outputs say at least and at most so many.
fn add_bounds<S: ClauseSink>(
    sink: &mut S,
    outputs: &[Literal],
    least: usize,
    most: usize,
) -> Result<(), AllocError>
    requires { least ≤ length outputs.now }
    ensures means { OnOk result (Adds
        (λ a. IsTrue (reached a outputs.now least) × IsTrue (not (reached a outputs.now (suc most))))
        (S.formula sink.old) (S.formula sink.new)) }
    ensures left { OnErr result (AddsSome outputs.now
        (λ a. IsTrue (reached a outputs.now least) × IsTrue (not (reached a outputs.now (suc most))))
        (S.formula sink.old) (S.formula sink.new)) }
{
    add_implied(sink, None, None, said(outputs, least, true))?;
    add_implied(sink, None, None, said(outputs, most, false))
}

// Outputs that count literals up to a size.
fn count<S: ClauseSink>(
    alloc: Global,
    sink: &mut S,
    variables: &mut usize,
    literals: &[Literal],
    size: usize,
    ways: Ways,
    counter: Counter,
) -> Result<Vec<Literal>, AllocError>
    requires some { 0 < size }
    requires below { AreBelow variables.old literals.now }
    ensures counts { IfOk result (λ outputs. Counts ways.up ways.down size variables.old variables.new
        literals.now outputs.items (S.formula sink.old) (S.formula sink.new)) }
    ensures left { OnErr result (DefinesPart variables.old variables.new (S.formula sink.old) (S.formula sink.new)) }
{
    match counter {
        Counter::Sequential => count_in_line(alloc, sink, variables, literals, size, ways),
        Counter::Totalizer => count_halves(alloc, sink, variables, literals, size, ways),
    }
}

// The same, one literal after another.
fn count_in_line<S: ClauseSink>(
    alloc: Global,
    sink: &mut S,
    variables: &mut usize,
    literals: &[Literal],
    size: usize,
    ways: Ways,
) -> Result<Vec<Literal>, AllocError>
    requires some { 0 < size }
    requires below { AreBelow variables.old literals.now }
    ensures counts { IfOk result (λ outputs. Counts ways.up ways.down size variables.old variables.new
        literals.now outputs.items (S.formula sink.old) (S.formula sink.new)) }
    ensures left { OnErr result (DefinesPart variables.old variables.new (S.formula sink.old) (S.formula sink.new)) }
{
    let mut row = copy_of(alloc, &literals[..literals.len().min(1)])?;
    for place in 1..literals.len() {
        let next = [literals[place]];
        row = add_sums(alloc, sink, variables, &row, &next, size, ways)?;
    }
    Ok(row)
}

// The same, from both halves.
fn count_halves<S: ClauseSink>(
    alloc: Global,
    sink: &mut S,
    variables: &mut usize,
    literals: &[Literal],
    size: usize,
    ways: Ways,
) -> Result<Vec<Literal>, AllocError>
    requires some { 0 < size }
    requires below { AreBelow variables.old literals.now }
    ensures counts { IfOk result (λ outputs. Counts ways.up ways.down size variables.old variables.new
        literals.now outputs.items (S.formula sink.old) (S.formula sink.new)) }
    ensures left { OnErr result (DefinesPart variables.old variables.new (S.formula sink.old) (S.formula sink.new)) }
{
    if literals.len() < 2 {
        return copy_of(alloc, literals);
    }
    let middle = literals.len() / 2;
    let left = count_halves(alloc, sink, variables, &literals[..middle], size, ways)?;
    let right = count_halves(alloc, sink, variables, &literals[middle..], size, ways)?;
    add_sums(alloc, sink, variables, &left, &right, size, ways)
}

// The same literals.
fn copy_of(alloc: Global, literals: &[Literal]) -> Result<Vec<Literal>, AllocError>
    ensures { IfOk result (λ copy. copy.items ≡ literals.now) }
{
    let mut copy = Vec::new(alloc);
    copy.extend_from_slice(literals)?;
    Ok(copy)
}
