//! An adder that nothing is proved of, until the solver finds that it adds.
ghost use Rattle.std.specs.Prelude.{IfOk, IfSome};
ghost use Rattle.gipmc_builder.specs.Build.{GivesSum, Keeps};

use gipmc_builder::{Builder, constant};
use gipmc_circuits::{Netlist, Verdict, certify};
use gipsat_cnf::{Literal, SatSolver};
use std::alloc::{AllocError, Global};

/// A circuit that adds two numbers.
#[derive(Drop)]
pub struct Adder {
    /// The circuit.
    pub netlist: Netlist,
    /// The bits of the one number, the lowest first.
    pub left: Vec<Literal>,
    /// The bits of the other one.
    pub right: Vec<Literal>,
    /// The bits of the sum.
    pub sum: Vec<Literal>,
}

/// An adder of majorities for numbers of so many bits. It stands beside a ripple-carry adder over the same inputs, and
/// the solver finds that no values tell the two apart. None where it leaves that open, after `limit` learned clauses.
///
/// Shows an equivalence of two circuits that rests on no proof of the one: a miter, which no valuation makes true.
///
/// # Errors
/// `AllocError` where memory is refused, or where a variable would be 2^31 or more.
pub fn majority_adder<S: SatSolver + Drop>(
    alloc: Global,
    width: usize,
    limit: usize,
) -> Result<Option<Adder>, AllocError>
    ensures { IfOk result (λ found. IfSome found (λ adder.
        GivesSum adder.netlist.circuit adder.left.items adder.right.items adder.sum.items)) }
{
    let mut build = Builder::new(alloc);
    let left = build.inputs(width)?;
    let right = build.inputs(width)?;
    let sum = add_by_majorities(alloc, &mut build, &left, &right)?;
    let wanted = build.add(&left, &right)?;
    let same = build.are_same(&sum, &wanted)?;
    let Some(netlist) = build.finish()? else {
        return Ok(None);
    };
    let clauses = Vec::new(alloc);
    let verdict = certify::<S>(alloc, &netlist, same.negated(), &clauses, limit)?;
    match verdict {
        Verdict::Certified => Ok(Some(Adder {
            netlist,
            left,
            right,
            sum,
        })),
        _ => Ok(None),
    }
}

// The sum of two numbers of the same width, by majorities of three bits.
fn add_by_majorities(
    alloc: Global,
    build: &mut Builder,
    left: &[Literal],
    right: &[Literal],
) -> Result<Vec<Literal>, AllocError>
    ensures { Keeps build.old.circuit build.new.circuit }
{
    let mut sum = Vec::new(alloc);
    let mut carry = constant(false);
    for (x, y) in left.iter().zip(right) {
        let (bit, high) = add_bits(build, *x, *y, carry)?;
        sum.push(bit)?;
        carry = high;
    }
    sum.push(carry)?;
    Ok(sum)
}

// The two digits of a sum of three bits: the higher one is their majority, and where that is false, the lower one is
// whether any of them is true; else, whether all are.
fn add_bits(
    build: &mut Builder,
    x: Literal,
    y: Literal,
    z: Literal,
) -> Result<(Literal, Literal), AllocError>
    ensures { Keeps build.old.circuit build.new.circuit }
{
    let both = build.and(x, y)?;
    let either = build.or(x, y)?;
    let through = build.and(either, z)?;
    let majority = build.or(both, through)?;
    let all = build.and(both, z)?;
    let any = build.or(either, z)?;
    let low = build.mux(majority, all, any)?;
    Ok((low, majority))
}
