//! An arbiter as a circuit, and that it never grants twice.
ghost use Rattle.std.specs.Prelude.{◌≡◌, false, IfOk, IfSome, IsTrue, OnOk};
ghost use Rattle.gipsat_cnf.specs.Formulas.{Assignment, is_true};
ghost use Rattle.gipmc_circuits.specs.Circuit.{IsSafe, is_initial, is_transition, is_valuation};
ghost use Rattle.gipmc_builder.specs.Build.{AddsLatches, Keeps};
ghost use Rattle.gipmc_builder.specs.Machine.{IsMachine};
ghost use Rattle.gipmc_uses.specs.Arbiter.{granted, grants_of, have_both};

use gipmc_builder::Builder;
use gipmc_circuits::{Netlist, Verdict, certify};
use gipsat_cnf::{Literal, SatSolver};
use std::alloc::{AllocError, Global};

/// An arbiter of two that ask, and the literal that both have it. Where both ask, the first one has it, and then they
/// have it in turn.
///
/// # Errors
/// `AllocError` where memory is refused.
pub fn arbiter(alloc: Global) -> Result<(Netlist, Literal), AllocError>
    ensures { IfOk result (λ made. IsMachine made.0.circuit made.1 granted (false, false) have_both) }
{
    let mut build = Builder::new(alloc);
    let asks = build.input()?;
    let other_asks = build.input()?;
    let has = build.bit()?;
    let other_has = build.bit()?;
    let (next, other_next) = grants(&mut build, has, asks, other_asks)?;
    let both = build.and(has, other_has)?;
    hold(&mut build, (has, other_has), (next, other_next))?;
    build.bad(both)?;
    match build.finish()? {
        Some(netlist) => Ok((netlist, both)),
        None => Err(AllocError),
    }
}

// Who is to have it next.
fn grants(
    build: &mut Builder,
    has: Literal,
    asks: Literal,
    other_asks: Literal,
) -> Result<(Literal, Literal), AllocError>
    ensures keeps { Keeps build.old.circuit build.new.circuit }
    ensures next { IfOk result (λ next. (a : Assignment) → IsTrue (is_valuation build.new.circuit a)
        → grants_of a next ≡ granted (is_true a has, false) (is_true a asks, is_true a other_asks)) }
{
    let waits = build.and(other_asks, has)?;
    let next = build.and(asks, waits.negated())?;
    let other_next = build.and(other_asks, next.negated())?;
    Ok((next, other_next))
}

// Adds a latch for each of the two: at first none has it.
fn hold(
    build: &mut Builder,
    has: (Literal, Literal),
    next: (Literal, Literal),
) -> Result<(), AllocError>
    ensures adds { OnOk result (AddsLatches build.old.circuit build.new.circuit) }
    ensures starts { OnOk result ((a : Assignment) → IsTrue (is_initial build.new.circuit a)
        → grants_of a has ≡ (false, false)) }
    ensures becomes { OnOk result ((a b : Assignment) → IsTrue (is_transition build.new.circuit a b)
        → grants_of b has ≡ grants_of a next) }
{
    build.latch(has.0, Some(false), next.0)?;
    build.latch(has.1, Some(false), next.1)
}

/// An arbiter of two that is shown never to grant both what they ask for, and the literal that both have it: the clause
/// that not both have it is an invariant. None where it is not shown.
///
/// Shows a machine of two latches and two inputs, from what its gates mean.
///
/// # Errors
/// `AllocError` where memory is refused.
pub fn safe_arbiter<S: SatSolver + Drop>(
    alloc: Global,
) -> Result<Option<(Netlist, Literal)>, AllocError>
    ensures machine { IfOk result (λ shown. IfSome shown (λ made.
        IsMachine made.0.circuit made.1 granted (false, false) have_both)) }
    ensures safe { IfOk result (λ shown. IfSome shown (λ made. IsSafe made.0.circuit made.1)) }
{
    let (netlist, bad) = arbiter(alloc)?;
    let clause = Vec::from_array(alloc, [bad.negated()])?;
    let mut invariant = Vec::with_capacity(alloc, 1)?;
    invariant.push_reserved(clause);
    let verdict = certify::<S>(alloc, &netlist, bad, &invariant, 1000)?;
    match verdict {
        Verdict::Certified => Ok(Some((netlist, bad))),
        _ => Ok(None),
    }
}
