//! A counter as a circuit, and what it never counts to.
ghost use Rattle.std.specs.Prelude.{◌≡◌, ◌∷◌, [], length, IfOk, IsTrue};
ghost use Rattle.gipmc_builder.specs.Build.{Keeps};
ghost use Rattle.gipmc_builder.specs.Machine.{GivesBad, GivesNext, IsMachine, NeverBad, first_of};
ghost use Rattle.gipmc_uses.specs.Counter.{counted, is_three};

use gipmc_builder::{Builder, digits};
use gipmc_circuits::{Netlist, Verdict, certify};
use gipsat_cnf::{Literal, SatSolver};
use std::alloc::{AllocError, Global};

/// A counter of two bits, and the literal that it is 3. It begins at 0; where its input is true, it goes on to 1, to 2,
/// and to 0 again.
///
/// # Errors
/// `AllocError` where memory is refused.
pub fn counter(alloc: Global) -> Result<(Netlist, Literal), AllocError>
    ensures { IfOk result (λ made. IsMachine made.0.circuit made.1 counted 0 is_three) }
{
    let mut build = Builder::new(alloc);
    let enable = build.input()?;
    let count = build.bits(2)?;
    let (next, at_three) = count_on(alloc, &mut build, enable, &count)?;
    build.register(&count, 0, &next)?;
    build.bad(at_three)?;
    match build.finish()? {
        Some(netlist) => Ok((netlist, at_three)),
        None => Err(AllocError),
    }
}

// What a counter of two bits holds next, and the literal that it is 3.
fn count_on(
    alloc: Global,
    build: &mut Builder,
    enable: Literal,
    count: &[Literal],
) -> Result<(Vec<Literal>, Literal), AllocError>
    requires { length count.now ≡ 2 }
    ensures keeps { Keeps build.old.circuit build.new.circuit }
    ensures next { IfOk result
        (λ made. GivesNext build.new.circuit (enable ∷ []) first_of counted count.now made.0.items) }
    ensures three { IfOk result
        (λ made. GivesBad build.new.circuit (enable ∷ []) first_of is_three count.now made.1) }
{
    let more = build.increment(count)?;
    let at_two = build.are_same(count, &digits(alloc, 2)?)?;
    let at_three = build.are_same(count, &digits(alloc, 3)?)?;
    let turned = build.choose(at_two, &[], &more)?;
    let next = build.choose(enable, &turned, count)?;
    Ok((next, at_three))
}

/// Whether it is shown that the counter is never 3, whatever its inputs are: the clause that it is not 3 is an
/// invariant.
///
/// Shows a circuit that is built from what its parts mean, and a law of step functions from what is certified of it.
///
/// # Errors
/// `AllocError` where memory is refused.
pub fn is_never_three<S: SatSolver + Drop>(alloc: Global) -> Result<bool, AllocError>
    ensures { IfOk result (λ never. IsTrue never → NeverBad counted 0 is_three) }
{
    let (netlist, bad) = counter(alloc)?;
    let clause = Vec::from_array(alloc, [bad.negated()])?;
    let mut invariant = Vec::with_capacity(alloc, 1)?;
    invariant.push_reserved(clause);
    let verdict = certify::<S>(alloc, &netlist, bad, &invariant, 1000)?;
    match verdict {
        Verdict::Certified => Ok(true),
        _ => Ok(false),
    }
}
