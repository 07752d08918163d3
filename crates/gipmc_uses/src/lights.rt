//! Traffic lights as a circuit, and that two streets never have green at once.
ghost use Rattle.std.specs.Prelude.{◌≡◌, IfOk, IsTrue, OnOk};
ghost use Rattle.gipsat_cnf.specs.Formulas.{Assignment, is_true};
ghost use Rattle.gipmc_circuits.specs.Circuit.{is_initial, is_transition, is_valuation};
ghost use Rattle.gipmc_builder.specs.Build.{AddsLatches, Keeps};
ghost use Rattle.gipmc_builder.specs.Machine.{IsMachine, NeverBad};
ghost use Rattle.gipmc_uses.specs.Lights.{are_both_green, lights_of, north_first, turned};

use gipmc_builder::Builder;
use gipmc_circuits::{Latch, Netlist, Verdict, certify};
use gipsat_cnf::{Literal, SatSolver};
use std::alloc::{AllocError, Global};

/// The literals of the lamps of two streets that cross.
#[derive(Clone, Copy)]
struct Lamps {
    north_green: Literal,
    north_yellow: Literal,
    east_green: Literal,
    east_yellow: Literal,
}

/// The lights of two streets that cross, and the literal that both are at green. The lamps take turns, each for as long
/// as the input is false: green and yellow of the one street, and then of the other one.
///
/// # Errors
/// `AllocError` where memory is refused.
pub fn lights(alloc: Global) -> Result<(Netlist, Literal), AllocError>
    ensures { IfOk result (λ made. IsMachine made.0.circuit made.1 turned north_first are_both_green) }
{
    let mut build = Builder::new(alloc);
    let is_time = build.input()?;
    let lamps = Lamps {
        north_green: build.bit()?,
        north_yellow: build.bit()?,
        east_green: build.bit()?,
        east_yellow: build.bit()?,
    };
    let next = turn(&mut build, is_time, lamps)?;
    let both = build.and(lamps.north_green, lamps.east_green)?;
    hold(&mut build, lamps, next)?;
    build.bad(both)?;
    match build.finish()? {
        Some(netlist) => Ok((netlist, both)),
        None => Err(AllocError),
    }
}

// The lamps that are on next.
fn turn(build: &mut Builder, is_time: Literal, lamps: Lamps) -> Result<Lamps, AllocError>
    ensures keeps { Keeps build.old.circuit build.new.circuit }
    ensures turned { IfOk result (λ next. (a : Assignment) → IsTrue (is_valuation build.new.circuit a)
        → lights_of a next.north_green next.north_yellow next.east_green next.east_yellow
        ≡ turned (lights_of a lamps.north_green lamps.north_yellow lamps.east_green lamps.east_yellow)
        (is_true a is_time)) }
{
    let north_green = build.mux(is_time, lamps.east_yellow, lamps.north_green)?;
    let north_yellow = build.mux(is_time, lamps.north_green, lamps.north_yellow)?;
    let east_green = build.mux(is_time, lamps.north_yellow, lamps.east_green)?;
    let east_yellow = build.mux(is_time, lamps.east_green, lamps.east_yellow)?;
    Ok(Lamps {
        north_green,
        north_yellow,
        east_green,
        east_yellow,
    })
}

// Adds a latch for each lamp: the one street begins at green.
fn hold(build: &mut Builder, lamps: Lamps, next: Lamps) -> Result<(), AllocError>
    ensures adds { OnOk result (AddsLatches build.old.circuit build.new.circuit) }
    ensures starts { OnOk result ((a : Assignment) → IsTrue (is_initial build.new.circuit a)
        → lights_of a lamps.north_green lamps.north_yellow lamps.east_green lamps.east_yellow ≡ north_first) }
    ensures becomes { OnOk result ((a b : Assignment) → IsTrue (is_transition build.new.circuit a b)
        → lights_of b lamps.north_green lamps.north_yellow lamps.east_green lamps.east_yellow
        ≡ lights_of a next.north_green next.north_yellow next.east_green next.east_yellow) }
{
    build.latch(lamps.north_green, Some(true), next.north_green)?;
    build.latch(lamps.north_yellow, Some(false), next.north_yellow)?;
    build.latch(lamps.east_green, Some(false), next.east_green)?;
    build.latch(lamps.east_yellow, Some(false), next.east_yellow)
}

// The literal that a lamp is off.
fn off(lamp: &Latch) -> Literal {
    Literal::new(lamp.variable % (1 << 31), false)
}

/// Whether it is shown that the two streets never have green at once: it is an invariant that no two lamps are on.
///
/// Shows a machine whose state is a record, from what its latches hold.
///
/// # Errors
/// `AllocError` where memory is refused.
pub fn never_both_green<S: SatSolver + Drop>(alloc: Global) -> Result<bool, AllocError>
    ensures { IfOk result (λ never. IsTrue never → NeverBad turned north_first are_both_green) }
{
    let (netlist, bad) = lights(alloc)?;
    let mut invariant = Vec::new(alloc);
    let latches = &netlist.circuit.latches;
    for place in 0..latches.len() {
        for other in 0..place {
            let not_both = [off(&latches[place]), off(&latches[other])];
            invariant.push(Vec::from_array(alloc, not_both)?)?;
        }
    }
    let verdict = certify::<S>(alloc, &netlist, bad, &invariant, 1000)?;
    match verdict {
        Verdict::Certified => Ok(true),
        _ => Ok(false),
    }
}
