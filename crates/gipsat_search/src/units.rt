//! Units: each literal that is true at the root becomes a clause, so that one step resolves its negation away.
ghost use Rattle.std.specs.Prelude.{◌≡◌};

use crate::clauses::Status;
use crate::derive::resolve_at;
use crate::state::State;
use crate::trail::{Trail, short};
use gipsat_cnf::Literal;
use gipsat_kernel::Kernel;
use std::alloc::AllocError;

// Derives the unit clause of the literal at a place of the trail, at the root, from its reason.
fn derive_unit(
    kernel: &mut Kernel,
    trail: &Trail,
    l: Literal,
    reason: u32,
) -> Result<Option<usize>, AllocError>
    ensures { kernel.new ≡ kernel.old }
{
    kernel.begin(reason as usize)?;
    for index in 0..kernel.marked().len() {
        let Some(other) = kernel.marked().get(index).copied() else {
            break;
        };
        if other.code() != l.code() {
            resolve_at(kernel, trail, trail.place_of(other))?;
        }
    }
    kernel.conclude()
}

// Derives a unit clause for the literal at a place of the trail, unless its reason is one. It is its reason then.
fn learn_unit(kernel: &mut Kernel, state: &mut State, place: usize) -> Result<(), AllocError>
    ensures { kernel.new ≡ kernel.old }
{
    let Some(step) = state.trail.steps.get(place).copied() else {
        return Ok(());
    };
    match kernel.clause(step.reason as usize) {
        Some(clause) if clause.len() > 1 => {}
        _ => return Ok(()),
    }
    if let Some(id) = derive_unit(kernel, &state.trail, step.literal, step.reason)? {
        state.trail.set_reason(place, short(id));
        state.clauses.push_unwatched(Status::Kept)?;
    }
    Ok(())
}

// Derives a unit clause for each literal of the root that has none, if all clauses are attached.
pub(crate) fn learn_units(kernel: &mut Kernel, state: &mut State) -> Result<(), AllocError>
    ensures { kernel.new ≡ kernel.old }
{
    if state.clauses.attached() != kernel.len() {
        return Ok(());
    }
    let len = state.trail.root_len();
    for place in state.units..len {
        learn_unit(kernel, state, place)?;
    }
    state.units = len;
    Ok(())
}
