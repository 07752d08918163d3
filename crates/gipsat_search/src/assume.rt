//! Assumptions: they are decided before all other variables (N. Eén and N. Sörensson, 2003).
ghost use Rattle.std.specs.Prelude.{◌≡◌};

use crate::analyze::analyze_final;
use crate::clauses::Status;
use crate::state::State;
use gipsat_cnf::Literal;
use gipsat_kernel::Kernel;
use std::alloc::AllocError;

// What comes next of the assumptions: all are true, one is to be decided, or one is false.
pub(crate) enum Assumed {
    All,
    Next(Literal),
    Failed(Literal),
}

// The first assumption that is not true.
pub(crate) fn next_assumption(state: &mut State, assumptions: &[Literal]) -> Assumed {
    for place in state.assumed..assumptions.len() {
        let Some(l) = assumptions.get(place).copied() else {
            return Assumed::All;
        };
        state.assumed = place;
        if state.trail.is_false(l) {
            return Assumed::Failed(l);
        }
        if state.trail.is_unset(l) {
            return Assumed::Next(l);
        }
    }
    state.assumed = assumptions.len();
    Assumed::All
}

// The clause that shows why an assumption fails: its id. None where its negation is assumed. It is not watched.
pub(crate) fn clause_of_failed(
    kernel: &mut Kernel,
    state: &mut State,
    failed: Literal,
) -> Result<Option<usize>, AllocError>
    ensures { kernel.new ≡ kernel.old }
{
    let place = state.trail.place_of(failed);
    if let Some(step) = state.trail.steps.get(place).copied() {
        if place < state.trail.root_len() {
            return Ok(Some(step.reason as usize));
        }
    }
    let found = analyze_final(kernel, &state.trail, place)?;
    if found.is_some() {
        state.clauses.push_unwatched(Status::Deleted)?;
        state.stats.deleted = state.stats.deleted.saturating_add(1);
    }
    Ok(found)
}
