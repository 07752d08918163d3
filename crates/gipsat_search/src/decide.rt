//! Decisions: which literal is assigned where nothing is left to propagate.

use crate::state::State;
use gipsat_cnf::Literal;
use gipsat_kernel::Kernel;
use std::alloc::AllocError;

// The literal of a variable that is decided: with the phase of the longest trail in the stable mode, else with the
// saved one. None if the variable has a value.
fn literal_of(state: &State, variable: u32) -> Option<Literal> {
    if !state.trail.has_no_value(variable) || variable >= 1 << 31 {
        return None;
    }
    let saved = state.trail.phase(variable);
    let phase = if state.restart_policy.modes.is_stable() {
        state.phases.target(variable).unwrap_or(saved)
    } else {
        saved
    };
    Some(Literal::new(variable, phase))
}

// The most active variable without a value, with its phase. None if none waits.
fn most_active(state: &mut State) -> Result<Option<Literal>, AllocError> {
    for _ in 0..state.activity.waiting() {
        let Some(variable) = state.activity.pick(&state.trail)? else {
            return Ok(None);
        };
        if state.activity.is_out(variable) {
            continue;
        }
        let l = literal_of(state, variable);
        if l.is_some() {
            return Ok(l);
        }
    }
    Ok(None)
}

// The literal to decide: the most active one. Where none waits, that of the last one of the eliminated variables,
// unless only a domain is decided.
pub(crate) fn literal_to_decide(
    kernel: &Kernel,
    state: &mut State,
) -> Result<Option<Literal>, AllocError> {
    let l = most_active(state)?;
    if l.is_some() {
        state.eliminated.rewind();
        return Ok(l);
    }
    if state.activity.is_limited() {
        return Ok(None);
    }
    Ok(state.eliminated.next(kernel, &state.trail))
}
