//! Elimination of variables, with subsumption: the clauses of a variable give way to their resolvents (N. Eén and A.
//! Biere, 2005).
ghost use Rattle.std.specs.Prelude.{◌≡◌};

use crate::derive::{Resolution, derive_resolvents};
use crate::elimination::Elimination;
use crate::reduce::delete;
use crate::root::settle_root;
use crate::rounds::Rounds;
use crate::settings::SETTINGS;
use crate::state::State;
use crate::subsume::{Subsumption, find_subsumed};
use gipsat_cnf::Literal;
use gipsat_kernel::Kernel;
use std::alloc::{AllocError, Global};

// The clauses of a variable, by its sign, and the resolvents that stand for them.
struct Replacement {
    positive: Vec<u32>,
    negative: Vec<u32>,
    resolutions: Vec<Resolution>,
}

// One call in its owners' proofs, in place of one for each field.
impl Drop for Replacement {
    fn drop(self) {
        let Replacement {
            positive,
            negative,
            resolutions,
        } = self;
    }
}

impl Replacement {
    // Of no clause.
    fn new(alloc: Global) -> Self {
        Replacement {
            positive: Vec::new(alloc),
            negative: Vec::new(alloc),
            resolutions: Vec::new(alloc),
        }
    }
}

// Finds what to put in the place of the clauses of a variable, whose positive literal is `l`. False where it would be
// too much.
fn find_replacement(
    kernel: &Kernel,
    state: &State,
    elimination: &mut Elimination,
    l: Literal,
    found: &mut Replacement,
) -> Result<bool, AllocError> {
    let count = elimination.occurrences.count(l);
    let negated = elimination.occurrences.count(l.negated());
    if !state.trail.is_unset(l) || count > SETTINGS.occurrences || negated > SETTINGS.occurrences {
        return Ok(false);
    }
    elimination.list(l, &mut found.positive)?;
    elimination.list(l.negated(), &mut found.negative)?;
    elimination.list_resolutions(
        kernel,
        &state.trail,
        &found.positive,
        &found.negative,
        l,
        &mut found.resolutions,
    )
}

// Derives resolvents, which take part from now on.
fn add_resolvents(
    kernel: &mut Kernel,
    state: &mut State,
    elimination: &mut Elimination,
    resolutions: &[Resolution],
) -> Result<(), AllocError>
    ensures { kernel.new ≡ kernel.old }
{
    derive_resolvents(kernel, &state.trail, resolutions)?;
    for _ in state.clauses.known()..kernel.len() {
        state.clauses.keep_next()?;
    }
    elimination.connect_new(kernel, state)
}

// Drops the clauses that follow from one that waits, and strengthens others by it, until none waits.
fn subsume_all(
    alloc: Global,
    kernel: &mut Kernel,
    state: &mut State,
    elimination: &mut Elimination,
) -> Result<(), AllocError>
    ensures { kernel.new ≡ kernel.old }
{
    for _ in 0..usize::MAX {
        if elimination.steps == 0 {
            return Ok(());
        }
        let Some(id) = elimination.waiting.pop() else {
            return Ok(());
        };
        let mut found = Subsumption::new(alloc);
        subsume_by(kernel, state, elimination, id, &mut found)?;
    }
    Ok(())
}

// Drops the clauses that follow from a clause, and strengthens others by it. Nothing is found yet.
fn subsume_by(
    kernel: &mut Kernel,
    state: &mut State,
    elimination: &mut Elimination,
    id: u32,
    found: &mut Subsumption,
) -> Result<(), AllocError>
    ensures { kernel.new ≡ kernel.old }
{
    find_subsumed(
        kernel,
        &state.trail,
        &elimination.occurrences,
        &mut elimination.marks,
        &mut elimination.steps,
        id,
        found,
    )?;
    add_resolvents(kernel, state, elimination, &found.strengthened)?;
    for other in &found.subsumed {
        elimination.delete(kernel, state, *other)?;
    }
    for resolution in &found.strengthened {
        elimination.delete(kernel, state, resolution.first)?;
    }
    Ok(())
}

// Puts resolvents in the place of the clauses of a variable, unless they are too many or too long. Nothing is found
// yet.
fn eliminate_variable(
    kernel: &mut Kernel,
    state: &mut State,
    elimination: &mut Elimination,
    l: Literal,
    found: &mut Replacement,
) -> Result<(), AllocError>
    ensures { kernel.new ≡ kernel.old }
{
    if !find_replacement(kernel, state, elimination, l, found)? {
        return Ok(());
    }
    add_resolvents(kernel, state, elimination, &found.resolutions)?;
    found.positive.extend_from_slice(&found.negative)?;
    state.eliminated.push(l, &found.positive)?;
    state.activity.take_out(l.variable());
    state.candidates.freeze(l.variable());
    elimination.steps = elimination.steps.max(SETTINGS.variable_steps);
    for id in &found.positive {
        elimination.take_out(kernel, state, *id)?;
    }
    Ok(())
}

// Eliminates variables one after another, those of the fewest resolvents first, until the steps are spent or all were
// tried. Then they are to be tried again, and may leave more clauses.
fn eliminate_each(
    alloc: Global,
    kernel: &mut Kernel,
    state: &mut State,
    elimination: &mut Elimination,
) -> Result<(), AllocError>
    ensures { kernel.new ≡ kernel.old }
{
    for _ in 0..usize::MAX {
        if elimination.steps == 0 {
            return Ok(());
        }
        elimination.spend(SETTINGS.occurrence_steps);
        let Some(variable) = state.candidates.next(&elimination.occurrences)? else {
            retry_all(state);
            return Ok(());
        };
        let Some(l) = positive(variable) else {
            return Ok(());
        };
        let mut found = Replacement::new(alloc);
        eliminate_variable(kernel, state, elimination, l, &mut found)?;
        subsume_all(alloc, kernel, state, elimination)?;
    }
    Ok(())
}

// All candidates were tried: they are to be tried again, where they may leave more clauses.
fn retry_all(state: &mut State) {
    if state.rounds.raise_bound() {
        state.candidates.retry();
    }
}

// The positive literal of a variable.
fn positive(variable: u32) -> Option<Literal> {
    if variable >= 1 << 31 {
        return None;
    }
    Some(Literal::new(variable, true))
}

// Asks each clause which others follow from it, for half of the steps at most.
fn subsume_first(
    alloc: Global,
    kernel: &mut Kernel,
    state: &mut State,
    elimination: &mut Elimination,
) -> Result<(), AllocError>
    ensures { kernel.new ≡ kernel.old }
{
    let half = elimination.steps / 2;
    elimination.steps = half;
    subsume_all(alloc, kernel, state, elimination)?;
    elimination.steps = elimination.steps.saturating_add(half);
    Ok(())
}

// Whether a clause has an eliminated variable.
fn has_eliminated(state: &State, clause: &[Literal]) -> bool {
    for l in clause {
        if state.eliminated.has(l.variable()) {
            return true;
        }
    }
    false
}

// Deletes the learned clauses that have an eliminated variable.
fn delete_learned(kernel: &Kernel, state: &mut State) {
    for id in 0..kernel.len() {
        let clause = kernel.clause(id).unwrap_or(&[]);
        if state.clauses.rating(id).is_some() && has_eliminated(state, clause) {
            delete(kernel, state, id);
        }
    }
}

// Eliminates variables. No clause takes part in the elimination yet. Those of the first round are asked what follows
// from them; later ones only those that come.
fn eliminate_candidates(
    alloc: Global,
    kernel: &mut Kernel,
    state: &mut State,
    elimination: &mut Elimination,
    is_first: bool,
) -> Result<(), AllocError>
    ensures { kernel.new ≡ kernel.old }
{
    elimination.connect_new(kernel, state)?;
    elimination.steps = state.rounds.steps();
    if is_first {
        subsume_first(alloc, kernel, state, elimination)?;
    }
    elimination.waiting.clear();
    state
        .candidates
        .begin(alloc, state.trail.variables(), &elimination.occurrences)?;
    eliminate_each(alloc, kernel, state, elimination)?;
    state.candidates.end(alloc);
    delete_learned(kernel, state);
    Ok(())
}

// Propagates what has to be true, eliminates variables, and lets all clauses be watched anew.
fn eliminate_round(
    alloc: Global,
    kernel: &mut Kernel,
    state: &mut State,
    is_first: bool,
) -> Result<(), AllocError>
    ensures { kernel.new ≡ kernel.old }
{
    state.rounds.end(state.stats.propagations);
    if !settle_root(alloc, kernel, state)? {
        return Ok(());
    }
    state.eliminated.tidy(alloc)?;
    state.clauses.detach_all();
    state.clauses.arena.free(alloc);
    state.watches.free(alloc);
    let mut elimination = Elimination::new(alloc, kernel, state)?;
    eliminate_candidates(alloc, kernel, state, &mut elimination, is_first)
}

// Eliminates variables but for the frozen ones, in so many steps, and asks for further rounds.
pub(crate) fn eliminate(
    alloc: Global,
    kernel: &mut Kernel,
    state: &mut State,
    frozen: &[u32],
    steps: u64,
) -> Result<(), AllocError>
    ensures { kernel.new ≡ kernel.old }
{
    state.rounds = Rounds::of(steps);
    state.candidates.reset(state.trail.variables(), frozen)?;
    eliminate_round(alloc, kernel, state, true)
}

// Takes the elimination up again, if a round of it is due: all eliminated variables are to be asked for values, and the
// root is settled.
pub(crate) fn eliminate_again(
    alloc: Global,
    kernel: &mut Kernel,
    state: &mut State,
) -> Result<(), AllocError>
    ensures { kernel.new ≡ kernel.old }
{
    if state.rounds.is_due(state.stats.propagations) {
        eliminate_round(alloc, kernel, state, false)?;
        state.eliminated.rewind();
        settle_root(alloc, kernel, state)?;
    }
    Ok(())
}
