//! Turns of a search, and what the kernel makes of what they tell.
ghost use Rattle.std.specs.Prelude.{◌≡◌, IfOk};
ghost use Rattle.gipsat_solver.specs.Answers.{IsRightEnd, IsRightStep};

use crate::answers::End;
use gipsat_cnf::Literal;
use gipsat_kernel::Kernel;
use gipsat_search::{Query, Search, Turn};
use std::alloc::{AllocError, Global};

// How often a search may take values for a model that are none before it learns a clause.
const WRONG_MODELS: usize = 100;

// How far a search is after a turn.
#[derive(Drop)]
pub(crate) enum Step {
    // It has learned a clause.
    Learned,
    // It goes on with a clause that it had left open.
    Reopened,
    // It has ended.
    Ended(End),
    // What it told is wrong, or it gave up unasked.
    Lost,
}

// Goes on until a clause was learned, or the search ends.
pub(crate) fn solve_one_conflict(
    alloc: Global,
    kernel: &mut Kernel,
    search: &mut Search,
    query: &Query<'_>,
) -> Result<Step, AllocError>
    ensures formula { kernel.new ≡ kernel.old }
    ensures right { IfOk result (IsRightStep kernel.old query.now) }
{
    for _ in 0..WRONG_MODELS {
        match take_turn(alloc, kernel, search, query)? {
            Step::Reopened => {}
            step => return Ok(step),
        }
    }
    Ok(Step::Lost)
}

// Takes one turn. What it tells is believed only if the kernel says so.
fn take_turn(
    alloc: Global,
    kernel: &mut Kernel,
    search: &mut Search,
    query: &Query<'_>,
) -> Result<Step, AllocError>
    ensures formula { kernel.new ≡ kernel.old }
    ensures right { IfOk result (IsRightStep kernel.old query.now) }
{
    match search.turn(kernel, *query)? {
        Turn::Learned => Ok(Step::Learned),
        Turn::Model(values) => Ok(step_of_model(kernel, search, query, values)),
        Turn::Core(id) => step_of_core(alloc, kernel, query, id),
        Turn::Contradiction(l) => step_of_contradiction(alloc, kernel, query, l),
        Turn::Guessed if query.is_guess => Ok(Step::Ended(End::Guessed)),
        Turn::Spent if query.propagations < u64::MAX => Ok(Step::Ended(End::Spent)),
        Turn::Guessed | Turn::Spent => Ok(Step::Lost),
    }
}

// Ends with values that are a model. Else the search goes on with a clause that they leave open.
fn step_of_model(kernel: &Kernel, search: &mut Search, query: &Query<'_>, values: Vec<bool>) -> Step
    ensures { IsRightStep kernel.now query.now result }
{
    if kernel.is_model(&values, query.assumptions) {
        return Step::Ended(End::Model(values));
    }
    if search.reopen(kernel) {
        Step::Reopened
    } else {
        Step::Lost
    }
}

// Ends with the negations of a working clause's literals, if each of them is assumed.
fn step_of_core(
    alloc: Global,
    kernel: &mut Kernel,
    query: &Query<'_>,
    id: usize,
) -> Result<Step, AllocError>
    ensures formula { kernel.new ≡ kernel.old }
    ensures right { IfOk result (IsRightStep kernel.old query.now) }
{
    Ok(match kernel.core(alloc, id, query.assumptions)? {
        Some(core) => Step::Ended(End::Core(core)),
        None => Step::Lost,
    })
}

// Ends with the core of a literal and its negation, if both are assumed.
fn step_of_contradiction(
    alloc: Global,
    kernel: &Kernel,
    query: &Query<'_>,
    l: Literal,
) -> Result<Step, AllocError>
    ensures { IfOk result (IsRightStep kernel.now query.now) }
{
    let (a, b) = (l, l.negated());
    if !query.assumptions.contains(&a) || !query.assumptions.contains(&b) {
        return Ok(Step::Lost);
    }
    let mut core = Vec::new(alloc);
    core.extend_from_slice(&[a, b])?;
    Ok(Step::Ended(End::Core(core)))
}

// How a search ends that told something wrong: its budget counts as spent, if it has one. Else all values are tried.
pub(crate) fn end_of_lost(
    alloc: Global,
    kernel: &Kernel,
    query: &Query<'_>,
) -> Result<End, AllocError>
    ensures { IfOk result (IsRightEnd kernel.now query.now) }
{
    if query.propagations < u64::MAX {
        return Ok(End::Spent);
    }
    try_all(alloc, kernel, query)
}

// A model that makes the assumptions true, or all of these as a core, by trying all values.
fn try_all(alloc: Global, kernel: &Kernel, query: &Query<'_>) -> Result<End, AllocError>
    ensures { IfOk result (IsRightEnd kernel.now query.now) }
{
    if let Some(model) = kernel.find_model(alloc, query.assumptions)? {
        return Ok(End::Model(model));
    }
    let mut core = Vec::new(alloc);
    core.extend_from_slice(query.assumptions)?;
    Ok(End::Core(core))
}
