//! A search in slices, with pauses: at each it tells how far it is, and may be stopped.
ghost use Rattle.std.specs.Prelude.{◌≡◌, ◌+◌, ◌≤◌, IfNone, IfOk, IfSome, IsTrue, OnErr, OnOk};
ghost use Rattle.gipsat_solver.specs.Answers.{HasNoFewer, HasUpTo, IsDecidedUnder, IsRight, IsRightUnder};

use crate::answers::{End, answer_of};
pub use crate::listener::{Both, Progress, Report};
use crate::solver::Solver;
use gipsat_cnf::{Answer, AnswerUnder, Literal};
use gipsat_search::Query;
use gipsat_search::settings::SETTINGS;
use std::alloc::AllocError;

/// Finds out whether anything satisfies the solver's formula, as [`Solver::solve`] does, and tells `progress` now and
/// then how far it is. None where `progress` stopped the search.
///
/// # Errors
/// Those of [`Solver::solve`].
pub fn solve_in_slices<P: Progress>(
    solver: &mut Solver,
    limit: usize,
    progress: &mut P,
) -> Result<Option<Answer>, AllocError>
    ensures right { IfOk result (λ found. IfSome found (IsRight solver.old solver.new limit)) }
    ensures stopped { IfOk result (λ found. IfNone found (IsTrue (P.wants_stop progress.new))) }
    ensures formula { solver.new.formula ≡ solver.old.formula }
    ensures given { solver.new.given ≡ solver.old.given }
    ensures learned { HasNoFewer solver.old solver.new }
    ensures most { OnOk result (solver.new.learned ≤ solver.old.learned + limit) }
{
    match solve_under_in_slices(solver, &[], limit, progress)? {
        Some(answer) => Ok(Some(answer_of(answer))),
        None => Ok(None),
    }
}

/// Finds out whether anything satisfies the solver's formula and makes each assumption true, as
/// [`Solver::solve_under`] does, and tells `progress` now and then how far it is. None where `progress` stopped the
/// search.
///
/// # Errors
/// Those of [`Solver::solve_under`].
pub fn solve_under_in_slices<P: Progress>(
    solver: &mut Solver,
    assumptions: &[Literal],
    limit: usize,
    progress: &mut P,
) -> Result<Option<AnswerUnder>, AllocError>
    ensures right { IfOk result
        (λ found. IfSome found (IsRightUnder assumptions.now solver.old solver.new limit)) }
    ensures stopped { IfOk result (λ found. IfNone found (IsTrue (P.wants_stop progress.new))) }
    ensures formula { solver.new.formula ≡ solver.old.formula }
    ensures given { solver.new.given ≡ solver.old.given }
    ensures learned { HasNoFewer solver.old solver.new }
    ensures most { OnOk result (solver.new.learned ≤ solver.old.learned + limit) }
{
    solver.tell_from_now_on(progress.wants_chains());
    let found = solve_on(solver, assumptions, limit, progress);
    solver.tell_added(progress);
    solver.tell_from_now_on(false);
    let found = found?;
    progress.end(solver.report());
    Ok(found)
}

// Into how many parts pauses divide the propagations of a first slice.
const PAUSES: u64 = 16;

// The search, without its end. Between two pauses it goes on where it was.
fn solve_on<P: Progress>(
    solver: &mut Solver,
    assumptions: &[Literal],
    limit: usize,
    progress: &mut P,
) -> Result<Option<AnswerUnder>, AllocError>
    ensures right { IfOk result
        (λ found. IfSome found (IsRightUnder assumptions.now solver.old solver.new limit)) }
    ensures stopped { IfOk result (λ found. IfNone found (IsTrue (P.wants_stop progress.new))) }
    ensures formula { solver.new.formula ≡ solver.old.formula }
    ensures given { solver.new.given ≡ solver.old.given }
    ensures learned { HasNoFewer solver.old solver.new }
    ensures most { OnOk result (solver.new.learned ≤ solver.old.learned + limit) }
{
    let mut left = limit;
    let mut slice = Slice::first(solver);
    for _ in 0..usize::MAX {
        progress.begin(solver.report());
        let before = solver.learned();
        if let Some(answer) = solve_to_pause(solver, assumptions, left, slice, progress)? {
            return Ok(Some(answer));
        }
        left -= solver.learned() - before;
        if left == 0 {
            return Ok(Some(AnswerUnder::Unknown));
        }
        solver.tell_added(progress);
        if progress.note(solver.report()).is_break() {
            return Ok(None);
        }
        slice = end_slice(solver, assumptions, slice)?;
        solver.tell_added(progress);
    }
    Ok(Some(solver.solve_under(assumptions, left)?))
}

// Solves up to the next pause of a slice. None where no answer was found so far.
fn solve_to_pause<P: Progress>(
    solver: &mut Solver,
    assumptions: &[Literal],
    limit: usize,
    slice: Slice,
    progress: &mut P,
) -> Result<Option<AnswerUnder>, AllocError>
    ensures some { IfOk result (λ found. IfSome found (IsDecidedUnder assumptions.now solver.old.formula)) }
    ensures most { OnOk result (HasUpTo limit solver.old solver.new) }
    ensures refused { OnErr result (HasNoFewer solver.old solver.new) }
    ensures formula { solver.new.formula ≡ solver.old.formula }
    ensures given { solver.new.given ≡ solver.old.given }
{
    let query = Query {
        assumptions,
        domain: None,
        propagations: SETTINGS.slice_propagations / PAUSES,
        is_guess: false,
    };
    let clauses = limit.min(slice.clauses_left(solver));
    match solver.resume(&query, clauses, slice.has_begun, progress)? {
        Some(End::Model(model)) => Ok(Some(AnswerUnder::Sat(model))),
        Some(End::Core(core)) => Ok(Some(AnswerUnder::Unsat(core))),
        Some(End::Guessed | End::Spent) | None => Ok(None),
    }
}

// A slice of a search: how far the search was when it began, and when it is over.
#[derive(Clone, Copy)]
struct Slice {
    learned: usize,
    propagations: u64,
    // How many literals it propagates, unless it learns enough clauses before.
    budget: u64,
    is_first: bool,
    // Whether it goes on after a pause.
    has_begun: bool,
}

impl Slice {
    // The first one, which begins now.
    fn first(solver: &Solver) -> Self {
        Slice {
            learned: solver.learned(),
            propagations: solver.stats().propagations,
            budget: SETTINGS.slice_propagations,
            is_first: true,
            has_begun: false,
        }
    }

    // The next one, which begins now. It is longer where this one has learned nothing.
    fn next(self, solver: &Solver) -> Self {
        let factor = 1 + u64::from(self.clauses(solver) == 0);
        Slice {
            budget: self.budget.saturating_mul(factor),
            is_first: false,
            ..Slice::first(solver)
        }
    }

    // How many clauses it has learned.
    fn clauses(self, solver: &Solver) -> usize {
        solver.learned().saturating_sub(self.learned)
    }

    // How many clauses it may learn yet.
    fn clauses_left(self, solver: &Solver) -> usize {
        SETTINGS.slice_clauses.saturating_sub(self.clauses(solver))
    }

    // How many literals it has propagated.
    fn work(self, solver: &Solver) -> u64 {
        solver
            .stats()
            .propagations
            .saturating_sub(self.propagations)
    }

    // Whether it has learned or propagated enough.
    fn is_over(self, solver: &Solver) -> bool {
        self.clauses_left(solver) == 0 || self.work(solver) >= self.budget
    }
}

// The next slice where this one is over, and this one else. Between two slices variables are eliminated, after the first
// one alone, and the clauses shortened that the last one learned, unless that is not wanted.
fn end_slice(
    solver: &mut Solver,
    assumptions: &[Literal],
    slice: Slice,
) -> Result<Slice, AllocError>
    ensures { solver.new ≡ solver.old }
{
    if !slice.is_over(solver) {
        return Ok(Slice {
            has_begun: true,
            ..slice
        });
    }
    inprocess(solver, assumptions, slice)?;
    Ok(slice.next(solver))
}

// Eliminates variables that are not assumed if the slice was the first, and shortens the clauses that it learned, as far
// as that is wanted.
fn inprocess(solver: &mut Solver, assumptions: &[Literal], slice: Slice) -> Result<(), AllocError>
    ensures { solver.new ≡ solver.old }
{
    let wanted = solver.inprocessing();
    let propagations = slice.work(solver);
    if slice.is_first && wanted.eliminates {
        let more = (solver.literals() as u64).saturating_mul(SETTINGS.literal_steps);
        solver.eliminate_others(assumptions, SETTINGS.elimination_steps.saturating_add(more))?;
    }
    if wanted.vivifies {
        solver.vivify(propagations / SETTINGS.vivification_share)?;
    }
    Ok(())
}
