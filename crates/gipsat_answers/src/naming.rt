//! A search whose listener hears of clauses under the names of their variables.
ghost use Rattle.std.specs.Prelude.{◌≡◌, ◌||◌, false, true, length, IfNone, IfOk, IfSome, IsTrue, OnOk};
ghost use Rattle.std.specs.Bool.{OnTrue};
ghost use Rattle.gipsat_solver.specs.Answers.{HasNoFewer, IsRight};

use crate::names::name_in;
use gipsat_cnf::{Answer, Literal};
use gipsat_solver::Solver;
use gipsat_solver::progress::{Progress, Report, solve_in_slices};
use std::alloc::{AllocError, Global};
use std::ops::ControlFlow;

// Searches as `solve_in_slices` does, and tells `progress` of clauses under the names of their variables, if there are
// names.
pub(crate) fn solve_named<P: Progress>(
    alloc: Global,
    solver: &mut Solver,
    names: &[u32],
    limit: usize,
    progress: &mut P,
) -> Result<Option<Answer>, AllocError>
    ensures right { IfOk result (λ found. IfSome found (IsRight solver.old solver.new limit)) }
    ensures stopped { IfOk result (λ found. IfNone found (IsTrue (P.wants_stop progress.new))) }
    ensures formula { solver.new.formula ≡ solver.old.formula }
{
    if names.is_empty() {
        return solve_in_slices(solver, limit, progress);
    }
    let before = solver.learned();
    let mut left = limit;
    for _ in 0..usize::MAX {
        if let Some(answer) = search_named(alloc, solver, names, left, progress)? {
            return Ok(Some(answer));
        }
        // Nothing is known of what the listener wants where another one was asked, so that it is asked itself.
        if progress.note(report_of(solver)).is_break() {
            return Ok(None);
        }
        let spent = solver.learned().saturating_sub(before);
        left = limit.checked_sub(spent).ok_or(AllocError)?;
    }
    Err(AllocError)
}

// How far a solver is.
pub(crate) fn report_of(solver: &Solver) -> Report {
    Report {
        stats: solver.stats(),
        clauses: solver.len(),
    }
}

// Searches as `solve_in_slices` does, and tells `progress` of clauses under the names of their variables.
fn search_named<P: Progress>(
    alloc: Global,
    solver: &mut Solver,
    names: &[u32],
    limit: usize,
    progress: &mut P,
) -> Result<Option<Answer>, AllocError>
    ensures right { IfOk result (λ found. IfSome found (IsRight solver.old solver.new limit)) }
    ensures formula { solver.new.formula ≡ solver.old.formula }
    ensures learned { HasNoFewer solver.old solver.new }
{
    let mut naming = Naming {
        names,
        progress,
        clause: Vec::new(alloc),
        is_lost: false,
    };
    search_told(solver, limit, &mut naming)
}

// Searches as `solve_in_slices` does, and answers only where each clause was told.
fn search_told<P: Progress>(
    solver: &mut Solver,
    limit: usize,
    naming: &mut Naming<'_, P>,
) -> Result<Option<Answer>, AllocError>
    ensures right { IfOk result (λ found. IfSome found (IsRight solver.old solver.new limit)) }
    ensures formula { solver.new.formula ≡ solver.old.formula }
    ensures learned { HasNoFewer solver.old solver.new }
    ensures told { OnOk result (naming.new.is_lost ≡ false) }
{
    let found = solve_in_slices(solver, limit, naming)?;
    if naming.is_lost {
        return Err(AllocError);
    }
    Ok(found)
}

// Tells a listener what it is told, under the names of the variables.
#[derive(Drop)]
struct Naming<'a, P: Progress> {
    names: &'a [u32],
    progress: &'a mut P,
    // The last clause, under the names.
    clause: Vec<Literal>,
    // Whether memory for a clause was refused, so that it was not told.
    is_lost: bool,
}

impl<P: Progress> Naming<'_, P> {
    // Puts a clause under the names in place of the last one. False where memory for it is refused, so that it is lost.
    fn name(&mut self, clause: &[Literal]) -> bool
        ensures whole { OnTrue result (length self.new.clause.items ≡ length clause.now) }
        ensures lost { result ≡ false → self.new.is_lost ≡ true }
        ensures stays { self.old.is_lost ≡ true → self.new.is_lost ≡ true }
        ensures listener { self.new.progress.now ≡ self.old.progress.now }
    {
        match name_clause(&mut self.clause, self.names, clause) {
            Ok(()) => true,
            Err(AllocError) => {
                self.is_lost = true;
                false
            }
        }
    }
}

// Puts a clause under names in place of another one.
fn name_clause(
    named: &mut Vec<Literal>,
    names: &[u32],
    clause: &[Literal],
) -> Result<(), AllocError>
    ensures { OnOk result (length named.new.items ≡ length clause.now) }
{
    named.clear();
    for l in clause {
        named.push(name_of(names, *l))?;
    }
    Ok(())
}

// A literal under the name of its variable; one that has none stays as it is.
pub(crate) fn name_of(names: &[u32], l: Literal) -> Literal {
    let name = name_in(names, l.variable());
    if name < 1 << 31 {
        Literal::new(name, l.is_positive())
    } else {
        l
    }
}

impl<P: Progress> Progress for Naming<'_, P> {
    ghost wants_stop = { λ naming. P.wants_stop naming.progress.now || naming.is_lost };

    fn wants_chains(&self) -> bool {
        self.progress.wants_chains()
    }

    fn begin(&mut self, report: Report) {
        self.progress.begin(report);
    }

    fn added(&mut self, id: usize, clause: &[Literal], chain: &[usize]) {
        if self.name(clause) {
            self.progress.added(id, &self.clause, chain);
        }
    }

    fn deleted(&mut self, id: usize, clause: &[Literal]) {
        if self.name(clause) {
            self.progress.deleted(id, &self.clause);
        }
    }

    fn note(&mut self, report: Report) -> ControlFlow<()> {
        self.progress.note(report)
    }

    fn end(&mut self, report: Report) {
        self.progress.end(report);
    }
}
