//! What is told how far a search is, and which clauses come and go.
ghost use Rattle.std.specs.Prelude.{◌||◌, Bool, false, is_some, IsTrue};
ghost use Rattle.std.specs.ControlFlow.{break_value};

use gipsat_cnf::Literal;
use gipsat_search::Stats;
use std::ops::ControlFlow;

/// How far a search is.
#[derive(Clone, Copy)]
pub struct Report {
    /// How much the solver did since it was made.
    pub stats: Stats,
    /// How many clauses it has: those of the formula, and those that follow and were not freed. The empty clause, with
    /// which a search ends that finds that there is no model, does not count.
    pub clauses: usize,
}

/// A listener: it is told how far a search is, and may stop it.
///
/// It hears of each clause that a search in slices derives ([`Progress::added`]) and of each one that it frees
/// ([`Progress::deleted`]), in such an order that each clause follows from the formula and those that were added and not
/// deleted before it. Clauses of the formula are not told, nor those that earlier calls derived, though they may be freed.
/// Where the search ends with an error, what was told may lack a part.
///
/// Each clause has an id, its place among those of the formula and those that were derived. Behind the last one of
/// several that are freed, each other clause moves up: its id falls by the number of freed ones before it.
pub trait Progress {
    // Whether it wants the search to stop.
    ghost wants_stop: { Self → Bool };

    /// Whether [`Progress::added`] is to tell what each clause was resolved from. It is asked when a search begins.
    fn wants_chains(&self) -> bool;

    /// The search begins, or goes on after a pause.
    fn begin(&mut self, report: Report)
        ensures { IsTrue (wants_stop self.old) → IsTrue (wants_stop self.new) };

    /// A clause was derived. It follows from the formula. `chain` has the ids of the clauses that it was resolved from,
    /// in order, if they are wanted, and is empty else.
    fn added(&mut self, id: usize, clause: &[Literal], chain: &[usize])
        ensures { IsTrue (wants_stop self.old) → IsTrue (wants_stop self.new) };

    /// A clause that was derived, or has left the formula, is freed.
    fn deleted(&mut self, id: usize, clause: &[Literal])
        ensures { IsTrue (wants_stop self.old) → IsTrue (wants_stop self.new) };

    /// The search pauses, without an answer so far. `Break` stops it.
    fn note(&mut self, report: Report) -> ControlFlow<()>
        ensures { IsTrue (is_some (break_value result)) → IsTrue (wants_stop self.new) };

    /// The search has ended, with an answer or without.
    fn end(&mut self, report: Report)
        ensures { IsTrue (wants_stop self.old) → IsTrue (wants_stop self.new) };
}

/// The listener that ignores all it is told, and stops no search.
impl Progress for () {
    ghost wants_stop = { λ _. false };

    fn wants_chains(&self) -> bool {
        false
    }

    fn begin(&mut self, _report: Report) {}

    fn added(&mut self, _id: usize, _clause: &[Literal], _chain: &[usize]) {}

    fn deleted(&mut self, _id: usize, _clause: &[Literal]) {}

    fn note(&mut self, _report: Report) -> ControlFlow<()> {
        ControlFlow::Continue(())
    }

    fn end(&mut self, _report: Report) {}
}

/// Two listeners, each of which may stop the search.
#[derive(Drop)]
pub struct Both<P, Q> {
    /// The one that is told first.
    pub first: P,
    /// The other. It is told as well where the first stops the search.
    pub second: Q,
}

impl<P: Progress, Q: Progress> Progress for Both<P, Q> {
    ghost wants_stop = { λ both. P.wants_stop both.first || Q.wants_stop both.second };

    fn wants_chains(&self) -> bool {
        self.first.wants_chains() || self.second.wants_chains()
    }

    fn begin(&mut self, report: Report) {
        self.first.begin(report);
        self.second.begin(report);
    }

    fn added(&mut self, id: usize, clause: &[Literal], chain: &[usize]) {
        self.first.added(id, clause, chain);
        self.second.added(id, clause, chain);
    }

    fn deleted(&mut self, id: usize, clause: &[Literal]) {
        self.first.deleted(id, clause);
        self.second.deleted(id, clause);
    }

    fn note(&mut self, report: Report) -> ControlFlow<()> {
        let first = self.first.note(report);
        let second = self.second.note(report);
        if first.is_break() { first } else { second }
    }

    fn end(&mut self, report: Report) {
        self.first.end(report);
        self.second.end(report);
    }
}
