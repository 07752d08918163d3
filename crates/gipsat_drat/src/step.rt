//! A step of a proof: a clause to add, or one to delete.
ghost use Rattle.std.specs.Prelude.{◌≡◌, ◌-◌, IfOk};
ghost use Rattle.gipsat_drat.specs.Held.{Keeps};

use crate::checker::Checker;
use crate::error::{Flaw, Notes, Place, Stop};
use gipsat_cnf::Literal;
use std::alloc::Global;

// The greatest number of a variable that a proof may name.
pub(crate) const GREATEST_NUMBER: u64 = 2_147_483_647;

// A step that has not ended.
#[derive(Drop)]
pub(crate) struct Step {
    clause: Vec<Literal>,
    deletes: bool,
    notes: Notes,
}

impl Step {
    // The first one of a proof.
    pub(crate) fn new(alloc: Global) -> Self {
        Step {
            clause: Vec::new(alloc),
            deletes: false,
            notes: Notes::new(),
        }
    }

    // What was passed over.
    pub(crate) fn notes(&self) -> Notes {
        self.notes
    }

    // Whether it has a literal, or is a deletion.
    pub(crate) fn is_begun(&self) -> bool {
        self.deletes || !self.clause.is_empty()
    }

    // It is a deletion. That comes before its literals.
    pub(crate) fn begin_deletion(&mut self) -> Result<(), Flaw> {
        if self.is_begun() {
            return Err(Flaw::Word);
        }
        self.deletes = true;
        Ok(())
    }

    // A literal more.
    pub(crate) fn push(&mut self, number: u64, positive: bool) -> Result<(), Stop> {
        let l = literal(number, positive)?;
        self.clause.push(l)?;
        Ok(())
    }

    // Ends it at a place, and begins the next one. A deletion of a clause that is not held is passed over.
    pub(crate) fn end(&mut self, checker: &mut Checker, place: Place) -> Result<(), Stop>
        ensures { Keeps checker.old checker.new }
    {
        checker.number(&mut self.clause)?;
        if self.deletes {
            let found = checker.delete(&self.clause)?;
            self.count_missing(found, place);
        } else {
            let shown = checker.add(&self.clause)?;
            if !shown {
                return Err(Stop::Refused(Flaw::NotShown));
            }
        }
        self.deletes = false;
        self.clause.clear();
        Ok(())
    }

    // Counts a deletion whose clause was not found.
    fn count_missing(&mut self, found: bool, place: Place) {
        if found {
            return;
        }
        let notes = self.notes;
        self.notes = Notes {
            missing: notes.missing.saturating_add(1),
            first: notes.first.or(Some(place)),
            ..notes
        };
    }
}

// The literal of a variable's number.
pub(crate) fn literal(number: u64, positive: bool) -> Result<Literal, Flaw>
    ensures { IfOk result (λ l. l ≡ record { variable = number - 1; positive = positive }) }
{
    if number == 0 {
        return Err(Flaw::Variable);
    }
    if number > GREATEST_NUMBER {
        return Err(Flaw::Number);
    }
    Ok(Literal::new((number - 1) as u32, positive))
}
