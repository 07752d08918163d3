//! The names of clauses in an LRAT proof: those of the formula are 1, 2 and so on, and each derived one has the next name.
ghost use Rattle.std.specs.Prelude.{◌≡◌, ◌+◌, OnOk, map, reverse};
ghost use Rattle.gipsat_answers.specs.Lrat.{hints_of, name_in};

use std::alloc::{AllocError, Global};

// The names of the clauses that there are.
pub(crate) struct Names {
    // By the ids of the solver. 0 for a clause that was freed.
    by_id: Vec<u32>,
    // The last name that was given.
    pub last: u32,
    // How many clauses were freed whose ids are not given to others yet.
    freed: usize,
    // The names that the last clause was resolved from.
    pub hints: Vec<u32>,
}

// One call in its owners' proofs, in place of one for each field.
impl Drop for Names {
    fn drop(self) {
        let Names {
            by_id,
            last: _,
            freed: _,
            hints,
        } = self;
    }
}

impl Names {
    // Of no clause.
    pub(crate) fn new(alloc: Global) -> Self {
        Names {
            by_id: Vec::new(alloc),
            last: 0,
            freed: 0,
            hints: Vec::new(alloc),
        }
    }

    // Names the clauses of the formula, unless there are names. The clauses move up then, since others may be freed next.
    pub(crate) fn begin(&mut self, clauses: usize) -> Result<(), AllocError> {
        if self.last > 0 {
            self.move_up();
            return Ok(());
        }
        for _ in 0..clauses {
            self.give()?;
        }
        Ok(())
    }

    // Gives the next name to a clause with the next id.
    fn give(&mut self) -> Result<(), AllocError>
        ensures { OnOk result (self.new.last ≡ self.old.last + 1) }
    {
        let name = self.last.checked_add(1).ok_or(AllocError)?;
        self.by_id.push(name)?;
        self.last = name;
        Ok(())
    }

    // Names a clause that was resolved from those of a chain, and finds their names.
    pub(crate) fn add(&mut self, chain: &[usize]) -> Result<(), AllocError>
        ensures named { OnOk result (self.new.last ≡ self.old.last + 1) }
        ensures hints { OnOk result (self.new.hints.items ≡ hints_of self.new.by_id.items chain.now) }
    {
        self.move_up();
        self.give()?;
        self.find(chain)
    }

    // Finds the names of the clauses of a chain, the last one first.
    fn find(&mut self, chain: &[usize]) -> Result<(), AllocError>
        ensures named { self.new.last ≡ self.old.last }
        ensures hints { OnOk result (self.new.hints.items ≡ hints_of self.new.by_id.items chain.now) }
    {
        self.hints.clear();
        for id in chain {
            let name = self.of(*id);
            self.hints.push(name)?;
        }
        self.hints.reverse();
        Ok(())
    }

    // The name of a clause. 0 if it has none.
    pub(crate) fn of(&self, id: usize) -> u32
        ensures { result ≡ name_in self.now.by_id.items id }
    {
        match self.by_id.get(id) {
            Some(name) => *name,
            None => 0,
        }
    }

    // A clause is freed.
    pub(crate) fn free(&mut self, id: usize)
        ensures { self.new.last ≡ self.old.last }
    {
        if let Some(name) = self.by_id.get_mut(id) {
            *name = 0;
            self.freed = self.freed.saturating_add(1);
        }
    }

    // Moves the clauses up behind those that were freed.
    fn move_up(&mut self)
        ensures { self.new.last ≡ self.old.last }
    {
        if self.freed == 0 {
            return;
        }
        self.freed = 0;
        let mut kept = 0usize;
        for id in 0..self.by_id.len() {
            let name = self.of(id);
            if name > 0 {
                if let Some(place) = self.by_id.get_mut(kept) {
                    *place = name;
                }
                kept = kept.saturating_add(1);
            }
        }
        self.by_id.truncate(kept);
    }
}
