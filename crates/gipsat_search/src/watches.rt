//! Watches: for each literal the clauses that are looked at when it becomes false.

use gipsat_cnf::Literal;
use std::alloc::{AllocError, Global};
use std::mem;

// The digit by which a watch of a clause of two literals is told.
const BINARY: u32 = 1 << 31;

// A watched clause, and a blocker: while that literal is true, the clause need not be looked at. The blocker of a
// clause of two literals is the other one, so that such a clause is never read: it is named by its id, and others by
// their homes in the arena.
#[derive(Clone, Copy)]
pub(crate) struct Watch {
    tag: u32,
    pub blocker: Literal,
}

impl Watch {
    // Of the clause with this id or at this home.
    pub(crate) fn new(number: u32, blocker: Literal, is_binary: bool) -> Self {
        let digit = if is_binary { BINARY } else { 0 };
        Watch {
            tag: number | digit,
            blocker,
        }
    }

    // The id of the clause, or its home. One of 2^31 and more is not watched.
    #[inline]
    pub(crate) fn number(&self) -> u32 {
        self.tag & !BINARY
    }

    // Whether the clause has two literals.
    #[inline]
    pub(crate) fn is_binary(&self) -> bool {
        self.tag & BINARY != 0
    }

    // The same with another blocker.
    #[inline]
    pub(crate) fn with(&self, blocker: Literal) -> Self {
        Watch {
            tag: self.tag,
            blocker,
        }
    }
}

// For each literal the clauses that watch it.
#[derive(Drop)]
pub(crate) struct Watches {
    lists: Vec<Vec<Watch>>,
}

impl Watches {
    // No literal. It takes no memory.
    pub(crate) fn new(alloc: Global) -> Self {
        Watches {
            lists: Vec::new(alloc),
        }
    }

    // Makes room for the literals of so many variables.
    pub(crate) fn grow(&mut self, alloc: Global, variables: usize) -> Result<(), AllocError> {
        for _ in self.lists.len()..variables.saturating_mul(2) {
            self.lists.push(Vec::new(alloc))?;
        }
        Ok(())
    }

    // Adds a watch of a literal.
    #[inline]
    pub(crate) fn add(&mut self, l: Literal, watch: Watch) -> Result<(), AllocError> {
        if let Some(list) = self.lists.get_mut(l.code()) {
            list.push(watch)?;
        }
        Ok(())
    }

    // Takes the watches of a literal out.
    #[inline]
    pub(crate) fn take(&mut self, alloc: Global, l: Literal) -> Vec<Watch> {
        match self.lists.get_mut(l.code()) {
            Some(list) => mem::replace(list, Vec::new(alloc)),
            None => Vec::new(alloc),
        }
    }

    // Puts the watches of a literal back.
    #[inline]
    pub(crate) fn put(&mut self, l: Literal, watches: Vec<Watch>) {
        if let Some(list) = self.lists.get_mut(l.code()) {
            *list = watches;
        }
    }

    // Takes all watches out. The lists keep their memory.
    pub(crate) fn clear(&mut self) {
        for list in self.lists.iter_mut() {
            list.clear();
        }
    }

    // Takes all watches out, and frees their memory.
    pub(crate) fn free(&mut self, alloc: Global) {
        for list in self.lists.iter_mut() {
            *list = Vec::new(alloc);
        }
    }
}
