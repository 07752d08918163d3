//! Which clauses to look at when a literal becomes false.
use gipsat_cnf::Literal;
use std::alloc::{AllocError, Global};
use std::mem;

// A clause that is to be looked at, and a literal of it: while that is true, there is no need to.
#[derive(Clone, Copy)]
pub(crate) struct Watch {
    pub id: usize,
    pub blocker: Literal,
}

// For each literal the clauses that watch it. A clause watches its first two literals.
#[derive(Drop)]
pub(crate) struct Watches {
    lists: Vec<Vec<Watch>>,
}

impl Watches {
    // Of no clause, over no variable.
    pub(crate) fn new(alloc: Global) -> Self {
        Watches {
            lists: Vec::new(alloc),
        }
    }

    // Has room for so many variables, if there are more than before.
    pub(crate) fn cover(&mut self, alloc: Global, variables: usize) -> Result<(), AllocError> {
        for _ in self.lists.len()..variables.saturating_mul(2) {
            self.lists.push(Vec::new(alloc))?;
        }
        Ok(())
    }

    // Adds a watch of a literal.
    #[inline]
    pub(crate) fn add(&mut self, l: Literal, watch: Watch) -> Result<(), AllocError> {
        if let Some(list) = self.lists.get_mut(l.code()) {
            list.push(watch)?;
        }
        Ok(())
    }

    // Lets a clause watch two literals.
    pub(crate) fn watch(
        &mut self,
        id: usize,
        first: Literal,
        second: Literal,
    ) -> Result<(), AllocError> {
        self.add(
            first,
            Watch {
                id,
                blocker: second,
            },
        )?;
        self.add(second, Watch { id, blocker: first })
    }

    // Takes the watches of a literal out.
    pub(crate) fn take(&mut self, alloc: Global, l: Literal) -> Vec<Watch> {
        match self.lists.get_mut(l.code()) {
            Some(list) => mem::replace(list, Vec::new(alloc)),
            None => Vec::new(alloc),
        }
    }

    // Puts the watches of a literal back.
    pub(crate) fn put(&mut self, l: Literal, list: Vec<Watch>) {
        if let Some(place) = self.lists.get_mut(l.code()) {
            *place = list;
        }
    }

    // Names the clauses by their new ids, and forgets those that are gone.
    pub(crate) fn renumber(&mut self, ids: &[usize]) {
        for list in self.lists.iter_mut() {
            renumber(list, ids);
        }
    }
}

// Names the clauses of one list by their new ids, and forgets those that are gone.
fn renumber(list: &mut Vec<Watch>, ids: &[usize]) {
    let mut kept: usize = 0;
    for place in 0..list.len() {
        let Some(Watch { id, blocker }) = list.get(place).copied() else {
            break;
        };
        let id = new_id(ids, id);
        if id == GONE {
            continue;
        }
        if let Some(slot) = list.get_mut(kept) {
            *slot = Watch { id, blocker };
        }
        kept = kept.saturating_add(1);
    }
    list.truncate(kept);
}

// The new id of a clause that is gone.
pub(crate) const GONE: usize = usize::MAX;

// The new id of a clause.
fn new_id(ids: &[usize], id: usize) -> usize {
    match ids.get(id) {
        Some(id) => *id,
        None => GONE,
    }
}
