//! Which clause of the kernel has a name of the proof, or which variable has a number of it. No verdict rests on it: by a
//! wrong answer a step fails, or says something else, which is shown all the same.

use crate::watches::GONE;
use std::alloc::{AllocError, Global};

// A name, 0 if there is none, and the id of its clause, `GONE` if that was deleted.
#[derive(Clone, Copy)]
struct Slot {
    name: u64,
    id: usize,
}

const FREE: Slot = Slot { name: 0, id: GONE };

// The ids by names, in a table of open addressing that takes the memory of the clauses which were not deleted. No name
// is given twice, so that the slot of a deleted clause stays as it is until the table is made anew.
#[derive(Drop)]
pub(crate) struct Names {
    // None, or as many as a power of 2, and half of them are free at least.
    slots: Vec<Slot>,
    // How many are not free.
    used: usize,
    // How many clauses there are.
    len: usize,
}

// How many slots there are with the first clause.
const LEAST_SLOTS: usize = 1024;

impl Names {
    // Of no clause.
    pub(crate) fn new(alloc: Global) -> Self {
        Names {
            slots: Vec::new(alloc),
            used: 0,
            len: 0,
        }
    }

    // The place where the search for a name begins.
    #[inline]
    fn first(&self, name: u64) -> usize {
        let mixed = name.wrapping_mul(0x9e37_79b9_7f4a_7c15) >> 24;
        self.wrapped(mixed as usize)
    }

    // A place among the slots.
    #[inline]
    fn wrapped(&self, place: usize) -> usize {
        place & self.slots.len().saturating_sub(1)
    }

    // The place of a name's slot, or of the free one where it belongs.
    #[inline]
    fn place(&self, name: u64) -> Option<usize> {
        let mut place = self.first(name);
        for _ in 0..self.slots.len() {
            let slot = *self.slots.get(place)?;
            if slot.name == name || slot.name == 0 {
                return Some(place);
            }
            place = self.wrapped(place.wrapping_add(1));
        }
        None
    }

    // The id of the clause with a name, if there is one.
    #[inline]
    pub(crate) fn get(&self, name: u64) -> Option<usize> {
        let slot = *self.slots.get(self.place(name)?)?;
        if slot.id == GONE {
            return None;
        }
        Some(slot.id)
    }

    // Writes the slot of a name.
    fn set(&mut self, name: u64, id: usize) {
        let Some(place) = self.place(name) else {
            return;
        };
        if let Some(slot) = self.slots.get_mut(place) {
            *slot = Slot { name, id };
        }
    }

    // Gives a clause a name that none had.
    pub(crate) fn insert(&mut self, alloc: Global, name: u64, id: usize) -> Result<(), AllocError> {
        if self.used >= self.slots.len() / 2 {
            self.rebuild(alloc)?;
        }
        self.used = self.used.saturating_add(1);
        self.len = self.len.saturating_add(1);
        self.set(name, id);
        Ok(())
    }

    // Takes the name of a clause out: its id, if there is one.
    pub(crate) fn remove(&mut self, name: u64) -> Option<usize> {
        let id = self.get(name)?;
        self.set(name, GONE);
        self.len = self.len.saturating_sub(1);
        Some(id)
    }

    // Makes a table of the clauses that there are, with room for as many again.
    fn rebuild(&mut self, alloc: Global) -> Result<(), AllocError> {
        let wanted = self.len.saturating_mul(4);
        let mut size = LEAST_SLOTS;
        for _ in 0..usize::BITS {
            if size < wanted {
                size = size.saturating_mul(2);
            }
        }
        let slots = vec![in alloc; FREE; size]?;
        let old = std::mem::replace(&mut self.slots, slots);
        for slot in old.iter() {
            if slot.id != GONE {
                self.set(slot.name, slot.id);
            }
        }
        self.used = self.len;
        Ok(())
    }

    // Names the clauses by their new ids.
    pub(crate) fn renumber(&mut self, ids: &[usize]) {
        for slot in self.slots.iter_mut() {
            if slot.id != GONE {
                slot.id = ids.get(slot.id).copied().unwrap_or(GONE);
            }
        }
    }
}

// Which clause has a name, where names rise: most are not far from one another.
#[derive(Drop)]
pub(crate) struct RisingNames {
    // The clauses whose names are below `first`.
    older: Names,
    first: u64,
    // The ids of the clauses with the names from `first` on, or `NO_ID`.
    recent: Vec<u32>,
    // How many of these there are.
    held: usize,
}

const NO_ID: u32 = u32::MAX;

// Between two names that follow each other in the list there are so many at most.
const GREATEST_GAP: u64 = 8;

// So many entries without a clause are few.
const FEW_ENTRIES: usize = 65_536;

impl RisingNames {
    // Of no clause.
    pub(crate) fn new(alloc: Global) -> Self {
        RisingNames {
            older: Names::new(alloc),
            first: 0,
            recent: Vec::new(alloc),
            held: 0,
        }
    }

    // The id of the clause with a name, if there is one.
    #[inline]
    pub(crate) fn get(&self, name: u64) -> Option<usize> {
        match self.recent.get(name.wrapping_sub(self.first) as usize) {
            Some(id) if *id == NO_ID => None,
            Some(id) => Some(*id as usize),
            None => self.older.get(name),
        }
    }

    // Gives a clause a name that is greater than all before.
    pub(crate) fn insert(&mut self, alloc: Global, name: u64, id: usize) -> Result<(), AllocError> {
        let id = u32::try_from(id).map_err(|_| AllocError)?;
        let next = self.first.saturating_add(self.recent.len() as u64);
        let gap = name.saturating_sub(next);
        if gap > GREATEST_GAP {
            self.retire(alloc)?;
            self.first = name;
        } else {
            for _ in 0..gap {
                self.recent.push(NO_ID)?;
            }
        }
        self.recent.push(id)?;
        self.held = self.held.saturating_add(1);
        Ok(())
    }

    // Takes the name of a clause out: its id, if there is one.
    pub(crate) fn remove(&mut self, name: u64) -> Option<usize> {
        match self.recent.get_mut(name.wrapping_sub(self.first) as usize) {
            Some(id) if *id == NO_ID => None,
            Some(id) => {
                let old = *id;
                *id = NO_ID;
                self.held = self.held.saturating_sub(1);
                Some(old as usize)
            }
            None => self.older.remove(name),
        }
    }

    // Moves the names of the list to the table.
    fn retire(&mut self, alloc: Global) -> Result<(), AllocError> {
        let mut name = self.first;
        for id in self.recent.iter() {
            if *id != NO_ID {
                self.older.insert(alloc, name, *id as usize)?;
            }
            name = name.saturating_add(1);
        }
        self.first = name;
        self.recent.clear();
        self.held = 0;
        Ok(())
    }

    // Moves them if most of the list has no clause.
    pub(crate) fn retire_if_sparse(&mut self, alloc: Global) -> Result<(), AllocError> {
        let few = self.held.saturating_add(FEW_ENTRIES);
        if self.recent.len() / 16 > few {
            self.retire(alloc)?;
        }
        Ok(())
    }

    // Names the clauses by their new ids.
    pub(crate) fn renumber(&mut self, ids: &[usize]) {
        for id in self.recent.iter_mut() {
            if *id != NO_ID {
                let new = ids.get(*id as usize).copied().unwrap_or(GONE);
                *id = u32::try_from(new).unwrap_or(NO_ID);
            }
        }
        self.older.renumber(ids);
    }
}
