//! What a search knows of each working clause: where its copy lies, which of its literals are watched, and what it is
//! worth.

use crate::arena::Arena;
use crate::settings::SETTINGS;
use crate::trail::short;
use gipsat_cnf::Literal;
use std::alloc::{AllocError, Global};

// The home of a clause that has none in the arena: it is not watched, or has two literals.
const NONE: u32 = u32::MAX;

// Which part a clause takes.
#[derive(Clone, Copy)]
pub(crate) enum Status {
    // It is original, or stands for original ones as a resolvent, and is watched for good.
    Kept,
    // It was learned from a conflict.
    Learned,
    // It is not watched, or not any more.
    Deleted,
    // It is not watched, since a variable was eliminated with it; but it is kept, and may be watched again.
    Eliminated,
}

// By what a reduction judges a learned clause.
#[derive(Clone, Copy)]
pub(crate) struct Rating {
    pub activity: f32,
    // The least glue that was met, at most 255.
    pub glue: u8,
    // How many reductions it stays for since it was used.
    pub turns: u8,
    status: Status,
}

impl Rating {
    // Of a clause that is not learned.
    fn of(status: Status) -> Self {
        Rating {
            activity: 0.0,
            glue: 0,
            turns: 0,
            status,
        }
    }
}

// What is known of the working clauses, by their ids.
pub(crate) struct Clauses {
    // Those of three literals and more that are watched.
    pub arena: Arena,
    homes: Vec<u32>,
    ratings: Vec<Rating>,
    // Clauses that are to be watched again.
    waiting: Vec<u32>,
    // What a bump adds to a clause's activity. It grows, so that recent bumps count more.
    increment: f32,
}

// One call in its owners' proofs, in place of one for each field.
impl Drop for Clauses {
    fn drop(self) {
        let Clauses {
            arena,
            homes,
            ratings,
            waiting,
            increment: _,
        } = self;
    }
}

// Once a bump would add as much, all activities are scaled down.
const GREATEST_INCREMENT: f32 = 1e20;

// For how many reductions a clause of this glue stays after its use.
fn turns_of(glue: u8) -> u8 {
    if u32::from(glue) <= SETTINGS.low_glue {
        2
    } else {
        1
    }
}

// A glue in one byte.
fn in_byte(glue: u32) -> u8 {
    u8::try_from(glue).unwrap_or(u8::MAX)
}

impl Clauses {
    // Of no clause. It takes no memory.
    pub(crate) fn new(alloc: Global) -> Self {
        Clauses {
            arena: Arena::new(alloc),
            homes: Vec::new(alloc),
            ratings: Vec::new(alloc),
            waiting: Vec::new(alloc),
            increment: 1.0,
        }
    }

    // How many clauses are watched or were looked at for that. Later ones are new.
    pub(crate) fn attached(&self) -> usize {
        self.homes.len()
    }

    // How many clauses have a status.
    pub(crate) fn known(&self) -> usize {
        self.ratings.len()
    }

    // The home of a clause in the arena. No clause is there if it has none.
    fn home(&self, id: usize) -> usize {
        match self.homes.get(id) {
            Some(home) => *home as usize,
            None => NONE as usize,
        }
    }

    // Copies a clause, whose literals at two places of it are watched, into the arena: its home.
    pub(crate) fn settle(
        &mut self,
        clause: &[Literal],
        id: usize,
        first: usize,
        second: usize,
    ) -> Result<u32, AllocError> {
        let home = self.arena.push(short(id), clause, first, second)?;
        if let Some(old) = self.homes.get_mut(id) {
            *old = home;
        }
        Ok(home)
    }

    // The two watched literals of a clause, and the number by which a watch names it.
    pub(crate) fn watched(&self, clause: &[Literal], id: usize) -> Option<(Literal, Literal, u32)> {
        if clause.len() == 2 {
            return Some((*clause.first()?, *clause.last()?, short(id)));
        }
        let home = self.home(id);
        let (first, second) = self.arena.watched(home)?;
        Some((first, second, short(home)))
    }

    // The next clause is not watched yet, and has this rating, unless its rating is known.
    fn push(&mut self, rating: Rating) -> Result<(), AllocError> {
        if self.ratings.len() <= self.homes.len() {
            self.ratings.push(rating)?;
        }
        self.homes.push(NONE)?;
        Ok(())
    }

    // The next clause is to be watched for good, unless it has another status.
    pub(crate) fn push_kept(&mut self) -> Result<(), AllocError> {
        self.push(Rating::of(Status::Kept))
    }

    // The next clause is to be watched, and was learned with this glue, unless it has another status.
    pub(crate) fn push_learned(&mut self, glue: u32) -> Result<(), AllocError> {
        let glue = in_byte(glue);
        let rating = Rating {
            activity: self.increment,
            glue,
            turns: turns_of(glue),
            status: Status::Learned,
        };
        self.push(rating)
    }

    // The next clause has this status, unless it has another one, and is not watched yet.
    pub(crate) fn push_unwatched(&mut self, status: Status) -> Result<(), AllocError> {
        self.push(Rating::of(status))
    }

    // The next clause that has no status is watched for good.
    pub(crate) fn keep_next(&mut self) -> Result<(), AllocError> {
        self.ratings.push(Rating::of(Status::Kept))?;
        Ok(())
    }

    // The next clause, which has so many literals and no status yet, stands for a learned one, which is deleted.
    pub(crate) fn replace(&mut self, id: usize, literals: usize) -> Result<(), AllocError> {
        let Some(rating) = self.rating(id) else {
            return Ok(());
        };
        let glue = rating.glue.min(in_byte(short(literals.saturating_sub(1))));
        self.ratings.push(Rating { glue, ..rating })?;
        self.delete(id);
        Ok(())
    }

    // The rating of a learned clause.
    pub(crate) fn rating(&self, id: usize) -> Option<Rating> {
        let rating = *self.ratings.get(id)?;
        match rating.status {
            Status::Learned => Some(rating),
            _ => None,
        }
    }

    // The status of a clause.
    pub(crate) fn status(&self, id: usize) -> Status {
        match self.ratings.get(id) {
            Some(rating) => rating.status,
            None => Status::Deleted,
        }
    }

    // Sets the status of a clause.
    pub(crate) fn set_status(&mut self, id: usize, status: Status) {
        if let Some(rating) = self.ratings.get_mut(id) {
            rating.status = status;
        }
    }

    // Whether a clause is watched for good.
    pub(crate) fn is_kept(&self, id: usize) -> bool {
        matches!(self.status(id), Status::Kept)
    }

    // Whether a clause was deleted.
    pub(crate) fn is_deleted(&self, id: usize) -> bool {
        match self.ratings.get(id) {
            Some(rating) => matches!(rating.status, Status::Deleted),
            None => false,
        }
    }

    // Whether a clause is watched, or is to be.
    pub(crate) fn is_watched(&self, id: usize) -> bool {
        matches!(self.status(id), Status::Kept | Status::Learned)
    }

    // Deletes a clause. It loses its watches when they are visited.
    pub(crate) fn delete(&mut self, id: usize) {
        self.set_status(id, Status::Deleted);
        let home = self.home(id);
        self.arena.empty(home);
    }

    // An eliminated clause is to be watched again: with the others, where all are to be watched anew.
    pub(crate) fn restore(&mut self, id: u32) -> Result<(), AllocError> {
        self.set_status(id as usize, Status::Kept);
        if (id as usize) < self.homes.len() {
            self.waiting.push(id)?;
        }
        Ok(())
    }

    // The clause that is to be watched again, if there is one; it does not wait any more.
    pub(crate) fn next_waiting(&mut self) -> Option<u32> {
        self.waiting.pop()
    }

    // A clause is to be watched again after all.
    pub(crate) fn wait(&mut self, id: u32) -> Result<(), AllocError> {
        self.waiting.push(id)?;
        Ok(())
    }

    // Lets the last clause be watched anew, by its status.
    pub(crate) fn detach_last(&mut self) {
        self.homes.pop();
    }

    // Lets all clauses be watched anew, by their statuses.
    pub(crate) fn detach_all(&mut self) {
        self.arena.clear();
        self.homes.clear();
        self.waiting.clear();
    }

    // A learned clause was used, and has this glue now.
    pub(crate) fn use_clause(&mut self, id: usize, glue: u32) {
        let increment = self.increment;
        if let Some(rating) = self.ratings.get_mut(id) {
            rating.glue = rating.glue.min(in_byte(glue));
            rating.turns = turns_of(rating.glue);
            rating.activity += increment;
        }
    }

    // A learned clause has stayed at a reduction.
    pub(crate) fn age(&mut self, id: usize) {
        if let Some(rating) = self.ratings.get_mut(id) {
            rating.turns = rating.turns.saturating_sub(1);
        }
    }

    // Lets later bumps count more than earlier ones.
    pub(crate) fn decay(&mut self) {
        self.increment += self.increment * SETTINGS.clause_growth;
        if self.increment >= GREATEST_INCREMENT {
            self.increment /= GREATEST_INCREMENT;
            for rating in self.ratings.iter_mut() {
                rating.activity /= GREATEST_INCREMENT;
            }
        }
    }

    // Drops what is known of the clauses that don't stay. All are to be watched anew.
    pub(crate) fn retain(&mut self, stays: &[bool]) {
        self.detach_all();
        let mut next = 0usize;
        for id in 0..self.ratings.len() {
            let Some(rating) = self.ratings.get(id).copied() else {
                return;
            };
            if !matches!(stays.get(id), Some(false)) {
                if let Some(place) = self.ratings.get_mut(next) {
                    *place = rating;
                }
                next = next.saturating_add(1);
            }
        }
        self.ratings.truncate(next);
    }
}
