//! An arena: the watched clauses of three literals and more, each in one place of memory.

use gipsat_cnf::Literal;
use std::alloc::{AllocError, Global};

// What stands before the literals of a clause: its id, where it ends, and from where on the next literal is looked for
// that is not false.
#[derive(Clone, Copy)]
pub(crate) struct Header {
    pub id: u32,
    pub end: u32,
    pub from: u32,
}

// How many words a header takes, and where it has its parts.
pub(crate) const HEADER: usize = 3;

const END: usize = 1;

const FROM: usize = 2;

// Copies of clauses, one behind another: a header, the two watched literals, and the others. A clause is named by the
// place where its header begins, its home. A number below 2^31 stands in a word as a variable.
#[derive(Drop)]
pub(crate) struct Arena {
    words: Vec<Literal>,
}

// A number as a word.
#[inline]
fn word(number: u32) -> Literal {
    Literal::new(number % (1 << 31), false)
}

impl Arena {
    // Of no clause. It takes no memory.
    pub(crate) fn new(alloc: Global) -> Self {
        Arena {
            words: Vec::new(alloc),
        }
    }

    // The word at a place.
    #[inline]
    pub(crate) fn at(&self, place: usize) -> Option<Literal> {
        self.words.get(place).copied()
    }

    // Writes the word at a place.
    #[inline]
    fn set(&mut self, place: usize, new: Literal) {
        if let Some(word) = self.words.get_mut(place) {
            *word = new;
        }
    }

    // The header at a home.
    #[inline]
    pub(crate) fn header(&self, home: usize) -> Option<Header> {
        Some(Header {
            id: self.at(home)?.variable(),
            end: self.at(home.saturating_add(END))?.variable(),
            from: self.at(home.saturating_add(FROM))?.variable(),
        })
    }

    // The two watched literals of the clause at a home.
    #[inline]
    pub(crate) fn watched(&self, home: usize) -> Option<(Literal, Literal)> {
        let first = home.saturating_add(HEADER);
        Some((self.at(first)?, self.at(first.saturating_add(1))?))
    }

    // Copies a clause, whose literals at two places of it are watched: its home.
    pub(crate) fn push(
        &mut self,
        id: u32,
        clause: &[Literal],
        first: usize,
        second: usize,
    ) -> Result<u32, AllocError> {
        let home = u32::try_from(self.words.len()).map_err(|_| AllocError)?;
        let start = home.saturating_add(HEADER as u32);
        let len = u32::try_from(clause.len()).map_err(|_| AllocError)?;
        let end = start.saturating_add(len);
        if end >= 1 << 31 {
            return Err(AllocError);
        }
        self.words.push(word(id))?;
        self.words.push(word(end))?;
        self.words.push(word(start.saturating_add(2)))?;
        self.push_at(clause, first)?;
        self.push_at(clause, second)?;
        for (place, l) in clause.iter().enumerate() {
            if place != first && place != second {
                self.words.push(*l)?;
            }
        }
        Ok(home)
    }

    // Adds the literal at a place of a clause.
    fn push_at(&mut self, clause: &[Literal], place: usize) -> Result<(), AllocError> {
        if let Some(l) = clause.get(place) {
            self.words.push(*l)?;
        }
        Ok(())
    }

    // Goes on from a place, when a literal is looked for next.
    #[inline]
    pub(crate) fn go_on_from(&mut self, home: usize, place: u32) {
        self.set(home.saturating_add(FROM), word(place));
    }

    // Watches the literal at a place in the place of a false one, beside another.
    #[inline]
    pub(crate) fn watch(
        &mut self,
        home: usize,
        other: Literal,
        new: Literal,
        place: u32,
        falsified: Literal,
    ) {
        let first = home.saturating_add(HEADER);
        self.set(first, other);
        self.set(first.saturating_add(1), new);
        self.set(place as usize, falsified);
    }

    // Lets the clause at a home have no literal, if there is one.
    pub(crate) fn empty(&mut self, home: usize) {
        self.set(home.saturating_add(END), word(0));
    }

    // Drops all clauses. They keep their memory.
    pub(crate) fn clear(&mut self) {
        self.words.clear();
    }

    // Drops all clauses, and frees their memory.
    pub(crate) fn free(&mut self, alloc: Global) {
        self.words = Vec::new(alloc);
    }
}
