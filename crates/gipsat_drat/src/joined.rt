//! The names of steps in a proof that is joined of several, and its text. No verdict rests on it: each step is checked
//! under the name that it is written with.

use crate::error::{Failure, Flaw, Stop};
use crate::hint_list::{Hint, HintList};
use crate::join::PartError;
use crate::lrat::LratChecker;
use crate::lrat_writer::{LratFormat, flush, write_deleted_names, write_hinted};
use crate::task::BUFFER_SIZE;
use gipsat_cnf::{Cnf, Literal};
use std::alloc::{AllocError, Global};
use std::io::Write;

// The greatest name: those that are written have 32 bits.
const GREATEST_NAME: u64 = u32::MAX as u64;

// What has been joined.
pub(crate) struct JoinedSteps {
    // How many clauses the formula has.
    given: u64,
    // The cubes, and for each the name of the clause that excludes it, 0 where there is none so far.
    cubes: Cnf,
    excluded: Vec<u64>,
    // The greatest name of all that were given.
    last: u64,
    // What is added to the name of a step that is joined.
    shift: u64,
    // Whether the steps are those of the cover, in which the clauses behind the formula's exclude the cubes.
    is_cover: bool,
    // The names that the steps of the part were given, and its last clause.
    added: Vec<u64>,
    clause: Vec<Literal>,
    format: LratFormat,
    // What was not written yet.
    bytes: Vec<u8>,
}

// One call in its owners' proofs, in place of one for each field.
impl Drop for JoinedSteps {
    fn drop(self) {
        let JoinedSteps {
            given: _,
            cubes,
            excluded,
            last: _,
            shift: _,
            is_cover: _,
            added,
            clause,
            format: _,
            bytes,
        } = self;
    }
}

impl JoinedSteps {
    // Of no step, about so many clauses.
    pub(crate) fn new(
        alloc: Global,
        given: u64,
        cubes: Cnf,
        format: LratFormat,
    ) -> Result<Self, AllocError> {
        let mut excluded = Vec::new(alloc);
        excluded.resize(cubes.len(), 0)?;
        Ok(JoinedSteps {
            given,
            cubes,
            excluded,
            last: given,
            shift: 0,
            is_cover: false,
            added: Vec::new(alloc),
            clause: Vec::new(alloc),
            format,
            bytes: Vec::new(alloc),
        })
    }

    // How many clauses the formula has.
    pub(crate) fn given(&self) -> usize {
        self.given as usize
    }

    // The number of the first cube that no clause excludes, from 1 on.
    pub(crate) fn missing(&self) -> Option<usize> {
        for place in 0..self.excluded.len() {
            if self.excluded.get(place).copied() == Some(0) {
                return Some(place.saturating_add(1));
            }
        }
        None
    }

    // A part begins.
    pub(crate) fn begin_part(&mut self) {
        self.shift = self.last.saturating_sub(self.given);
        self.added.clear();
        self.clause.clear();
    }

    // The cover begins.
    pub(crate) fn begin_cover(&mut self) {
        self.begin_part();
        self.is_cover = true;
        self.shift = self.shift.saturating_sub(self.excluded.len() as u64);
    }

    // The name of a step, or of a clause, in the joined proof. None for a name that is too great.
    fn name(&self, name: u64) -> Option<u64> {
        if name <= self.given {
            return Some(name);
        }
        let place = name.saturating_sub(self.given).saturating_sub(1) as usize;
        if self.is_cover && place < self.excluded.len() {
            return self.excluded.get(place).copied();
        }
        let name = name.saturating_add(self.shift);
        if name > GREATEST_NAME {
            return None;
        }
        Some(name)
    }

    // Names a step and its hints, and writes it.
    pub(crate) fn add(
        &mut self,
        name: &mut u64,
        clause: &[Literal],
        hints: &mut HintList,
    ) -> Result<(), Stop> {
        for place in 0..hints.len() {
            if let Some(hint) = hints.get_mut(place) {
                hint.name = self.name(hint.name).ok_or(Stop::Refused(Flaw::Number))?;
            }
        }
        *name = self.name(*name).ok_or(Stop::Refused(Flaw::Number))?;
        self.last = self.last.max(*name);
        self.added.push(*name)?;
        self.clause.clear();
        self.clause.extend_from_slice(clause)?;
        write_hinted(
            &mut self.bytes,
            self.format,
            *name,
            clause,
            hints.as_slice(),
        )?;
        Ok(())
    }

    // Names clauses to delete, and writes that they are deleted: those that the part has added.
    pub(crate) fn delete(&mut self, names: &mut HintList) -> Result<(), Stop> {
        let least = self.added.first().copied().unwrap_or(u64::MAX);
        let mut kept = 0usize;
        for place in 0..names.len() {
            let Some(hint) = names.get(place) else {
                continue;
            };
            let name = self.name(hint.name).ok_or(Stop::Refused(Flaw::Number))?;
            if name < least {
                continue;
            }
            if let Some(slot) = names.get_mut(kept) {
                *slot = Hint { name, ..hint };
            }
            kept = kept.saturating_add(1);
        }
        names.truncate(kept);
        self.write_deletion(names.as_slice())?;
        Ok(())
    }

    // Writes that clauses are deleted.
    pub(crate) fn write_deletion(&mut self, names: &[Hint]) -> Result<(), AllocError> {
        write_deleted_names(&mut self.bytes, self.format, self.last, names)
    }

    // Ends a part: the number of the first cube that its last clause excludes, from 1 on, if it is one that none excluded.
    pub(crate) fn end_part(&mut self) -> Result<usize, PartError> {
        let mut found = None;
        let mut earlier = None;
        for place in 0..self.cubes.len() {
            if !self.excludes(place) {
                continue;
            }
            let number = place.saturating_add(1);
            match self.excluded.get_mut(place) {
                Some(name) if *name == 0 => {
                    *name = self.last;
                    found = found.or(Some(number));
                }
                _ => earlier = earlier.or(Some(number)),
            }
        }
        match (found, earlier) {
            _ if self.added.is_empty() => Err(PartError::OtherClause),
            (Some(number), _) => Ok(number),
            (None, Some(number)) => Err(PartError::Twice(number)),
            (None, None) => Err(PartError::OtherClause),
        }
    }

    // Whether the last clause of the part says no more than that not all literals of the cube at a place are true.
    fn excludes(&self, place: usize) -> bool {
        place < self.cubes.len() && excludes(&self.clause, self.cubes.clause(place))
    }

    // The names of the clauses that a part has added and a checker holds, but for the last one.
    pub(crate) fn left(
        &self,
        alloc: Global,
        checker: &LratChecker,
    ) -> Result<Vec<Hint>, AllocError> {
        let mut left = Vec::new(alloc);
        for name in self.added.iter() {
            if *name != self.last && checker.has(*name) {
                left.push(Hint {
                    name: *name,
                    positive: true,
                })?;
            }
        }
        Ok(left)
    }

    // Writes what was not written yet, once it is much.
    pub(crate) fn flush_much<W: Write>(&mut self, writer: &mut W) -> Result<(), Failure> {
        if self.bytes.len() < BUFFER_SIZE {
            return Ok(());
        }
        flush(&mut self.bytes, writer)
    }

    // Writes what was not written yet.
    pub(crate) fn flush<W: Write>(&mut self, writer: &mut W) -> Result<(), Failure> {
        flush(&mut self.bytes, writer)
    }
}

// Whether a clause says no more than that not all literals of a cube are true.
fn excludes(clause: &[Literal], cube: &[Literal]) -> bool {
    for l in clause {
        if !has(cube, l.negated()) {
            return false;
        }
    }
    true
}

// Whether a list has a literal.
fn has(list: &[Literal], l: Literal) -> bool {
    for other in list {
        if *other == l {
            return true;
        }
    }
    false
}
