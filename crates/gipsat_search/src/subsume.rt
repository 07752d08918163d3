//! Subsumption: clauses that follow from another one, alone or but for one literal (Eén and Biere, 2005).
ghost use Rattle.std.specs.Prelude.{◌^◌, ◌<◌};

use crate::derive::Resolution;
use crate::occurrences::Occurrences;
use crate::trail::Trail;
use gipsat_cnf::Literal;
use gipsat_kernel::Kernel;
use std::alloc::{AllocError, Global};

// A set of literals: a flag for each code.
#[derive(Drop)]
pub(crate) struct Marks {
    flags: Vec<bool>,
}

impl Marks {
    // Nothing is marked, of the literals of so many variables.
    pub(crate) fn new(alloc: Global, variables: usize) -> Result<Self, AllocError> {
        let mut flags = Vec::new(alloc);
        flags.resize(variables.saturating_mul(2), false)?;
        Ok(Marks { flags })
    }

    // Marks the literals of a clause that are not false, or takes their marks away.
    pub(crate) fn set(&mut self, trail: &Trail, clause: &[Literal], is_marked: bool) {
        for l in clause {
            if trail.is_unset(*l) {
                if let Some(flag) = self.flags.get_mut(l.code()) {
                    *flag = is_marked;
                }
            }
        }
    }

    // Whether a clause has a literal twice. Nothing may be marked.
    pub(crate) fn has_twice(&mut self, clause: &[Literal]) -> bool {
        let mut has_twice = false;
        for l in clause {
            if let Some(flag) = self.flags.get_mut(l.code()) {
                has_twice |= *flag;
                *flag = true;
            }
        }
        for l in clause {
            if let Some(flag) = self.flags.get_mut(l.code()) {
                *flag = false;
            }
        }
        has_twice
    }

    // Whether a literal is marked.
    pub(crate) fn has(&self, l: Literal) -> bool {
        matches!(self.flags.get(l.code()), Some(true))
    }
}

// What the marked clause says of another one: nothing, that it follows, or that it follows without a certain literal.
enum Relation {
    None,
    Subsumes,
    Strengthens(Literal),
}

// What the marked literals, which are so many, say of a clause.
fn relation_to(marks: &Marks, size: usize, clause: &[Literal]) -> Relation {
    let mut same = 0usize;
    let mut flips = 0usize;
    let mut flipped = None;
    for l in clause {
        if marks.has(*l) {
            same = same.saturating_add(1);
        } else if marks.has(l.negated()) {
            flips = flips.saturating_add(1);
            flipped = Some(*l);
        }
    }
    if same >= size {
        return Relation::Subsumes;
    }
    match flipped {
        Some(l) if flips == 1 && same.saturating_add(1) >= size => Relation::Strengthens(l),
        _ => Relation::None,
    }
}

// The literal of a clause whose variable the fewest clauses have.
fn rarest(trail: &Trail, occurrences: &Occurrences, clause: &[Literal]) -> Option<Literal> {
    let mut rarest = None;
    let mut least = usize::MAX;
    for l in clause {
        let count = occurrences.count_both(*l);
        if trail.is_unset(*l) && count < least {
            rarest = Some(*l);
            least = count;
        }
    }
    rarest
}

// What a clause says of those that take part: which follow from it, and which follow without a literal.
pub(crate) struct Subsumption {
    pub subsumed: Vec<u32>,
    pub strengthened: Vec<Resolution>,
}

// One call in its owners' proofs, in place of one for each field.
impl Drop for Subsumption {
    fn drop(self) {
        let Subsumption {
            subsumed,
            strengthened,
        } = self;
    }
}

impl Subsumption {
    // Of no clause.
    pub(crate) fn new(alloc: Global) -> Self {
        Subsumption {
            subsumed: Vec::new(alloc),
            strengthened: Vec::new(alloc),
        }
    }
}

// Finds what the clause at a place says of the others, within so many steps.
pub(crate) fn find_subsumed(
    kernel: &Kernel,
    trail: &Trail,
    occurrences: &Occurrences,
    marks: &mut Marks,
    steps: &mut u64,
    place: u32,
    found: &mut Subsumption,
) -> Result<(), AllocError> {
    if !occurrences.has(place) {
        return Ok(());
    }
    let Some(clause) = kernel.clause(place as usize) else {
        return Ok(());
    };
    *steps = steps.saturating_sub(clause.len() as u64);
    let Some(l) = rarest(trail, occurrences, clause) else {
        return Ok(());
    };
    marks.set(trail, clause, true);
    let first = look_through(kernel, occurrences, marks, steps, place, l, found);
    let second = look_through(kernel, occurrences, marks, steps, place, l.negated(), found);
    marks.set(trail, clause, false);
    first?;
    second
}

// Finds what the marked clause at a place says of the clauses that have a literal.
fn look_through(
    kernel: &Kernel,
    occurrences: &Occurrences,
    marks: &Marks,
    steps: &mut u64,
    place: u32,
    l: Literal,
    found: &mut Subsumption,
) -> Result<(), AllocError> {
    let outline = occurrences.outline(place);
    for other in occurrences.of(l) {
        *steps = steps.saturating_sub(1);
        if *other == place || !occurrences.outline(*other).may_cover(outline) {
            continue;
        }
        let Some(clause) = kernel.clause(*other as usize) else {
            continue;
        };
        *steps = steps.saturating_sub(clause.len() as u64);
        match relation_to(marks, outline.size as usize, clause) {
            Relation::None => {}
            Relation::Subsumes => found.subsumed.push(*other)?,
            Relation::Strengthens(without) => found.strengthened.push(Resolution {
                first: *other,
                second: place,
                literal: without,
            })?,
        }
    }
    Ok(())
}
