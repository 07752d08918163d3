//! Cubes: literals that are assumed, so that a formula falls into parts. They are chosen by lookahead (M. Heule, O.
//! Kullmann, S. Wieringa and A. Biere: Cube and Conquer, 2011), and only guide: no answer rests on them.

use crate::lookahead::Lookahead;
use crate::names::{Renumbered, renumber};
use crate::naming::name_of;
use gipsat_cnf::{Cnf, Literal};
use gipsat_dimacs::write_clause;
use std::alloc::{AllocError, Global};

/// The text of at most so many cubes of a formula, for `most` above 0: a line `p inccnf`, and a line `a .. 0` for each.
///
/// They are the leaves of a tree. At each inner node a variable is true or false, and a leaf is left out only where
/// propagation in the formula refutes it. So each assignment that satisfies the formula makes all literals of a cube
/// true.
///
/// # Errors
/// `AllocError` where memory is refused.
pub fn cubes_text(alloc: Global, clauses: Cnf, most: usize) -> Result<Vec<u8>, AllocError> {
    let Renumbered { names, clauses } = renumber(alloc, clauses)?;
    let mut lookahead = Lookahead::new(alloc, &clauses)?;
    let mut tree = CubeTree::new(alloc);
    if !lookahead.has_conflict() {
        tree.grow(alloc, &mut lookahead, most)?;
    }
    tree.text(alloc, &names)
}

// A leaf of a tree.
#[derive(Clone, Copy)]
struct Leaf {
    // Where its literals are.
    place: usize,
    // How hard it counts.
    hardness: u64,
    // The literal by which it splits. None if it stays as it is.
    split: Option<Literal>,
}

// A tree.
#[derive(Drop)]
struct CubeTree {
    // The literals of its nodes.
    cubes: Cnf,
    leaves: Vec<Leaf>,
}

impl CubeTree {
    // Without a leaf.
    fn new(alloc: Global) -> Self {
        CubeTree {
            cubes: Cnf::new(alloc),
            leaves: Vec::new(alloc),
        }
    }

    // Splits the hardest leaf, until there are so many.
    fn grow(
        &mut self,
        alloc: Global,
        lookahead: &mut Lookahead<'_>,
        most: usize,
    ) -> Result<(), AllocError> {
        let mut cube = Vec::new(alloc);
        self.add(alloc, lookahead, &mut cube)?;
        for _ in 1..most {
            let Some(index) = self.hardest() else {
                return Ok(());
            };
            self.split(alloc, lookahead, index, &mut cube)?;
        }
        Ok(())
    }

    // Adds a leaf of these literals.
    fn add(
        &mut self,
        alloc: Global,
        lookahead: &mut Lookahead<'_>,
        cube: &mut Vec<Literal>,
    ) -> Result<(), AllocError> {
        let root = lookahead.assigned();
        for l in cube.iter() {
            lookahead.assume(*l)?;
        }
        let found = look(alloc, lookahead, cube)?;
        let open = lookahead.open();
        lookahead.undo(root);
        let (hardness, split) = match found {
            Some(split) => (hardness(open, split.assigned), Some(split.literal)),
            None => (0, None),
        };
        let place = self.cubes.len();
        self.cubes.push(cube)?;
        self.leaves.push(Leaf {
            place,
            hardness,
            split,
        })?;
        Ok(())
    }

    // Where the hardest leaf is, of those that split.
    fn hardest(&self) -> Option<usize> {
        let mut found = None;
        let mut most = 0;
        for (index, leaf) in self.leaves.iter().enumerate() {
            if leaf.split.is_some() && leaf.hardness > most {
                most = leaf.hardness;
                found = Some(index);
            }
        }
        found
    }

    // The literals at a place.
    fn literals(&self, place: usize) -> &[Literal] {
        if place < self.cubes.len() {
            self.cubes.clause(place)
        } else {
            &[]
        }
    }

    // Splits a leaf.
    fn split(
        &mut self,
        alloc: Global,
        lookahead: &mut Lookahead<'_>,
        index: usize,
        cube: &mut Vec<Literal>,
    ) -> Result<(), AllocError> {
        let Some(leaf) = self.leaves.get(index).copied() else {
            return Ok(());
        };
        let Some(l) = leaf.split else {
            return Ok(());
        };
        self.leaves.swap_remove(index);
        for child in [l, l.negated()] {
            cube.clear();
            cube.extend_from_slice(self.literals(leaf.place))?;
            cube.push(child)?;
            self.add(alloc, lookahead, cube)?;
        }
        Ok(())
    }

    // The text of its leaves, whose variables have these names. Literals that others imply stay: by them propagation shows
    // that the leaves cover.
    fn text(&self, alloc: Global, names: &[u32]) -> Result<Vec<u8>, AllocError> {
        let mut text = Vec::new(alloc);
        let mut cube = Vec::new(alloc);
        text.extend_from_slice(b"p inccnf\n")?;
        for leaf in self.leaves.iter() {
            cube.clear();
            for l in self.literals(leaf.place) {
                cube.push(name_of(names, *l))?;
            }
            text.extend_from_slice(b"a ")?;
            write_clause(&mut text, &cube)?;
        }
        Ok(text)
    }
}

// At how many variables a node looks ahead, and how often it begins anew.
const CANDIDATES: usize = 64;

const ROUNDS: usize = 8;

// How a leaf splits.
#[derive(Clone, Copy)]
struct Split {
    literal: Literal,
    // How well it splits.
    score: u64,
    // How many literals its two values make true, multiplied.
    assigned: u64,
}

// How hard a leaf counts that has so many variables without a value, and splits so. Where a split makes many literals
// true, few splits more are needed.
fn hardness(open: usize, assigned: u64) -> u64 {
    let digits = u64::BITS - assigned.leading_zeros();
    (open as u64).saturating_mul(1024) / (64 + u64::from(digits))
}

// How the leaf of a cube splits, whose literals are true. None where it stays as it is. The negations of literals that
// propagation refutes are added to the cube.
fn look(
    alloc: Global,
    lookahead: &mut Lookahead<'_>,
    cube: &mut Vec<Literal>,
) -> Result<Option<Split>, AllocError> {
    for _ in 0..ROUNDS {
        let before = cube.len();
        let split = look_once(alloc, lookahead, cube)?;
        if cube.len() == before || split.is_none() {
            return Ok(split);
        }
    }
    Ok(None)
}

// The same. Where literals were added, the split is of no use.
fn look_once(
    alloc: Global,
    lookahead: &mut Lookahead<'_>,
    cube: &mut Vec<Literal>,
) -> Result<Option<Split>, AllocError> {
    let mut best: Option<Split> = None;
    let mut most = 0;
    for l in candidates(alloc, lookahead)?.iter() {
        if lookahead.is_set(*l) {
            continue;
        }
        let positive = outlook_on(lookahead, *l)?;
        let negative = outlook_on(lookahead, l.negated())?;
        match (positive, negative) {
            (Some(positive), Some(negative)) => {
                let split = split_by(*l, positive, negative);
                if split.score > most {
                    most = split.score;
                    best = Some(split);
                }
            }
            (Some(_), None) => force(lookahead, cube, *l)?,
            (None, Some(_)) => force(lookahead, cube, l.negated())?,
            (None, None) => return Ok(None),
        }
    }
    Ok(best)
}

// The split by a literal, of whose values this comes.
fn split_by(literal: Literal, positive: Outlook, negative: Outlook) -> Split {
    Split {
        literal,
        score: score_of(positive.score, negative.score),
        assigned: positive.assigned.saturating_mul(negative.assigned),
    }
}

// Adds a literal to a cube, whose negation propagation refutes.
fn force(
    lookahead: &mut Lookahead<'_>,
    cube: &mut Vec<Literal>,
    l: Literal,
) -> Result<(), AllocError> {
    lookahead.assume(l)?;
    cube.push(l)?;
    Ok(())
}

// What comes of a literal that is made true.
#[derive(Clone, Copy)]
struct Outlook {
    // How much is assigned and shortened.
    score: u64,
    // How many literals are true besides.
    assigned: u64,
}

// What would come of a literal. None where propagation refutes it.
fn outlook_on(lookahead: &mut Lookahead<'_>, l: Literal) -> Result<Option<Outlook>, AllocError> {
    let before = lookahead.assigned();
    let score = lookahead.assume(l)?;
    let assigned = lookahead.assigned().saturating_sub(before) as u64;
    let has_conflict = lookahead.has_conflict();
    lookahead.undo(before);
    if has_conflict {
        return Ok(None);
    }
    Ok(Some(Outlook { score, assigned }))
}

// How well a variable splits whose values have these scores.
fn score_of(yes: u64, no: u64) -> u64 {
    yes.saturating_mul(no)
        .saturating_add(yes)
        .saturating_add(no)
        .saturating_add(1)
}

// The variables whose literals weigh most.
fn candidates(alloc: Global, lookahead: &Lookahead<'_>) -> Result<Vec<Literal>, AllocError> {
    let weights = lookahead.weights(alloc)?;
    let mut ranked = Vec::new(alloc);
    for variable in 0..u32::try_from(weights.len() / 2).map_err(|_| AllocError)? {
        let l = literal(variable);
        if !lookahead.is_set(l) {
            let score = score_of(weight_of(&weights, l), weight_of(&weights, l.negated()));
            ranked.push((u64::MAX - score, variable))?;
        }
    }
    ranked.sort_unstable();
    ranked.truncate(CANDIDATES);
    let mut chosen = Vec::new(alloc);
    for (_, variable) in ranked.iter() {
        chosen.push(literal(*variable))?;
    }
    Ok(chosen)
}

// The literal of a variable; the greatest there is for one that has none.
fn literal(variable: u32) -> Literal {
    Literal::new(variable.min((1 << 31) - 1), true)
}

// The weight of a literal.
fn weight_of(weights: &[u64], l: Literal) -> u64 {
    weights.get(l.code()).copied().unwrap_or(0)
}
