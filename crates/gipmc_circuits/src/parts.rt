//! What literals of a circuit are made of, as clauses: conjunctions by gates are taken apart, and so are disjunctions
//! in them. Nothing of it is believed.

use crate::circuit::{And, Circuit};
use crate::encoding::variables;
use gipsat_cnf::Literal;
use std::alloc::{AllocError, Global};

// How many literals a clause has at most.
const MOST_LITERALS: usize = 64;

/// The parts of some literals. Contracts see nothing of what they are.
#[derive(Drop)]
pub(crate) struct LiteralParts {
    // Literals that are thought to be true together just where all of the given ones are.
    pub(crate) conjuncts: Vec<Literal>,
    // For each of them a clause that is thought to say the same.
    clauses: Vec<Vec<Literal>>,
    // For each of them the place of the given literal that it is a part of.
    owners: Vec<usize>,
}

impl LiteralParts {
    /// The parts of some literals of a circuit.
    pub(crate) fn new(
        alloc: Global,
        circuit: &Circuit,
        literals: &[Literal],
    ) -> Result<Self, AllocError> {
        let mut gates = Gates::new(alloc, circuit)?;
        let mut parts = LiteralParts {
            conjuncts: Vec::new(alloc),
            clauses: Vec::new(alloc),
            owners: Vec::new(alloc),
        };
        for (place, l) in literals.iter().enumerate() {
            parts.take_apart(&mut gates, *l, place)?;
        }
        parts.find_clauses(alloc, &mut gates)?;
        Ok(parts)
    }

    /// The place of the given literal that the clause at a place is a part of.
    pub(crate) fn owner(&self, place: usize) -> usize {
        self.owners.get(place).copied().unwrap_or(place)
    }

    /// Gives the clauses away.
    pub(crate) fn take_clauses(&mut self, alloc: Global) -> Vec<Vec<Literal>> {
        std::mem::replace(&mut self.clauses, Vec::new(alloc))
    }

    // Adds the conjuncts of the given literal at a place, without those of gates that were taken apart before.
    fn take_apart(
        &mut self,
        gates: &mut Gates<'_>,
        l: Literal,
        place: usize,
    ) -> Result<(), AllocError> {
        gates.open.push(l)?;
        for _ in 0..u64::MAX {
            let Some(next) = gates.open.pop() else {
                return Ok(());
            };
            match gates.conjunction(next) {
                Some(gate) => {
                    if gates.mark(&gate) {
                        gates.follow(&gate)?;
                    }
                }
                None => {
                    self.conjuncts.push(next)?;
                    self.owners.push(place)?;
                }
            }
        }
        Ok(())
    }

    // Finds the clause of each conjunct. Once they have two literals for each gate, each further one is the conjunct
    // alone.
    fn find_clauses(&mut self, alloc: Global, gates: &mut Gates<'_>) -> Result<(), AllocError> {
        let mut room = gates.gates.len().saturating_mul(2);
        for l in self.conjuncts.iter() {
            let clause = gates.disjuncts(alloc, *l, room.min(MOST_LITERALS))?;
            room = room.saturating_sub(clause.len());
            self.clauses.reserve(1)?;
            self.clauses.push_reserved(clause);
        }
        Ok(())
    }
}

// The gates of a circuit, as they are taken apart.
#[derive(Drop)]
struct Gates<'a> {
    gates: &'a [And],
    // For each variable the number of gates up to its own. It is 0 where it has none.
    numbers: Vec<usize>,
    // Which variables were taken apart as conjunctions.
    is_marked: Vec<bool>,
    // Literals that are to be looked at.
    open: Vec<Literal>,
}

impl<'a> Gates<'a> {
    // Those of a circuit, none of which was taken apart.
    fn new(alloc: Global, circuit: &'a Circuit) -> Result<Self, AllocError> {
        let mut numbers = Vec::new(alloc);
        numbers.resize(variables(circuit), 0)?;
        let mut is_marked = Vec::new(alloc);
        is_marked.resize(variables(circuit), false)?;
        for (place, gate) in circuit.gates.iter().enumerate() {
            if let Some(number) = numbers.get_mut(gate.output as usize) {
                *number = place.saturating_add(1);
            }
        }
        Ok(Gates {
            gates: &circuit.gates,
            numbers,
            is_marked,
            open: Vec::new(alloc),
        })
    }

    // The gate by which the literal is a conjunction, if there is one.
    fn conjunction(&self, l: Literal) -> Option<And> {
        if !l.is_positive() {
            return None;
        }
        let number = self.numbers.get(l.variable() as usize)?;
        self.gates.get(number.checked_sub(1)?).copied()
    }

    // Marks a gate. Whether it was not marked before.
    fn mark(&mut self, gate: &And) -> bool {
        match self.is_marked.get_mut(gate.output as usize) {
            Some(is_marked) if !*is_marked => {
                *is_marked = true;
                true
            }
            _ => false,
        }
    }

    // Its operands are to be looked at, the left one first.
    fn follow(&mut self, gate: &And) -> Result<(), AllocError> {
        self.open.push(gate.right)?;
        self.open.push(gate.left)?;
        Ok(())
    }

    // Literals one of which is thought to be true just where this one is: so many at most, or this one alone.
    fn disjuncts(
        &mut self,
        alloc: Global,
        l: Literal,
        most: usize,
    ) -> Result<Vec<Literal>, AllocError> {
        let mut clause = Vec::new(alloc);
        self.open.clear();
        self.open.push(l.negated())?;
        for _ in 0..most.saturating_mul(2) {
            let Some(next) = self.open.pop() else {
                return Ok(clause);
            };
            match self.conjunction(next) {
                Some(gate) => self.follow(&gate)?,
                None => clause.push(next.negated())?,
            }
        }
        clause.clear();
        clause.push(l)?;
        Ok(clause)
    }
}
