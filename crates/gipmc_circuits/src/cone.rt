//! Cones of influence: the variables that decide the values of some literals, in a formula about moments of circuits.

use crate::circuit::{And, Circuit, Latch};
use crate::encoding::variables;
use gipsat_cnf::Literal;
use std::alloc::{AllocError, Global};

/// Variables of a formula, with all that they depend on. Some are kept, and those of one question follow.
pub(crate) struct Cone {
    // For each variable the two that its value is made of; 0, which has no other value, in place of one.
    operands: Vec<(u32, u32)>,
    variables: Vec<u32>,
    // For each variable whether it is among them.
    is_reached: Vec<bool>,
    // How many are kept.
    kept: usize,
}

// One call in its owners' proofs, in place of one for each field.
impl Drop for Cone {
    fn drop(self) {
        let Cone {
            operands,
            variables,
            is_reached,
            kept: _,
        } = self;
    }
}

impl Cone {
    /// The empty cone in a formula with so many variables, none of which depends on others.
    pub(crate) fn new(alloc: Global, count: usize) -> Result<Self, AllocError> {
        let mut operands = Vec::new(alloc);
        operands.resize(count, (0, 0))?;
        let mut is_reached = Vec::new(alloc);
        is_reached.resize(count, false)?;
        Ok(Cone {
            operands,
            variables: Vec::new(alloc),
            is_reached,
            kept: 0,
        })
    }

    /// That of the gates of a circuit, of which nothing is kept.
    pub(crate) fn of_gates(alloc: Global, circuit: &Circuit) -> Result<Self, AllocError> {
        let mut cone = Cone::new(alloc, variables(circuit))?;
        cone.define_gates(&circuit.gates, 0);
        Ok(cone)
    }

    /// That of a moment of a circuit. What clauses and the constraints depend on is kept.
    pub(crate) fn of_moment(
        alloc: Global,
        circuit: &Circuit,
        clauses: &[Vec<Literal>],
    ) -> Result<Self, AllocError> {
        let mut cone = Cone::of_gates(alloc, circuit)?;
        cone.keep_moment(circuit, 0, clauses, 0)?;
        Ok(cone)
    }

    /// That of two moments, so far apart, between which a transition leads. What clauses and the constraints depend on at
    /// the first one is kept.
    pub(crate) fn of_transition(
        alloc: Global,
        circuit: &Circuit,
        stride: usize,
        clauses: &[Vec<Literal>],
    ) -> Result<Self, AllocError> {
        let mut cone = Cone::new(alloc, stride.saturating_mul(2))?;
        cone.define_gates(&circuit.gates, 0);
        cone.define_latches(&circuit.latches, 0, stride);
        cone.define_gates(&circuit.gates, stride);
        cone.keep_moment(circuit, 0, clauses, 0)?;
        Ok(cone)
    }

    /// Each gate at an offset is made of its operands.
    pub(crate) fn define_gates(&mut self, gates: &[And], offset: usize) {
        for gate in gates {
            let operands = (at(gate.left, offset), at(gate.right, offset));
            self.define(gate.output, offset, operands);
        }
    }

    /// Each latch at one offset is made of its next literal at another.
    pub(crate) fn define_latches(&mut self, latches: &[Latch], from: usize, to: usize) {
        for latch in latches {
            self.define_as(latch.variable, latch.next, from, to);
        }
    }

    /// A variable at one offset is made of a literal at another.
    pub(crate) fn define_as(&mut self, variable: u32, l: Literal, from: usize, to: usize) {
        self.define(variable, to, (at(l, from), 0));
    }

    // A variable at an offset is made of these.
    fn define(&mut self, variable: u32, offset: usize, operands: (u32, u32)) {
        let place = (variable as usize).saturating_add(offset);
        if let Some(known) = self.operands.get_mut(place) {
            *known = operands;
        }
    }

    /// Keeps what the constraints of a circuit at one offset depend on, and the clauses at another.
    pub(crate) fn keep_moment(
        &mut self,
        circuit: &Circuit,
        here: usize,
        clauses: &[Vec<Literal>],
        there: usize,
    ) -> Result<(), AllocError> {
        self.reach_all(&circuit.constraints, here)?;
        for clause in clauses {
            if !self.is_settled(clause, there) {
                self.reach_all(clause, there)?;
            }
        }
        self.kept = self.variables.len();
        Ok(())
    }

    // Whether a clause at an offset needs no decision: its one variable depends on nothing, and has its value at first.
    fn is_settled(&self, clause: &[Literal], offset: usize) -> bool {
        match clause {
            [l] => self.operands.get(at(*l, offset) as usize) == Some(&(0, 0)),
            _ => false,
        }
    }

    /// What is kept, with what these literals depend on.
    pub(crate) fn with(&mut self, literals: &[Literal]) -> Result<&[u32], AllocError> {
        self.forget();
        self.reach_all(literals, 0)?;
        Ok(&self.variables)
    }

    // Forgets all but what is kept.
    fn forget(&mut self) {
        for variable in self.variables.get(self.kept..).unwrap_or(&[]) {
            if let Some(is_reached) = self.is_reached.get_mut(*variable as usize) {
                *is_reached = false;
            }
        }
        self.variables.truncate(self.kept);
    }

    // Adds the variables of some literals at an offset, with all that they depend on.
    fn reach_all(&mut self, literals: &[Literal], offset: usize) -> Result<(), AllocError> {
        let start = self.variables.len();
        for l in literals {
            self.reach(at(*l, offset))?;
        }
        for place in start..self.operands.len() {
            let Some(&variable) = self.variables.get(place) else {
                break;
            };
            let Some(&(left, right)) = self.operands.get(variable as usize) else {
                break;
            };
            self.reach(left)?;
            self.reach(right)?;
        }
        Ok(())
    }

    // Adds a variable of the formula, unless it is there.
    fn reach(&mut self, variable: u32) -> Result<(), AllocError> {
        let Some(is_reached) = self.is_reached.get_mut(variable as usize) else {
            return Ok(());
        };
        if *is_reached {
            return Ok(());
        }
        *is_reached = true;
        self.variables.push(variable)?;
        Ok(())
    }
}

// The variable of a literal at an offset, or 0 where the formula can have none so great.
fn at(l: Literal, offset: usize) -> u32 {
    u32::try_from((l.variable() as usize).saturating_add(offset)).unwrap_or(0)
}
