//! Gates in a solver: constants are folded, and gates with the same operands are one.

use crate::correspondence::runs::mixed;
use gipsat_cnf::{AnswerUnder, Budget, Guess, Literal, SatSolver};
use std::alloc::{AllocError, Global};

// A gate of the solver. No gate has the output 0.
#[derive(Clone, Copy)]
struct Gate {
    left: Literal,
    right: Literal,
    output: u32,
}

// How many variables a question decides at first, those next to its literals, and how many at the second time. They mostly
// suffice to show that two literals are equal.
const NEAR: usize = 32;

const FAR: usize = 512;

// How many clauses it learns there at most. The work of a question that decides all variables has a bound of its own.
const LEARNED: usize = 100;

/// What is said of two literals.
#[derive(Drop)]
pub(crate) enum Said {
    /// They are equal.
    Equal,
    /// They differ by these values.
    Differ(Vec<bool>),
    /// It was left open.
    Open,
}

/// The gates and the solver. Variable 0 is false.
pub(crate) struct Graph<S: Drop> {
    solver: S,
    // For each variable, those of the operands of its gate; 0 twice where it has none.
    operands: Vec<(u32, u32)>,
    // What the literals of a question depend on, the next ones first, as far as it is wanted, and for each variable whether
    // it is among that.
    cone: Vec<u32>,
    is_reached: Vec<bool>,
    table: Vec<Gate>,
    // How many gates it has.
    gates: usize,
    // What a question may do.
    budget: Budget,
}

// One call in its owners' proofs, in place of one for each field.
impl<S: Drop> Drop for Graph<S> {
    fn drop(self) {
        let Graph {
            solver,
            operands,
            cone,
            is_reached,
            table,
            gates: _,
            budget: _,
        } = self;
    }
}

/// The literal that is false.
pub(crate) fn never() -> Literal {
    Literal::new(0, true)
}

/// Whether both literals are one.
pub(crate) fn is_same(l: Literal, m: Literal) -> bool {
    l.variable() == m.variable() && l.is_positive() == m.is_positive()
}

impl<S: SatSolver + Drop> Graph<S> {
    /// No gate, with room for about so many. Each question may do so much.
    pub(crate) fn new(alloc: Global, gates: usize, budget: Budget) -> Result<Self, AllocError> {
        let mut solver = S::new(alloc);
        solver.add_clause(&[never().negated()])?;
        let mut operands = Vec::new(alloc);
        operands.push((0, 0))?;
        let mut is_reached = Vec::new(alloc);
        is_reached.push(false)?;
        let mut table = Vec::new(alloc);
        table.resize(
            gates.saturating_mul(2).saturating_add(16),
            Gate {
                left: never(),
                right: never(),
                output: 0,
            },
        )?;
        Ok(Graph {
            solver,
            operands,
            cone: Vec::new(alloc),
            is_reached,
            table,
            gates: 0,
            budget,
        })
    }

    /// A new variable.
    pub(crate) fn fresh(&mut self) -> Result<Literal, AllocError> {
        self.made_of((0, 0))
    }

    // A new variable that is made of others.
    fn made_of(&mut self, operands: (u32, u32)) -> Result<Literal, AllocError> {
        let variable = u32::try_from(self.operands.len()).unwrap_or(u32::MAX);
        if variable >= 1 << 31 {
            return Err(AllocError);
        }
        self.operands.push(operands)?;
        self.is_reached.push(false)?;
        Ok(Literal::new(variable, true))
    }

    /// The literal that is true exactly if both are.
    pub(crate) fn and(&mut self, l: Literal, r: Literal) -> Result<Literal, AllocError> {
        let (left, right) = if l.code() <= r.code() { (l, r) } else { (r, l) };
        if is_same(left, never()) || is_same(left, right.negated()) {
            return Ok(never());
        }
        if is_same(left, never().negated()) || is_same(left, right) {
            return Ok(right);
        }
        let place = self.place(left, right);
        if let Some(gate) = self.table.get(place) {
            if gate.output != 0 {
                return Ok(Literal::new(gate.output & 0x7FFF_FFFF, true));
            }
        }
        let output = self.made_of((left.variable(), right.variable()))?;
        self.solver.add_clause(&[output.negated(), left])?;
        self.solver.add_clause(&[output.negated(), right])?;
        self.solver
            .add_clause(&[output, left.negated(), right.negated()])?;
        if self.gates < self.table.len() / 2 {
            if let Some(gate) = self.table.get_mut(place) {
                *gate = Gate {
                    left,
                    right,
                    output: output.variable(),
                };
            }
            self.gates = self.gates.saturating_add(1);
        }
        Ok(output)
    }

    // Where the gate with these operands stands, or may stand.
    fn place(&self, left: Literal, right: Literal) -> usize {
        let slots = self.table.len();
        if slots == 0 {
            return 0;
        }
        let key = (left.code() as u64).wrapping_mul(0x1_0000_0001) ^ (right.code() as u64);
        let mut place = (mixed(key) % slots as u64) as usize;
        for _ in 0..slots {
            let Some(gate) = self.table.get(place) else {
                return place;
            };
            if gate.output == 0 || (is_same(gate.left, left) && is_same(gate.right, right)) {
                return place;
            }
            place = if place + 1 < slots { place + 1 } else { 0 };
        }
        slots
    }

    /// Says that the literal is true.
    pub(crate) fn require(&mut self, l: Literal) -> Result<(), AllocError> {
        self.solver.add_clause(&[l])
    }

    /// Says that both are equal.
    pub(crate) fn equate(&mut self, l: Literal, m: Literal) -> Result<(), AllocError> {
        self.solver.add_clause(&[l.negated(), m])?;
        self.solver.add_clause(&[l, m.negated()])
    }

    /// Whether both are equal.
    pub(crate) fn compare(&mut self, l: Literal, m: Literal) -> Result<Said, AllocError> {
        self.find_cone(l, m)?;
        match self.ask(&[l, m.negated()])? {
            Said::Equal => self.ask(&[l.negated(), m]),
            said => Ok(said),
        }
    }

    /// How much was done: literals that were propagated, and clauses that were added.
    pub(crate) fn work(&self) -> u64 {
        let effort = self.solver.effort();
        effort.propagations.saturating_add(effort.clauses as u64)
    }

    // Finds out what two literals depend on: the next FAR variables and their operands.
    fn find_cone(&mut self, l: Literal, m: Literal) -> Result<(), AllocError> {
        for variable in self.cone.iter() {
            if let Some(is_reached) = self.is_reached.get_mut(*variable as usize) {
                *is_reached = false;
            }
        }
        self.cone.truncate(0);
        self.reach(l.variable())?;
        self.reach(m.variable())?;
        for place in 0..FAR {
            let Some(&variable) = self.cone.get(place) else {
                break;
            };
            let Some(&(left, right)) = self.operands.get(variable as usize) else {
                break;
            };
            self.reach(left)?;
            self.reach(right)?;
        }
        Ok(())
    }

    // Adds a variable to the cone, unless it is there, or false.
    fn reach(&mut self, variable: u32) -> Result<(), AllocError> {
        let Some(is_reached) = self.is_reached.get_mut(variable as usize) else {
            return Ok(());
        };
        if variable == 0 || *is_reached {
            return Ok(());
        }
        *is_reached = true;
        self.cone.push(variable)?;
        Ok(())
    }

    // Whether not all of them can be true, where few variables are decided at first, then more, and all at the end.
    fn ask(&mut self, literals: &[Literal]) -> Result<Said, AllocError> {
        let learned = self.budget.clauses.min(LEARNED);
        for &most in &[NEAR, FAR] {
            let near = self.cone.get(..most).unwrap_or(&self.cone);
            if let Guess::Unsat(_) = self.solver.guess_within(near, literals, learned)? {
                return Ok(Said::Equal);
            }
            if self.cone.len() <= most {
                break;
            }
        }
        match self.solver.solve_limited(literals, self.budget)? {
            AnswerUnder::Sat(values) => Ok(Said::Differ(values)),
            AnswerUnder::Unsat(_) => Ok(Said::Equal),
            AnswerUnder::Unknown => Ok(Said::Open),
        }
    }
}
