//! The literals that are true, in the order in which they became so, and why.
use crate::derivations::Derivations;
use gipsat_cnf::Literal;
use std::alloc::{AllocError, Global};

// What is known of a literal.
#[derive(Clone, Copy, PartialEq, Eq)]
pub(crate) enum Value {
    Open,
    True,
    False,
}

// Why a literal is true.
#[derive(Clone, Copy, PartialEq, Eq)]
pub(crate) enum Reason {
    // It was made true, so that a clause is falsified.
    Assumed,
    // By the clause with this id, whose other literals are false.
    Clause(usize),
}

// The true literals. Those before the root are true by the clauses alone, and each has a clause of its own as its
// reason; the others are true while a clause is falsified.
pub(crate) struct Trail {
    // By the code of the literal.
    values: Vec<Value>,
    // By the variable.
    reasons: Vec<Reason>,
    steps: Vec<Literal>,
    root: usize,
    // The literals before this place have been propagated.
    head: usize,
    // What was derived of it.
    derivations: Derivations,
}

// One call in its owners' proofs, in place of one for each field.
impl Drop for Trail {
    fn drop(self) {
        let Trail {
            values,
            reasons,
            steps,
            root: _,
            head: _,
            derivations,
        } = self;
    }
}

impl Trail {
    // No literal is true, and there is no variable so far.
    pub(crate) fn new(alloc: Global) -> Self {
        Trail {
            values: Vec::new(alloc),
            reasons: Vec::new(alloc),
            steps: Vec::new(alloc),
            root: 0,
            head: 0,
            derivations: Derivations::new(alloc),
        }
    }

    // What was derived since it was forgotten last.
    pub(crate) fn derivations(&self) -> &Derivations {
        &self.derivations
    }

    // Asks for what is derived from now on.
    pub(crate) fn keep_derivations(&mut self) {
        self.derivations.keep();
    }

    // Forgets what was derived.
    pub(crate) fn forget_derivations(&mut self) {
        self.derivations.clear();
    }

    // A derivation begins, with no clause so far.
    pub(crate) fn begin_derivation(&mut self) {
        self.derivations.begin();
    }

    // A derivation uses a clause.
    pub(crate) fn note_used(&mut self, id: usize) -> Result<(), AllocError> {
        self.derivations.push(id)
    }

    // A derivation has ended with a clause, if it has.
    pub(crate) fn note_derived(&mut self, id: Option<usize>) -> Result<(), AllocError> {
        self.derivations.conclude(id)
    }

    // What is known of the literal.
    #[inline]
    pub(crate) fn value(&self, l: Literal) -> Value {
        match self.values.get(l.code()) {
            Some(value) => *value,
            None => Value::Open,
        }
    }

    // Whether the literal is true.
    #[inline]
    pub(crate) fn is_true(&self, l: Literal) -> bool {
        self.value(l) == Value::True
    }

    // Whether the literal is false.
    #[inline]
    pub(crate) fn is_false(&self, l: Literal) -> bool {
        self.value(l) == Value::False
    }

    // Why the literal, or its negation, is true.
    pub(crate) fn reason(&self, l: Literal) -> Reason {
        match self.reasons.get(l.variable() as usize) {
            Some(reason) => *reason,
            None => Reason::Assumed,
        }
    }

    // Makes an open literal true.
    pub(crate) fn assign(&mut self, l: Literal, reason: Reason) -> Result<(), AllocError> {
        self.steps.push(l)?;
        self.set(l, Value::True, Value::False);
        self.set_reason(l, reason);
        Ok(())
    }

    // Writes what is known of a literal and of its negation.
    fn set(&mut self, l: Literal, value: Value, opposite: Value) {
        if let Some(old) = self.values.get_mut(l.code()) {
            *old = value;
        }
        if let Some(old) = self.values.get_mut(l.negated().code()) {
            *old = opposite;
        }
    }

    // Writes why the literal is true.
    pub(crate) fn set_reason(&mut self, l: Literal, reason: Reason) {
        if let Some(old) = self.reasons.get_mut(l.variable() as usize) {
            *old = reason;
        }
    }

    // How many variables there are.
    pub(crate) fn capacity(&self) -> usize {
        self.reasons.len()
    }

    // How many literals are true.
    pub(crate) fn len(&self) -> usize {
        self.steps.len()
    }

    // How many of them are true by the clauses alone.
    pub(crate) fn root(&self) -> usize {
        self.root
    }

    // The true literal at a place of the order.
    pub(crate) fn step(&self, place: usize) -> Option<Literal> {
        self.steps.get(place).copied()
    }

    // The next literal to propagate.
    pub(crate) fn next(&mut self) -> Option<Literal> {
        let l = *self.steps.get(self.head)?;
        self.head = self.head.saturating_add(1);
        Some(l)
    }

    // Keeps what is true for good.
    pub(crate) fn settle(&mut self) {
        self.root = self.steps.len();
    }

    // Has room for so many variables, if there are more than before.
    pub(crate) fn cover(&mut self, variables: usize) -> Result<(), AllocError> {
        if variables > self.reasons.len() {
            self.values
                .resize(variables.saturating_mul(2), Value::Open)?;
            self.reasons.resize(variables, Reason::Assumed)?;
        }
        Ok(())
    }

    // Has room for the variables of a clause.
    pub(crate) fn cover_clause(&mut self, clause: &[Literal]) -> Result<(), AllocError> {
        let mut variables: usize = 0;
        for l in clause {
            variables = variables.max((l.variable() as usize).saturating_add(1));
        }
        self.cover(variables)
    }

    // Takes back what became true while a clause was falsified.
    pub(crate) fn backtrack(&mut self) {
        self.backtrack_to(self.root);
    }

    // Takes back what became true when so many literals were.
    pub(crate) fn backtrack_to(&mut self, len: usize) {
        for _ in len..self.steps.len() {
            if let Some(l) = self.steps.pop() {
                self.set(l, Value::Open, Value::Open);
            }
        }
        self.head = self.steps.len();
    }

    // Names the clauses by their new ids.
    pub(crate) fn renumber(&mut self, ids: &[usize]) {
        for reason in self.reasons.iter_mut() {
            if let Reason::Clause(id) = *reason {
                if let Some(new) = ids.get(id) {
                    *reason = Reason::Clause(*new);
                }
            }
        }
    }
}
