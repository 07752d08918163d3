//! The trail: the true literals, in the order in which they were assigned.

use gipsat_cnf::Literal;
use std::alloc::{AllocError, Global};

// The reason of a decision. No clause has this id.
pub(crate) const DECISION: u32 = u32::MAX;

// A number in half the size. One that is too great becomes the greatest.
pub(crate) fn short(number: usize) -> u32 {
    u32::try_from(number).unwrap_or(u32::MAX)
}

// The value of a literal.
#[derive(Clone, Copy)]
pub(crate) enum Value {
    Unset,
    False,
    True,
}

// An assigned literal, and the id of the clause that is its reason.
#[derive(Clone, Copy)]
pub(crate) struct Step {
    pub literal: Literal,
    pub reason: u32,
}

// At which decision level and at which place of the trail a variable was assigned.
#[derive(Clone, Copy)]
pub(crate) struct VarData {
    pub level: u32,
    pub place: u32,
}

// The trail, with the values of all literals.
pub(crate) struct Trail {
    // By the codes of literals.
    values: Vec<Value>,
    // Where each variable was last assigned.
    var_data: Vec<VarData>,
    pub steps: Vec<Step>,
    // The saved phases.
    pub phases: Vec<bool>,
    // At which place each decision level but the root begins.
    pub level_starts: Vec<u32>,
    // How many literals have been propagated.
    pub propagated: usize,
}

// One call in its owners' proofs, in place of one for each field.
impl Drop for Trail {
    fn drop(self) {
        let Trail {
            values,
            var_data,
            steps,
            phases,
            level_starts,
            propagated: _,
        } = self;
    }
}

impl Trail {
    // No variable. It takes no memory.
    pub(crate) fn new(alloc: Global) -> Self {
        Trail {
            values: Vec::new(alloc),
            var_data: Vec::new(alloc),
            steps: Vec::new(alloc),
            phases: Vec::new(alloc),
            level_starts: Vec::new(alloc),
            propagated: 0,
        }
    }

    // Makes room for so many variables.
    pub(crate) fn grow(&mut self, variables: usize) -> Result<(), AllocError> {
        let variables = variables.max(self.phases.len());
        self.values
            .resize(variables.saturating_mul(2), Value::Unset)?;
        self.var_data
            .resize(variables, VarData { level: 0, place: 0 })?;
        self.phases.resize(variables, false)?;
        Ok(())
    }

    // How many variables there are.
    pub(crate) fn variables(&self) -> usize {
        self.phases.len()
    }

    // The value of a literal.
    #[inline]
    pub(crate) fn value(&self, l: Literal) -> Value {
        match self.values.get(l.code()) {
            Some(value) => *value,
            None => Value::Unset,
        }
    }

    // Whether a literal is true.
    #[inline]
    pub(crate) fn is_true(&self, l: Literal) -> bool {
        matches!(self.values.get(l.code()), Some(Value::True))
    }

    // Whether a literal is false.
    #[inline]
    pub(crate) fn is_false(&self, l: Literal) -> bool {
        matches!(self.values.get(l.code()), Some(Value::False))
    }

    // Whether a literal has no value.
    #[inline]
    pub(crate) fn is_unset(&self, l: Literal) -> bool {
        matches!(self.value(l), Value::Unset)
    }

    // Whether there is a variable of this number, and it has no value.
    pub(crate) fn has_no_value(&self, variable: u32) -> bool {
        let code = (variable as usize).saturating_mul(2);
        matches!(self.values.get(code), Some(Value::Unset))
    }

    // Whether a variable is true.
    pub(crate) fn is_positive(&self, variable: u32) -> bool {
        let code = (variable as usize).saturating_mul(2).saturating_add(1);
        matches!(self.values.get(code), Some(Value::True))
    }

    // Whether all literals of a clause are false.
    pub(crate) fn are_false(&self, clause: &[Literal]) -> bool {
        for l in clause {
            if !self.is_false(*l) {
                return false;
            }
        }
        true
    }

    // Whether a clause has a true literal.
    pub(crate) fn has_true(&self, clause: &[Literal]) -> bool {
        for l in clause {
            if self.is_true(*l) {
                return true;
            }
        }
        false
    }

    // The decision level.
    #[inline]
    pub(crate) fn level(&self) -> usize {
        self.level_starts.len()
    }

    // The place at which the next level begins, or would begin.
    pub(crate) fn start_above(&self, level: usize) -> usize {
        match self.level_starts.get(level) {
            Some(start) => *start as usize,
            None => self.steps.len(),
        }
    }

    // Whether a literal is the decision of the level behind one.
    pub(crate) fn is_decided_above(&self, level: usize, l: Literal) -> bool {
        match self.steps.get(self.start_above(level)) {
            Some(step) => step.literal.code() == l.code() && level < self.level(),
            None => false,
        }
    }

    // How many literals are assigned at the root.
    pub(crate) fn root_len(&self) -> usize {
        self.start_above(0)
    }

    // The decision level at which the literal's variable was last assigned.
    #[inline]
    pub(crate) fn level_of(&self, l: Literal) -> usize {
        match self.var_data.get(l.variable() as usize) {
            Some(data) => data.level as usize,
            None => 0,
        }
    }

    // The place of the trail at which the literal's variable was last assigned.
    #[inline]
    pub(crate) fn place_of(&self, l: Literal) -> usize {
        match self.var_data.get(l.variable() as usize) {
            Some(data) => data.place as usize,
            None => 0,
        }
    }

    // The step at which the literal's variable was last assigned.
    pub(crate) fn step_of(&self, l: Literal) -> Option<Step> {
        self.steps.get(self.place_of(l)).copied()
    }

    // Whether a literal is true at the root.
    pub(crate) fn is_fixed(&self, l: Literal) -> bool {
        self.is_true(l) && self.level_of(l) == 0
    }

    // The first literal of a clause that is true at the root.
    pub(crate) fn fixed_literal(&self, clause: &[Literal]) -> Option<Literal> {
        for l in clause {
            if self.is_fixed(*l) {
                return Some(*l);
            }
        }
        None
    }

    // Whether a root literal satisfies a clause.
    pub(crate) fn is_satisfied(&self, clause: &[Literal]) -> bool {
        self.fixed_literal(clause).is_some()
    }

    // The saved phase of a variable.
    pub(crate) fn phase(&self, variable: u32) -> bool {
        match self.phases.get(variable as usize) {
            Some(phase) => *phase,
            None => false,
        }
    }

    // Sets the value of a literal.
    #[inline]
    fn set(&mut self, l: Literal, new: Value) {
        if let Some(value) = self.values.get_mut(l.code()) {
            *value = new;
        }
    }

    // Assigns a literal, whose reason is the clause with this id.
    #[inline]
    pub(crate) fn assign(&mut self, l: Literal, reason: u32) -> Result<(), AllocError> {
        let variable = l.variable() as usize;
        if let Some(data) = self.var_data.get_mut(variable) {
            *data = VarData {
                level: short(self.level_starts.len()),
                place: short(self.steps.len()),
            };
        }
        if let Some(phase) = self.phases.get_mut(variable) {
            *phase = l.is_positive();
        }
        self.set(l, Value::True);
        self.set(l.negated(), Value::False);
        self.steps.push(Step { literal: l, reason })?;
        Ok(())
    }

    // Decides a literal: assigns it at a new level.
    pub(crate) fn decide(&mut self, l: Literal) -> Result<(), AllocError> {
        self.level_starts.push(short(self.steps.len()))?;
        self.assign(l, DECISION)
    }

    // The next literal to propagate.
    #[inline]
    pub(crate) fn next(&mut self) -> Option<Literal> {
        let step = *self.steps.get(self.propagated)?;
        self.propagated = self.propagated.saturating_add(1);
        Some(step.literal)
    }

    // Unassigns the last literal.
    #[inline]
    pub(crate) fn pop(&mut self) -> Option<Literal> {
        let step = self.steps.pop()?;
        self.set(step.literal, Value::Unset);
        self.set(step.literal.negated(), Value::Unset);
        Some(step.literal)
    }

    // Drops the levels above one, whose literals are unassigned.
    pub(crate) fn end_at(&mut self, level: usize) {
        self.level_starts.truncate(level);
        self.propagated = self.propagated.min(self.steps.len());
    }

    // Saves other phases, if they are as many as the variables.
    pub(crate) fn set_phases(&mut self, phases: Vec<bool>) {
        if phases.len() == self.phases.len() {
            self.phases = phases;
        }
    }

    // Gives the literal at a place of the trail another reason.
    pub(crate) fn set_reason(&mut self, place: usize, reason: u32) {
        if let Some(step) = self.steps.get_mut(place) {
            step.reason = reason;
        }
    }

    // Unassigns all literals. Phases stay.
    pub(crate) fn clear(&mut self) {
        self.values.fill(Value::Unset);
        self.steps.clear();
        self.level_starts.clear();
        self.propagated = 0;
    }
}
