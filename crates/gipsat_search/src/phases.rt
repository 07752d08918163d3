//! The phases with which variables are decided: those of the longest trails without a conflict (A. Biere and M. Fleury,
//! 2020).

use crate::settings::SETTINGS;
use crate::trail::Trail;
use crate::walk::Walk;
use std::alloc::{AllocError, Global};

// Where the pseudo-random numbers begin.
const SEED: u64 = 0x9e37_79b9_7f4a_7c15;

// The values of the longest trails without a conflict.
pub(crate) struct Phases {
    // The values of the longest trail of this turn since the last reset, and its length.
    target: Vec<Option<bool>>,
    target_len: usize,
    // The values of the longest trail since these were last saved again, and its length.
    best: Vec<Option<bool>>,
    best_len: usize,
    // How often the saved phases were reset, and at how many conflicts they are next.
    resets: u64,
    next: u64,
    random: u64,
    // How many literals were propagated at the last walk.
    propagations: u64,
}

// One call in its owners' proofs, in place of one for each field.
impl Drop for Phases {
    fn drop(self) {
        let Phases {
            target,
            target_len: _,
            best,
            best_len: _,
            resets: _,
            next: _,
            random: _,
            propagations: _,
        } = self;
    }
}

impl Phases {
    // Of no variable. It takes no memory.
    pub(crate) fn new(alloc: Global) -> Self {
        Phases {
            target: Vec::new(alloc),
            target_len: 0,
            best: Vec::new(alloc),
            best_len: 0,
            resets: 0,
            next: SETTINGS.phase_interval,
            random: SEED,
            propagations: 0,
        }
    }

    // Makes room for so many variables.
    pub(crate) fn grow(&mut self, variables: usize) -> Result<(), AllocError> {
        let len = self.target.len().max(variables);
        self.target.resize(len, None)?;
        let len = self.best.len().max(variables);
        self.best.resize(len, None)?;
        Ok(())
    }

    // The value of a variable in the longest trail of this turn.
    pub(crate) fn target(&self, variable: u32) -> Option<bool> {
        match self.target.get(variable as usize) {
            Some(value) => *value,
            None => None,
        }
    }

    // A conflict was met: the trail has none before its last level.
    pub(crate) fn note_conflict(&mut self, trail: &Trail) {
        let len = trail.start_above(trail.level().saturating_sub(1));
        if len > self.target_len {
            self.target_len = len;
            copy(&mut self.target, trail, len);
        }
        if len > self.best_len {
            self.best_len = len;
            copy(&mut self.best, trail, len);
        }
    }

    // Another turn begins.
    pub(crate) fn begin_turn(&mut self) {
        self.target_len = 0;
    }

    // Whether the saved phases are to be reset after so many conflicts.
    pub(crate) fn reset_is_due(&self, conflicts: u64) -> bool {
        conflicts >= self.next
    }

    // The phases that are to be saved in the place of those of a trail, if that is due after so many conflicts.
    pub(crate) fn reset(
        &mut self,
        alloc: Global,
        trail: &Trail,
        conflicts: u64,
    ) -> Result<Option<Vec<bool>>, AllocError> {
        if !self.reset_is_due(conflicts) {
            return Ok(None);
        }
        self.resets = self.resets.saturating_add(1);
        self.next = conflicts.saturating_add(SETTINGS.phase_interval.saturating_mul(self.resets));
        let mut phases = Vec::new(alloc);
        for (variable, phase) in trail.phases.iter().enumerate() {
            phases.push(self.new_phase(variable, *phase))?;
        }
        self.target.fill(None);
        self.target_len = 0;
        if self.resets % 2 == 0 {
            self.best_len = 0;
        }
        Ok(Some(phases))
    }

    // The walk that is due after a reset, after so many propagations: from these phases on, if they are the best ones.
    pub(crate) fn walk(&mut self, alloc: Global, phases: Vec<bool>, propagations: u64) -> Walk {
        let propagated = propagations.saturating_sub(self.propagations);
        let steps = if self.resets % 2 == 0 {
            self.propagations = propagations;
            (propagated / SETTINGS.walk_share).min(SETTINGS.walk_steps)
        } else {
            0
        };
        Walk::new(alloc, phases, steps, self.random ^ propagations)
    }

    // The new phase of a variable: in turn false, true, or one in eight by chance; and between these the best one.
    fn new_phase(&mut self, variable: usize, old: bool) -> bool {
        match self.resets % 6 {
            1 => false,
            3 => true,
            5 => self.by_chance(old),
            _ => match self.best.get(variable) {
                Some(Some(phase)) => *phase,
                _ => old,
            },
        }
    }

    // The phase, or another one by chance.
    fn by_chance(&mut self, old: bool) -> bool {
        self.random ^= self.random << 13;
        self.random ^= self.random >> 7;
        self.random ^= self.random << 17;
        if self.random % 8 == 0 {
            self.random % 16 == 0
        } else {
            old
        }
    }
}

// Copies the values of the first literals of a trail.
fn copy(values: &mut Vec<Option<bool>>, trail: &Trail, len: usize) {
    for step in trail.steps.iter().take(len) {
        if let Some(value) = values.get_mut(step.literal.variable() as usize) {
            *value = Some(step.literal.is_positive());
        }
    }
}
