//! Rounds of elimination: when the next one is due, and how many clauses more each elimination may leave.

use crate::settings::SETTINGS;

// The rounds that were asked for.
#[derive(Clone, Copy)]
pub(crate) struct Rounds {
    // How many steps each one takes. 0 where none is due any more.
    steps: u64,
    // At how many propagations the next one is due.
    next: u64,
    // How many clauses more the elimination of a variable may leave.
    bound: usize,
}

impl Rounds {
    // None is asked for.
    pub(crate) fn new() -> Self {
        Rounds {
            steps: 0,
            next: 0,
            bound: 0,
        }
    }

    // Of so many steps each, without clauses more at first.
    pub(crate) fn of(steps: u64) -> Self {
        Rounds {
            steps,
            ..Rounds::new()
        }
    }

    // How many steps each takes.
    pub(crate) fn steps(&self) -> u64 {
        self.steps
    }

    // How many clauses more the elimination of a variable may leave.
    pub(crate) fn bound(&self) -> usize {
        self.bound
    }

    // Whether the next one is due after so many propagations.
    pub(crate) fn is_due(&self, propagations: u64) -> bool {
        self.steps > 0 && propagations >= self.next
    }

    // One has ended after so many propagations: the next one is due after twice as many.
    pub(crate) fn end(&mut self, propagations: u64) {
        let next = propagations.saturating_add(SETTINGS.elimination_interval);
        self.next = next.max(propagations.saturating_mul(2));
    }

    // All variables were tried: the next one may leave more clauses. False, and none is due, where it may not.
    pub(crate) fn raise_bound(&mut self) -> bool {
        self.bound = self.bound.saturating_mul(2).max(1);
        if self.bound > SETTINGS.most_clauses_more {
            self.steps = 0;
        }
        self.steps > 0
    }
}
