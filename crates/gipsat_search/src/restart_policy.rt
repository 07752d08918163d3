//! When to restart (moving averages: A. Biere and A. Fröhlich, 2015; the stable mode: M. Luby, A. Sinclair and D.
//! Zuckerman, 1993), and when to delete learned clauses.

use crate::modes::Modes;
use crate::settings::SETTINGS;

// An average in which each value counts by a rate: recent values count most. The first ones count alike.
#[derive(Clone, Copy)]
struct Average {
    value: f64,
    count: f64,
    rate: f64,
}

impl Average {
    // Of no value.
    fn new(rate: f64) -> Self {
        Average {
            value: 0.0,
            count: 0.0,
            rate,
        }
    }

    // The average with one value more.
    fn with(&self, value: f64) -> Self {
        let count = self.count + 1.0;
        let equal = 1.0 / count;
        let share = if equal > self.rate { equal } else { self.rate };
        Average {
            value: self.value + (value - self.value) * share,
            count,
            rate: self.rate,
        }
    }
}

// Restart policy: in the focused mode the fast average of glue against the slow one.
#[derive(Clone, Copy)]
pub(crate) struct RestartPolicy {
    pub modes: Modes,
    // How many conflicts there are at least until the next restart, and how many propagations there were at the last.
    left: u64,
    last_restart: u64,
    // The glue of the clauses that were learned in the focused mode.
    fast_glue: Average,
    slow_glue: Average,
    // How many reductions there were, the root of that number, and at how many conflicts the next one is due.
    reductions: u64,
    root: u64,
    next_reduction: u64,
}

impl RestartPolicy {
    // Before the first conflict.
    pub(crate) fn new() -> Self {
        RestartPolicy {
            modes: Modes::new(),
            left: SETTINGS.focused_interval,
            last_restart: 0,
            fast_glue: Average::new(SETTINGS.fast_rate),
            slow_glue: Average::new(SETTINGS.slow_rate),
            reductions: 0,
            root: 0,
            next_reduction: SETTINGS.first_reduction,
        }
    }

    // A clause of this glue was learned.
    pub(crate) fn add(&mut self, glue: u32) {
        if !self.modes.is_stable() {
            self.fast_glue = self.fast_glue.with(f64::from(glue));
            self.slow_glue = self.slow_glue.with(f64::from(glue));
        }
    }

    // One conflict more, after so many propagations, with so many literals on the trail. Whether a restart is due: not
    // before as many literals were propagated since the last one, since that is what it costs.
    pub(crate) fn restart_is_due(&mut self, propagations: u64, literals: usize) -> bool {
        self.left = self.left.saturating_sub(1);
        let propagated = propagations.saturating_sub(self.last_restart);
        if self.left > 0 || propagated < literals as u64 || !self.wants_restart() {
            return false;
        }
        self.left = self.interval();
        self.last_restart = propagations;
        true
    }

    // Whether the mode asks for a restart, apart from how far away the last one is.
    fn wants_restart(&self) -> bool {
        self.modes.is_stable() || self.glue_is_high()
    }

    // The least number of conflicts until the restart after the next one.
    fn interval(&mut self) -> u64 {
        if self.modes.is_stable() {
            self.modes.interval()
        } else {
            SETTINGS.focused_interval
        }
    }

    // Begins the next turn, if the present one has ended after so many conflicts and propagations. Whether it has.
    pub(crate) fn turn(&mut self, conflicts: u64, propagations: u64) -> bool {
        let has_ended = self.modes.turn(conflicts, propagations);
        if has_ended {
            self.left = self.interval();
        }
        has_ended
    }

    // Whether recent glue is above the average.
    fn glue_is_high(&self) -> bool {
        self.fast_glue.value > SETTINGS.restart_factor * self.slow_glue.value
    }

    // Whether a reduction is due, with so many clauses in the database after so many conflicts.
    pub(crate) fn reduce_is_due(&mut self, clauses: usize, conflicts: u64) -> bool {
        if conflicts < self.next_reduction {
            return false;
        }
        self.reductions = self.reductions.saturating_add(1);
        let next_root = self.root.saturating_add(1);
        if next_root.saturating_mul(next_root) <= self.reductions {
            self.root = next_root;
        }
        let interval = SETTINGS.reduction_interval.saturating_mul(self.root);
        let interval = interval.max(clauses as u64 / SETTINGS.reduction_clauses);
        self.next_reduction = conflicts.saturating_add(interval);
        true
    }
}
