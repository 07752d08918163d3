//! The modes of a search, by turns: the focused one restarts often, the stable one seldom (C. Oh, 2015).

use crate::settings::SETTINGS;

// Whose turn it is, and when it ends.
#[derive(Clone, Copy)]
pub(crate) struct Modes {
    // Whether it is the stable mode's turn, and whether that mode is allowed: else the search is focused.
    is_stable: bool,
    is_allowed: bool,
    // How many turns have ended.
    turns: u64,
    // How many literals the first turn propagated, and at how many the present one ends.
    first: u64,
    end: u64,
    // How many intervals the stable mode has had in this turn, and how many units the last one has (Luby's sequence).
    intervals: u64,
    units: u64,
}

impl Modes {
    // The first turn begins.
    pub(crate) fn new() -> Self {
        Modes {
            is_stable: false,
            is_allowed: true,
            turns: 0,
            first: 0,
            end: 0,
            intervals: 1,
            units: 1,
        }
    }

    // Sets whether the stable mode is allowed.
    pub(crate) fn allow(&mut self, is_allowed: bool) {
        self.is_allowed = is_allowed;
    }

    // Whether the stable mode is allowed.
    pub(crate) fn is_allowed(&self) -> bool {
        self.is_allowed
    }

    // Whether the search is stable.
    pub(crate) fn is_stable(&self) -> bool {
        self.is_stable && self.is_allowed
    }

    // By which part of itself a bump of a variable grows at a conflict.
    pub(crate) fn growth(&self) -> f64 {
        if self.is_stable() {
            SETTINGS.stable_growth
        } else {
            SETTINGS.focused_growth
        }
    }

    // Begins the next turn, if the present one has ended after so many conflicts and propagations. Whether it has.
    pub(crate) fn turn(&mut self, conflicts: u64, propagations: u64) -> bool {
        if !self.has_ended(conflicts, propagations) {
            return false;
        }
        if self.turns == 0 {
            self.first = propagations;
        }
        self.turns = self.turns.saturating_add(1);
        self.is_stable = !self.is_stable;
        self.end = propagations.saturating_add(self.work());
        self.intervals = 1;
        self.units = 1;
        true
    }

    // Whether the present turn has ended after so many conflicts and propagations.
    pub(crate) fn has_ended(&self, conflicts: u64, propagations: u64) -> bool {
        if self.turns == 0 {
            conflicts >= SETTINGS.first_turn
        } else {
            propagations >= self.end
        }
    }

    // How many literals the present turn propagates: a stable one fewer than the focused one behind it.
    fn work(&self) -> u64 {
        let pair = self.turns.saturating_add(1) / 2;
        let work = self.first.saturating_mul(pair.saturating_mul(pair));
        if self.is_stable {
            work / SETTINGS.stable_share
        } else {
            work
        }
    }

    // The interval until the next restart in the stable mode.
    pub(crate) fn interval(&mut self) -> u64 {
        let interval = self.units.saturating_mul(SETTINGS.stable_interval);
        let lowest_digit = self.intervals ^ (self.intervals & self.intervals.saturating_sub(1));
        if self.units == lowest_digit {
            self.intervals = self.intervals.saturating_add(1);
            self.units = 1;
        } else {
            self.units = self.units.saturating_mul(2);
        }
        interval
    }
}
