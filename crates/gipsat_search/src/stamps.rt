//! Sets of numbers that are emptied at once.

use std::alloc::{AllocError, Global};

// A set of numbers below a bound.
#[derive(Drop)]
pub(crate) struct Stamps {
    // A number is in the set if it has the present stamp.
    stamps: Vec<u32>,
    stamp: u32,
}

impl Stamps {
    // The empty set, below 0. It takes no memory.
    pub(crate) fn new(alloc: Global) -> Self {
        Stamps {
            stamps: Vec::new(alloc),
            stamp: 1,
        }
    }

    // Raises the bound to this one, if it is greater.
    pub(crate) fn grow(&mut self, bound: usize) -> Result<(), AllocError> {
        let len = self.stamps.len().max(bound);
        self.stamps.resize(len, 0)?;
        Ok(())
    }

    // Empties the set.
    pub(crate) fn clear(&mut self) {
        if self.stamp == u32::MAX {
            self.stamps.fill(0);
            self.stamp = 0;
        }
        self.stamp += 1;
    }

    // Whether the set has a number.
    pub(crate) fn has(&self, number: usize) -> bool {
        match self.stamps.get(number) {
            Some(stamp) => *stamp == self.stamp,
            None => false,
        }
    }

    // Adds a number. Whether it is new; one that is not below the bound is neither new nor added.
    pub(crate) fn add(&mut self, number: usize) -> bool {
        let Some(stamp) = self.stamps.get_mut(number) else {
            return false;
        };
        let is_new = *stamp != self.stamp;
        *stamp = self.stamp;
        is_new
    }
}
