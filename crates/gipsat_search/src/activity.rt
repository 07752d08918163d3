//! The order in which variables are decided: the most active first (VSIDS: M. Moskewicz, C. Madigan, Y. Zhao, L. Zhang
//! and S. Malik, 2001).

use crate::domain::Domain;
use crate::scores::ByScore;
use crate::trail::Trail;
use gipsat_cnf::Literal;
use giputils_bounded::BoundedHeap;
use std::alloc::{AllocError, Global};

// Once a bump would add as much, all scores are scaled down.
const GREATEST_INCREMENT: f64 = 1e100;

// The decision queue: variables by their scores (VSIDS), those of one score by their numbers, the greatest first. The
// ones that were bumped wait in a heap. All others have the score 0, and come behind them.
pub(crate) struct Activity {
    heap: BoundedHeap<u32>,
    // The variables of the score 0 that wait are below this one.
    end: u32,
    scores: Vec<f64>,
    // What a bump adds. It grows, so that recent bumps count more.
    increment: f64,
    domain: Domain,
    // For each variable whether it is taken out: it is not queued then, and passed over if it is queued already.
    is_out: Vec<bool>,
}

// One call in its owners' proofs, in place of one for each field.
impl Drop for Activity {
    fn drop(self) {
        let Activity {
            heap,
            end: _,
            scores,
            increment: _,
            domain,
            is_out,
        } = self;
    }
}

impl Activity {
    // No variable.
    pub(crate) fn new(alloc: Global) -> Result<Self, AllocError> {
        Ok(Activity {
            heap: BoundedHeap::with_bound(alloc, 0)?,
            end: 0,
            scores: Vec::new(alloc),
            increment: 1.0,
            domain: Domain::new(alloc)?,
            is_out: Vec::new(alloc),
        })
    }

    // Makes room for so many variables; new ones are queued. Only this and a domain take memory.
    pub(crate) fn grow(&mut self, variables: usize) -> Result<(), AllocError> {
        let old = self.scores.len();
        self.scores.resize(old.max(variables), 0.0)?;
        self.is_out.resize(old.max(variables), false)?;
        let bound = u32::try_from(variables).unwrap_or(u32::MAX);
        self.heap.raise_bound(bound)?;
        if variables > old {
            self.end = bound;
        }
        Ok(())
    }

    // Lets only these variables and those that are assumed be decided, or all where there is no domain.
    pub(crate) fn limit_to(
        &mut self,
        domain: Option<&[u32]>,
        assumptions: &[Literal],
    ) -> Result<(), AllocError> {
        match domain {
            Some(domain) => {
                self.domain
                    .set(self.scores.len(), domain, assumptions, &self.scores)
            }
            None => {
                self.domain.unset();
                Ok(())
            }
        }
    }

    // Whether these variables may be decided, and no others but some of the last call; or all, where there is no
    // domain.
    pub(crate) fn is_limited_to(&self, domain: Option<&[u32]>, assumptions: &[Literal]) -> bool {
        match domain {
            Some(domain) => self.domain.is(domain, assumptions),
            None => !self.domain.is_set(),
        }
    }

    // How many variables may be picked until one without a value is, or none waits.
    pub(crate) fn waiting(&self) -> usize {
        if self.domain.is_set() {
            self.domain.waiting()
        } else {
            self.heap.len().saturating_add(1)
        }
    }

    // Whether propagation passes over a variable above the root, since it is none of the domain.
    pub(crate) fn excludes(&self, variable: u32) -> bool {
        self.domain.excludes(variable)
    }

    // Queues a variable that has no value any more, unless it is taken out: in a domain in that alone, since no
    // variable leaves the other queue there.
    pub(crate) fn put_back(&mut self, variable: u32) {
        if self.is_out(variable) {
            return;
        }
        if self.domain.is_set() {
            self.domain.put_back(variable, &self.scores);
        } else {
            self.push(variable);
        }
    }

    // Puts a variable into the queue of all: into the heap, if it was bumped.
    fn push(&mut self, variable: u32) {
        if self.score(variable) == 0.0 {
            self.end = self.end.max(variable.saturating_add(1));
        } else if variable < self.heap.bound() {
            self.heap.push(variable, &ByScore(&self.scores));
        }
    }

    // Whether a variable is taken out.
    pub(crate) fn is_out(&self, variable: u32) -> bool {
        matches!(self.is_out.get(variable as usize), Some(true))
    }

    // Takes a variable out.
    pub(crate) fn take_out(&mut self, variable: u32) {
        if let Some(is_out) = self.is_out.get_mut(variable as usize) {
            *is_out = true;
        }
    }

    // Brings a variable back, and queues it.
    pub(crate) fn bring_back(&mut self, variable: u32) {
        if let Some(is_out) = self.is_out.get_mut(variable as usize) {
            *is_out = false;
        }
        self.push(variable);
    }

    // Whether only the variables of a domain may be decided.
    pub(crate) fn is_limited(&self) -> bool {
        self.domain.is_set()
    }

    // Queues all variables.
    pub(crate) fn put_all_back(&mut self) {
        for variable in 0..self.heap.bound() {
            if !self.is_out(variable) {
                self.push(variable);
            }
        }
    }

    // The score of a variable.
    pub(crate) fn score(&self, variable: u32) -> f64 {
        ByScore(&self.scores).score(variable)
    }

    // Raises the score of a variable, which has a value. If that was 0, it waits in the heap from now on.
    pub(crate) fn bump(&mut self, variable: u32) {
        let Some(score) = self.scores.get_mut(variable as usize) else {
            return;
        };
        let was_zero = *score == 0.0;
        *score += self.increment;
        if was_zero {
            self.push(variable);
        }
        self.heap.up(variable, &ByScore(&self.scores));
        self.domain.up(variable, &self.scores);
    }

    // A conflict was met: later bumps count more than earlier ones, by this part.
    pub(crate) fn decay(&mut self, growth: f64) {
        self.domain.note_conflict(&self.scores);
        self.increment += self.increment * growth;
        if self.increment >= GREATEST_INCREMENT {
            self.increment /= GREATEST_INCREMENT;
            for score in self.scores.iter_mut() {
                *score /= GREATEST_INCREMENT;
            }
            self.heap.rebuild(&ByScore(&self.scores));
            self.domain.rebuild(&self.scores);
        }
    }

    // Takes a variable of greatest score out of the queue, or out of that of the domain. None if it is empty.
    pub(crate) fn pick(&mut self, trail: &Trail) -> Result<Option<u32>, AllocError> {
        if self.domain.is_set() {
            return self.domain.pick(trail, &self.scores);
        }
        match self.heap.pop(&ByScore(&self.scores)) {
            Some(variable) => Ok(Some(variable)),
            None => Ok(self.last(trail)),
        }
    }

    // The variable of the greatest number below the end that has no value and is not taken out. The end falls to it.
    fn last(&mut self, trail: &Trail) -> Option<u32> {
        for variable in (0..self.end).rev() {
            if trail.has_no_value(variable) && !self.is_out(variable) {
                self.end = variable.saturating_add(1);
                return Some(variable);
            }
        }
        self.end = 0;
        None
    }

    // A variable of greatest score that has no value and is not taken out. Those before it leave the queue.
    pub(crate) fn next(&mut self, trail: &Trail) -> Option<u32> {
        for _ in 0..self.heap.len() {
            let variable = self.heap.peek()?;
            if trail.has_no_value(variable) && !self.is_out(variable) {
                return Some(variable);
            }
            self.heap.pop(&ByScore(&self.scores));
        }
        self.last(trail)
    }
}
