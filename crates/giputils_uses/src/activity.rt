//! The order in which a solver picks its variables: the most active first.
ghost use Rattle.std.specs.Prelude.{◌≡◌, ◌<◌, [], ◌∷◌, length, replicate, IfSome, IfNone, IfOk};
ghost use Rattle.std.specs.List.Sorted.{IsPermutation};
ghost use Rattle.giputils.specs.Keys.{HoldAlike};
ghost use Rattle.giputils_uses.specs.Activity.{IsMostActive, bumped};

use giputils::heap::PriorityQueue;
use std::alloc::{AllocError, Allocator, Global};
use std::marker::Model;

/// Variables by their numbers, each with a score. Those that are queued may be picked. All memory is taken where they
/// are made.
///
/// Shows a queue whose table keeps the priorities of keys that are not held: a variable that was picked has its score,
/// may be bumped, and is put back with it by `hold`.
#[derive(Drop)]
pub struct Activity<A: Allocator = Global> {
    queue: PriorityQueue<u32, u32, A>,
}

impl<A: Allocator> Model for Activity<A> {
    ghost use Rattle.giputils_uses.specs.Activity.{Order};

    ghost Value = { Order };

    ghost view = { λ a. record { queued = a.queue.keys; scores = a.queue.priorities } };
}

impl<A: Allocator + Copy> Activity<A> {
    /// So many variables of score 0, none of them queued.
    ///
    /// # Errors
    /// `AllocError` where memory is refused.
    pub fn new(alloc: A, count: u32) -> Result<Self, AllocError>
        ensures queued { IfOk result (λ a. a.queued ≡ []) }
        ensures scores { IfOk result (λ a. a.scores ≡ replicate count 0) }
    {
        Ok(Activity {
            queue: PriorityQueue::with_bound(alloc, count, 0)?,
        })
    }

    /// Queues a variable, unless it is queued.
    pub fn put_back(&mut self, variable: u32)
        requires { variable < length self.old.scores }
        ensures queued { HoldAlike (λ k. k) self.new.queued (variable ∷ self.old.queued) }
        ensures scores { self.new.scores ≡ self.old.scores }
    {
        self.queue.hold(variable);
    }

    /// Adds one to the score of a variable, up to `u32::MAX`.
    pub fn bump(&mut self, variable: u32)
        requires { variable < length self.old.scores }
        ensures queued { IsPermutation self.old.queued self.new.queued }
        ensures scores { self.new.scores ≡ bumped self.old.scores variable }
    {
        let score = self.queue.priorities()[variable as usize].saturating_add(1);
        self.queue.change_priority(variable, score);
    }

    /// Takes out a queued variable that none is more active than. `None` where none is queued.
    pub fn pick(&mut self) -> Option<u32>
        ensures picked { IfSome result (IsMostActive self.old) }
        ensures left { IfSome result (λ v. IsPermutation self.old.queued (v ∷ self.new.queued)) }
        ensures none { IfNone result (self.old.queued ≡ []) }
        ensures scores { self.new.scores ≡ self.old.scores }
    {
        let (variable, _) = self.queue.pop()?;
        Some(variable)
    }
}
