//! A queue of timers: the earliest deadline first.
ghost use Rattle.std.specs.Prelude.{◌≡◌, ◌<◌, [], ◌∷◌, length, min, replicate, slice_index, slice_set, IfSome, IfNone, IfOk};
ghost use Rattle.std.specs.List.Sorted.{IsPermutation};
ghost use Rattle.giputils.specs.Keys.{is_held, IsAbsent, HoldAlike};
ghost use Rattle.giputils_uses.specs.Clock.{Runs, IsEarliest};

use giputils::heap::PriorityQueue;
use std::alloc::{AllocError, Allocator, Global};
use std::cmp::Reverse;
use std::marker::Model;

/// Timers by their numbers, each with a deadline. All memory is taken where they are made.
///
/// Shows a queue whose least priority goes first (`Reverse`): a timer whose deadline is set to anything, or has come
/// nearer, is moved by `change_priority`.
#[derive(Drop)]
pub struct Timers<A: Allocator = Global> {
    queue: PriorityQueue<u32, Reverse<u64>, A>,
}

impl<A: Allocator> Model for Timers<A> {
    ghost use Rattle.giputils_uses.specs.Clock.{deadlines_of, Clock};

    ghost Value = { Clock };

    ghost view = { λ t. record { running = t.queue.keys; deadlines = deadlines_of t.queue.priorities } };
}

impl<A: Allocator + Copy> Timers<A> {
    /// So many timers, none of which runs.
    ///
    /// # Errors
    /// `AllocError` where memory is refused.
    pub fn new(alloc: A, count: u32) -> Result<Self, AllocError>
        ensures running { IfOk result (λ t. t.running ≡ []) }
        ensures deadlines { IfOk result (λ t. t.deadlines ≡ replicate count 0) }
    {
        Ok(Timers {
            queue: PriorityQueue::with_bound(alloc, count, Reverse(0))?,
        })
    }

    /// Sets the deadline of a timer, which runs from then on. One that runs is moved to the new deadline.
    pub fn set(&mut self, timer: u32, deadline: u64)
        requires { timer < length self.old.deadlines }
        ensures runs { HoldAlike (λ k. k) self.new.running (timer ∷ self.old.running) }
        ensures deadline { self.new.deadlines ≡ slice_set self.old.deadlines timer deadline }
    {
        self.queue.hold(timer);
        self.queue.change_priority(timer, Reverse(deadline));
    }

    /// Brings the deadline of a timer forward to `deadline`, unless it is earlier. The same timers run.
    pub fn hasten(&mut self, timer: u32, deadline: u64)
        requires { timer < length self.old.deadlines }
        ensures running { IsPermutation self.old.running self.new.running }
        ensures deadline { self.new.deadlines ≡
            slice_set self.old.deadlines timer (min (slice_index self.old.deadlines timer) deadline) }
    {
        let earlier = self.queue.priorities()[timer as usize].0.min(deadline);
        self.queue.change_priority(timer, Reverse(earlier));
    }

    /// Stops a timer with the earliest deadline, and answers it. `None` where none runs.
    pub fn next(&mut self) -> Option<u32>
        ensures earliest { IfSome result (IsEarliest self.old) }
        ensures left { IfSome result (λ timer. IsPermutation self.old.running (timer ∷ self.new.running)) }
        ensures none { IfNone result (self.old.running ≡ []) }
        ensures deadlines { self.new.deadlines ≡ self.old.deadlines }
    {
        let (timer, _) = self.queue.pop()?;
        Some(timer)
    }

    /// Stops a timer, and answers whether it ran. The others run on.
    ///
    /// Any number may be asked: one that is no timer's does not run.
    pub fn cancel(&mut self, timer: u32) -> bool
        ensures ran { result ≡ is_held (λ k. k) self.old.running timer }
        ensures left { Runs self.old.running timer → IsPermutation self.old.running (timer ∷ self.new.running) }
        ensures stopped { IsAbsent (λ k. k) self.new.running timer }
        ensures others { IsAbsent (λ k. k) self.old.running timer → (self.new.running ≡ self.old.running) }
        ensures deadlines { self.new.deadlines ≡ self.old.deadlines }
    {
        self.queue.remove(timer).is_some()
    }
}
