//! One turn of a scheduler: the ready task with the greatest priority runs, and pays for it.
ghost use Rattle.std.specs.Prelude.{◌≡◌, ◌-◌, Some, IfNone, IfSome};
ghost use Rattle.std.specs.List.Sorted.{IsPermutation};
ghost use Rattle.std.specs.Ordering.{nat_cmp};
ghost use Rattle.giputils.specs.Priorities.{ChangesAt, IsFirst};

use giputils::heap::PriorityQueue;
use std::alloc::Allocator;

/// Lets the ready task with the greatest priority run, and answers it with that priority. It stays ready, with a
/// priority that is lower by `cost`, down to 0. `None` where no task is ready.
///
/// Shows contracts over a queue as a map: the answer comes first in it, and its priority alone changes.
pub fn turn<A: Allocator>(ready: &mut PriorityQueue<u16, u32, A>, cost: u32) -> Option<(u16, u32)>
    ensures first { IfSome result (λ (task, priority). IsFirst (λ k. k) nat_cmp ready.old task priority) }
    ensures pays { IfSome result (λ (task, priority).
        ChangesAt (λ k. k) task (Some (priority - cost)) ready.old ready.new) }
    ensures tasks { IsPermutation ready.old.keys ready.new.keys }
    ensures none { IfNone result (ready.new ≡ ready.old) }
{
    let (task, priority) = ready.peek()?;
    ready.change_priority(task, priority.saturating_sub(cost));
    Some((task, priority))
}
