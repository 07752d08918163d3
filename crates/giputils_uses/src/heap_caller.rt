//! A caller of the heap, which `tests/from_empty.sh` takes into an empty repository.
ghost use Rattle.std.specs.Prelude.{◌≡◌, ◌∷◌, length, IfSome};
ghost use Rattle.std.specs.List.Sorted.{IsPermutation};

use giputils_heap::{BinaryHeap, ByNumber};
use std::alloc::Allocator;

/// Takes out a key, and answers how many are left.
pub fn take<A: Allocator>(heap: &mut BinaryHeap<u32, A>) -> Option<(u32, usize)>
    ensures taken { IfSome result (λ (key, _). IsPermutation heap.old (key ∷ heap.new)) }
    ensures left { IfSome result (λ (_, left). left ≡ length heap.new) }
{
    let key = heap.pop(&ByNumber)?;
    Some((key, heap.len()))
}
