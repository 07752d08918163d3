//! Lists of calls of one heap.
ghost use Rattle.std.specs.Prelude.{◌≡◌, ◌+◌, ◌^◌, ◌≤◌, IsTrue, IsFalse, IfOk, OnErr, length, ⊤};
ghost use Rattle.giputils_heap.specs.Record.{Progress, may_compare, comparison_bound, may_answer, after_call, record_of, Answers, KeepsCounts, KeepsSteps, CanCount};
ghost use Rattle.giputils_bounded.specs.Bounds.{count_limit};
ghost use Rattle.giputils_heap.specs.Laws.{AnswersAtEachStep, KeepsCountsAtEachStep, PopsListDownward, OneOrderIsSteady};
ghost use Rattle.giputils_heap.specs.Stands.{Stands};

use crate::heap::BinaryHeap;
use giputils_bounded::counting::Counting;
use giputils_bounded::key::{BinaryHeapCmp, HeapKey};
use std::alloc::{AllocError, Allocator};
use std::fmt;

/// A call of a heap.
#[derive(Copy, PartialEq, Eq, Debug)]
pub enum HeapCall<T> {
    /// Holds the key as well.
    Push(T),
    /// Takes out a key, a greatest one where the heap is in order.
    Pop,
    /// Repairs the order where the key's comparisons alone have changed, and it has risen by them.
    Up(T),
    /// Repairs the order where the key's comparisons alone have changed, and it has fallen by them.
    Down(T),
    /// Repairs the order where the key's comparisons alone have changed, in any way.
    Update(T),
    /// Repairs the order, however the comparisons have changed.
    Rebuild,
    /// Holds nothing afterwards.
    Clear,
    /// Asks for the number of held keys.
    Len,
    /// Asks whether nothing is held.
    IsEmpty,
}

impl<T: Copy> Clone for HeapCall<T> {
    ghost is_clone = { λ call copy. copy ≡ call };

    ghost is_infallible = { λ _. ⊤ };

    fn clone(&self) -> Result<Self, AllocError> {
        Ok(*self)
    }
}

/// The answer to a [`HeapCall`].
#[derive(Copy, PartialEq, Eq, Debug)]
pub enum HeapReply<T> {
    /// The key is held, or was held already; the order was repaired; or nothing is held after a `Clear`.
    Done,
    /// A key that was not held is not held now either: memory was refused.
    Refused,
    /// The key's number is `u32::MAX`, which a heap cannot hold.
    Skipped,
    /// The key that was taken out, or `None` where nothing was held.
    Popped(Option<T>),
    /// The number of held keys.
    Length(usize),
    /// Whether nothing is held.
    Empty(bool),
}

impl<T: Copy> Clone for HeapReply<T> {
    ghost is_clone = { λ reply copy. copy ≡ reply };

    ghost is_infallible = { λ _. ⊤ };

    fn clone(&self) -> Result<Self, AllocError> {
        Ok(*self)
    }
}

/// A step of a run: a call, and the comparer that it is lent.
#[derive(Drop)]
pub struct HeapStep<'a, T, C> {
    /// The call.
    pub call: HeapCall<T>,
    /// The comparer that the call is lent, with how often it has been asked.
    pub cmp: Counting<'a, C>,
}

impl<'a, T, C> HeapStep<'a, T, C> {
    /// A step that makes `call` and is lent `cmp`, which it has not asked yet.
    pub fn new(call: HeapCall<T>, cmp: &'a C) -> Self
        ensures call { result.call ≡ call }
        ensures comparer { result.cmp.comparer ≡ cmp.now }
        ensures zero { result.cmp.count ≡ 0 }
    {
        HeapStep {
            call,
            cmp: Counting::new(cmp),
        }
    }
}

/// The call, and how often its comparer was asked.
impl<T: fmt::Debug, C> fmt::Debug for HeapStep<'_, T, C> {
    fn fmt<W: fmt::Write>(&self, f: &mut fmt::Formatter<W>) -> fmt::Result {
        f.debug_struct("HeapStep")
            .field("call", &self.call)
            .field("asked", &self.cmp.count())
            .finish()
    }
}

/// A law of records, which callers of [`heap_run`] may cite: a record that answers does so at each of its steps, by the
/// keys that are held before it.
pub const fn answers_at_each_step<T, C>()
    ensures { AnswersAtEachStep T C }
{}

/// A law of records: one that keeps its counts does so at each of its steps, by the number of keys that are held before
/// it.
pub const fn keeps_counts_at_each_step<T, C>()
    ensures { KeepsCountsAtEachStep T C }
{}

/// A law of records: popping by one relation until nothing is held gives every key that was held once, and each is at
/// least the next, where the first of these pops is steady.
pub const fn pops_list_downward<T: HeapKey, C: BinaryHeapCmp<T>>()
    ensures { PopsListDownward T.number C.at_least }
{}

/// A law of records: where the comparers of all steps have one relation, which is total and transitive on all keys,
/// every step is steady.
pub const fn one_order_is_steady<T: HeapKey, C: BinaryHeapCmp<T>>()
    ensures { OneOrderIsSteady T.number C.at_least }
{}

/// Runs the steps in order from the empty heap, and answers one reply for each.
///
/// Each counter must be at most 2^63, which [`Counting::count`] tells. The list of replies is asked for first. The
/// steps keep their calls and comparers, and each counter rises by what its step compared.
///
/// # Errors
/// `AllocError` where memory for the list of replies is refused. Nothing was run then.
pub fn heap_run<T: HeapKey, C: BinaryHeapCmp<T>, A: Allocator + Copy>(
    alloc: A,
    steps: &mut [HeapStep<'_, T, C>],
) -> Result<Vec<HeapReply<T>, A>, AllocError>
    requires { CanCount steps.old }
    ensures record { IfOk result (λ replies.
        Answers T.number C.at_least (record_of steps.old steps.new replies.items)) }
    ensures counts { IfOk result (λ replies. KeepsCounts T.number (record_of steps.old steps.new replies.items)) }
    ensures replies { IfOk result (λ replies. length replies.items ≡ length steps.old) }

    // Also where memory was refused.
    ensures kept { KeepsSteps steps.old steps.new }
    ensures refused { OnErr result (steps.new ≡ steps.old) }
{
    let mut replies = Vec::with_capacity(alloc, steps.len())?;
    let mut heap = BinaryHeap::new(alloc);
    for step in steps.iter_mut() {
        replies.push_reserved(make_call(&mut heap, step.call, &mut step.cmp));
    }
    Ok(replies)
}

// Makes one call, and skips a push of a key that no heap can hold.
fn make_call<T: HeapKey, C: BinaryHeapCmp<T>, A: Allocator>(
    heap: &mut BinaryHeap<T, A>,
    call: HeapCall<T>,
    cmp: &mut Counting<'_, C>,
) -> HeapReply<T>
    requires { cmp.old.count ≤ count_limit }
    ensures reply { (p : Progress T C) → Stands T.number C.at_least p heap.old →
        IsTrue (may_answer T.number C.at_least p call cmp.old.comparer result) }
    ensures stands { (p : Progress T C) → Stands T.number C.at_least p heap.old →
        Stands T.number C.at_least (after_call T.number C.at_least p call cmp.old.comparer result) heap.new }
    ensures comparer { cmp.new.comparer ≡ cmp.old.comparer }
    ensures rises { cmp.old.count ≤ cmp.new.count }
    ensures comparisons { (p : Progress T C) → Stands T.number C.at_least p heap.old →
        cmp.new.count ≤ cmp.old.count + comparison_bound T.number p.held call }
    ensures uncompared { IsFalse (may_compare call) → (cmp.new.count ≡ cmp.old.count) }
{
    match call {
        HeapCall::Push(v) if v.key() == u32::MAX => HeapReply::Skipped,
        HeapCall::Push(v) => match heap.push_counted(v, cmp) {
            Ok(()) => HeapReply::Done,
            Err(AllocError) => HeapReply::Refused,
        },
        HeapCall::Pop => HeapReply::Popped(heap.pop_counted(cmp)),
        HeapCall::Up(v) => {
            heap.up_counted(v, cmp);
            HeapReply::Done
        }
        HeapCall::Down(v) => {
            heap.down_counted(v, cmp);
            HeapReply::Done
        }
        HeapCall::Update(v) => {
            heap.update_counted(v, cmp);
            HeapReply::Done
        }
        HeapCall::Rebuild => {
            heap.rebuild_counted(cmp);
            HeapReply::Done
        }
        HeapCall::Clear => {
            heap.clear();
            HeapReply::Done
        }
        HeapCall::Len => HeapReply::Length(heap.len()),
        HeapCall::IsEmpty => HeapReply::Empty(heap.is_empty()),
    }
}
