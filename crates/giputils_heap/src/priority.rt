//! A queue of keys that owns their priorities: the greatest priority first.

// How it is proved: that the heap is in order by the priorities is the queue's invariant. The lemmas of
// `proofs/Priorities` lead from the records of the heap's calls to those of the queue.

ghost use Rattle.std.specs.Prelude.{◌≡◌, ◌↔◌, ◌-◌, ◌<◌, ◌≤◌, ◌∷◌, ◌++◌, [], length, replicate, vec_capacity, slice_get, slice_set, if◌then◌else◌, is_some, Some, None, IfSome, IfNone, IfOk, IsOk, IsSome, IsTrue, OnOk, OnErr};
ghost use Rattle.std.specs.List.Sorted.{IsPermutation};
ghost use Rattle.giputils_bounded.specs.Prelude.{AreDistinct, IsAbsent, IsHeld, is_held, key_limit, pop_bound, push_bound, update_bound};
ghost use Rattle.giputils_heap.specs.Priorities.{filled_up, priority_of, with_priority, ChangesAt, ComparesAtMost, IsFirst, Joins};

use giputils_bounded::bounded::BoundedHeap;
use giputils_bounded::comparers::ByOrd;
use giputils_bounded::counting::Counting;
use giputils_bounded::key::HeapKey;
use std::alloc::{AllocError, Allocator, Global};
use std::fmt;
use std::marker::Model;

/// Keys, each with a priority, of which a key with the greatest priority comes first. With `Reverse<P>` of `std::cmp`
/// as the type of priorities, the least comes first. Of keys with equal priorities, the one with the greatest number
/// comes first.
///
/// It is a heap that owns the table by which it compares, and it is in order at every time: no caller has to say so.
/// The table has a priority for each number below the greatest that was pushed, and keeps that of a key which is taken
/// out: [`PriorityQueue::priorities`] has them all.
///
/// It is seen as a map from the held keys to their priorities, with the table, and the number of comparisons so far.
#[derive(Drop)]
pub struct PriorityQueue<T: HeapKey, P: Ord + Copy, A: Allocator = Global> {
    heap: BoundedHeap<T, A>,
    priorities: Vec<P, A>,
    comparisons: u64,
}

impl<T: HeapKey, P: Ord + Copy, A: Allocator> Model for PriorityQueue<T, P, A> {
    ghost use Rattle.giputils_heap.specs.Priorities.{IsPrioritized, Prioritized};

    ghost Value = { Prioritized T P };

    ghost view = { λ q. record { keys = q.heap.keys; priorities = q.priorities.items; comparisons = q.comparisons } };

    ghost invariant = { λ q. IsPrioritized T.number P.cmp q.heap q.priorities.items };
}

impl<T: HeapKey, P: Ord + Copy, A: Allocator + Copy> PriorityQueue<T, P, A> {
    /// A queue that holds nothing, and has an empty table.
    ///
    /// # Errors
    /// `AllocError` where memory is refused; it requests none.
    pub fn new(alloc: A) -> Result<Self, AllocError>
        ensures empty { IfOk result (λ q. q.keys ≡ []) }
        ensures priorities { IfOk result (λ q. q.priorities ≡ []) }
        ensures comparisons { IfOk result (λ q. q.comparisons ≡ 0) }
    {
        Ok(PriorityQueue {
            heap: BoundedHeap::with_bound(alloc, 0)?,
            priorities: Vec::new(alloc),
            comparisons: 0,
        })
    }

    /// A queue that holds nothing, for the keys whose numbers are below `bound`, each of which has `priority` until it
    /// is given another. It takes all the memory that these need, so pushes of these keys are not refused.
    ///
    /// # Errors
    /// `AllocError` where memory is refused. Nothing is left of the queue then.
    pub fn with_bound(alloc: A, bound: u32, priority: P) -> Result<Self, AllocError>
        ensures empty { IfOk result (λ q. q.keys ≡ []) }
        ensures priorities { IfOk result (λ q. q.priorities ≡ replicate bound priority) }
        ensures comparisons { IfOk result (λ q. q.comparisons ≡ 0) }
    {
        let mut priorities = Vec::new(alloc);
        priorities.resize(bound as usize, priority)?;
        let heap = BoundedHeap::with_bound(alloc, bound)?;
        Ok(PriorityQueue {
            heap,
            priorities,
            comparisons: 0,
        })
    }
}

impl<T: HeapKey, P: Ord + Copy, A: Allocator> PriorityQueue<T, P, A> {
    /// The number of held keys.
    pub fn len(&self) -> usize
        ensures len { result ≡ length self.now.keys }
        ensures each_once { AreDistinct T.number self.now.keys }
    {
        self.heap.len()
    }

    /// Whether nothing is held.
    pub fn is_empty(&self) -> bool
        ensures { IsTrue result ↔ (self.now.keys ≡ []) }
    {
        self.heap.is_empty()
    }

    /// Whether `key` is held.
    pub fn contains(&self, key: T) -> bool
        ensures held { result ≡ is_held T.number self.now.keys key }
        ensures in_table { IsTrue result → T.number key < length self.now.priorities }
    {
        self.heap.contains(key)
    }

    /// The held keys, each once, in an open order.
    pub fn keys(&self) -> &[T]
        ensures held { result.now ≡ self.now.keys }
        ensures each_once { AreDistinct T.number result.now }
    {
        self.heap.elements()
    }

    /// The table of priorities, by number. A key that is not held has the one that it was last given, or that of
    /// the push for which the table grew over its number.
    pub fn priorities(&self) -> &[P]
        ensures { result.now ≡ self.now.priorities }
    {
        self.priorities.as_slice()
    }

    /// The priority with which `key` is held. `None` where it is not held.
    pub fn priority(&self, key: T) -> Option<P>
        ensures priority { result ≡ priority_of T.number self.now key }
        ensures held { is_some result ≡ is_held T.number self.now.keys key }
    {
        if !self.heap.contains(key) {
            return None;
        }
        self.priorities.get(key.key() as usize).copied()
    }

    /// How often priorities were compared so far, up to `u64::MAX`.
    pub fn comparisons(&self) -> u64
        ensures { result ≡ self.now.comparisons }
    {
        self.comparisons
    }

    /// Holds nothing afterwards. It keeps the memory and the table.
    pub fn clear(&mut self)
        ensures empty { self.new.keys ≡ [] }
        ensures priorities { self.new.priorities ≡ self.old.priorities }
        ensures comparisons { self.new.comparisons ≡ self.old.comparisons }
    {
        self.heap.clear();
    }

    /// The key that comes first, with its priority. `None` where nothing is held.
    pub fn peek(&self) -> Option<(T, P)>
        ensures some { IsSome result ↔ (0 < length self.now.keys) }
        ensures first { IfSome result (λ e. IsFirst T.number P.cmp self.now e.0 e.1) }
    {
        let key = self.heap.peek()?;
        Some((key, self.priorities[key.key() as usize]))
    }

    /// Holds `key` with `priority`, and answers the priority with which it was held before, `None` where it was not.
    ///
    /// The key's number must be below `u32::MAX`, which [`HeapKey::key`] tells.
    ///
    /// # Errors
    /// `AllocError` where memory is refused for a number past the table's end. The queue is then unchanged.
    pub fn push(&mut self, key: T, priority: P) -> Result<Option<P>, AllocError>
        requires { T.number key < key_limit }
        ensures was { IfOk result (λ was. was ≡ priority_of T.number self.old key) }
        ensures changes { OnOk result (ChangesAt T.number key (Some priority) self.old self.new) }
        ensures keys { OnOk result (Joins T.number key self.old.keys self.new.keys) }
        ensures priorities { OnOk result (
            self.new.priorities ≡ with_priority self.old.priorities (T.number key) priority) }
        ensures refused { OnErr result (self.new ≡ self.old) }
        ensures room { T.number key < length self.old.priorities → IsOk result }
        ensures compares { ComparesAtMost self.old self.new (
            if is_held T.number self.old.keys key
            then update_bound (length self.old.keys) else push_bound (length self.old.keys)) }
    {
        self.make_room(key, priority)?;
        let was = self.change_priority(key, priority);
        self.hold(key);
        Ok(was)
    }

    /// Gives a key another priority, and answers the one with which it was held before. One that is not held has it in
    /// the table alone; past the table's end nothing changes.
    pub fn change_priority(&mut self, key: T, priority: P) -> Option<P>
        ensures was { result ≡ priority_of T.number self.old key }
        ensures changes { ChangesAt T.number key (
            if is_held T.number self.old.keys key then Some priority else None) self.old self.new }
        ensures keys { IsPermutation self.old.keys self.new.keys }
        ensures priorities { self.new.priorities ≡ slice_set self.old.priorities (T.number key) priority }
        ensures compares { ComparesAtMost self.old self.new (
            if is_held T.number self.old.keys key then update_bound (length self.old.keys) else 0) }
    {
        let was = self.priority(key);
        write(&mut self.priorities, key.key(), priority);
        let by = ByOrd(&self.priorities);
        let mut cmp = Counting::new(&by);
        self.heap.update_counted(key, &mut cmp);
        self.comparisons = self.comparisons.saturating_add(cmp.count());
        was
    }

    /// Takes out the key that comes first, and answers it with its priority. `None` where nothing is held.
    pub fn pop(&mut self) -> Option<(T, P)>
        ensures some { IsSome result ↔ (0 < length self.old.keys) }
        ensures first { IfSome result (λ e. IsFirst T.number P.cmp self.old e.0 e.1) }
        ensures changes { IfSome result (λ e. ChangesAt T.number e.0 None self.old self.new) }
        ensures keys { IfSome result (λ e. IsPermutation self.old.keys (e.0 ∷ self.new.keys)) }
        ensures none { IfNone result (self.new ≡ self.old) }
        ensures priorities { self.new.priorities ≡ self.old.priorities }
        ensures compares { ComparesAtMost self.old self.new (pop_bound (length self.old.keys)) }
    {
        let key = self.take_first()?;
        Some((key, self.priorities[key.key() as usize]))
    }

    /// Takes out a key, and answers the priority with which it was held. `None` where it was not held.
    pub fn remove(&mut self, key: T) -> Option<P>
        ensures was { result ≡ priority_of T.number self.old key }
        ensures held { is_some result ≡ is_held T.number self.old.keys key }
        ensures changes { ChangesAt T.number key None self.old self.new }
        ensures keys { IsHeld T.number self.old.keys key → IsPermutation self.old.keys (key ∷ self.new.keys) }
        ensures gone { IsAbsent T.number self.new.keys key }
        ensures absent { IsAbsent T.number self.old.keys key → (self.new ≡ self.old) }
        ensures priorities { self.new.priorities ≡ self.old.priorities }
        ensures compares { ComparesAtMost self.old self.new (update_bound (length self.old.keys)) }
    {
        let was = self.priority(key)?;
        let by = ByOrd(&self.priorities);
        let mut cmp = Counting::new(&by);
        self.heap.remove_counted(key, &mut cmp);
        self.comparisons = self.comparisons.saturating_add(cmp.count());
        Some(was)
    }

    /// Holds a key with the priority that the table has of its number. A key that is held already is left alone.
    ///
    /// The key's number must be below the length of the table, [`PriorityQueue::priorities`]. It takes no memory.
    pub fn hold(&mut self, key: T)
        requires { T.number key < length self.old.priorities }
        ensures changes { ChangesAt T.number key (
            slice_get self.old.priorities (T.number key)) self.old self.new }
        ensures keys { Joins T.number key self.old.keys self.new.keys }
        ensures priorities { self.new.priorities ≡ self.old.priorities }
        ensures compares { ComparesAtMost self.old self.new (
            if is_held T.number self.old.keys key then 0 else push_bound (length self.old.keys)) }
    {
        let by = ByOrd(&self.priorities);
        let mut cmp = Counting::new(&by);
        self.heap.push_counted(key, &mut cmp);
        self.comparisons = self.comparisons.saturating_add(cmp.count());
    }

    // Gives the table and the heap an entry for the number of `key`.
    fn make_room(&mut self, key: T, priority: P) -> Result<(), AllocError>
        requires { T.number key < key_limit }
        ensures keys { self.new.keys ≡ self.old.keys }
        ensures priorities { OnOk result (
            self.new.priorities ≡ filled_up self.old.priorities (T.number key) priority) }
        ensures same { (k : T) → priority_of T.number self.new k ≡ priority_of T.number self.old k }
        ensures refused { OnErr result (self.new ≡ self.old) }
        ensures room { T.number key < length self.old.priorities → IsOk result }
        ensures comparisons { self.new.comparisons ≡ self.old.comparisons }
    {
        let entries = key.key() as usize + 1;
        let len = self.priorities.len();
        if entries <= len {
            return Ok(());
        }
        self.priorities.reserve(entries - len)?;
        self.heap.raise_bound(entries as u32)?;
        fill_up(&mut self.priorities, entries, priority);
        Ok(())
    }

    // Takes out the key that comes first.
    fn take_first(&mut self) -> Option<T>
        ensures some { IsSome result ↔ (0 < length self.old.keys) }
        ensures inside { IfSome result (λ k. T.number k < length self.old.priorities) }
        ensures first { IfSome result (λ k. (p : P) → slice_get self.old.priorities (T.number k) ≡ Some p →
            IsFirst T.number P.cmp self.old k p) }
        ensures changes { IfSome result (λ k. ChangesAt T.number k None self.old self.new) }
        ensures keys { IfSome result (λ k. IsPermutation self.old.keys (k ∷ self.new.keys)) }
        ensures none { IfNone result (self.new ≡ self.old) }
        ensures priorities { self.new.priorities ≡ self.old.priorities }
        ensures compares { ComparesAtMost self.old self.new (pop_bound (length self.old.keys)) }
    {
        let by = ByOrd(&self.priorities);
        let mut cmp = Counting::new(&by);
        let key = self.heap.pop_counted(&mut cmp);
        self.comparisons = self.comparisons.saturating_add(cmp.count());
        key
    }
}

/// The held keys with their priorities, in an open order.
impl<T: HeapKey + fmt::Debug, P: Ord + Copy + fmt::Debug, A: Allocator> fmt::Debug
    for PriorityQueue<T, P, A> {
    fn fmt<W: fmt::Write>(&self, f: &mut fmt::Formatter<W>) -> fmt::Result {
        let mut map = f.debug_map();
        for key in self.keys() {
            if let Some(priority) = self.priority(*key) {
                map.entry(key, &priority);
            }
        }
        map.finish()
    }
}

// Writes a priority into the table, where that has an entry for the number.
fn write<P: Copy, A: Allocator>(priorities: &mut Vec<P, A>, number: u32, priority: P)
    ensures { priorities.new.items ≡ slice_set priorities.old.items number priority }
{
    let place = number as usize;
    if place < priorities.len() {
        priorities[place] = priority;
    }
}

// Adds copies of a priority, up to so many entries. There is room for them.
fn fill_up<P: Copy, A: Allocator>(priorities: &mut Vec<P, A>, entries: usize, priority: P)
    requires more { length priorities.old.items ≤ entries }
    requires room { entries ≤ vec_capacity priorities.old }
    ensures { priorities.new.items ≡
        priorities.old.items ++ replicate (entries - length priorities.old.items) priority }
{
    let _ = priorities.resize(entries, priority);
}
