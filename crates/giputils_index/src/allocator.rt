//! An allocator of indexes: removed values are marked, and a collection drops them and renumbers the others.
ghost use Rattle.std.specs.Prelude.{◌≡◌, ◌≢◌, ◌↔◌, ℕ, ◌+◌, ◌^◌, ◌<◌, ◌≤◌, [], ◌∷◌, ◌++◌, true, false, Some, None, length, take, IsTrue, IfOk, IfErr, OnOk, OnErr, OnSome, IfNone, nat_eq};
ghost use Rattle.std.specs.Option.{option_copied, option_copied_mut};
ghost use Rattle.std.specs.Borrow.{Lends, sem};
ghost use Rattle.giputils_hash.specs.Hash.{get, HasUniqueKeys};
ghost use Rattle.giputils_index.specs.Allocator.{value_at, mark_at, live_at, live_count, mark, put_in_turn, write, survivors, unmarked_slots, table_at, AreUnmarked, IsIndexMap, IsIndexTable, Renumbers, TakesValue};

mod live;
mod renaming;
mod room;
mod run;

use giputils_hash::hash::GHashMap;
use giputils_vec::gvec::Gvec;
pub use live::Live;
pub use renaming::rename;
pub use room::Reserved;
pub use run::{GallocCall, GallocReply, galloc_run};
use std::alloc::{AllocError, Allocator, Global};
use std::marker::Model;
use std::ops::{Deref, DerefMut, Index, IndexMut};

// Of so many slots at once the unmarked ones are put into a map.
const BLOCK: usize = 64;

/// A value that may be marked as removed, seen as the pair of the two.
#[derive(Debug, Drop)]
pub struct GallocElem<T> {
    value: T,
    removed: bool,
}

impl<T> Model for GallocElem<T> {
    ghost use Rattle.std.specs.Prelude.{Bool};

    ghost Value = { T × Bool };

    ghost view = { λ e. (e.value, e.removed) };
}

impl<T> GallocElem<T> {
    /// The value, not removed.
    #[inline]
    pub fn new(value: T) -> Self
        ensures { result ≡ (value, false) }
    {
        GallocElem {
            value,
            removed: false,
        }
    }

    /// The value, marked or not.
    #[inline]
    pub fn take(self) -> T
        ensures { result ≡ self.0 }
    {
        let GallocElem { value, removed: _ } = self;
        value
    }

    /// Whether it is marked as removed.
    #[inline]
    pub fn is_removed(&self) -> bool
        ensures { result ≡ self.now.1 }
    {
        self.removed
    }
}

/// The value, marked or not.
impl<T> Deref for GallocElem<T> {
    type Target = T;

    ghost deref_gives = { λ e v. v ≡ e.0 };

    #[inline]
    fn deref(&self) -> &T {
        &self.value
    }
}

/// Writing leaves the mark as it is.
impl<T> DerefMut for GallocElem<T> {
    ghost use Rattle.giputils_index.specs.contracts.allocator.GallocElem.{the_row};

    ghost deref_mut_gives = { λ e v. v ≡ e.0 };

    #[inline]
    fn deref_mut(&mut self) -> &mut T
        ensures* writes_back { sem 𝓛 (Lends (the_row T.row) T.row self.entry result (λ v. (v, self.old.1))) }
        ensures value { result.now ≡ self.old.0 }
    {
        &mut self.value
    }
}

/// Values by the indexes that were given out for them, seen as the list of its slots: each value with whether it is
/// marked as removed.
#[derive(Drop)]
#[derive_where(Debug; T)]
pub struct Gallocator<T, A: Allocator = Global> {
    slots: Gvec<GallocElem<T>, A>,
    // How many slots are unmarked.
    live: usize,
}

impl<T, A: Allocator> Model for Gallocator<T, A> {
    ghost use Rattle.std.specs.Prelude.{◌≡◌, Bool, List};
    ghost use Rattle.giputils_index.specs.Allocator.{live_count};

    ghost Value = { List (T × Bool) };

    ghost view = { λ g. g.slots };

    ghost invariant = { λ g. g.live ≡ live_count g.slots };
}

impl<T, A: Allocator> Gallocator<T, A> {
    ghost use Rattle.giputils_index.specs.LendsValue.{lends_live};

    /// No values. It takes no memory.
    #[inline]
    pub fn new(alloc: A) -> Self
        ensures { result ≡ [] }
    {
        Gallocator {
            slots: Gvec::new(alloc),
            live: 0,
        }
    }

    /// The number of slots, marked ones counted. Each index below it may be used.
    #[inline]
    pub fn len(&self) -> usize
        ensures { result ≡ length self.now }
    {
        self.slots.len()
    }

    /// The number of slots that are not marked as removed. It is kept, and not counted anew.
    #[inline]
    pub fn live_len(&self) -> usize
        ensures { result ≡ live_count self.now }
    {
        self.live
    }

    /// Whether there is no slot, marked ones counted.
    #[inline]
    pub fn is_empty(&self) -> bool
        ensures { IsTrue result ↔ (self.now ≡ []) }
    {
        self.slots.is_empty()
    }

    /// Puts `value` into a new slot behind the others, unmarked, and answers its index.
    ///
    /// # Errors
    /// The value, where memory is refused. Nothing changes then.
    pub fn alloc(&mut self, value: T) -> Result<usize, T>
        ensures index { IfOk result (λ index. index ≡ length self.old) }
        ensures ok { OnOk result (self.new ≡ self.old ++ (value, false) ∷ []) }
        ensures value_returned { IfErr result (λ v. v ≡ value) }
        ensures err { OnErr result (self.new ≡ self.old) }
    {
        let index = self.len();
        self.slots
            .push(GallocElem::new(value))
            .map_err(|refused| refused.value.take())?;
        self.live += 1;
        Ok(index)
    }

    /// Marks slot `index` as removed. A marked one stays marked, and its value can still be read.
    ///
    /// The index must be below the length ([`Gallocator::len`]).
    #[inline]
    pub fn dealloc(&mut self, index: usize)
        requires { index < length self.old }
        ensures marked { self.new ≡ mark self.old index }
        ensures len { length self.new ≡ length self.old }

        // `marked` again, slot by slot.
        ensures mark { mark_at self.new index ≡ Some true }
        ensures other_marks { (k : ℕ) → k ≢ index → mark_at self.new k ≡ mark_at self.old k }
        ensures values { (k : ℕ) → value_at self.new k ≡ value_at self.old k }
    {
        if self.is_removed(index) {
            return;
        }
        self.live -= 1;
        let slot = &mut self.slots[index];
        slot.removed = true;
    }

    /// Marks slot `index` as removed, and takes its value out, in whose place it leaves `rest`.
    ///
    /// The index must be below the length ([`Gallocator::len`]).
    #[inline]
    pub fn take_out(&mut self, index: usize, rest: T) -> T
        requires { index < length self.old }
        ensures value { value_at self.old index ≡ Some result }
        ensures slots { self.new ≡ mark (write self.old index rest) index }
        ensures len { length self.new ≡ length self.old }
    {
        let value = std::mem::replace(&mut self[index], rest);
        self.dealloc(index);
        value
    }

    /// Marks slot `index` as removed and takes its value out, in whose place it leaves a default. `None` where there is
    /// no such slot, or where it is marked as removed: nothing changes then.
    ///
    /// A `T` without a default is kept as an `Option<T>`, whose default is `None`.
    #[inline]
    pub fn take(&mut self, index: usize) -> Option<T>
    where
        T: Default,
        ensures value { result ≡ live_at self.old index }
        ensures slots { OnSome result (TakesValue T.is_default index self.old self.new) }
        ensures none { IfNone result (self.new ≡ self.old) }

        // `slots` and `none` again, slot by slot.
        ensures len { length self.new ≡ length self.old }
        ensures taken { live_at self.new index ≡ None }
        ensures others { (k : ℕ) → k ≢ index → live_at self.new k ≡ live_at self.old k }
    {
        if index >= self.len() || self.is_removed(index) {
            return None;
        }
        Some(self.take_out(index, T::default()))
    }

    /// Whether slot `index` is marked as removed.
    ///
    /// The index must be below the length ([`Gallocator::len`]).
    #[inline]
    pub fn is_removed(&self, index: usize) -> bool
        requires { index < length self.now }
        ensures { mark_at self.now index ≡ Some result }
    {
        self.slots[index].is_removed()
    }

    /// The value of slot `index`, if there is such a slot and it is not marked as removed.
    #[inline]
    pub fn get(&self, index: usize) -> Option<&T>
        ensures value { option_copied result ≡ live_at self.now index }
    {
        if index >= self.len() || self.is_removed(index) {
            return None;
        }
        Some(&self[index])
    }

    /// The value of slot `index` for writing, if there is such a slot and it is not marked as removed.
    #[inline]
    pub fn get_mut(&mut self, index: usize) -> Option<&mut T>
        ensures* writes_back { sem 𝓛 (lends_live T.row A.row A.Allocator self.entry index result) }
        ensures value { option_copied_mut result ≡ live_at self.old index }
    {
        if index >= self.len() || self.is_removed(index) {
            return None;
        }
        Some(&mut self[index])
    }

    /// Drops the marked values, and closes the gaps: the others keep their order and are unmarked. Answers the map from
    /// the old index of each value that is kept to its new one.
    ///
    /// # Errors
    /// `AllocError` where memory for the map is refused. Nothing changes then.
    #[tactic(auto, using(crate::proofs::Renumbering::renumbered_by_map))]
    pub fn gc(&mut self) -> Result<GHashMap<usize, usize, A>, AllocError>
    where
        T: Drop,
        A: Copy,
        ensures ok { OnOk result (self.new ≡ unmarked_slots (survivors self.old)) }
        ensures map { IfOk result (λ m. IsIndexMap self.old m) }
        ensures renumbers { IfOk result (λ m. Renumbers self.old self.new (get nat_eq m)) }
        ensures err { OnErr result (self.new ≡ self.old) }
    {
        let indexes = self.index_map()?;
        self.close_gaps();
        Ok(indexes)
    }

    /// Collects as [`Gallocator::gc`] does, and answers a table in place of the map: at each old index its new one,
    /// where it has one. It asks for memory once.
    ///
    /// # Errors
    /// `AllocError` where memory for the table is refused. Nothing changes then.
    #[tactic(auto, using(crate::proofs::Renumbering::renumbered_by_table))]
    pub fn gc_table(&mut self) -> Result<Vec<Option<usize>, A>, AllocError>
    where
        T: Drop,
        A: Copy,
        ensures ok { OnOk result (self.new ≡ unmarked_slots (survivors self.old)) }
        ensures table { IfOk result (λ table. IsIndexTable self.old table.items) }
        ensures renumbers { IfOk result (λ table. Renumbers self.old self.new (table_at table.items)) }
        ensures err { OnErr result (self.new ≡ self.old) }
    {
        let table = self.index_table()?;
        self.close_gaps();
        Ok(table)
    }

    // Drops the marked values. The others keep their order.
    fn close_gaps(&mut self)
    where
        T: Drop,
        ensures { self.new ≡ unmarked_slots (survivors self.old) }
    {
        self.slots.retain(|slot| !slot.is_removed());
    }

    // The new index of each slot, where it has one.
    fn index_table(&self) -> Result<Vec<Option<usize>, A>, AllocError>
    where
        A: Copy,
        ensures { IfOk result (λ table. IsIndexTable self.now table.items) }
    {
        let mut table = Vec::with_capacity(*self.slots.allocator(), self.len())?;
        let mut next = 0usize;
        for slot in self.slots.iter() {
            if slot.is_removed() {
                table.push_reserved(None);
            } else {
                table.push_reserved(Some(next));
                next += 1;
            }
        }
        Ok(table)
    }

    // The new index of each unmarked slot. The map has room for all of them.
    fn index_map(&self) -> Result<GHashMap<usize, usize, A>, AllocError>
    where
        A: Copy,
        ensures { IfOk result (λ m. IsIndexMap self.now m) }
    {
        let mut indexes = GHashMap::new(*self.slots.allocator());
        indexes.reserve(self.live)?;
        let mut next = 0usize;
        let mut start = 0usize;
        while start < self.len() {
            let end = start + (self.len() - start).min(BLOCK);
            let (unmarked, count) = self.unmarked_between(start, end);
            next = put_in_turn(&mut indexes, &unmarked[..count], next)?;
            start = end;
        }
        Ok(indexes)
    }

    // The unmarked slots from `start` on, before `end`, and how many they are. No branch depends on a mark, so none is
    // guessed wrong.
    fn unmarked_between(&self, start: usize, end: usize) -> ([usize; BLOCK], usize)
        requires order { start ≤ end }
        requires few { end ≤ start + 64 }
        requires inside { end ≤ length self.now }
        ensures count { result.1 ≤ 64 }
        ensures unmarked { AreUnmarked self.now start end (take result.1 result.0) }
    {
        let mut unmarked = [0usize; BLOCK];
        let mut count = 0usize;
        for index in start..end {
            unmarked[count] = index;
            count += usize::from(!self.is_removed(index));
        }
        (unmarked, count)
    }
}

// Puts the keys into the map, in turn, with the numbers from `first` on, and answers the number behind theirs.
fn put_in_turn<A: Allocator + Clone>(
    indexes: &mut GHashMap<usize, usize, A>,
    keys: &[usize],
    first: usize,
) -> Result<usize, AllocError>
    requires fits { first + length keys.now < 2 ^ 64 }
    requires unique { HasUniqueKeys nat_eq indexes.old }
    ensures next { IfOk result (λ next. next ≡ first + length keys.now) }
    ensures values { OnOk result ((q : ℕ) →
        get nat_eq indexes.new q ≡ put_in_turn (get nat_eq indexes.old) keys.now first q) }
    ensures unique { OnOk result (HasUniqueKeys nat_eq indexes.new) }
{
    let count = lacking(indexes, keys);
    indexes.reserve(count)?;
    let mut next = first;
    for key in keys {
        indexes.insert(*key, next)?;
        next += 1;
    }
    Ok(next)
}

// How many of the keys the map lacks. No look-up waits for the one before it, so what they read comes from memory at
// once, and is near when the keys are put into the map.
fn lacking<A: Allocator>(indexes: &GHashMap<usize, usize, A>, keys: &[usize]) -> usize {
    let mut count = 0usize;
    for key in keys {
        count += usize::from(!indexes.contains_key(key));
    }
    count
}

/// The value of slot `index`, marked or not.
impl<T, A: Allocator> Index<usize> for Gallocator<T, A> {
    type Output = T;

    ghost can_index = { λ g i. i < length g };

    ghost index_gives = { λ g i v. value_at g i ≡ Some v };

    #[inline]
    fn index(&self, index: usize) -> &T {
        self.slots[index].deref()
    }
}

/// The value of slot `index`, marked or not. Writing leaves the mark as it is.
impl<T, A: Allocator> IndexMut<usize> for Gallocator<T, A> {
    ghost use Rattle.giputils_index.specs.LendsValue.{lends_value};

    #[inline]
    fn index_mut(&mut self, index: usize) -> &mut T
        requires { index < length self.old }
        ensures* writes_back { sem 𝓛 (lends_value T.row A.row A.Allocator self.entry index result) }
        ensures value { value_at self.old index ≡ Some result.now }
    {
        let slot = &mut self.slots[index];
        slot.deref_mut()
    }
}

/// The value of slot `index`, marked or not.
impl<T, A: Allocator> Index<u32> for Gallocator<T, A> {
    type Output = T;

    ghost can_index = { λ g i. i < length g };

    ghost index_gives = { λ g i v. value_at g i ≡ Some v };

    #[inline]
    fn index(&self, index: u32) -> &T {
        &self[index as usize]
    }
}

/// The value of slot `index`, marked or not. Writing leaves the mark as it is.
impl<T, A: Allocator> IndexMut<u32> for Gallocator<T, A> {
    ghost use Rattle.giputils_index.specs.LendsValue.{lends_value};

    #[inline]
    fn index_mut(&mut self, index: u32) -> &mut T
        requires { index < length self.old }
        ensures* writes_back { sem 𝓛 (lends_value T.row A.row A.Allocator self.entry index result) }
        ensures value { value_at self.old index ≡ Some result.now }
    {
        &mut self[index as usize]
    }
}
