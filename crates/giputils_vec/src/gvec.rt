//! A vector that is indexed by `u32`, `i32` and `usize`.

// How it is proved: filling. Use `for` with `push_reserved` after one `reserve`; `resize_with` gets
// no proof. `retain` closes by `filter_same` (giputils_index `src/allocator.rt`).

ghost use Rattle.std.specs.Prelude.{◌≡◌, ◌+◌, ◌<◌, ◌≤◌, [], length, slice_index_or, swap, IfOk, OnOk, OnErr, IsOk};
ghost use Rattle.std.specs.List.{FoldsTo, AllZip};
ghost use Rattle.std.specs.Borrow.{sem};
ghost use Rattle.giputils_vec.specs.Gvec.{swap_remove, FilledTo, Draws, Iterates, IsPlace, place};

use std::alloc::{AllocError, Allocator, Global};
use std::marker::Model;
use std::ops::{Deref, DerefMut, Index, IndexMut};
use std::vec;

/// A vector, seen as the list of its items.
///
/// Its room is that of the `Vec` that it lends ([`Gvec::deref_mut`]), with whose `reserve` and `push_reserved` a list
/// grows by pushes that can't be refused.
#[derive(Drop)]
#[derive_where(Debug; T)]
pub struct Gvec<T, A: Allocator = Global> {
    items: Vec<T, A>,
}

impl<T, A: Allocator> Model for Gvec<T, A> {
    ghost use Rattle.std.specs.Prelude.{List};

    ghost Value = { List T };

    ghost view = { λ g. g.items.items };
}

impl<T, A: Allocator> Gvec<T, A> {
    /// The empty list. It takes no memory.
    #[inline]
    pub fn new(alloc: A) -> Self
        ensures { result ≡ [] }
    {
        Gvec {
            items: Vec::new(alloc),
        }
    }

    /// The number of items.
    #[inline]
    pub fn len(&self) -> usize
        ensures { result ≡ length self.now }
    {
        self.items.len()
    }

    /// `len` items, each an answer of `draw`, which is lent the generator. `draw` may be called on every state of it.
    ///
    /// All the memory is asked for in one request, before anything is drawn.
    ///
    /// # Errors
    /// `AllocError` where memory is refused. The generator is then as it was.
    pub fn new_rand<R, F: Fn(&mut R) -> T + Drop>(
        alloc: A,
        len: usize,
        rng: &mut R,
        draw: F,
    ) -> Result<Self, AllocError>
    where
        T: Drop,
        requires { F.IsAlwaysCallable draw }
        ensures len { IfOk result (λ g. length g ≡ len) }
        ensures drawn { IfOk result (λ g. FoldsTo (Draws (F.post draw)) rng.old g rng.new) }
        ensures err { OnErr result (rng.new ≡ rng.old) }
    {
        let mut items = Vec::with_capacity(alloc, len)?;
        for _ in 0..len {
            items.push_reserved(draw(rng));
        }
        Ok(Gvec { items })
    }

    /// The items of an array, in order.
    ///
    /// # Errors
    /// `AllocError` where memory is refused.
    pub fn from_array<const N: usize>(alloc: A, items: [T; N]) -> Result<Self, AllocError>
    where
        T: Copy,
        ensures { IfOk result (λ g. g ≡ items) }
    {
        Ok(Gvec {
            items: Vec::from_array(alloc, items)?,
        })
    }

    /// Items `x` and `y` change places. It takes no memory.
    #[inline]
    pub fn swap(&mut self, x: u32, y: u32)
        requires x_in_bounds { x < length self.old }
        requires y_in_bounds { y < length self.old }
        ensures { self.new ≡ swap self.old x y }
    {
        self.items.swap(x as usize, y as usize);
    }

    /// Puts the last item in the place of item `i`, and makes the list one shorter. It takes no memory.
    #[inline]
    pub fn swap_remove(&mut self, i: usize)
    where
        T: Copy,
        requires { i < length self.old }
        ensures items { self.new ≡ swap_remove self.old i }
        ensures len { length self.new + 1 ≡ length self.old }
    {
        let _ = self.items.swap_remove(i);
    }

    /// Appends defaults until there are `size` items, by one request for memory at most. Where there are as many
    /// already, nothing changes and no memory is asked for.
    ///
    /// # Errors
    /// `AllocError` where memory is refused. Nothing changes then.
    pub fn reserve(&mut self, size: usize) -> Result<(), AllocError>
    where
        T: Default + Drop,
        ensures filled { OnOk result (FilledTo T.is_default size self.old self.new) }
        ensures had_room { size ≤ length self.old → IsOk result }
        ensures err { OnErr result (self.new ≡ self.old) }
    {
        let missing = size.saturating_sub(self.len());
        self.items.reserve(missing)?;
        for _ in 0..missing {
            self.items.push_reserved(T::default());
        }
        Ok(())
    }

    /// The `Vec` of the items, with its room. It takes no memory, nor does the way back ([`Gvec::from`]).
    #[inline]
    pub fn into_vec(self) -> Vec<T, A>
        ensures { result.items ≡ self }
    {
        self.items
    }
}

/// Clones each item.
///
/// # Errors
/// `AllocError` where memory for the list or for an item is refused.
impl<T: Clone, A: Allocator + Clone> Clone for Gvec<T, A> {
    ghost is_clone = { AllZip T.is_clone };

    fn clone(&self) -> Result<Self, AllocError> {
        Ok(Gvec {
            items: self.items.clone()?,
        })
    }
}

impl<T, A: Allocator> Index<usize> for Gvec<T, A> {
    type Output = T;

    ghost can_index = { λ g i. i < length g };

    ghost index_gives = { λ g i x. x ≡ slice_index_or g i x };

    #[inline]
    fn index(&self, index: usize) -> &T {
        &self.items[index]
    }
}

impl<T, A: Allocator> IndexMut<usize> for Gvec<T, A> {
    ghost use Rattle.giputils_vec.specs.Lends.{lends_item};

    #[inline]
    fn index_mut(&mut self, index: usize) -> &mut T
        requires { index < length self.old }
        ensures* writes_back { sem 𝓛 (lends_item T.row A.row A.Allocator self.entry index result) }
        ensures value { result.now ≡ slice_index_or self.old index result.now }
    {
        &mut self.items[index]
    }
}

impl<T, A: Allocator> Index<u32> for Gvec<T, A> {
    type Output = T;

    ghost can_index = { λ g i. i < length g };

    ghost index_gives = { λ g i x. x ≡ slice_index_or g i x };

    #[inline]
    fn index(&self, index: u32) -> &T {
        &self.items[index as usize]
    }
}

impl<T, A: Allocator> IndexMut<u32> for Gvec<T, A> {
    ghost use Rattle.giputils_vec.specs.Lends.{lends_item};

    #[inline]
    fn index_mut(&mut self, index: u32) -> &mut T
        requires { index < length self.old }
        ensures* writes_back { sem 𝓛 (lends_item T.row A.row A.Allocator self.entry index result) }
        ensures value { result.now ≡ slice_index_or self.old index result.now }
    {
        &mut self.items[index as usize]
    }
}

impl<T, A: Allocator> Index<i32> for Gvec<T, A> {
    type Output = T;

    ghost can_index = { λ g i. IsPlace i (length g) };

    ghost index_gives = { λ g i x. x ≡ slice_index_or g (place i) x };

    #[inline]
    fn index(&self, index: i32) -> &T {
        &self.items[index as usize]
    }
}

impl<T, A: Allocator> IndexMut<i32> for Gvec<T, A> {
    ghost use Rattle.giputils_vec.specs.Lends.{lends_item};

    #[inline]
    fn index_mut(&mut self, index: i32) -> &mut T
        requires { IsPlace index (length self.old) }
        ensures* writes_back { sem 𝓛 (lends_item T.row A.row A.Allocator self.entry (place index) result) }
        ensures value { result.now ≡ slice_index_or self.old (place index) result.now }
    {
        &mut self.items[index as usize]
    }
}

/// The items, in order.
impl<T: Drop, A: Allocator> IntoIterator for Gvec<T, A> {
    type Item = T;

    type IntoIter = vec::IntoIter<T, A>;

    ghost into_iter_gives = { Iterates };

    #[inline]
    fn into_iter(self) -> vec::IntoIter<T, A> {
        self.items.into_iter()
    }
}

/// The items that the iterator gives, in order.
///
/// Where the iterator is at hand write `iterator.collect(alloc)`: a proof then knows the list at once, and after
/// `Gvec::from_iter` only that some run of the iterator gave it.
///
/// # Errors
/// `AllocError` where memory is refused. Nothing is left of the items.
impl<T: Drop, A: Allocator> FromIterator<T> for Gvec<T, A> {
    type Alloc = A;

    ghost from_iter_gives = { λ xs g. g ≡ xs };

    fn from_iter<U: IntoIterator<Item = T>>(alloc: A, iter: U) -> Result<Self, AllocError> {
        Ok(Gvec {
            items: Vec::from_iter(alloc, iter)?,
        })
    }
}

/// The items of the `Vec`, in order. It takes no memory.
impl<T, A: Allocator> From<Vec<T, A>> for Gvec<T, A> {
    ghost from_gives = { λ v g. g ≡ v.items };

    #[inline]
    fn from(items: Vec<T, A>) -> Self {
        Gvec { items }
    }
}

impl<T, A: Allocator> Deref for Gvec<T, A> {
    type Target = Vec<T, A>;

    ghost deref_gives = { λ g v. v.items ≡ g };

    #[inline]
    fn deref(&self) -> &Vec<T, A> {
        &self.items
    }
}

impl<T, A: Allocator> DerefMut for Gvec<T, A> {
    ghost use Rattle.giputils_vec.specs.Lends.{lends_vec};

    ghost deref_mut_gives = { λ g v. v.items ≡ g };

    #[inline]
    fn deref_mut(&mut self) -> &mut Vec<T, A>
        ensures* writes_back { sem 𝓛 (lends_vec T.row A.row A.Allocator self.entry result) }
        ensures value { result.now.items ≡ self.old }
    {
        &mut self.items
    }
}
