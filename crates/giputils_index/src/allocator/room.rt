//! Room ahead: an allocator that is being filled, and for how many more values it has memory.
ghost use Rattle.std.specs.Prelude.{◌≡◌, ◌+◌, ◌<◌, ◌≤◌, [], ◌∷◌, ◌++◌, false, length, IsOk, OnOk, OnErr};

use super::{GallocElem, Gallocator};
use giputils_vec::gvec::Gvec;
use std::alloc::{AllocError, Allocator, Global};
use std::marker::Model;
use std::ops::DerefMut;

/// An allocator of indexes that is being filled, seen as its slots and for how many more values it has memory.
///
/// [`Gallocator::into_reserved`] makes it. What can be refused comes first, as [`Reserved::reserve`] beside other
/// requests; then values are put in, which can't be refused, and [`Reserved::finish`] gives the allocator back.
#[derive(Drop)]
pub struct Reserved<T, A: Allocator = Global> {
    slots: Vec<GallocElem<T>, A>,
    // How many slots are unmarked.
    live: usize,
}

impl<T, A: Allocator> Model for Reserved<T, A> {
    ghost use Rattle.std.specs.Prelude.{◌≡◌, ◌-◌, length, vec_capacity};
    ghost use Rattle.giputils_index.specs.Room.{Room, room_code};

    ghost Value = { Room T };

    ghost coded = { room_code T.code };

    ghost use Rattle.giputils_index.specs.Allocator.{live_count};

    ghost view = { λ r. record { slots = r.slots.items; room = vec_capacity r.slots - length r.slots.items } };

    ghost invariant = { λ r. r.live ≡ live_count r.slots.items };
}

impl<T, A: Allocator> Gallocator<T, A> {
    /// Asks for room for `additional` more values, by one request at most: as many calls of [`Gallocator::alloc`] then
    /// ask for no memory. That they succeed is known of a [`Reserved`] alone, which shows its room.
    ///
    /// # Errors
    /// `AllocError` where memory is refused.
    pub fn reserve(&mut self, additional: usize) -> Result<(), AllocError>
        ensures { self.new ≡ self.old }
    {
        self.slots.deref_mut().reserve(additional)
    }

    /// The allocator, to be filled: its room is known from here on. It takes no memory.
    #[inline]
    pub fn into_reserved(self) -> Reserved<T, A>
        ensures { result.slots ≡ self }
    {
        let Gallocator { slots, live } = self;
        Reserved {
            slots: slots.into_vec(),
            live,
        }
    }
}

impl<T, A: Allocator> Reserved<T, A> {
    /// For how many more values there is memory.
    #[inline]
    pub fn room(&self) -> usize
        ensures { result ≡ self.now.room }
    {
        self.slots.capacity() - self.slots.len()
    }

    /// Makes room for `additional` more values, by one request at most.
    ///
    /// # Errors
    /// `AllocError` where memory is refused. Nothing changes then.
    pub fn reserve(&mut self, additional: usize) -> Result<(), AllocError>
        ensures ok { OnOk result (additional ≤ self.new.room) }
        ensures had_room { additional ≤ self.old.room → IsOk result }
        ensures slots { self.new.slots ≡ self.old.slots }
        ensures room { self.old.room ≤ self.new.room }
        ensures err { OnErr result (self.new ≡ self.old) }
    {
        self.slots.reserve(additional)
    }

    /// Puts `value` into a new slot behind the others, unmarked, and answers its index. It takes no memory.
    ///
    /// There must be room ([`Reserved::room`]).
    #[inline]
    pub fn alloc_reserved(&mut self, value: T) -> usize
        requires { 0 < self.old.room }
        ensures index { result ≡ length self.old.slots }
        ensures slots { self.new.slots ≡ self.old.slots ++ (value, false) ∷ [] }
        ensures room { self.new.room + 1 ≡ self.old.room }
    {
        let index = self.slots.len();
        self.slots.push_reserved(GallocElem::new(value));
        self.live += 1;
        index
    }

    /// The allocator of the same slots. It takes no memory.
    #[inline]
    pub fn finish(self) -> Gallocator<T, A>
        ensures { result ≡ self.slots }
    {
        let Reserved { slots, live } = self;
        Gallocator {
            slots: Gvec::from(slots),
            live,
        }
    }
}
