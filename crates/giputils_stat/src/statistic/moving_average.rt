//! The average of the last numbers that were added.
ghost use Rattle.std.specs.Prelude.{◌≡◌, ◌↔◌, [], ◌∷◌, ◌++◌, length, Some, IfOk, IsTrue};
ghost use Rattle.circular_buffer.specs.Buffer.{buffer, keep_last};
ghost use Rattle.giputils_stat.specs.Tally.{tally_of};
ghost use Rattle.giputils_stat.specs.Texts.{average_text};

use super::average::Average;
use circular_buffer::HeapCircularBuffer;
use std::alloc::{AllocError, Allocator, Global};
use std::fmt::{self, Debug};
use std::marker::Model;

/// The average of the last numbers, as many as there is room for, shown to six decimals.
///
/// All its memory is asked for where it is made. It is seen as the numbers, the last one last, and
/// how many there may be.
#[derive(Drop)]
pub struct MovingAverage<A: Allocator = Global> {
    numbers: HeapCircularBuffer<usize, A>,
    total: u128,
}

impl<A: Allocator> Model for MovingAverage<A> {
    ghost use Rattle.std.specs.Prelude.{◌≡◌, ◌<◌, ◌≤◌, ◌^◌, ℕ, length, sum};
    ghost use Rattle.circular_buffer.specs.Buffer.{Buffer};
    ghost use Rattle.giputils_stat.specs.Tally.{AreNumbers};

    ghost Value = { Buffer ℕ };

    ghost view = { λ a. a.numbers };

    ghost invariant = { λ a. (a.total ≡ sum a.numbers.items)
        × (length a.numbers.items ≤ a.numbers.capacity) × (a.numbers.capacity < 2 ^ 63)
        × AreNumbers a.numbers.items };
}

impl<A: Allocator> MovingAverage<A> {
    /// No number yet, and room for `room` of them. With room for none, every number that is pushed is dropped.
    ///
    /// # Errors
    /// The memory for them was refused, or is more than can be asked for.
    #[inline]
    pub fn with_room(alloc: A, room: usize) -> Result<Self, AllocError>
        ensures { IfOk result (λ a. a ≡ buffer [] room) }
    {
        let numbers = HeapCircularBuffer::with_capacity(alloc, room)?;
        // No effect at run time. Keep it: it tells that no sum of so many numbers is above `u128::MAX`.
        numbers.capacity();
        Ok(MovingAverage { numbers, total: 0 })
    }

    /// Adds a number. Where there is no more room, the first one goes.
    #[inline]
    pub fn push(&mut self, number: usize)
        ensures last { self.new.items ≡ keep_last self.old.capacity (self.old.items ++ number ∷ []) }
        ensures room { self.new.capacity ≡ self.old.capacity }
    {
        let first = self.numbers.push_back(number);
        let gone = first.unwrap_or(0);
        self.total = self.total + number as u128 - gone as u128;
    }

    /// How many numbers it holds.
    #[inline]
    pub fn len(&self) -> usize
        ensures { result ≡ length self.now.items }
    {
        self.numbers.len()
    }

    /// Whether it holds no number.
    #[inline]
    pub fn is_empty(&self) -> bool
        ensures { IsTrue result ↔ (self.now.items ≡ []) }
    {
        self.numbers.is_empty()
    }

    /// How many numbers it holds at most.
    #[inline]
    pub fn capacity(&self) -> usize
        ensures { result ≡ self.now.capacity }
    {
        self.numbers.capacity()
    }

    /// Whether the next number takes the place of the first. With room for none it always is full.
    #[inline]
    pub fn is_full(&self) -> bool
        ensures { IsTrue result ↔ (length self.now.items ≡ self.now.capacity) }
    {
        self.numbers.is_full()
    }

    /// The average of the numbers.
    #[inline]
    pub fn average(&self) -> Average
        ensures { result ≡ tally_of self.now.items }
    {
        Average::of_sum(self.total, self.numbers.len())
    }

    /// Forgets the numbers. It keeps the memory.
    #[inline]
    pub fn clear(&mut self)
        ensures { self.new ≡ buffer [] self.old.capacity }
    {
        self.numbers.clear();
        self.total = 0;
    }
}

/// The average of the numbers to six decimals, or `NaN` where there is none.
impl<A: Allocator> Debug for MovingAverage<A> {
    ghost debug_output = { λ a. Some (average_text (tally_of a.items)) };

    fn fmt<W: fmt::Write>(&self, f: &mut fmt::Formatter<W>) -> fmt::Result {
        self.average().fmt(f)
    }
}
