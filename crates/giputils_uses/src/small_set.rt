//! A set of small numbers, kept in a vector of bits.
ghost use Rattle.std.specs.Prelude.{◌≡◌, ◌↔◌, ◌<◌, not, length, IfSome, IfNone, IfOk, OnErr, OnOk, IsTrue};
ghost use Rattle.giputils.specs.Ones.{true_places, IsNextOne};
ghost use Rattle.giputils_uses.specs.SmallSet.{has, HasNone, Inserts, Removes, IsUnion, IsIntersection, IsDifference, IsWithin, ListsMembers};

use giputils::bitvec::{BitVec, BitVecError};
use std::alloc::{AllocError, Allocator, Global};
use std::marker::Model;

/// A set of numbers below a bound, seen as a list of truth values: place n tells whether n is a member.
///
/// Shows bits as a set: `put` answers whether a member is new, `|=`, `&=` and `difference_with` go whole words at a
/// time, `count_ones` counts the members, `first_one`, `next_one` and `iter_ones` find them, and `fill` removes all.
#[derive(Drop)]
pub struct SmallSet<A: Allocator = Global> {
    bits: BitVec<A>,
}

impl<A: Allocator> Model for SmallSet<A> {
    ghost use Rattle.std.specs.Prelude.{Bool, List};

    ghost Value = { List Bool };

    ghost view = { λ s. s.bits };
}

impl<A: Allocator> SmallSet<A> {
    /// The empty set of numbers below `bound`.
    ///
    /// # Errors
    /// `BitVecError::Memory` where memory is refused; at most 64 numbers take none.
    pub fn new(alloc: A, bound: usize) -> Result<Self, BitVecError>
        ensures bound { IfOk result (λ set. length set ≡ bound) }
        ensures empty { IfOk result HasNone }
    {
        let bits = BitVec::from_elem(alloc, bound, false)?;
        Ok(SmallSet { bits })
    }

    /// The bound: members are below it.
    pub fn bound(&self) -> usize
        ensures { result ≡ length self.now }
    {
        self.bits.len()
    }

    /// Whether `n` is a member. Any number may be asked.
    pub fn contains(&self, n: usize) -> bool
        ensures { result ≡ has self.now n }
    {
        n < self.bits.len() && self.bits.get(n)
    }

    /// Puts `n` in, and answers whether it is new. It must be below [`SmallSet::bound`].
    #[tactic(auto, using(crate::proofs::SmallSets::inserted))]
    pub fn insert(&mut self, n: usize) -> bool
        requires { n < length self.old }
        ensures is_new { result ≡ not (has self.old n) }
        ensures members { Inserts n self.old self.new }
        ensures bound { length self.new ≡ length self.old }
    {
        !self.bits.put(n, true)
    }

    /// Takes `n` out, and answers whether it was a member. It must be below [`SmallSet::bound`].
    #[tactic(auto, using(crate::proofs::SmallSets::removed))]
    pub fn remove(&mut self, n: usize) -> bool
        requires { n < length self.old }
        ensures was_member { result ≡ has self.old n }
        ensures members { Removes n self.old self.new }
        ensures bound { length self.new ≡ length self.old }
    {
        self.bits.put(n, false)
    }

    /// Puts the members of another set of the same bound in.
    #[tactic(auto, using(crate::proofs::SmallSets::joined, crate::proofs::SmallSets::as_long))]
    pub fn union_with<B: Allocator>(&mut self, other: &SmallSet<B>)
        requires { length self.old ≡ length other.now }
        ensures members { IsUnion self.old other.now self.new }
        ensures bound { length self.new ≡ length self.old }
    {
        self.bits |= &other.bits;
    }

    /// Leaves the members that another set of the same bound has, too.
    #[tactic(auto, using(crate::proofs::SmallSets::met, crate::proofs::SmallSets::as_long))]
    pub fn intersect_with<B: Allocator>(&mut self, other: &SmallSet<B>)
        requires { length self.old ≡ length other.now }
        ensures members { IsIntersection self.old other.now self.new }
        ensures bound { length self.new ≡ length self.old }
    {
        self.bits &= &other.bits;
    }

    /// Takes the members of another set of the same bound out.
    #[tactic(auto, using(crate::proofs::SmallSets::taken, crate::proofs::SmallSets::as_long))]
    pub fn subtract<B: Allocator>(&mut self, other: &SmallSet<B>)
        requires { length self.old ≡ length other.now }
        ensures members { IsDifference self.old other.now self.new }
        ensures bound { length self.new ≡ length self.old }
    {
        self.bits.difference_with(&other.bits);
    }

    /// Whether each member is one of another set of the same bound.
    #[tactic(auto, using(crate::proofs::SmallSets::within))]
    pub fn is_subset<B: Allocator>(&self, other: &SmallSet<B>) -> bool
        requires { length self.now ≡ length other.now }
        ensures { IsTrue result ↔ IsWithin self.now other.now }
    {
        self.bits.is_subset(&other.bits)
    }

    /// Takes all members out. The bound stays.
    pub fn clear(&mut self)
        ensures empty { HasNone self.new }
        ensures bound { length self.new ≡ length self.old }
    {
        self.bits.fill(false);
    }

    /// The number of members.
    #[tactic(auto, using(crate::proofs::SmallSets::counted))]
    pub fn len(&self) -> usize
        ensures { result ≡ length (true_places 0 self.now) }
    {
        self.bits.count_ones()
    }

    /// The least member, if there is one.
    pub fn least(&self) -> Option<usize>
        ensures least { IfSome result (IsNextOne self.now 0) }
        ensures none { IfNone result (HasNone self.now) }
    {
        self.bits.first_one()
    }

    /// The members, rising.
    ///
    /// # Errors
    /// `AllocError` where memory for the list is refused.
    pub fn members(&self, alloc: A) -> Result<Vec<usize, A>, AllocError>
    where
        A: Copy,
        ensures { IfOk result (λ members. ListsMembers self.now members.items) }
    {
        self.places(alloc)
    }

    /// Takes all members out, and lists them, rising.
    ///
    /// Shows a walk by `next_one`, which goes on while the vector changes.
    ///
    /// # Errors
    /// `AllocError` where memory for the list is refused. The set is then as it was.
    pub fn drain(&mut self, alloc: A) -> Result<Vec<usize, A>, AllocError>
    where
        A: Copy,
        ensures members { IfOk result (λ members. ListsMembers self.old members.items) }
        ensures empty { OnOk result (HasNone self.new) }
        ensures bound { length self.new ≡ length self.old }
        ensures err { OnErr result (self.new ≡ self.old) }
    {
        take_places(&mut self.bits, alloc)
    }

    fn places(&self, alloc: A) -> Result<Vec<usize, A>, AllocError>
    where
        A: Copy,
        ensures { IfOk result (λ places. places.items ≡ true_places 0 self.now) }
    {
        self.bits.iter_ones().collect(alloc)
    }
}

// Makes each place false, and lists those that were true.
fn take_places<A: Allocator, B: Allocator>(
    bits: &mut BitVec<A>,
    alloc: B,
) -> Result<Vec<usize, B>, AllocError>
    ensures places { IfOk result (λ places. places.items ≡ true_places 0 bits.old) }
    ensures none { OnOk result (HasNone bits.new) }
    ensures len { length bits.new ≡ length bits.old }
    ensures err { OnErr result (bits.new ≡ bits.old) }
{
    let mut places = Vec::with_capacity(alloc, bits.count_ones())?;
    let mut start = 0;
    while let Some(place) = bits.next_one(start) {
        bits.set(place, false);
        places.push_reserved(place);
        start = place + 1;
    }
    Ok(places)
}
