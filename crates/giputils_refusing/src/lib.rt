//! An allocator for tests: it passes requests on to another allocator, and refuses those that it was told to.
//!
//! A collection borrows it, as in `Vec::<u32, &Refusing>::new(&memory)`, so that a test can ask it afterwards how many
//! requests there were and how many bytes the largest asked for. Requests are numbered from 1, and one that is refused
//! counts as well. A block that grows or shrinks is a request for the new block, and giving a block back is none.
//! [`refuse_each`] refuses each request of a piece of work in turn. The readers and writers of [`devices`] fail at a
//! chosen call.
#![tactic(auto)]

ghost use Rattle.std.specs.Prelude.{◌≡◌, ◌+◌, ◌↔◌, IsTrue, IfSome, min, max};
ghost use Rattle.giputils_refusing.specs.Refused.{Includes};

pub mod devices;
mod in_turn;

pub use in_turn::{MOST_RUNS, TurnFault, refuse_each, refuse_from_each};
use std::alloc::{AllocError, Allocator, Global};
use std::cell::Cell;

/// The requests that are refused, by their numbers. The first request is number 1.
#[derive(Clone, Copy, PartialEq, Eq, Debug)]
pub enum Refused {
    /// No request.
    Never,
    /// The request of this number alone.
    Nth(u64),
    /// The request of this number and each later one.
    From(u64),
}

impl Refused {
    /// Whether the request of this number is refused.
    pub fn includes(self, request: u64) -> bool
        ensures { IsTrue result ↔ Includes self request }
    {
        match self {
            Refused::Never => false,
            Refused::Nth(n) => request == n,
            Refused::From(first) => first <= request,
        }
    }
}

// What was asked for so far.
#[derive(Clone, Copy)]
struct Tally {
    requests: u64,
    largest: usize,
}

impl Tally {
    fn new() -> Self
        ensures requests { result.requests ≡ 0 }
        ensures largest { result.largest ≡ 0 }
    {
        Tally {
            requests: 0,
            largest: 0,
        }
    }

    // With one more request, for a block of `size` bytes.
    fn with_request(self, size: usize) -> Self
        ensures requests { result.requests ≡ min (self.requests + 1) u64.MAX }
        ensures largest { result.largest ≡ max self.largest size }
    {
        Tally {
            requests: self.requests.saturating_add(1),
            largest: self.largest.max(size),
        }
    }
}

/// An allocator over another one, that refuses the requests it was told to and counts them all.
///
/// A refused request is an `AllocError`, and the other allocator does not hear of it. Where that one has no memory
/// itself, its error is passed on. It is for one thread.
#[derive(Drop)]
pub struct Refusing<B = Global> {
    inner: B,
    refused: Refused,
    tally: Cell<Tally>,
}

impl<B> Refusing<B> {
    ghost use Rattle.giputils_refusing.specs.Refusing.{allocator_of, refused_of};

    /// Refuses no request.
    pub fn none(inner: B) -> Self
        ensures inner { allocator_of result ≡ inner }
        ensures refused { refused_of result ≡ Refused.Never }
    {
        Self::refusing(inner, Refused::Never)
    }

    /// Refuses the request of number `n` alone, counted from 1. With 0 it refuses none.
    pub fn nth(inner: B, n: u64) -> Self
        ensures inner { allocator_of result ≡ inner }
        ensures refused { refused_of result ≡ Refused.Nth n }
    {
        Self::refusing(inner, Refused::Nth(n))
    }

    /// Refuses the request of number `n`, counted from 1, and each later one. With 0 it refuses all.
    pub fn from(inner: B, n: u64) -> Self
        ensures inner { allocator_of result ≡ inner }
        ensures refused { refused_of result ≡ Refused.From n }
    {
        Self::refusing(inner, Refused::From(n))
    }

    fn refusing(inner: B, refused: Refused) -> Self
        ensures inner { allocator_of result ≡ inner }
        ensures refused { refused_of result ≡ refused }
    {
        Refusing {
            inner,
            refused,
            tally: Cell::new(Tally::new()),
        }
    }

    /// Which requests it refuses.
    pub fn refused(&self) -> Refused
        ensures { result ≡ refused_of self.now }
    {
        self.refused
    }

    /// How many requests were made so far, the refused ones among them. At `u64::MAX` it stays.
    ///
    /// The count changes behind a `&`, so no clause can say it: `giputils_trials` tests it.
    pub fn requests(&self) -> u64 {
        self.tally.get().requests
    }

    /// The size in bytes of the largest block that was asked for so far, be it by a refused request.
    /// It is 0 where there was no request.
    ///
    /// The size changes behind a `&`, so no clause can say it: `giputils_trials` tests it.
    pub fn largest(&self) -> usize {
        self.tally.get().largest
    }

    // Notes a request, and answers the allocator to ask, or `None` where the request is refused.
    fn admits(&self, size: usize) -> Option<&B>
        ensures { IfSome result (λ inner. inner.now ≡ allocator_of self.now) }
    {
        let tally = self.tally.get().with_request(size);
        self.tally.set(tally);
        if self.refused.includes(tally.requests) {
            return None;
        }
        Some(&self.inner)
    }

    fn inner(&self) -> &B
        ensures { result.now ≡ allocator_of self.now }
    {
        &self.inner
    }
}

unsafe impl<B: Allocator> Allocator for Refusing<B> {
    ghost use Rattle.giputils_refusing.specs.Refusing.{allocator_of};

    ghost dealloc_token = { λ memory. B.dealloc_token (allocator_of memory) };

    fn allocate(&self, size: usize, align: usize) -> Result<*mut u8, AllocError> {
        match self.admits(size) {
            Some(inner) => inner.allocate(size, align),
            None => Err(AllocError),
        }
    }

    unsafe fn deallocate(&self, ptr: *mut u8, size: usize, align: usize) {
        unsafe { self.inner().deallocate(ptr, size, align) }
    }
}
