//! A list of calls, made on an allocator one after another.
ghost use Rattle.std.specs.Prelude.{◌≡◌, [], length, IfOk, vec_len};
ghost use Rattle.giputils_index.specs.AllocatorRun.{IsAnswer, slots_after, Answers};

use crate::allocator::Gallocator;
use giputils_hash::hash::GHashMap;
use std::alloc::{AllocError, Allocator, Global};

/// A call on an allocator, with its arguments.
#[derive(Clone, Copy, Debug)]
pub enum GallocCall<T> {
    /// [`Gallocator::alloc`] of this value.
    Alloc(T),
    /// [`Gallocator::dealloc`] of the slot at this index.
    Dealloc(usize),
    /// [`Gallocator::is_removed`] of the slot at this index.
    IsRemoved(usize),
    /// Reads the value at this index.
    Read(usize),
    /// Writes this value at this index.
    Write(usize, T),
    /// [`Gallocator::gc`].
    Gc,
    /// [`Gallocator::len`].
    Len,
}

/// What a call on an allocator answered.
#[derive(Drop)]
#[derive_where(Debug; T)]
pub enum GallocReply<T, A: Allocator = Global> {
    /// The index of the value that `Alloc` put in.
    Index(usize),
    /// `Dealloc` or `Write` was done.
    Done,
    /// Whether the slot that `IsRemoved` asked for is marked.
    Flag(bool),
    /// The value that `Read` asked for.
    Value(T),
    /// The map from old indexes to new ones that `Gc` answered.
    Map(GHashMap<usize, usize, A>),
    /// The number of slots that `Len` asked for.
    Length(usize),
    /// There was no memory for `Alloc` or `Gc`, and nothing changed.
    Refused,
    /// The index was not below the length, and nothing was called.
    Skipped,
}

/// Makes the calls in order, from no values on, and answers what they leave, and one reply for each.
///
/// The memory for the list of replies is asked for first.
///
/// # Errors
/// `AllocError` where memory for the list of replies is refused. No call was made then.
pub fn galloc_run<T: Copy, A: Allocator + Copy>(
    alloc: A,
    calls: &[GallocCall<T>],
) -> Result<(Gallocator<T, A>, Vec<GallocReply<T, A>, A>), AllocError>
    ensures answers { IfOk result (λ run. Answers [] calls.now run.1.items run.0) }
    ensures len { IfOk result (λ run. vec_len run.1 ≡ length calls.now) }
{
    let mut replies = Vec::with_capacity(alloc, calls.len())?;
    let mut allocator = Gallocator::new(alloc);
    for call in calls {
        replies.push_reserved(make_call(&mut allocator, *call));
    }
    Ok((allocator, replies))
}

// Makes one call, if its index is below the length.
fn make_call<T: Copy, A: Allocator + Copy>(
    allocator: &mut Gallocator<T, A>,
    call: GallocCall<T>,
) -> GallocReply<T, A>
    ensures reply { IsAnswer allocator.old call result }
    ensures slots { allocator.new ≡ slots_after allocator.old call result }
{
    match call {
        GallocCall::Alloc(value) => match allocator.alloc(value) {
            Ok(index) => GallocReply::Index(index),
            Err(_) => GallocReply::Refused,
        },
        GallocCall::Dealloc(index) => {
            if index >= allocator.len() {
                return GallocReply::Skipped;
            }
            allocator.dealloc(index);
            GallocReply::Done
        }
        GallocCall::IsRemoved(index) => {
            if index >= allocator.len() {
                return GallocReply::Skipped;
            }
            GallocReply::Flag(allocator.is_removed(index))
        }
        GallocCall::Read(index) => {
            if index >= allocator.len() {
                return GallocReply::Skipped;
            }
            GallocReply::Value(allocator[index])
        }
        GallocCall::Write(index, value) => {
            if index >= allocator.len() {
                return GallocReply::Skipped;
            }
            allocator[index] = value;
            GallocReply::Done
        }
        GallocCall::Gc => match allocator.gc() {
            Ok(indexes) => GallocReply::Map(indexes),
            Err(_) => GallocReply::Refused,
        },
        GallocCall::Len => GallocReply::Length(allocator.len()),
    }
}
