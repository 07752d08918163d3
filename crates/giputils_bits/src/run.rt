//! A list of calls, made on a bit vector one after another.
ghost use Rattle.std.specs.Prelude.{◌≡◌, ◌<◌, ◌⊎◌, ⊤, [], length, IfOk, MatchResult, vec_len};
ghost use Rattle.giputils_bits.specs.BitRun.{ExtendsBy, bits_after_extend, if_done, IsAnswer, bits_after, Answers};
ghost use Rattle.giputils_bits.specs.Logic.{not_of};
ghost use Rattle.giputils_bits.specs.declared.bitvec.error.BitVecError.TheVariants.{Memory};
ghost use Rattle.giputils_bits.specs.declared.run.BitReply.TheVariants.{Done, Refused};

use crate::bitvec::{BitVec, BitVecError};
use std::alloc::{AllocError, Allocator, Global};

/// A call on a bit vector, with its arguments. What it borrows may be of another allocator.
#[derive_where(PartialEq, Eq, Debug)]
pub enum BitCall<'a, A: Allocator = Global> {
    /// [`BitVec::push`] of this bit.
    Push(bool),
    /// [`BitVec::push_word`] of this word.
    PushWord(u64),
    /// [`BitVec::set`] of the bit at this index.
    SetBit(usize, bool),
    /// [`BitVec::get`] of the bit at this index.
    GetBit(usize),
    /// [`BitVec::clear`].
    Clear,
    /// [`BitVec::extend`] by these bits.
    Extend(&'a [bool]),
    /// `&=` with this vector.
    AndWith(&'a BitVec<A>),
    /// `|=` with this vector.
    OrWith(&'a BitVec<A>),
    /// `^=` with this vector.
    XorWith(&'a BitVec<A>),
    /// Replaces the vector by [`BitVec::not`] of it.
    Invert,
    /// [`BitVec::len`].
    Len,
    /// [`BitVec::word_len`].
    WordLen,
    /// [`BitVec::to_usize`].
    ToUsize,
    /// [`BitVec::is_empty`].
    IsEmpty,
    /// [`BitVec::is_zero`].
    IsZero,
    /// [`BitVec::is_one`].
    IsOne,
    /// [`BitVec::is_ones`].
    IsOnes,
    /// [`BitVec::bool`].
    Bool,
    /// [`BitVec::try_bool`].
    TryBool,
    /// [`BitVec::put`] of the bit at this index.
    Put(usize, bool),
    /// [`BitVec::flip`] of the bit at this index.
    Flip(usize),
    /// [`BitVec::set_word`] of the word with this number.
    SetWord(usize, u64),
    /// [`BitVec::fill`] with this bit.
    Fill(bool),
    /// [`BitVec::copy_from`] this vector.
    CopyFrom(&'a BitVec<A>),
    /// [`BitVec::negate`].
    Negate,
    /// [`BitVec::difference_with`] this vector.
    DifferenceWith(&'a BitVec<A>),
    /// [`BitVec::assign_and`] of these two vectors, each negated where that is told.
    AssignAnd(&'a BitVec<A>, bool, &'a BitVec<A>, bool),
    /// [`BitVec::append`] of this vector.
    Append(&'a BitVec<A>),
    /// [`BitVec::resize`] to this length by this bit.
    Resize(usize, bool),
    /// [`BitVec::truncate`] to this length.
    Truncate(usize),
    /// [`BitVec::pop`].
    Pop,
    /// [`BitVec::count_ones`].
    CountOnes,
    /// [`BitVec::any`].
    Any,
    /// [`BitVec::all`].
    All,
    /// [`BitVec::none`].
    None,
    /// [`BitVec::next_one`] from this index on.
    NextOne(usize),
    /// [`BitVec::is_subset`] of this vector.
    IsSubset(&'a BitVec<A>),
    /// [`BitVec::is_disjoint`] with this vector.
    IsDisjoint(&'a BitVec<A>),
}

impl<'a, A: Allocator> Copy for BitCall<'a, A> {}

impl<'a, A: Allocator> Clone for BitCall<'a, A> {
    ghost is_clone = { λ call copy. copy ≡ call };

    ghost is_infallible = { λ _. ⊤ };

    #[inline]
    fn clone(&self) -> Result<Self, AllocError> {
        Ok(*self)
    }
}

/// What a call on a bit vector answered.
#[derive(Clone, Copy, PartialEq, Eq, Debug)]
pub enum BitReply {
    /// The call was made, and answers nothing.
    Done,
    /// `Push`, `PushWord`, `Extend`, `Invert`, `Append` or `Resize` was refused: why, and how many of its items `Extend`
    /// has kept. The others keep none, and leave the vector as it was.
    Refused(BitVecError, usize),
    /// The call was not made: its index is not below the length (at `SetWord` not below the number of words), a vector
    /// that it borrows has another length, the vector is empty where `IsZero`, `IsOne` or `IsOnes` asks for a bit, or
    /// has not one bit where `Bool` asks for it.
    Skipped,
    /// The bit, or what is true of the vector.
    Bit(bool),
    /// What `TryBool` or `Pop` answered.
    MaybeBit(Option<bool>),
    /// What `Len`, `WordLen`, `ToUsize` or `CountOnes` answered.
    Number(usize),
    /// What `NextOne` answered.
    Place(Option<usize>),
}

/// Makes the calls in order, from the empty vector on, and answers what they leave, and one reply for each.
///
/// A call whose condition does not hold is not made, and its reply is `Skipped`. The memory for the list of replies is
/// asked for first. Where that is refused no call was made.
pub fn bit_run<A: Allocator + Copy, B: Allocator>(
    alloc: A,
    calls: &[BitCall<'_, B>],
) -> Result<(BitVec<A>, Vec<BitReply, A>), AllocError>
    ensures answers { IfOk result (λ run. Answers [] calls.now run.1.items run.0) }
    ensures len { IfOk result (λ run. vec_len run.1 ≡ length calls.now) }
{
    let mut replies = Vec::with_capacity(alloc, calls.len())?;
    let mut bits = BitVec::new(alloc);
    for call in calls {
        replies.push_reserved(make_call(&mut bits, *call));
    }
    Ok((bits, replies))
}

// Makes one call, if its condition holds.
fn make_call<A: Allocator + Copy, B: Allocator>(
    bits: &mut BitVec<A>,
    call: BitCall<'_, B>,
) -> BitReply
    ensures reply { IsAnswer bits.old call.entry result }
    ensures after { bits.new ≡ bits_after bits.old call.entry result }
{
    let len = bits.len();
    match call {
        BitCall::Push(bit) => reply_to(bits.push(bit)),
        BitCall::PushWord(word) => reply_to(bits.push_word(word)),
        BitCall::SetBit(index, val) => {
            if index >= len {
                return BitReply::Skipped;
            }
            bits.set(index, val);
            BitReply::Done
        }
        BitCall::GetBit(index) => {
            if index >= len {
                return BitReply::Skipped;
            }
            BitReply::Bit(bits.get(index))
        }
        BitCall::Clear => {
            bits.clear();
            BitReply::Done
        }
        BitCall::Extend(items) => append(bits, items),
        BitCall::AndWith(other) => {
            if len != other.len() {
                return BitReply::Skipped;
            }
            *bits &= other;
            BitReply::Done
        }
        BitCall::OrWith(other) => {
            if len != other.len() {
                return BitReply::Skipped;
            }
            *bits |= other;
            BitReply::Done
        }
        BitCall::XorWith(other) => {
            if len != other.len() {
                return BitReply::Skipped;
            }
            *bits ^= other;
            BitReply::Done
        }
        BitCall::Invert => invert(bits),
        BitCall::Len => BitReply::Number(len),
        BitCall::WordLen => BitReply::Number(bits.word_len()),
        BitCall::ToUsize => BitReply::Number(bits.to_usize()),
        BitCall::IsEmpty => BitReply::Bit(bits.is_empty()),
        BitCall::IsZero => {
            if len == 0 {
                return BitReply::Skipped;
            }
            BitReply::Bit(bits.is_zero())
        }
        BitCall::IsOne => {
            if len == 0 {
                return BitReply::Skipped;
            }
            BitReply::Bit(bits.is_one())
        }
        BitCall::IsOnes => {
            if len == 0 {
                return BitReply::Skipped;
            }
            BitReply::Bit(bits.is_ones())
        }
        BitCall::Bool => match bits.try_bool() {
            Some(bit) => BitReply::Bit(bit),
            None => BitReply::Skipped,
        },
        BitCall::TryBool => BitReply::MaybeBit(bits.try_bool()),
        BitCall::Put(index, val) => {
            if index >= len {
                return BitReply::Skipped;
            }
            BitReply::Bit(bits.put(index, val))
        }
        BitCall::Flip(index) => {
            if index >= len {
                return BitReply::Skipped;
            }
            bits.flip(index);
            BitReply::Done
        }
        BitCall::SetWord(k, word) => {
            if k >= bits.word_len() {
                return BitReply::Skipped;
            }
            bits.set_word(k, word);
            BitReply::Done
        }
        BitCall::Fill(val) => {
            bits.fill(val);
            BitReply::Done
        }
        BitCall::CopyFrom(other) => {
            if len != other.len() {
                return BitReply::Skipped;
            }
            bits.copy_from(other);
            BitReply::Done
        }
        BitCall::Negate => {
            bits.negate();
            BitReply::Done
        }
        BitCall::DifferenceWith(other) => {
            if len != other.len() {
                return BitReply::Skipped;
            }
            bits.difference_with(other);
            BitReply::Done
        }
        BitCall::AssignAnd(a, not_a, b, not_b) => {
            if len != a.len() || len != b.len() {
                return BitReply::Skipped;
            }
            bits.assign_and(a, not_a, b, not_b);
            BitReply::Done
        }
        BitCall::Append(other) => reply_to(bits.append(other)),
        BitCall::Resize(new_len, val) => reply_to(bits.resize(new_len, val)),
        BitCall::Truncate(new_len) => {
            bits.truncate(new_len);
            BitReply::Done
        }
        BitCall::Pop => BitReply::MaybeBit(bits.pop()),
        BitCall::CountOnes => BitReply::Number(bits.count_ones()),
        BitCall::Any => BitReply::Bit(bits.any()),
        BitCall::All => BitReply::Bit(bits.all()),
        BitCall::None => BitReply::Bit(bits.none()),
        BitCall::NextOne(start) => BitReply::Place(bits.next_one(start)),
        BitCall::IsSubset(other) => {
            if len != other.len() {
                return BitReply::Skipped;
            }
            BitReply::Bit(bits.is_subset(other))
        }
        BitCall::IsDisjoint(other) => {
            if len != other.len() {
                return BitReply::Skipped;
            }
            BitReply::Bit(bits.is_disjoint(other))
        }
    }
}

// The reply to a call that keeps all or nothing.
fn reply_to(outcome: Result<(), BitVecError>) -> BitReply
    ensures { MatchResult outcome (λ _. result ≡ Done) (λ error. result ≡ Refused error 0) }
{
    match outcome {
        Ok(()) => BitReply::Done,
        Err(error) => BitReply::Refused(error, 0),
    }
}

// Appends the bits, and says how many of them are kept where that is refused.
fn append<A: Allocator>(bits: &mut BitVec<A>, items: &[bool]) -> BitReply
    ensures reply { ExtendsBy (length bits.old) (length items.now) result }
    ensures after { bits.new ≡ bits_after_extend bits.old items.now result }
{
    let len = bits.len();
    let outcome = bits.extend(items.iter().copied());
    let kept = bits.len() - len;
    match outcome {
        Ok(()) => BitReply::Done,
        Err(error) => BitReply::Refused(error, kept),
    }
}

// Turns each bit round.
fn invert<A: Allocator + Copy>(bits: &mut BitVec<A>) -> BitReply
    ensures reply { (result ≡ Done) ⊎ ((result ≡ Refused Memory 0) × (64 < length bits.old)) }
    ensures after { bits.new ≡ if_done result (not_of bits.old) bits.old }
{
    match bits.not() {
        Ok(inverted) => {
            *bits = inverted;
            BitReply::Done
        }
        Err(error) => BitReply::Refused(error, 0),
    }
}
