//! A vector of bits.
//!
//! A vector of at most 64 bits keeps them in itself, and takes no memory. A longer one keeps its words in a `Gvec`.
mod blocks;
mod compare;
mod error;
mod growth;
mod iter;
mod logic;
mod make;
mod ones;
mod parsed;
mod queries;
mod ranges;
mod shifts;
mod storage;
mod text;
mod words;
mod writes;
mod zeros;

pub use error::BitVecError;
pub use iter::{IntoIter, Iter};
pub use logic::{de_morgan, double_not, xor_with_itself};
pub use ones::Ones;
use std::alloc::{Allocator, Global};
use std::marker::Model;
use storage::Storage;
pub use text::{Hex, binary_texts_tell, hex_texts_do_not_tell};
pub use zeros::Zeros;

/// A vector of bits, seen as a list of truth values.
///
/// Bit `i` stands in word `i / 64` at binary place `i % 64`, and the places past the last bit are zero.
#[derive(Drop)]
pub struct BitVec<A: Allocator = Global> {
    len: usize,
    words: Storage<A>,
}

impl<A: Allocator> Model for BitVec<A> {
    ghost use Rattle.std.specs.Prelude.{List, Bool};

    ghost Value = { List Bool };

    ghost use Rattle.giputils_bits.specs.Places.{bits_of, IsPacked};

    ghost view = { λ v. bits_of v.len v.words };

    ghost invariant = { λ v. IsPacked v.len v.words };
}

impl BitVec {
    /// How many bits a word has.
    pub const WORD_SIZE: usize = 64;

    /// What keeps of an index the place within its word.
    pub const WORD_SIZE_MASK: usize = Self::WORD_SIZE - 1;
}

const _: () = prove!(BitVec::<Global>::WORD_SIZE == 64 && BitVec::<Global>::WORD_SIZE_MASK == 63);
