//! Drawn bit vectors.
ghost use Rattle.std.specs.Prelude.{◌≡◌, length, IfOk};

use crate::common::Generator;
use giputils_bits::bitvec::{BitVec, BitVecError};
use std::alloc::Global;

/// A vector of `size` drawn bits, by words.
pub(crate) fn vector(alloc: Global, size: u32, rng: &mut Generator) -> Result<BitVec, BitVecError>
    ensures { IfOk result (λ bits. length bits ≡ size) }
{
    let mut bits = BitVec::zero(alloc, size as usize)?;
    for k in 0..bits.word_len() {
        bits.set_word(k, rng.draw_word());
    }
    Ok(bits)
}
