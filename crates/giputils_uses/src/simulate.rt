//! A step of a simulator over two vectors of bits.
ghost use Rattle.std.specs.Prelude.{◌≡◌, length, OnOk, OnErr, IfOk};
ghost use Rattle.giputils.specs.Logic.{and_of, xor_of};

use giputils::bitvec::{BitVec, BitVecError};
use std::alloc::Allocator;

/// A column of half adders: the state becomes its sum with the input, place by place, and the answer has the carries.
///
/// Shows logic on whole vectors of one length, which is the condition of `&=` and `^=`: the state is written in place,
/// and takes no memory.
///
/// # Errors
/// `BitVecError::Memory` where memory for the carries is refused. The state is then as it was.
pub fn half_add<A: Allocator + Copy>(
    state: &mut BitVec<A>,
    input: &BitVec<A>,
) -> Result<BitVec<A>, BitVecError>
    requires { length state.old ≡ length input.now }
    ensures sum { OnOk result (state.new ≡ xor_of state.old input.now) }
    ensures carries { IfOk result (λ carries. carries ≡ and_of state.old input.now) }
    ensures err { OnErr result (state.new ≡ state.old) }
{
    let mut carries = state.clone()?;
    carries &= input;
    *state ^= input;
    Ok(carries)
}
