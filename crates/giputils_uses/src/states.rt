//! The states of a run, each once.
ghost use Rattle.std.specs.Prelude.{IfOk};
ghost use Rattle.std.specs.Bool.{beq};
ghost use Rattle.std.specs.Cmp.Lexicographic.{pointwise};
ghost use Rattle.giputils.specs.Hash.{IsSetOf};

use giputils::bitvec::BitVec;
use giputils::hash::GHashSet;
use std::alloc::{AllocError, Allocator};

/// The states that a run went through, each once.
///
/// Shows vectors of bits as members of a hashed set: two are one member exactly where their bits are equal.
///
/// # Errors
/// `AllocError` where memory for the set is refused.
pub fn visited<A: Allocator + Copy>(
    alloc: A,
    states: Vec<BitVec<A>, A>,
) -> Result<GHashSet<BitVec<A>, A>, AllocError>
    ensures { IfOk result (λ set. IsSetOf (pointwise beq) states.items set) }
{
    states.into_iter().collect(alloc)
}
