//! Rows of a table of bits, as of a relation.
ghost use Rattle.std.specs.Prelude.{◌≡◌, ◌<◌, length};
ghost use Rattle.std.specs.Bool.{OnTrue, OnFalse};
ghost use Rattle.giputils_uses.specs.Rows.{joined};

use giputils::bitvec::BitVec;
use std::alloc::Allocator;

/// Adds the true places of an earlier row to a later one, and answers whether they have one length.
///
/// Shows logic on two rows of one vector: `split_at_mut` lends both, so that neither is cloned, and it takes no memory.
pub fn join<A: Allocator>(rows: &mut [BitVec<A>], from: usize, to: usize) -> bool
    requires order { from < to }
    requires inside { to < length rows.old }
    ensures joined { OnTrue result (rows.new ≡ joined rows.old from to) }
    ensures unequal { OnFalse result (rows.new ≡ rows.old) }
{
    let (front, back) = rows.split_at_mut(to);
    if back[0].len() != front[from].len() {
        return false;
    }
    back[0] |= &front[from];
    true
}
