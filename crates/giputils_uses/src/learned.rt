//! Learned clauses by their indexes: scores that are raised, and clauses that are moved out.
ghost use Rattle.std.specs.Prelude.{◌≡◌, ◌≢◌, ◌+◌, ◌++◌, ℕ, None, is_some, min, option_map, OnOk, OnErr};
ghost use Rattle.std.specs.Option.{option_to_list};
ghost use Rattle.giputils.specs.Allocator.{live_at};
ghost use Rattle.giputils_uses.specs.Learned.{clause_at};

use giputils::allocator::Gallocator;
use std::alloc::{AllocError, Allocator};

/// Raises the score of a clause, up to the greatest number. Answers whether the clause is still there.
///
/// Shows `get_mut` of an index allocator, which lends the value of a live slot and needs no test before.
pub fn raise<A: Allocator>(scores: &mut Gallocator<u32, A>, clause: usize, by: u32) -> bool
    ensures there { result ≡ is_some (live_at scores.old clause) }
    ensures raised { live_at scores.new clause ≡ option_map (λ s. min (s + by) u32.MAX) (live_at scores.old clause) }
    ensures others { (k : ℕ) → k ≢ clause → live_at scores.new k ≡ live_at scores.old k }
{
    match scores.get_mut(clause) {
        Some(score) => {
            *score = score.saturating_add(by);
            true
        }
        None => false,
    }
}

/// Moves a clause behind the kept ones, if it is still there.
///
/// Shows `take` of a type without a default: the slots hold an `Option`. The step that can fail comes first.
///
/// # Errors
/// `AllocError` where memory is refused. Nothing changes then.
pub fn keep<C: Drop, A: Allocator>(
    learned: &mut Gallocator<Option<C>, A>,
    index: usize,
    kept: &mut Vec<C, A>,
) -> Result<(), AllocError>
    ensures moved { OnOk result (kept.new.items ≡ kept.old.items ++ option_to_list (clause_at learned.old index)) }
    ensures gone { OnOk result (live_at learned.new index ≡ None) }
    ensures others { (k : ℕ) → k ≢ index → live_at learned.new k ≡ live_at learned.old k }
    ensures err { OnErr result (learned.new ≡ learned.old) }
    ensures err_kept { OnErr result (kept.new.items ≡ kept.old.items) }
{
    kept.reserve(1)?;
    let Some(clause) = learned.take(index).flatten() else {
        return Ok(());
    };
    kept.push_reserved(clause);
    Ok(())
}
