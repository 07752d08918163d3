//! Of several values of one key, the last.
ghost use Rattle.std.specs.Prelude.{◌≡◌, nat_eq, IfOk};
ghost use Rattle.giputils.specs.Hash.{last_value};

use giputils::hash::GHashMap;
use std::alloc::{AllocError, Allocator};

/// The value of the last of the pairs with this key, as of a setting that is given twice.
///
/// Shows a map that is collected from an iterator at hand, and read through `Deref`.
///
/// # Errors
/// `AllocError` where memory for the map is refused.
pub fn last_of<A: Allocator + Copy>(
    alloc: A,
    pairs: &[(u32, u32)],
    key: u32,
) -> Result<Option<u32>, AllocError>
    ensures { IfOk result (λ value. value ≡ last_value nat_eq pairs.now key) }
{
    let map: GHashMap<u32, u32, A> = pairs.iter().copied().collect(alloc)?;
    Ok(map.get(&key).copied())
}
