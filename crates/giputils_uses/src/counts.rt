//! How often each number is in a list.
ghost use Rattle.std.specs.Prelude.{◌+◌, ◌<◌, ◌≡◌, ◌^◌, nat_eq, IfOk, OnOk, OnErr};
ghost use Rattle.std.specs.Map.{count_at};
ghost use Rattle.giputils.specs.Hash.{get, PutsValue};
ghost use Rattle.giputils_uses.specs.Counts.{HasCounts};

use giputils::hash::GHashMap;
use std::alloc::{AllocError, Allocator};

/// How often each number is in a list. A number without an entry is not in the list.
///
/// Shows a value of a map that is changed in place: after a write through `get_mut`, `get` returns the new value.
///
/// # Errors
/// `AllocError` where memory for the map is refused.
pub fn counted<A: Allocator + Copy>(
    alloc: A,
    items: &[u32],
) -> Result<GHashMap<u32, usize, A>, AllocError>
    ensures { IfOk result (λ counts. HasCounts items.now counts) }
{
    let mut counts = GHashMap::new(alloc);
    for &item in items {
        add_one(&mut counts, item)?;
    }
    Ok(counts)
}

// Adds one to the count of an item, which is 0 as long as it has no entry.
fn add_one<A: Allocator + Clone>(
    counts: &mut GHashMap<u32, usize, A>,
    item: u32,
) -> Result<(), AllocError>
    requires { count_at (get nat_eq counts.old) item + 1 < 2 ^ 64 }
    ensures ok { OnOk result (PutsValue nat_eq item (count_at (get nat_eq counts.old) item + 1) counts.old counts.new) }
    ensures err { OnErr result (counts.new ≡ counts.old) }
{
    if let Some(count) = counts.get_mut(&item) {
        *count += 1;
        return Ok(());
    }
    counts.insert(item, 1)?;
    Ok(())
}
