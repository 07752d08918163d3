//! Lists of indexes into an index allocator, renamed by a collection.
ghost use Rattle.std.specs.Prelude.{◌≡◌, OnOk, OnErr};
ghost use Rattle.std.specs.List.{filter_map};
ghost use Rattle.giputils.specs.Allocator.{index_map, survivors, unmarked_slots};
ghost use Rattle.giputils_uses.specs.Compaction.{ReadsAlike};

use giputils::allocator::{Gallocator, rename};
use std::alloc::{AllocError, Allocator};

/// Collects the removed clauses, and gives the watched ones that are left their new indexes, in order.
///
/// Shows the table of `gc_table`, by which `rename` renames any number of lists without memory: what read a clause by
/// its old index reads the same clause by its new one.
///
/// # Errors
/// `AllocError` where memory for the table is refused. Nothing changes then.
pub fn compact<T: Drop, A: Allocator + Copy>(
    clauses: &mut Gallocator<T, A>,
    watched: &mut Vec<usize, A>,
) -> Result<(), AllocError>
    ensures collected { OnOk result (clauses.new ≡ unmarked_slots (survivors clauses.old)) }
    ensures renamed { OnOk result (watched.new.items ≡ filter_map (index_map clauses.old) watched.old.items) }
    ensures same_clauses { OnOk result (ReadsAlike clauses.old clauses.new watched.old.items watched.new.items) }
    ensures clauses { OnErr result (clauses.new ≡ clauses.old) }
    ensures watched { OnErr result (watched.new.items ≡ watched.old.items) }
{
    let table = clauses.gc_table()?;
    rename(&table, watched);
    Ok(())
}
