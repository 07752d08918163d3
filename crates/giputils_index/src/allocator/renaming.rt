//! Lists of indexes into an allocator, after a collection.
ghost use Rattle.std.specs.Prelude.{◌≡◌};
ghost use Rattle.std.specs.List.{filter_map};
ghost use Rattle.giputils_index.specs.Allocator.{table_at};

use std::alloc::Allocator;

/// Puts the new index of each in the place of the old `indexes`, by the table of a collection
/// ([`Gallocator::gc_table`](crate::allocator::Gallocator::gc_table)). Indexes that have no new one are left out; the
/// others keep their order. It takes no memory.
pub fn rename<A: Allocator>(table: &[Option<usize>], indexes: &mut Vec<usize, A>)
    ensures { indexes.new.items ≡ filter_map (table_at table.now) indexes.old.items }
{
    let mut kept = 0;
    for place in 0..indexes.len() {
        if let Some(new) = entry(table, indexes[place]) {
            indexes[kept] = new;
            kept += 1;
        }
    }
    indexes.truncate(kept);
}

// What the table has at an index, and nothing past its end.
fn entry(table: &[Option<usize>], index: usize) -> Option<usize>
    ensures { result ≡ table_at table.now index }
{
    match table.get(index) {
        Some(entry) => *entry,
        None => None,
    }
}
