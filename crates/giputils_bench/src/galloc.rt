//! A workload of the index allocator.
ghost use Rattle.std.specs.Prelude.{◌≡◌, length, OnOk, IfOk};
ghost use Rattle.giputils_bench.specs.Galloc.{AreIndexes, LeadsTo};

use crate::common::{Checksum, Generator};
use giputils_hash::hash::GHashMap;
use giputils_index::allocator::{Gallocator, rename};
use std::alloc::{AllocError, Global};

// How often values are allocated and collected again.
const ROUNDS: u32 = 8;

/// Makes the workload of this name, if it is one of the index allocator: whether memory sufficed.
pub(crate) fn run(
    alloc: Global,
    workload: &str,
    size: u32,
    rng: &mut Generator,
    checksum: &mut Checksum,
) -> Option<bool> {
    let outcome = match workload {
        "galloc" => galloc(alloc, size, rng, checksum),
        "galloc_table" => galloc_table(alloc, size, rng, checksum),
        _ => return None,
    };
    Some(outcome.is_ok())
}

// In each round, allocates `size` values, marks about half of all that are held, collects, and takes the held indexes
// through the map to their new places, mixing each and its value.
fn galloc(
    alloc: Global,
    size: u32,
    rng: &mut Generator,
    checksum: &mut Checksum,
) -> Result<(), AllocError> {
    let mut gallocator = Gallocator::new(alloc);
    let mut held: Vec<usize> = Vec::new(alloc);
    for _ in 0..ROUNDS {
        fill(&mut gallocator, &mut held, size, rng)?;
        mark_some(&mut gallocator, &held, rng);
        let map = gallocator.gc()?;
        held = renumber(alloc, &gallocator, &map, held, checksum)?;
    }
    checksum.mix(held.len() as u64);
    Ok(())
}

// The same, with a table in the place of the map: the held indexes are renamed by it where they stand, and then mixed
// with their values.
fn galloc_table(
    alloc: Global,
    size: u32,
    rng: &mut Generator,
    checksum: &mut Checksum,
) -> Result<(), AllocError> {
    let mut gallocator = Gallocator::new(alloc);
    let mut held: Vec<usize> = Vec::new(alloc);
    for _ in 0..ROUNDS {
        fill(&mut gallocator, &mut held, size, rng)?;
        mark_some(&mut gallocator, &held, rng);
        let table = gallocator.gc_table()?;
        rename(&table, &mut held);
        mix_values(&gallocator, &held, checksum);
    }
    checksum.mix(held.len() as u64);
    Ok(())
}

// Allocates `size` values, and appends their indexes to the held ones.
fn fill(
    gallocator: &mut Gallocator<u32>,
    held: &mut Vec<usize>,
    size: u32,
    rng: &mut Generator,
) -> Result<(), AllocError>
    requires { AreIndexes gallocator.old held.old.items }
    ensures { OnOk result (AreIndexes gallocator.new held.new.items) }
{
    for _ in 0..size {
        let index = gallocator.alloc(rng.draw()).map_err(|_| AllocError)?;
        held.push(index)?;
    }
    Ok(())
}

// Marks each held slot whose draw is odd.
fn mark_some(gallocator: &mut Gallocator<u32>, held: &[usize], rng: &mut Generator)
    requires { AreIndexes gallocator.old held.now }
    ensures { length gallocator.new ≡ length gallocator.old }
{
    for &index in held {
        if rng.draw() % 2 == 1 {
            gallocator.dealloc(index);
        }
    }
}

// The new indexes of the held slots that were kept.
fn renumber(
    alloc: Global,
    gallocator: &Gallocator<u32>,
    map: &GHashMap<usize, usize>,
    held: Vec<usize>,
    checksum: &mut Checksum,
) -> Result<Vec<usize>, AllocError>
    requires { LeadsTo gallocator.now map.now }
    ensures { IfOk result (λ kept. AreIndexes gallocator.now kept.items) }
{
    let mut kept = Vec::new(alloc);
    for index in held {
        if let Some(&new) = map.get(&index) {
            checksum.mix(new as u64);
            checksum.mix(u64::from(gallocator[new]));
            kept.push(new)?;
        }
    }
    Ok(kept)
}

// Mixes each held index and its value.
fn mix_values(gallocator: &Gallocator<u32>, held: &[usize], checksum: &mut Checksum)
    requires { AreIndexes gallocator.now held.now }
{
    for &index in held {
        checksum.mix(index as u64);
        checksum.mix(u64::from(gallocator[index]));
    }
}
