//! Workloads of the bit vectors as sets of numbers.
ghost use Rattle.std.specs.Prelude.{◌≡◌, length, IfOk};
ghost use Rattle.giputils_bench.specs.Bits.{AreOfLength};

use crate::bits::mix_words;
use crate::common::{Checksum, Generator};
use crate::vectors::vector;
use giputils_bits::bitvec::{BitVec, BitVecError};
use std::alloc::Global;
use std::mem;

// How often one bit is turned and the true ones are counted.
const COUNTS: u32 = 64;

// How often one bit is turned and the true ones are listed.
const WALKS: u32 = 16;

// How often a vector is compared with another.
const COMPARISONS: u32 = 64;

// How many vectors are the nodes of a graph.
const NODES: usize = 64;

// How often a node is made anew.
const GATES: u32 = 1024;

/// Makes the workload of this name, if it is one of this file: whether memory sufficed.
pub(crate) fn run(
    alloc: Global,
    workload: &str,
    size: u32,
    rng: &mut Generator,
    checksum: &mut Checksum,
) -> Option<bool> {
    let outcome = match workload {
        "bits_count" => count(alloc, size, rng, checksum),
        "bits_ones" => ones(alloc, size, rng, checksum),
        "bits_few" => few(alloc, size, rng, checksum),
        "bits_subset" => subset(alloc, size, rng, checksum),
        "bits_aig" => aig(alloc, size, rng, checksum),
        _ => return None,
    };
    Some(outcome.is_ok())
}

// Turns a drawn bit of a drawn vector, and mixes how many are true, again and again.
fn count(
    alloc: Global,
    size: u32,
    rng: &mut Generator,
    checksum: &mut Checksum,
) -> Result<(), BitVecError> {
    let mut bits = vector(alloc, size, rng)?;
    if size == 0 {
        return Ok(());
    }
    for _ in 0..COUNTS {
        bits.flip(rng.below(size as usize));
        checksum.mix(bits.count_ones() as u64);
    }
    Ok(())
}

// Lists the true places of a drawn vector, again and again.
fn ones(
    alloc: Global,
    size: u32,
    rng: &mut Generator,
    checksum: &mut Checksum,
) -> Result<(), BitVecError> {
    let mut bits = vector(alloc, size, rng)?;
    walk(&mut bits, size, rng, checksum);
    Ok(())
}

// The same of a vector of which one place in a hundred is true.
fn few(
    alloc: Global,
    size: u32,
    rng: &mut Generator,
    checksum: &mut Checksum,
) -> Result<(), BitVecError> {
    let mut bits = BitVec::zero(alloc, size as usize)?;
    for _ in 0..size / 100 {
        bits.set(rng.below(size as usize), true);
    }
    walk(&mut bits, size, rng, checksum);
    Ok(())
}

// Turns a bit of a copy of a drawn vector, asks of each whether it is within the other, and turns it back; mixes
// which bit and both answers.
fn subset(
    alloc: Global,
    size: u32,
    rng: &mut Generator,
    checksum: &mut Checksum,
) -> Result<(), BitVecError> {
    let bits = vector(alloc, size, rng)?;
    let mut copy = bits.clone()?;
    if size == 0 {
        return Ok(());
    }
    for _ in 0..COMPARISONS {
        let i = rng.below(size as usize);
        copy.flip(i);
        let within = bits.is_subset(&copy);
        let contains = copy.is_subset(&bits);
        copy.flip(i);
        checksum.mix(4 * i as u64 + 2 * u64::from(within) + u64::from(contains));
    }
    Ok(())
}

// Makes drawn ones of 64 drawn vectors what two others have in common, each of these negated as drawn, as the nodes of
// an and-inverter graph; mixes the words of all.
fn aig(
    alloc: Global,
    size: u32,
    rng: &mut Generator,
    checksum: &mut Checksum,
) -> Result<(), BitVecError> {
    let mut nodes = nodes(alloc, size, rng)?;
    let mut made = BitVec::zero(alloc, size as usize)?;
    for _ in 0..GATES {
        let (node, first, second) = (rng.below(NODES), rng.below(NODES), rng.below(NODES));
        let signs = rng.draw();
        if node == first || node == second {
            continue;
        }
        made.assign_and(
            &nodes[first],
            signs & 1 != 0,
            &nodes[second],
            signs & 2 != 0,
        );
        mem::swap(&mut nodes[node], &mut made);
    }
    for node in &nodes {
        mix_words(node, checksum);
    }
    Ok(())
}

// As many drawn vectors as there are nodes.
fn nodes(alloc: Global, size: u32, rng: &mut Generator) -> Result<Vec<BitVec>, BitVecError>
    ensures { IfOk result (λ nodes. AreOfLength size nodes.items × (length nodes.items ≡ 64)) }
{
    let mut nodes = Vec::with_capacity(alloc, NODES)?;
    for _ in 0..NODES {
        nodes.push_reserved(vector(alloc, size, rng)?);
    }
    Ok(nodes)
}

// Mixes the true places, and turns a drawn bit, again and again.
fn walk(bits: &mut BitVec, size: u32, rng: &mut Generator, checksum: &mut Checksum)
    requires { length bits.old ≡ size }
{
    if size == 0 {
        return;
    }
    for _ in 0..WALKS {
        checksum.mix(sum_of_places(bits));
        bits.flip(rng.below(size as usize));
    }
}

// The true places, taken together in their order.
fn sum_of_places(bits: &BitVec) -> u64 {
    let mut places: u64 = 0;
    for place in bits.iter_ones() {
        places = places.rotate_left(5) ^ place as u64;
    }
    places
}
