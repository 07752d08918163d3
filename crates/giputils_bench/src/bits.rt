//! Workloads of the bit vectors.
ghost use Rattle.std.specs.Prelude.{◌<◌, ◌^◌, length};

use crate::common::{Checksum, Generator, scaled};
use crate::vectors::vector;
use giputils_bits::bitvec::{BitVec, BitVecError};
use std::alloc::Global;

// How often two vectors are compared.
const COMPARISONS: u32 = 64;

// How often two vectors are joined.
const JOINTS: u32 = 64;

// How often a vector is appended.
const APPENDS: u32 = 16;

/// Makes the workload of this name, if it is one of this file: whether memory sufficed.
pub(crate) fn run(
    alloc: Global,
    workload: &str,
    size: u32,
    rng: &mut Generator,
    checksum: &mut Checksum,
) -> Option<bool> {
    let outcome = match workload {
        "bits_push" => push(alloc, size, rng, checksum),
        "bits_eq" => eq(alloc, size, rng, checksum),
        "bits_get" => get(alloc, size, rng, checksum),
        "bits_logic" => logic(alloc, size, rng, checksum),
        "bits_hex" => hex(alloc, size, rng, checksum),
        "bits_bin" => bin(alloc, size, rng, checksum),
        "bits_append" => append(alloc, size, Growth::Append, rng, checksum),
        "bits_append_by_push" => append(alloc, size, Growth::Push, rng, checksum),
        _ => return None,
    };
    Some(outcome.is_ok())
}

// Pushes `size` drawn bits one at a time, and mixes how many are true.
fn push(
    alloc: Global,
    size: u32,
    rng: &mut Generator,
    checksum: &mut Checksum,
) -> Result<(), BitVecError> {
    let mut bits = BitVec::new(alloc);
    let mut drawn = 0;
    for i in 0..size {
        if i % 32 == 0 {
            drawn = rng.draw();
        }
        bits.push(drawn % 2 == 1)?;
        drawn >>= 1;
    }
    checksum.mix(count_true(&bits));
    Ok(())
}

// Compares a drawn vector with a copy, turns one bit of the copy, compares again and turns it back, and
// mixes which bit and both answers.
fn eq(
    alloc: Global,
    size: u32,
    rng: &mut Generator,
    checksum: &mut Checksum,
) -> Result<(), BitVecError> {
    let bits = vector(alloc, size, rng)?;
    let mut copy = bits.clone()?;
    if size == 0 {
        return Ok(());
    }
    for _ in 0..COMPARISONS {
        let i = rng.below(size as usize);
        let equal = bits == copy;
        copy.set(i, !copy.get(i));
        let still_equal = bits == copy;
        copy.set(i, !copy.get(i));
        checksum.mix(4 * i as u64 + 2 * u64::from(equal) + u64::from(still_equal));
    }
    Ok(())
}

// Reads a drawn bit and sets another, four times as often as there are bits, and mixes what was read and the words.
fn get(
    alloc: Global,
    size: u32,
    rng: &mut Generator,
    checksum: &mut Checksum,
) -> Result<(), BitVecError> {
    let mut bits = vector(alloc, size, rng)?;
    let mut read: u64 = 0;
    for _ in 0..4 * u64::from(size) {
        let (first, second) = (rng.draw(), rng.draw());
        let bit = bits.get(scaled(first, size as usize));
        read = read.rotate_left(1) ^ u64::from(bit);
        bits.set(scaled(second, size as usize), (first ^ second) % 2 == 1);
    }
    checksum.mix(read);
    mix_words(&bits, checksum);
    Ok(())
}

// Joins two drawn vectors by each operation, again and again, and mixes the words of both.
fn logic(
    alloc: Global,
    size: u32,
    rng: &mut Generator,
    checksum: &mut Checksum,
) -> Result<(), BitVecError> {
    let mut a = vector(alloc, size, rng)?;
    let mut b = vector(alloc, size, rng)?;
    for _ in 0..JOINTS {
        a ^= &b;
        b |= &a;
        a.negate();
        b &= &a;
    }
    mix_words(&a, checksum);
    mix_words(&b, checksum);
    Ok(())
}

// Mixes the hexadecimal text of a drawn vector.
fn hex(
    alloc: Global,
    size: u32,
    rng: &mut Generator,
    checksum: &mut Checksum,
) -> Result<(), BitVecError> {
    let bits = vector(alloc, size, rng)?;
    checksum.mix_text(&format!(in alloc; "{}", bits.lower_hex())?);
    Ok(())
}

// Mixes the binary text of a drawn vector.
fn bin(
    alloc: Global,
    size: u32,
    rng: &mut Generator,
    checksum: &mut Checksum,
) -> Result<(), BitVecError> {
    let bits = vector(alloc, size, rng)?;
    checksum.mix_text(&format!(in alloc; "{bits}")?);
    Ok(())
}

// How a vector is appended to another.
#[derive(Clone, Copy)]
enum Growth {
    // Whole.
    Append,
    // A bit at a time.
    Push,
}

// Appends a bit and then a drawn vector, again and again, so that it seldom comes to stand at a word's beginning, and
// mixes the words.
fn append(
    alloc: Global,
    size: u32,
    growth: Growth,
    rng: &mut Generator,
    checksum: &mut Checksum,
) -> Result<(), BitVecError> {
    let part = vector(alloc, size, rng)?;
    let mut whole = BitVec::new(alloc);
    for _ in 0..APPENDS {
        whole.push(true)?;
        match growth {
            Growth::Append => whole.append(&part)?,
            Growth::Push => push_each(&mut whole, &part)?,
        }
    }
    mix_words(&whole, checksum);
    Ok(())
}

// Appends the bits of a vector one at a time.
fn push_each(bits: &mut BitVec, others: &BitVec) -> Result<(), BitVecError> {
    for bit in others {
        bits.push(bit)?;
    }
    Ok(())
}

// How many bits are true.
fn count_true(bits: &BitVec) -> u64
    requires { length bits.now < 2 ^ 32 }
{
    let mut count = 0;
    for bit in bits {
        count += u64::from(bit);
    }
    count
}

/// Mixes the words, in order.
pub(crate) fn mix_words(bits: &BitVec, checksum: &mut Checksum) {
    for word in bits.words() {
        checksum.mix(*word);
    }
}
