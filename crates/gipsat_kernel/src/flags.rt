//! Which clauses stay where others are dropped, by a flag for each.
ghost use Rattle.std.specs.Prelude.{◌≡◌, true, false, replicate, slice_index_or, IfOk};
ghost use Rattle.gipsat_cnf.specs.Lists.{retained};
ghost use Rattle.gipsat_kernel.specs.Kernel.{OriginalStay};

use std::alloc::{AllocError, Global};

// The flag at a place; a value past the end.
#[inline]
pub(crate) fn flag_at(flags: &[bool], place: usize, past: bool) -> bool
    ensures { result ≡ slice_index_or flags.now place past }
{
    match flags.get(place) {
        Some(flag) => *flag,
        None => past,
    }
}

// So many flags, all of them set.
pub(crate) fn all_set(alloc: Global, len: usize) -> Result<Vec<bool>, AllocError>
    ensures { IfOk result (λ flags. flags.items ≡ replicate len true) }
{
    let mut flags = Vec::new(alloc);
    flags.resize(len, true)?;
    Ok(flags)
}

// Lets each original clause stay.
pub(crate) fn keep_original(original: &[bool], stays: &mut [bool])
    ensures { OriginalStay original.now stays.new }
{
    for place in 0..stays.len() {
        if !flag_at(original, place, false) {
            continue;
        }
        stays[place] = true;
    }
}

// A copy of the flags of the clauses that stay.
pub(crate) fn flags_kept(
    alloc: Global,
    flags: &[bool],
    stays: &[bool],
) -> Result<Vec<bool>, AllocError>
    ensures { IfOk result (λ kept. kept.items ≡ retained stays.now flags.now) }
{
    let mut kept = Vec::new(alloc);
    for place in 0..flags.len() {
        if !flag_at(stays, place, true) {
            continue;
        }
        let flag = flag_at(flags, place, false);
        kept.push(flag)?;
    }
    Ok(kept)
}
