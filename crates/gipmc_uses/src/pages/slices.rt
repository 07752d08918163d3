//! A caller that searches in slices.

use gipmc_circuits::Netlist;
use gipmc_ic3::{Found, Search};
use gipsat_cnf::Literal;
use gipsat_plain::Plain;
use std::alloc::{AllocError, Global};

/// What a search finds in at most so many slices, each of so many calls.
///
/// # Errors
/// `AllocError` where memory is refused.
pub fn found_in_slices(
    alloc: Global,
    netlist: &Netlist,
    bad: Literal,
    slices: u32,
    calls: u64,
) -> Result<Found, AllocError> {
    let mut search = Search::<Plain>::new(alloc, netlist, bad)?;
    run_slices(&mut search, slices, calls)
}

// The same, by a search that was begun.
fn run_slices(
    search: &mut Search<'_, Plain>,
    slices: u32,
    calls: u64,
) -> Result<Found, AllocError> {
    for _ in 0..slices {
        match search.run(calls)? {
            Found::Open => {}
            found => return Ok(found),
        }
    }
    Ok(Found::Open)
}
