//! Derivations that several parts of a search share.
ghost use Rattle.std.specs.Prelude.{◌≡◌};

use crate::trail::Trail;
use gipsat_cnf::Literal;
use gipsat_kernel::Kernel;
use std::alloc::AllocError;

// Two clauses by their ids, of which the first has a literal, and the second its negation.
#[derive(Clone, Copy)]
pub(crate) struct Resolution {
    pub first: u32,
    pub second: u32,
    pub literal: Literal,
}

// Resolves the clause at hand with the reason of the literal at a place of the trail, if it has that literal's
// negation. Whether it has.
#[inline]
pub(crate) fn resolve_at(
    kernel: &mut Kernel,
    trail: &Trail,
    place: usize,
) -> Result<bool, AllocError>
    ensures { kernel.new ≡ kernel.old }
{
    match trail.steps.get(place) {
        Some(step) => kernel.resolve(step.literal, step.reason as usize),
        None => Ok(false),
    }
}

// Resolves the literals of the clause at hand with their reasons, the latest first, which are at places from `start` on
// and before `end`.
pub(crate) fn resolve_between(
    kernel: &mut Kernel,
    trail: &Trail,
    start: usize,
    end: usize,
) -> Result<(), AllocError>
    ensures { kernel.new ≡ kernel.old }
{
    for place in (start..end).rev() {
        resolve_at(kernel, trail, place)?;
    }
    Ok(())
}

// Resolves the literals of the clause at hand that are false at the root with their reasons, which are unit clauses.
pub(crate) fn drop_root(kernel: &mut Kernel, trail: &Trail) -> Result<(), AllocError>
    ensures { kernel.new ≡ kernel.old }
{
    for index in 0..kernel.marked().len() {
        let Some(l) = kernel.marked().get(index).copied() else {
            return Ok(());
        };
        if trail.level_of(l) == 0 && trail.is_false(l) {
            resolve_at(kernel, trail, trail.place_of(l))?;
        }
    }
    Ok(())
}

// How many literals the clause at hand has.
pub(crate) fn marked_len(kernel: &Kernel) -> usize {
    let mut len = 0usize;
    for l in kernel.marked() {
        len = len.saturating_add(usize::from(kernel.is_marked(*l)));
    }
    len
}

// Derives the resolvent of two clauses, without the literals that are false at the root.
fn derive_resolvent(
    kernel: &mut Kernel,
    trail: &Trail,
    resolution: Resolution,
) -> Result<(), AllocError>
    ensures { kernel.new ≡ kernel.old }
{
    kernel.begin(resolution.first as usize)?;
    kernel.resolve(resolution.literal.negated(), resolution.second as usize)?;
    drop_root(kernel, trail)?;
    kernel.conclude()?;
    Ok(())
}

// Derives the resolvents of these pairs of clauses.
pub(crate) fn derive_resolvents(
    kernel: &mut Kernel,
    trail: &Trail,
    resolutions: &[Resolution],
) -> Result<(), AllocError>
    ensures { kernel.new ≡ kernel.old }
{
    for resolution in resolutions {
        derive_resolvent(kernel, trail, *resolution)?;
    }
    Ok(())
}
