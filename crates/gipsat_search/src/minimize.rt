//! Minimization: literals of a clause that follow from the others, by chains of reasons, are resolved away (N.
//! Sörensson and A. Biere, 2009).
ghost use Rattle.std.specs.Prelude.{◌≡◌};

use crate::chains::Chains;
use crate::derive::resolve_at;
use crate::trail::Trail;
use gipsat_kernel::Kernel;
use std::alloc::AllocError;

// Minimizes the clause at hand: resolves the literals below the conflict level away that follow from the others, and
// those which come in by that.
pub(crate) fn minimize(
    kernel: &mut Kernel,
    trail: &Trail,
    chains: &mut Chains,
) -> Result<(), AllocError>
    ensures { kernel.new ≡ kernel.old }
{
    chains.follow(kernel, trail)?;
    for place in chains.removable().iter().rev() {
        resolve_at(kernel, trail, *place)?;
    }
    Ok(())
}
