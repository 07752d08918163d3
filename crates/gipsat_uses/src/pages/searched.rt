//! The example of the search.
ghost use Rattle.std.specs.Prelude.{◌≡◌, [], IfOk, IfSome, IfNone};
ghost use Rattle.gipsat_cnf.specs.Assumptions.{IsModelUnder, IsSatisfiableUnder};

use gipsat_kernel::Kernel;
use gipsat_search::{Query, Search, Turn};
use std::alloc::{AllocError, Global};

/// Finds values that satisfy the kernel's formula, a variable past their end being false. None if there are none.
pub fn find_model(
    alloc: Global,
    kernel: &mut Kernel,
    search: &mut Search,
) -> Result<Option<Vec<bool>>, AllocError>
    ensures model { IfOk result (λ found. IfSome found (λ values. IsModelUnder kernel.old [] values.items)) }
    ensures none { IfOk result (λ found. IfNone found (¬ (IsSatisfiableUnder kernel.old []))) }
{
    search.begin(kernel, Query::all())?;
    for _ in 0..usize::MAX {
        match search.turn(kernel, Query::all())? {
            Turn::Learned => {}
            Turn::Model(values) => {
                if kernel.is_model(&values, &[]) {
                    return Ok(Some(values));
                }
                search.reopen(kernel);
            }
            Turn::Core(id) => {
                if kernel.is_refuted(id) {
                    return Ok(None);
                }
            }
            _ => break,
        }
    }
    kernel.find_model(alloc, &[])
}
