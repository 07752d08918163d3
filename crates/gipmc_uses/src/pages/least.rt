//! A number k that shows that a bad literal is never true.
ghost use Rattle.std.specs.Prelude.{IfOk, IfSome};
ghost use Rattle.gipmc_circuits.specs.Circuit.{IsSafe};

use gipmc_circuits::Netlist;
use gipmc_unroll::{Verdict, certify_by_induction};
use gipsat_cnf::Literal;
use gipsat_plain::Plain;
use std::alloc::{AllocError, Global};

/// The least k below 10 for which the bad literal is k-inductive. If there is one, the literal is never true.
pub fn least_k(alloc: Global, netlist: &Netlist, bad: Literal) -> Result<Option<usize>, AllocError>
    ensures { IfOk result (λ found. IfSome found (λ k. IsSafe netlist.now.circuit bad)) }
{
    for k in 0..10 {
        match certify_by_induction::<Plain>(alloc, netlist, bad, k, 1000)? {
            Verdict::Certified => return Ok(Some(k)),
            _ => continue,
        }
    }
    Ok(None)
}
