//! What all engines find out, within bounds.
ghost use Rattle.std.specs.Prelude.{IfOk};
ghost use Rattle.gipmc_engines.specs.Verdicts.{IsRightVerdict};

use gipmc_circuits::Netlist;
use gipmc_engines::{Bounds, Plan, Verdict, check};
use gipsat_cnf::Literal;
use gipsat_plain::Plain;
use std::alloc::{AllocError, Global};

/// What is found out about the bad literal by 2048 random runs, and then by at most 10,000 calls of IC3.
pub fn verdict(alloc: Global, netlist: &Netlist, bad: Literal) -> Result<Verdict, AllocError>
    ensures { IfOk result (IsRightVerdict netlist.now.circuit bad) }
{
    let plan = Plan {
        bounds: Bounds {
            calls: 10_000,
            ..Bounds::default()
        },
        ..Plan::default()
    };
    check::<Plain, _>(alloc, netlist, bad, &plan, &mut ())
}
