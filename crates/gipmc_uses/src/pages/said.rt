//! What is said of a circuit.
ghost use Rattle.std.specs.Prelude.{IfOk};
ghost use Rattle.gipmc_aiger.specs.declared.problem.Subject.TheVariants.{All};
ghost use Rattle.gipmc_task.specs.Answers.{TellsAsked};
ghost use Rattle.gipmc_task.specs.declared.output.AnswerOrder.TheVariants.{Places};

use gipmc_aiger::Subject;
use gipmc_circuits::Netlist;
use gipmc_engines::Plan;
use gipmc_task::{Lost, Output, Said, TaskError, answer};
use gipsat_plain::Plain;
use std::alloc::Global;

/// What is said of all bad literals of a circuit.
pub fn said(alloc: Global, netlist: &Netlist) -> Result<Said, TaskError>
    ensures { IfOk result (λ said. TellsAsked netlist.now.circuit All Places said.answers.items) }
{
    let mut output = Output::new(Vec::new(alloc), Lost::GoOn);
    answer::<Plain, _, _>(
        alloc,
        netlist,
        Subject::All,
        &Plan::default(),
        &mut (),
        &mut output,
    )
}
