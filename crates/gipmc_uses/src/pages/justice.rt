//! What is answered about the justice properties of a problem.
ghost use Rattle.std.specs.Prelude.{IfOk};
ghost use Rattle.gipmc_aiger.specs.declared.problem.Subject.TheVariants.{All};
ghost use Rattle.gipmc_task.specs.Justice.Answers.{TellsAsked};

use gipmc_aiger::{Problem, Subject};
use gipmc_engines::Plan;
use gipmc_task::justice::answer;
use gipmc_task::{Answered, Lost, Output, TaskError};
use gipsat_plain::Plain;
use std::alloc::Global;

/// The answers about all justice properties of a problem.
pub fn answers(alloc: Global, problem: &Problem) -> Result<Vec<Answered>, TaskError>
    ensures { IfOk result (λ answers.
        TellsAsked problem.now.netlist.circuit problem.now.liveness All answers.items) }
{
    let mut output = Output::new(Vec::new(alloc), Lost::GoOn);
    answer::<Plain, _, _>(
        alloc,
        problem,
        Subject::All,
        &Plan::default(),
        &mut (),
        &mut output,
    )
}
