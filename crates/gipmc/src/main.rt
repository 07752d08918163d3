//! `gipmc [OPTION]... [FILE]` reads a circuit in a form of AIGER, and writes whether its bad states are reachable.
//! `gipmc --help` tells what each option does.
//!
//! Answers go to standard output; errors, and lines that begin with `c` and tell how far the search is, to standard
//! error.
#![tactic(auto)]

ghost use Rattle.std.specs.Prelude.{◌≡◌, map, string_bytes, IfOk};
ghost use Rattle.std.specs.Process.{exit_status};
ghost use Rattle.gipmc_aiger.specs.LiveCircuits.{IsProblemOf};
ghost use Rattle.gipmc_task.specs.declared.outcome.Outcome.TheVariants.{Fails, Safe};
ghost use Rattle.gipmc.specs.Runs.{Ask, Finds, Verifies};

mod certificates;
mod certify;
mod checks;
mod errors;
mod files;
mod join;
mod list;
mod located;
mod progress;
mod replay;
mod search;
mod settings;
mod snapshot;
mod traces;
mod witnesses;

use errors::Failure;
use files::{Files, Texts};
use gip_cli::{begin, explain, tell};
use gipmc_aiger::{Problem, read_problem};
use gipmc_command::{ABOUT, Options, Task};
use gipmc_task::TaskError;
use std::process::ExitCode;

fn main(rt: HostRuntime) -> ExitCode {
    match begin(&rt) {
        Ok(words) => run(&rt, &Files, &words),
        Err(status) => status,
    }
}

// The status of what some words ask for, of the files that they name.
fn run<T: Texts>(rt: &HostRuntime, texts: &T, words: &[String]) -> ExitCode
    ensures safe { exit_status result ≡ 20 →
        Ask (map string_bytes words.now) (Finds (T.bytes texts.now) Safe) }
    ensures fails { exit_status result ≡ 10 →
        Ask (map string_bytes words.now) (Finds (T.bytes texts.now) Fails) }
    ensures verified { exit_status result ≡ 0 →
        Ask (map string_bytes words.now) (Verifies (T.bytes texts.now)) }
{
    match Task::parse(words) {
        Ok(Task::Tell(info)) => tell(rt, &ABOUT, info),
        Ok(Task::Search(options)) => search::run(rt, texts, &options),
        Ok(Task::Replay(options, witness)) => replay::run(rt, texts, &options, witness),
        Ok(Task::Certify(options, name)) => certify::run(rt, texts, &options, name),
        Ok(Task::List(options)) => list::run(rt, texts, &options),
        Ok(Task::Join(options, out)) => join::run(rt, texts, &options, out),
        Err(error) => explain(rt, "gipmc", &error),
    }
}

// The problem that the bytes write, which are those of the file that the options name.
fn problem_in<'a>(
    rt: &HostRuntime,
    options: &Options<'a>,
    bytes: &[u8],
) -> Result<Problem, Failure<'a>>
    ensures { IfOk result (IsProblemOf bytes.now) }
{
    match read_problem(rt.alloc(), bytes) {
        Ok(problem) => Ok(problem),
        Err(error) => Err(Failure::of_task(options.file, None, TaskError::of_circuit(error))),
    }
}

// Whether a problem has no property.
fn is_empty(problem: &Problem) -> bool {
    problem.netlist.circuit.bads.is_empty() && problem.liveness.justice.is_empty()
}
