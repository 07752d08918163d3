//! `gipsat [OPTION]... [FORMULA]` reads a formula in the DIMACS form, from the file or from standard input, and writes
//! whether anything satisfies it. `gipsat --check FORMULA PROOF` checks a proof that nothing does. `gipsat --help`
//! tells what each option does.
//!
//! Answers go to standard output; errors, and lines that begin with `c` and tell how far the search is, to standard
//! error.
#![tactic(auto)]

ghost use Rattle.std.specs.Prelude.{◌≡◌, [], IfNone, IfOk, IfSome, Some};
ghost use Rattle.gipsat_answers.specs.Assumed.{literals_in};

mod join;
mod models;
mod parts;
mod questions;
mod search;
mod solve;
mod watch;

use gip_cli::{begin, explain, refuse, tell};
use gipsat_answers::read_literals;
use gipsat_cnf::Literal;
use gipsat_command::{ABOUT, Failure, Options, Output, Source, Task, check_files, convert_proof};
use gipsat_dimacs::DimacsError;
use join::join_files;
use parts::{run_part, write_cubes};
use search::search_in;
use std::process::ExitCode;

fn main(rt: HostRuntime) -> ExitCode {
    let words = match begin(&rt) {
        Ok(words) => words,
        Err(status) => return status,
    };
    match Task::parse(&words) {
        Ok(Task::Tell(info)) => tell(&rt, &ABOUT, info),
        Ok(Task::Solve(options)) => run_search(&rt, &options),
        Ok(Task::Cubes(options, most)) => write_cubes(&rt, &options, most),
        Ok(Task::Part(options, cubes, number)) => run_part(&rt, &options, cubes, number),
        Ok(Task::Join(options, cubes, out)) => join_files(&rt, &options, cubes, out),
        Ok(Task::Check(formula, proof)) => check_files(&rt, formula, proof),
        Ok(Task::Convert(options, proof, out)) => convert_proof(&rt, &options, proof, out),
        Err(error) => explain(&rt, "gipsat", &error),
    }
}

// The status of a search in the file that the options name, or in standard input. The answer goes to standard output.
fn run_search(rt: &HostRuntime, options: &Options) -> ExitCode {
    let assumed = match literals(rt, "--assume", options.word("--assume")) {
        Ok(assumed) => assumed,
        Err(error) => return refuse(rt, &error),
    };
    let projection = match literals(rt, "--project", options.word("--project")) {
        Ok(projection) => projection,
        Err(error) => return refuse(rt, &error),
    };
    let source = match Source::open(rt, options.file) {
        Ok(source) => source,
        Err(error) => return refuse(rt, &error),
    };
    if !options.has("--quiet") {
        source.announce(rt);
    }
    let projection = options.word("--project").map(|_| projection.as_slice());
    let mut output = Output::new(rt.stdout());
    search_in(rt, options, &assumed, projection, source, &mut output)
}

// The literals that stand behind this option, if it is given.
fn literals<'a>(
    rt: &HostRuntime,
    option: &'static str,
    text: Option<&str>,
) -> Result<Vec<Literal>, Failure<'a>>
    ensures some { IfOk result (λ literals. IfSome text.entry (λ text. literals_in text.now ≡ Some literals.items)) }
    ensures none { IfOk result (λ literals. IfNone text.entry (literals.items ≡ [])) }
{
    let Some(text) = text else {
        return Ok(Vec::new(rt.alloc()));
    };
    match read_literals(rt.alloc(), text.as_bytes()) {
        Ok(literals) => Ok(literals),
        Err(DimacsError::Line(_, reason)) => Err(Failure::Literals(option, reason)),
        Err(_) => Err(Failure::Memory),
    }
}
