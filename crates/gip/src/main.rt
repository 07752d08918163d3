//! `gip` reads a script from standard input and writes its replies to standard output. `gip bits` reads vectors of
//! bits, and writes the texts and the length of each. `gip --help` writes how it is called.
#![tactic(auto)]

use gip_lines::watched::Watched;
use gip_lines::{GipFault, Task};
use std::env::{Env, FillError};
use std::process::ExitCode;

// The exit status where the arguments have no meaning.
const USAGE: u8 = 2;

// The exit status where the usage line cannot be written.
const UNHEARD: u8 = 1;

// How the program is called.
const USAGE_LINE: &str = "usage: gip [bits]";

// The arguments that ask for bits, and for the usage line.
const BITS: &[u8; 4] = b"bits";

const HELP: &[u8; 6] = b"--help";

// What the arguments ask for.
#[derive(Clone, Copy)]
enum Asked {
    Work(Task),
    Help,
}

fn main(rt: HostRuntime) -> ExitCode {
    match asked_for(&rt) {
        Some(Asked::Work(task)) => work(&rt, task),
        Some(Asked::Help) => help(&rt),
        None => {
            let _ = eprintln!(rt; "{USAGE_LINE}");
            ExitCode::from(USAGE)
        }
    }
}

// Does a task on standard input.
fn work(rt: &HostRuntime, task: Task) -> ExitCode {
    let mut reader = Watched::new(rt.stdin());
    let mut writer = Watched::new(rt.stdout());
    match task.run(rt.alloc(), &mut reader, &mut writer) {
        Ok(()) => ExitCode::SUCCESS,
        Err(fault) => stop(rt, fault),
    }
}

// Writes the usage line to standard output.
fn help(rt: &HostRuntime) -> ExitCode {
    match println!(rt; "{USAGE_LINE}") {
        Ok(()) => ExitCode::SUCCESS,
        Err(_) => ExitCode::from(UNHEARD),
    }
}

// What the arguments ask for, if they have a meaning. They are bytes, which need not be text. Argument 0, by which the
// program was found, is not read.
fn asked_for(env: &impl Env) -> Option<Asked> {
    let mut word = [0; HELP.len()];
    match env.arg(1, &mut word) {
        Err(FillError::NotPresent) => Some(Asked::Work(Task::Script)),
        Ok(n) if is_absent(env, 2) => meaning_of(&word[..n]),
        _ => None,
    }
}

// What an argument that stands alone asks for, if it has a meaning.
fn meaning_of(word: &[u8]) -> Option<Asked> {
    if word == BITS.as_slice() {
        return Some(Asked::Work(Task::Bits));
    }
    if word == HELP.as_slice() {
        return Some(Asked::Help);
    }
    None
}

// Whether there is no argument with this number.
fn is_absent(env: &impl Env, number: usize) -> bool {
    matches!(env.arg(number, &mut []), Err(FillError::NotPresent))
}

fn stop(rt: &impl Eprint, fault: GipFault) -> ExitCode {
    let _ = eprintln!(rt; "{fault}");
    ExitCode::from(fault.status())
}
