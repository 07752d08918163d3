//! Workloads of the containers, to be timed: `giputils_bench WORKLOAD SIZE SEED [REPS]`.
//!
//! A run makes the workload REPS times (once where it isn't given), each with a generator of its own, and
//! writes a checksum of all that was answered, in 16 hexadecimal digits. By it the runs of several programs
//! over one workload are known to have done the same. `all` makes each workload, and writes a line for each.
//! A name of no workload ends with status 3.
#![tactic(auto)]

mod bits;
mod common;
mod galloc;
mod heap;
mod sets;
mod vectors;

use crate::common::{Checksum, Generator};
use std::alloc::Global;
use std::env;
use std::io::{self, ErrorKind};
use std::process::ExitCode;

const WORKLOADS: [&str; 22] = [
    "heapsort",
    "vsids",
    "vsids_up",
    "decrease",
    "rebuild",
    "rebuild_by_update",
    "rebuild_std",
    "galloc",
    "galloc_table",
    "bits_push",
    "bits_eq",
    "bits_get",
    "bits_logic",
    "bits_hex",
    "bits_bin",
    "bits_count",
    "bits_ones",
    "bits_few",
    "bits_subset",
    "bits_aig",
    "bits_append",
    "bits_append_by_push",
];

// What the arguments ask for.
#[derive(Clone, Copy)]
struct Task<'a> {
    workload: &'a str,
    size: u32,
    seed: u64,
    reps: u64,
}

// The exit status after the usage line.
const USAGE: u8 = 2;

// The exit status where no workload has the name.
const UNKNOWN: u8 = 3;

fn main(rt: HostRuntime) -> io::Result<ExitCode> {
    let args: Vec<String> = env::args(&rt)?.collect(rt.alloc())?;
    match task_of(&args) {
        Some(task) => perform(&rt, task),
        None => {
            eprintln!(rt; "usage: giputils_bench WORKLOAD SIZE SEED [REPS]")?;
            Ok(ExitCode::from(USAGE))
        }
    }
}

// The argument at a place, which is empty where there is none.
fn word(args: &[String], place: usize) -> &str {
    match args.get(place) {
        Some(arg) => arg.as_str(),
        None => "",
    }
}

// What the arguments ask for, of which the first is the name of the program.
fn task_of(args: &[String]) -> Option<Task<'_>> {
    let reps = if args.len() == 4 { "1" } else { word(args, 4) };
    Some(Task {
        workload: word(args, 1),
        size: word(args, 2).parse().ok()?,
        seed: word(args, 3).parse().ok()?,
        reps: reps.parse().ok()?,
    })
}

// Runs the workload, or all of them, and prints the checksums.
fn perform(rt: &HostRuntime, task: Task<'_>) -> io::Result<ExitCode> {
    if task.workload != "all" {
        return print_one(rt, task);
    }
    for &workload in &WORKLOADS {
        print!(rt; "{workload} ")?;
        print_one(rt, Task { workload, ..task })?;
    }
    Ok(ExitCode::SUCCESS)
}

// Prints the workload's checksum, if there is one of this name.
fn print_one(rt: &HostRuntime, task: Task<'_>) -> io::Result<ExitCode> {
    let mut checksum = Checksum::new();
    match repeat(rt.alloc(), task, &mut checksum) {
        Some(true) => {
            println!(rt; "{checksum}")?;
            Ok(ExitCode::SUCCESS)
        }
        Some(false) => Err(io::Error::from(ErrorKind::OutOfMemory)),
        None => Ok(ExitCode::from(UNKNOWN)),
    }
}

// Makes all runs of the workload of a task, if there is one of this name: whether memory sufficed.
fn repeat(alloc: Global, task: Task<'_>, checksum: &mut Checksum) -> Option<bool> {
    for rep in 0..task.reps {
        let mut rng = Generator::new(task.seed.wrapping_add(rep));
        let made = run(alloc, task, &mut rng, checksum);
        if made != Some(true) {
            return made;
        }
    }
    Some(true)
}

// Makes the workload of a task, if there is one of this name: whether memory sufficed.
fn run(
    alloc: Global,
    task: Task<'_>,
    rng: &mut Generator,
    checksum: &mut Checksum,
) -> Option<bool> {
    let (name, size) = (task.workload, task.size);
    let mut made = heap::run(alloc, name, size, rng, checksum);
    if made.is_none() {
        made = galloc::run(alloc, name, size, rng, checksum);
    }
    if made.is_none() {
        made = bits::run(alloc, name, size, rng, checksum);
    }
    if made.is_none() {
        made = sets::run(alloc, name, size, rng, checksum);
    }
    made
}
