//! Proofs of all parts of a formula, joined to one.
ghost use Rattle.std.specs.Prelude.{◌≡◌, IfOk, OnOk};
ghost use Rattle.std.specs.Process.{exit_status};
ghost use Rattle.gip_cli.specs.Statuses.{IsEndedStatus};
ghost use Rattle.gipsat_cnf.specs.Formulas.{IsSatisfiable};
ghost use Rattle.gipsat_command.specs.Files.{output_contents, source_remaining};
ghost use Rattle.gipsat_command.specs.Statuses.{TellsVerified};
ghost use Rattle.gipsat_drat.specs.Held.{IsConsistent, Keeps, held_of};

use crate::parts::{cubes_of, open};
use gip_cli::refuse;
use gipsat_answers::{cover_steps, with_negations};
use gipsat_cnf::Cnf;
use gipsat_command::proof_file::{self, ProofError};
use gipsat_command::{Failure, Options, Output, Source, Written};
use gipsat_dimacs::read_instance;
use gipsat_drat::error::Outcome;
use gipsat_drat::{Joiner, LratFormat, PartError};
use std::alloc::AllocError;
use std::io::{Read, Write};
use std::process::ExitCode;

/// The status of joining proofs of all parts of a formula, whose files the options name behind those of the formula and of
/// its cubes. Where all is verified, the file `out` appears, and has a proof of the formula. None is standard input.
pub fn join_files(rt: &HostRuntime, options: &Options, cubes: Option<&str>, out: &str) -> ExitCode {
    let parts = match cubes_of(rt, options, cubes) {
        Ok(read) => Parts {
            name: cubes,
            cubes: read,
        },
        Err(error) => return refuse(rt, &error),
    };
    let formula = match open(rt, options, options.file) {
        Ok(formula) => formula,
        Err(error) => return refuse(rt, &error),
    };
    let mut output = Output::new(rt.stdout());
    join_in(rt, options, formula, parts, out, &mut output)
}

/// Cubes, and the name of their file. None is standard input.
#[derive(Drop)]
pub struct Parts<'a> {
    /// The name.
    pub name: Option<&'a str>,
    /// The cubes, as clauses.
    pub cubes: Cnf,
}

/// The status of joining proofs of all parts of a formula. It is 0 only where `s VERIFIED` was written, and nothing
/// satisfies the formula. Where all is verified, the file `out` appears, and has a proof of the formula.
pub fn join_in<'a, F: Read + Drop, W: Write>(
    rt: &HostRuntime,
    options: &Options<'a>,
    mut formula: Source<'a, F>,
    parts: Parts<'a>,
    out: &'a str,
    output: &mut Output<W>,
) -> ExitCode
    ensures verified { exit_status result ≡ 0 → TellsVerified (source_remaining F.remaining formula.entry)
        (output_contents W.contents output.old) (output_contents W.contents output.new) }
    ensures ends { IsEndedStatus (exit_status result) }
{
    match join(rt, options, &mut formula, parts, out, output) {
        Ok(()) => ExitCode::SUCCESS,
        Err(error) => refuse(rt, &error),
    }
}

// Joins proofs of all parts, writes that the formula is refuted, and gives the file its name.
#[tactic(auto, using(crate::proofs::Joined::told_verified))]
fn join<'a, F: Read, W: Write>(
    rt: &HostRuntime,
    options: &Options<'a>,
    formula: &mut Source<'a, F>,
    parts: Parts<'a>,
    out: &'a str,
    output: &mut Output<W>,
) -> Result<(), Failure<'a>>
    ensures { OnOk result (TellsVerified (source_remaining F.remaining formula.old)
        (output_contents W.contents output.old) (output_contents W.contents output.new)) }
{
    let instance = match read_instance(rt.alloc(), formula) {
        Ok(instance) => instance,
        Err(error) => return Err(formula.failure(output, error)),
    };
    let mut written = begin(rt, options, parts.name, out)?;
    refute(rt, options, instance.clauses, parts, &mut written, out)?;
    if let Err(error) = written.file.finish() {
        return Err(Failure::Proof(ProofError::Finish(error)));
    }
    match output.write_all(Outcome::Verified.text()) {
        Ok(()) => Ok(()),
        Err(_) => Err(output.unwritten()),
    }
}

// Begins the file of the joined proof, which is none of those that are read.
fn begin<'a>(
    rt: &HostRuntime,
    options: &Options<'a>,
    cubes: Option<&str>,
    out: &'a str,
) -> Result<Written<'a>, Failure<'a>> {
    if !options.force && proofs(options, out) {
        return Err(Failure::Proof(ProofError::IsProof(out)));
    }
    match proof_file::create_beside(rt, options, out, cubes) {
        Ok(file) => Ok(Written { file, error: None }),
        Err(error) => Err(Failure::Proof(error)),
    }
}

// Whether this is the name of a proof that is read.
fn proofs(options: &Options, name: &str) -> bool {
    for place in FIRST..usize::MAX {
        match options.file_at(place) {
            Some(proof) if proof == name => return true,
            Some(_) => {}
            None => return false,
        }
    }
    false
}

// The place of the first proof among the files.
const FIRST: usize = 2;

// Refutes a formula by proofs of all parts, and writes the joined proof.
#[tactic(auto, using(crate::proofs::Joined::refuted))]
fn refute<'a>(
    rt: &HostRuntime,
    options: &Options<'a>,
    formula: Cnf,
    parts: Parts<'a>,
    written: &mut Written<'a>,
    out: &'a str,
) -> Result<(), Failure<'a>>
    ensures { OnOk result (¬ (IsSatisfiable formula)) }
{
    let Parts { name, cubes } = parts;
    let (clauses, steps) = match cover(rt, &formula, &cubes) {
        Ok(Some(cover)) => cover,
        Ok(None) => return Err(Failure::Uncovered(name)),
        Err(AllocError) => return Err(Failure::Memory),
    };
    let format = format_of(options);
    let mut joiner = match Joiner::over(rt.alloc(), formula, cubes, format) {
        Ok(joiner) => joiner,
        Err(AllocError) => return Err(Failure::Memory),
    };
    add_parts(rt, options, &mut joiner, written, out)?;
    if let Some(number) = joiner.missing() {
        return Err(Failure::Missing(name, number));
    }
    if let Err(error) = joiner.add_cover(clauses, &steps, written) {
        return Err(failure_of(written, out, out, error));
    }
    if joiner.is_refuted() {
        Ok(())
    } else {
        Err(Failure::Uncovered(name))
    }
}

// The clauses of a formula with the negations of its cubes, and steps that refute them.
fn cover(
    rt: &HostRuntime,
    formula: &Cnf,
    cubes: &Cnf,
) -> Result<Option<(Cnf, Vec<u8>)>, AllocError> {
    let clauses = with_negations(rt.alloc(), formula, cubes)?;
    match cover_steps(rt.alloc(), &clauses, cubes)? {
        Some(steps) => Ok(Some((clauses, steps))),
        None => Ok(None),
    }
}

// Adds the proofs of the parts that the options name.
fn add_parts<'a>(
    rt: &HostRuntime,
    options: &Options<'a>,
    joiner: &mut Joiner,
    written: &mut Written<'a>,
    out: &'a str,
) -> Result<(), Failure<'a>>
    ensures { Keeps joiner.old joiner.new }
{
    for place in FIRST..usize::MAX {
        let Some(name) = options.file_at(place) else {
            break;
        };
        let mut proof = Source::open(rt, Some(name))?;
        if let Err(error) = joiner.add_part(&mut proof, written) {
            return Err(failure_of(written, out, name, error));
        }
    }
    Ok(())
}

// Why the proof in this file is not joined to that in the file `out`.
fn failure_of<'a>(
    written: &Written<'a>,
    out: &'a str,
    name: &'a str,
    error: PartError,
) -> Failure<'a> {
    match error {
        PartError::Output => Failure::Write(Some(out), written.error),
        PartError::Memory => Failure::Memory,
        error => Failure::Part(name, error),
    }
}

// How the steps of the joined proof are written.
fn format_of(options: &Options) -> LratFormat {
    if options.has("--binary") {
        LratFormat::Binary
    } else {
        LratFormat::Text
    }
}
