//! Cubes of a formula, and the formula under one of them.
ghost use Rattle.std.specs.Prelude.{◌≡◌, IfOk, IfSome, Some};

use crate::search::{questions_failure, search_in};
use gip_cli::refuse;
use gipsat_answers::{cubes_text, read_cubes};
use gipsat_cnf::{Cnf, Literal};
use gipsat_command::{Failure, Options, Output, Source, Stream};
use gipsat_dimacs::read_instance_by;
use std::alloc::AllocError;
use std::io::Write;
use std::process::ExitCode;

/// The status of writing at most so many cubes of the formula in the file that the options name, or in standard input, to
/// standard output.
pub fn write_cubes(rt: &HostRuntime, options: &Options, most: usize) -> ExitCode {
    match cubes_to_output(rt, options, most) {
        Ok(()) => ExitCode::SUCCESS,
        Err(error) => refuse(rt, &error),
    }
}

// Writes the cubes.
fn cubes_to_output<'a>(
    rt: &HostRuntime,
    options: &Options<'a>,
    most: usize,
) -> Result<(), Failure<'a>> {
    let mut source = open(rt, options, options.file)?;
    let mut output = Output::new(rt.stdout());
    let instance = match read_instance_by(rt.alloc(), &mut source, options.rule) {
        Ok(instance) => instance,
        Err(error) => return Err(source.failure(&output, error)),
    };
    let Ok(text) = cubes_text(rt.alloc(), instance.clauses, most) else {
        return Err(Failure::Memory);
    };
    match output.write_all(&text) {
        Ok(()) => Ok(()),
        Err(_) => Err(output.unwritten()),
    }
}

/// Opens a file, and tells that a terminal is read, if it is one.
pub fn open<'a>(
    rt: &HostRuntime,
    options: &Options,
    name: Option<&'a str>,
) -> Result<Source<'a, Stream>, Failure<'a>> {
    let source = Source::open(rt, name)?;
    if !options.has("--quiet") {
        source.announce(rt);
    }
    Ok(source)
}

/// The status of a search in the file that the options name, or in standard input, under the cube of this number in a file
/// of cubes. The answer goes to standard output. None is standard input.
pub fn run_part(
    rt: &HostRuntime,
    options: &Options,
    cubes: Option<&str>,
    number: usize,
) -> ExitCode {
    let cube = match cube_in(rt, options, cubes, number) {
        Ok(cube) => cube,
        Err(error) => return refuse(rt, &error),
    };
    let source = match open(rt, options, options.file) {
        Ok(source) => source,
        Err(error) => return refuse(rt, &error),
    };
    let mut output = Output::new(rt.stdout());
    search_in(rt, options, &cube, None, source, &mut output)
}

// The literals of the cube of this number in a file.
fn cube_in<'a>(
    rt: &HostRuntime,
    options: &Options,
    name: Option<&'a str>,
    number: usize,
) -> Result<Vec<Literal>, Failure<'a>> {
    let cubes = cubes_of(rt, options, name)?;
    match cube_at(rt, &cubes, number) {
        Some(Ok(cube)) => Ok(cube),
        Some(Err(_)) => Err(Failure::Memory),
        None => Err(Failure::NoCube(name, number, cubes.len())),
    }
}

// The literals of the cube of this number, from 1 on.
fn cube_at(
    rt: &HostRuntime,
    cubes: &Cnf,
    number: usize,
) -> Option<Result<Vec<Literal>, AllocError>> {
    let place = number.checked_sub(1)?;
    if place >= cubes.len() {
        return None;
    }
    let mut cube = Vec::new(rt.alloc());
    Some(cube.extend_from_slice(cubes.clause(place)).map(|()| cube))
}

/// The cubes in the file of this name, as clauses. None is standard input.
pub fn cubes_of<'a>(
    rt: &HostRuntime,
    options: &Options,
    name: Option<&'a str>,
) -> Result<Cnf, Failure<'a>> {
    let mut source = open(rt, options, name)?;
    match read_cubes(rt.alloc(), &mut source) {
        Ok(cubes) => Ok(cubes),
        Err(error) => {
            let output = Output::new(rt.stdout());
            Err(questions_failure(&source, &output, error))
        }
    }
}
