//! From a formula's bytes to several models of it.
ghost use Rattle.std.specs.Prelude.{◌≡◌, ◌≤◌, ℕ, IfOk, IsErrOf, IsTrue, OnOk};
ghost use Rattle.std.specs.Option.{option_map};
ghost use Rattle.std.specs.Io.KnownBytes.{IsAtEnd};
ghost use Rattle.gipsat_cnf.specs.Lists.{AreAllBelow};
ghost use Rattle.gipsat_answers.specs.Answers.{problem_of};
ghost use Rattle.gipsat_answers.specs.Assumed.{assuming};
ghost use Rattle.gipsat_answers.specs.Enumeration.{Extends, IsOpen, IsRightVerdict, WritesModels};
ghost use Rattle.gipsat_dimacs.specs.Inputs.{HasForm, IsRefusedAt, OfProblem, WritesNone};
ghost use Rattle.gipsat.specs.Models.{projection_of};
ghost use Rattle.gipsat.specs.Searched.{has_limit};

use crate::solve::{ListOption, SolveError, read_assuming};
use crate::watch::{Limits, Watch};
use gipsat_answers::{Enumerated, Models, are_named, first_variables, write_models};
use gipsat_cnf::{Cnf, Literal};
use gipsat_command::Options;
use gipsat_dimacs::{DimacsError, Instance, Reason};
use gipsat_solver::progress::{Both, Progress};
use std::alloc::AllocError;
use std::io::{Read, Write};

/// Which models are wanted.
#[derive(Clone, Copy)]
pub struct Wanted<'a> {
    /// How many at most.
    pub count: usize,
    /// Of each of these literals there is a clause besides.
    pub assumed: &'a [Literal],
    /// No two of them agree on the variables of these literals, or on all variables.
    pub projection: Option<&'a [Literal]>,
}

/// Writes as many models as are wanted of the formula of a text, within as many conflicts as the options allow.
pub fn enumerate<'a, R: Read, W: Write>(
    rt: &HostRuntime,
    options: &Options,
    wanted: Wanted<'_>,
    reader: &mut R,
    writer: &mut W,
) -> Result<Enumerated, SolveError<'a>>
    ensures read_to_end { OnOk result (IsAtEnd (R.remaining reader.new)) }
    ensures has_form { OnOk result (HasForm options.now.rule (R.remaining reader.old)) }
    ensures written { IfOk result (λ told. OfProblem options.now.rule (R.remaining reader.old) (λ problem.
        WritesModels options.now.witness
        (projection_of (option_map (λ literals. literals.now) wanted.entry.projection) problem.variables)
        (IsOpen options.now.conflicts told.solver.learned (has_limit options.now)) wanted.entry.count
        (assuming wanted.entry.assumed.now problem) (W.contents writer.old) (W.contents writer.new))) }
    ensures verdict { IfOk result (λ told. OfProblem options.now.rule (R.remaining reader.old) (λ problem.
        IsRightVerdict (assuming wanted.entry.assumed.now problem) told.verdict)) }
    ensures formula { IfOk result (λ told. OfProblem options.now.rule (R.remaining reader.old) (λ problem.
        Extends (assuming wanted.entry.assumed.now problem).clauses told.solver.formula)) }
    ensures most { IfOk result (λ told. told.solver.learned ≤ options.now.conflicts) }
    ensures named { OnOk result (OfProblem options.now.rule (R.remaining reader.old) (λ problem.
        AreAllBelow problem.variables (assuming wanted.entry.assumed.now problem).clauses)) }
    ensures line { (line : ℕ) (reason : Reason) → IsErrOf result (SolveError.Task (DimacsError.Line line reason)) →
        WritesNone options.now.rule (R.remaining reader.old) }
    ensures in_line { (line : ℕ) (reason : Reason) → IsErrOf result (SolveError.Task (DimacsError.Line line reason)) →
        IsRefusedAt options.now.rule (R.remaining reader.old) line }
{
    let watch = Watch::new(rt, options)?;
    let instance = read_assuming(rt, options, wanted.assumed, reader, &watch)?;
    let projection = projection(rt, wanted.projection, instance.variables)?;
    let models = Models {
        count: wanted.count,
        projection: &projection,
        limit: options.conflicts,
        witness: options.witness,
    };
    write_in_time(rt, options, instance, models, watch, writer)
}

// The literals of these variables, or of all.
fn projection<'a>(
    rt: &HostRuntime,
    wanted: Option<&[Literal]>,
    variables: u32,
) -> Result<Vec<Literal>, SolveError<'a>>
    ensures made { IfOk result (λ literals. literals.items ≡
        projection_of (option_map (λ literals. literals.now) wanted.entry) variables) }
    ensures other { (line : ℕ) (reason : Reason) →
        ¬ (IsErrOf result (SolveError.Task (DimacsError.Line line reason))) }
{
    let Some(wanted) = wanted else {
        return Ok(first_variables(rt.alloc(), variables)?);
    };
    if !are_named(variables, wanted) {
        return Err(SolveError::Unnamed(ListOption::Project));
    }
    let mut literals = Vec::new(rt.alloc());
    literals.extend_from_slice(wanted)?;
    Ok(literals)
}

// Writes models of a formula that was read, within the limits that the options set.
fn write_in_time<'a, W: Write>(
    rt: &HostRuntime,
    options: &Options,
    instance: Instance<Cnf>,
    models: Models<'_>,
    watch: Watch,
    writer: &mut W,
) -> Result<Enumerated, SolveError<'a>>
    ensures written { IfOk result (λ told. WritesModels models.entry.witness models.entry.projection.now
        (IsOpen models.entry.limit told.solver.learned (has_limit options.now))
        models.entry.count (problem_of instance.variables instance.clauses)
        (W.contents writer.old) (W.contents writer.new)) }
    ensures verdict { IfOk result (λ told.
        IsRightVerdict (problem_of instance.variables instance.clauses) told.verdict) }
    ensures formula { IfOk result (λ told. Extends instance.clauses told.solver.formula) }
    ensures most { IfOk result (λ told. told.solver.learned ≤ models.entry.limit) }
    ensures other { (line : ℕ) (reason : Reason) →
        ¬ (IsErrOf result (SolveError.Task (DimacsError.Line line reason))) }
{
    match Limits::asked(&watch, options) {
        None => Ok(write_told(rt, instance, models, watch, writer)?.enumerated),
        Some(limits) => {
            let limited = Both {
                first: watch,
                second: limits,
            };
            Ok(write_told(rt, instance, models, limited, writer)?.enumerated)
        }
    }
}

// What was found out, and what was told how far the search is.
#[derive(Drop)]
struct Told<P> {
    enumerated: Enumerated,
    progress: P,
}

// Writes models of a formula that was read, and tells `progress` how far the search is.
fn write_told<'a, W: Write, P: Progress + Drop>(
    rt: &HostRuntime,
    instance: Instance<Cnf>,
    models: Models<'_>,
    mut progress: P,
    writer: &mut W,
) -> Result<Told<P>, SolveError<'a>>
    ensures written { IfOk result (λ told. WritesModels models.entry.witness models.entry.projection.now
        (IsOpen models.entry.limit told.enumerated.solver.learned (P.wants_stop told.progress))
        models.entry.count (problem_of instance.variables instance.clauses)
        (W.contents writer.old) (W.contents writer.new)) }
    ensures verdict { IfOk result (λ told.
        IsRightVerdict (problem_of instance.variables instance.clauses) told.enumerated.verdict) }
    ensures formula { IfOk result (λ told. Extends instance.clauses told.enumerated.solver.formula) }
    ensures most { IfOk result (λ told. told.enumerated.solver.learned ≤ models.entry.limit) }
    ensures other { (line : ℕ) (reason : Reason) →
        ¬ (IsErrOf result (SolveError.Task (DimacsError.Line line reason))) }
{
    match write_models(rt.alloc(), instance, writer, models, &mut progress) {
        Ok(enumerated) => Ok(Told {
            enumerated,
            progress,
        }),
        Err(error) => Err(SolveError::Task(error)),
    }
}
