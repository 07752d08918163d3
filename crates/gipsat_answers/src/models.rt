//! Several models of a formula, one after another.
ghost use Rattle.std.specs.Prelude.{◌≡◌, ◌≢◌, ◌≤◌, ◌++◌, ◌∷◌, [], ℕ, IfOk, IsErrOf, OnOk};
ghost use Rattle.std.specs.Io.KnownBytes.{Appends};
ghost use Rattle.gipsat_cnf.specs.Models.{assignment_in};
ghost use Rattle.gipsat_answers.specs.Answers.{problem_of};
ghost use Rattle.gipsat_answers.specs.Enumeration.{differing, first_verdict, model_text, Extends, IsOpen, IsRightVerdict, WritesModels, WritesNext};

use crate::answers::{Verdict, model_text, value_in, write};
use gipsat_cnf::{Answer, Cnf, Literal};
use gipsat_dimacs::{DimacsError, Instance, Reason};
use gipsat_solver::progress::{Progress, solve_in_slices};
use gipsat_solver::{Inprocessing, Solver};
use std::alloc::{AllocError, Global};
use std::io::Write;

/// Which models are wanted, and what is written of each.
#[derive(Clone, Copy)]
pub struct Models<'a> {
    /// How many at most.
    pub count: usize,
    /// Any two differ in the value of a variable of these literals.
    pub projection: &'a [Literal],
    /// After how many learned clauses in all the search gives up.
    pub limit: usize,
    /// Whether the values are written.
    pub witness: bool,
}

/// What was found out about a formula, and by what.
#[derive(Drop)]
pub struct Enumerated {
    /// Whether there is a model.
    pub verdict: Verdict,
    /// The solver that was given the formula, with the clauses that exclude models and all that it has learned.
    pub solver: Solver,
}

/// Writes models of a formula that was read, each as [`solve_text`](crate::solve_text) writes one, once it is found, and
/// behind the last one that there is no other, where there is none. Where the search gives up or is stopped, that is
/// written.
///
/// # Errors
/// - [`DimacsError::Memory`] where memory is refused.
/// - [`DimacsError::Output`] where a write fails.
///
/// What was found before was written then.
pub fn write_models<W: Write, P: Progress>(
    alloc: Global,
    instance: Instance<Cnf>,
    writer: &mut W,
    wanted: Models<'_>,
    progress: &mut P,
) -> Result<Enumerated, DimacsError>
    ensures written { IfOk result (λ told. WritesModels wanted.entry.witness wanted.entry.projection.now
        (IsOpen wanted.entry.limit told.solver.learned (P.wants_stop progress.new))
        wanted.entry.count (problem_of instance.variables instance.clauses)
        (W.contents writer.old) (W.contents writer.new)) }
    ensures verdict { IfOk result (λ told.
        IsRightVerdict (problem_of instance.variables instance.clauses) told.verdict) }
    ensures formula { IfOk result (λ told. Extends instance.clauses told.solver.formula) }
    ensures most { IfOk result (λ told. told.solver.learned ≤ wanted.entry.limit) }
    ensures other { (line : ℕ) (reason : Reason) → ¬ (IsErrOf result (DimacsError.Line line reason)) }
{
    let variables = instance.variables;
    let mut solver = Solver::over(alloc, instance.clauses)?;
    solver.set_inprocessing(Inprocessing::NONE);
    match write_by(alloc, &mut solver, variables, writer, wanted, progress) {
        Ok(verdict) => Ok(Enumerated { verdict, solver }),
        Err(error) => Err(error),
    }
}

// Writes models of a solver's formula, for so many variables. Answers whether there is one.
fn write_by<W: Write, P: Progress>(
    alloc: Global,
    solver: &mut Solver,
    variables: u32,
    writer: &mut W,
    wanted: Models<'_>,
    progress: &mut P,
) -> Result<Verdict, DimacsError>
    requires most { solver.old.learned ≤ wanted.limit }
    ensures written { IfOk result (λ verdict. WritesModels wanted.entry.witness wanted.entry.projection.now
        (IsOpen wanted.entry.limit solver.new.learned (P.wants_stop progress.new))
        wanted.entry.count (problem_of variables solver.old.formula)
        (W.contents writer.old) (W.contents writer.new)) }
    ensures verdict { IfOk result (λ verdict. IsRightVerdict (problem_of variables solver.old.formula) verdict) }
    ensures formula { OnOk result (Extends solver.old.formula solver.new.formula) }
    ensures most { OnOk result (solver.new.learned ≤ wanted.entry.limit) }
    ensures other { (line : ℕ) (reason : Reason) → ¬ (IsErrOf result (DimacsError.Line line reason)) }
{
    for found in 0..wanted.count {
        match write_next(alloc, solver, variables, writer, wanted, progress)? {
            Verdict::Satisfiable => {}
            last => return Ok(first_verdict(found, last)),
        }
    }
    Ok(first_verdict(wanted.count, Verdict::Unknown))
}

// The first verdict after so many models, by the last one.
fn first_verdict(models: usize, last: Verdict) -> Verdict
    ensures { result ≡ first_verdict models last }
{
    if models == 0 {
        last
    } else {
        Verdict::Satisfiable
    }
}

// Looks for a model, writes what was found out, and adds the clause that excludes the model.
fn write_next<W: Write, P: Progress>(
    alloc: Global,
    solver: &mut Solver,
    variables: u32,
    writer: &mut W,
    wanted: Models<'_>,
    progress: &mut P,
) -> Result<Verdict, DimacsError>
    requires most { solver.old.learned ≤ wanted.limit }
    ensures written { IfOk result (λ verdict. WritesNext wanted.entry.witness wanted.entry.projection.now
        (IsOpen wanted.entry.limit solver.new.learned (P.wants_stop progress.new))
        (problem_of variables solver.old.formula) verdict solver.new.formula
        (W.contents writer.old) (W.contents writer.new)) }
    ensures kept { IfOk result (λ verdict. verdict ≢ Verdict.Satisfiable → solver.new.formula ≡ solver.old.formula) }
    ensures most { OnOk result (solver.new.learned ≤ wanted.entry.limit) }
    ensures other { (line : ℕ) (reason : Reason) → ¬ (IsErrOf result (DimacsError.Line line reason)) }
{
    let limit = wanted.limit.saturating_sub(solver.learned());
    match solve_in_slices(solver, limit, progress)? {
        Some(Answer::Sat(model)) => {
            write_model(alloc, solver, variables, writer, wanted, &model)
        }
        Some(Answer::Unsat) => {
            write(writer, b"s UNSATISFIABLE\n")?;
            Ok(Verdict::Unsatisfiable)
        }
        Some(Answer::Unknown) => {
            write(writer, b"s UNKNOWN\n")?;
            Ok(Verdict::Unknown)
        }
        None => {
            write(writer, b"s UNKNOWN\n")?;
            Ok(Verdict::Stopped)
        }
    }
}

// Writes a model for so many variables, and adds the clause that excludes it.
fn write_model<W: Write>(
    alloc: Global,
    solver: &mut Solver,
    variables: u32,
    writer: &mut W,
    wanted: Models<'_>,
    model: &[bool],
) -> Result<Verdict, DimacsError>
    ensures verdict { IfOk result (λ verdict. verdict ≡ Verdict.Satisfiable) }
    ensures written { OnOk result (Appends (W.contents writer.old) (W.contents writer.new)
        (model_text wanted.entry.witness (assignment_in model.now) (problem_of variables solver.old.formula))) }
    ensures excluded { OnOk result (solver.new.formula ≡
        solver.old.formula ++ differing (assignment_in model.now) wanted.entry.projection.now ∷ []) }
    ensures learned { solver.new.learned ≡ solver.old.learned }
    ensures other { (line : ℕ) (reason : Reason) → ¬ (IsErrOf result (DimacsError.Line line reason)) }
{
    let text = model_text(alloc, wanted.witness, variables, model)?;
    let other = differing(alloc, model, wanted.projection)?;
    solver.add_clause(&other)?;
    write(writer, &text)?;
    Ok(Verdict::Satisfiable)
}

// The clause that one of these literals' variables has another value than in a model.
fn differing(
    alloc: Global,
    model: &[bool],
    projection: &[Literal],
) -> Result<Vec<Literal>, AllocError>
    ensures { IfOk result (λ clause. clause.items ≡ differing (assignment_in model.now) projection.now) }
{
    let mut clause = Vec::new(alloc);
    for l in projection {
        let value = value_in(model, l.variable() as usize);
        clause.push(Literal::new(l.variable(), !value))?;
    }
    Ok(clause)
}
