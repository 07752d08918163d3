//! The whole task: from the bytes of a text to those of an answer.
ghost use Rattle.std.specs.Prelude.{◌≡◌, ◌≢◌, ℕ, IfOk, IfErr, OnOk, IsErrOf, IsTrue};
ghost use Rattle.std.specs.Io.KnownBytes.{IsAtEnd};
ghost use Rattle.gipsat_cnf.specs.Lists.{AreAllBelow};
ghost use Rattle.gipsat_dimacs.specs.Inputs.{HasClauses, HasForm, IsRefusedAt, OfProblem, WritesNone};
ghost use Rattle.gipsat_dimacs.specs.declared.rule.HeaderRule.TheVariants.{Strict};
ghost use Rattle.gipsat_answers.specs.Answers.{problem_of, IsRightText, WritesAnswer, WritesAnswerWith, WritesVerdict};
ghost use Rattle.gipsat_answers.specs.Names.{formula_of, named, AreNamesOf};

use crate::answers::{Solved, Verdict, answer_text, bytes, write};
use crate::names::{Renumbered, answer_under, renumber};
use crate::naming::solve_named;
use gipsat_cnf::Cnf;
use gipsat_dimacs::{DimacsError, Instance, Reason, read_instance};
use gipsat_solver::progress::Progress;
use gipsat_solver::{Inprocessing, Solver};
use std::alloc::{AllocError, Global};
use std::io::{Read, Write};

/// How a formula is to be solved, and what is to be written.
#[derive(Clone, Copy)]
pub struct Task {
    /// After how many learned clauses it gives up.
    pub limit: usize,
    /// Whether variables are eliminated and clauses shortened on the way.
    pub inprocessing: Inprocessing,
    /// Whether the values that satisfy the formula are written.
    pub witness: bool,
}

/// Reads a formula in the DIMACS form, finds out whether anything satisfies it, and writes the answer.
///
/// It gives up after it has learned `limit` clauses. Now and then it tells `progress` how far it is, which may stop the
/// search; `()` never does.
///
/// # Errors
/// - [`DimacsError::Input`] where a read fails.
/// - [`DimacsError::Line`] with the number of the line at which the text has another form, and why.
/// - [`DimacsError::Memory`] where memory is refused.
/// - [`DimacsError::Output`] where a write fails. What was written by then is open.
///
/// At the first three nothing was written. How much of the input was read is open.
pub fn solve_text<R: Read, W: Write, P: Progress>(
    alloc: Global,
    reader: &mut R,
    writer: &mut W,
    limit: usize,
    progress: &mut P,
) -> Result<Solved, DimacsError>
    // Success means that all of a text of the form was read, and that a right answer and nothing else was written.
    ensures read_to_end { OnOk result (IsAtEnd (R.remaining reader.new)) }
    ensures has_form { OnOk result (HasForm Strict (R.remaining reader.old)) }
    ensures written { IfOk result (λ solved. OfProblem Strict (R.remaining reader.old)
        (λ problem. WritesAnswer problem limit solved (W.contents writer.old) (W.contents writer.new))) }
    ensures formula { IfOk result (λ solved. HasClauses Strict (R.remaining reader.old) (formula_of solved)) }
    ensures named { OfProblem Strict (R.remaining reader.old)
        (λ problem. AreAllBelow problem.variables problem.clauses) }
    ensures stopped { IfOk result (λ solved. solved.verdict ≡ Verdict.Stopped → IsTrue (P.wants_stop progress.new)) }

    // When the text is refused, in which line, and what was written then.
    ensures line { (line : ℕ) (reason : Reason) → IsErrOf result (DimacsError.Line line reason) →
        WritesNone Strict (R.remaining reader.old) }
    ensures in_line { (line : ℕ) (reason : Reason) → IsErrOf result (DimacsError.Line line reason) →
        IsRefusedAt Strict (R.remaining reader.old) line }
    ensures unwritten { IfErr result (λ error. error ≢ DimacsError.Output → writer.new ≡ writer.old) }
{
    let instance = read_instance(alloc, reader)?;
    let task = Task {
        limit,
        inprocessing: Inprocessing::ALL,
        witness: true,
    };
    solve_instance(alloc, instance, writer, task, progress)
}

/// Finds out whether anything satisfies a formula that was read, and writes the answer, as [`solve_text`] does.
///
/// # Errors
/// - [`DimacsError::Memory`] where memory is refused.
/// - [`DimacsError::Output`] where a write fails. What was written by then is open.
///
/// At the first nothing was written.
pub fn solve_instance<W: Write, P: Progress>(
    alloc: Global,
    instance: Instance<Cnf>,
    writer: &mut W,
    task: Task,
    progress: &mut P,
) -> Result<Solved, DimacsError>
    ensures written { IfOk result (λ solved. WritesAnswerWith task.witness
        (problem_of instance.variables instance.clauses) task.limit solved
        (W.contents writer.old) (W.contents writer.new)) }
    ensures formula { IfOk result (λ solved. formula_of solved ≡ instance.clauses) }
    ensures stopped { IfOk result (λ solved. solved.verdict ≡ Verdict.Stopped → IsTrue (P.wants_stop progress.new)) }
    ensures other { (line : ℕ) (reason : Reason) → ¬ (IsErrOf result (DimacsError.Line line reason)) }
    ensures unwritten { IfErr result (λ error. error ≢ DimacsError.Output → writer.new ≡ writer.old) }
{
    let variables = instance.variables;
    let Renumbered { names, clauses } = renumber(alloc, instance.clauses)?;
    let mut solver = Solver::over(alloc, clauses)?;
    solver.set_inprocessing(task.inprocessing);
    match write_answer(
        alloc,
        &mut solver,
        &names,
        variables,
        writer,
        task,
        progress,
    ) {
        Ok(verdict) => Ok(Solved {
            verdict,
            solver,
            names,
        }),
        Err(error) => Err(error),
    }
}

// Finds out whether anything satisfies the formula of a solver that is new, and writes the answer for so many variables.
// The solver's variables have these names in the answer.
fn write_answer<W: Write, P: Progress>(
    alloc: Global,
    solver: &mut Solver,
    names: &[u32],
    variables: u32,
    writer: &mut W,
    task: Task,
    progress: &mut P,
) -> Result<Verdict, DimacsError>
    requires names { AreNamesOf solver.old.formula names.now }
    requires new { solver.old.learned ≡ 0 }
    ensures written { IfOk result (λ verdict. WritesVerdict task.witness
        (problem_of variables (named names.now solver.old.formula)) task.limit solver.new verdict
        (W.contents writer.old) (W.contents writer.new)) }
    ensures formula { solver.new.formula ≡ solver.old.formula }
    ensures stopped { IfOk result (λ verdict. verdict ≡ Verdict.Stopped → IsTrue (P.wants_stop progress.new)) }
    ensures other { (line : ℕ) (reason : Reason) → ¬ (IsErrOf result (DimacsError.Line line reason)) }
    ensures unwritten { IfErr result (λ error. error ≢ DimacsError.Output → writer.new ≡ writer.old) }
{
    let (verdict, text) = answer_named(alloc, solver, names, variables, task, progress)?;
    write(writer, &text)?;
    Ok(verdict)
}

// What is found out about the formula of a solver that is new, with its text for so many variables. The solver's
// variables have these names in the text.
fn answer_named<P: Progress>(
    alloc: Global,
    solver: &mut Solver,
    names: &[u32],
    variables: u32,
    task: Task,
    progress: &mut P,
) -> Result<(Verdict, Vec<u8>), AllocError>
    requires names { AreNamesOf solver.old.formula names.now }
    requires new { solver.old.learned ≡ 0 }
    ensures right { IfOk result (λ made. IsRightText task.witness
        (problem_of variables (named names.now solver.old.formula)) task.limit solver.new made.0 made.1.items) }
    ensures formula { solver.new.formula ≡ solver.old.formula }
    ensures stopped { IfOk result (λ made. made.0 ≡ Verdict.Stopped → IsTrue (P.wants_stop progress.new)) }
{
    let Some(answer) = solve_named(alloc, solver, names, task.limit, progress)? else {
        return Ok((Verdict::Stopped, bytes(alloc, b"s UNKNOWN\n")?));
    };
    let answer = answer_under(alloc, names, answer)?;
    answer_text(alloc, task.witness, variables, &answer)
}
