//! From a formula's bytes to those of its answer, with a proof in a file if one is wanted.
ghost use Rattle.std.specs.Prelude.{◌≡◌, ◌≢◌, ℕ, IfOk, IfErr, IsTrue, OnOk, IsErrOf};
ghost use Rattle.std.specs.Io.KnownBytes.{IsAtEnd};
ghost use Rattle.gipsat_cnf.specs.Lists.{AreAllBelow};
ghost use Rattle.gipsat_answers.specs.Answers.{problem_of, WritesAnswerWith};
ghost use Rattle.gipsat_answers.specs.Assumed.{assuming};
ghost use Rattle.gipsat_answers.specs.Names.{formula_of};
ghost use Rattle.gipsat_dimacs.specs.Inputs.{HasForm, IsRefusedAt, OfProblem, WritesNone};
ghost use Rattle.gipsat_dimacs.specs.declared.error.DimacsError.TheVariants as dimacs_error;
ghost use Rattle.gipsat.specs.Searched.{has_limit, eliminates, form_asked, format_asked, vivifies};
ghost use Rattle.gipsat.specs.declared.solve.SolveError.TheVariants as solve_error;

use crate::watch::{Limits, Watch};
use gip_cli::NewFile;
use gipsat_answers::proof::{Fault, Form, Format, PartWriter, ProofSteps, ProofWriter};
use gipsat_answers::{Solved, Task, Verdict, are_named, assume, solve_instance};
use gipsat_cnf::{Cnf, Literal};
use gipsat_command::Options;
use gipsat_command::proof_file::{self, ProofError};
use gipsat_dimacs::{DimacsError, Instance, Reason, read_instance_by};
use gipsat_solver::Inprocessing;
use gipsat_solver::progress::{Both, Progress};
use std::alloc::AllocError;
use std::io::{Read, Write};

/// An option behind which a list of literals stands.
#[derive(Clone, Copy)]
pub enum ListOption {
    /// `--assume`.
    Assume,
    /// `--project`.
    Project,
    /// `--cube`.
    Cube,
}

impl ListOption {
    /// Its name.
    pub fn name(self) -> &'static str {
        match self {
            ListOption::Assume => "--assume",
            ListOption::Project => "--project",
            ListOption::Cube => "--cube",
        }
    }
}

/// Why a formula was not solved.
#[derive(Clone, Copy)]
pub enum SolveError<'a> {
    /// It was not read, memory was refused, or no answer was written.
    Task(DimacsError),
    /// Behind this option a literal has a variable that the formula does not have.
    Unnamed(ListOption),
    /// The proof was not written.
    Proof(ProofError<'a>),
}

impl From<AllocError> for SolveError<'_> {
    ghost from_gives = { λ _ error. error ≡ solve_error.Task dimacs_error.Memory };

    fn from(_refused: AllocError) -> Self {
        SolveError::Task(DimacsError::Memory)
    }
}

/// Solves as `solve_text` does, with a clause of each of these literals besides, within as many conflicts as the
/// options allow, and writes a proof where they say so.
///
/// The proof's file is begun once the whole formula was read. The answer is written where the proof is whole.
pub fn solve<'a, R: Read, W: Write>(
    rt: &HostRuntime,
    options: &Options<'a>,
    assumed: &[Literal],
    reader: &mut R,
    writer: &mut W,
) -> Result<Solved, SolveError<'a>>
    ensures read_to_end { OnOk result (IsAtEnd (R.remaining reader.new)) }
    ensures has_form { OnOk result (HasForm options.now.rule (R.remaining reader.old)) }
    ensures written { IfOk result (λ solved. OfProblem options.now.rule (R.remaining reader.old) (λ problem.
        WritesAnswerWith options.now.witness (assuming assumed.now problem) options.now.conflicts solved
        (W.contents writer.old) (W.contents writer.new))) }
    ensures formula { IfOk result (λ solved. OfProblem options.now.rule (R.remaining reader.old) (λ problem.
        formula_of solved ≡ (assuming assumed.now problem).clauses)) }
    ensures named { OnOk result (OfProblem options.now.rule (R.remaining reader.old) (λ problem.
        AreAllBelow problem.variables (assuming assumed.now problem).clauses)) }
    ensures stopped { IfOk result (λ solved. solved.verdict ≡ Verdict.Stopped → IsTrue (has_limit options.now)) }
    ensures line { (line : ℕ) (reason : Reason) → IsErrOf result (SolveError.Task (DimacsError.Line line reason)) →
        WritesNone options.now.rule (R.remaining reader.old) }
    ensures in_line { (line : ℕ) (reason : Reason) → IsErrOf result (SolveError.Task (DimacsError.Line line reason)) →
        IsRefusedAt options.now.rule (R.remaining reader.old) line }
    ensures unwritten { IfErr result (λ error. error ≢ SolveError.Task DimacsError.Output → writer.new ≡ writer.old) }
{
    let watch = Watch::new(rt, options)?;
    let instance = read_assuming(rt, options, assumed, reader, &watch)?;
    let proof = open_proof(rt, options, assumed, reader)?;
    answer(rt, options, instance, proof, watch, writer)
}

/// The formula of a text, with a clause of each of these literals besides.
pub fn read_assuming<'a, R: Read>(
    rt: &HostRuntime,
    options: &Options,
    assumed: &[Literal],
    reader: &mut R,
    watch: &Watch,
) -> Result<Instance<Cnf>, SolveError<'a>>
    ensures read_to_end { OnOk result (IsAtEnd (R.remaining reader.new)) }
    ensures has_form { OnOk result (HasForm options.now.rule (R.remaining reader.old)) }
    ensures made { IfOk result (λ made. OfProblem options.now.rule (R.remaining reader.old) (λ problem.
        problem_of made.variables made.clauses ≡ assuming assumed.now problem)) }
    ensures named { OnOk result (OfProblem options.now.rule (R.remaining reader.old) (λ problem.
        AreAllBelow problem.variables (assuming assumed.now problem).clauses)) }
    ensures line { (line : ℕ) (reason : Reason) → IsErrOf result (SolveError.Task (DimacsError.Line line reason)) →
        WritesNone options.now.rule (R.remaining reader.old) }
    ensures in_line { (line : ℕ) (reason : Reason) → IsErrOf result (SolveError.Task (DimacsError.Line line reason)) →
        IsRefusedAt options.now.rule (R.remaining reader.old) line }
{
    let mut instance = match read_instance_by(rt.alloc(), reader, options.rule) {
        Ok(instance) => instance,
        Err(error) => return Err(SolveError::Task(error)),
    };
    watch.note_read(&instance);
    if !are_named(instance.variables, assumed) {
        return Err(SolveError::Unnamed(assumed_by(options)));
    }
    match assume(&mut instance, assumed) {
        Ok(()) => Ok(instance),
        Err(AllocError) => Err(SolveError::Task(DimacsError::Memory)),
    }
}

// The option that names the assumptions.
fn assumed_by(options: &Options) -> ListOption {
    if options.has("--cube") {
        ListOption::Cube
    } else {
        ListOption::Assume
    }
}

// The file of a proof, and of which cube it is, if it is one of a part.
#[derive(Drop)]
struct ProofFile<'s, 'a> {
    file: NewFile<'a>,
    cube: Option<&'s [Literal]>,
}

// The file of the proof, if one is wanted. It is begun once the formula was read to its end.
fn open_proof<'s, 'a, R: Read>(
    rt: &HostRuntime,
    options: &Options<'a>,
    assumed: &'s [Literal],
    reader: &R,
) -> Result<Option<ProofFile<'s, 'a>>, SolveError<'a>>
    requires read_to_end { IsAtEnd (R.remaining reader.now) }
    ensures other { (error : DimacsError) → ¬ (IsErrOf result (SolveError.Task error)) }
{
    let Some(path) = options.word("--proof") else {
        return Ok(None);
    };
    match proof_file::create(rt, options, path, reader) {
        Ok(file) => Ok(Some(ProofFile {
            file,
            cube: options.number("--cube").map(|_| assumed),
        })),
        Err(error) => Err(SolveError::Proof(error)),
    }
}

/// How the options let a formula be solved.
pub fn task_of(options: &Options) -> Task
    ensures limit { result.limit ≡ options.now.conflicts }
    ensures witness { result.witness ≡ options.now.witness }
    ensures eliminates { result.inprocessing.eliminates ≡ eliminates options.now }
    ensures vivifies { result.inprocessing.vivifies ≡ vivifies options.now }
{
    Task {
        limit: options.conflicts,
        inprocessing: inprocessing_of(options),
        witness: options.witness,
    }
}

// What the search does at its pauses.
fn inprocessing_of(options: &Options) -> Inprocessing
    ensures eliminates { result.eliminates ≡ eliminates options.now }
    ensures vivifies { result.vivifies ≡ vivifies options.now }
{
    Inprocessing {
        eliminates: !options.has("--no-eliminate") && !options.has("--no-simplify"),
        vivifies: !options.has("--no-vivify") && !options.has("--no-simplify"),
    }
}

// Solves a formula that was read, within the limits that the options set.
fn answer<'a, W: Write>(
    rt: &HostRuntime,
    options: &Options<'a>,
    instance: Instance<Cnf>,
    proof: Option<ProofFile<'_, 'a>>,
    watch: Watch,
    writer: &mut W,
) -> Result<Solved, SolveError<'a>>
    ensures written { IfOk result (λ solved. WritesAnswerWith options.now.witness
        (problem_of instance.variables instance.clauses) options.now.conflicts solved
        (W.contents writer.old) (W.contents writer.new)) }
    ensures formula { IfOk result (λ solved. formula_of solved ≡ instance.clauses) }
    ensures stopped { IfOk result (λ solved. solved.verdict ≡ Verdict.Stopped → IsTrue (has_limit options.now)) }
    ensures other { (line : ℕ) (reason : Reason) →
        ¬ (IsErrOf result (SolveError.Task (DimacsError.Line line reason))) }
    ensures unwritten { IfErr result (λ error. error ≢ SolveError.Task DimacsError.Output → writer.new ≡ writer.old) }
{
    match Limits::asked(&watch, options) {
        None => Ok(answer_told(rt, options, instance, proof, watch, writer)?.solved),
        Some(limits) => {
            let limited = Both {
                first: watch,
                second: limits,
            };
            Ok(answer_told(rt, options, instance, proof, limited, writer)?.solved)
        }
    }
}

// What was found out, and what was told how far the search is.
#[derive(Drop)]
struct Told<P> {
    solved: Solved,
    progress: P,
}

// Solves a formula that was read, and tells `progress` how far the search is.
fn answer_told<'a, W: Write, P: Progress + Drop>(
    rt: &HostRuntime,
    options: &Options<'a>,
    instance: Instance<Cnf>,
    proof: Option<ProofFile<'_, 'a>>,
    mut progress: P,
    writer: &mut W,
) -> Result<Told<P>, SolveError<'a>>
    ensures written { IfOk result (λ told. WritesAnswerWith options.now.witness
        (problem_of instance.variables instance.clauses) options.now.conflicts told.solved
        (W.contents writer.old) (W.contents writer.new)) }
    ensures formula { IfOk result (λ told. formula_of told.solved ≡ instance.clauses) }
    ensures stopped { IfOk result (λ told.
        told.solved.verdict ≡ Verdict.Stopped → IsTrue (P.wants_stop told.progress)) }
    ensures other { (line : ℕ) (reason : Reason) →
        ¬ (IsErrOf result (SolveError.Task (DimacsError.Line line reason))) }
    ensures unwritten { IfErr result (λ error. error ≢ SolveError.Task DimacsError.Output → writer.new ≡ writer.old) }
{
    if let Some(proof) = proof {
        return prove(rt, options, instance, proof, progress, writer);
    }
    let task = task_of(options);
    match solve_instance(rt.alloc(), instance, writer, task, &mut progress) {
        Ok(solved) => Ok(Told { solved, progress }),
        Err(error) => Err(SolveError::Task(error)),
    }
}

// Solves a formula that was read, and writes a proof to a file. The answer is written where the proof is whole.
fn prove<'a, W: Write, P: Progress + Drop>(
    rt: &HostRuntime,
    options: &Options<'a>,
    instance: Instance<Cnf>,
    proof: ProofFile<'_, 'a>,
    progress: P,
    writer: &mut W,
) -> Result<Told<P>, SolveError<'a>>
    ensures written { IfOk result (λ told. WritesAnswerWith options.now.witness
        (problem_of instance.variables instance.clauses) options.now.conflicts told.solved
        (W.contents writer.old) (W.contents writer.new)) }
    ensures formula { IfOk result (λ told. formula_of told.solved ≡ instance.clauses) }
    ensures stopped { IfOk result (λ told.
        told.solved.verdict ≡ Verdict.Stopped → IsTrue (P.wants_stop told.progress)) }
    ensures other { (line : ℕ) (reason : Reason) →
        ¬ (IsErrOf result (SolveError.Task (DimacsError.Line line reason))) }
    ensures unwritten { IfErr result (λ error. error ≢ SolveError.Task DimacsError.Output → writer.new ≡ writer.old) }
{
    let ProofFile { mut file, cube } = proof;
    let mut text = Vec::new(rt.alloc());
    let told = match prove_to(rt, options, instance, &mut file, cube, progress, &mut text) {
        Ok(told) => told,
        Err(error) => return Err(error),
    };
    if let Err(error) = file.finish() {
        return Err(SolveError::Proof(ProofError::Finish(error)));
    }
    match writer.write_all(&text) {
        Ok(()) => Ok(told),
        Err(_) => Err(SolveError::Task(DimacsError::Output)),
    }
}

// Solves a formula that was read, writes a proof to a file, of this cube if it is one of a part, and the answer.
fn prove_to<'a, W: Write, P: Progress + Drop>(
    rt: &HostRuntime,
    options: &Options<'a>,
    instance: Instance<Cnf>,
    file: &mut NewFile<'a>,
    cube: Option<&[Literal]>,
    progress: P,
    writer: &mut W,
) -> Result<Told<P>, SolveError<'a>>
    ensures written { IfOk result (λ told. WritesAnswerWith options.now.witness
        (problem_of instance.variables instance.clauses) options.now.conflicts told.solved
        (W.contents writer.old) (W.contents writer.new)) }
    ensures formula { IfOk result (λ told. formula_of told.solved ≡ instance.clauses) }
    ensures stopped { IfOk result (λ told.
        told.solved.verdict ≡ Verdict.Stopped → IsTrue (P.wants_stop told.progress)) }
    ensures other { (line : ℕ) (reason : Reason) →
        ¬ (IsErrOf result (SolveError.Task (DimacsError.Line line reason))) }
{
    let (alloc, path) = (rt.alloc(), file.name());
    let (form, format) = (form_of(options), format_of(options));
    let Some(cube) = cube else {
        let proof = ProofWriter::in_form(alloc, file, form, format);
        return prove_by(rt, options, instance, path, proof, progress, writer);
    };
    let proof = match PartWriter::new(alloc, file, format, cube, &instance.clauses) {
        Ok(proof) => proof,
        Err(AllocError) => return Err(SolveError::Task(DimacsError::Memory)),
    };
    prove_by(rt, options, instance, path, proof, progress, writer)
}

// Solves a formula that was read, and writes a proof to the file of this name by these steps, and the answer.
fn prove_by<'a, W: Write, P: Progress + Drop, Q: Progress + ProofSteps + Drop>(
    rt: &HostRuntime,
    options: &Options<'a>,
    instance: Instance<Cnf>,
    path: &'a str,
    proof: Q,
    progress: P,
    writer: &mut W,
) -> Result<Told<P>, SolveError<'a>>
    ensures written { IfOk result (λ told. WritesAnswerWith options.now.witness
        (problem_of instance.variables instance.clauses) options.now.conflicts told.solved
        (W.contents writer.old) (W.contents writer.new)) }
    ensures formula { IfOk result (λ told. formula_of told.solved ≡ instance.clauses) }
    ensures stopped { IfOk result (λ told.
        told.solved.verdict ≡ Verdict.Stopped → IsTrue (P.wants_stop told.progress)) }
    ensures other { (line : ℕ) (reason : Reason) →
        ¬ (IsErrOf result (SolveError.Task (DimacsError.Line line reason))) }
{
    let mut both = Both {
        first: progress,
        second: proof,
    };
    let task = task_of(options);
    let solved = match solve_instance(rt.alloc(), instance, writer, task, &mut both) {
        Ok(solved) => solved,
        Err(error) => return Err(SolveError::Task(error)),
    };
    let Both {
        first: progress,
        second: mut proof,
    } = both;
    match proof.end_steps(solved.verdict == Verdict::Unsatisfiable) {
        Ok(()) => Ok(Told { solved, progress }),
        Err(Fault::Memory) => Err(SolveError::Task(DimacsError::Memory)),
        Err(Fault::Output(error)) => Err(SolveError::Proof(ProofError::Write(path, error))),
    }
}

// The form of the proof.
fn form_of(options: &Options) -> Form
    ensures { result ≡ form_asked options.now }
{
    if options.has("--lrat") {
        Form::Lrat
    } else {
        Form::Drat
    }
}

// How its steps are written.
fn format_of(options: &Options) -> Format
    ensures { result ≡ format_asked options.now }
{
    if options.has("--binary") {
        Format::Binary
    } else {
        Format::Text
    }
}
