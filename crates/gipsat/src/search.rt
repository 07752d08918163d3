//! Searches, from what is read to the status that the program ends with: of a formula, of several models, and of
//! questions.
ghost use Rattle.std.specs.Prelude.{◌≡◌, IfOk, None, Some};
ghost use Rattle.std.specs.Option.{option_map};
ghost use Rattle.std.specs.Process.{exit_status};
ghost use Rattle.gipsat_answers.specs.declared.answers.Verdict.TheVariants.{Satisfiable, Unknown, Unsatisfiable};
ghost use Rattle.gipsat_command.specs.Files.{output_contents, source_remaining};
ghost use Rattle.gipsat.specs.Answered.{AreQuestionsAnswered, IsAnswered, IsProblemAnswered, IsSearchStatus};

use crate::models::{Wanted, enumerate};
use crate::questions::answer;
use crate::solve::{SolveError, solve};
use crate::watch::WatchedReader;
use gip_cli::refuse;
use gipsat_answers::{QuestionsError, Verdict};
use gipsat_cnf::Literal;
use gipsat_command::{Failure, Options, Output, Source};
use std::io::{Read, Write};
use std::process::ExitCode;

/// The status of a search in what a source writes, whose answer is written. It is 20 only where nothing satisfies the
/// formula and makes the assumptions true, or any question, and 10 only where something does. Standard error tells why
/// nothing is answered.
pub fn search_in<'a, R: Read + Drop, W: Write>(
    rt: &HostRuntime,
    options: &Options<'a>,
    assumed: &[Literal],
    projection: Option<&[Literal]>,
    source: Source<'a, R>,
    output: &mut Output<W>,
) -> ExitCode
    ensures unsatisfiable { exit_status result ≡ 20 →
        IsAnswered options.now assumed.now (option_map (λ literals. literals.now) projection.entry) Unsatisfiable
        (source_remaining R.remaining source.entry)
        (output_contents W.contents output.old) (output_contents W.contents output.new) }
    ensures satisfiable { exit_status result ≡ 10 →
        IsAnswered options.now assumed.now (option_map (λ literals. literals.now) projection.entry) Satisfiable
        (source_remaining R.remaining source.entry)
        (output_contents W.contents output.old) (output_contents W.contents output.new) }
    ensures unknown { exit_status result ≡ 0 →
        IsAnswered options.now assumed.now (option_map (λ literals. literals.now) projection.entry) Unknown
        (source_remaining R.remaining source.entry)
        (output_contents W.contents output.old) (output_contents W.contents output.new) }
    ensures ends { IsSearchStatus (exit_status result) }
{
    match search(rt, options, assumed, projection, source, output) {
        Ok(verdict) => ExitCode::from(verdict.status()),
        Err(error) => refuse(rt, &error),
    }
}

// The verdict of what a source writes. The answer is written.
fn search<'a, R: Read + Drop, W: Write>(
    rt: &HostRuntime,
    options: &Options<'a>,
    assumed: &[Literal],
    projection: Option<&[Literal]>,
    mut source: Source<'a, R>,
    output: &mut Output<W>,
) -> Result<Verdict, Failure<'a>>
    ensures { IfOk result (λ verdict. IsAnswered options.now assumed.now
        (option_map (λ literals. literals.now) projection.entry) verdict
        (source_remaining R.remaining source.entry)
        (output_contents W.contents output.old) (output_contents W.contents output.new)) }
{
    if source.has_questions()? {
        return answer_in(rt, options, source, output);
    }
    match options.models {
        Some(count) => {
            let wanted = Wanted {
                count,
                assumed,
                projection,
            };
            enumerate_in(rt, options, wanted, source, output)
        }
        None => solve_in(rt, options, assumed, source, output),
    }
}

// The verdict of a formula under these assumptions. It is written, with values where there are some and they are wanted.
fn solve_in<'a, R: Read + Drop, W: Write>(
    rt: &HostRuntime,
    options: &Options<'a>,
    assumed: &[Literal],
    source: Source<'a, R>,
    output: &mut Output<W>,
) -> Result<Verdict, Failure<'a>>
    ensures { IfOk result (λ verdict.
        IsProblemAnswered options.now.rule options.now.witness None assumed.now None verdict
        (source_remaining R.remaining source.entry)
        (output_contents W.contents output.old) (output_contents W.contents output.new)) }
{
    let mut reader = WatchedReader::new(rt, options, source);
    match solve(rt, options, assumed, &mut reader, output) {
        Ok(solved) => Ok(solved.verdict),
        Err(error) => Err(failure_of(&reader.reader, output, error)),
    }
}

// The verdict of a formula under assumptions. As many models as are wanted are written.
fn enumerate_in<'a, R: Read + Drop, W: Write>(
    rt: &HostRuntime,
    options: &Options<'a>,
    wanted: Wanted<'_>,
    source: Source<'a, R>,
    output: &mut Output<W>,
) -> Result<Verdict, Failure<'a>>
    ensures { IfOk result (λ verdict. IsProblemAnswered options.now.rule options.now.witness (Some wanted.entry.count)
        wanted.entry.assumed.now (option_map (λ literals. literals.now) wanted.entry.projection) verdict
        (source_remaining R.remaining source.entry)
        (output_contents W.contents output.old) (output_contents W.contents output.new)) }
{
    let mut reader = WatchedReader::new(rt, options, source);
    match enumerate(rt, options, wanted, &mut reader, output) {
        Ok(told) => Ok(told.verdict),
        Err(error) => Err(failure_of(&reader.reader, output, error)),
    }
}

// The verdict of all questions together. Replies to them are written.
fn answer_in<'a, R: Read + Drop, W: Write>(
    rt: &HostRuntime,
    options: &Options<'a>,
    source: Source<'a, R>,
    output: &mut Output<W>,
) -> Result<Verdict, Failure<'a>>
    ensures { IfOk result (λ verdict. AreQuestionsAnswered options.now.witness options.now.conflicts verdict
        (source_remaining R.remaining source.entry)
        (output_contents W.contents output.old) (output_contents W.contents output.new)) }
{
    if let Some(option) = of_one_formula(options) {
        return Err(Failure::Questions(options.file, option));
    }
    let mut reader = WatchedReader::new(rt, options, source);
    match answer(rt, options, &mut reader, output) {
        Ok(replies) => Ok(replies.verdict),
        Err(error) => Err(questions_failure(&reader.reader, output, error)),
    }
}

// An option that has a meaning for one formula alone, if one is given.
fn of_one_formula(options: &Options) -> Option<&'static str> {
    if options.has("--proof") {
        Some("--proof")
    } else if options.models.is_some() {
        Some("--models")
    } else if options.has("--assume") {
        Some("--assume")
    } else if options.has("--cube") {
        Some("--cube")
    } else {
        None
    }
}

// Why the questions from this source were not answered to their end.
pub fn questions_failure<'a, R: Read, W: Write>(
    source: &Source<'a, R>,
    output: &Output<W>,
    error: QuestionsError,
) -> Failure<'a> {
    match error {
        QuestionsError::Dimacs(error) => source.failure(output, error),
        QuestionsError::Question(line, flaw) => {
            Failure::Question(source.name(), line, flaw.text())
        }
    }
}

// Why a formula from this source was not solved.
fn failure_of<'a, R: Read, W: Write>(
    source: &Source<'a, R>,
    output: &Output<W>,
    error: SolveError<'a>,
) -> Failure<'a> {
    match error {
        SolveError::Task(error) => source.failure(output, error),
        SolveError::Unnamed(option) => Failure::Unnamed(source.name(), option.name()),
        SolveError::Proof(error) => Failure::Proof(error),
    }
}
