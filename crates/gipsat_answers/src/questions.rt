//! Questions that a text asks one after another, of the clauses before each.
ghost use Rattle.std.specs.Prelude.{◌≡◌, ◌++◌, ◌+◌, ◌-◌, [], ◌≤◌, ◌<◌, ℕ, Bool, List, true, false, drop, length, codes, Some, None, IfNone, IfOk, IfSome, IsTrue, MatchOption, OnOk};
ghost use Rattle.std.specs.Bool.{OnTrue};
ghost use Rattle.std.specs.Option.{option_map};
ghost use Rattle.std.specs.Io.KnownBytes.{Appends, IsAtEnd};
ghost use Rattle.giputils_text.specs.Lines.{text_lines};
ghost use Rattle.gipsat_cnf.specs.Prelude.{AreAllBelow, AreBelow, Formula, IsModelUnder, IsRightOr, Lit};
ghost use Rattle.gipsat_solver.specs.Answers.{HasMore, HasNoFewer};
ghost use Rattle.gipsat_answers.specs.Names.{named, named_clause, IsRising};
ghost use Rattle.gipsat_answers.specs.Questions.{asked_under, asks, clauses_in, is_header, is_silent, is_stop, questions_after, questions_in, questions_of, verdict_with, Question};
ghost use Rattle.gipsat_answers.specs.Questions.{AreAskedOf, AsksQuestions, IsRightOfAll, IsRightReply, OfQuestions, WritesReplies, WritesReply};

use crate::answers::{Verdict, bytes, named_text, write};
use crate::asked::{asks, read_question};
use crate::error::QuestionsError;
use crate::names::{names_in, number_clause, numbered_by};
use crate::naming::report_of;
use crate::task::Task;
use gipsat_cnf::{AnswerUnder, Budget, Cnf, Literal};
use gipsat_dimacs::{DimacsError, HeaderRule, Reason, read_instance_by};
use gipsat_solver::Solver;
use gipsat_solver::progress::Progress;
use giputils_text::split_line;
use std::alloc::{AllocError, Global};
use std::io::{ErrorKind, Read, Write};

/// What was answered to the questions of a text, and by what.
#[derive(Drop)]
pub struct Replies {
    /// What the replies say together: `Satisfiable` where something satisfies one of the questions, and `Unsatisfiable`
    /// where there are some and nothing satisfies any.
    pub verdict: Verdict,
    /// The solver that was given the clauses, with all that it has learned.
    pub solver: Solver,
    /// Which variable of the text each of the solver's is.
    pub names: Vec<u32>,
    /// Whether the search was stopped.
    pub is_stopped: bool,
}

// What was answered to the questions of a text.
#[derive(Clone, Copy)]
struct Told {
    // What the replies say together.
    verdict: Verdict,
    // Whether the search was stopped.
    is_stopped: bool,
}

/// Reads a text to its end, and answers its questions in order, within as many learned clauses for each as the task
/// allows. Once the search is stopped, the questions that are left are told as open.
///
/// The text begins with a line `p inccnf`, behind which it has clauses in the DIMACS form, and questions. A question
/// begins in a line that begins with an `a`, behind which stand literals and a 0, over as many lines as it takes. It asks
/// whether something satisfies all clauses before it and makes these literals true.
///
/// # Errors
/// - [`DimacsError::Input`] where a read fails.
/// - [`DimacsError::Line`] with the number of the line at which the text has another form, and why.
/// - [`DimacsError::Memory`] where memory is refused.
/// - [`DimacsError::Output`] where a write fails.
/// - [`QuestionsError::Question`] with the number of the line in which a question begins that has no 0, or in which a word
///   stands behind that, and which of the two.
///
/// The replies to the questions before that were written then.
pub fn answer_questions<R: Read, W: Write, P: Progress>(
    alloc: Global,
    reader: &mut R,
    writer: &mut W,
    task: Task,
    progress: &mut P,
) -> Result<Replies, QuestionsError>
    ensures read_to_end { OnOk result (IsAtEnd (R.remaining reader.new)) }
    ensures has_form { OnOk result (AsksQuestions (R.remaining reader.old)) }
    ensures written { IfOk result (λ told. OfQuestions (R.remaining reader.old) (λ questions.
        WritesReplies task.witness task.limit told.solver.learned told.is_stopped questions
        (W.contents writer.old) (W.contents writer.new))) }
    ensures verdict { IfOk result (λ told. OfQuestions (R.remaining reader.old) (λ questions.
        IsRightOfAll questions told.verdict)) }
    ensures formula { IfOk result (λ told. OfQuestions (R.remaining reader.old)
        (AreAskedOf (named told.names.items told.solver.formula))) }
    ensures stopped { IfOk result (λ told. IsTrue told.is_stopped → IsTrue (P.wants_stop progress.new)) }
{
    let text = read_text(alloc, reader)?;
    let names = names_in(alloc, &text)?;
    let mut solver = Solver::new(alloc);
    match answer_text(alloc, &mut solver, &names, &text, writer, task, progress) {
        Ok(told) => Ok(Replies {
            verdict: told.verdict,
            solver,
            names,
            is_stopped: told.is_stopped,
        }),
        Err(error) => Err(error),
    }
}

// The bytes of a text.
pub(crate) fn read_text<R: Read>(alloc: Global, reader: &mut R) -> Result<Vec<u8>, DimacsError>
    ensures read_to_end { OnOk result (IsAtEnd (R.remaining reader.new)) }
    ensures text { IfOk result (λ read. IfSome (R.remaining reader.old) (λ text. read.items ≡ text)) }
{
    let mut text = Vec::new(alloc);
    match reader.read_to_end(&mut text) {
        Ok(_) => Ok(text),
        Err(error) if error.kind() == ErrorKind::OutOfMemory => Err(DimacsError::Memory),
        Err(_) => Err(DimacsError::Input),
    }
}

// Answers the questions of a text by a solver that has no clause, whose variables have these names in the text.
fn answer_text<W: Write, P: Progress>(
    alloc: Global,
    solver: &mut Solver,
    names: &[u32],
    text: &[u8],
    writer: &mut W,
    task: Task,
    progress: &mut P,
) -> Result<Told, QuestionsError>
    requires rising { IsRising names.now }
    requires empty { solver.old.formula ≡ [] }
    requires new { solver.old.learned ≡ 0 }
    ensures right { IfOk result (λ told. (asked : List Question) × (questions_of text.now ≡ Some asked)
        × WritesReplies task.witness task.limit solver.new.learned told.is_stopped asked
        (W.contents writer.old) (W.contents writer.new) × IsRightOfAll asked told.verdict
        × AreAskedOf (named names.now solver.new.formula) asked) }
    ensures stopped { IfOk result (λ told. IsTrue told.is_stopped → IsTrue (P.wants_stop progress.new)) }
{
    let (lines, body) = behind_header(text)?;
    answer_lines(alloc, solver, names, body, lines, writer, task, progress)
}

// What stands behind the header, and behind how many lines.
pub(crate) fn behind_header(text: &[u8]) -> Result<(usize, &[u8]), DimacsError>
    ensures { IfOk result (λ found. questions_of text.now ≡ questions_after [] [] None (text_lines found.1.now)) }
{
    let mut lines = 0usize;
    let mut left = text;
    while let Some((line, rest)) = split_line(left) {
        lines = lines.saturating_add(1);
        left = rest;
        if is_silent(line) {
            continue;
        }
        if is_header(line) {
            return Ok((lines, rest));
        }
        return Err(DimacsError::Line(lines, Reason::Header));
    }
    Err(DimacsError::Line(lines.saturating_add(1), Reason::Header))
}

// Whether a line says nothing.
fn is_silent(line: &[u8]) -> bool
    ensures { result ≡ is_silent line.now }
{
    match line {
        [first, ..] => *first == b'\r' || *first == b'c',
        [] => true,
    }
}

// Whether a line is the header.
fn is_header(line: &[u8]) -> bool
    ensures { result ≡ is_header line.now }
{
    line == b"p inccnf".as_slice() || line == b"p inccnf\r".as_slice()
}

// Clauses that were read since the last question, and where.
#[derive(Drop)]
pub(crate) struct Begun {
    // Their lines.
    text: Vec<u8>,
    // How many lines stand before them.
    lines_before: usize,
}

impl Begun {
    // None, behind so many lines.
    pub(crate) fn new(alloc: Global, lines_before: usize) -> Self
        ensures { result.text.items ≡ [] }
    {
        Begun {
            text: Vec::new(alloc),
            lines_before,
        }
    }

    // None again, behind so many lines.
    pub(crate) fn restart(&mut self, lines_before: usize)
        ensures { self.new.text.items ≡ [] }
    {
        self.text.clear();
        self.lines_before = lines_before;
    }

    // Adds a line.
    pub(crate) fn push(&mut self, line: &[u8]) -> Result<(), AllocError>
        ensures { OnOk result (self.new.text.items ≡ self.old.text.items ++ line.now ++ codes "\n") }
    {
        self.text.extend_from_slice(line)?;
        self.text.push(b'\n')?;
        Ok(())
    }
}

// Answers the questions of a text, which stands behind a header and so many lines, by a solver that has no clause,
// whose variables have these names in the text.
fn answer_lines<W: Write, P: Progress>(
    alloc: Global,
    solver: &mut Solver,
    names: &[u32],
    text: &[u8],
    lines_before: usize,
    writer: &mut W,
    task: Task,
    progress: &mut P,
) -> Result<Told, QuestionsError>
    requires rising { IsRising names.now }
    requires empty { solver.old.formula ≡ [] }
    requires new { solver.old.learned ≡ 0 }
    ensures right { IfOk result (λ told. (asked : List Question)
        × (questions_after [] [] None (text_lines text.now) ≡ Some asked)
        × WritesReplies task.witness task.limit solver.new.learned told.is_stopped asked
        (W.contents writer.old) (W.contents writer.new) × IsRightOfAll asked told.verdict
        × AreAskedOf (named names.now solver.new.formula) asked) }
    ensures stopped { IfOk result (λ told. IsTrue told.is_stopped → IsTrue (P.wants_stop progress.new)) }
{
    let mut verdict = None;
    let mut is_stopped = false;
    let mut lines = lines_before;
    let mut begun = Begun {
        text: Vec::new(alloc),
        lines_before,
    };
    let mut left = text;
    while let Some((line, rest)) = split_line(left) {
        left = rest;
        lines = lines.saturating_add(1);
        if !asks(line) {
            begun.push(line)?;
            continue;
        }
        add_begun(alloc, solver, names, &mut begun)?;
        let question = read_question(alloc, line, rest, lines)?;
        left = question.rest;
        lines = question.lines;
        begun.lines_before = lines;
        let literals = number_literals(alloc, names, &question.literals)?;
        let asked = Asked {
            names,
            literals: &literals,
            is_stopped,
        };
        let last = reply_to(alloc, solver, asked, writer, task, progress)?;
        verdict = Some(verdict_with(verdict, last));
        is_stopped = is_stop(last);
    }
    add_begun(alloc, solver, names, &mut begun)?;
    progress.end(report_of(solver));
    Ok(Told {
        verdict: verdict.unwrap_or(Verdict::Unknown),
        is_stopped,
    })
}

// The verdict of some questions, if there are some, and of one more.
fn verdict_with(so_far: Option<Verdict>, last: Verdict) -> Verdict
    ensures { result ≡ verdict_with so_far last }
{
    match so_far {
        None | Some(Verdict::Unsatisfiable) => last,
        Some(Verdict::Satisfiable) => Verdict::Satisfiable,
        Some(open) => match last {
            Verdict::Satisfiable => Verdict::Satisfiable,
            _ => open,
        },
    }
}

// Whether a verdict is that of a search that was stopped.
fn is_stop(verdict: Verdict) -> bool
    ensures { result ≡ is_stop verdict }
{
    match verdict {
        Verdict::Stopped => true,
        Verdict::Satisfiable | Verdict::Unsatisfiable | Verdict::Unknown => false,
    }
}

// Adds the clauses that have begun to the solver, whose variables have these names.
fn add_begun(
    alloc: Global,
    solver: &mut Solver,
    names: &[u32],
    begun: &mut Begun,
) -> Result<(), DimacsError>
    requires below { AreAllBelow (length names.now) solver.old.formula }
    ensures added { OnOk result ((added : Formula) × (clauses_in begun.old.text.items ≡ Some added)
        × (named names.now solver.new.formula ≡ named names.now solver.old.formula ++ added)) }
    ensures below { OnOk result (AreAllBelow (length names.now) solver.new.formula) }
    ensures text { OnOk result (begun.new.text.items ≡ []) }
    ensures learned { OnOk result (solver.new.learned ≡ solver.old.learned) }
{
    let read = read_begun(alloc, begun)?;
    let Some(clauses) = numbered_by(alloc, &read, names)? else {
        return Err(DimacsError::Memory);
    };
    add_clauses(solver, &clauses)?;
    begun.text.clear();
    Ok(())
}

// The clauses that have begun.
pub(crate) fn read_begun(alloc: Global, begun: &Begun) -> Result<Cnf, DimacsError>
    ensures { IfOk result (λ clauses. clauses_in begun.now.text.items ≡ Some clauses) }
{
    let mut text = begun.text.as_slice();
    match read_instance_by(alloc, &mut text, HeaderRule::Relaxed) {
        Ok(read) => Ok(read.clauses),
        Err(error) => Err(behind(begun.lines_before, error)),
    }
}

// The literals that have these under the names.
fn number_literals(
    alloc: Global,
    names: &[u32],
    literals: &[Literal],
) -> Result<Vec<Literal>, AllocError>
    ensures named { IfOk result (λ made. named_clause names.now made.items ≡ literals.now) }
    ensures below { IfOk result (λ made. AreBelow (length names.now) made.items) }
{
    let mut made = Vec::new(alloc);
    if number_clause(&mut made, names, literals)? {
        Ok(made)
    } else {
        Err(AllocError)
    }
}

// An error in a text that has so many lines before it.
fn behind(lines: usize, error: DimacsError) -> DimacsError {
    match error {
        DimacsError::Line(line, reason) => DimacsError::Line(lines.saturating_add(line), reason),
        other => other,
    }
}

// Adds clauses to the solver.
fn add_clauses(solver: &mut Solver, clauses: &Cnf) -> Result<(), AllocError>
    ensures formula { OnOk result (solver.new.formula ≡ solver.old.formula ++ clauses.now) }
    ensures learned { OnOk result (solver.new.learned ≡ solver.old.learned) }
{
    for place in 0..clauses.len() {
        solver.add_clause(clauses.clause(place))?;
    }
    Ok(())
}

// A question, and what is known where it is asked.
#[derive(Clone, Copy)]
struct Asked<'a> {
    // The names of the solver's variables.
    names: &'a [u32],
    literals: &'a [Literal],
    // Whether the search was stopped before.
    is_stopped: bool,
}

// Answers a question, and writes the reply.
fn reply_to<W: Write, P: Progress>(
    alloc: Global,
    solver: &mut Solver,
    asked: Asked<'_>,
    writer: &mut W,
    task: Task,
    progress: &mut P,
) -> Result<Verdict, DimacsError>
    requires rising { IsRising asked.names.now }
    requires below { AreAllBelow (length asked.names.now) solver.old.formula }
    requires literals { AreBelow (length asked.names.now) asked.literals.now }
    requires stopped { IsTrue asked.is_stopped → IsTrue (P.wants_stop progress.old) }
    ensures written { IfOk result (λ verdict. WritesReply task.witness task.limit
        (solver.new.learned - solver.old.learned) true
        (asked_under asked.entry.names.now solver.old.formula asked.entry.literals.now) verdict
        (W.contents writer.old) (W.contents writer.new)) }
    ensures stays { IfOk result (λ verdict. IsTrue asked.entry.is_stopped → verdict ≡ Verdict.Stopped) }
    ensures stopped { IfOk result (λ verdict. verdict ≡ Verdict.Stopped → IsTrue (P.wants_stop progress.new)) }
    ensures formula { solver.new.formula ≡ solver.old.formula }
    ensures learned { HasNoFewer solver.old solver.new }
    ensures most { OnOk result (solver.new.learned ≤ solver.old.learned + task.limit) }
{
    if asked.is_stopped {
        write(writer, b"s UNKNOWN\n")?;
        return Ok(Verdict::Stopped);
    }
    let (verdict, text) = reply(alloc, solver, asked.names, asked.literals, task, progress)?;
    write(writer, &text)?;
    Ok(verdict)
}

// Whether these literals can all be true, and the text of this reply, in which the variables have these names.
fn reply<P: Progress>(
    alloc: Global,
    solver: &mut Solver,
    names: &[u32],
    assumed: &[Literal],
    task: Task,
    progress: &mut P,
) -> Result<(Verdict, Vec<u8>), AllocError>
    requires rising { IsRising names.now }
    requires below { AreAllBelow (length names.now) solver.old.formula }
    requires literals { AreBelow (length names.now) assumed.now }
    ensures right { IfOk result (λ made. IsRightReply task.witness task.limit
        (solver.new.learned - solver.old.learned) true
        (asked_under names.now solver.old.formula assumed.now) made.0 made.1.items) }
    ensures stopped { IfOk result (λ made. made.0 ≡ Verdict.Stopped → IsTrue (P.wants_stop progress.new)) }
    ensures formula { solver.new.formula ≡ solver.old.formula }
    ensures learned { HasNoFewer solver.old solver.new }
    ensures most { OnOk result (solver.new.learned ≤ solver.old.learned + task.limit) }
{
    match solve_assuming(solver, assumed, task.limit, progress)? {
        Some(AnswerUnder::Sat(model)) => {
            let text = model_reply(alloc, task.witness, names, &model)?;
            Ok((Verdict::Satisfiable, text))
        }
        Some(AnswerUnder::Unsat(_)) => {
            let text = bytes(alloc, b"s UNSATISFIABLE\n")?;
            Ok((Verdict::Unsatisfiable, text))
        }
        Some(AnswerUnder::Unknown) => {
            let text = bytes(alloc, b"s UNKNOWN\n")?;
            Ok((Verdict::Unknown, text))
        }
        None => {
            let text = bytes(alloc, b"s UNKNOWN\n")?;
            Ok((Verdict::Stopped, text))
        }
    }
}

// The text of a reply by a model of a formula whose variables have these names.
fn model_reply(
    alloc: Global,
    witness: bool,
    names: &[u32],
    model: &[bool],
) -> Result<Vec<u8>, AllocError>
    requires rising { IsRising names.now }
    ensures { IfOk result (λ text. (limit spent : ℕ) (stop : Bool) (f : Formula) (assumed : List Lit) →
        AreAllBelow (length names.now) f → AreBelow (length names.now) assumed → IsModelUnder f assumed model.now →
        IsRightReply witness limit spent stop (asked_under names.now f assumed) Verdict.Satisfiable text.items) }
{
    let shown = shown(names, model)?;
    named_text(alloc, witness, names, shown, model)
}

// Of how many variables the values are shown: of those that have a name and a value.
fn shown(names: &[u32], model: &[bool]) -> Result<u32, AllocError>
    ensures names { IfOk result (λ shown. shown ≤ length names.now) }
    ensures all { IfOk result (λ shown. (v : ℕ) → v < length names.now → v < length model.now → v < shown) }
{
    let shown = if model.len() < names.len() {
        model.len()
    } else {
        names.len()
    };
    u32::try_from(shown).map_err(|_| AllocError)
}

// How many clauses may be learned, and how many literals propagated, up to the first pause of a search.
const FIRST: Budget = Budget {
    clauses: 2_000,
    propagations: 1_000_000,
};

// Whether these literals can all be true. It tells `progress` how far it is: None where that stopped it. It gives up after
// so many learned clauses.
fn solve_assuming<P: Progress>(
    solver: &mut Solver,
    assumed: &[Literal],
    limit: usize,
    progress: &mut P,
) -> Result<Option<AnswerUnder>, AllocError>
    ensures right { IfOk result (λ found. IfSome found
        (IsRightOr solver.old.formula assumed.now (HasMore limit solver.old solver.new))) }
    ensures stopped { IfOk result (λ found. IfNone found (IsTrue (P.wants_stop progress.new))) }
    ensures formula { solver.new.formula ≡ solver.old.formula }
    ensures learned { HasNoFewer solver.old solver.new }
    ensures most { OnOk result (solver.new.learned ≤ solver.old.learned + limit) }
{
    let before = solver.learned();
    let mut left = limit;
    let mut propagations = FIRST.propagations;
    for _ in 0..usize::MAX {
        let known = solver.learned();
        progress.begin(report_of(solver));
        let budget = Budget {
            clauses: FIRST.clauses.min(left),
            propagations,
        };
        match solver.solve_limited(assumed, budget)? {
            AnswerUnder::Unknown => {}
            answer => return Ok(Some(answer)),
        }
        let spent = solver.learned().saturating_sub(before);
        if spent >= limit {
            return Ok(Some(AnswerUnder::Unknown));
        }
        if progress.note(report_of(solver)).is_break() {
            return Ok(None);
        }
        propagations = next_budget(propagations, solver.learned() > known);
        left = limit.saturating_sub(spent);
    }
    Err(AllocError)
}

// How many literals may be propagated up to the next pause: more where nothing was learned, since each search begins at
// the root.
fn next_budget(propagations: u64, has_learned: bool) -> u64 {
    if has_learned {
        FIRST.propagations
    } else {
        propagations.saturating_mul(2)
    }
}
