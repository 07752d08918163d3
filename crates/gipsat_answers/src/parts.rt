//! Cubes as they are read: the assumptions of the questions that a text asks.
ghost use Rattle.std.specs.Prelude.{◌≡◌, ◌++◌, [], None, Some, IfOk, OnOk};
ghost use Rattle.std.specs.Option.{option_map};
ghost use Rattle.std.specs.Io.KnownBytes.{IsAtEnd};
ghost use Rattle.giputils_text.specs.Lines.{text_lines};
ghost use Rattle.gipsat_answers.specs.Questions.{cubes_asked, questions_after, AsksQuestions, OfQuestions};

use crate::asked::{asks, read_question};
use crate::error::QuestionsError;
use crate::questions::{Begun, behind_header, read_begun, read_text};
use gipsat_cnf::Cnf;
use giputils_text::split_line;
use std::alloc::Global;
use std::io::Read;

/// The cubes of a text: what its questions assume, in order, as clauses. The text has the form that
/// [`answer_questions`](crate::answer_questions) reads; clauses that it has are passed over.
///
/// # Errors
/// As that, but for writing.
pub fn read_cubes<R: Read>(alloc: Global, reader: &mut R) -> Result<Cnf, QuestionsError>
    ensures read_to_end { OnOk result (IsAtEnd (R.remaining reader.new)) }
    ensures has_form { OnOk result (AsksQuestions (R.remaining reader.old)) }
    ensures cubes { IfOk result (λ cubes. OfQuestions (R.remaining reader.old)
        (λ questions. cubes ≡ cubes_asked questions)) }
{
    let text = read_text(alloc, reader)?;
    let (lines, body) = behind_header(&text)?;
    cubes_in(alloc, body, lines)
}

// The cubes of a text that stands behind a header and so many lines.
fn cubes_in(alloc: Global, text: &[u8], lines_before: usize) -> Result<Cnf, QuestionsError>
    ensures { IfOk result (λ cubes.
        option_map cubes_asked (questions_after [] [] None (text_lines text.now)) ≡ Some cubes) }
{
    let mut cubes = Cnf::new(alloc);
    let mut lines = lines_before;
    let mut begun = Begun::new(alloc, lines_before);
    let mut left = text;
    while let Some((line, rest)) = split_line(left) {
        left = rest;
        lines = lines.saturating_add(1);
        if !asks(line) {
            begun.push(line)?;
            continue;
        }
        read_begun(alloc, &begun)?;
        let question = read_question(alloc, line, rest, lines)?;
        cubes.push(&question.literals)?;
        left = question.rest;
        lines = question.lines;
        begun.restart(lines);
    }
    read_begun(alloc, &begun)?;
    Ok(cubes)
}
