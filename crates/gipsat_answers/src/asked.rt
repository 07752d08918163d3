//! Questions as they are read, over the ends of lines.
ghost use Rattle.std.specs.Prelude.{◌≡◌, ◌∷◌, ◌++◌, ◌<◌, ◌≤◌, [], List, length, true, IfOk, IfSome, IsTrue, Some};
ghost use Rattle.std.specs.Bool.{OnTrue};
ghost use Rattle.giputils_text.specs.Lines.{text_lines};
ghost use Rattle.gipsat_cnf.specs.Literals.{Lit};
ghost use Rattle.gipsat_answers.specs.Questions.{AsksSoFar, asks, between_zeros, part_in, part_of};

use crate::error::{QuestionFlaw, QuestionsError};
use gipsat_cnf::{Cnf, Literal};
use gipsat_dimacs::{DimacsError, HeaderRule, Reason, read_instance_by};
use giputils_text::split_line;
use std::alloc::{AllocError, Global};

// A question that was read to its end.
#[derive(Drop)]
pub struct ReadQuestion<'a> {
    // Its literals.
    pub literals: Vec<Literal>,
    // What stands behind its last line.
    pub rest: &'a [u8],
    // How many lines stand before that.
    pub lines: usize,
}

// Whether a question begins in a line.
pub fn asks(line: &[u8]) -> bool
    ensures asks { result ≡ asks line.now }
    ensures some { OnTrue result (0 < length line.now) }
{
    match line {
        [first, ..] => *first == b'a',
        [] => false,
    }
}

// Reads the question that begins in this line, which has this number. These bytes stand behind the line.
pub fn read_question<'a>(
    alloc: Global,
    line: &[u8],
    behind: &'a [u8],
    number: usize,
) -> Result<ReadQuestion<'a>, QuestionsError>
    requires asks { IsTrue (asks line.now) }
    requires some { 0 < length line.now }
    ensures question { IfOk result (λ read.
        AsksSoFar (line.now ∷ text_lines behind.now) read.literals.items true (text_lines read.rest.now)) }
    ensures shorter { IfOk result (λ read. length read.rest.now ≤ length behind.now) }
{
    let mut literals = Vec::new(alloc);
    let mut has_end = add_part(alloc, &mut literals, &line[1..], number)?;
    let mut rest = behind;
    let mut lines = number;
    while !has_end {
        let Some((line, left)) = split_line(rest) else {
            return Err(QuestionsError::Question(number, QuestionFlaw::NoEnd));
        };
        if asks(line) {
            return Err(QuestionsError::Question(number, QuestionFlaw::NoEnd));
        }
        rest = left;
        lines = lines.saturating_add(1);
        has_end = add_part(alloc, &mut literals, line, lines)?;
    }
    Ok(ReadQuestion {
        literals,
        rest,
        lines,
    })
}

// Adds the literals that a question has in a line of this number. Whether its 0 stands there.
fn add_part(
    alloc: Global,
    literals: &mut Vec<Literal>,
    line: &[u8],
    number: usize,
) -> Result<bool, QuestionsError>
    ensures { IfOk result (λ has_end. (added : List Lit) × (part_in line.now ≡ Some (added, has_end))
        × (literals.new.items ≡ literals.old.items ++ added)) }
{
    let text = between_zeros(alloc, line)?;
    let mut reader = text.as_slice();
    let read = match read_instance_by(alloc, &mut reader, HeaderRule::Relaxed) {
        Ok(read) => read,
        Err(error) => return Err(at_line(number, error)),
    };
    let Some((added, has_end)) = part_of(&read.clauses) else {
        return Err(misplaced(number, &read.clauses));
    };
    literals.extend_from_slice(added)?;
    Ok(has_end)
}

// A line between two zeros.
fn between_zeros(alloc: Global, line: &[u8]) -> Result<Vec<u8>, AllocError>
    ensures { IfOk result (λ bytes. bytes.items ≡ between_zeros line.now) }
{
    let mut bytes = Vec::new(alloc);
    bytes.extend_from_slice(b"0\n")?;
    bytes.extend_from_slice(line)?;
    bytes.extend_from_slice(b"\n0")?;
    Ok(bytes)
}

// The literals that a question has in a line between two zeros, of which these are the clauses, and whether its 0 stands
// there.
fn part_of(clauses: &Cnf) -> Option<(&[Literal], bool)>
    ensures { IfSome result (λ part. part_of clauses.now ≡ Some (part.0.now, part.1)) }
{
    match clauses.len() {
        2 => Some((clauses.clause(1), false)),
        3 if clauses.clause(2).is_empty() => Some((clauses.clause(1), true)),
        _ => None,
    }
}

// Why the line of this number has no part of a question: it ends the text before the second zero, as a `%` does, or has
// words behind the 0.
fn misplaced(number: usize, clauses: &Cnf) -> QuestionsError {
    if clauses.len() < 2 {
        return QuestionsError::Dimacs(DimacsError::Line(number, Reason::Word));
    }
    QuestionsError::Question(number, QuestionFlaw::NoLineEnd)
}

// An error in a text that is made of the line of this number.
fn at_line(number: usize, error: DimacsError) -> QuestionsError {
    match error {
        DimacsError::Line(_, reason) => QuestionsError::Dimacs(DimacsError::Line(number, reason)),
        other => QuestionsError::Dimacs(other),
    }
}
