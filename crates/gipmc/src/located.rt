//! The lines of texts where their readers tell a flaw without its line.
use crate::errors::Failure;
use gipmc_aiger::AigerError;
use gipmc_task::{PropertyKind, TaskError};
use giputils_text::{number, split_line, split_once};

/// A failure of a task on these texts, of a circuit and of an answer beside it: with its line, where one of them has
/// it.
pub fn located<'a>(failure: Failure<'a>, circuit: &[u8], beside: &[u8]) -> Failure<'a> {
    match failure {
        Failure::Task(name, error) => match task_line(error, circuit, beside) {
            Some(line) => Failure::TaskAt(name, line, error),
            None => failure,
        },
        _ => failure,
    }
}

// The line of an error of a task.
fn task_line(error: TaskError, circuit: &[u8], beside: &[u8]) -> Option<usize> {
    match error {
        TaskError::Circuit(error) => defect_line(circuit, error),
        TaskError::Certificate(error) => defect_line(beside, error),
        TaskError::OtherProperty(PropertyKind::Bad, place, _) => naming_line(beside, b'b', place),
        TaskError::OtherProperty(PropertyKind::Justice, place, _) => {
            naming_line(beside, b'j', place)
        }
        _ => None,
    }
}

// The line that shows a defect of a circuit's rows, in the ASCII form.
fn defect_line(text: &[u8], error: AigerError) -> Option<usize> {
    match error {
        AigerError::Twice(variable) => line_of(text, Sought::Definition(variable, 1)),
        AigerError::Cycle(variable) => line_of(text, Sought::Definition(variable, 0)),
        AigerError::Undefined(variable) => line_of(text, Sought::Use(variable)),
        _ => None,
    }
}

// What a row shows.
#[derive(Clone, Copy)]
enum Sought {
    // The definition of a variable, behind so many others of it.
    Definition(u32, usize),
    // A use of a variable.
    Use(u32),
}

// The line of the row in a circuit's text that shows this.
fn line_of(text: &[u8], sought: Sought) -> Option<usize> {
    let (first, mut rest) = split_line(text)?;
    let counts = Counts::of(first)?;
    let mut sought = sought;
    let mut line: usize = 1;
    while let Some((row, after)) = split_line(rest) {
        line = line.saturating_add(1);
        rest = after;
        let (defined, used) = counts.parts(line, row);
        match sought {
            Sought::Definition(variable, more) if variable_of(defined) == Some(variable) => {
                if more == 0 {
                    return Some(line);
                }
                sought = Sought::Definition(variable, more.saturating_sub(1));
            }
            Sought::Use(variable) if uses(used, variable) => return Some(line),
            _ => {}
        }
    }
    None
}

// The variable of the literal that a word writes.
fn variable_of(word: &[u8]) -> Option<u32> {
    match number(word, u32::MAX) {
        Some(literal) => Some(literal / 2),
        None => None,
    }
}

// Whether one of some words writes a literal of a variable.
fn uses(words: &[u8], variable: u32) -> bool {
    for word in words.split(|byte| *byte == b' ') {
        if variable_of(word) == Some(variable) {
            return true;
        }
    }
    false
}

// Where the rows of a text in the ASCII form stand, counted from the first one.
#[derive(Clone, Copy)]
struct Counts {
    // The inputs end here.
    inputs_end: usize,
    // Here begin the lengths of justice properties, and here they end.
    lengths: usize,
    lengths_end: usize,
}

impl Counts {
    // What a header says, if it is one of the ASCII form.
    fn of(header: &[u8]) -> Option<Self> {
        let numbers = header.strip_prefix(b"aag ")?;
        let mut counts = [0usize; 9];
        let mut place: usize = 0;
        for word in numbers.split(|byte| *byte == b' ') {
            if place < 9 {
                counts[place] = number(word, u32::MAX)? as usize;
                place += 1;
            }
        }
        // Inputs, latches, outputs, bad literals and constraints stand before the lengths.
        let lengths = counts[1]
            .saturating_add(counts[2])
            .saturating_add(counts[3])
            .saturating_add(counts[5])
            .saturating_add(counts[6]);
        Some(Counts {
            inputs_end: counts[1],
            lengths,
            lengths_end: lengths.saturating_add(counts[7]),
        })
    }

    // The literal that the row in a line defines, if it defines one, and those that it uses.
    fn parts<'a>(&self, line: usize, row: &'a [u8]) -> (&'a [u8], &'a [u8]) {
        let none: &'a [u8] = &[];
        let place = line.saturating_sub(2);
        if place < self.inputs_end {
            return (row, none);
        }
        if self.lengths <= place && place < self.lengths_end {
            return (none, none);
        }
        match split_once(row, b' ') {
            (defined, Some(used)) => (defined, used),
            (used, None) => (none, used),
        }
    }
}

// The first line of a witness' text that names a property by this letter and place.
fn naming_line(text: &[u8], letter: u8, place: usize) -> Option<usize> {
    let mut rest = text;
    let mut line: usize = 0;
    while let Some((row, after)) = split_line(rest) {
        line = line.saturating_add(1);
        rest = after;
        if names(row, letter, place) {
            return Some(line);
        }
    }
    None
}

// Whether a line names a property by this letter and place, also behind others.
fn names(row: &[u8], letter: u8, place: usize) -> bool {
    let [b'b' | b'j', ..] = row else {
        return false;
    };
    for word in row.split(|byte| *byte == letter) {
        match number(word, u32::MAX) {
            Some(named) if named as usize == place => return true,
            _ => {}
        }
    }
    false
}
