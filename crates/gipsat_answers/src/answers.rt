//! Answers, and their texts.
ghost use Rattle.std.specs.Prelude.{◌≡◌, ◌≢◌, ◌++◌, ◌∷◌, [], List, codes, decimal, IfErr, IfOk, OnOk};
ghost use Rattle.std.specs.Io.KnownBytes.{Appends};
ghost use Rattle.gipsat_cnf.specs.Prelude.{Assignment, assignment_in};
ghost use Rattle.gipsat_dimacs.specs.Texts.{Word};
ghost use Rattle.gipsat_dimacs.specs.Writer.{literal_word};
ghost use Rattle.gipsat_answers.specs.Answers.{laid_out, values_text, verdict_status, witness_text, TellsRight};
ghost use Rattle.gipsat_answers.specs.Names.{first_names, numbers_below, AreNamedValues};

use crate::names::name_in;
use gipsat_dimacs::DimacsError;
use gipsat_solver::{Answer, Solver};
use std::alloc::{AllocError, Global};
use std::io::Write;

/// What was found out about a formula.
#[derive(Clone, Copy, Debug, PartialEq, Eq, Hash)]
pub enum Verdict {
    /// Something satisfies it.
    Satisfiable,
    /// Nothing satisfies it.
    Unsatisfiable,
    /// As many clauses were learned as were allowed.
    Unknown,
    /// The search was stopped by what is told how far it is.
    Stopped,
}

impl Verdict {
    /// The exit status of a program that answers so: 10, 20 or 0.
    pub fn status(self) -> u8
        ensures { result ≡ verdict_status self }
    {
        match self {
            Verdict::Satisfiable => 10,
            Verdict::Unsatisfiable => 20,
            Verdict::Unknown | Verdict::Stopped => 0,
        }
    }
}

/// What was found out about a formula, and by what.
#[derive(Drop)]
pub struct Solved {
    /// What was found out.
    pub verdict: Verdict,
    /// The solver that was given the formula, with all that it has learned.
    pub solver: Solver,
    /// Which variable of the formula each of the solver's is. One past the end has the same number in both.
    pub names: Vec<u32>,
}

// The most bytes of a line.
const WIDTH: usize = 78;

// What an answer finds out, and its text, where there are so many variables, with their values if they are wanted.
pub(crate) fn answer_text(
    alloc: Global,
    witness: bool,
    variables: u32,
    answer: &Answer,
) -> Result<(Verdict, Vec<u8>), AllocError>
    ensures right { IfOk result (λ made. TellsRight witness variables answer.now made.0 made.1.items) }
    ensures found { IfOk result (λ made. made.0 ≢ Verdict.Stopped) }
{
    let (verdict, text) = match answer {
        Answer::Sat(model) => (
            Verdict::Satisfiable,
            model_text(alloc, witness, variables, model)?,
        ),
        Answer::Unsat => (Verdict::Unsatisfiable, bytes(alloc, b"s UNSATISFIABLE\n")?),
        Answer::Unknown => (Verdict::Unknown, bytes(alloc, b"s UNKNOWN\n")?),
    };
    Ok((verdict, text))
}

// These bytes.
pub(crate) fn bytes(alloc: Global, text: &[u8]) -> Result<Vec<u8>, AllocError>
    ensures { IfOk result (λ made. made.items ≡ text.now) }
{
    let mut made = Vec::new(alloc);
    made.extend_from_slice(text)?;
    Ok(made)
}

// The text of an answer by a model of so many variables, with their values if they are wanted.
pub(crate) fn model_text(
    alloc: Global,
    witness: bool,
    variables: u32,
    model: &[bool],
) -> Result<Vec<u8>, AllocError>
    ensures { IfOk result (λ text. text.items ≡
        codes "s SATISFIABLE\n" ++ witness_text witness (assignment_in model.now) (numbers_below variables)) }
{
    named_text(alloc, witness, &[], variables, model)
}

// The text of an answer by a model, with the values of so many variables under their names if they are wanted.
pub(crate) fn named_text(
    alloc: Global,
    witness: bool,
    names: &[u32],
    variables: u32,
    model: &[bool],
) -> Result<Vec<u8>, AllocError>
    ensures { IfOk result (λ text. (a : Assignment) → AreNamedValues names.now variables model.now a → text.items ≡
        codes "s SATISFIABLE\n" ++ witness_text witness a (first_names names.now variables)) }
{
    if witness {
        return satisfiable_text(alloc, names, variables, model);
    }
    bytes(alloc, b"s SATISFIABLE\n")
}

// The text of an answer with values: those of so many variables in a model, past whose end they are false, under their
// names.
fn satisfiable_text(
    alloc: Global,
    names: &[u32],
    variables: u32,
    model: &[bool],
) -> Result<Vec<u8>, AllocError>
    ensures { IfOk result (λ text. (a : Assignment) → AreNamedValues names.now variables model.now a → text.items ≡
        codes "s SATISFIABLE\n" ++ values_text a (first_names names.now variables)) }
{
    let mut text = bytes(alloc, b"s SATISFIABLE\nv")?;
    let mut word = Vec::new(alloc);
    let mut column = 1;
    for variable in 0..variables {
        word.clear();
        let name = name_in(names, variable);
        write_value(&mut word, name, value_in(model, variable as usize))?;
        column = write_word(&mut text, column, &word)?;
    }
    write_word(&mut text, column, b"0")?;
    text.push(b'\n')?;
    Ok(text)
}

// The value of a variable in a model.
pub(crate) fn value_in(model: &[bool], variable: usize) -> bool
    ensures { result ≡ assignment_in model.now variable }
{
    match model.get(variable) {
        Some(value) => *value,
        None => false,
    }
}

// Writes the literal of a variable that has this value.
fn write_value(word: &mut Vec<u8>, variable: u32, value: bool) -> Result<(), AllocError>
    requires empty { word.old.items ≡ [] }
    ensures { OnOk result (word.new.items ≡ literal_word value variable) }
{
    let number = u64::from(variable) + 1;
    if value {
        return write_number(word, number);
    }
    word.push(b'-')?;
    write_number(word, number)
}

// Writes a number.
fn write_number(word: &mut Vec<u8>, number: u64) -> Result<(), AllocError>
    ensures { OnOk result (word.new.items ≡ word.old.items ++ decimal number) }
{
    write!(word, "{number}").map_err(|_| AllocError)
}

// Writes a word into the line of which so many bytes stand, or into the next one. Answers how many stand then.
fn write_word(text: &mut Vec<u8>, column: usize, word: &[u8]) -> Result<usize, AllocError>
    ensures { IfOk result (λ after. (words : List Word) →
        text.old.items ++ laid_out column (word.now ∷ words) ≡ text.new.items ++ laid_out after words) }
{
    if column as u128 + 1 + word.len() as u128 <= WIDTH as u128 {
        text.push(b' ')?;
        text.extend_from_slice(word)?;
        return Ok(column + 1 + word.len());
    }
    text.extend_from_slice(b"\nv ")?;
    text.extend_from_slice(word)?;
    Ok(2 + word.len())
}

// Writes a text.
pub(crate) fn write<W: Write>(writer: &mut W, text: &[u8]) -> Result<(), DimacsError>
    ensures written { OnOk result (Appends (W.contents writer.old) (W.contents writer.new) text.now) }
    ensures output { IfErr result (λ error. error ≡ DimacsError.Output) }
{
    match writer.write_all(text) {
        Ok(()) => Ok(()),
        Err(_) => Err(DimacsError::Output),
    }
}
