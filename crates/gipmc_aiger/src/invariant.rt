//! Invariants as clauses in the DIMACS form: `p cnf LATCHES CLAUSES`, and a line for each clause, with a 0 at its end.
//! Number n is the latch at place n - 1 of the circuit.
ghost use Rattle.std.specs.Prelude.{◌≡◌, ◌<◌, ◌++◌, ◌∷◌, [], None, Some, decimal, get_or, length, map, IfErr, IfOk, IfSome, IsErrOf, MatchOption, OnOk};
ghost use Rattle.std.specs.Option.{option_and_then, option_map_or};
ghost use Rattle.gipsat_cnf.specs.Dimacs.{header_of, item_of, number_of, signed_item};
ghost use Rattle.giputils_text.specs.Lines.{pieces, space};
ghost use Rattle.gipmc_aiger.specs.Invariants.{clause_count_at, clause_count_in, clause_in, clause_lines, clauses_in, clauses_view};
ghost use Rattle.gipmc_aiger.specs.Invariants.{invariant_for, invariant_in, invariant_of, invariant_text, is_comment, item_view};
ghost use Rattle.gipmc_aiger.specs.Invariants.{over_variables, uncommented_lines};
ghost use Rattle.gipmc_aiger.specs.Reading.{Gives, IsReadError};

use crate::error::{AigerError, Place, Reason, Stop};
use crate::numbers::SPACE;
use crate::place::error_at;
use gipmc_circuits::{Circuit, Latch};
use gipsat_cnf::Literal;
use gipsat_cnf::dimacs::write_clause;
use giputils_text::{number, split_line, split_once};
use std::alloc::{AllocError, Global};
use std::io::Write;

/// Reads the clauses of an invariant of a circuit with so many latches. A literal's variable is the place of its latch.
///
/// # Errors
/// - [`AigerError::Refused`] with the line and the reason where the text has another form.
/// - [`AigerError::Memory`] where memory is refused.
pub fn read_invariant(
    alloc: Global,
    latches: usize,
    text: &[u8],
) -> Result<Vec<Vec<Literal>>, AigerError>
    ensures ok { IfOk result (λ clauses. invariant_of latches text.now ≡ Some (clauses_view clauses.items)) }
    ensures refused { (place : Place) (reason : Reason) → IsErrOf result (AigerError.Refused place reason) →
        invariant_of latches text.now ≡ None }
    ensures errors { IfErr result IsReadError }
{
    match invariant(alloc, latches, text) {
        Ok(clauses) => Ok(clauses),
        Err(stop) => Err(error_at(text, stop)),
    }
}

/// Reads the clauses of an invariant of a circuit. They are over the circuit's variables.
///
/// # Errors
/// - [`AigerError::Refused`] with the line and the reason where the text has another form.
/// - [`AigerError::Memory`] where memory is refused, or the variable of a latch is 2^31 or more.
pub fn read_invariant_for(
    alloc: Global,
    circuit: &Circuit,
    text: &[u8],
) -> Result<Vec<Vec<Literal>>, AigerError>
    ensures ok { IfOk result (λ clauses. invariant_for circuit.now text.now ≡ Some (clauses_view clauses.items)) }
    ensures refused { (place : Place) (reason : Reason) → IsErrOf result (AigerError.Refused place reason) →
        invariant_for circuit.now text.now ≡ None }
    ensures errors { IfErr result IsReadError }
{
    let clauses = read_invariant(alloc, circuit.latches.len(), text)?;
    match over_variables(alloc, &circuit.latches, &clauses) {
        Ok(clauses) => Ok(clauses),
        Err(_) => Err(AigerError::Memory),
    }
}

// Clauses over places of latches, over their variables.
fn over_variables(
    alloc: Global,
    latches: &[Latch],
    clauses: &[Vec<Literal>],
) -> Result<Vec<Vec<Literal>>, AllocError>
    ensures { IfOk result (λ moved. clauses_view moved.items
        ≡ map (map (over_variables (map (λ l. l.variable) latches.now))) (clauses_view clauses.now)) }
{
    let mut moved = Vec::new(alloc);
    for clause in clauses {
        let clause = clause_over_variables(alloc, latches, clause)?;
        moved.push(clause)?;
    }
    Ok(moved)
}

// A clause over places of latches, over their variables.
fn clause_over_variables(
    alloc: Global,
    latches: &[Latch],
    clause: &[Literal],
) -> Result<Vec<Literal>, AllocError>
    ensures { IfOk result (λ moved. moved.items
        ≡ map (over_variables (map (λ l. l.variable) latches.now)) clause.now) }
{
    let mut moved = Vec::new(alloc);
    for l in clause {
        moved.push(literal_over_variables(latches, *l)?)?;
    }
    Ok(moved)
}

// A literal over places of latches, over their variables.
fn literal_over_variables(latches: &[Latch], l: Literal) -> Result<Literal, AllocError>
    ensures { IfOk result (λ moved. moved ≡ over_variables (map (λ l. l.variable) latches.now) l) }
{
    let variable = variable_at(latches, l.variable() as usize);
    if variable >= 2_147_483_648 {
        return Err(AllocError);
    }
    Ok(Literal::new(variable, l.is_positive()))
}

// The variable of the latch at a place. Past the latches it is 0.
fn variable_at(latches: &[Latch], place: usize) -> u32
    ensures { result ≡ get_or (map (λ l. l.variable) latches.now) place 0 }
{
    match latches.get(place) {
        Some(latch) => latch.variable,
        None => 0,
    }
}

// The clauses of an invariant.
#[tactic(auto, unfolding(crate::specs::Invariants::invariant_in))]
fn invariant(alloc: Global, latches: usize, text: &[u8]) -> Result<Vec<Vec<Literal>>, Stop>
    ensures { Gives (λ v. clauses_view v.items) result (invariant_in latches (uncommented_lines text.now)) }
{
    let (count, rest) = clause_count(latches, text)?;
    let clauses = clauses(alloc, latches, rest)?;
    if clauses.len() != count as usize {
        return Err(Stop::Refused(Reason::Clauses, 0));
    }
    Ok(clauses)
}

// The number of clauses that the header names, and the text behind it.
fn clause_count(latches: usize, text: &[u8]) -> Result<(u32, &[u8]), Stop>
    ensures { Gives (λ x. (x.0, uncommented_lines x.1.now)) result
        (clause_count_at latches (uncommented_lines text.now)) }
{
    let Some((left, line, rest)) = uncommented_line(text) else {
        return Err(Stop::Refused(Reason::Clauses, 0));
    };
    match clause_count_in(latches, line) {
        Some(count) => Ok((count, rest)),
        None => Err(Stop::Refused(Reason::Clauses, left)),
    }
}

// The number of clauses that a header of so many latches names.
fn clause_count_in(latches: usize, line: &[u8]) -> Option<u32>
    ensures { result ≡ clause_count_in latches line.now }
{
    let (named, count) = header(line)?;
    if named as usize != latches {
        return None;
    }
    Some(count)
}

// The numbers of a header: `p cnf LATCHES CLAUSES`.
fn header(line: &[u8]) -> Option<(u32, u32)>
    ensures { result ≡ header_of (pieces space line.now) }
{
    let (p, rest) = split_once(line, SPACE);
    let (cnf, rest) = split_once(rest?, SPACE);
    let (latches, rest) = split_once(rest?, SPACE);
    let (clauses, rest) = split_once(rest?, SPACE);
    match rest {
        None => header_with(p, cnf, latches, clauses),
        Some(_) => None,
    }
}

// The numbers of a header with these words.
fn header_with(p: &[u8], cnf: &[u8], latches: &[u8], clauses: &[u8]) -> Option<(u32, u32)>
    ensures { result ≡ header_of (p.now ∷ cnf.now ∷ latches.now ∷ clauses.now ∷ []) }
{
    if p != b"p".as_slice() {
        return None;
    }
    if cnf != b"cnf".as_slice() {
        return None;
    }
    let latches = number(latches, GREATEST_NUMBER)?;
    let clauses = number(clauses, GREATEST_NUMBER)?;
    Some((latches, clauses))
}

// The clauses that the lines of a text write.
fn clauses(alloc: Global, latches: usize, text: &[u8]) -> Result<Vec<Vec<Literal>>, Stop>
    ensures { Gives (λ v. clauses_view v.items) result (clauses_in latches (uncommented_lines text.now)) }
{
    let mut clauses = Vec::new(alloc);
    let mut rest = text;
    while let Some((left, line, after)) = uncommented_line(rest) {
        let clause = clause(alloc, latches, line, left)?;
        clauses.push(clause)?;
        rest = after;
    }
    Ok(clauses)
}

// The first line of a text that is no comment: how many bytes are left from it on, the line, and what comes after it.
fn uncommented_line(text: &[u8]) -> Option<(usize, &[u8], &[u8])>
    ensures lines { MatchOption result (uncommented_lines text.now ≡ [])
        (λ split. uncommented_lines text.now ≡ split.1.now ∷ uncommented_lines split.2.now) }
    ensures shorter { IfSome result (λ split. length split.2.now < length text.now) }
{
    let mut rest = text;
    while let Some((line, after)) = split_line(rest) {
        if !is_comment(line) {
            return Some((rest.len(), line, after));
        }
        rest = after;
    }
    None
}

// Whether a line is a comment.
fn is_comment(line: &[u8]) -> bool
    ensures { result ≡ is_comment line.now }
{
    match line {
        [first, ..] => *first == b'c',
        [] => false,
    }
}

// The clause that a line writes.
fn clause(alloc: Global, latches: usize, line: &[u8], left: usize) -> Result<Vec<Literal>, Stop>
    ensures { Gives (λ v. v.items) result (clause_in latches (pieces space line.now)) }
{
    let mut clause = Vec::new(alloc);
    let mut rest = Some(line);
    while let Some(words) = rest {
        let (word, after) = split_once(words, SPACE);
        let Some(l) = item(latches, word, left)? else {
            return match after {
                None => Ok(clause),
                Some(_) => Err(Stop::Refused(Reason::Separator, left)),
            };
        };
        clause.push(l)?;
        rest = after;
    }
    Err(Stop::Refused(Reason::Separator, left))
}

// The literal that a word writes. None for the 0 that ends a clause.
fn item(latches: usize, word: &[u8], left: usize) -> Result<Option<Literal>, Stop>
    ensures { Gives item_view result (item_of latches word.now) }
{
    match word {
        [b'-', digits @ ..] => signed_item(latches, false, digits, left),
        _ => signed_item(latches, true, word, left),
    }
}

// What a number with a sign says.
fn signed_item(
    latches: usize,
    positive: bool,
    digits: &[u8],
    left: usize,
) -> Result<Option<Literal>, Stop>
    ensures { Gives item_view result (option_and_then (signed_item latches positive) (number_of digits.now)) }
{
    let Some(n) = number(digits, GREATEST_NUMBER) else {
        return Err(Stop::Refused(not_a_number(digits), left));
    };
    if n == 0 {
        return Ok(None);
    }
    if n as usize > latches {
        return Err(Stop::Refused(Reason::Great, left));
    }
    Ok(Some(Literal::new(n - 1, positive)))
}

// Why a word writes no number that a text may name.
fn not_a_number(word: &[u8]) -> Reason {
    if word.is_empty() || word.iter().any(|byte| !byte.is_ascii_digit()) {
        return Reason::Number;
    }
    Reason::Great
}

// The greatest number of a latch or of clauses.
const GREATEST_NUMBER: u32 = 2_147_483_647;

/// Writes the clauses of an invariant of a circuit with so many latches.
///
/// # Errors
/// `AllocError` where memory is refused.
pub fn write_invariant(
    alloc: Global,
    latches: usize,
    clauses: &[Vec<Literal>],
) -> Result<Vec<u8>, AllocError>
    ensures { IfOk result (λ text. text.items ≡ invariant_text latches clauses.now) }
{
    let mut text = Vec::new(alloc);
    text.extend_from_slice(b"p cnf ")?;
    write_number(&mut text, latches as u64)?;
    text.push(b' ')?;
    write_number(&mut text, clauses.len() as u64)?;
    text.push(b'\n')?;
    write_clauses(&mut text, clauses)?;
    Ok(text)
}

// Writes a number.
fn write_number(text: &mut Vec<u8>, number: u64) -> Result<(), AllocError>
    ensures { OnOk result (text.new.items ≡ text.old.items ++ decimal number) }
{
    write!(text, "{number}").map_err(|_| AllocError)
}

// Writes a line for each clause.
fn write_clauses(text: &mut Vec<u8>, clauses: &[Vec<Literal>]) -> Result<(), AllocError>
    ensures { OnOk result (text.new.items ≡ text.old.items ++ clause_lines clauses.now) }
{
    for clause in clauses {
        write_clause(text, clause)?;
    }
    Ok(())
}
