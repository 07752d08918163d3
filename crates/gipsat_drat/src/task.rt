//! The whole task: from the bytes of a formula and of a proof to those of the outcome.
ghost use Rattle.std.specs.Prelude.{◌≡◌, ◌≢◌, ℕ, IfOk, IfErr, OnOk, IsErrOf, vec_len};
ghost use Rattle.std.specs.Io.KnownBytes.{IsAtEnd};
ghost use Rattle.gipsat_dimacs.specs.Inputs.{HasForm, OfProblem, WritesNone};
ghost use Rattle.gipsat_dimacs.specs.declared.rule.HeaderRule.TheVariants.{Strict};
ghost use Rattle.gipsat_drat.specs.Held.{IsRightOf};
ghost use Rattle.gipsat_drat.specs.Outcomes.{IsRight, WritesOutcome};

use crate::checker::Checker;
use crate::error::{DratError, Failure, Notes, OtherForm, Outcome};
use crate::form::{Form, begins_with_name, form_of};
use crate::lrat::LratChecker;
use crate::lrat_parser::LratParser;
use crate::lrat_writer::{LratFormat, write_log};
use crate::parser::Parser;
use gipsat_cnf::Cnf;
use gipsat_dimacs::{DimacsError, Reason, read_instance};
use std::alloc::{AllocError, Global};
use std::io::{Read, Write};

// How many bytes are asked for at a time.
pub(crate) const BUFFER_SIZE: usize = 65_536;

/// Reads a formula in the DIMACS form, and in the DRAT or LRAT form, as text or binary, a proof that nothing satisfies
/// it; checks that, and writes `s VERIFIED` or `s NOT VERIFIED`.
///
/// Each clause that the proof adds has to be RUP, or RAT on its first literal; an LRAT proof has hints that show it. The
/// proof is read until the empty clause is shown, or to its end. Of a DRAT proof only the first bytes are read, and they
/// may be any, where the formula shows the empty clause by itself.
///
/// # Errors
/// - [`DratError::Formula`] where the formula is not read, as in [`read_instance`].
/// - [`DratError::Proof`] where a read of the proof fails.
/// - [`DratError::Form`] where the first bytes of the proof are those of a form that is not read.
/// - [`DratError::Memory`] where memory is refused.
/// - [`DratError::Output`] where a write fails. What was written by then is open.
///
/// At all but the last nothing was written. How much of the inputs was read is open.
pub fn check_text<F: Read, P: Read, W: Write>(
    alloc: Global,
    formula: &mut F,
    proof: &mut P,
    writer: &mut W,
) -> Result<Outcome, DratError>
    // Success means that all of a formula of the form was read, and that a right outcome and nothing else was written.
    ensures read_to_end { OnOk result (IsAtEnd (F.remaining formula.new)) }
    ensures has_form { OnOk result (HasForm Strict (F.remaining formula.old)) }
    ensures written { IfOk result (λ outcome. OfProblem Strict (F.remaining formula.old)
        (λ problem. WritesOutcome problem outcome (W.contents writer.old) (W.contents writer.new))) }

    // When the formula is refused, and what was written then.
    ensures line { (line : ℕ) (reason : Reason) → IsErrOf result (DratError.Formula (DimacsError.Line line reason)) →
        WritesNone Strict (F.remaining formula.old) }
    ensures unwritten { IfErr result (λ error. error ≢ DratError.Output → writer.new ≡ writer.old) }
{
    let mut notes = Notes::new();
    check_text_noting(alloc, formula, proof, writer, &mut notes)
}

/// Does what [`check_text`] does, and notes what is to be told of a DRAT proof.
///
/// # Errors
/// As [`check_text`].
pub fn check_text_noting<F: Read, P: Read, W: Write>(
    alloc: Global,
    formula: &mut F,
    proof: &mut P,
    writer: &mut W,
    notes: &mut Notes,
) -> Result<Outcome, DratError>
    // Success means that all of a formula of the form was read, and that a right outcome and nothing else was written.
    ensures read_to_end { OnOk result (IsAtEnd (F.remaining formula.new)) }
    ensures has_form { OnOk result (HasForm Strict (F.remaining formula.old)) }
    ensures written { IfOk result (λ outcome. OfProblem Strict (F.remaining formula.old)
        (λ problem. WritesOutcome problem outcome (W.contents writer.old) (W.contents writer.new))) }

    // When the formula is refused, and what was written then.
    ensures line { (line : ℕ) (reason : Reason) → IsErrOf result (DratError.Formula (DimacsError.Line line reason)) →
        WritesNone Strict (F.remaining formula.old) }
    ensures unwritten { IfErr result (λ error. error ≢ DratError.Output → writer.new ≡ writer.old) }
{
    let instance = read_instance(alloc, formula)?;
    let outcome = check(alloc, instance.clauses, proof, notes)?;
    match writer.write_all(outcome.text()) {
        Ok(()) => Ok(outcome),
        Err(_) => Err(DratError::Output),
    }
}

/// Reads a formula in the DIMACS form, and in the DRAT form, as text or binary, a proof that nothing satisfies it; checks
/// that as [`check_text`] does, and writes an LRAT proof: the steps that were needed, in their order, each with the names
/// of the clauses that it follows from in the order in which they become unit. A clause is deleted behind the last step
/// that needs it. Where the proof is refused, nothing is written.
///
/// It takes the memory of all steps: 4 bytes for each literal, 8 for each hint, and 24 for each clause.
///
/// # Errors
/// As [`check_text`], and [`DratError::Form`] where the proof is in the LRAT form. At all but [`DratError::Output`] and
/// [`DratError::Memory`] nothing was written.
pub fn lrat_from_drat<F: Read, P: Read, W: Write>(
    alloc: Global,
    formula: &mut F,
    proof: &mut P,
    format: LratFormat,
    writer: &mut W,
    notes: &mut Notes,
) -> Result<Outcome, DratError>
    // Success means that all of a formula of the form was read, and that the outcome is right.
    ensures read_to_end { OnOk result (IsAtEnd (F.remaining formula.new)) }
    ensures has_form { OnOk result (HasForm Strict (F.remaining formula.old)) }
    ensures right { IfOk result (λ outcome. OfProblem Strict (F.remaining formula.old)
        (λ problem. IsRight problem.clauses outcome)) }

    // Where the proof is refused nothing was written.
    ensures unwritten { IfOk result (λ outcome. outcome ≢ Outcome.Verified → writer.new ≡ writer.old) }

    // When the formula is refused, and at which errors nothing was written.
    ensures line { (line : ℕ) (reason : Reason) → IsErrOf result (DratError.Formula (DimacsError.Line line reason)) →
        WritesNone Strict (F.remaining formula.old) }
    ensures failed { IfErr result (λ error. error ≢ DratError.Output → error ≢ DratError.Memory →
        writer.new ≡ writer.old) }
{
    let instance = read_instance(alloc, formula)?;
    let outcome = convert(alloc, instance.clauses, proof, format, writer, notes)?;
    Ok(outcome)
}

// Checks a proof without hints, and writes one with hints where it is verified.
pub(crate) fn convert<P: Read, W: Write>(
    alloc: Global,
    formula: Cnf,
    proof: &mut P,
    format: LratFormat,
    writer: &mut W,
    notes: &mut Notes,
) -> Result<Outcome, Failure>
    ensures right { IfOk result (IsRight formula) }
    ensures unwritten { IfOk result (λ outcome. outcome ≢ Outcome.Verified → writer.new ≡ writer.old) }
    ensures failed { IfErr result (λ why. why ≢ Failure.Output → why ≢ Failure.Memory → writer.new ≡ writer.old) }
{
    let clauses = formula.len();
    let mut checker = Checker::over_numbered(alloc, formula, true)?;
    convert_steps(alloc, &mut checker, clauses, proof, format, writer, notes)
}

// Checks a proof without hints about so many clauses, and writes one with hints where it is verified.
fn convert_steps<P: Read, W: Write>(
    alloc: Global,
    checker: &mut Checker,
    clauses: usize,
    proof: &mut P,
    format: LratFormat,
    writer: &mut W,
    notes: &mut Notes,
) -> Result<Outcome, Failure>
    ensures right { IfOk result (IsRightOf checker.old) }
    ensures unwritten { IfOk result (λ outcome. outcome ≢ Outcome.Verified → writer.new ≡ writer.old) }
    ensures failed { IfErr result (λ why. why ≢ Failure.Output → why ≢ Failure.Memory → writer.new ≡ writer.old) }
{
    let outcome = check_unhinted(alloc, checker, clauses, proof, notes)?;
    match outcome {
        Outcome::Verified => {
            write_log(alloc, checker.log(), checker.numbering(), format, writer)?;
            Ok(outcome)
        }
        Outcome::Refused(_) => Ok(outcome),
    }
}

// Checks a proof about so many clauses that has no hints.
fn check_unhinted<P: Read>(
    alloc: Global,
    checker: &mut Checker,
    clauses: usize,
    proof: &mut P,
    notes: &mut Notes,
) -> Result<Outcome, Failure>
    ensures { IfOk result (IsRightOf checker.old) }
{
    let start = read_start(alloc, proof)?;
    let form = match form_of(&start, clauses) {
        Ok(Form::LratText | Form::LratBinary) => Err(OtherForm::Lrat),
        form => form,
    };
    check_steps(alloc, checker, clauses, form, &start, proof, notes)
}

// Checks a proof that nothing satisfies a formula, whatever form it has.
fn check<P: Read>(
    alloc: Global,
    formula: Cnf,
    proof: &mut P,
    notes: &mut Notes,
) -> Result<Outcome, Failure>
    ensures { IfOk result (IsRight formula) }
{
    let start = read_start(alloc, proof)?;
    match form_of(&start, formula.len()) {
        Ok(Form::LratText) => {
            let parser = LratParser::of_text(alloc);
            check_hinted(alloc, formula, parser, &start, proof)
        }
        Ok(Form::LratBinary) => {
            let parser = LratParser::of_bytes(alloc);
            check_hinted(alloc, formula, parser, &start, proof)
        }
        form => check_plain(alloc, formula, form, &start, proof, notes),
    }
}

// Checks a proof with hints, which has begun with some bytes.
fn check_hinted<P: Read>(
    alloc: Global,
    formula: Cnf,
    mut parser: LratParser,
    start: &[u8],
    proof: &mut P,
) -> Result<Outcome, Failure>
    ensures { IfOk result (IsRight formula) }
{
    let mut checker = LratChecker::over(alloc, formula)?;
    check_hinted_steps(alloc, &mut checker, &mut parser, start, proof)
}

// Checks a proof with hints, which has begun with some bytes.
fn check_hinted_steps<P: Read>(
    alloc: Global,
    checker: &mut LratChecker,
    parser: &mut LratParser,
    start: &[u8],
    proof: &mut P,
) -> Result<Outcome, Failure>
    ensures { IfOk result (IsRightOf checker.old) }
{
    if let Err(stop) = parser.feed(checker, start) {
        return stop.at(parser.place());
    }
    check_hinted_rest(alloc, checker, parser, proof)
}

// Checks a proof without hints, which has begun with some bytes. Where the formula is refuted by itself, they may be any.
fn check_plain<P: Read>(
    alloc: Global,
    formula: Cnf,
    form: Result<Form, OtherForm>,
    start: &[u8],
    proof: &mut P,
    notes: &mut Notes,
) -> Result<Outcome, Failure>
    ensures { IfOk result (IsRight formula) }
{
    let clauses = formula.len();
    let mut checker = Checker::over_numbered(alloc, formula, false)?;
    check_steps(alloc, &mut checker, clauses, form, start, proof, notes)
}

// Checks a proof without hints about so many clauses, which has begun with some bytes.
fn check_steps<P: Read>(
    alloc: Global,
    checker: &mut Checker,
    clauses: usize,
    form: Result<Form, OtherForm>,
    start: &[u8],
    proof: &mut P,
    notes: &mut Notes,
) -> Result<Outcome, Failure>
    ensures { IfOk result (IsRightOf checker.old) }
{
    if checker.is_refuted() {
        return Ok(Outcome::Verified);
    }
    let mut parser = match form? {
        Form::Binary | Form::LratBinary => Parser::of_bytes(alloc),
        Form::Text | Form::LratText => Parser::of_text(alloc),
    };
    let outcome = check_parsed(alloc, checker, &mut parser, start, proof);
    *notes = Notes {
        may_be_lrat: begins_with_name(start, clauses),
        ..parser.notes()
    };
    outcome
}

// Checks a proof without hints, which has begun with some bytes.
fn check_parsed<P: Read>(
    alloc: Global,
    checker: &mut Checker,
    parser: &mut Parser,
    start: &[u8],
    proof: &mut P,
) -> Result<Outcome, Failure>
    ensures { IfOk result (IsRightOf checker.old) }
{
    if let Err(stop) = parser.feed(checker, start) {
        return stop.at(parser.place());
    }
    check_rest(alloc, checker, parser, proof)
}

// The first bytes of a proof: so many at least, or all of one that is shorter.
pub(crate) fn read_start<P: Read>(alloc: Global, proof: &mut P) -> Result<Vec<u8>, Failure> {
    let mut start = Vec::new(alloc);
    let mut buf = zeros(alloc, BUFFER_SIZE)?;
    for _ in 0..BUFFER_SIZE {
        let Ok(n) = proof.read(&mut buf) else {
            return Err(Failure::Proof);
        };
        start.extend_from_slice(&buf[..n])?;
        if n == 0 || start.len() >= BUFFER_SIZE {
            break;
        }
    }
    Ok(start)
}

// Reads the rest of a proof without hints, as far as the empty clause, and checks it.
fn check_rest<P: Read>(
    alloc: Global,
    checker: &mut Checker,
    parser: &mut Parser,
    proof: &mut P,
) -> Result<Outcome, Failure>
    ensures { IfOk result (IsRightOf checker.old) }
{
    let mut buf = zeros(alloc, BUFFER_SIZE)?;
    for _ in 0..u64::MAX {
        if checker.is_refuted() {
            return Ok(Outcome::Verified);
        }
        let Ok(n) = proof.read(&mut buf) else {
            return Err(Failure::Proof);
        };
        if n == 0 {
            return parser.finish(checker);
        }
        if let Err(stop) = parser.feed(checker, &buf[..n]) {
            return stop.at(parser.place());
        }
    }
    Err(Failure::Proof)
}

// Reads the rest of a proof with hints, as far as the empty clause, and checks it.
fn check_hinted_rest<P: Read>(
    alloc: Global,
    checker: &mut LratChecker,
    parser: &mut LratParser,
    proof: &mut P,
) -> Result<Outcome, Failure>
    ensures { IfOk result (IsRightOf checker.old) }
{
    let mut buf = zeros(alloc, BUFFER_SIZE)?;
    for _ in 0..u64::MAX {
        if checker.is_refuted() {
            return Ok(Outcome::Verified);
        }
        let Ok(n) = proof.read(&mut buf) else {
            return Err(Failure::Proof);
        };
        if n == 0 {
            return parser.finish(checker);
        }
        if let Err(stop) = parser.feed(checker, &buf[..n]) {
            return stop.at(parser.place());
        }
    }
    Err(Failure::Proof)
}

// So many zeros.
pub(crate) fn zeros(alloc: Global, len: usize) -> Result<Vec<u8>, AllocError>
    ensures { IfOk result (λ zeros. vec_len zeros ≡ len) }
{
    vec![in alloc; 0u8; len]
}
