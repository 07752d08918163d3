//! Checks of proofs.
ghost use Rattle.std.specs.Prelude.{◌≡◌, ◌≢◌, ℕ, IfOk, IfErr, OnOk, IsErrOf};
ghost use Rattle.std.specs.Io.KnownBytes.{IsAtEnd};
ghost use Rattle.std.specs.Process.{exit_status};
ghost use Rattle.gip_cli.specs.Statuses.{IsEndedStatus};
ghost use Rattle.gipsat_command.specs.Files.{output_contents, source_remaining};
ghost use Rattle.gipsat_command.specs.Statuses.{TellsVerified, checking_status};
ghost use Rattle.gipsat_drat.specs.Outcomes.{WritesOutcome};
ghost use Rattle.gipsat_dimacs.specs.Inputs.{HasForm, OfProblem, WritesNone};
ghost use Rattle.gipsat_dimacs.specs.declared.rule.HeaderRule.TheVariants.{Strict};

use crate::convert::convert;
use crate::errors::Failure;
use crate::files::{Output, Source};
use crate::options::Options;
use gip_cli::{Printable, refuse};
use gipsat_dimacs::{DimacsError, Reason};
use gipsat_drat::error::{DratError, Notes, Outcome};
use gipsat_drat::task::check_text_noting;
use std::io::{Read, Write};
use std::process::ExitCode;

/// The status of a check of the proof in a file beside the formula in another, whose outcome goes to standard output.
/// None is standard input. Standard error tells why the proof is refused, or was not checked.
pub fn check_files(rt: &HostRuntime, formula: Option<&str>, proof: Option<&str>) -> ExitCode {
    let formula = match Source::open(rt, formula) {
        Ok(formula) => formula,
        Err(error) => return refuse(rt, &error),
    };
    let proof = match Source::open(rt, proof) {
        Ok(proof) => proof,
        Err(error) => return refuse(rt, &error),
    };
    formula.announce(rt);
    proof.announce(rt);
    check_in(rt, formula, proof, &mut Output::new(rt.stdout()))
}

/// The status of a check of the proof in a file beside the formula that the options name, whose outcome goes to
/// standard output. Where the proof is verified, the file `out` appears, and has a proof with hints. None is standard
/// input. Standard error tells why the proof is refused, or was not checked.
pub fn convert_proof(
    rt: &HostRuntime,
    options: &Options,
    proof: Option<&str>,
    out: &str,
) -> ExitCode {
    let proof = match Source::open(rt, proof) {
        Ok(proof) => proof,
        Err(error) => return refuse(rt, &error),
    };
    proof.announce(rt);
    let formula = match Source::open(rt, options.file) {
        Ok(formula) => formula,
        Err(error) => return refuse(rt, &error),
    };
    convert_in(
        rt,
        options,
        formula,
        proof,
        out,
        &mut Output::new(rt.stdout()),
    )
}

/// The status of a check of a proof beside a formula, whose outcome is written. It is 0 only where `s VERIFIED` was
/// written, and nothing satisfies the formula.
pub fn check_in<'a, F: Read + Drop, P: Read + Drop, W: Write>(
    rt: &HostRuntime,
    mut formula: Source<'a, F>,
    mut proof: Source<'a, P>,
    output: &mut Output<W>,
) -> ExitCode
    ensures verified { exit_status result ≡ 0 → TellsVerified (source_remaining F.remaining formula.entry)
        (output_contents W.contents output.old) (output_contents W.contents output.new) }
    ensures ends { IsEndedStatus (exit_status result) }
{
    let mut notes = Notes::new();
    match check(rt, &mut formula, &mut proof, output, &mut notes) {
        Ok(outcome) => {
            warn(rt, proof.name(), notes);
            end_check(rt, proof.name(), outcome)
        }
        Err(error) => refuse(rt, &formula.check_failure(&proof, output, error)),
    }
}

/// The status of a check of a proof without hints beside a formula, whose outcome is written. It is 0 only where
/// `s VERIFIED` was written, and nothing satisfies the formula. Where the proof is verified, the file `out` appears, and
/// has a proof with hints.
pub fn convert_in<'a, F: Read + Drop, P: Read + Drop, W: Write>(
    rt: &HostRuntime,
    options: &Options<'a>,
    mut formula: Source<'a, F>,
    mut proof: Source<'a, P>,
    out: &'a str,
    output: &mut Output<W>,
) -> ExitCode
    ensures verified { exit_status result ≡ 0 → TellsVerified (source_remaining F.remaining formula.entry)
        (output_contents W.contents output.old) (output_contents W.contents output.new) }
    ensures ends { IsEndedStatus (exit_status result) }
{
    let mut notes = Notes::new();
    match convert(
        rt,
        options,
        &mut formula,
        &mut proof,
        out,
        output,
        &mut notes,
    ) {
        Ok(outcome) => {
            warn(rt, proof.name(), notes);
            end_check(rt, proof.name(), outcome)
        }
        Err(error) => refuse(rt, &error),
    }
}

// Checks as `check_text_noting` does.
fn check<F: Read, P: Read, W: Write>(
    rt: &HostRuntime,
    formula: &mut F,
    proof: &mut P,
    writer: &mut W,
    notes: &mut Notes,
) -> Result<Outcome, DratError>
    ensures read_to_end { OnOk result (IsAtEnd (F.remaining formula.new)) }
    ensures has_form { OnOk result (HasForm Strict (F.remaining formula.old)) }
    ensures written { IfOk result (λ outcome. OfProblem Strict (F.remaining formula.old) (λ problem.
        WritesOutcome problem outcome (W.contents writer.old) (W.contents writer.new))) }
    ensures line { (line : ℕ) (reason : Reason) → IsErrOf result (DratError.Formula (DimacsError.Line line reason)) →
        WritesNone Strict (F.remaining formula.old) }
    ensures unwritten { IfErr result (λ error. error ≢ DratError.Output → writer.new ≡ writer.old) }
{
    check_text_noting(rt.alloc(), formula, proof, writer, notes)
}

// The status of an outcome. Writes why the proof in this file is refused.
fn end_check(rt: &HostRuntime, proof: Option<&str>, outcome: Outcome) -> ExitCode
    ensures { exit_status result ≡ checking_status outcome }
{
    match outcome {
        Outcome::Verified => ExitCode::SUCCESS,
        Outcome::Refused(refusal) => refuse(rt, &Failure::Refused(proof, refusal)),
    }
}

// Tells as which form the proof in this file was read, where that may be in doubt, and how many of its deletions were
// passed over.
fn warn(rt: &HostRuntime, proof: Option<&str>, notes: Notes) {
    let name = proof.unwrap_or("<stdin>");
    let name = Printable(&name);
    if notes.may_be_lrat {
        let _ = eprintln!(rt;
            "c {name}: read as DRAT, though its first number may be a name of LRAT"
        );
    }
    if let Some(first) = notes.first {
        let missing = notes.missing;
        let _ = eprintln!(rt;
            "c {name}: deletions of what is not there were passed over: {missing}, the first at {first}"
        );
    }
}
