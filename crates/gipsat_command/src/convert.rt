//! A check of a proof without hints that writes one with hints to a file.
ghost use Rattle.std.specs.Prelude.{◌≡◌, ◌≢◌, IfOk, OnOk};
ghost use Rattle.std.specs.Io.KnownBytes.{Appends, IsAtEnd};
ghost use Rattle.gipsat_dimacs.specs.Inputs.{HasForm, OfProblem};
ghost use Rattle.gipsat_dimacs.specs.declared.rule.HeaderRule.TheVariants.{Strict};
ghost use Rattle.gipsat_command.specs.Files.{output_contents, source_remaining};
ghost use Rattle.gipsat_drat.specs.Outcomes.{IsRight, WritesOutcome, outcome_text};

use crate::errors::Failure;
use crate::files::{Output, Source};
use crate::options::Options;
use crate::proof_file::{self, ProofError};
use gip_cli::NewFile;
use gipsat_drat::error::{DratError, Notes, Outcome};
use gipsat_drat::{LratFormat, lrat_from_drat};
use std::io::{self, Read, Write};

/// A file that is written, and why the last write failed.
#[derive(Drop)]
pub struct Written<'a> {
    /// The file.
    pub file: NewFile<'a>,
    /// Why the last write failed.
    pub error: Option<io::Error>,
}

impl Write for Written<'_> {
    fn write(&mut self, buf: &[u8]) -> io::Result<usize> {
        let done = self.file.write(buf);
        if let Err(error) = done {
            self.error = Some(error);
        }
        done
    }

    fn flush(&mut self) -> io::Result<()> {
        self.file.flush()
    }
}

/// Checks a proof beside a formula, notes what was passed over, and writes the outcome. Where it is verified, a proof
/// with hints appears in the file of this name.
///
/// # Errors
/// A [`Failure`]. But for an error of the output, the file is as it was then.
pub fn convert<'a, F: Read, P: Read, W: Write>(
    rt: &HostRuntime,
    options: &Options<'a>,
    formula: &mut Source<'a, F>,
    proof: &mut Source<'a, P>,
    path: &'a str,
    output: &mut Output<W>,
    notes: &mut Notes,
) -> Result<Outcome, Failure<'a>>
    ensures has_form { OnOk result (HasForm Strict (source_remaining F.remaining formula.old)) }
    ensures written { IfOk result (λ outcome. OfProblem Strict (source_remaining F.remaining formula.old) (λ problem.
        WritesOutcome problem outcome
        (output_contents W.contents output.old) (output_contents W.contents output.new))) }
{
    let mut written = match proof_file::create_beside(rt, options, path, proof.name()) {
        Ok(file) => Written { file, error: None },
        Err(error) => return Err(Failure::Proof(error)),
    };
    let format = if options.has("--binary") {
        LratFormat::Binary
    } else {
        LratFormat::Text
    };
    match convert_to(rt, formula, proof, format, &mut written, notes) {
        Ok(outcome) => end(written, outcome, output),
        Err(DratError::Output) => Err(Failure::Write(Some(path), written.error)),
        Err(error) => Err(formula.check_failure(proof, output, error)),
    }
}

// Converts as `lrat_from_drat` does.
fn convert_to<F: Read, P: Read, W: Write>(
    rt: &HostRuntime,
    formula: &mut F,
    proof: &mut P,
    format: LratFormat,
    writer: &mut W,
    notes: &mut Notes,
) -> Result<Outcome, DratError>
    ensures read_to_end { OnOk result (IsAtEnd (F.remaining formula.new)) }
    ensures has_form { OnOk result (HasForm Strict (F.remaining formula.old)) }
    ensures right { IfOk result (λ outcome. OfProblem Strict (F.remaining formula.old)
        (λ problem. IsRight problem.clauses outcome)) }
    ensures unwritten { IfOk result (λ outcome. outcome ≢ Outcome.Verified → writer.new ≡ writer.old) }
{
    lrat_from_drat(rt.alloc(), formula, proof, format, writer, notes)
}

// Gives the file its name where the proof is verified, and writes the outcome.
fn end<'a, W: Write>(
    written: Written<'a>,
    outcome: Outcome,
    output: &mut Output<W>,
) -> Result<Outcome, Failure<'a>>
    ensures same { IfOk result (λ told. told ≡ outcome) }
    ensures written { OnOk result (Appends (output_contents W.contents output.old)
        (output_contents W.contents output.new) (outcome_text outcome)) }
{
    if outcome == Outcome::Verified {
        if let Err(error) = written.file.finish() {
            return Err(Failure::Proof(ProofError::Finish(error)));
        }
    }
    match output.write_all(outcome.text()) {
        Ok(()) => Ok(outcome),
        Err(_) => Err(output.unwritten()),
    }
}
