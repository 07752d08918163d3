//! The files of certificates of what was found safe.
ghost use Rattle.std.specs.Prelude.{◌≡◌, IfOk};
ghost use Rattle.gipmc_task.specs.Certificates.{Certifies};
ghost use Rattle.gipmc.specs.Asked.{asked_or};

use crate::errors::Failure;
use crate::files::{new_file, write_whole};
use crate::search::Found;
use gip_cli::{NewFile, Printable};
use gipmc_aiger::{Problem, Property, Subject};
use gipmc_command::Options;
use gipmc_task::{
    Answered, Evidence, Grounds, Outcome, Said, TaskError, Verdict, certificate_of, together,
};
use gipsat_solver::Solver;

/// The file of a certificate, if one is wanted. None is begun where there can be no certificate of the form that is
/// wanted.
///
/// # Errors
/// [`Failure::NoCircuit`] and [`Failure::NoCircuitOfK`] where there can be none, and those of [`new_file`].
pub fn certificate_file<'a>(
    rt: &HostRuntime,
    options: &Options<'a>,
) -> Result<Option<NewFile<'a>>, Failure<'a>> {
    let is_circuit = options.asked.has("--aiger");
    match options.asked.word("--certificate") {
        Some(name) if is_circuit && is_of_justice(options.subject) => Err(Failure::NoCircuit(name)),
        Some(name) if is_circuit && options.asked.word("--engine") == Some("induction") => {
            Err(Failure::NoCircuitOfK(name))
        }
        name => new_file(rt, name),
    }
}

/// Writes the certificate of the bad literals to the file, if these were asked about and are safe; else that of the
/// justice property that was asked about, or of the only one that holds.
///
/// # Errors
/// [`Failure::NoCircuit`] where that of a justice property is to be a circuit, [`Failure::SeveralProperties`] where
/// several hold, and those of the certificate and of its file.
pub fn keep_certificate<'a>(
    rt: &HostRuntime,
    options: &Options<'a>,
    problem: &Problem,
    found: &Found,
    file: NewFile<'a>,
) -> Result<(), Failure<'a>> {
    if is_of_justice(options.subject) || problem.is_live_alone() {
        keep_of_justice(rt, options, problem, &found.justice, file)
    } else {
        keep_of_bads(rt, options, problem, &found.bads, file)
    }
}

// Whether a justice property is asked about.
fn is_of_justice(subject: Subject) -> bool {
    match subject {
        Subject::One(Property::Justice(_)) => true,
        _ => false,
    }
}

// Writes the certificate that was found of bad literals, if they are safe.
fn keep_of_bads<'a>(
    rt: &HostRuntime,
    options: &Options<'a>,
    problem: &Problem,
    said: &Said,
    file: NewFile<'a>,
) -> Result<(), Failure<'a>> {
    if together(&said.answers) != Outcome::Safe {
        return Ok(());
    }
    let grounds = if options.asked.has("--aiger") {
        Grounds::Strengthened(&said.invariant)
    } else {
        Grounds::Clauses(&said.invariant, said.k)
    };
    write_certificate(rt, options, problem, Subject::All, grounds, file)?;
    tell_left_out(rt, options, problem, "certified");
    Ok(())
}

// Writes the certificate of a justice property that holds, if it is the only one that was asked about.
fn keep_of_justice<'a>(
    rt: &HostRuntime,
    options: &Options<'a>,
    problem: &Problem,
    answers: &[Answered],
    file: NewFile<'a>,
) -> Result<(), Failure<'a>> {
    if together(answers) != Outcome::Safe {
        return Ok(());
    }
    if options.asked.has("--aiger") {
        return Err(Failure::NoCircuit(file.name()));
    }
    let [answer] = answers else {
        return Err(Failure::SeveralProperties(Some(file.name())));
    };
    let Verdict::Holds(Evidence::Longer(means, invariant)) = &answer.verdict else {
        return Ok(());
    };
    let (property, grounds) = (
        Subject::One(answer.property),
        Grounds::Longer(*means, invariant),
    );
    write_certificate(rt, options, problem, property, grounds, file)
}

// Writes the certificate that is made of this to the file: of the property that is asked about, or otherwise of this.
fn write_certificate<'a>(
    rt: &HostRuntime,
    options: &Options<'a>,
    problem: &Problem,
    otherwise: Subject,
    grounds: Grounds,
    file: NewFile<'a>,
) -> Result<(), Failure<'a>> {
    match certificate_text(rt, options, problem, otherwise, grounds) {
        Ok(text) => write_whole(file, &text),
        Err(error) => Err(Failure::NoCertificate(Some(file.name()), error)),
    }
}

// The text of this certificate.
fn certificate_text(
    rt: &HostRuntime,
    options: &Options,
    problem: &Problem,
    otherwise: Subject,
    grounds: Grounds,
) -> Result<Vec<u8>, TaskError>
    ensures { IfOk result (λ text. Certifies problem.now text.items (asked_or options.now.subject otherwise)) }
{
    let asked = asked_or(options.subject, otherwise);
    certificate_of::<Solver>(rt.alloc(), problem, asked, grounds, usize::MAX)
}

// What is asked about, if that is one property, and otherwise this.
fn asked_or(subject: Subject, otherwise: Subject) -> Subject
    ensures { result ≡ asked_or subject otherwise }
{
    match subject {
        Subject::One(_) => subject,
        Subject::All | Subject::Any => otherwise,
    }
}

/// Tells where what is done about all bad literals says nothing of justice properties.
pub fn tell_left_out(rt: &HostRuntime, options: &Options, problem: &Problem, done: &str) {
    match options.subject {
        Subject::All | Subject::Any if !problem.liveness.justice.is_empty() => {
            let name = options.file.unwrap_or("<stdin>");
            let _ = eprintln!(rt; "c {}: its bad literals alone are {done}", Printable(&name));
        }
        _ => {}
    }
}
