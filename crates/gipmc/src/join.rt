//! Certificates of bad literals, put together to one of all of them.
ghost use Rattle.std.specs.Prelude.{◌≡◌, IfOk, IsTrue};
ghost use Rattle.std.specs.Process.{exit_status};
ghost use Rattle.gip_cli.specs.Statuses.{IsEndedStatus};
ghost use Rattle.gipmc_aiger.specs.declared.problem.Subject.TheVariants.{All};
ghost use Rattle.gipmc_command.specs.Options.{request_of};
ghost use Rattle.gipmc_task.specs.Certificates.{Certifies};
ghost use Rattle.gipmc.specs.Asked.{IsShownSafe, WriteOne};
ghost use Rattle.gipmc.specs.Runs.{IsJoined};

use crate::certificates::tell_left_out;
use crate::checks::{doubted, end_check, verified};
use crate::errors::Failure;
use crate::files::{Texts, begin_file, write_whole};
use crate::problem_in;
use crate::settings::limit_asked;
use gip_cli::{NewFile, refuse};
use gipmc_aiger::Problem;
use gipmc_command::Options;
use gipmc_task::{CertificateParts, JoinedCertificate, TaskError};
use gipsat_solver::Solver;
use std::process::ExitCode;

// The place of the first part among the files.
const FIRST: usize = 1;

/// The status of joining certificates of a circuit, whose files the options name behind it, to one of all bad literals.
/// Where that shows that they are safe, the file `out` appears, and has it.
pub fn run<T: Texts>(rt: &HostRuntime, texts: &T, options: &Options, out: &str) -> ExitCode
    ensures verified { exit_status result ≡ 0 → IsJoined (T.bytes texts.now) (request_of options.now) }
    ensures ends { IsEndedStatus (exit_status result) }
{
    match texts.text_of(rt, options.file) {
        Ok(bytes) => join_in(rt, texts, options, out, &bytes),
        Err(error) => refuse(rt, &error),
    }
}

// The status of joining certificates of the circuit that the bytes write.
fn join_in<T: Texts>(
    rt: &HostRuntime,
    texts: &T,
    options: &Options,
    out: &str,
    bytes: &[u8],
) -> ExitCode
    ensures verified { exit_status result ≡ 0 → WriteOne bytes.now IsShownSafe }
    ensures ends { IsEndedStatus (exit_status result) }
{
    let ended = join(rt, texts, options, out, bytes);
    end_check(rt, bytes, &[], ended)
}

// Joins the parts, and writes whether they show that the circuit is safe.
fn join<'a, T: Texts>(
    rt: &HostRuntime,
    texts: &T,
    options: &Options<'a>,
    out: &'a str,
    bytes: &[u8],
) -> Result<bool, Failure<'a>>
    ensures { IfOk result (λ verified. IsTrue verified → WriteOne bytes.now IsShownSafe) }
{
    let problem = problem_in(rt, options, bytes)?;
    let file = begin_file(rt, out)?;
    let parts = parts_of(rt, texts, options, &problem)?;
    join_parts(rt, options, &problem, &parts, file)
}

// Writes what the parts show of all bad literals, and to the file the certificate that they make, if they show it.
fn join_parts<'a>(
    rt: &HostRuntime,
    options: &Options<'a>,
    problem: &Problem,
    parts: &CertificateParts,
    file: NewFile<'a>,
) -> Result<bool, Failure<'a>>
    ensures { IfOk result (λ verified. IsTrue verified → IsShownSafe problem.now) }
{
    match parts.join::<Solver>(rt.alloc(), problem, limit_asked(options)) {
        Ok(JoinedCertificate::Certificate(text)) => keep(rt, options, problem, &text, file),
        Ok(JoinedCertificate::Doubted(part, doubt)) => {
            let name = part_name(options, part).unwrap_or(file.name());
            doubted(rt, Some(name), &doubt)
        }
        Err(error) => Err(Failure::of_task(options.file, None, error)),
    }
}

// Writes a certificate of all bad literals to its file, and that it is verified.
fn keep<'a>(
    rt: &HostRuntime,
    options: &Options<'a>,
    problem: &Problem,
    text: &[u8],
    file: NewFile<'a>,
) -> Result<bool, Failure<'a>>
    requires { Certifies problem.now text.now All }
    ensures { IfOk result (λ verified. IsTrue verified → IsShownSafe problem.now) }
{
    write_whole(file, text)?;
    tell_left_out(rt, options, problem, "certified");
    verified(rt)
}

// The file of the part at a place among them, if it is about one.
fn part_name<'a>(options: &Options<'a>, part: Option<usize>) -> Option<&'a str> {
    options.asked.file(part?.saturating_add(FIRST))
}

// The parts that the options name.
fn parts_of<'a, T: Texts>(
    rt: &HostRuntime,
    texts: &T,
    options: &Options<'a>,
    problem: &Problem,
) -> Result<CertificateParts, Failure<'a>> {
    let mut parts = CertificateParts::new(rt.alloc());
    for place in FIRST..usize::MAX {
        let Some(name) = options.asked.file(place) else {
            break;
        };
        add(rt, texts, problem, name, &mut parts)?;
    }
    Ok(parts)
}

// Adds the part in this file.
fn add<'a, T: Texts>(
    rt: &HostRuntime,
    texts: &T,
    problem: &Problem,
    name: &'a str,
    parts: &mut CertificateParts,
) -> Result<(), Failure<'a>> {
    let text = texts.text_of(rt, Some(name))?;
    match parts.add(rt.alloc(), problem, &text) {
        Ok(()) => Ok(()),
        Err(TaskError::NotClauses) => Err(Failure::NotClauses(name)),
        Err(error) => Err(Failure::Task(Some(name), error)),
    }
}
