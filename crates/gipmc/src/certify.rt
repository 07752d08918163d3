//! A certification by the certificate of another program.
ghost use Rattle.std.specs.Prelude.{◌≡◌, IfOk, IsTrue};
ghost use Rattle.std.specs.Option.{option_map};
ghost use Rattle.std.specs.Process.{exit_status};
ghost use Rattle.gip_cli.specs.Statuses.{IsEndedStatus};
ghost use Rattle.gipmc_command.specs.Options.{request_of};
ghost use Rattle.gipmc_task.specs.Certificates.{Certifies};
ghost use Rattle.gipmc.specs.Asked.{WriteOne};
ghost use Rattle.gipmc.specs.Runs.{IsCertified};

use crate::certificates::tell_left_out;
use crate::checks::{doubted, end_check, texts_of, verified};
use crate::errors::Failure;
use crate::files::Texts;
use crate::problem_in;
use crate::settings::limit_asked;
use gip_cli::refuse;
use gipmc_aiger::Problem;
use gipmc_command::Options;
use gipmc_task::doubt_of;
use gipsat_solver::Solver;
use std::process::ExitCode;

/// The status of a certification by the certificate in the file of this name, or in standard input.
pub fn run<T: Texts>(rt: &HostRuntime, texts: &T, options: &Options, name: Option<&str>) -> ExitCode
    ensures verified { exit_status result ≡ 0 →
        IsCertified (T.bytes texts.now) (request_of options.now) (option_map (λ n. n.now) name.entry) }
    ensures ends { IsEndedStatus (exit_status result) }
{
    match texts_of(rt, texts, options, name) {
        Ok((bytes, text)) => certify_in(rt, options, name, &bytes, &text),
        Err(error) => refuse(rt, &error),
    }
}

// The status of a certification of the circuit that the bytes write, by this certificate.
fn certify_in(
    rt: &HostRuntime,
    options: &Options,
    name: Option<&str>,
    bytes: &[u8],
    text: &[u8],
) -> ExitCode
    ensures verified { exit_status result ≡ 0 →
        WriteOne bytes.now (λ p. Certifies p text.now options.now.subject) }
    ensures ends { IsEndedStatus (exit_status result) }
{
    let ended = certify(rt, options, name, bytes, text);
    end_check(rt, bytes, text, ended)
}

// Certifies what is asked about by a certificate, and writes whether that shows it.
fn certify<'a>(
    rt: &HostRuntime,
    options: &Options<'a>,
    name: Option<&'a str>,
    bytes: &[u8],
    text: &[u8],
) -> Result<bool, Failure<'a>>
    ensures { IfOk result (λ verified. IsTrue verified →
        WriteOne bytes.now (λ p. Certifies p text.now options.now.subject)) }
{
    let problem = problem_in(rt, options, bytes)?;
    certify_asked(rt, options, name, &problem, text)
}

// Certifies what is asked about in this problem.
fn certify_asked<'a>(
    rt: &HostRuntime,
    options: &Options<'a>,
    name: Option<&'a str>,
    problem: &Problem,
    text: &[u8],
) -> Result<bool, Failure<'a>>
    ensures { IfOk result (λ verified. IsTrue verified →
        Certifies problem.now text.now options.now.subject) }
{
    let (alloc, limit) = (rt.alloc(), limit_asked(options));
    match doubt_of::<Solver>(alloc, problem, text, options.subject, limit) {
        Ok(None) => {
            tell_left_out(rt, options, problem, "certified");
            verified(rt)
        }
        Ok(Some(doubt)) => doubted(rt, name, &doubt),
        Err(error) => Err(Failure::of_task(options.file, name, error)),
    }
}
