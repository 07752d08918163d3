//! A search in a circuit: each answer is written when it is found, and then the files that are wanted.
ghost use Rattle.std.specs.Prelude.{◌≡◌, IfOk};
ghost use Rattle.std.specs.Process.{exit_status};
ghost use Rattle.gipmc_command.specs.Options.{request_of};
ghost use Rattle.gipmc_task.specs.Answers.{TellsAsked};
ghost use Rattle.gipmc_task.specs.Justice.Answers as justice;
ghost use Rattle.gipmc_task.specs.declared.outcome.Outcome.TheVariants.{Fails, Safe};
ghost use Rattle.gipmc.specs.Asked.{IsAnswered, IsRightOutcome};
ghost use Rattle.gipmc.specs.Runs.{IsFound};
ghost use Rattle.gipmc.specs.Statuses.{exits_zero, outcome_status, search_status};

use crate::certificates::{certificate_file, keep_certificate, tell_left_out};
use crate::errors::Failure;
use crate::files::{Texts, check_names, new_file};
use crate::located::located;
use crate::progress::Teller;
use crate::settings::{output_of, plan_of};
use crate::traces::tell_traces;
use crate::{is_empty, problem_in};
use gip_cli::{Clock, NewFile, Printable, refuse};
use gipmc_aiger::{Problem, Property, Subject};
use gipmc_command::Options;
use gipmc_reduce::Means;
use gipmc_task::{
    Answered, Evidence, Outcome, Output, PropertyKind, Said, TaskError, Verdict, answer, justice,
    together,
};
use gipsat_solver::Solver;
use std::io::Stdout;
use std::process::ExitCode;

/// The status of a search in the circuit of the file that the options name, or of standard input.
pub fn run<T: Texts>(rt: &HostRuntime, texts: &T, options: &Options) -> ExitCode
    ensures safe { exit_status result ≡ 20 → IsFound (T.bytes texts.now) (request_of options.now) Safe }
    ensures fails { exit_status result ≡ 10 → IsFound (T.bytes texts.now) (request_of options.now) Fails }
{
    let clock = Clock::start(rt);
    match texts.text_of(rt, options.file) {
        Ok(bytes) => search_in(rt, options, clock, &bytes),
        Err(error) => refuse(rt, &error),
    }
}

// The status of a search in the circuit that the bytes write, of a program that began as the clock did.
fn search_in(rt: &HostRuntime, options: &Options, clock: Clock, bytes: &[u8]) -> ExitCode
    ensures safe { exit_status result ≡ 20 → IsAnswered bytes.now options.now.subject Safe }
    ensures fails { exit_status result ≡ 10 → IsAnswered bytes.now options.now.subject Fails }
{
    end_search(
        rt,
        options,
        bytes,
        search_circuit(rt, options, clock, bytes),
    )
}

// The status after a search in the circuit of a text. Writes why nothing is answered.
fn end_search(
    rt: &HostRuntime,
    options: &Options,
    circuit: &[u8],
    ended: Result<Outcome, Failure>,
) -> ExitCode
    ensures { exit_status result ≡ search_status (exits_zero options.now) ended.entry }
{
    match ended {
        Ok(_) if exits_zero(options) => ExitCode::SUCCESS,
        Ok(outcome) => ExitCode::from(status_of(outcome)),
        Err(error) => refuse(rt, &located(error, circuit, &[])),
    }
}

// Whether the status is 0 whatever is found.
fn exits_zero(options: &Options) -> bool
    ensures { result ≡ exits_zero options.now }
{
    options.asked.has("--exit-zero")
}

// The status of an outcome.
fn status_of(outcome: Outcome) -> u8
    ensures { result ≡ outcome_status outcome }
{
    match outcome {
        Outcome::Fails => 10,
        Outcome::Safe => 20,
        Outcome::Open => 0,
    }
}

// Answers about a circuit: writes each answer when it is found, and then the files that are wanted.
fn search_circuit<'a>(
    rt: &HostRuntime,
    options: &Options<'a>,
    clock: Clock,
    bytes: &[u8],
) -> Result<Outcome, Failure<'a>>
    ensures { IfOk result (IsAnswered bytes.now options.now.subject) }
{
    check_names(options)?;
    let certificate = certificate_file(rt, options)?;
    let wave = new_file(rt, options.asked.word("--vcd"))?;
    search_for(rt, options, clock, bytes, certificate, wave)
}

// Answers about a circuit, and writes these files, if they are wanted, and others that the options ask for.
fn search_for<'a>(
    rt: &HostRuntime,
    options: &Options<'a>,
    clock: Clock,
    bytes: &[u8],
    certificate: Option<NewFile<'a>>,
    wave: Option<NewFile<'a>>,
) -> Result<Outcome, Failure<'a>>
    ensures { IfOk result (IsAnswered bytes.now options.now.subject) }
{
    let problem = problem_in(rt, options, bytes)?;
    let mut output = output_of(rt, options);
    let mut teller = Teller::new(rt, options, clock);
    let found = search(rt, options, &problem, &mut teller, &mut output)?;
    let kept = keep(rt, options, bytes, &problem, &found, certificate, wave);
    written(&output)?;
    teller.kept()?;
    kept?;
    Ok(found.outcome)
}

/// What is found out about a problem.
pub struct Found {
    /// About its bad literals.
    pub bads: Said,
    /// About its justice properties.
    pub justice: Vec<Answered>,
    /// About all of them together.
    outcome: Outcome,
}

// One call in its owners' proofs, in place of one for each field.
impl Drop for Found {
    fn drop(self) {
        let Found {
            bads,
            justice,
            outcome: _,
        } = self;
    }
}

// Answers about a problem, and writes each answer when it is found.
fn search<'a>(
    rt: &HostRuntime,
    options: &Options<'a>,
    problem: &Problem,
    teller: &mut Teller<'_, '_>,
    output: &mut Output<Stdout>,
) -> Result<Found, Failure<'a>>
    ensures { IfOk result (λ f. IsRightOutcome problem.now options.now.subject f.outcome) }
{
    let bads = search_bads(rt, options, problem, teller, output)?;
    let justice = search_justice(rt, options, problem, teller, output)?;
    teller.sum_up();
    let outcome = together(&bads.answers).and(together(&justice));
    Ok(Found {
        bads,
        justice,
        outcome,
    })
}

// Answers about the bad literals that are asked about.
fn search_bads<'a>(
    rt: &HostRuntime,
    options: &Options<'a>,
    problem: &Problem,
    teller: &mut Teller<'_, '_>,
    output: &mut Output<Stdout>,
) -> Result<Said, Failure<'a>>
    ensures { IfOk result (λ said. TellsAsked problem.now.netlist.circuit options.now.subject
        output.old.order said.answers.items) }
{
    let (alloc, netlist, plan) = (rt.alloc(), &problem.netlist, plan_of(options));
    match answer::<Solver, _, _>(alloc, netlist, options.subject, &plan, teller, output) {
        Ok(said) => {
            tell_unasked(rt, options, problem);
            Ok(said)
        }
        Err(error) => Err(Failure::of_task(options.file, None, error)),
    }
}

// Tells where there is nothing to ask about, and where justice properties are not asked about.
fn tell_unasked(rt: &HostRuntime, options: &Options, problem: &Problem) {
    match options.subject {
        Subject::All if is_empty(problem) => {
            let none = Failure::Task(options.file, TaskError::NoProperties(PropertyKind::Bad));
            let _ = eprintln!(rt; "c {}", Printable(&none));
        }
        Subject::Any => tell_left_out(rt, options, problem, "asked about"),
        _ => {}
    }
}

// Answers about the justice properties that are asked about.
fn search_justice<'a>(
    rt: &HostRuntime,
    options: &Options<'a>,
    problem: &Problem,
    teller: &mut Teller<'_, '_>,
    output: &mut Output<Stdout>,
) -> Result<Vec<Answered>, Failure<'a>>
    ensures { IfOk result (λ answers. justice.TellsAsked problem.now.netlist.circuit problem.now.liveness
        options.now.subject answers.items) }
{
    teller.go_on_with_justice();
    let (alloc, subject, plan) = (rt.alloc(), options.subject, plan_of(options));
    match justice::answer::<Solver, _, _>(alloc, problem, subject, &plan, teller, output) {
        Ok(answers) => {
            tell_decided(rt, options, &answers);
            Ok(answers)
        }
        Err(error) => Err(Failure::of_task(options.file, None, error)),
    }
}

// Tells of each justice property that is decided what decided it, where summaries are wanted.
fn tell_decided(rt: &HostRuntime, options: &Options, answers: &[Answered]) {
    if !options.asked.has("--stats") {
        return;
    }
    for answer in answers {
        if let Property::Justice(place) = answer.property {
            tell_means(rt, place, &answer.verdict);
        }
    }
}

// Tells what decided the justice property at a place, if anything did.
fn tell_means(rt: &HostRuntime, place: usize, verdict: &Verdict) {
    match verdict {
        Verdict::Fails(_) => {
            let _ = eprintln!(rt; "c j{place}: decided by a lasso");
        }
        Verdict::Holds(Evidence::Longer(Means::Counting(k), _)) => {
            let _ = eprintln!(rt; "c j{place}: decided by counting to {k}");
        }
        Verdict::Holds(Evidence::Longer(Means::Saving, _)) => {
            let _ = eprintln!(rt; "c j{place}: decided by an invariant that excludes lassos");
        }
        _ => {}
    }
}

// Whether all was written to standard output.
fn written<'a>(output: &Output<Stdout>) -> Result<(), Failure<'a>> {
    match output.failure {
        None => Ok(()),
        Some(error) => Err(Failure::Write(error)),
    }
}

// Writes the certificate that was found, and what is told of traces.
fn keep<'a>(
    rt: &HostRuntime,
    options: &Options<'a>,
    bytes: &[u8],
    problem: &Problem,
    found: &Found,
    certificate: Option<NewFile<'a>>,
    wave: Option<NewFile<'a>>,
) -> Result<(), Failure<'a>> {
    let certified = match certificate {
        Some(file) => keep_certificate(rt, options, problem, found, file),
        None => Ok(()),
    };
    let told = tell_traces(rt, options, bytes, problem, found, wave);
    certified?;
    told
}
