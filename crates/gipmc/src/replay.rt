//! A replay of the witnesses of another program.
ghost use Rattle.std.specs.Prelude.{◌≡◌, ◌+◌, ◌<◌, IfNone, IfOk, IsTrue, OnOk, Some};
ghost use Rattle.std.specs.Option.{option_map};
ghost use Rattle.std.specs.Process.{exit_status};
ghost use Rattle.gip_cli.specs.Statuses.{IsEndedStatus};
ghost use Rattle.gipmc_command.specs.Options.{request_of};
ghost use Rattle.gipmc_task.specs.Witnesses.{Replays, ReplaysAll};
ghost use Rattle.gipmc_task.specs.declared.kind.PropertyKind.TheVariants as kind;
ghost use Rattle.gipmc.specs.Asked.{ReplaysAsked, ReplaysEach, WriteOne};
ghost use Rattle.gipmc.specs.Runs.{IsReplayed};

use crate::checks::{doubted, end_check, texts_of, verified};
use crate::errors::Failure;
use crate::files::Texts;
use crate::{is_empty, problem_in};
use gip_cli::refuse;
use gipmc_aiger::{Problem, Property, Subject};
use gipmc_command::Options;
use gipmc_task::{PropertyKind, TaskError, WitnessDoubt, replay_all, witness_doubt};
use std::process::ExitCode;

/// The status of a replay of the witnesses in the file of this name, or in standard input.
pub fn run<T: Texts>(rt: &HostRuntime, texts: &T, options: &Options, name: Option<&str>) -> ExitCode
    ensures verified { exit_status result ≡ 0 →
        IsReplayed (T.bytes texts.now) (request_of options.now) (option_map (λ n. n.now) name.entry) }
    ensures ends { IsEndedStatus (exit_status result) }
{
    match texts_of(rt, texts, options, name) {
        Ok((bytes, witness)) => replay_in(rt, options, name, &bytes, &witness),
        Err(error) => refuse(rt, &error),
    }
}

// The status of a replay of these witnesses on the circuit that the bytes write.
fn replay_in(
    rt: &HostRuntime,
    options: &Options,
    name: Option<&str>,
    bytes: &[u8],
    witness: &[u8],
) -> ExitCode
    ensures verified { exit_status result ≡ 0 →
        WriteOne bytes.now (λ p. ReplaysAsked p witness.now options.now.subject) }
    ensures ends { IsEndedStatus (exit_status result) }
{
    let ended = replay(rt, options, name, bytes, witness);
    end_check(rt, bytes, witness, ended)
}

// Replays the witnesses of what is asked about, and writes whether they are right.
fn replay<'a>(
    rt: &HostRuntime,
    options: &Options<'a>,
    name: Option<&'a str>,
    bytes: &[u8],
    witness: &[u8],
) -> Result<bool, Failure<'a>>
    ensures { IfOk result (λ verified. IsTrue verified →
        WriteOne bytes.now (λ p. ReplaysAsked p witness.now options.now.subject)) }
{
    let problem = problem_in(rt, options, bytes)?;
    replay_asked(rt, options, name, &problem, witness)
}

// Replays the witnesses of what is asked about in this problem.
fn replay_asked<'a>(
    rt: &HostRuntime,
    options: &Options<'a>,
    name: Option<&'a str>,
    problem: &Problem,
    witness: &[u8],
) -> Result<bool, Failure<'a>>
    ensures { IfOk result (λ verified. IsTrue verified →
        ReplaysAsked problem.now witness.now options.now.subject) }
{
    match options.subject {
        Subject::All | Subject::Any => replay_each(rt, options, name, problem, witness),
        Subject::One(Property::Bad(place)) => {
            let kind = PropertyKind::Bad;
            replay_one(rt, options, name, problem, kind, place, witness)
        }
        Subject::One(Property::Justice(place)) => {
            let kind = PropertyKind::Justice;
            replay_one(rt, options, name, problem, kind, place, witness)
        }
    }
}

// Replays the witnesses of all justice properties and of all bad literals. There may be none of one kind.
fn replay_each<'a>(
    rt: &HostRuntime,
    options: &Options<'a>,
    name: Option<&'a str>,
    problem: &Problem,
    witness: &[u8],
) -> Result<bool, Failure<'a>>
    ensures { IfOk result (λ verified. IsTrue verified → ReplaysEach problem.now witness.now) }
{
    if is_empty(problem) {
        let none = TaskError::NoProperties(PropertyKind::Bad);
        return Err(Failure::of_task(options.file, name, none));
    }
    let kind = PropertyKind::Justice;
    let (lassos, doubt) = replay_kind(rt, options, name, problem, kind, witness)?;
    match doubt {
        Some(doubt) => doubted(rt, name, &doubt),
        None => replay_beside(rt, options, name, problem, witness, lassos),
    }
}

// Replays those of bad literals beside so many right ones of justice properties.
fn replay_beside<'a>(
    rt: &HostRuntime,
    options: &Options<'a>,
    name: Option<&'a str>,
    problem: &Problem,
    witness: &[u8],
    lassos: usize,
) -> Result<bool, Failure<'a>>
    requires { ReplaysAll problem.now kind.Justice witness.now lassos }
    ensures { IfOk result (λ verified. IsTrue verified → ReplaysEach problem.now witness.now) }
{
    let kind = PropertyKind::Bad;
    let (traces, doubt) = replay_kind(rt, options, name, problem, kind, witness)?;
    match doubt {
        Some(doubt) => doubted(rt, name, &doubt),
        None => {
            has_witness(name, traces, lassos)?;
            verified(rt)
        }
    }
}

// Replays the witnesses of properties of a kind: how many there are, and what is wrong with one.
fn replay_kind<'a>(
    rt: &HostRuntime,
    options: &Options<'a>,
    name: Option<&'a str>,
    problem: &Problem,
    kind: PropertyKind,
    witness: &[u8],
) -> Result<(usize, Option<WitnessDoubt>), Failure<'a>>
    ensures { IfOk result (λ found. IfNone found.1 (ReplaysAll problem.now kind witness.now found.0)) }
{
    match replay_all(rt.alloc(), problem, kind, witness) {
        Ok(found) => Ok(found),
        Err(error) => Err(Failure::of_task(options.file, name, error)),
    }
}

// Tests that there is a witness among so many of bad literals and of justice properties.
fn has_witness<'a>(name: Option<&'a str>, traces: usize, lassos: usize) -> Result<(), Failure<'a>>
    ensures { OnOk result (0 < traces + lassos) }
{
    if traces > 0 {
        return Ok(());
    }
    if lassos > 0 {
        return Ok(());
    }
    Err(Failure::Task(name, TaskError::NoWitness))
}

// Replays the witnesses of the property of a kind at a place.
fn replay_one<'a>(
    rt: &HostRuntime,
    options: &Options<'a>,
    name: Option<&'a str>,
    problem: &Problem,
    kind: PropertyKind,
    place: usize,
    witness: &[u8],
) -> Result<bool, Failure<'a>>
    ensures { IfOk result (λ verified. IsTrue verified → Replays problem.now kind witness.now (Some place)) }
{
    match witness_doubt(rt.alloc(), problem, kind, witness, Some(place)) {
        Ok(None) => verified(rt),
        Ok(Some(doubt)) => doubted(rt, name, &doubt),
        Err(error) => Err(Failure::of_task(options.file, name, error)),
    }
}
