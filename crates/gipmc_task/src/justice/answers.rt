//! Answers about the justice properties of a problem.
ghost use Rattle.std.specs.Prelude.{◌≡◌, ℕ, ◌<◌, length, slice_get, Some, IfOk};
ghost use Rattle.gipmc_aiger.specs.declared.problem.Property.TheVariants.{Justice};
ghost use Rattle.gipmc_aiger.specs.declared.problem.Subject.TheVariants.{One};
ghost use Rattle.gipmc_task.specs.Answers.{TellsFirst, TellsOne};
ghost use Rattle.gipmc_task.specs.Justice.Answers.{AreShown, IsKnown, IsShown, IsShownAt, Tells, TellsAsked, verdict_by};
ghost use Rattle.gipmc_task.specs.Output.{IsWritten};
ghost use Rattle.gipmc_task.specs.Verdicts.{answer_text, texts_of, together};
ghost use Rattle.gipmc_task.specs.Witnesses.{Replays};
ghost use Rattle.gipmc_task.specs.declared.kind.PropertyKind.TheVariants as kind;
ghost use Rattle.gipmc_task.specs.declared.outcome.Outcome.TheVariants.{Fails};

use crate::answered::{Answered, one, tell};
use crate::error::TaskError;
use crate::kind::PropertyKind;
use crate::output::Output;
use crate::verdict::{Evidence, Verdict};
use gipmc_aiger::{Problem, Property, Subject};
use gipmc_engines::liveness::{self, decide_live};
use gipmc_engines::{Event, Observer, Plan};
use gipsat_cnf::{Literal, SatSolver};
use std::alloc::{AllocError, Global};
use std::io::Write;

/// Answers about the justice properties of a problem that are asked about, each under all fairness constraints: about
/// none where bad literals alone are. Each answer is written as soon as it is found. Where a write fails no more is
/// written; the search stops then, and leaves the other properties open, or goes on, as the output says.
///
/// # Errors
/// - [`TaskError::NoProperty`] where there is no justice property at the place, and [`TaskError::NoProperties`] where
///   one is asked about and there is none at all.
/// - [`TaskError::Memory`] where memory is refused for a text. A search that is refused memory leaves its property open.
pub fn answer<S: SatSolver + Drop, O: Observer, W: Write>(
    alloc: Global,
    problem: &Problem,
    asked: Subject,
    plan: &Plan,
    observer: &mut O,
    output: &mut Output<W>,
) -> Result<Vec<Answered>, TaskError>
    ensures tells { IfOk result (λ answers.
        TellsAsked problem.now.netlist.circuit problem.now.liveness asked answers.items) }
    ensures witness { (place : ℕ) → asked ≡ One (Justice place) →
        IfOk result (λ answers. together answers.items ≡ Fails →
        Replays problem.now kind.Justice (texts_of answers.items) (Some place)) }
    ensures shown { IfOk result (λ answers.
        AreShown problem.now.netlist.circuit problem.now.liveness answers.items) }
    ensures written { IfOk result (λ answers. IsWritten output.old.failure output.new.failure
        (W.contents output.old.writer) (W.contents output.new.writer) (texts_of answers.items)) }
{
    answer_asked::<S, _, _>(alloc, problem, asked, plan, observer, output)
}

// The same, by what is asked about.
fn answer_asked<S: SatSolver + Drop, O: Observer, W: Write>(
    alloc: Global,
    problem: &Problem,
    asked: Subject,
    plan: &Plan,
    observer: &mut O,
    output: &mut Output<W>,
) -> Result<Vec<Answered>, TaskError>
    ensures tells { IfOk result (λ answers.
        TellsAsked problem.now.netlist.circuit problem.now.liveness asked answers.items) }
    ensures shown { IfOk result (λ answers.
        AreShown problem.now.netlist.circuit problem.now.liveness answers.items) }
    ensures written { IfOk result (λ answers. IsWritten output.old.failure output.new.failure
        (W.contents output.old.writer) (W.contents output.new.writer) (texts_of answers.items)) }
{
    let count = problem.liveness.justice.len();
    match asked {
        Subject::All => Ok(answer_all::<S, _, _>(alloc, problem, plan, observer, output)?),
        Subject::One(Property::Justice(place)) if place < count => {
            Ok(answer_one::<S, _, _>(alloc, problem, place, plan, observer, output)?)
        }
        Subject::One(Property::Justice(place)) => {
            Err(TaskError::lacking(PropertyKind::Justice, Some(place), count))
        }
        Subject::One(Property::Bad(_)) | Subject::Any => Ok(Vec::new(alloc)),
    }
}

// Answers about all properties.
fn answer_all<S: SatSolver + Drop, O: Observer, W: Write>(
    alloc: Global,
    problem: &Problem,
    plan: &Plan,
    observer: &mut O,
    output: &mut Output<W>,
) -> Result<Vec<Answered>, AllocError>
    ensures tells { IfOk result (λ answers.
        TellsFirst (Tells problem.now.netlist.circuit problem.now.liveness)
        (length problem.now.liveness.justice.items) answers.items) }
    ensures shown { IfOk result (λ answers.
        AreShown problem.now.netlist.circuit problem.now.liveness answers.items) }
    ensures written { IfOk result (λ answers. IsWritten output.old.failure output.new.failure
        (W.contents output.old.writer) (W.contents output.new.writer) (texts_of answers.items)) }
{
    let mut answers = Vec::new(alloc);
    for place in 0..problem.liveness.justice.len() {
        let answer = answer_at::<S, _, _>(alloc, problem, place, plan, observer, output)?;
        answers.reserve(1)?;
        answers.push_reserved(answer);
    }
    Ok(answers)
}

// Answers about the property at a place alone.
fn answer_one<S: SatSolver + Drop, O: Observer, W: Write>(
    alloc: Global,
    problem: &Problem,
    place: usize,
    plan: &Plan,
    observer: &mut O,
    output: &mut Output<W>,
) -> Result<Vec<Answered>, AllocError>
    requires { place < length problem.now.liveness.justice.items }
    ensures tells { IfOk result (λ answers.
        TellsOne (Tells problem.now.netlist.circuit problem.now.liveness place) answers.items) }
    ensures shown { IfOk result (λ answers.
        AreShown problem.now.netlist.circuit problem.now.liveness answers.items) }
    ensures written { IfOk result (λ answers. IsWritten output.old.failure output.new.failure
        (W.contents output.old.writer) (W.contents output.new.writer) (texts_of answers.items)) }
{
    let answer = answer_at::<S, _, _>(alloc, problem, place, plan, observer, output)?;
    let answers = one(alloc, answer)?;
    Ok(answers)
}

// Answers about the property at a place.
fn answer_at<S: SatSolver + Drop, O: Observer, W: Write>(
    alloc: Global,
    problem: &Problem,
    place: usize,
    plan: &Plan,
    observer: &mut O,
    output: &mut Output<W>,
) -> Result<Answered, AllocError>
    requires { place < length problem.now.liveness.justice.items }
    ensures tells { IfOk result (Tells problem.now.netlist.circuit problem.now.liveness place) }
    ensures shown { IfOk result (λ a. IsShownAt problem.now.netlist.circuit problem.now.liveness a place) }
    ensures written { IfOk result (λ a. IsWritten output.old.failure output.new.failure
        (W.contents output.old.writer) (W.contents output.new.writer) (answer_text a)) }
{
    let property = &problem.liveness.justice[place];
    let is_over = output.is_over();
    let verdict = find_out::<S, _>(alloc, problem, place, property, plan, is_over, observer);
    tell(alloc, Property::Justice(place), verdict, observer, output)
}

// What is found out about this property, at a place: nothing where the search or its time is over, or memory is refused.
fn find_out<S: SatSolver + Drop, O: Observer>(
    alloc: Global,
    problem: &Problem,
    place: usize,
    property: &[Literal],
    plan: &Plan,
    is_over: bool,
    observer: &mut O,
) -> Verdict
    ensures known { IsKnown problem.now.netlist.circuit problem.now.liveness.fairness.items property.now result }
    ensures shown { IsShown problem.now.netlist.circuit problem.now.liveness.fairness.items property.now result }
{
    if is_over || observer.note(Event::Begin(place)).is_break() {
        return Verdict::Unknown;
    }
    let (netlist, fairness) = (&problem.netlist, &problem.liveness.fairness);
    match decide_live::<S, _>(alloc, netlist, fairness, property, plan, observer) {
        Ok(verdict) => {
            let _ = observer.note(Event::End { is_refused: false });
            verdict_by(verdict)
        }
        Err(_) => {
            let _ = observer.note(Event::End { is_refused: true });
            Verdict::Unknown
        }
    }
}

// What an engine found out, as a verdict.
fn verdict_by(verdict: liveness::Verdict) -> Verdict
    ensures { result ≡ verdict_by verdict }
{
    match verdict {
        liveness::Verdict::Fails(lasso) => Verdict::Fails(lasso.trace),
        liveness::Verdict::Live(means, invariant) => {
            Verdict::Holds(Evidence::Longer(means, invariant))
        }
        liveness::Verdict::Unknown => Verdict::Unknown,
    }
}
