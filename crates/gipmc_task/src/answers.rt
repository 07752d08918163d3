//! Answers about the bad literals of a circuit, as texts.
ghost use Rattle.std.specs.Prelude.{◌≡◌, ℕ, ◌<◌, ◌++◌, ◌∷◌, [], length, slice_get, Some, None, IfOk};
ghost use Rattle.gipmc_aiger.specs.Lists.{Every};
ghost use Rattle.gipmc_aiger.specs.declared.problem.Problem.{Problem};
ghost use Rattle.gipmc_aiger.specs.declared.problem.Property.TheVariants.{Bad};
ghost use Rattle.gipmc_aiger.specs.declared.problem.Subject.TheVariants.{Any, One};
ghost use Rattle.gipmc_task.specs.Answers.{AreAsked, AreClear, Tells, TellsAll, TellsAny, TellsAsked, TellsFirst};
ghost use Rattle.gipmc_task.specs.Answers.{TellsOne};
ghost use Rattle.gipmc_task.specs.Left.{StandFor};
ghost use Rattle.gipmc_task.specs.Output.{IsWritten};
ghost use Rattle.gipmc_task.specs.Verdicts.{answer_text, depth_text, depths_text, texts_of, together};
ghost use Rattle.gipmc_task.specs.Witnesses.{Replays};
ghost use Rattle.gipmc_task.specs.declared.kind.PropertyKind.TheVariants as kind;
ghost use Rattle.gipmc_task.specs.declared.outcome.Outcome.TheVariants.{Fails};

use crate::answered::{Answered, depth_text, one, tell, tell_behind};
use crate::any::find_any;
use crate::error::TaskError;
use crate::kind::PropertyKind;
use crate::known::tell_known;
use crate::output::{AnswerOrder, Output, Wanted};
use crate::parted::{Parted, part_of};
use crate::query::Query;
use crate::verdict::Verdict;
use gipmc_aiger::{Property, Subject};
use gipmc_circuits::Netlist;
use gipmc_engines::{Event, Observer, Plan};
use gipmc_reduce::Cone;
use gipsat_cnf::{Literal, SatSolver};
use std::alloc::{AllocError, Global};
use std::io::Write;

/// What is found out about the bad literals of a circuit.
pub struct Said {
    /// The answers, in the order in which they were written.
    pub answers: Vec<Answered>,
    /// The clauses of the invariant that was found, over the circuit's variables.
    pub invariant: Vec<Vec<Literal>>,
    /// The greatest k for which a literal was found to be k-inductive, if one was. Each that was is so for it too.
    pub k: Option<usize>,
}

// One call in its owners' proofs, in place of one for each field.
impl Drop for Said {
    fn drop(self) {
        let Said {
            answers,
            invariant,
            k: _,
        } = self;
    }
}

/// Answers about the bad literals of a circuit that are asked about: about none where a justice property is. One search
/// is about all of them. Each answer is written as soon as it is found and, where the output's order is that of the
/// places, all before it are. Where a write fails no more is written; whether the search then stops, and leaves the other
/// literals open, the output says.
///
/// Where any is asked about, the one answer is about the literal whose trace is found first; where none is found, about
/// the first of those of which least is known. So it is safe where all are.
///
/// # Errors
/// - [`TaskError::NoProperty`] where there is no bad literal at the place, and [`TaskError::NoProperties`] where one is
///   asked about, or any, and there is none at all.
/// - [`TaskError::Memory`] where memory is refused for a text. A search that is refused memory leaves the literals open
///   that are not decided.
pub fn answer<S: SatSolver + Drop, O: Observer, W: Write>(
    alloc: Global,
    netlist: &Netlist,
    asked: Subject,
    plan: &Plan,
    observer: &mut O,
    output: &mut Output<W>,
) -> Result<Said, TaskError>
    ensures tells { IfOk result (λ said. TellsAsked netlist.now.circuit asked output.old.order said.answers.items) }
    ensures witness { (p : Problem) (place : ℕ) → p.netlist ≡ netlist.now → asked ≡ One (Bad place) →
        IfOk result (λ said. together said.answers.items ≡ Fails →
        Replays p kind.Bad (texts_of said.answers.items) (Some place)) }
    ensures any { (p : Problem) → p.netlist ≡ netlist.now → asked ≡ Any →
        IfOk result (λ said. together said.answers.items ≡ Fails →
        Replays p kind.Bad (texts_of said.answers.items) None) }
    ensures written { IfOk result (λ said. IsWritten output.old.failure output.new.failure
        (W.contents output.old.writer) (W.contents output.new.writer) (texts_of said.answers.items)) }
{
    answer_asked::<S, _, _>(alloc, netlist, asked, plan, observer, output)
}

// The same, by what is asked about.
fn answer_asked<S: SatSolver + Drop, O: Observer, W: Write>(
    alloc: Global,
    netlist: &Netlist,
    asked: Subject,
    plan: &Plan,
    observer: &mut O,
    output: &mut Output<W>,
) -> Result<Said, TaskError>
    ensures tells { IfOk result (λ said. TellsAsked netlist.now.circuit asked output.old.order said.answers.items) }
    ensures written { IfOk result (λ said. IsWritten output.old.failure output.new.failure
        (W.contents output.old.writer) (W.contents output.new.writer) (texts_of said.answers.items)) }
{
    let bads = &netlist.circuit.bads;
    match asked {
        Subject::All => {
            Ok(answer_about::<S, _, _>(alloc, netlist, bads, asked, plan, observer, output)?)
        }
        Subject::Any if bads.is_empty() => Err(TaskError::NoProperties(PropertyKind::Bad)),
        Subject::Any => {
            let plan = to_first_trace(plan);
            Ok(answer_about::<S, _, _>(alloc, netlist, bads, asked, &plan, observer, output)?)
        }
        Subject::One(Property::Bad(place)) if place < bads.len() => {
            let bads = [bads[place]];
            Ok(answer_about::<S, _, _>(alloc, netlist, &bads, asked, plan, observer, output)?)
        }
        Subject::One(Property::Bad(place)) => {
            Err(TaskError::lacking(PropertyKind::Bad, Some(place), bads.len()))
        }
        Subject::One(Property::Justice(_)) => Ok(said_by(alloc, Vec::new(alloc))),
    }
}

// What is said by these answers, without an invariant.
fn said_by(alloc: Global, answers: Vec<Answered>) -> Said
    ensures { result.answers.items ≡ answers.items }
{
    Said {
        answers,
        invariant: Vec::new(alloc),
        k: None,
    }
}

// The same plan, for a search that the first trace ends.
fn to_first_trace(plan: &Plan) -> Plan {
    Plan {
        ends_at_trace: true,
        ..*plan
    }
}

// Answers about the bad literals that are asked for: these.
fn answer_about<S: SatSolver + Drop, O: Observer, W: Write>(
    alloc: Global,
    netlist: &Netlist,
    bads: &[Literal],
    asked: Subject,
    plan: &Plan,
    observer: &mut O,
    output: &mut Output<W>,
) -> Result<Said, AllocError>
    requires { AreAsked netlist.now.circuit asked bads.now }
    ensures tells { IfOk result (λ said. TellsAsked netlist.now.circuit asked output.old.order said.answers.items) }
    ensures written { IfOk result (λ said. IsWritten output.old.failure output.new.failure
        (W.contents output.old.writer) (W.contents output.new.writer) (texts_of said.answers.items)) }
{
    match part_of(alloc, netlist, bads) {
        Some(part) => answer_by::<S, _, _>(
            alloc, netlist, bads, asked, &part, plan, observer, output,
        ),
        None => leave(alloc, netlist, asked, observer, output),
    }
}

// The same, by the part of the circuit that they depend on.
fn answer_by<S: SatSolver + Drop, O: Observer, W: Write>(
    alloc: Global,
    netlist: &Netlist,
    bads: &[Literal],
    asked: Subject,
    part: &Cone,
    plan: &Plan,
    observer: &mut O,
    output: &mut Output<W>,
) -> Result<Said, AllocError>
    requires asked { AreAsked netlist.now.circuit asked bads.now }
    requires part { StandFor part.now.netlist.circuit part.now.netlist.circuit.bads.items
        netlist.now.circuit bads.now }
    ensures tells { IfOk result (λ said. TellsAsked netlist.now.circuit asked output.old.order said.answers.items) }
    ensures written { IfOk result (λ said. IsWritten output.old.failure output.new.failure
        (W.contents output.old.writer) (W.contents output.new.writer) (texts_of said.answers.items)) }
{
    match Parted::<S>::new(alloc, netlist, bads, part, plan) {
        Ok(parted) => answer_with(alloc, parted, asked, plan, observer, output),
        Err(_) => leave(alloc, netlist, asked, observer, output),
    }
}

// The same, by a search in that part: in what is left of it where equal variables are merged, if that is much smaller.
fn answer_with<S: SatSolver + Drop, O: Observer, W: Write>(
    alloc: Global,
    parted: Parted<'_, S>,
    asked: Subject,
    plan: &Plan,
    observer: &mut O,
    output: &mut Output<W>,
) -> Result<Said, AllocError>
    requires { AreAsked parted.whole.now.circuit asked parted.bads.now }
    ensures tells { IfOk result
        (λ said. TellsAsked parted.entry.whole.now.circuit asked output.old.order said.answers.items) }
    ensures written { IfOk result (λ said. IsWritten output.old.failure output.new.failure
        (W.contents output.old.writer) (W.contents output.new.writer) (texts_of said.answers.items)) }
{
    let mut slot = None;
    let mut query = Query::new(parted, &mut slot, plan, output.certifying);
    say(alloc, &mut query, asked, observer, output)
}

// Says what is told of the literals that are asked for, about which a search is.
fn say<S: SatSolver + Drop, O: Observer, W: Write>(
    alloc: Global,
    query: &mut Query<'_, S>,
    asked: Subject,
    observer: &mut O,
    output: &mut Output<W>,
) -> Result<Said, AllocError>
    requires { AreAsked query.old.whole.now.circuit asked query.old.bads.now }
    ensures tells { IfOk result
        (λ said. TellsAsked query.old.whole.now.circuit asked output.old.order said.answers.items) }
    ensures written { IfOk result (λ said. IsWritten output.old.failure output.new.failure
        (W.contents output.old.writer) (W.contents output.new.writer) (texts_of said.answers.items)) }
{
    match asked {
        Subject::All => say_all(alloc, query, observer, output),
        Subject::Any => say_any(alloc, query, observer, output),
        Subject::One(Property::Bad(place)) => say_one(alloc, query, place, observer, output),
        Subject::One(Property::Justice(_)) => Ok(said_by(alloc, Vec::new(alloc))),
    }
}

// Says what is told of all literals that a search is about, those of its circuit.
fn say_all<S: SatSolver + Drop, O: Observer, W: Write>(
    alloc: Global,
    query: &mut Query<'_, S>,
    observer: &mut O,
    output: &mut Output<W>,
) -> Result<Said, AllocError>
    requires { query.old.bads.now ≡ query.old.whole.now.circuit.bads.items }
    ensures tells { IfOk result (λ said. TellsAll output.old.order
        (Tells query.old.whole.now.circuit) (length query.old.bads.now) said.answers.items) }
    ensures written { IfOk result (λ said. IsWritten output.old.failure output.new.failure
        (W.contents output.old.writer) (W.contents output.new.writer) (texts_of said.answers.items)) }
{
    let answers = tell_all(alloc, query, observer, output)?;
    Ok(Said {
        answers,
        invariant: query.invariant(alloc),
        k: query.k(),
    })
}

// Says what is told of the only literal that a search is about, the bad one at a place of its circuit.
fn say_one<S: SatSolver + Drop, O: Observer, W: Write>(
    alloc: Global,
    query: &mut Query<'_, S>,
    place: usize,
    observer: &mut O,
    output: &mut Output<W>,
) -> Result<Said, AllocError>
    requires within { 0 < length query.old.bads.now }
    requires same { slice_get query.old.whole.now.circuit.bads.items place ≡ slice_get query.old.bads.now 0 }
    ensures tells { IfOk result (λ said. TellsOne (Tells query.old.whole.now.circuit place) said.answers.items) }
    ensures written { IfOk result (λ said. IsWritten output.old.failure output.new.failure
        (W.contents output.old.writer) (W.contents output.new.writer) (texts_of said.answers.items)) }
{
    let answer = tell_at(alloc, query, 0, place, observer, output)?;
    let answers = one(alloc, answer)?;
    Ok(Said {
        answers,
        invariant: query.invariant(alloc),
        k: query.k(),
    })
}

// Says whether any of the literals fails that a search is about, those of its circuit.
fn say_any<S: SatSolver + Drop, O: Observer, W: Write>(
    alloc: Global,
    query: &mut Query<'_, S>,
    observer: &mut O,
    output: &mut Output<W>,
) -> Result<Said, AllocError>
    requires all { query.old.bads.now ≡ query.old.whole.now.circuit.bads.items }
    requires some { 0 < length query.old.bads.now }
    ensures tells { IfOk result (λ said. TellsOne (TellsAny query.old.whole.now.circuit) said.answers.items) }
    ensures written { IfOk result (λ said. IsWritten output.old.failure output.new.failure
        (W.contents output.old.writer) (W.contents output.new.writer) (texts_of said.answers.items)) }
{
    let answer = tell_any(alloc, query, observer, output)?;
    let answers = one(alloc, answer)?;
    Ok(Said {
        answers,
        invariant: query.invariant(alloc),
        k: query.k(),
    })
}

// Tells of the one of them that stands for all.
fn tell_any<S: SatSolver + Drop, O: Observer, W: Write>(
    alloc: Global,
    query: &mut Query<'_, S>,
    observer: &mut O,
    output: &mut Output<W>,
) -> Result<Answered, AllocError>
    requires all { query.old.bads.now ≡ query.old.whole.now.circuit.bads.items }
    requires some { 0 < length query.old.bads.now }
    ensures tells { IfOk result (TellsAny query.old.whole.now.circuit) }
    ensures written { IfOk result (λ a. IsWritten output.old.failure output.new.failure
        (W.contents output.old.writer) (W.contents output.new.writer) (answer_text a)) }
{
    let found = find_any(alloc, query, output.wanted(), observer);
    let property = Property::Bad(found.place);
    tell(alloc, property, found.known, observer, output)
}

// Tells of all literals that a search is about, those of its circuit, in the order that the output says.
fn tell_all<S: SatSolver + Drop, O: Observer, W: Write>(
    alloc: Global,
    query: &mut Query<'_, S>,
    observer: &mut O,
    output: &mut Output<W>,
) -> Result<Vec<Answered>, AllocError>
    requires { query.old.bads.now ≡ query.old.whole.now.circuit.bads.items }
    ensures tells { IfOk result (λ answers. TellsAll output.old.order
        (Tells query.old.whole.now.circuit) (length query.old.bads.now) answers.items) }
    ensures written { IfOk result (λ answers. IsWritten output.old.failure output.new.failure
        (W.contents output.old.writer) (W.contents output.new.writer) (texts_of answers.items)) }
{
    match output.order {
        AnswerOrder::Places => tell_in_turn(alloc, query, observer, output),
        AnswerOrder::Known => tell_known(alloc, query, observer, output),
    }
}

// Tells of each of them in turn.
fn tell_in_turn<S: SatSolver + Drop, O: Observer, W: Write>(
    alloc: Global,
    query: &mut Query<'_, S>,
    observer: &mut O,
    output: &mut Output<W>,
) -> Result<Vec<Answered>, AllocError>
    requires { query.old.bads.now ≡ query.old.whole.now.circuit.bads.items }
    ensures tells { IfOk result (λ answers.
        TellsFirst (Tells query.old.whole.now.circuit) (length query.old.bads.now) answers.items) }
    ensures written { IfOk result (λ answers. IsWritten output.old.failure output.new.failure
        (W.contents output.old.writer) (W.contents output.new.writer) (texts_of answers.items)) }
{
    let mut answers = Vec::new(alloc);
    for place in 0..query.bads.len() {
        let answer = tell_at(alloc, query, place, place, observer, output)?;
        answers.reserve(1)?;
        answers.push_reserved(answer);
    }
    Ok(answers)
}

/// Tells of the literal at one of a search's places, which is the bad one at a place of the circuit.
pub(crate) fn tell_at<S: SatSolver + Drop, O: Observer, W: Write>(
    alloc: Global,
    query: &mut Query<'_, S>,
    at: usize,
    place: usize,
    observer: &mut O,
    output: &mut Output<W>,
) -> Result<Answered, AllocError>
    requires within { at < length query.old.bads.now }
    requires same { slice_get query.old.whole.now.circuit.bads.items place ≡ slice_get query.old.bads.now at }
    ensures whole { query.new.whole ≡ query.old.whole }
    ensures bads { query.new.bads ≡ query.old.bads }
    ensures tells { IfOk result (Tells query.old.whole.now.circuit place) }
    ensures written { IfOk result (λ a. IsWritten output.old.failure output.new.failure
        (W.contents output.old.writer) (W.contents output.new.writer) (answer_text a)) }
{
    let bad = query.bads[at];
    let wanted = wanted_at(place, output.wanted(), observer);
    let depths = tell_depths(alloc, query, at, bad, wanted, observer, output)?;
    let wanted = wanted_still(wanted, output, observer);
    let known = query.find_out(alloc, at, wanted, observer);
    let property = Property::Bad(place);
    tell_behind(alloc, property, depths, known, observer, output)
}

/// What is to be found out of the literal at a place: nothing if the search is over, or an observer has no time for it.
pub(crate) fn wanted_at<O: Observer>(place: usize, wanted: Wanted, observer: &mut O) -> Wanted {
    if wanted == Wanted::Nothing || observer.note(Event::Begin(place)).is_break() {
        return Wanted::Nothing;
    }
    wanted
}

// What is to be found out yet where this was, and progress was written: nothing if the search is over since then.
fn wanted_still<O: Observer, W: Write>(
    wanted: Wanted,
    output: &Output<W>,
    observer: &mut O,
) -> Wanted {
    if wanted == Wanted::Nothing || !output.is_over() {
        return wanted;
    }
    let _ = observer.note(Event::End { is_refused: false });
    Wanted::Nothing
}

// How often a number can be doubled.
const DOUBLINGS: usize = 64;

// Goes on with the search about the literal at one of its places, if progress is to be written, and tells up to which
// depths nothing fails, each of which is more than twice the one before. It stops where a write ends the search.
fn tell_depths<S: SatSolver + Drop, O: Observer, W: Write>(
    alloc: Global,
    query: &mut Query<'_, S>,
    at: usize,
    bad: Literal,
    wanted: Wanted,
    observer: &mut O,
    output: &mut Output<W>,
) -> Result<Vec<usize>, AllocError>
    requires { slice_get query.old.bads.now at ≡ Some bad }
    ensures whole { query.new.whole ≡ query.old.whole }
    ensures bads { query.new.bads ≡ query.old.bads }
    ensures depths { IfOk result (λ depths. AreClear query.old.whole.now.circuit bad depths.items) }
    ensures written { IfOk result (λ depths. IsWritten output.old.failure output.new.failure
        (W.contents output.old.writer) (W.contents output.new.writer) (depths_text depths.items)) }
{
    let _of = bad;
    let mut depths = Vec::new(alloc);
    if wanted == Wanted::Nothing || !output.progress {
        return Ok(depths);
    }
    let mut next: usize = 0;
    for _ in 0..DOUBLINGS {
        if output.is_over() {
            return Ok(depths);
        }
        let Some(depth) = query.clear(alloc, at, next, observer) else {
            return Ok(depths);
        };
        depths.push(depth)?;
        output.tell(&depth_text(alloc, depth)?);
        next = depth.saturating_mul(2).saturating_add(1);
    }
    Ok(depths)
}

// Leaves the bad literals that are asked for open: there is no memory for a search.
fn leave<O: Observer, W: Write>(
    alloc: Global,
    netlist: &Netlist,
    asked: Subject,
    observer: &mut O,
    output: &mut Output<W>,
) -> Result<Said, AllocError>
    requires one { (place : ℕ) → asked ≡ One (Bad place) → place < length netlist.now.circuit.bads.items }
    requires any { asked ≡ Any → 0 < length netlist.now.circuit.bads.items }
    ensures tells { IfOk result (λ said. TellsAsked netlist.now.circuit asked output.old.order said.answers.items) }
    ensures written { IfOk result (λ said. IsWritten output.old.failure output.new.failure
        (W.contents output.old.writer) (W.contents output.new.writer) (texts_of said.answers.items)) }
{
    match asked {
        Subject::All => leave_all(alloc, netlist, observer, output),
        Subject::Any => leave_one(alloc, netlist, 0, observer, output),
        Subject::One(Property::Bad(place)) => leave_one(alloc, netlist, place, observer, output),
        Subject::One(Property::Justice(_)) => Ok(said_by(alloc, Vec::new(alloc))),
    }
}

// Leaves all of them open.
fn leave_all<O: Observer, W: Write>(
    alloc: Global,
    netlist: &Netlist,
    observer: &mut O,
    output: &mut Output<W>,
) -> Result<Said, AllocError>
    ensures tells { IfOk result (λ said. TellsAll output.old.order
        (Tells netlist.now.circuit) (length netlist.now.circuit.bads.items) said.answers.items) }
    ensures written { IfOk result (λ said. IsWritten output.old.failure output.new.failure
        (W.contents output.old.writer) (W.contents output.new.writer) (texts_of said.answers.items)) }
{
    let mut answers = Vec::new(alloc);
    for place in 0..netlist.circuit.bads.len() {
        let answer = leave_at(alloc, netlist, place, observer, output)?;
        answers.reserve(1)?;
        answers.push_reserved(answer);
    }
    Ok(said_by(alloc, answers))
}

// Leaves one of them open.
fn leave_one<O: Observer, W: Write>(
    alloc: Global,
    netlist: &Netlist,
    place: usize,
    observer: &mut O,
    output: &mut Output<W>,
) -> Result<Said, AllocError>
    requires { place < length netlist.now.circuit.bads.items }
    ensures tells { IfOk result (λ said. TellsOne (Tells netlist.now.circuit place) said.answers.items) }
    ensures any { IfOk result (λ said. TellsOne (TellsAny netlist.now.circuit) said.answers.items) }
    ensures written { IfOk result (λ said. IsWritten output.old.failure output.new.failure
        (W.contents output.old.writer) (W.contents output.new.writer) (texts_of said.answers.items)) }
{
    let answer = leave_at(alloc, netlist, place, observer, output)?;
    let answers = one(alloc, answer)?;
    Ok(said_by(alloc, answers))
}

// Tells that one of them is open.
fn leave_at<O: Observer, W: Write>(
    alloc: Global,
    netlist: &Netlist,
    place: usize,
    observer: &mut O,
    output: &mut Output<W>,
) -> Result<Answered, AllocError>
    requires { place < length netlist.now.circuit.bads.items }
    ensures tells { IfOk result (Tells netlist.now.circuit place) }
    ensures any { IfOk result (TellsAny netlist.now.circuit) }
    ensures written { IfOk result (λ a. IsWritten output.old.failure output.new.failure
        (W.contents output.old.writer) (W.contents output.new.writer) (answer_text a)) }
{
    let _bad = netlist.circuit.bads[place];
    note_refused(place, output.is_over(), observer);
    let (property, open) = (Property::Bad(place), Verdict::Unknown);
    tell(alloc, property, open, observer, output)
}

// Tells an observer that memory is refused for the search about the bad literal at a place, unless it is over.
fn note_refused<O: Observer>(place: usize, is_over: bool, observer: &mut O) {
    if is_over || observer.note(Event::Begin(place)).is_break() {
        return;
    }
    let _ = observer.note(Event::End { is_refused: true });
}
