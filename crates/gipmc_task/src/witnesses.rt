//! Witnesses that properties fail, as texts.
ghost use Rattle.std.specs.Prelude.{◌≡◌, ◌==◌, ◌<◌, ◌∷◌, [], length, map, IfNone, IfOk, IsTrue, None, Some};
ghost use Rattle.std.specs.List.{list_any};
ghost use Rattle.gipmc_aiger.specs.Prelude.{Every, claims_view};
ghost use Rattle.gipmc_task.specs.Kinds.{count_of};
ghost use Rattle.gipmc_task.specs.Witnesses.{AreWitnessesIn, FailsAt, IsRight, Replays, ReplaysAll};
ghost use Rattle.gipmc_task.specs.Witnesses.{claimed, claims_by, names_asked, names_place};
ghost use Rattle.gipmc_task.specs.declared.kind.PropertyKind.TheVariants as kind;

use crate::error::TaskError;
use crate::kind::{PropertyKind, PropertyName};
use gipmc_aiger::{AigerError, Claim, Problem, Property, read_claims, read_lassos};
use gipmc_circuits::{Circuit, Netlist, Trace, TraceDoubt, replay, trace_doubt};
use gipmc_reduce::closed;
use gipsat_cnf::Literal;
use std::alloc::{AllocError, Global};
use std::fmt::{self, Display};

/// Why a trace shows no failure of a property. Moments, literals and constraints are counted from 0.
#[derive(Clone, Copy, Debug, PartialEq, Eq)]
pub enum WitnessReason {
    /// It is no trace of the circuit, or its last moment is not bad.
    Trace(TraceDoubt),
    /// Its last moment leads back to none of its moments.
    Open,
    /// From the moment that stands first on, where the loop begins, this literal of the justice property is false.
    Literal(usize, usize),
    /// From the moment that stands first on, where the loop begins, this fairness constraint is false.
    Fairness(usize, usize),
}

/// The reason, in words.
impl Display for WitnessReason {
    fn fmt<W: fmt::Write>(&self, f: &mut fmt::Formatter<W>) -> fmt::Result {
        match self {
            WitnessReason::Trace(doubt) => write!(f, "{doubt}"),
            WitnessReason::Open => {
                f.write_str("behind the last moment the latches hold what they held at none before")
            }
            WitnessReason::Literal(start, place) => write!(
                f,
                "literal {place} is false from moment {start} on, where the loop begins"
            ),
            WitnessReason::Fairness(start, place) => write!(
                f,
                "fairness constraint {place} is false from moment {start} on, where the loop begins"
            ),
        }
    }
}

/// Which witness shows no failure of a property, and why.
#[derive(Clone, Copy, Debug, PartialEq, Eq)]
pub struct WitnessDoubt {
    /// Which of the witnesses of the text it is among those of properties of its kind, counted from 1.
    pub witness: usize,
    /// The property.
    pub property: Property,
    /// Why the trace does not show that it fails. Nothing is proved of this.
    pub reason: WitnessReason,
}

/// A line that says which witness, which property, and what is wrong.
impl Display for WitnessDoubt {
    fn fmt<W: fmt::Write>(&self, f: &mut fmt::Formatter<W>) -> fmt::Result {
        let name = PropertyName(self.property);
        write!(f, "witness {}, {name}: {}", self.witness, self.reason)
    }
}

/// Whether each trace that the witnesses of a text write shows that properties of a kind fail, as [`witness_doubt`] finds
/// out.
///
/// # Errors
/// Those of [`witness_doubt`].
pub fn replays(
    alloc: Global,
    problem: &Problem,
    kind: PropertyKind,
    text: &[u8],
    asked: Option<usize>,
) -> Result<bool, TaskError>
    ensures { IfOk result (λ fails. IsTrue fails → Replays problem.now kind text.now asked) }
{
    match witness_doubt(alloc, problem, kind, text, asked)? {
        None => Ok(true),
        Some(_) => Ok(false),
    }
}

/// Why one of the witnesses of a text shows no failure of a property of this kind: of the one at the place that is asked
/// for, if the witness names it, or of each that it names. None if all do. A witness without names, as abc writes it of
/// a bad literal, stands for what is asked for, or for the first one.
///
/// # Errors
/// - [`TaskError::Witness`] where the text has another form.
/// - [`TaskError::NoProperties`] and [`TaskError::NoProperty`] where the circuit has no property of this kind, or not the
///   one that is asked for.
/// - [`TaskError::NoWitness`] and [`TaskError::NoWitnessOf`] where the text has no witness, or none of what is asked
///   for.
/// - [`TaskError::OtherProperty`] where the circuit has not the property that a witness names.
/// - [`TaskError::Memory`] where memory is refused.
pub fn witness_doubt(
    alloc: Global,
    problem: &Problem,
    kind: PropertyKind,
    text: &[u8],
    asked: Option<usize>,
) -> Result<Option<WitnessDoubt>, TaskError>
    ensures { IfOk result (λ doubt. IfNone doubt (Replays problem.now kind text.now asked)) }
{
    kind.has(problem, asked)?;
    let claims = claims_in(alloc, &problem.netlist.circuit, kind, text)?;
    if !name_asked(&claims, asked) {
        return Err(unnamed(kind, asked));
    }
    first_doubt(alloc, problem, kind, &claims, asked)
}

/// How many witnesses of properties of this kind a text has, and why one of them shows no failure of one that it names.
/// None if all do. There may be no witness, and then no property; else this is what [`witness_doubt`] finds out where
/// none is asked for.
///
/// # Errors
/// Those of [`witness_doubt`] but for the lack of a witness.
pub fn replay_all(
    alloc: Global,
    problem: &Problem,
    kind: PropertyKind,
    text: &[u8],
) -> Result<(usize, Option<WitnessDoubt>), TaskError>
    ensures { IfOk result (λ found. IfNone found.1 (ReplaysAll problem.now kind text.now found.0)) }
{
    let claims = claims_in(alloc, &problem.netlist.circuit, kind, text)?;
    has_claimed(problem, kind, &claims)?;
    let doubt = first_doubt(alloc, problem, kind, &claims, None)?;
    Ok((claims.len(), doubt))
}

// Tests that the problem has a property of this kind, if there is a witness of one.
fn has_claimed(problem: &Problem, kind: PropertyKind, claims: &[Claim]) -> Result<(), TaskError> {
    if claims.is_empty() {
        return Ok(());
    }
    kind.has(problem, None)
}

// Why no witness is one of what is asked for.
fn unnamed(kind: PropertyKind, asked: Option<usize>) -> TaskError {
    match asked {
        Some(place) => TaskError::NoWitnessOf(kind, place),
        None => TaskError::NoWitness,
    }
}

// What the witnesses of a text claim of the circuit's properties of a kind.
fn claims_in(
    alloc: Global,
    circuit: &Circuit,
    kind: PropertyKind,
    text: &[u8],
) -> Result<Vec<Claim>, TaskError>
    ensures { IfOk result (λ claims.
        AreWitnessesIn circuit.now kind text.now (map (λ x. (x.properties.items, x.trace)) claims.items)) }
{
    let (latches, inputs) = (circuit.latches.len(), circuit.inputs.len());
    match read_by(alloc, kind, latches, inputs, text) {
        Ok(claims) => Ok(claims),
        Err(error) => Err(TaskError::of_witness(error)),
    }
}

// Reads them for so many latches and inputs.
fn read_by(
    alloc: Global,
    kind: PropertyKind,
    latches: usize,
    inputs: usize,
    text: &[u8],
) -> Result<Vec<Claim>, AigerError>
    ensures { IfOk result (λ claims. claims_by kind latches inputs text.now ≡ Some (claims_view claims.items)) }
{
    match kind {
        PropertyKind::Bad => read_claims(alloc, latches, inputs, text),
        PropertyKind::Justice => read_lassos(alloc, latches, inputs, text),
    }
}

// Whether a witness is one of what is asked for.
fn name_asked(claims: &[Claim], asked: Option<usize>) -> bool
    ensures { result ≡ list_any (λ x. names_asked x.properties.items asked) claims.now }
{
    claims
        .iter()
        .any(|claim| names_asked(&claim.properties, asked))
}

// Whether a witness of these names is one of the property that is asked for, if one is.
fn names_asked(names: &[u32], asked: Option<usize>) -> bool
    ensures { result ≡ names_asked names.now asked }
{
    match asked {
        None => true,
        Some(place) => names_place(names, place),
    }
}

// Whether a witness of these names is one of the property at a place.
fn names_place(names: &[u32], place: usize) -> bool
    ensures { result ≡ names_place names.now place }
{
    names.is_empty() || is_one_of(names, place)
}

// Whether a place is one of these.
fn is_one_of(places: &[u32], place: usize) -> bool
    ensures { result ≡ list_any (λ n. n == place) places.now }
{
    places.iter().any(|n| *n as usize == place)
}

// Why one of some witnesses shows no failure. None if all do, here and below.
fn first_doubt(
    alloc: Global,
    problem: &Problem,
    kind: PropertyKind,
    claims: &[Claim],
    asked: Option<usize>,
) -> Result<Option<WitnessDoubt>, TaskError>
    ensures { IfOk result (λ doubt. IfNone doubt
        (Every (λ x. IsRight problem.now kind asked (x.properties.items, x.trace)) claims.now)) }
{
    for place in 0..claims.len() {
        if let Some(doubt) = claim_doubt(alloc, problem, kind, &claims[place], asked)? {
            let witness = place.saturating_add(1);
            return Ok(Some(WitnessDoubt { witness, ..doubt }));
        }
    }
    Ok(None)
}

// Why a witness shows no failure, as the first one of its text.
fn claim_doubt(
    alloc: Global,
    problem: &Problem,
    kind: PropertyKind,
    claim: &Claim,
    asked: Option<usize>,
) -> Result<Option<WitnessDoubt>, TaskError>
    ensures { IfOk result (λ doubt. IfNone doubt
        (IsRight problem.now kind asked (claim.now.properties.items, claim.now.trace))) }
{
    match asked {
        None => doubt_at_named(alloc, problem, kind, &claim.properties, &claim.trace),
        Some(place) => doubt_at_asked(alloc, problem, kind, &claim.properties, place, &claim.trace),
    }
}

// Why a trace shows no failure of the properties that a witness of these names has to show.
fn doubt_at_named(
    alloc: Global,
    problem: &Problem,
    kind: PropertyKind,
    names: &[u32],
    trace: &Trace,
) -> Result<Option<WitnessDoubt>, TaskError>
    ensures { IfOk result (λ doubt. IfNone doubt
        (Every (FailsAt problem.now kind trace.now) (claimed names.now None))) }
{
    if names.is_empty() {
        return doubt_at(alloc, problem, kind, 0, trace);
    }
    doubt_at_each(alloc, problem, kind, names, trace)
}

// The same where this one is asked for.
fn doubt_at_asked(
    alloc: Global,
    problem: &Problem,
    kind: PropertyKind,
    names: &[u32],
    asked: usize,
    trace: &Trace,
) -> Result<Option<WitnessDoubt>, TaskError>
    ensures { IfOk result (λ doubt. IfNone doubt
        (Every (FailsAt problem.now kind trace.now) (claimed names.now (Some asked)))) }
{
    if !names_place(names, asked) {
        return Ok(None);
    }
    doubt_at(alloc, problem, kind, asked, trace)
}

// Why a trace shows no failure of one of the properties at these places.
fn doubt_at_each(
    alloc: Global,
    problem: &Problem,
    kind: PropertyKind,
    places: &[u32],
    trace: &Trace,
) -> Result<Option<WitnessDoubt>, TaskError>
    ensures { IfOk result (λ doubt. IfNone doubt (Every (FailsAt problem.now kind trace.now) places.now)) }
{
    for k in 0..places.len() {
        if let Some(doubt) = doubt_at(alloc, problem, kind, places[k] as usize, trace)? {
            return Ok(Some(doubt));
        }
    }
    Ok(None)
}

// Why a trace shows no failure of the property at a place.
fn doubt_at(
    alloc: Global,
    problem: &Problem,
    kind: PropertyKind,
    place: usize,
    trace: &Trace,
) -> Result<Option<WitnessDoubt>, TaskError>
    ensures { IfOk result (λ doubt. IfNone doubt (Every (FailsAt problem.now kind trace.now) (place ∷ []))) }
{
    let count = kind.count(problem);
    if place >= count {
        return Err(TaskError::OtherProperty(kind, place, count));
    }
    if fails_at(alloc, problem, kind, place, trace)? {
        return Ok(None);
    }
    let property = kind.at(place);
    let reason = reason_of(alloc, problem, property, trace)?;
    Ok(Some(WitnessDoubt {
        witness: 1,
        property,
        reason,
    }))
}

// Whether the property at a place fails by the trace.
fn fails_at(
    alloc: Global,
    problem: &Problem,
    kind: PropertyKind,
    place: usize,
    trace: &Trace,
) -> Result<bool, AllocError>
    requires { place < count_of problem.now kind }
    ensures { IfOk result (λ fails. IsTrue fails → FailsAt problem.now kind trace.now place) }
{
    match kind {
        PropertyKind::Bad => is_bad_at(alloc, problem, place, trace),
        PropertyKind::Justice => is_lasso_at(alloc, problem, place, trace),
    }
}

// Whether the bad literal at a place fails by the trace.
fn is_bad_at(
    alloc: Global,
    problem: &Problem,
    place: usize,
    trace: &Trace,
) -> Result<bool, AllocError>
    requires { place < length problem.now.netlist.circuit.bads.items }
    ensures { IfOk result (λ fails. IsTrue fails → FailsAt problem.now kind.Bad trace.now place) }
{
    let bad = problem.netlist.circuit.bads[place];
    replay(alloc, &problem.netlist, bad, trace)
}

// Whether the justice property at a place fails by the trace.
fn is_lasso_at(
    alloc: Global,
    problem: &Problem,
    place: usize,
    trace: &Trace,
) -> Result<bool, AllocError>
    requires { place < length problem.now.liveness.justice.items }
    ensures { IfOk result (λ fails. IsTrue fails → FailsAt problem.now kind.Justice trace.now place) }
{
    let (fairness, justice) = (&problem.liveness.fairness, &problem.liveness.justice[place]);
    match closed(alloc, &problem.netlist, fairness, justice, trace)? {
        Some(_) => Ok(true),
        None => Ok(false),
    }
}

// Why the trace shows no failure of the property, where it shows none.
fn reason_of(
    alloc: Global,
    problem: &Problem,
    property: Property,
    trace: &Trace,
) -> Result<WitnessReason, AllocError> {
    let (netlist, liveness) = (&problem.netlist, &problem.liveness);
    if let Some(doubt) = trace_doubt(alloc, netlist, last_of(problem, property), trace)? {
        return Ok(WitnessReason::Trace(doubt));
    }
    let Some(start) = closed(alloc, netlist, &[], &[], trace)? else {
        return Ok(WitnessReason::Open);
    };
    if let Some(unmet) = unmet_in(alloc, netlist, justice_of(problem, property), trace)? {
        return Ok(WitnessReason::Literal(start, unmet));
    }
    let unmet = unmet_in(alloc, netlist, &liveness.fairness, trace)?;
    Ok(WitnessReason::Fairness(start, unmet.unwrap_or(0)))
}

// The literal that has to be true at the last moment.
fn last_of(problem: &Problem, property: Property) -> Literal {
    let always = Literal::new(0, false);
    match property {
        Property::Bad(place) => *problem.netlist.circuit.bads.get(place).unwrap_or(&always),
        Property::Justice(_) => always,
    }
}

// The literals of a justice property.
fn justice_of(problem: &Problem, property: Property) -> &[Literal] {
    let Property::Justice(place) = property else {
        return &[];
    };
    match problem.liveness.justice.get(place) {
        Some(justice) => justice,
        None => &[],
    }
}

// The first of the literals that is true at no moment of the loop.
fn unmet_in(
    alloc: Global,
    netlist: &Netlist,
    literals: &[Literal],
    trace: &Trace,
) -> Result<Option<usize>, AllocError> {
    for (place, l) in literals.iter().enumerate() {
        if closed(alloc, netlist, &[], &[*l], trace)?.is_none() {
            return Ok(Some(place));
        }
    }
    Ok(None)
}
