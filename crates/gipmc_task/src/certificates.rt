//! Certificates that properties hold, as texts.
ghost use Rattle.std.specs.Prelude.{◌≡◌, ℕ, ◌<◌, length, slice_get, Some, IfNone, IfOk, IsTrue};
ghost use Rattle.gipmc_circuits.specs.declared.certificate.Verdict.TheVariants.{Certified};
ghost use Rattle.gipmc_aiger.specs.Invariants.{clauses_view, invariant_for};
ghost use Rattle.gipmc_task.specs.Certificates.{AreShownSafe, Certifies, CertifiesSafe, IsCertificateIn, clauses_behind};
ghost use Rattle.gipmc_task.specs.Certificates.{ShowsSafeAll, ShowsSafeAsked, ShowsSafeAt};
ghost use Rattle.gipmc_task.specs.Kinds.{IsAmong};
ghost use Rattle.gipmc_task.specs.declared.certificates.Certificate.TheVariants as certificate;

use crate::error::TaskError;
use crate::induction::{InductionDoubt, behind_k, unless_certified};
use crate::justice::certificates::{live_doubt, longer_text};
use crate::kind::{PropertyKind, PropertyName};
use crate::latches::invariant_text;
use crate::strengthened::strengthened;
use gipmc_aiger::{
    AigerError, Place, Problem, Property, Subject, read_invariant_for, read_witness_circuit,
    write_aag,
};
use gipmc_circuits::certificate::Verdict;
use gipmc_circuits::{Circuit, Netlist, WitnessCircuit, certify_by};
use gipmc_reduce::{Means, certify_all, certify_all_by};
use gipsat_cnf::{Literal, SatSolver};
use std::alloc::{AllocError, Global};
use std::fmt::{self, Display};

/// What may show that a circuit is safe.
#[derive(Drop)]
pub enum Certificate {
    /// The clauses of an invariant, over the circuit's variables.
    Clauses(Vec<Vec<Literal>>),
    /// A number k, and the clauses of an invariant, if there are some: each bad literal is k-inductive, or the invariant
    /// excludes it.
    Induction(usize, Vec<Vec<Literal>>),
    /// A circuit that tells where an invariant of both holds.
    Circuit(WitnessCircuit),
}

/// Why a certificate is not known to show that what is asked about holds.
#[derive(Clone, Copy, Debug, PartialEq, Eq)]
pub struct Doubt {
    /// The property of which it is not known.
    pub property: Property,
    /// What was found out of the certificate.
    pub reason: DoubtReason,
}

/// What was found out of a certificate that is not known to show a property.
#[derive(Clone, Copy, Debug, PartialEq, Eq)]
pub enum DoubtReason {
    /// Of its clauses. Those of a circuit are what it claims of its bad literals and then of its constraints.
    Clauses(Verdict),
    /// Of its clauses, if it has some, and of its number k.
    Induction(Option<Verdict>, InductionDoubt),
    /// Of its clauses, which are about this longer circuit.
    Longer(Means, Verdict),
}

/// A line that says which property, which clause, counted from 1, and which question.
impl Display for Doubt {
    fn fmt<W: fmt::Write>(&self, f: &mut fmt::Formatter<W>) -> fmt::Result {
        let (name, reason) = (PropertyName(self.property), self.reason);
        write!(f, "{name}: {reason}")
    }
}

/// The same without the property.
impl Display for DoubtReason {
    fn fmt<W: fmt::Write>(&self, f: &mut fmt::Formatter<W>) -> fmt::Result {
        match *self {
            DoubtReason::Clauses(verdict) => write_verdict(f, verdict, "a bad moment"),
            DoubtReason::Induction(None, doubt) => write!(f, "{doubt}"),
            DoubtReason::Induction(Some(verdict), doubt) => {
                write_verdict(f, verdict, "a bad moment")?;
                write!(f, "; {doubt}")
            }
            DoubtReason::Longer(Means::Counting(_), verdict) => {
                write_verdict(f, verdict, "one literal more to be met")
            }
            DoubtReason::Longer(Means::Saving, verdict) => write_verdict(f, verdict, "a lasso"),
        }
    }
}

// Writes what was found out of clauses that are to exclude this.
fn write_verdict<W: fmt::Write>(
    f: &mut fmt::Formatter<W>,
    verdict: Verdict,
    excluded: &str,
) -> fmt::Result {
    match verdict {
        Verdict::Certified => f.write_str("it is certified"),
        Verdict::NotInitial(place) => {
            let clause = place.saturating_add(1);
            write!(f, "clause {clause} is false at an initial moment")
        }
        Verdict::NotInductive(place) => {
            let clause = place.saturating_add(1);
            write!(f, "clause {clause} is not kept by a transition")
        }
        Verdict::NotSafe => write!(f, "the clauses allow {excluded}"),
        Verdict::Unknown => f.write_str("a question was left open at the limit"),
    }
}

/// What a certificate is made of. The clauses of an invariant are over the variables of the circuit, if nothing else is
/// said.
#[derive(Clone, Copy)]
pub enum Grounds<'a> {
    /// The clauses of an invariant, and a number k, if there is one.
    Clauses(&'a [Vec<Literal>], Option<usize>),
    /// The clauses of an invariant, which strengthen the property of a circuit with the same inputs and latches: its bad
    /// literal is true where the one that is asked about is, or one of all, and where a clause is false. It is written
    /// in the ascii form of AIGER.
    Strengthened(&'a [Vec<Literal>]),
    /// The clauses of an invariant of this longer circuit, over its variables.
    Longer(Means, &'a [Vec<Literal>]),
}

/// Whether the certificate that a text writes shows what is asked about, as [`doubt_of`] finds out.
///
/// # Errors
/// Those of [`doubt_of`].
pub fn certifies<S: SatSolver + Drop>(
    alloc: Global,
    problem: &Problem,
    text: &[u8],
    asked: Subject,
    limit: usize,
) -> Result<bool, TaskError>
    ensures { IfOk result (λ holds. IsTrue holds → Certifies problem.now text.now asked) }
{
    match doubt_of::<S>(alloc, problem, text, asked, limit)? {
        None => Ok(true),
        Some(_) => Ok(false),
    }
}

/// Why the certificate that a text writes is not known to show that a property holds: the one that is asked about, or
/// one of all bad literals. None if it shows it. Each question to the solver may learn `limit` clauses.
///
/// A certificate of a justice property is clauses over the latches of the circuit and, behind these, over those of a
/// longer circuit. That is the one that saves what the latches hold, if the text has the line `c no lasso` before its
/// header, and else one that counts: so the text tells by its number of latches how far.
///
/// # Errors
/// - [`TaskError::Certificate`] where the text has another form, or the clauses are over fewer latches than the circuit
///   has.
/// - [`TaskError::NoSimulation`] where the certificate is a circuit that cannot go along with the other one.
/// - [`TaskError::NoProperty`] where there is no property at the place, and [`TaskError::NoProperties`] where there is
///   none of its kind at all.
/// - [`TaskError::Memory`] where memory is refused.
pub fn doubt_of<S: SatSolver + Drop>(
    alloc: Global,
    problem: &Problem,
    text: &[u8],
    asked: Subject,
    limit: usize,
) -> Result<Option<Doubt>, TaskError>
    ensures { IfOk result (λ doubt. IfNone doubt (Certifies problem.now text.now asked)) }
{
    match asked {
        Subject::All | Subject::Any => safe_doubt::<S>(alloc, problem, text, None, limit),
        Subject::One(Property::Bad(place)) => {
            safe_doubt::<S>(alloc, problem, text, Some(place), limit)
        }
        Subject::One(Property::Justice(place)) => {
            live_doubt::<S>(alloc, problem, text, place, limit)
        }
    }
}

/// The text of a certificate that the property holds that is asked about, or that all bad literals do. It is read back,
/// and certifies this again. Each question to the solver may learn `limit` clauses.
///
/// # Errors
/// - [`TaskError::Uncertified`] where these grounds do not show it.
/// - Those of [`doubt_of`].
pub fn certificate_of<S: SatSolver + Drop>(
    alloc: Global,
    problem: &Problem,
    asked: Subject,
    grounds: Grounds,
    limit: usize,
) -> Result<Vec<u8>, TaskError>
    ensures { IfOk result (λ text. Certifies problem.now text.items asked) }
{
    let text = text_of(alloc, problem, asked, grounds)?;
    if let Some(_) = doubt_of::<S>(alloc, problem, &text, asked, limit)? {
        return Err(TaskError::Uncertified);
    }
    Ok(text)
}

// The text of the grounds of what is asked about.
fn text_of(
    alloc: Global,
    problem: &Problem,
    asked: Subject,
    grounds: Grounds,
) -> Result<Vec<u8>, TaskError> {
    match grounds {
        Grounds::Clauses(invariant, k) => claims_text(alloc, &problem.netlist, invariant, k),
        Grounds::Strengthened(invariant) => {
            let circuit = strengthened(alloc, &problem.netlist, invariant, bad_asked(asked))?;
            Ok(write_aag(alloc, &circuit)?)
        }
        Grounds::Longer(means, invariant) => match asked {
            Subject::One(Property::Justice(place)) => {
                longer_text(alloc, problem, place, means, invariant)
            }
            _ => Err(TaskError::Uncertified),
        },
    }
}

// The place of the bad literal that is asked about, if one is.
fn bad_asked(asked: Subject) -> Option<usize> {
    match asked {
        Subject::One(Property::Bad(place)) => Some(place),
        _ => None,
    }
}

// The text of a k, if there is one, and of some clauses over the latches of the circuit.
fn claims_text(
    alloc: Global,
    netlist: &Netlist,
    invariant: &[Vec<Literal>],
    k: Option<usize>,
) -> Result<Vec<u8>, TaskError> {
    let Some(k) = k else {
        return invariant_text(alloc, netlist, invariant);
    };
    let mut text = format!(in alloc; "k {k}\n")?.into_bytes();
    if !invariant.is_empty() {
        let clauses = invariant_text(alloc, netlist, invariant)?;
        text.extend_from_slice(&clauses)?;
    }
    Ok(text)
}

// Why the certificate that a text writes is not known to show that the circuit is safe: as to the bad literal at the
// place that is asked for, or as to all. None if it shows it, here and below.
fn safe_doubt<S: SatSolver + Drop>(
    alloc: Global,
    problem: &Problem,
    text: &[u8],
    asked: Option<usize>,
    limit: usize,
) -> Result<Option<Doubt>, TaskError>
    ensures { IfOk result
        (λ doubt. IfNone doubt (CertifiesSafe problem.now.netlist.circuit text.now asked)) }
{
    PropertyKind::Bad.has(problem, asked)?;
    let certificate = certificate_in(alloc, &problem.netlist.circuit, text)?;
    certifies_asked::<S>(alloc, &problem.netlist, &certificate, asked, limit)
}

// Why the circuit is not known to be safe by a certificate.
fn certifies_asked<S: SatSolver + Drop>(
    alloc: Global,
    netlist: &Netlist,
    certificate: &Certificate,
    asked: Option<usize>,
    limit: usize,
) -> Result<Option<Doubt>, TaskError>
    requires { IsAmong (length netlist.now.circuit.bads.items) asked }
    ensures { IfOk result (λ doubt. IfNone doubt (ShowsSafeAsked netlist.now.circuit certificate.now asked)) }
{
    match asked {
        None => certifies_all::<S>(alloc, netlist, certificate, limit),
        Some(place) => certifies_at::<S>(alloc, netlist, certificate, place, limit),
    }
}

// Why the circuit is not known to be safe as to all its bad literals.
fn certifies_all<S: SatSolver + Drop>(
    alloc: Global,
    netlist: &Netlist,
    certificate: &Certificate,
    limit: usize,
) -> Result<Option<Doubt>, TaskError>
    requires { 0 < length netlist.now.circuit.bads.items }
    ensures { IfOk result (λ doubt. IfNone doubt (ShowsSafeAll netlist.now.circuit certificate.now)) }
{
    match certificate {
        Certificate::Clauses(clauses) => {
            by_clauses::<S>(alloc, netlist, clauses, &netlist.circuit.bads, 0, limit)
        }
        Certificate::Induction(k, clauses) => {
            by_induction::<S>(alloc, netlist, *k, clauses, &netlist.circuit.bads, 0, limit)
        }
        Certificate::Circuit(other) => all_by_circuit::<S>(alloc, netlist, other, limit),
    }
}

// Why the circuit is not known to be safe as to the bad literal at a place.
fn certifies_at<S: SatSolver + Drop>(
    alloc: Global,
    netlist: &Netlist,
    certificate: &Certificate,
    place: usize,
    limit: usize,
) -> Result<Option<Doubt>, TaskError>
    requires { place < length netlist.now.circuit.bads.items }
    ensures { IfOk result (λ doubt. IfNone doubt (ShowsSafeAt netlist.now.circuit certificate.now place)) }
{
    match certificate {
        Certificate::Clauses(clauses) => {
            let bad = netlist.circuit.bads[place];
            by_clauses::<S>(alloc, netlist, clauses, &[bad], place, limit)
        }
        Certificate::Induction(k, clauses) => {
            let bad = netlist.circuit.bads[place];
            by_induction::<S>(alloc, netlist, *k, clauses, &[bad], place, limit)
        }
        Certificate::Circuit(other) => by_circuit::<S>(alloc, netlist, other, place, limit),
    }
}

// Why the circuit is not known to be safe by the clauses of an invariant as to these literals: the bad literal at a
// place, and those behind it.
fn by_clauses<S: SatSolver + Drop>(
    alloc: Global,
    netlist: &Netlist,
    clauses: &Vec<Vec<Literal>>,
    bads: &[Literal],
    place: usize,
    limit: usize,
) -> Result<Option<Doubt>, TaskError>
    ensures { IfOk result (λ doubt. IfNone doubt
        (AreShownSafe netlist.now.circuit (certificate.Clauses clauses.now) bads.now)) }
{
    let verdicts = certify_all::<S>(alloc, netlist, bads, clauses, limit)?;
    Ok(first_doubt(&verdicts, place))
}

// The first of these verdicts that does not certify: those on the bad literal at a place, and on those behind it.
fn first_doubt(verdicts: &[Verdict], place: usize) -> Option<Doubt>
    ensures { IfNone result ((k : ℕ) → k < length verdicts.now → slice_get verdicts.now k ≡ Some Certified) }
{
    for further in 0..verdicts.len() {
        match verdicts[further] {
            Verdict::Certified => {}
            verdict => return Some(of_clauses(place.saturating_add(further), verdict)),
        }
    }
    None
}

// The doubt that a verdict on clauses is, as to the bad literal at a place.
fn of_clauses(place: usize, verdict: Verdict) -> Doubt {
    Doubt {
        property: Property::Bad(place),
        reason: DoubtReason::Clauses(verdict),
    }
}

// Why the circuit is not known to be safe by a k, or by the clauses of an invariant, as to these literals: the bad
// literal at a place, and those behind it.
fn by_induction<S: SatSolver + Drop>(
    alloc: Global,
    netlist: &Netlist,
    k: usize,
    clauses: &Vec<Vec<Literal>>,
    bads: &[Literal],
    place: usize,
    limit: usize,
) -> Result<Option<Doubt>, TaskError>
    ensures { IfOk result (λ doubt. IfNone doubt
        (AreShownSafe netlist.now.circuit (certificate.Induction k clauses.now) bads.now)) }
{
    let verdicts = certify_all::<S>(alloc, netlist, bads, clauses, limit)?;
    for further in 0..bads.len() {
        let verdict = verdicts[further];
        let said = unless_certified::<S>(alloc, netlist, bads[further], verdict, k, limit)?;
        if let Some(doubt) = said {
            let verdict = (!clauses.is_empty()).then_some(verdict);
            return Ok(Some(Doubt {
                property: Property::Bad(place.saturating_add(further)),
                reason: DoubtReason::Induction(verdict, doubt),
            }));
        }
    }
    Ok(None)
}

// Why the circuit is not known to be safe as to all its bad literals by another one.
fn all_by_circuit<S: SatSolver + Drop>(
    alloc: Global,
    netlist: &Netlist,
    other: &WitnessCircuit,
    limit: usize,
) -> Result<Option<Doubt>, TaskError>
    ensures { IfOk result (λ doubt. IfNone doubt
        (AreShownSafe netlist.now.circuit (certificate.Circuit other.now) netlist.now.circuit.bads.items)) }
{
    let said = certify_all_by::<S>(alloc, netlist, &netlist.circuit.bads, other, limit)?;
    let Some(verdicts) = said else {
        return Err(TaskError::NoSimulation);
    };
    Ok(first_doubt(&verdicts, 0))
}

// Why the circuit is not known to be safe by another one.
fn by_circuit<S: SatSolver + Drop>(
    alloc: Global,
    netlist: &Netlist,
    other: &WitnessCircuit,
    place: usize,
    limit: usize,
) -> Result<Option<Doubt>, TaskError>
    requires { place < length netlist.now.circuit.bads.items }
    ensures { IfOk result (λ doubt. IfNone doubt
        (ShowsSafeAt netlist.now.circuit (certificate.Circuit other.now) place)) }
{
    let said = certify_by::<S>(alloc, netlist, netlist.circuit.bads[place], other, limit)?;
    let Some(verdict) = said else {
        return Err(TaskError::NoSimulation);
    };
    match verdict {
        Verdict::Certified => Ok(None),
        verdict => Ok(Some(of_clauses(place, verdict))),
    }
}

// The certificate that a text writes for a circuit: another circuit, or clauses.
fn certificate_in(alloc: Global, circuit: &Circuit, text: &[u8]) -> Result<Certificate, TaskError>
    ensures { IfOk result (IsCertificateIn circuit.now text.now) }
{
    if begins_as_circuit(text) {
        return match read_witness_circuit(alloc, circuit, text) {
            Ok(other) => Ok(Certificate::Circuit(other)),
            Err(error) => Err(TaskError::of_certificate(error)),
        };
    }
    match behind_k(text) {
        Some((k, rest)) => {
            let clauses = clauses_behind(alloc, circuit, rest)?;
            Ok(Certificate::Induction(k as usize, clauses))
        }
        None => Ok(Certificate::Clauses(clauses_in(alloc, circuit, text)?)),
    }
}

/// The clauses that a text writes for a circuit.
pub(crate) fn clauses_in(
    alloc: Global,
    circuit: &Circuit,
    text: &[u8],
) -> Result<Vec<Vec<Literal>>, TaskError>
    ensures { IfOk result (λ clauses. invariant_for circuit.now text.now ≡ Some (clauses_view clauses.items)) }
{
    match read_invariant_for(alloc, circuit, text) {
        Ok(clauses) => Ok(clauses),
        Err(error) => Err(TaskError::of_certificate(error)),
    }
}

// The clauses that stand behind the line of a k: none where nothing comes there.
fn clauses_behind(
    alloc: Global,
    circuit: &Circuit,
    rest: &[u8],
) -> Result<Vec<Vec<Literal>>, TaskError>
    ensures { IfOk result (λ clauses. clauses_behind circuit.now rest.now ≡ Some (clauses_view clauses.items)) }
{
    if rest.is_empty() {
        return Ok(Vec::new(alloc));
    }
    match clauses_in(alloc, circuit, rest) {
        Ok(clauses) => Ok(clauses),
        Err(error) => Err(a_line_later(error)),
    }
}

// The error, where a line stands before the text.
fn a_line_later(error: TaskError) -> TaskError {
    match error {
        TaskError::Certificate(AigerError::Refused(Place::Line(line), reason)) => {
            let place = Place::Line(line.saturating_add(1));
            TaskError::Certificate(AigerError::Refused(place, reason))
        }
        error => error,
    }
}

/// Whether a text begins neither with a k nor as a circuit does.
pub(crate) fn is_clauses_alone(text: &[u8]) -> bool {
    !begins_as_circuit(text) && behind_k(text).is_none()
}

// Whether a text begins as that of a circuit does.
fn begins_as_circuit(text: &[u8]) -> bool {
    text.starts_with(b"aag ") || text.starts_with(b"aig ")
}
