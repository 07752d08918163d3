//! Certificates that justice properties hold, as texts: clauses over the latches of a longer circuit.
ghost use Rattle.std.specs.Prelude.{◌<◌, length, IfNone, IfOk, IsTrue};
ghost use Rattle.gipmc_circuits.specs.Certificate.{is_certified};
ghost use Rattle.gipmc_task.specs.Certificates.{CertifiesLive, IsLiveByText};

use crate::certificates::{Doubt, DoubtReason, clauses_in};
use crate::error::TaskError;
use crate::kind::PropertyKind;
use crate::latches::invariant_text;
use gipmc_aiger::{Problem, Property};
use gipmc_circuits::certificate::Verdict;
use gipmc_circuits::{Circuit, Netlist};
use gipmc_reduce::{Means, certify_all, longer};
use gipsat_cnf::{Literal, SatSolver};
use giputils_text::{number, split_line};
use std::alloc::Global;

/// Why the certificate that a text writes is not known to show that the justice property at a place holds. None if it
/// shows it.
pub(crate) fn live_doubt<S: SatSolver + Drop>(
    alloc: Global,
    problem: &Problem,
    text: &[u8],
    place: usize,
    limit: usize,
) -> Result<Option<Doubt>, TaskError>
    ensures { IfOk result
        (λ doubt. IfNone doubt (CertifiesLive problem.now.netlist.circuit problem.now.liveness text.now place)) }
{
    PropertyKind::Justice.has(problem, Some(place))?;
    certifies_at::<S>(alloc, problem, text, place, limit)
}

// The same, of a property that the circuit has.
fn certifies_at<S: SatSolver + Drop>(
    alloc: Global,
    problem: &Problem,
    text: &[u8],
    place: usize,
    limit: usize,
) -> Result<Option<Doubt>, TaskError>
    requires { place < length problem.now.liveness.justice.items }
    ensures { IfOk result
        (λ doubt. IfNone doubt (CertifiesLive problem.now.netlist.circuit problem.now.liveness text.now place)) }
{
    let (fairness, justice) = (&problem.liveness.fairness, &problem.liveness.justice[place]);
    let netlist = &problem.netlist;
    let means = means_in(&netlist.circuit, text);
    match shown_by::<S>(alloc, netlist, fairness, justice, means, text, limit)? {
        Verdict::Certified => Ok(None),
        verdict => Ok(Some(Doubt {
            property: Property::Justice(place),
            reason: DoubtReason::Longer(means, verdict),
        })),
    }
}

// What the clauses of a text show of a longer circuit.
fn shown_by<S: SatSolver + Drop>(
    alloc: Global,
    netlist: &Netlist,
    fairness: &[Literal],
    justice: &[Literal],
    means: Means,
    text: &[u8],
    limit: usize,
) -> Result<Verdict, TaskError>
    ensures { IfOk result (λ verdict. IsTrue (is_certified verdict) →
        IsLiveByText netlist.now.circuit fairness.now justice.now text.now) }
{
    let Some((made, bad)) = longer(alloc, netlist, fairness, justice, means)? else {
        return Ok(Verdict::Unknown);
    };
    let clauses = clauses_in(alloc, &made.circuit, text)?;
    let verdicts = certify_all::<S>(alloc, &made, &[bad], &clauses, limit)?;
    Ok(verdicts[0])
}

// The line, before the header, that says that the clauses are over the latches of the circuit that saves.
const NO_LASSO: &[u8] = b"c no lasso";

// The longer circuit that a text is about. It counts as far as the text names more latches than the circuit has.
fn means_in(circuit: &Circuit, text: &[u8]) -> Means {
    let mut rest = text;
    while let Some((line, after)) = split_line(rest) {
        if line == NO_LASSO {
            return Means::Saving;
        }
        if let Some(counts) = line.strip_prefix(b"p cnf ") {
            let latches = latches_in(counts).unwrap_or(0);
            return Means::Counting(latches.saturating_sub(circuit.latches.len()));
        }
        rest = after;
    }
    Means::Counting(0)
}

// The number before the first space.
fn latches_in(counts: &[u8]) -> Option<usize> {
    let end = counts.iter().position(|b| *b == b' ')?;
    let latches = number(counts.get(..end)?, u32::MAX)?;
    Some(latches as usize)
}

/// The text of the clauses, over the latches of the longer circuit, and before it the line that says which one that is.
pub(crate) fn longer_text(
    alloc: Global,
    problem: &Problem,
    place: usize,
    means: Means,
    invariant: &[Vec<Literal>],
) -> Result<Vec<u8>, TaskError> {
    let (netlist, liveness) = (&problem.netlist, &problem.liveness);
    let Some(justice) = liveness.justice.get(place) else {
        return Err(TaskError::Uncertified);
    };
    let Some((made, _)) = longer(alloc, netlist, &liveness.fairness, justice, means)? else {
        return Err(TaskError::Uncertified);
    };
    let mut text = Vec::new(alloc);
    if means == Means::Saving {
        text.extend_from_slice(NO_LASSO)?;
        text.extend_from_slice(b"\n")?;
    }
    text.extend_from_slice(&invariant_text(alloc, &made, invariant)?)?;
    Ok(text)
}
