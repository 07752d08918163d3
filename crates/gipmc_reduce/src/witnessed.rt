//! Circuits that certify another one as to several literals: whether what they claim is an invariant is asked once.
ghost use Rattle.std.specs.Prelude.{◌≡◌, ◌^◌, ◌<◌, [], ◌∷◌, length, slice_get, Some, IfOk, IfSome, IsTrue};
ghost use Rattle.std.specs.List.{list_all};
ghost use Rattle.gipmc_circuits.specs.Prelude.{IsCertifiedBy, is_certified, literal_below};
ghost use Rattle.gipsat_cnf.specs.Literals.{Lit};
ghost use Rattle.gipmc_circuits.specs.declared.certificate.Verdict.TheVariants.{Certified};
ghost use Rattle.gipmc_reduce.specs.Witnessed.{AreSafeBy, HasMoments, HoldsClaims, IsStilled, shares_below};

use crate::certificate::doubted;
use gipmc_circuits::{Circuit, Latch, Link, Netlist, Verdict, WitnessCircuit, certify_by};
use gipsat_cnf::{Literal, SatSolver};
use std::alloc::{AllocError, Global};

/// Whether another circuit certifies that these literals are false at every moment that the circuit reaches: a verdict
/// on each, in their order. `certify_by` of `gipmc_circuits` is asked about the first one. Where it is certified, the
/// others are only asked for where the certificate's claims hold, since these are an invariant then; else each verdict
/// is that on the first one. None where the certificate cannot follow the circuit. Each question to the solver may learn
/// `limit` clauses.
///
/// # Errors
/// `AllocError` where memory is refused, or where two moments of both circuits would have more than 2^31 variables.
pub fn certify_all_by<S: SatSolver + Drop>(
    alloc: Global,
    netlist: &Netlist,
    bads: &[Literal],
    certificate: &WitnessCircuit,
    limit: usize,
) -> Result<Option<Vec<Verdict>>, AllocError>
    ensures count { IfOk result (λ said. IfSome said (λ verdicts. length verdicts.items ≡ length bads.now)) }
    ensures safe { IfOk result (λ said. IfSome said
        (λ verdicts. AreSafeBy netlist.now.circuit certificate.now bads.now verdicts.items)) }
{
    if bads.is_empty() {
        return Ok(Some(Vec::new(alloc)));
    }
    let said = certify_by::<S>(alloc, netlist, bads[0], certificate, limit)?;
    let Some(first) = said else {
        return Ok(None);
    };
    match first {
        Verdict::Certified => {
            let verdicts = certify_others::<S>(alloc, netlist, bads, certificate, limit)?;
            Ok(Some(verdicts))
        }
        doubt => Ok(Some(vec![in alloc; doubted(doubt); bads.len()]?)),
    }
}

// The same, where it is certified as to the first literal.
fn certify_others<S: SatSolver + Drop>(
    alloc: Global,
    netlist: &Netlist,
    bads: &[Literal],
    certificate: &WitnessCircuit,
    limit: usize,
) -> Result<Vec<Verdict>, AllocError>
    requires some { 0 < length bads.now }
    requires claims { HoldsClaims netlist.now.circuit certificate.now }
    requires first { (bad : Lit) → slice_get bads.now 0 ≡ Some bad
        → IsCertifiedBy netlist.now.circuit bad certificate.now }
    ensures count { IfOk result (λ verdicts. length verdicts.items ≡ length bads.now) }
    ensures safe { IfOk result
        (λ verdicts. AreSafeBy netlist.now.circuit certificate.now bads.now verdicts.items) }
{
    let still = stilled(alloc, netlist, certificate)?;
    certify_each::<S>(alloc, netlist, &still, bads, certificate, limit)
}

// The same, by a circuit that stands still, if there is one.
fn certify_each<S: SatSolver + Drop>(
    alloc: Global,
    netlist: &Netlist,
    still: &Option<Netlist>,
    bads: &[Literal],
    certificate: &WitnessCircuit,
    limit: usize,
) -> Result<Vec<Verdict>, AllocError>
    requires some { 0 < length bads.now }
    requires claims { HoldsClaims netlist.now.circuit certificate.now }
    requires first { (bad : Lit) → slice_get bads.now 0 ≡ Some bad
        → IsCertifiedBy netlist.now.circuit bad certificate.now }
    requires still { IfSome still.now
        (λ s. IsStilled netlist.now.variables netlist.now.circuit certificate.now s.circuit) }
    ensures count { IfOk result (λ verdicts. length verdicts.items ≡ length bads.now) }
    ensures safe { IfOk result
        (λ verdicts. AreSafeBy netlist.now.circuit certificate.now bads.now verdicts.items) }
{
    let mut verdicts = first_verdict(alloc)?;
    for place in 1..bads.len() {
        let verdict = certify_one::<S>(alloc, netlist, still, bads[place], certificate, limit)?;
        verdicts.push(verdict)?;
    }
    Ok(verdicts)
}

// The verdict that the first literal is certified.
fn first_verdict(alloc: Global) -> Result<Vec<Verdict>, AllocError>
    ensures { IfOk result (λ verdicts. verdicts.items ≡ Certified ∷ []) }
{
    let mut verdicts = Vec::new(alloc);
    verdicts.push(Verdict::Certified)?;
    Ok(verdicts)
}

// The verdict on one literal more, where the claims are an invariant: by a circuit that stands still, if there is one.
fn certify_one<S: SatSolver + Drop>(
    alloc: Global,
    netlist: &Netlist,
    still: &Option<Netlist>,
    bad: Literal,
    certificate: &WitnessCircuit,
    limit: usize,
) -> Result<Verdict, AllocError>
    requires claims { HoldsClaims netlist.now.circuit certificate.now }
    requires still { IfSome still.now
        (λ s. IsStilled netlist.now.variables netlist.now.circuit certificate.now s.circuit) }
    ensures { IfOk result (λ verdict. IsTrue (is_certified verdict)
        → IsCertifiedBy netlist.now.circuit bad certificate.now) }
{
    let Some(still) = still else {
        return said_by::<S>(alloc, netlist, bad, certificate, limit);
    };
    if !is_below(netlist.variables, bad) {
        return said_by::<S>(alloc, netlist, bad, certificate, limit);
    }
    exclusion::<S>(alloc, netlist, still, bad, certificate, limit)
}

// The verdict by `certify_by` alone.
fn said_by<S: SatSolver + Drop>(
    alloc: Global,
    netlist: &Netlist,
    bad: Literal,
    certificate: &WitnessCircuit,
    limit: usize,
) -> Result<Verdict, AllocError>
    ensures { IfOk result (λ verdict. IsTrue (is_certified verdict)
        → IsCertifiedBy netlist.now.circuit bad certificate.now) }
{
    match certify_by::<S>(alloc, netlist, bad, certificate, limit)? {
        Some(verdict) => Ok(verdict),
        None => Ok(Verdict::Unknown),
    }
}

// Whether the literal is false where the claims hold, by a circuit that stands still.
fn exclusion<S: SatSolver + Drop>(
    alloc: Global,
    netlist: &Netlist,
    still: &Netlist,
    bad: Literal,
    certificate: &WitnessCircuit,
    limit: usize,
) -> Result<Verdict, AllocError>
    requires claims { HoldsClaims netlist.now.circuit certificate.now }
    requires still { IsStilled netlist.now.variables netlist.now.circuit certificate.now still.now.circuit }
    requires below { IsTrue (literal_below netlist.now.variables bad) }
    ensures { IfOk result (λ verdict. IsTrue (is_certified verdict)
        → IsCertifiedBy netlist.now.circuit bad certificate.now) }
{
    let _netlist = netlist;
    said_by::<S>(alloc, still, bad, certificate, limit)
}

// Whether the literal's variable is below the number.
fn is_below(n: usize, l: Literal) -> bool
    ensures { result ≡ literal_below n l }
{
    (l.variable() as usize) < n
}

// Whether the variable of the literal that is shared is.
fn shares_below(n: usize, link: Link) -> bool
    ensures { result ≡ shares_below n link }
{
    is_below(n, link.literal)
}

// Whether those of all are.
fn share_below(n: usize, links: &[Link]) -> bool
    ensures { result ≡ list_all (shares_below n) links.now }
{
    links.iter().all(|k| shares_below(n, *k))
}

// A circuit that has the moments of this one and another variable that is true, but none that is initial and no
// transition: a latch is false at first and next. None where there is no number for it, or the certificate shares others.
fn stilled(
    alloc: Global,
    netlist: &Netlist,
    certificate: &WitnessCircuit,
) -> Result<Option<Netlist>, AllocError>
    ensures { IfOk result (λ made. IfSome made
        (λ s. IsStilled netlist.now.variables netlist.now.circuit certificate.now s.circuit)) }
{
    let n = netlist.variables;
    if n >= 1 << 31 {
        return Ok(None);
    }
    if !share_below(n, &certificate.shared) {
        return Ok(None);
    }
    let circuit = beside_latch(alloc, &netlist.circuit, n)?;
    match Netlist::new(alloc, circuit)? {
        Some(still) => Ok(Some(still)),
        None => Ok(None),
    }
}

// The circuit beside a latch of this variable, which is false at first and next, and true by a constraint.
fn beside_latch(alloc: Global, circuit: &Circuit, n: usize) -> Result<Circuit, AllocError>
    requires { n < 2 ^ 31 }
    ensures { IfOk result (HasMoments n circuit.now) }
{
    let mut still = Circuit::new(alloc);
    still.inputs.extend_from_slice(&circuit.inputs)?;
    still.latches.extend_from_slice(&circuit.latches)?;
    still.gates.extend_from_slice(&circuit.gates)?;
    still.constraints.extend_from_slice(&circuit.constraints)?;
    still.latches.push(Latch {
        variable: n as u32,
        next: Literal::new(0, true),
        reset: Some(false),
    })?;
    still.constraints.push(Literal::new(n as u32, true))?;
    Ok(still)
}
