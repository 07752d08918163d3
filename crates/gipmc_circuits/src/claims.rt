//! What a circuit claims as a certificate, as clauses over its variables.
ghost use Rattle.std.specs.Prelude.{◌≡◌, [], ◌∷◌, map, IfOk, IsTrue};
ghost use Rattle.gipsat_cnf.specs.Prelude.{Assignment, makes_true, negated};
ghost use Rattle.gipmc_circuits.specs.Certificate.{holds};
ghost use Rattle.gipmc_circuits.specs.WitnessCircuits.{Implies, SayClaims, SaySame, claims};

use crate::certificate::{Doubt, add_invariant, first_doubt};
use crate::circuit::Circuit;
use crate::cone::Cone;
use crate::encoding::add_valuation;
use crate::parts::LiteralParts;
use crate::witness_circuit::WitnessCircuit;
use gipsat_cnf::{Literal, SatSolver};
use std::alloc::{AllocError, Global};

/// The clauses that say what a certificate claims: one for each claim.
pub(crate) fn claim_rows(
    alloc: Global,
    certificate: &WitnessCircuit,
) -> Result<Vec<Vec<Literal>>, AllocError>
    ensures { IfOk result
        (λ rows. (a : Assignment) → holds rows.items a ≡ makes_true a (claims certificate.now.circuit)) }
{
    let claims = claims(alloc, &certificate.circuit)?;
    units(alloc, &claims)
}

/// Clauses that say together what a certificate claims where the values are those of its gates.
pub(crate) struct ClaimParts {
    pub(crate) rows: Vec<Vec<Literal>>,
    // Of which claims they are. None where each is a claim.
    parts: Option<LiteralParts>,
}

// One call in its owners' proofs, in place of one for each field.
impl Drop for ClaimParts {
    fn drop(self) {
        let ClaimParts { rows, parts } = self;
    }
}

impl ClaimParts {
    /// The claims, taken apart where a solver says that the parts say the same: conjunctions by gates, and disjunctions
    /// in these. So a claim that stands for many clauses is asked about clause by clause. Each question may learn
    /// `limit` clauses.
    pub(crate) fn new<S: SatSolver + Drop>(
        alloc: Global,
        certificate: &WitnessCircuit,
        limit: usize,
    ) -> Result<Self, AllocError>
        ensures { IfOk result (λ made. SayClaims certificate.now made.rows.items) }
    {
        let rows = claim_rows(alloc, certificate)?;
        let claims = claims(alloc, &certificate.circuit)?;
        let mut parts = LiteralParts::new(alloc, &certificate.circuit, &claims)?;
        let conjuncts = units(alloc, &parts.conjuncts)?;
        let clauses = parts.take_clauses(alloc);
        if !say_same::<S>(alloc, &certificate.circuit, &rows, &conjuncts, limit)?
            || !say_same::<S>(alloc, &certificate.circuit, &conjuncts, &clauses, limit)?
        {
            return Ok(ClaimParts { rows, parts: None });
        }
        Ok(ClaimParts {
            rows: clauses,
            parts: Some(parts),
        })
    }

    /// The same doubt of the claim that a clause is of.
    pub(crate) fn of_claim(&self, doubt: Doubt) -> Doubt {
        match (doubt, &self.parts) {
            (Doubt::Clause(place), Some(parts)) => Doubt::Clause(parts.owner(place)),
            (doubt, _) => doubt,
        }
    }
}

// The negations of the literals.
fn negations(alloc: Global, literals: &[Literal]) -> Result<Vec<Literal>, AllocError>
    ensures { IfOk result (λ all. all.items ≡ map negated literals.now) }
{
    literals.iter().map(|l| l.negated()).collect(alloc)
}

// What a circuit claims as a certificate.
fn claims(alloc: Global, certificate: &Circuit) -> Result<Vec<Literal>, AllocError>
    ensures { IfOk result (λ all. all.items ≡ claims certificate.now) }
{
    let mut all = negations(alloc, &certificate.bads)?;
    all.extend_from_slice(&certificate.constraints)?;
    Ok(all)
}

// The clause of one literal.
fn unit(alloc: Global, l: Literal) -> Result<Vec<Literal>, AllocError>
    ensures { IfOk result (λ row. row.items ≡ l ∷ []) }
{
    let mut row = Vec::new(alloc);
    row.push(l)?;
    Ok(row)
}

// A clause for each literal, that it is true.
fn units(alloc: Global, literals: &[Literal]) -> Result<Vec<Vec<Literal>>, AllocError>
    ensures { IfOk result (λ rows. (a : Assignment) → holds rows.items a ≡ makes_true a literals.now) }
{
    let mut rows = Vec::new(alloc);
    for place in 0..literals.len() {
        let row = unit(alloc, literals[place])?;
        rows.reserve(1)?;
        rows.push_reserved(row);
    }
    Ok(rows)
}

// Whether some clauses are known to hold just where others do, where the values are those of the circuit's gates.
fn say_same<S: SatSolver + Drop>(
    alloc: Global,
    circuit: &Circuit,
    first: &[Vec<Literal>],
    second: &[Vec<Literal>],
    limit: usize,
) -> Result<bool, AllocError>
    ensures { IfOk result (λ sure. IsTrue sure → SaySame circuit.now first.now second.now) }
{
    if !are_implied::<S>(alloc, circuit, first, second, limit)? {
        return Ok(false);
    }
    are_implied::<S>(alloc, circuit, second, first, limit)
}

// Whether some clauses are known to hold where given ones do, and the values are those of the circuit's gates.
fn are_implied<S: SatSolver + Drop>(
    alloc: Global,
    circuit: &Circuit,
    given: &[Vec<Literal>],
    rows: &[Vec<Literal>],
    limit: usize,
) -> Result<bool, AllocError>
    ensures { IfOk result (λ sure. IsTrue sure → Implies circuit.now given.now rows.now) }
{
    let mut solver = S::new(alloc);
    are_implied_by(alloc, &mut solver, circuit, given, rows, limit)
}

// The same, by a solver without clauses.
fn are_implied_by<S: SatSolver>(
    alloc: Global,
    solver: &mut S,
    circuit: &Circuit,
    given: &[Vec<Literal>],
    rows: &[Vec<Literal>],
    limit: usize,
) -> Result<bool, AllocError>
    requires { S.formula solver.old ≡ [] }
    ensures { IfOk result (λ sure. IsTrue sure → Implies circuit.now given.now rows.now) }
{
    add_valuation(solver, circuit, 0)?;
    add_invariant(solver, given)?;
    let mut cone = Cone::of_gates(alloc, circuit)?;
    match first_doubt(alloc, solver, &mut cone, rows, 0, limit)? {
        None => Ok(true),
        Some(_) => Ok(false),
    }
}
