//! Formulas to which clauses are added one after another.
ghost use Rattle.std.specs.Prelude.{◌≡◌, ◌++◌, [], IfNone, IfOk, IfSome, IsTrue, OnOk};
ghost use Rattle.gipsat_cnf.specs.Prelude.{Assignment, IsModel, IsSatisfiable, IsSatisfiableUnder, assignment_in, makes_true};
ghost use Rattle.gipsat_uses.specs.Incremental.{Covers, IsLongestStart, units};

use gipsat_cnf::{ClauseSink, Literal, SatSolver};
use std::alloc::{AllocError, Global};

/// Values by which at least one literal of each pair is true, as of two workers one is at work each day. None where
/// there are none.
///
/// Shows lemmas on models: one of the formula satisfies the clause at each place, and what satisfies each is one.
///
/// # Errors
/// `AllocError` where memory is refused.
pub fn cover<S: SatSolver + Drop>(
    alloc: Global,
    pairs: &[(Literal, Literal)],
) -> Result<Option<Vec<bool>>, AllocError>
    ensures covers { IfOk result (λ found. IfSome found (λ model. Covers pairs.now (assignment_in model.items))) }
    ensures none { IfOk result (λ found. IfNone found ((a : Assignment) → ¬ (Covers pairs.now a))) }
{
    cover_by(&mut S::new(alloc), pairs)
}

// The same, by a solver without clauses.
fn cover_by<S: SatSolver>(
    solver: &mut S,
    pairs: &[(Literal, Literal)],
) -> Result<Option<Vec<bool>>, AllocError>
    requires empty { S.formula solver.old ≡ [] }
    ensures covers { IfOk result (λ found. IfSome found (λ model. Covers pairs.now (assignment_in model.items))) }
    ensures none { IfOk result (λ found. IfNone found ((a : Assignment) → ¬ (Covers pairs.now a))) }
{
    for (first, second) in pairs {
        solver.add_clause(&[*first, *second])?;
    }
    solver.find_model()
}

/// A model of the formula in which each of the facts is true. None where there is none.
///
/// The facts stay: they are added as clauses, and later questions are about the longer formula.
///
/// Shows a lemma on models: one of a formula with more clauses is one of the formula before.
///
/// # Errors
/// `AllocError` where memory is refused. Some of the facts may have been added.
pub fn model_with<S: SatSolver>(
    solver: &mut S,
    facts: &[Literal],
) -> Result<Option<Vec<bool>>, AllocError>
    ensures formula { OnOk result (S.formula solver.new ≡ S.formula solver.old ++ units facts.now) }
    ensures model { IfOk result (λ found. IfSome found (λ model. IsModel (S.formula solver.old) model.items)) }
    ensures facts { IfOk result (λ found. IfSome found (λ model.
        IsTrue (makes_true (assignment_in model.items) facts.now))) }
    ensures none { IfOk result (λ found. IfNone found (¬ (IsSatisfiableUnder (S.formula solver.old) facts.now))) }
{
    add_facts(solver, facts)?;
    solver.find_model()
}

// Adds the clause that a fact is true, for each of the facts.
fn add_facts<S: ClauseSink>(solver: &mut S, facts: &[Literal]) -> Result<(), AllocError>
    ensures { OnOk result (S.formula solver.new ≡ S.formula solver.old ++ units facts.now) }
{
    for fact in facts {
        solver.add_clause(&[*fact])?;
    }
    Ok(())
}

/// How many of the facts, from the first one on, can be true together with the formula. None where the formula has no
/// model.
///
/// They are added as clauses, one after another, until one can't be true.
///
/// Shows a lemma on formulas: one without a model has none with more clauses, so there the caller may stop.
///
/// # Errors
/// `AllocError` where memory is refused. Some of the facts may have been added.
pub fn longest_start<S: SatSolver>(
    solver: &mut S,
    facts: &[Literal],
) -> Result<Option<usize>, AllocError>
    ensures longest { IfOk result (λ found. IfSome found (λ count.
        IsLongestStart (S.formula solver.old) facts.now count)) }
    ensures none { IfOk result (λ found. IfNone found (¬ (IsSatisfiable (S.formula solver.old)))) }
{
    if solver.find_model()?.is_none() {
        return Ok(None);
    }
    for place in 0..facts.len() {
        solver.add_clause(&[facts[place]])?;
        if solver.find_model()?.is_none() {
            return Ok(Some(place));
        }
    }
    Ok(Some(facts.len()))
}
