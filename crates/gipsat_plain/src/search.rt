//! Both values of one variable after another, until a clause is false or each is true.
ghost use Rattle.std.specs.Prelude.{◌≡◌, ◌∷◌, IfNone, IfOk, IfSome};
ghost use Rattle.std.specs.Bool.{OnTrue};
ghost use Rattle.gipsat_cnf.specs.Prelude.{Has, IsCore, IsModelUnder, IsSatisfiableUnder};
ghost use Rattle.gipsat_plain.specs.Refuted.{AreAmong, AreRefuted};

use gipsat_cnf::enumerate::find_model;
use gipsat_cnf::values::makes_true;
use gipsat_cnf::{Cnf, Literal};
use std::alloc::{AllocError, Global};

// Whether the literal is one of these.
fn has(literals: &[Literal], l: Literal) -> bool
    ensures { OnTrue result (Has literals.now l) }
{
    for m in literals {
        if m.code() == l.code() {
            return true;
        }
    }
    false
}

// Whether all of the clause's literals are false where these are true.
fn is_refuted(clause: &[Literal], literals: &[Literal]) -> bool
    ensures { OnTrue result (AreRefuted literals.now clause.now) }
{
    for l in clause {
        if !has(literals, l.negated()) {
            return false;
        }
    }
    true
}

// Whether the clause at this place is false where the literals are true.
fn is_false(formula: &Cnf, place: usize, literals: &[Literal]) -> bool
    ensures { OnTrue result (¬ (IsSatisfiableUnder formula.now literals.now)) }
{
    if place >= formula.len() {
        return false;
    }
    if is_refuted(formula.clause(place), literals) {
        return true;
    }
    false
}

// What is to be done where some variables have values. Nothing is believed of it.
#[derive(Clone, Copy)]
enum Turn {
    // The clause at this place is false.
    Back(usize),
    // This literal is tried next.
    Try(Literal),
    // All clauses have a true literal.
    Done,
}

// Whether a literal is true, if it has a value.
fn value_of(values: &[Option<bool>], l: Literal) -> Option<bool> {
    let value = values.get(l.variable() as usize).copied().flatten()?;
    Some(value == l.is_positive())
}

// A literal of the clause that has no value, and how many there are; none where a literal is true.
fn open_in(values: &[Option<bool>], clause: &[Literal]) -> Option<(Option<Literal>, usize)> {
    let mut found = None;
    let mut count = 0_usize;
    for l in clause {
        match value_of(values, *l) {
            Some(true) => return None,
            Some(false) => {}
            None => {
                found = Some(*l);
                count = count.saturating_add(1);
            }
        }
    }
    Some((found, count))
}

// What comes next: a false clause, or a literal of one with few that have no value.
fn next_turn(formula: &Cnf, values: &[Option<bool>]) -> Turn {
    let mut turn = Turn::Done;
    let mut least = usize::MAX;
    for place in 0..formula.len() {
        match open_in(values, formula.clause(place)) {
            Some((Some(l), count)) if count < least => {
                turn = Turn::Try(l);
                least = count;
            }
            Some((None, _)) => return Turn::Back(place),
            _ => {}
        }
    }
    turn
}

// The literals, and one more.
fn with(alloc: Global, literals: &[Literal], l: Literal) -> Result<Vec<Literal>, AllocError>
    ensures { IfOk result (λ all. all.items ≡ l ∷ literals.now) }
{
    let mut all = Vec::from_array(alloc, [l])?;
    all.extend_from_slice(literals)?;
    Ok(all)
}

// The values by which the literals are true.
fn values_of(
    alloc: Global,
    variables: usize,
    literals: &[Literal],
) -> Result<Vec<Option<bool>>, AllocError> {
    let mut values = Vec::new(alloc);
    values.resize(variables, None)?;
    for l in literals {
        if let Some(value) = values.get_mut(l.variable() as usize) {
            *value = Some(l.is_positive());
        }
    }
    Ok(values)
}

// The same, where a variable that has no value is false.
fn model_of(alloc: Global, values: &[Option<bool>]) -> Result<Vec<bool>, AllocError> {
    let mut model = Vec::new(alloc);
    for value in values {
        model.push(value.unwrap_or(false))?;
    }
    Ok(model)
}

// What is found where nothing is left to try.
fn found(
    alloc: Global,
    formula: &Cnf,
    literals: &[Literal],
    values: &[Option<bool>],
) -> Result<Option<Vec<bool>>, AllocError>
    ensures model { IfOk result (λ found. IfSome found (λ m. IsModelUnder formula.now literals.now m.items)) }
    ensures none { IfOk result (λ found. IfNone found (¬ (IsSatisfiableUnder formula.now literals.now))) }
{
    let model = model_of(alloc, values)?;
    if formula.satisfied_by(&model) && makes_true(&model, literals) {
        return Ok(Some(model));
    }
    find_model(alloc, formula, literals)
}

// Above each variable of the formula and of the literals.
fn end_of(formula: &Cnf, literals: &[Literal]) -> usize {
    let mut end = formula.variables();
    for l in literals {
        end = end.max(l.variable() as usize + 1);
    }
    end
}

// A model of the formula that makes the literals true; None if there is no such model.
#[tactic(auto, using(crate::proofs::Refuting::neither))]
pub(crate) fn decide(
    alloc: Global,
    formula: &Cnf,
    literals: &[Literal],
    left: usize,
    steps: &mut u64,
) -> Result<Option<Vec<bool>>, AllocError>
    ensures model { IfOk result (λ found. IfSome found (λ m. IsModelUnder formula.now literals.now m.items)) }
    ensures none { IfOk result (λ found. IfNone found (¬ (IsSatisfiableUnder formula.now literals.now))) }
{
    *steps = steps.saturating_add(1);
    let values = values_of(alloc, end_of(formula, literals), literals)?;
    let turn = next_turn(formula, &values);
    if let Turn::Back(place) = turn {
        if is_false(formula, place, literals) {
            return Ok(None);
        }
    }
    let Turn::Try(l) = turn else {
        return found(alloc, formula, literals, &values);
    };
    if left == 0 {
        return found(alloc, formula, literals, &values);
    }
    let first = with(alloc, literals, l)?;
    if let Some(model) = decide(alloc, formula, &first, left - 1, steps)? {
        return Ok(Some(model));
    }
    let second = with(alloc, literals, l.negated())?;
    if let Some(model) = decide(alloc, formula, &second, left - 1, steps)? {
        return Ok(Some(model));
    }
    Ok(None)
}

// The literals but the one at a place.
fn without(alloc: Global, literals: &[Literal], place: usize) -> Result<Vec<Literal>, AllocError> {
    let mut rest = Vec::new(alloc);
    for (other, l) in literals.iter().enumerate() {
        if other != place {
            rest.push(*l)?;
        }
    }
    Ok(rest)
}

// Whether each of some literals is one of these.
fn are_among(some: &[Literal], literals: &[Literal]) -> bool
    ensures { OnTrue result (AreAmong some.now literals.now) }
{
    for l in some {
        if !has(literals, *l) {
            return false;
        }
    }
    true
}

// Some of the assumptions that are as impossible, of which none can be left out.
pub(crate) fn core_of(
    alloc: Global,
    formula: &Cnf,
    assumptions: &[Literal],
    steps: &mut u64,
) -> Result<Vec<Literal>, AllocError>
    requires { ¬ (IsSatisfiableUnder formula.now assumptions.now) }
    ensures { IfOk result (λ core. IsCore formula.now assumptions.now core.items) }
{
    let mut core = assumptions.to_vec(alloc)?;
    for place in (0..assumptions.len()).rev() {
        let rest = without(alloc, &core, place)?;
        if !are_among(&rest, assumptions) {
            continue;
        }
        if let None = decide(alloc, formula, &rest, formula.variables(), steps)? {
            core = rest;
        }
    }
    Ok(core)
}
