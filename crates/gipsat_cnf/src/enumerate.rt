//! Models by trying all values: what always answers, if it takes long.
ghost use Rattle.std.specs.Prelude.{◌≡◌, ◌+◌, ◌^◌, ◌≤◌, false, length, replicate, IfOk, IfSome, IfNone};
ghost use Rattle.std.specs.Bool.{OnFalse, OnTrue};
ghost use Rattle.gipsat_cnf.specs.Assumptions.{IsModelUnder, IsSatisfiableUnder};
ghost use Rattle.gipsat_cnf.specs.Numbers.{number};

use crate::cnf::{Cnf, variables_with};
use crate::literal::Literal;
use crate::values::makes_true;
use std::alloc::{AllocError, Global};

// Counts on: the values are the binary digits of a number, the lowest first. False where it was the greatest.
fn advance(values: &mut Vec<bool>) -> bool
    ensures len { length values.new.items ≡ length values.old.items }
    ensures next { OnTrue result (number values.new.items ≡ number values.old.items + 1) }
    ensures last { OnFalse result (2 ^ length values.old.items ≤ number values.old.items + 1) }
{
    for place in 0..values.len() {
        if !values[place] {
            values[place] = true;
            return true;
        }
        values[place] = false;
    }
    false
}

// Whether the values satisfy the formula and make the assumptions true.
fn is_model(formula: &Cnf, values: &[bool], assumptions: &[Literal]) -> bool
    ensures yes { OnTrue result (IsModelUnder formula.now assumptions.now values.now) }
    ensures no { OnFalse result (¬ (IsModelUnder formula.now assumptions.now values.now)) }
{
    if !formula.satisfied_by(values) {
        return false;
    }
    makes_true(values, assumptions)
}

// So many values, all of them false.
fn all_false(alloc: Global, len: usize) -> Result<Vec<bool>, AllocError>
    ensures { IfOk result (λ values. values.items ≡ replicate len false) }
{
    let mut values = Vec::new(alloc);
    values.resize(len, false)?;
    Ok(values)
}

/// A model of the formula that makes the assumptions true, found by trying all values of the variables, up to 2^n of
/// them for n variables. None if there is no such model.
///
/// # Errors
/// `AllocError` where memory is refused.
pub fn find_model(
    alloc: Global,
    formula: &Cnf,
    assumptions: &[Literal],
) -> Result<Option<Vec<bool>>, AllocError>
    ensures model { IfOk result (λ found. IfSome found (λ m. IsModelUnder formula.now assumptions.now m.items)) }
    ensures none { IfOk result (λ found. IfNone found (¬ (IsSatisfiableUnder formula.now assumptions.now))) }
{
    let mut values = all_false(alloc, variables_with(assumptions, formula.variables()))?;
    loop {
        if is_model(formula, &values, assumptions) {
            return Ok(Some(values));
        }
        if !advance(&mut values) {
            return Ok(None);
        }
    }
}
