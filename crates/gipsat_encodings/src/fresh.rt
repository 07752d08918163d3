//! Variables that no clause has so far.
ghost use Rattle.std.specs.Prelude.{◌≡◌, ◌+◌, ◌≤◌, IfOk, OnOk, OnErr, true};
ghost use Rattle.gipsat_cnf.specs.Formulas.{AreBelow};

use gipsat_cnf::Literal;
use std::alloc::AllocError;

/// The variable whose number is the count of variables, which grows by one: no variable below the count is the same.
///
/// # Errors
/// `AllocError` where its number would be 2^31 or more. The count stays.
pub fn fresh(variables: &mut usize) -> Result<Literal, AllocError>
    ensures variable { IfOk result (λ l. l ≡ record { variable = variables.old; positive = true }) }
    ensures next { OnOk result (variables.new ≡ variables.old + 1) }
    ensures refused { OnErr result (variables.new ≡ variables.old) }
{
    let variable = *variables;
    if variable >= 1 << 31 {
        return Err(AllocError);
    }
    *variables = variable + 1;
    Ok(Literal::new(variable as u32, true))
}

/// The count of variables, or a greater one that the literals' variables are below.
pub fn above(variables: usize, literals: &[Literal]) -> usize
    ensures least { variables ≤ result }
    ensures below { AreBelow result literals.now }
{
    let mut above = variables;
    for l in literals {
        above = above.max(l.variable() as usize + 1);
    }
    above
}
