//! Lists of clauses that grow.
ghost use Rattle.std.specs.Prelude.{◌≡◌, ◌&&◌, OnOk};
ghost use Rattle.gipmc_circuits.specs.Certificate.{holds};
ghost use Rattle.gipmc_reduce.specs.Correspondence.{AddsClause, AddsEquality, HoldBoth};

use gipsat_cnf::Literal;
use std::alloc::{AllocError, Global};

// Adds a clause.
fn add_clause(
    alloc: Global,
    clauses: &mut Vec<Vec<Literal>>,
    clause: &[Literal],
) -> Result<(), AllocError>
    ensures { OnOk result (AddsClause clause.now clauses.old.items clauses.new.items) }
{
    let mut own = Vec::new(alloc);
    own.extend_from_slice(clause)?;
    clauses.reserve(1)?;
    clauses.push_reserved(own);
    Ok(())
}

/// Adds clauses that a variable has the value of a literal: none if it is its own, one if it is a constant, and two if
/// it is another one.
///
/// # Errors
/// `AllocError` where memory is refused, or where the variable is 2^31 or more. Some clauses may have been added.
pub(crate) fn add_equal(
    alloc: Global,
    clauses: &mut Vec<Vec<Literal>>,
    variable: usize,
    l: Literal,
) -> Result<(), AllocError>
    ensures { OnOk result (AddsEquality variable l clauses.old.items clauses.new.items) }
{
    if variable >= 1 << 31 {
        return Err(AllocError);
    }
    let own = Literal::new(variable as u32, true);
    if l.variable() == own.variable() && l.is_positive() {
        return Ok(());
    }
    if l.variable() == 0 {
        return add_clause(
            alloc,
            clauses,
            &[Literal::new(own.variable(), !l.is_positive())],
        );
    }
    add_clause(alloc, clauses, &[own.negated(), l])?;
    add_clause(alloc, clauses, &[own, l.negated()])
}

/// Adds all of these clauses.
///
/// # Errors
/// `AllocError` where memory is refused. Some clauses may have been added.
pub(crate) fn add_clauses(
    alloc: Global,
    clauses: &mut Vec<Vec<Literal>>,
    others: &[Vec<Literal>],
) -> Result<(), AllocError>
    ensures { OnOk result (HoldBoth clauses.new.items clauses.old.items others.now) }
{
    for clause in others {
        add_clause(alloc, clauses, clause)?;
    }
    Ok(())
}
