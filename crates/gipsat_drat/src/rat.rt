//! Clauses that are RAT: unit propagation shows each resolvent on the first literal, the pivot. The kernel adds the
//! clause if the resolvents are clauses of its formula.
ghost use Rattle.gipsat_kernel.specs.Rat.{KeepsSatisfiable};

use crate::rup::add_rup;
use crate::trail::{Trail, Value};
use crate::watches::Watches;
use gipsat_cnf::Literal;
use gipsat_kernel::RatKernel;
use std::alloc::{AllocError, Global};

// Adds a clause if it is RAT on its first literal, which has to be open: its id. The resolvents are deleted again, also
// where memory is refused.
pub(crate) fn add_rat(
    alloc: Global,
    kernel: &mut RatKernel,
    trail: &mut Trail,
    watches: &mut Watches,
    clause: &[Literal],
) -> Result<Option<usize>, AllocError>
    ensures { KeepsSatisfiable kernel.old kernel.new }
{
    let Some(pivot) = clause.first().copied() else {
        return Ok(None);
    };
    if trail.value(pivot) != Value::Open {
        return Ok(None);
    }
    let mut resolvents = Vec::new(alloc);
    let added = add_resolved(
        alloc,
        kernel,
        trail,
        watches,
        clause,
        pivot,
        &mut resolvents,
    );
    delete_all(kernel, &resolvents);
    added
}

// Adds the resolvents of a clause on the pivot, and lists their ids. Adds the clause if unit propagation shows all of
// them: its id.
fn add_resolved(
    alloc: Global,
    kernel: &mut RatKernel,
    trail: &mut Trail,
    watches: &mut Watches,
    clause: &[Literal],
    pivot: Literal,
    resolvents: &mut Vec<usize>,
) -> Result<Option<usize>, AllocError>
    ensures { KeepsSatisfiable kernel.old kernel.new }
{
    if !add_resolvents(alloc, kernel, trail, watches, clause, pivot, resolvents)? {
        return Ok(None);
    }
    kernel.add_rat(clause, resolvents)
}

// Adds the resolvents of a clause on the pivot, as far as unit propagation shows them: their ids. Whether it shows all.
fn add_resolvents(
    alloc: Global,
    kernel: &mut RatKernel,
    trail: &mut Trail,
    watches: &mut Watches,
    clause: &[Literal],
    pivot: Literal,
    resolvents: &mut Vec<usize>,
) -> Result<bool, AllocError>
    ensures { KeepsSatisfiable kernel.old kernel.new }
{
    let ids = kernel.ids_with(pivot.negated());
    for id in ids.start..ids.end {
        let Some(resolvent) = resolvent_with(alloc, kernel, id, clause, pivot)? else {
            continue;
        };
        resolvents.reserve(1)?;
        let Some(added) = add_rup(alloc, kernel, trail, watches, &resolvent)? else {
            return Ok(false);
        };
        resolvents.push_reserved(added);
    }
    Ok(true)
}

// The resolvent of a clause on the pivot, which stays, with the clause of an id, if that has the pivot's negation.
pub(crate) fn resolvent_with(
    alloc: Global,
    kernel: &RatKernel,
    id: usize,
    clause: &[Literal],
    pivot: Literal,
) -> Result<Option<Vec<Literal>>, AllocError> {
    let Some(other) = kernel.clause(id) else {
        return Ok(None);
    };
    let opposite = pivot.negated();
    if !has(other, opposite) {
        return Ok(None);
    }
    let mut resolvent = Vec::with_capacity(alloc, clause.len())?;
    resolvent.extend_from_slice(clause)?;
    for l in other {
        if l.code() != opposite.code() {
            resolvent.push(*l)?;
        }
    }
    Ok(Some(resolvent))
}

// Whether a literal is one of the clause's.
pub(crate) fn has(clause: &[Literal], l: Literal) -> bool {
    for m in clause {
        if m.code() == l.code() {
            return true;
        }
    }
    false
}

// Deletes clauses.
pub(crate) fn delete_all(kernel: &mut RatKernel, ids: &[usize])
    ensures { KeepsSatisfiable kernel.old kernel.new }
{
    for id in ids {
        kernel.delete(*id);
    }
}
