//! Clauses that are RUP: unit propagation shows that they follow. What propagation found is derived by the kernel,
//! which adds the clause.
ghost use Rattle.std.specs.Prelude.{◌≡◌, IfOk};
ghost use Rattle.std.specs.Bool.{OnTrue};
ghost use Rattle.gipsat_cnf.specs.Formulas.{IsSatisfiable};
ghost use Rattle.gipsat_kernel.specs.Rat.{KeepsSatisfiable};

use crate::propagation::{attach, propagate};
use crate::trail::{Reason, Trail, Value};
use crate::watches::Watches;
use gipsat_cnf::Literal;
use gipsat_kernel::RatKernel;
use std::alloc::{AllocError, Global};

// Adds a clause if unit propagation shows that it follows: its id. What was assigned is taken back, also where memory is
// refused.
pub(crate) fn add_rup(
    alloc: Global,
    kernel: &mut RatKernel,
    trail: &mut Trail,
    watches: &mut Watches,
    clause: &[Literal],
) -> Result<Option<usize>, AllocError>
    ensures { KeepsSatisfiable kernel.old kernel.new }
{
    let added = derive(alloc, kernel, trail, watches, clause);
    trail.backtrack();
    added
}

// Adds a clause if unit propagation shows that it follows: its id. What was assigned stays.
fn derive(
    alloc: Global,
    kernel: &mut RatKernel,
    trail: &mut Trail,
    watches: &mut Watches,
    clause: &[Literal],
) -> Result<Option<usize>, AllocError>
    ensures { KeepsSatisfiable kernel.old kernel.new }
{
    if !begin_rup(alloc, kernel, trail, watches, clause)? {
        return Ok(None);
    }
    conclude(kernel, trail, clause)
}

// Makes the literals of a clause false and propagates. Begins to derive the clause if it is shown, and answers whether.
fn begin_rup(
    alloc: Global,
    kernel: &mut RatKernel,
    trail: &mut Trail,
    watches: &mut Watches,
    clause: &[Literal],
) -> Result<bool, AllocError>
    ensures { KeepsSatisfiable kernel.old kernel.new }
{
    if let Some(l) = falsify(trail, clause)? {
        return begin_true(kernel, trail, l);
    }
    match propagate(alloc, kernel, trail, watches)? {
        Some(conflict) => begin(kernel, trail, conflict),
        None => Ok(false),
    }
}

// Begins to derive a clause from another one.
pub(crate) fn begin(
    kernel: &mut RatKernel,
    trail: &mut Trail,
    id: usize,
) -> Result<bool, AllocError>
    ensures { kernel.new ≡ kernel.old }
{
    trail.begin_derivation();
    trail.note_used(id)?;
    kernel.begin(id)
}

// Begins to derive a clause that has a true literal.
pub(crate) fn begin_true(
    kernel: &mut RatKernel,
    trail: &mut Trail,
    l: Literal,
) -> Result<bool, AllocError>
    ensures { kernel.new ≡ kernel.old }
{
    match trail.reason(l) {
        Reason::Clause(id) => begin(kernel, trail, id),
        Reason::Assumed => {
            trail.begin_derivation();
            kernel.begin_tautology(l)?;
            Ok(true)
        }
    }
}

// Makes the literals of a clause false. One of them, if it is true.
pub(crate) fn falsify(
    trail: &mut Trail,
    clause: &[Literal],
) -> Result<Option<Literal>, AllocError> {
    for l in clause {
        match trail.value(*l) {
            Value::True => return Ok(Some(*l)),
            Value::False => {}
            Value::Open => trail.assign(l.negated(), Reason::Assumed)?,
        }
    }
    Ok(None)
}

// Resolves the clause that is being derived with the reasons of its literals, the latest first, and adds a clause if it
// has all literals that are left: its id.
fn conclude(
    kernel: &mut RatKernel,
    trail: &mut Trail,
    clause: &[Literal],
) -> Result<Option<usize>, AllocError>
    ensures { KeepsSatisfiable kernel.old kernel.new }
{
    let root = trail.root();
    resolve_steps(kernel, trail, root)?;
    resolve_rooted(kernel, trail)?;
    let id = kernel.conclude(clause)?;
    trail.note_derived(id)?;
    Ok(id)
}

// Resolves the clause that is being derived with the reasons of the literals that are true from one place on, the latest
// first.
pub(crate) fn resolve_steps(
    kernel: &mut RatKernel,
    trail: &mut Trail,
    from: usize,
) -> Result<(), AllocError>
    ensures { kernel.new ≡ kernel.old }
{
    for place in (from..trail.len()).rev() {
        let Some(l) = trail.step(place) else {
            continue;
        };
        resolve(kernel, trail, l)?;
    }
    Ok(())
}

// Resolves the clause that is being derived with the reason of a true literal, if it has the negation.
fn resolve(kernel: &mut RatKernel, trail: &mut Trail, l: Literal) -> Result<(), AllocError>
    ensures { kernel.new ≡ kernel.old }
{
    if let Reason::Clause(id) = trail.reason(l) {
        if kernel.resolve(l, id)? {
            trail.note_used(id)?;
        }
    }
    Ok(())
}

// Takes the literals that are false by the clauses alone out of the clause that is being derived.
fn resolve_rooted(kernel: &mut RatKernel, trail: &mut Trail) -> Result<(), AllocError>
    ensures { kernel.new ≡ kernel.old }
{
    for place in 0..kernel.marked().len() {
        let Some(l) = kernel.marked().get(place).copied() else {
            continue;
        };
        if trail.is_false(l) {
            resolve(kernel, trail, l.negated())?;
        }
    }
    Ok(())
}

// Adds a clause for each literal that has become true by the clauses alone, which has this literal alone and is its
// reason from then on.
fn add_units(kernel: &mut RatKernel, trail: &mut Trail) -> Result<(), AllocError>
    ensures { KeepsSatisfiable kernel.old kernel.new }
{
    for place in trail.root()..trail.len() {
        let Some(l) = trail.step(place) else {
            continue;
        };
        if let Some(id) = add_unit(kernel, trail, l)? {
            trail.set_reason(l, Reason::Clause(id));
        }
    }
    Ok(())
}

// Adds the clause of a literal that is true by the clauses alone: its id.
fn add_unit(
    kernel: &mut RatKernel,
    trail: &mut Trail,
    l: Literal,
) -> Result<Option<usize>, AllocError>
    ensures { KeepsSatisfiable kernel.old kernel.new }
{
    begin_true(kernel, trail, l)?;
    resolve_rooted(kernel, trail)?;
    let id = kernel.conclude(&[l])?;
    trail.note_derived(id)?;
    Ok(id)
}

// Lets a clause of the kernel watch two literals, and propagates what it makes true, for good. Whether the empty clause
// is shown by that. Where memory is refused, what was assigned is taken back.
pub(crate) fn enter(
    alloc: Global,
    kernel: &mut RatKernel,
    trail: &mut Trail,
    watches: &mut Watches,
    id: usize,
) -> Result<bool, AllocError>
    ensures keeps { KeepsSatisfiable kernel.old kernel.new }
    ensures refuted { IfOk result (λ yes. OnTrue yes (¬ (IsSatisfiable kernel.new))) }
{
    let empty = settle(alloc, kernel, trail, watches, id);
    trail.backtrack();
    match empty? {
        Some(id) => Ok(kernel.is_refuted(id)),
        None => Ok(false),
    }
}

// Lets a clause of the kernel watch two literals, and propagates what it makes true, for good. The id of the empty
// clause if it follows.
fn settle(
    alloc: Global,
    kernel: &mut RatKernel,
    trail: &mut Trail,
    watches: &mut Watches,
    id: usize,
) -> Result<Option<usize>, AllocError>
    ensures { KeepsSatisfiable kernel.old kernel.new }
{
    if let Some(conflict) = attach(kernel, trail, watches, id)? {
        return add_empty(kernel, trail, conflict);
    }
    if let Some(conflict) = propagate(alloc, kernel, trail, watches)? {
        return add_empty(kernel, trail, conflict);
    }
    add_units(kernel, trail)?;
    trail.settle();
    Ok(None)
}

// Adds the empty clause, where all literals of a clause are false by the clauses alone: its id.
fn add_empty(
    kernel: &mut RatKernel,
    trail: &mut Trail,
    conflict: usize,
) -> Result<Option<usize>, AllocError>
    ensures { KeepsSatisfiable kernel.old kernel.new }
{
    begin(kernel, trail, conflict)?;
    conclude(kernel, trail, &[])
}
