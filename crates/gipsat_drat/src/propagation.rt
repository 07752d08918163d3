//! What becomes true by the clauses. Nothing is proved of it but that the kernel's formula keeps satisfiability: what
//! is found here is derived before it is believed.
ghost use Rattle.std.specs.Prelude.{◌<◌, length, IfSome};
ghost use Rattle.gipsat_kernel.specs.Rat.{KeepsSatisfiable};

use crate::trail::{Reason, Trail, Value};
use crate::watches::{Watch, Watches};
use gipsat_cnf::Literal;
use gipsat_kernel::RatKernel;
use std::alloc::{AllocError, Global};

// What became of a watch: what it is now, whether it stays, and the id of its clause if all literals of that are false.
#[derive(Clone, Copy)]
struct Visited {
    watch: Watch,
    stays: bool,
    conflict: Option<usize>,
}

// A watch with no conflict.
fn seen(id: usize, blocker: Literal, stays: bool) -> Visited {
    Visited {
        watch: Watch { id, blocker },
        stays,
        conflict: None,
    }
}

// The place of a literal behind the first two that isn't false, nor a certain one.
fn replacement(trail: &Trail, clause: &[Literal], but: Literal) -> Option<usize>
    ensures { IfSome result (λ place. place < length clause.now) }
{
    for place in 2..clause.len() {
        let l = clause[place];
        if l.code() != but.code() && !trail.is_false(l) {
            return Some(place);
        }
    }
    None
}

// The other watched literal of a clause, and the place of a certain one that it watches.
#[inline]
fn other_watched(clause: &[Literal], l: Literal) -> Option<(Literal, usize)> {
    let first = *clause.first()?;
    let second = *clause.get(1)?;
    if second.code() == l.code() {
        Some((first, 1))
    } else if first.code() == l.code() {
        Some((second, 0))
    } else {
        None
    }
}

// Looks at a clause one of whose watched literals has become false. Behind a conflict it only drops the watch of a clause
// that was deleted.
fn visit_clause(
    kernel: &mut RatKernel,
    trail: &mut Trail,
    watches: &mut Watches,
    watch: Watch,
    falsified: Literal,
    is_conflict: bool,
) -> Result<Visited, AllocError>
    ensures { KeepsSatisfiable kernel.old kernel.new }
{
    let Watch { id, blocker } = watch;
    if is_conflict {
        return Ok(seen(id, blocker, kernel.clause(id).is_some()));
    }
    if trail.is_true(blocker) {
        return Ok(seen(id, blocker, true));
    }
    let Some(clause) = kernel.clause(id) else {
        return Ok(seen(id, blocker, false));
    };
    let Some((other, place)) = other_watched(clause, falsified) else {
        return Ok(seen(id, blocker, false));
    };
    let value = trail.value(other);
    if value == Value::True {
        return Ok(seen(id, other, true));
    }
    if let Some(next) = replacement(trail, clause, other) {
        let l = clause[next];
        kernel.swap(id, place, next);
        watches.add(l, Watch { id, blocker: other })?;
        return Ok(seen(id, other, false));
    }
    if value == Value::False {
        return Ok(Visited {
            watch: Watch { id, blocker: other },
            stays: true,
            conflict: Some(id),
        });
    }
    trail.assign(other, Reason::Clause(id))?;
    Ok(seen(id, other, true))
}

// Looks at each clause that watches a literal that has become false. One whose literals are all false, if one is met.
fn visit_watches(
    alloc: Global,
    kernel: &mut RatKernel,
    trail: &mut Trail,
    watches: &mut Watches,
    falsified: Literal,
) -> Result<Option<usize>, AllocError>
    ensures { KeepsSatisfiable kernel.old kernel.new }
{
    let mut list = watches.take(alloc, falsified);
    let mut kept: usize = 0;
    let mut conflict = None;
    for place in 0..list.len() {
        let Some(watch) = list.get(place).copied() else {
            break;
        };
        let visited = visit_clause(kernel, trail, watches, watch, falsified, conflict.is_some())?;
        put(&mut list, kept, visited.watch);
        kept = kept.saturating_add(usize::from(visited.stays));
        conflict = conflict.or(visited.conflict);
    }
    list.truncate(kept);
    watches.put(falsified, list);
    Ok(conflict)
}

// Writes a watch to a place of a list.
#[inline]
fn put(list: &mut Vec<Watch>, place: usize, watch: Watch) {
    if let Some(slot) = list.get_mut(place) {
        *slot = watch;
    }
}

// Propagates what has become true. A clause whose literals are all false, if one is met.
pub(crate) fn propagate(
    alloc: Global,
    kernel: &mut RatKernel,
    trail: &mut Trail,
    watches: &mut Watches,
) -> Result<Option<usize>, AllocError>
    ensures { KeepsSatisfiable kernel.old kernel.new }
{
    // Each variable gets a value once at most.
    for _ in 0..trail.capacity() {
        let Some(l) = trail.next() else {
            return Ok(None);
        };
        let conflict = visit_watches(alloc, kernel, trail, watches, l.negated())?;
        if conflict.is_some() {
            return Ok(conflict);
        }
    }
    Ok(None)
}

// The place of a literal of a clause that isn't false, from one place on.
fn non_false(trail: &Trail, clause: &[Literal], from: usize, but: Option<Literal>) -> Option<usize>
    ensures { IfSome result (λ place. place < length clause.now) }
{
    for place in from..clause.len() {
        let l = clause[place];
        if Some(l) != but && !trail.is_false(l) {
            return Some(place);
        }
    }
    None
}

// Lets a clause watch two literals, or makes the one true that it leaves. Its id if all its literals are false.
pub(crate) fn attach(
    kernel: &mut RatKernel,
    trail: &mut Trail,
    watches: &mut Watches,
    id: usize,
) -> Result<Option<usize>, AllocError>
    ensures { KeepsSatisfiable kernel.old kernel.new }
{
    let Some(clause) = kernel.clause(id) else {
        return Ok(None);
    };
    let Some(place) = non_false(trail, clause, 0, None) else {
        return Ok(Some(id));
    };
    let first = clause[place];
    if let Some(next) = non_false(trail, clause, place, Some(first)) {
        let second = clause[next];
        kernel.swap(id, 0, place);
        kernel.swap(id, 1, next);
        watches.watch(id, first, second)?;
        return Ok(None);
    }
    if trail.value(first) == Value::Open {
        trail.assign(first, Reason::Clause(id))?;
    }
    Ok(None)
}
