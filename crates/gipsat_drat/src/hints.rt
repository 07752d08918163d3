//! Clauses that their hints show. What the hints lead to is derived by the kernel, which adds the clause.
ghost use Rattle.std.specs.Prelude.{◌≡◌};
ghost use Rattle.gipsat_kernel.specs.Rat.{KeepsSatisfiable};

use crate::error::{Flaw, Stop};
use crate::hint_list::Hint;
use crate::met::Met;
use crate::names::RisingNames;
use crate::rat::{delete_all, resolvent_with};
use crate::rup::{begin_true, falsify, resolve_steps};
use crate::trail::{Reason, Trail, Value};
use gipsat_cnf::Literal;
use gipsat_kernel::RatKernel;
use std::alloc::{AllocError, Global};

// What a clause leaves open.
enum Rest {
    // No literal: all are false.
    Nothing,
    // This one; the others are false.
    One(Literal),
    // Another literal, or it has a true one.
    More,
}

// What a clause leaves open.
#[inline]
fn left(trail: &Trail, clause: &[Literal]) -> Rest {
    let mut open = None;
    for l in clause {
        match trail.value(*l) {
            Value::False => {}
            Value::True => return Rest::More,
            Value::Open if open.is_none() || open == Some(*l) => open = Some(*l),
            Value::Open => return Rest::More,
        }
    }
    match open {
        Some(l) => Rest::One(l),
        None => Rest::Nothing,
    }
}

// The id of the clause that a hint names.
#[inline]
fn named(names: &RisingNames, hint: Hint) -> Result<usize, Stop> {
    match names.get(hint.name) {
        Some(id) => Ok(id),
        None => Err(Stop::Refused(Flaw::Unnamed)),
    }
}

// Makes the literal true that each hint's clause leaves, as far as the first hint with a sign. The id of the first
// clause whose literals are all false.
fn follow(
    kernel: &RatKernel,
    trail: &mut Trail,
    names: &RisingNames,
    hints: &[Hint],
) -> Result<Option<usize>, Stop> {
    for hint in hints {
        if !hint.positive {
            break;
        }
        let id = named(names, *hint)?;
        match left(trail, kernel.clause(id).unwrap_or(&[])) {
            Rest::Nothing => return Ok(Some(id)),
            Rest::One(l) => trail.assign(l, Reason::Clause(id))?,
            Rest::More => return Err(Stop::Refused(Flaw::Hint)),
        }
    }
    Ok(None)
}

// The literal of a clause whose negation the clause that is being derived has.
#[inline]
fn pivot(kernel: &RatKernel, id: usize) -> Option<Literal> {
    for l in kernel.clause(id)? {
        if kernel.is_marked(l.negated()) {
            return Some(*l);
        }
    }
    None
}

// Resolves the clauses of hints, from the last one to the first. Whether each has a pivot, none of which the step has
// met before. Then each clause but the last is unit where it is followed forwards, and the last one has no literal left.
fn resolve_backwards(
    kernel: &mut RatKernel,
    met: &mut Met,
    names: &RisingNames,
    hints: &[Hint],
) -> Result<bool, AllocError>
    ensures { kernel.new ≡ kernel.old }
{
    let mut is_begun = false;
    for place in (0..hints.len()).rev() {
        let Some(hint) = hints.get(place).copied() else {
            return Ok(false);
        };
        if !hint.positive {
            return Ok(false);
        }
        let Some(id) = names.get(hint.name) else {
            return Ok(false);
        };
        if !is_begun {
            is_begun = kernel.begin(id)?;
            continue;
        }
        let Some(l) = pivot(kernel, id) else {
            return Ok(false);
        };
        if !met.meet(l) || !kernel.resolve(l, id)? {
            return Ok(false);
        }
    }
    Ok(is_begun)
}

// Adds a clause that its hints show by resolution, where they are as [`resolve_backwards`] says: its id.
fn add_backwards(
    kernel: &mut RatKernel,
    met: &mut Met,
    names: &RisingNames,
    clause: &[Literal],
    hints: &[Hint],
) -> Result<Option<usize>, AllocError>
    ensures { KeepsSatisfiable kernel.old kernel.new }
{
    if !met.is_worth() || !met.begin(clause) || !resolve_backwards(kernel, met, names, hints)? {
        met.count(false);
        return Ok(None);
    }
    met.count(true);
    kernel.conclude(clause)
}

// Adds a clause that its hints show, by resolution or as RAT on its first literal: its id.
pub(crate) fn add_hinted(
    alloc: Global,
    kernel: &mut RatKernel,
    trail: &mut Trail,
    met: &mut Met,
    names: &RisingNames,
    clause: &[Literal],
    hints: &[Hint],
) -> Result<usize, Stop>
    ensures { KeepsSatisfiable kernel.old kernel.new }
{
    if let Some(id) = add_backwards(kernel, met, names, clause, hints)? {
        return Ok(id);
    }
    if begin_hinted(kernel, trail, names, clause, hints)? {
        return conclude(kernel, trail, clause);
    }
    let mut resolvents = Vec::new(alloc);
    let mut found = Vec::new(alloc);
    let added = add_rat(
        alloc,
        kernel,
        trail,
        names,
        clause,
        hints,
        &mut resolvents,
        &mut found,
    );
    delete_all(kernel, &resolvents);
    added
}

// Makes the literals of a clause false, and follows hints. Begins to derive the clause if it is shown, and answers
// whether.
fn begin_hinted(
    kernel: &mut RatKernel,
    trail: &mut Trail,
    names: &RisingNames,
    clause: &[Literal],
    hints: &[Hint],
) -> Result<bool, Stop>
    ensures { kernel.new ≡ kernel.old }
{
    if let Some(l) = falsify(trail, clause)? {
        return Ok(begin_true(kernel, trail, l)?);
    }
    match follow(kernel, trail, names, hints)? {
        Some(conflict) => Ok(kernel.begin(conflict)?),
        None => Ok(false),
    }
}

// Resolves the clause that is being derived with the reasons of its literals, and adds a clause if it has all literals
// that are left: its id.
fn conclude(kernel: &mut RatKernel, trail: &mut Trail, clause: &[Literal]) -> Result<usize, Stop>
    ensures { KeepsSatisfiable kernel.old kernel.new }
{
    resolve_steps(kernel, trail, 0)?;
    match kernel.conclude(clause)? {
        Some(id) => Ok(id),
        None => Err(Stop::Refused(Flaw::NotHinted)),
    }
}

// Adds a clause that is RAT on its first literal: its id. Behind each hint with a sign are those that show a resolvent;
// the resolvents that were added are listed, and found with the ids of the clauses that they were added for.
fn add_rat(
    alloc: Global,
    kernel: &mut RatKernel,
    trail: &mut Trail,
    names: &RisingNames,
    clause: &[Literal],
    hints: &[Hint],
    resolvents: &mut Vec<usize>,
    found: &mut Vec<(usize, usize)>,
) -> Result<usize, Stop>
    ensures { KeepsSatisfiable kernel.old kernel.new }
{
    let settled = trail.len();
    for place in 0..hints.len() {
        let hint = hints[place];
        if hint.positive {
            continue;
        }
        trail.backtrack_to(settled);
        let id = named(names, hint)?;
        resolvents.reserve(1)?;
        let added = add_resolvent(alloc, kernel, trail, names, clause, id, &hints[place + 1..])?;
        resolvents.push_reserved(added);
        found.push((id, added))?;
    }
    found.sort_unstable();
    let ordered = last_of_each(alloc, found)?;
    match kernel.add_rat(clause, &ordered)? {
        Some(id) => Ok(id),
        None => Err(Stop::Refused(Flaw::NotHinted)),
    }
}

// The resolvents that were found, in the order of the clauses that they were found for: the last one for each.
fn last_of_each(alloc: Global, found: &[(usize, usize)]) -> Result<Vec<usize>, AllocError> {
    let mut last = Vec::new(alloc);
    for place in 0..found.len() {
        let (id, added) = found[place];
        match found.get(place + 1) {
            Some((next, _)) if *next == id => {}
            _ => last.push(added)?,
        }
    }
    Ok(last)
}

// Adds the resolvent on the first literal of a clause with the clause of an id, if hints show it: its id.
fn add_resolvent(
    alloc: Global,
    kernel: &mut RatKernel,
    trail: &mut Trail,
    names: &RisingNames,
    clause: &[Literal],
    id: usize,
    hints: &[Hint],
) -> Result<usize, Stop>
    ensures { KeepsSatisfiable kernel.old kernel.new }
{
    let Some(pivot) = clause.first().copied() else {
        return Err(Stop::Refused(Flaw::NotHinted));
    };
    let Some(resolvent) = resolvent_with(alloc, kernel, id, clause, pivot)? else {
        return Err(Stop::Refused(Flaw::NotHinted));
    };
    if begin_hinted(kernel, trail, names, &resolvent, hints)? {
        conclude(kernel, trail, &resolvent)
    } else {
        Err(Stop::Refused(Flaw::NotHinted))
    }
}
