//! Propagation: unit clauses assign their literals, until a clause is falsified or none is unit. Two literals of a
//! clause are watched (Moskewicz and others, 2001), and the search for a third goes on where it ended (I. Gent, 2013).

use crate::activity::Activity;
use crate::arena::{Arena, HEADER, Header};
use crate::state::State;
use crate::trail::Trail;
use crate::watches::{Watch, Watches};
use gipsat_cnf::Literal;
use std::alloc::{AllocError, Global};

// What becomes of a watch: it stays, it goes, it stays for another blocker, or its clause, which has this id, is
// falsified.
#[derive(Clone, Copy)]
enum Visit {
    Stays,
    Goes,
    Blocked(Literal),
    Falsified(u32),
}

// Assigns the last literal of a clause that is not false, or tells that it is false too. Above the root, a literal that
// is not of the domain is passed over.
#[inline]
fn assign_last(
    trail: &mut Trail,
    activity: &Activity,
    l: Literal,
    id: u32,
) -> Result<Visit, AllocError> {
    if trail.is_false(l) {
        return Ok(Visit::Falsified(id));
    }
    if trail.level() > 0 && activity.excludes(l.variable()) {
        return Ok(Visit::Blocked(l));
    }
    trail.assign(l, id)?;
    Ok(Visit::Blocked(l))
}

// The first place, from `start` on and before `end`, whose literal is not false.
#[inline]
fn non_false_between(trail: &Trail, arena: &Arena, start: u32, end: u32) -> Option<u32> {
    for place in start..end {
        if !trail.is_false(arena.at(place as usize)?) {
            return Some(place);
        }
    }
    None
}

// A place of the clause at a home behind its two watched literals whose literal is not false: the first from the place
// on where the last search ended, or else the first before it.
#[inline]
fn replacement(trail: &Trail, arena: &Arena, home: u32, header: Header) -> Option<u32> {
    match non_false_between(trail, arena, header.from, header.end) {
        Some(place) => Some(place),
        None => {
            let start = home.saturating_add(HEADER as u32 + 2);
            non_false_between(trail, arena, start, header.from)
        }
    }
}

// Looks at a clause of more than two literals, one of whose watched literals has become false.
fn visit_clause(
    trail: &mut Trail,
    arena: &mut Arena,
    watches: &mut Watches,
    activity: &Activity,
    watch: Watch,
    falsified: Literal,
) -> Result<Visit, AllocError> {
    let home = watch.number() as usize;
    let Some(header) = arena.header(home) else {
        return Ok(Visit::Goes);
    };
    let Some((first, second)) = arena.watched(home) else {
        return Ok(Visit::Goes);
    };
    if header.end == 0 {
        return Ok(Visit::Goes);
    }
    let other = if first.code() == falsified.code() {
        second
    } else {
        first
    };
    if trail.is_true(other) {
        return Ok(Visit::Blocked(other));
    }
    let Some(place) = replacement(trail, arena, watch.number(), header) else {
        return assign_last(trail, activity, other, header.id);
    };
    let Some(new) = arena.at(place as usize) else {
        return Ok(Visit::Goes);
    };
    arena.go_on_from(home, place);
    if trail.is_true(new) {
        return Ok(Visit::Blocked(new));
    }
    arena.watch(home, other, new, place, falsified);
    watches.add(new, watch.with(other))?;
    Ok(Visit::Goes)
}

// Looks at a watch of a literal that has become false.
#[inline]
fn visit_watch(
    trail: &mut Trail,
    arena: &mut Arena,
    watches: &mut Watches,
    activity: &Activity,
    watch: Watch,
    falsified: Literal,
) -> Result<Visit, AllocError> {
    if trail.is_true(watch.blocker) {
        return Ok(Visit::Stays);
    }
    if watch.is_binary() {
        return assign_last(trail, activity, watch.blocker, watch.number());
    }
    visit_clause(trail, arena, watches, activity, watch, falsified)
}

// Looks at the clauses that watch a literal which has become false. The id of a falsified clause, if one is met.
fn visit_watches(
    alloc: Global,
    trail: &mut Trail,
    arena: &mut Arena,
    watches: &mut Watches,
    activity: &Activity,
    falsified: Literal,
) -> Result<Option<u32>, AllocError> {
    let mut list = watches.take(alloc, falsified);
    let mut kept = 0usize;
    let mut conflict = None;
    for place in 0..list.len() {
        let Some(watch) = list.get(place).copied() else {
            break;
        };
        let mut stays = watch;
        if conflict.is_none() {
            match visit_watch(trail, arena, watches, activity, watch, falsified)? {
                Visit::Stays => {}
                Visit::Goes => continue,
                Visit::Blocked(l) => {
                    if !watch.is_binary() {
                        stays = watch.with(l);
                    }
                }
                Visit::Falsified(id) => conflict = Some(id),
            }
        }
        if let Some(home) = list.get_mut(kept) {
            *home = stays;
        }
        kept = kept.saturating_add(1);
    }
    list.truncate(kept);
    watches.put(falsified, list);
    Ok(conflict)
}

// Propagates all assigned literals. The id of a falsified clause, if one is met.
pub(crate) fn propagate(alloc: Global, state: &mut State) -> Result<Option<u32>, AllocError> {
    for _ in 0..usize::MAX {
        let Some(l) = state.trail.next() else {
            return Ok(None);
        };
        state.stats.propagations = state.stats.propagations.saturating_add(1);
        let conflict = visit_watches(
            alloc,
            &mut state.trail,
            &mut state.clauses.arena,
            &mut state.watches,
            &state.activity,
            l.negated(),
        )?;
        if conflict.is_some() {
            return Ok(conflict);
        }
    }
    Ok(None)
}
