//! Tells of bad literals as they are decided, in whatever order.
ghost use Rattle.std.specs.Prelude.{◌≡◌, ◌<◌, length, IfOk, IfSome, IsPermutation, IsTrue};
ghost use Rattle.std.specs.List.{range_with_len};
ghost use Rattle.gipmc_task.specs.Answers.{Tells, TellsEach};
ghost use Rattle.gipmc_task.specs.Output.{IsWritten};
ghost use Rattle.gipmc_task.specs.Verdicts.{texts_of};

use crate::answered::Answered;
use crate::answers::tell_at;
use crate::output::{Output, Wanted};
use crate::query::Query;
use gipmc_engines::{Event, Observer};
use gipsat_cnf::SatSolver;
use std::alloc::{AllocError, Global};
use std::io::Write;

// How many times at each depth of bounded model checking what is decided is looked for.
const LOOKS: usize = 16;

/// Tells of all literals that a search is about, those of its circuit: of each once it is seen to be decided, and of
/// those that are left once the search ends.
pub(crate) fn tell_known<S: SatSolver + Drop, O: Observer, W: Write>(
    alloc: Global,
    query: &mut Query<'_, S>,
    observer: &mut O,
    output: &mut Output<W>,
) -> Result<Vec<Answered>, AllocError>
    requires { query.old.bads.now ≡ query.old.whole.now.circuit.bads.items }
    ensures tells { IfOk result (λ answers.
        TellsEach (Tells query.old.whole.now.circuit) (length query.old.bads.now) answers.items) }
    ensures written { IfOk result (λ answers. IsWritten output.old.failure output.new.failure
        (W.contents output.old.writer) (W.contents output.new.writer) (texts_of answers.items)) }
{
    let mut left = places_down(alloc, query.bads.len())?;
    let mut answers = Vec::new(alloc);
    let mut at = left.len();
    for told in 0..query.bads.len() {
        let _told = told;
        at = next_known(alloc, query, &left, at, output.wanted(), observer);
        let place = left.remove(at);
        let answer = tell_at(alloc, query, place, place, observer, output)?;
        answers.reserve(1)?;
        answers.push_reserved(answer);
    }
    Ok(answers)
}

// The places before a count, from the greatest down.
fn places_down(alloc: Global, count: usize) -> Result<Vec<usize>, AllocError>
    ensures { IfOk result (λ places. IsPermutation (range_with_len 0 count) places.items) }
{
    let mut places = Vec::new(alloc);
    for place in 0..count {
        places.push(place)?;
    }
    places.reverse();
    Ok(places)
}

// Where in a list a place stands whose literal is decided: the last such one before an end, or else of all. Where there is
// none, the search goes on until there is; where it ends first, the last of the list.
fn next_known<S: SatSolver + Drop, O: Observer>(
    alloc: Global,
    query: &mut Query<'_, S>,
    left: &[usize],
    end: usize,
    wanted: Wanted,
    observer: &mut O,
) -> usize
    requires { 0 < length left.now }
    ensures whole { query.new.whole ≡ query.old.whole }
    ensures bads { query.new.bads ≡ query.old.bads }
    ensures within { result < length left.now }
{
    if let Some(at) = last_known(query, left, end) {
        return at;
    }
    go_on(alloc, query, left, wanted, observer);
    match last_known(query, left, left.len()) {
        Some(at) => at,
        None => left.len() - 1,
    }
}

// Where the place of a literal that is decided stands in a list, the last one before an end.
fn last_known<S: SatSolver + Drop>(
    query: &Query<'_, S>,
    left: &[usize],
    end: usize,
) -> Option<usize>
    ensures { IfSome result (λ at. at < length left.now) }
{
    for back in 0..end {
        let at = end - 1 - back;
        if is_known_at(query, left, at) {
            return Some(at);
        }
    }
    None
}

// Whether the literal is decided whose place stands there in a list.
fn is_known_at<S: SatSolver + Drop>(query: &Query<'_, S>, left: &[usize], at: usize) -> bool
    ensures { IsTrue result → at < length left.now }
{
    if at >= left.len() {
        return false;
    }
    !query.is_open(left[at])
}

// Tells an observer that the search is about the literal at a place, and answers whether it is to go on.
fn begin<O: Observer>(place: usize, observer: &mut O) -> bool {
    !observer.note(Event::Begin(place)).is_break()
}

// Goes on until the literal at one of these places is decided, or the search ends, if something is wanted of it.
fn go_on<S: SatSolver + Drop, O: Observer>(
    alloc: Global,
    query: &mut Query<'_, S>,
    left: &[usize],
    wanted: Wanted,
    observer: &mut O,
)
    ensures whole { query.new.whole ≡ query.old.whole }
    ensures bads { query.new.bads ≡ query.old.bads }
{
    let Some(place) = before(left, left.len()) else {
        return;
    };
    if wanted == Wanted::Nothing || !begin(place, observer) {
        return;
    }
    let mut depth: usize = 0;
    for _ in 0..usize::MAX {
        let Some(reached) = go_on_to(alloc, query, left, depth, observer) else {
            return;
        };
        depth = reached.saturating_add(1);
    }
}

// Goes on, for up to LOOKS of these places from the last one on, until no trace of at most so many transitions fails there.
// Answers the depth that is known of the one asked last; None where one is decided, or the search ends.
fn go_on_to<S: SatSolver + Drop, O: Observer>(
    alloc: Global,
    query: &mut Query<'_, S>,
    left: &[usize],
    depth: usize,
    observer: &mut O,
) -> Option<usize>
    ensures whole { query.new.whole ≡ query.old.whole }
    ensures bads { query.new.bads ≡ query.old.bads }
{
    let stride = (left.len() / LOOKS).saturating_add(1);
    let mut reached = depth;
    let mut end = left.len();
    for _ in 0..LOOKS {
        let Some(place) = before(left, end) else {
            return Some(reached);
        };
        reached = clear_at(alloc, query, place, depth, observer)?;
        if last_known(query, left, left.len()).is_some() {
            return None;
        }
        end = end.saturating_sub(stride);
    }
    Some(reached)
}

// The last place before an end of a list.
fn before(left: &[usize], end: usize) -> Option<usize> {
    left.get(end.checked_sub(1)?).copied()
}

// Goes on until no trace of at most so many transitions fails as to the literal at a place, or of one more than it is known
// of where what is left was found meanwhile, and answers up to how many that is known. None where it is decided, or the search
// ends.
fn clear_at<S: SatSolver + Drop, O: Observer>(
    alloc: Global,
    query: &mut Query<'_, S>,
    place: usize,
    depth: usize,
    observer: &mut O,
) -> Option<usize>
    ensures whole { query.new.whole ≡ query.old.whole }
    ensures bads { query.new.bads ≡ query.old.bads }
{
    if place >= query.bads.len() {
        return None;
    }
    query.look(alloc, place, depth, observer);
    let depth = depth.min(query.length(place));
    query.clear(alloc, place, depth, observer)
}
