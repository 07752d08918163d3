//! What one search about some literals finds out of whether any of them fails.
ghost use Rattle.std.specs.Prelude.{◌≡◌, ℕ, ◌<◌, ◌⊎◌, true, false, length, slice_get, Some};
ghost use Rattle.gipsat_cnf.specs.Literals.{Lit};
ghost use Rattle.gipmc_task.specs.Answers.{IsKnown};
ghost use Rattle.gipmc_task.specs.Verdicts.{outcome_of};
ghost use Rattle.gipmc_circuits.specs.Circuit.{IsSafe};
ghost use Rattle.gipmc_task.specs.declared.outcome.Outcome.TheVariants.{Fails, Safe};

use crate::answers::wanted_at;
use crate::output::Wanted;
use crate::query::Query;
use crate::verdict::Verdict;
use gipmc_engines::Observer;
use gipsat_cnf::SatSolver;
use std::alloc::Global;

/// What is known of the literal at a place.
#[derive(Drop)]
pub(crate) struct Placed {
    pub(crate) place: usize,
    pub(crate) known: Verdict,
}

/// What is known of the literal that stands for all that a search is about: of the first that is found to fail, or else
/// of the first of those of which least is known. The search is to be one that the first trace ends.
pub(crate) fn find_any<S: SatSolver + Drop, O: Observer>(
    alloc: Global,
    query: &mut Query<'_, S>,
    wanted: Wanted,
    observer: &mut O,
) -> Placed
    requires { 0 < length query.old.bads.now }
    ensures within { result.place < length query.old.bads.now }
    ensures right { (bad : Lit) → slice_get query.old.bads.now result.place ≡ Some bad →
        IsKnown query.old.whole.now.circuit bad result.known }
    ensures safe { outcome_of result.known ≡ Safe → (k : ℕ) (bad : Lit) → slice_get query.old.bads.now k ≡ Some bad →
        IsSafe query.old.whole.now.circuit bad }
{
    let count = query.bads.len();
    let mut found = find_at(alloc, query, 0, wanted, observer);
    for place in 1..count {
        if is_failing(&found.known) {
            return found;
        }
        let next = find_at(alloc, query, place, wanted, observer);
        found = less_known(found, next);
    }
    found
}

// What is known of the literal at a place, once the search came to its end or decided it.
fn find_at<S: SatSolver + Drop, O: Observer>(
    alloc: Global,
    query: &mut Query<'_, S>,
    place: usize,
    wanted: Wanted,
    observer: &mut O,
) -> Placed
    requires { place < length query.old.bads.now }
    ensures whole { query.new.whole ≡ query.old.whole }
    ensures bads { query.new.bads ≡ query.old.bads }
    ensures place { result.place ≡ place }
    ensures right { (bad : Lit) → slice_get query.old.bads.now result.place ≡ Some bad →
        IsKnown query.old.whole.now.circuit bad result.known }
{
    let wanted = wanted_at(place, wanted, observer);
    let known = query.find_out(alloc, place, wanted, observer);
    Placed { place, known }
}

// Whether a literal fails.
fn is_failing(known: &Verdict) -> bool
    ensures { result ≡ true → outcome_of known.now ≡ Fails }
{
    match known {
        Verdict::Fails(_) => true,
        Verdict::Holds(_) | Verdict::ClearTo(_) | Verdict::Unknown => false,
    }
}

// The one of two of which less is known, if it does not fail; the first one where as much is.
fn less_known(found: Placed, next: Placed) -> Placed
    ensures either { (result ≡ found) ⊎ (result ≡ next) }
    ensures found { outcome_of result.known ≡ Safe → outcome_of found.known ≡ Safe }
    ensures next { outcome_of result.known ≡ Safe → outcome_of next.known ≡ Safe }
{
    if is_less(&next.known, &found.known) {
        next
    } else {
        found
    }
}

// Whether the one says that a literal fails, or less than the other one.
fn is_less(one: &Verdict, other: &Verdict) -> bool
    ensures less { result ≡ true → outcome_of one.now ≡ Safe → outcome_of other.now ≡ Safe }
    ensures more { result ≡ false → outcome_of other.now ≡ Safe → outcome_of one.now ≡ Safe }
{
    match one {
        Verdict::Fails(_) => true,
        Verdict::Unknown => is_something(other),
        Verdict::ClearTo(depth) => is_beyond(other, *depth),
        Verdict::Holds(_) => false,
    }
}

// Whether a depth is known up to which nothing fails, or that nothing does.
fn is_something(known: &Verdict) -> bool
    ensures { outcome_of known.now ≡ Safe → result ≡ true }
{
    match known {
        Verdict::Holds(_) | Verdict::ClearTo(_) => true,
        Verdict::Fails(_) | Verdict::Unknown => false,
    }
}

// The same of a greater depth than this.
fn is_beyond(known: &Verdict, depth: usize) -> bool
    ensures { outcome_of known.now ≡ Safe → result ≡ true }
{
    match known {
        Verdict::Holds(_) => true,
        Verdict::ClearTo(other) => depth < *other,
        Verdict::Fails(_) | Verdict::Unknown => false,
    }
}
