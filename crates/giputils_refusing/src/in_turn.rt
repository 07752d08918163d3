//! Runs of one piece of work, each of which is refused memory a little later than the one before.

// How it is proved: two public functions of a private one with a flag. Write the answers for the
// private one; the public ones close.

ghost use Rattle.std.specs.Prelude.{◌≡◌, IfOk, IfErr};
ghost use Rattle.std.specs.Fn.{FnReturnsAt};
ghost use Rattle.giputils_refusing.specs.InTurn.{at_request, IsRun, AreRefused, IsServed, IsFault};

use crate::{Refused, Refusing};
use std::alloc::Allocator;

/// The most runs that [`refuse_each`] and [`refuse_from_each`] make.
pub const MOST_RUNS: u64 = 64;

/// Why runs that are refused memory in turn show nothing.
#[derive(Clone, Copy, PartialEq, Eq, Debug)]
pub enum TurnFault {
    /// The run that was refused this request said that it was served all the same.
    Hidden(u64),
    /// The run that was to be refused this request said that it was refused memory, but made fewer requests.
    Unrefused(u64),
    /// Each of [`MOST_RUNS`] runs was refused memory.
    Endless,
}

/// Makes a run with request 1 refused, then one with request 2 alone refused, and so on, until a run is served.
/// Tells how many runs were refused.
///
/// A run is lent the allocator and says whether it was served all that it asked for. It must say so exactly where
/// none of its requests was refused: this is looked up in the allocator's count after each run. The count changes
/// behind a `&`, so no clause can speak of it: the clauses say which runs were made, and what each of them said.
///
/// # Errors
/// [`TurnFault`] where a run says the contrary of what the count shows, and where no run is served.
pub fn refuse_each<B: Allocator + Copy, F: Fn(&Refusing<B>) -> bool>(
    inner: B,
    run: F,
) -> Result<u64, TurnFault>
    requires { F.IsAlwaysCallable run }
    ensures refused { IfOk result (AreRefused (FnReturnsAt F.Fn run) inner Refused.Nth) }
    ensures served { IfOk result (IsServed (FnReturnsAt F.Fn run) inner Refused.Nth) }
    ensures err { IfErr result (IsFault (FnReturnsAt F.Fn run) inner Refused.Nth) }
{
    refuse_in_turn(inner, run, false)
}

/// The same, with each later request refused as well.
///
/// It is for work that asks again where a request is refused, so that one refusal alone can pass unseen.
///
/// # Errors
/// As for [`refuse_each`].
pub fn refuse_from_each<B: Allocator + Copy, F: Fn(&Refusing<B>) -> bool>(
    inner: B,
    run: F,
) -> Result<u64, TurnFault>
    requires { F.IsAlwaysCallable run }
    ensures refused { IfOk result (AreRefused (FnReturnsAt F.Fn run) inner Refused.From) }
    ensures served { IfOk result (IsServed (FnReturnsAt F.Fn run) inner Refused.From) }
    ensures err { IfErr result (IsFault (FnReturnsAt F.Fn run) inner Refused.From) }
{
    refuse_in_turn(inner, run, true)
}

// Makes runs, each refused memory at the next request, and with `later` at the requests after it as well.
fn refuse_in_turn<B: Allocator + Copy, F: Fn(&Refusing<B>) -> bool>(
    inner: B,
    run: F,
    later: bool,
) -> Result<u64, TurnFault>
    requires { F.IsAlwaysCallable run }
    ensures refused { IfOk result (AreRefused (FnReturnsAt F.Fn run) inner (at_request later)) }
    ensures served { IfOk result (IsServed (FnReturnsAt F.Fn run) inner (at_request later)) }
    ensures err { IfErr result (IsFault (FnReturnsAt F.Fn run) inner (at_request later)) }
{
    for n in 0..MOST_RUNS {
        let (served, requests) = make_run(inner, at_request(n + 1, later), &run);
        match (served, requests > n) {
            (true, false) => return Ok(n),
            (true, true) => return Err(TurnFault::Hidden(n + 1)),
            (false, false) => return Err(TurnFault::Unrefused(n + 1)),
            (false, true) => {}
        }
    }
    Err(TurnFault::Endless)
}

// The request of this number is refused, and with `later` each one after it.
fn at_request(n: u64, later: bool) -> Refused
    ensures { result ≡ at_request later n }
{
    if later {
        Refused::From(n)
    } else {
        Refused::Nth(n)
    }
}

// Makes one run over `inner` with these requests refused. Tells whether it was served, and how many requests it made.
fn make_run<B: Allocator, F: Fn(&Refusing<B>) -> bool>(
    inner: B,
    refused: Refused,
    run: &F,
) -> (bool, u64)
    requires { F.IsAlwaysCallable run.now }
    ensures { IsRun (FnReturnsAt F.Fn run.now) inner refused result.0 }
{
    let memory = Refusing::refusing(inner, refused);
    let served = run(&memory);
    (served, memory.requests())
}
