//! A search about some literals of a circuit, and one about what is left of it where equal variables are merged.
ghost use Rattle.std.specs.Prelude.{◌≡◌, ◌<◌, length, slice_get, Some, IfSome};
ghost use Rattle.std.specs.Option.{ForSome};
ghost use Rattle.gipsat_cnf.specs.Literals.{Lit};
ghost use Rattle.gipmc_task.specs.Answers.{IsKnown};
ghost use Rattle.gipmc_task.specs.Left.{StandFor};
ghost use Rattle.gipmc_task.specs.declared.verdict.Verdict.TheVariants.{ClearTo};
ghost use Rattle.gipmc_engines.specs.Verdicts.{NeverFailsWithin};

use crate::left::{Left, kept};
use crate::output::{Certifying, Wanted};
use crate::parted::{Parted, Pause};
use crate::verdict::Verdict;
use gipmc_circuits::Netlist;
use gipmc_engines::{Engine, Observer, Plan};
use gipsat_cnf::{Literal, SatSolver};
use std::alloc::Global;

// A sweep may do one part in so many of what IC3 has propagated. The first sweep begins once this share is what it is thought
// to take.
const SHARE: u64 = 2;

// How many times as much IC3 does until what is left is looked for again, where too little work was allowed.
const AGAIN: u64 = 3;

// How many times as much IC3 does in what is left as in the circuit itself, where both searches go on.
const LEFT_SHARE: u64 = 8;

// How often what is left is looked for.
const SWEEPS: usize = 4;

/// One search about some literals of a circuit. What is open goes on in what is left of the circuit, if something is merged.
pub(crate) struct Query<'a, S: SatSolver + Drop> {
    /// The circuit.
    pub(crate) whole: &'a Netlist,
    /// Its literals.
    pub(crate) bads: &'a [Literal],
    // The search in the circuit itself.
    parted: Parted<'a, S>,
    // That in what is left of it.
    left: Option<Parted<'a, S>>,
    // Where what is left is kept, until something is.
    slot: Option<&'a mut Option<Left>>,
    // How often it is looked for yet.
    sweeps: usize,
    // How many literals IC3 propagates before that.
    due: u64,
    // What searches in what is left.
    plan: Plan,
    // What a certificate is to be made of.
    certifying: Certifying,
    // Whether the search in the circuit itself goes on beside that in what is left: it has an engine more.
    is_beside: bool,
    pub ghost same: { parted.whole.now ≡ whole.now },
    pub ghost same_bads: { parted.bads.now ≡ bads.now },
    pub ghost about: { ForSome left (λ p. p.whole.now ≡ whole.now) },
    pub ghost about_bads: { ForSome left (λ p. p.bads.now ≡ bads.now) },
}

// One call in its owners' proofs, in place of one for each field.
impl<S: SatSolver + Drop> Drop for Query<'_, S> {
    fn drop(self) {
        let Query {
            whole: _,
            bads: _,
            parted,
            left,
            slot,
            sweeps: _,
            due: _,
            plan: _,
            certifying: _,
            is_beside: _,
        } = self;
    }
}

impl<'a, S: SatSolver + Drop> Query<'a, S> {
    /// Before the search, by this plan. What is left is kept where it is told.
    pub(crate) fn new(
        parted: Parted<'a, S>,
        slot: &'a mut Option<Left>,
        plan: &Plan,
        certifying: Certifying,
    ) -> Self
        ensures whole { result.whole.now ≡ parted.entry.whole.now }
        ensures bads { result.bads.now ≡ parted.entry.bads.now }
    {
        let (whole, bads) = (parted.whole, parted.bads);
        let due = parted.sweep_work().saturating_mul(SHARE);
        let plan_left = plan_in_left(plan, certifying);
        Query {
            whole,
            bads,
            parted,
            left: None,
            slot: Some(slot),
            sweeps: sweeps_of(plan.engine),
            due,
            plan: plan_left,
            certifying,
            is_beside: plan_left.engine != plan.engine,
        }
    }

    /// Goes on until the literal at one of the places is decided, and answers what is known of it then, by a shortest trace
    /// where that is wanted and found. A search that is over does not go on.
    pub(crate) fn find_out<O: Observer>(
        &mut self,
        alloc: Global,
        at: usize,
        wanted: Wanted,
        observer: &mut O,
    ) -> Verdict
        requires { at < length self.old.bads.now }
        ensures whole { self.new.whole ≡ self.old.whole }
        ensures bads { self.new.bads ≡ self.old.bads }
        ensures right { (bad : Lit) → slice_get self.old.bads.now at ≡ Some bad →
            IsKnown self.old.whole.now.circuit bad result }
    {
        if wanted != Wanted::Nothing {
            let _ = self.go_on(alloc, at, usize::MAX, observer);
        }
        self.told(alloc, at, wanted, observer)
    }

    // What is told of the literal at one of the places.
    fn told<O: Observer>(
        &self,
        alloc: Global,
        at: usize,
        wanted: Wanted,
        observer: &mut O,
    ) -> Verdict
        requires { at < length self.now.bads.now }
        ensures { (bad : Lit) → slice_get self.now.bads.now at ≡ Some bad →
            IsKnown self.now.whole.now.circuit bad result }
    {
        if !self.parted.is_open(at) {
            return self.parted.tell(alloc, at, wanted, observer);
        }
        let Some(left) = &self.left else {
            return self.parted.tell(alloc, at, wanted, observer);
        };
        let known = left.tell(alloc, at, wanted, observer);
        let before = self.parted.known(alloc, at);
        if is_more(&before, &known) {
            before
        } else {
            known
        }
    }

    /// Goes on until it is known that no trace of at most so many transitions fails as to the literal at one of the places,
    /// and answers up to how many it is known. None where the literal is decided, or the search cannot go on.
    pub(crate) fn clear<O: Observer>(
        &mut self,
        alloc: Global,
        at: usize,
        depth: usize,
        observer: &mut O,
    ) -> Option<usize>
        requires { at < length self.old.bads.now }
        ensures whole { self.new.whole ≡ self.old.whole }
        ensures bads { self.new.bads ≡ self.old.bads }
        ensures clear { IfSome result (λ n. (bad : Lit) → slice_get self.old.bads.now at ≡ Some bad →
            NeverFailsWithin self.old.whole.now.circuit bad n) }
    {
        if !self.go_on(alloc, at, depth, observer) {
            return None;
        }
        let known = self.told(alloc, at, Wanted::Nothing, observer);
        depth_of(&known)
    }

    // Goes on about the literal at one of the places, until no trace of at most so many transitions fails. Whether the search
    // can go on about it.
    fn go_on<O: Observer>(
        &mut self,
        alloc: Global,
        at: usize,
        depth: usize,
        observer: &mut O,
    ) -> bool
        ensures whole { self.new.whole ≡ self.old.whole }
        ensures bads { self.new.bads ≡ self.old.bads }
    {
        self.look(alloc, at, depth, observer);
        if self.left.is_none() || !self.parted.is_open(at) {
            return self.parted.go_on(at, depth, u64::MAX, observer) != Pause::End;
        }
        for _ in 0..usize::MAX {
            let pause = self.go_on_in_left(at, depth, observer);
            if pause == Pause::End || !self.go_on_beside(at, observer) {
                return false;
            }
            if pause == Pause::Depth {
                return true;
            }
        }
        false
    }

    // Goes on in what is left, until the search beside it is to go on; by one turn at least.
    fn go_on_in_left<O: Observer>(&mut self, at: usize, depth: usize, observer: &mut O) -> Pause
        ensures whole { self.new.whole ≡ self.old.whole }
        ensures bads { self.new.bads ≡ self.old.bads }
    {
        let turn = self.turn();
        match &mut self.left {
            Some(left) => {
                let work = left.work().saturating_add(1).max(turn);
                left.go_on(at, depth, work, observer)
            }
            None => Pause::End,
        }
    }

    // Goes on in the circuit itself, if it is to: to traces of one transition more, or until it did its share. Whether the
    // search can go on.
    fn go_on_beside<O: Observer>(&mut self, at: usize, observer: &mut O) -> bool
        ensures whole { self.new.whole ≡ self.old.whole }
        ensures bads { self.new.bads ≡ self.old.bads }
    {
        let turn = self.turn();
        let work = match &self.left {
            Some(left) => left.work(),
            None => 0,
        };
        if work < turn {
            return true;
        }
        let next = self.parted.length(at);
        let share = (work / LEFT_SHARE).saturating_add(1);
        self.parted.go_on(at, next, share, observer) != Pause::End
    }

    // How many literals IC3 propagates in what is left before the search beside it goes on.
    fn turn(&self) -> u64 {
        if self.is_beside {
            self.parted.work().saturating_mul(LEFT_SHARE)
        } else {
            u64::MAX
        }
    }

    /// Goes on in the circuit itself about the literal at one of the places, until no trace of at most so many transitions
    /// fails, if what is left is looked for yet; and looks for it as often as it is due.
    pub(crate) fn look<O: Observer>(
        &mut self,
        alloc: Global,
        at: usize,
        depth: usize,
        observer: &mut O,
    )
        ensures whole { self.new.whole ≡ self.old.whole }
        ensures bads { self.new.bads ≡ self.old.bads }
    {
        for _ in 0..SWEEPS {
            if self.sweeps == 0 {
                return;
            }
            let pause = self.parted.go_on(at, depth, self.due, observer);
            if pause == Pause::End || self.parted.work() < self.due {
                return;
            }
            self.sweep(alloc);
        }
    }

    // Looks for what is left, by a part of the work that the search has done.
    fn sweep(&mut self, alloc: Global)
        ensures whole { self.new.whole ≡ self.old.whole }
        ensures bads { self.new.bads ≡ self.old.bads }
    {
        self.sweeps = self.sweeps.saturating_sub(1);
        self.due = self.parted.work().saturating_mul(AGAIN);
        let with_gates = self.certifying != Certifying::Clauses;
        let work = self.parted.work() / SHARE;
        if let Some(left) = self.parted.sweep(alloc, with_gates, work) {
            self.sweeps = 0;
            self.begin(alloc, left);
        }
    }

    // Begins the search in what is left, if much is gone, and memory is not refused.
    fn begin(&mut self, alloc: Global, left: Left)
        requires { StandFor left.part.netlist.circuit left.part.netlist.circuit.bads.items
            self.old.whole.now.circuit self.old.bads.now }
        ensures whole { self.new.whole ≡ self.old.whole }
        ensures bads { self.new.bads ≡ self.old.bads }
    {
        if !left.is_small(&self.parted.part.netlist) {
            return;
        }
        let Some(slot) = self.slot.take() else {
            return;
        };
        let Some(left) = kept(slot, left) else {
            return;
        };
        if let Ok(found) = self.parted.in_left(alloc, left, &self.plan) {
            self.left = Some(found);
        }
    }

    /// For how many lengths of traces, from no transition on, it is known that none fails as to the literal at a place that is
    /// open, in the search that goes on about it.
    pub(crate) fn length(&self, at: usize) -> usize {
        match &self.left {
            Some(left) => left.length(at),
            None => self.parted.length(at),
        }
    }

    /// Whether nothing is decided about the literal at a place.
    pub(crate) fn is_open(&self, at: usize) -> bool {
        if !self.parted.is_open(at) {
            return false;
        }
        match &self.left {
            Some(left) => left.is_open(at),
            None => true,
        }
    }

    /// The clauses of the invariant that was found in the circuit itself, and where a certificate is wanted those that were
    /// found in what is left; none where memory is refused.
    pub(crate) fn invariant(&self, alloc: Global) -> Vec<Vec<Literal>> {
        let mut clauses = self.parted.invariant(alloc);
        if self.certifying == Certifying::Nothing {
            return clauses;
        }
        let Some(left) = &self.left else {
            return clauses;
        };
        let mut further = left.invariant(alloc);
        match clauses.append(&mut further) {
            Ok(_) => clauses,
            Err(_) => Vec::new(alloc),
        }
    }

    /// The greatest k for which a literal was found to be k-inductive in the circuit itself, if one was.
    pub(crate) fn k(&self) -> Option<usize> {
        self.parted.k()
    }
}

// How often what is left is looked for where these engines search.
fn sweeps_of(engine: Engine) -> usize {
    match engine {
        Engine::Invariants | Engine::All => SWEEPS,
        Engine::Simulation | Engine::Bounded | Engine::Ic3 => 0,
        Engine::Induction | Engine::Explicit => 0,
    }
}

// The plan in what is left. Induction there shows nothing of the circuit itself by a k, since a path may begin where what is
// merged differs; so where a certificate is wanted the engines are those that find invariants.
fn plan_in_left(plan: &Plan, certifying: Certifying) -> Plan {
    if certifying == Certifying::Nothing {
        return *plan;
    }
    Plan {
        engine: Engine::Invariants,
        ..*plan
    }
}

// Up to how many transitions it is known that nothing fails, if that is all.
fn depth_of(known: &Verdict) -> Option<usize>
    ensures { IfSome result (λ n. known.now ≡ ClearTo n) }
{
    match known {
        Verdict::ClearTo(depth) => Some(*depth),
        _ => None,
    }
}

// Whether the one is a depth up to which nothing fails, and the other one says less.
fn is_more(one: &Verdict, other: &Verdict) -> bool {
    let Verdict::ClearTo(depth) = one else {
        return false;
    };
    match other {
        Verdict::ClearTo(less) => less < depth,
        Verdict::Unknown => true,
        Verdict::Fails(_) | Verdict::Holds(_) => false,
    }
}
