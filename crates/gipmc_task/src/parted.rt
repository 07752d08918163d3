//! Searches in a part of a circuit, what its bad literals and the constraints depend on, or in what is left of that.
ghost use Rattle.std.specs.Prelude.{◌≡◌, ◌<◌, length, map, slice_get, Some, IfOk, IfSome};
ghost use Rattle.gipsat_cnf.specs.Literals.{Lit};
ghost use Rattle.gipmc_task.specs.Answers.{IsKnown};
ghost use Rattle.gipmc_task.specs.Left.{StandFor, StandsFor};
ghost use Rattle.gipmc_engines.specs.Findings.{verdict_by};
ghost use Rattle.gipmc_engines.specs.Verdicts.{IsRightVerdict};
ghost use Rattle.gipmc_reduce.specs.Cone.{IsPartOf, literal_named};

use crate::left::Left;
use crate::output::Wanted;
use crate::verdict::{Evidence, Verdict};
use gipmc_circuits::{Netlist, Trace, replay};
use gipmc_engines::{Bounds, Event, Finding, Findings, Joint, Observer, Plan, Tries, search};
use gipmc_reduce::Cone;
use gipsat_cnf::{Literal, SatSolver};
use std::alloc::{AllocError, Global};

// An estimate of the work of a sweep for each gate: 32 runs, and what its questions propagate.
const SWEEP: u64 = 100;

/// The part of a circuit that some of its literals depend on. None where memory is refused, or where one of them is of no
/// variable of the circuit.
pub(crate) fn part_of(alloc: Global, whole: &Netlist, bads: &[Literal]) -> Option<Cone>
    ensures part { IfSome result (λ p. IsPartOf p.names.names.items p.netlist.circuit whole.now.circuit) }
    ensures bads { IfSome result
        (λ p. map (literal_named p.names.names.items) p.netlist.circuit.bads.items ≡ bads.now) }
{
    match Cone::new(alloc, whole, bads) {
        Ok(part) => part,
        Err(_) => None,
    }
}

/// Why a search does not go on about a literal.
#[derive(Clone, Copy, PartialEq, Eq)]
pub(crate) enum Pause {
    /// Nothing fails up to the depth that was asked for.
    Depth,
    /// The work is done that was asked for.
    Work,
    /// The literal is decided, or the search is over.
    End,
}

/// One search about some literals of a circuit, in a part of it or in what is left of that.
#[derive(Drop)]
pub(crate) struct Parted<'a, S: SatSolver + Drop> {
    /// The whole circuit.
    pub(crate) whole: &'a Netlist,
    /// Its literals.
    pub(crate) bads: &'a [Literal],
    /// The part.
    pub(crate) part: &'a Cone,
    // What is left of it, if the search is about that.
    left: Option<&'a Left>,
    // The search about the literals that stand for those of the circuit.
    joint: Joint<'a, S>,
    // How many clauses a question about shorter traces may learn.
    limit: usize,
    pub ghost part_stands: { StandFor part.now.netlist.circuit part.now.netlist.circuit.bads.items
        whole.now.circuit bads.now },
    pub ghost stand: { StandFor joint.findings.netlist.now.circuit joint.findings.bads.now whole.now.circuit bads.now },
}

impl<'a, S: SatSolver + Drop> Parted<'a, S> {
    /// Before the search in a part.
    ///
    /// # Errors
    /// `AllocError` where memory is refused.
    pub(crate) fn new(
        alloc: Global,
        whole: &'a Netlist,
        bads: &'a [Literal],
        part: &'a Cone,
        plan: &Plan,
    ) -> Result<Self, AllocError>
        requires { StandFor part.now.netlist.circuit part.now.netlist.circuit.bads.items whole.now.circuit bads.now }
        ensures whole { IfOk result (λ p. p.whole.now ≡ whole.now) }
        ensures bads { IfOk result (λ p. p.bads.now ≡ bads.now) }
    {
        let joint = Joint::new(alloc, &part.netlist, &part.netlist.circuit.bads, plan)?;
        Ok(Parted {
            whole,
            bads,
            part,
            left: None,
            joint,
            limit: plan.bounds.limit,
        })
    }

    /// Before the search in what is left of the part, about what is open. It begins without simulation, which has been in
    /// the part.
    ///
    /// # Errors
    /// `AllocError` where memory is refused.
    pub(crate) fn in_left(
        &self,
        alloc: Global,
        left: &'a Left,
        plan: &Plan,
    ) -> Result<Self, AllocError>
        requires { StandFor left.now.part.netlist.circuit left.now.part.netlist.circuit.bads.items
            self.now.whole.now.circuit self.now.bads.now }
        ensures whole { IfOk result (λ p. p.whole ≡ self.now.whole) }
        ensures bads { IfOk result (λ p. p.bads ≡ self.now.bads) }
    {
        let netlist = &left.part.netlist;
        let plan = without_simulation(plan);
        let mut joint = Joint::new(alloc, netlist, &netlist.circuit.bads, &plan)?;
        self.leave_out(alloc, &mut joint.findings);
        Ok(Parted {
            whole: self.whole,
            bads: self.bads,
            part: self.part,
            left: Some(left),
            joint,
            limit: plan.bounds.limit,
        })
    }

    // Takes the literals that are decided out of what a search that has not begun is to find out.
    fn leave_out(&self, alloc: Global, findings: &mut Findings<'_>)
        ensures netlist { findings.new.netlist ≡ findings.old.netlist }
        ensures bads { findings.new.bads ≡ findings.old.bads }
    {
        for at in 0..self.bads.len() {
            if !self.is_open(at) {
                leave_out_at(alloc, findings, at);
            }
        }
    }

    /// About how much it takes to find out what is left of the part.
    pub(crate) fn sweep_work(&self) -> u64 {
        let gates = self.part.netlist.circuit.gates.len() as u64;
        gates.saturating_mul(SWEEP).max(1)
    }

    /// What is left of the part where latches are merged, and gates if that is wanted. None where so much work does not
    /// suffice to find that out.
    pub(crate) fn sweep(&self, alloc: Global, with_gates: bool, work: u64) -> Option<Left>
        ensures { IfSome result (λ left. StandFor left.part.netlist.circuit
            left.part.netlist.circuit.bads.items self.now.whole.now.circuit self.now.bads.now) }
    {
        Left::of::<S>(alloc, &self.part.netlist, with_gates, work)
    }

    /// Goes on with the search about the literal at a place, until no trace of at most so many transitions fails, IC3 has
    /// propagated so many literals, or the literal is decided.
    pub(crate) fn go_on<O: Observer>(
        &mut self,
        at: usize,
        depth: usize,
        work: u64,
        observer: &mut O,
    ) -> Pause
        ensures whole { self.new.whole ≡ self.old.whole }
        ensures bads { self.new.bads ≡ self.old.bads }
    {
        if !self.joint.find_out_to(at, depth, work, observer) {
            return Pause::End;
        }
        if self.length(at) > depth {
            Pause::Depth
        } else {
            Pause::Work
        }
    }

    /// How many literals IC3 has propagated.
    pub(crate) fn work(&self) -> u64 {
        self.joint.propagations()
    }

    /// For how many lengths of traces, from no transition on, it is known that none fails as to the literal at a place that is
    /// open.
    pub(crate) fn length(&self, at: usize) -> usize {
        match self.joint.findings.each.get(at) {
            Some(Finding::NoFailureWithin(depth)) => depth.saturating_add(1),
            _ => 0,
        }
    }

    /// Whether nothing is decided about the literal at a place.
    pub(crate) fn is_open(&self, at: usize) -> bool {
        self.joint.findings.is_open(at)
    }

    /// What is known of the literal at a place, by a shortest trace where that is wanted and found. The observer is told which
    /// engine decided it, and that the search does not go on.
    pub(crate) fn tell<O: Observer>(
        &self,
        alloc: Global,
        at: usize,
        wanted: Wanted,
        observer: &mut O,
    ) -> Verdict
        requires { at < length self.now.bads.now }
        ensures { (bad : Lit) → slice_get self.now.bads.now at ≡ Some bad →
            IsKnown self.now.whole.now.circuit bad result }
    {
        if wanted == Wanted::Nothing {
            return self.known(alloc, at);
        }
        self.tell_engine(at, observer);
        let verdict = self.told(alloc, at, wanted, observer);
        let is_refused = self.is_refused(at, &verdict);
        let _ = observer.note(Event::End { is_refused });
        verdict
    }

    // Tells an observer which engine decided the literal at a place, if it is decided.
    fn tell_engine<O: Observer>(&self, at: usize, observer: &mut O) {
        if self.joint.findings.is_open(at) {
            return;
        }
        if let Some(engine) = self.joint.findings.engine(at) {
            let _ = observer.note(Event::Decided(engine));
        }
    }

    // What is told of the literal at a place: what is known, and where that is a trace, a shortest one if that is wanted and
    // found.
    fn told<O: Observer>(
        &self,
        alloc: Global,
        at: usize,
        wanted: Wanted,
        observer: &mut O,
    ) -> Verdict
        requires { at < length self.now.bads.now }
        ensures { (bad : Lit) → slice_get self.now.bads.now at ≡ Some bad →
            IsKnown self.now.whole.now.circuit bad result }
    {
        let known = self.known(alloc, at);
        if wanted != Wanted::Shortest {
            return known;
        }
        let Some(moments) = moments_of(&known) else {
            return known;
        };
        match self.shorter(alloc, at, moments, observer) {
            Some(shorter) => shorter,
            None => known,
        }
    }

    // That the literal at a place fails by a shortest trace, by bounded model checking, if one is found that has fewer moments
    // than so many. The observer is told whether there is known to be none that is shorter still.
    fn shorter<O: Observer>(
        &self,
        alloc: Global,
        at: usize,
        moments: usize,
        observer: &mut O,
    ) -> Option<Verdict>
        requires { at < length self.now.bads.now }
        ensures { IfSome result (λ known. (bad : Lit) → slice_get self.now.bads.now at ≡ Some bad →
            IsKnown self.now.whole.now.circuit bad known) }
    {
        let bad = self.bads[at];
        let (trace, is_shortest) = self.shorter_trace(alloc, at, moments, observer);
        let _ = observer.note(Event::Shortened { is_shortest });
        let Some(trace) = trace else {
            return None;
        };
        let Ok(known) = self.fails_by(alloc, bad, &trace) else {
            return None;
        };
        if moments_of(&known).is_none() {
            return None;
        }
        Some(known)
    }

    // A trace of the circuit that is searched on which its literal at a place becomes true, if one is found that has fewer
    // moments than so many, and whether there is known to be none that is shorter still.
    fn shorter_trace<O: Observer>(
        &self,
        alloc: Global,
        at: usize,
        moments: usize,
        observer: &mut O,
    ) -> (Option<Trace>, bool) {
        let Some(depth) = moments.checked_sub(2) else {
            return (None, true);
        };
        let Some(own) = self.joint.findings.bads.get(at).copied() else {
            return (None, false);
        };
        let bounds = Bounds {
            depth,
            limit: self.limit,
            ..Bounds::default()
        };
        match search::<S, O>(alloc, self.joint.findings.netlist, own, bounds, observer) {
            Ok(gipmc_engines::Verdict::Fails(trace)) => (Some(trace), true),
            Ok(gipmc_engines::Verdict::NoFailureWithin(cleared)) => (None, cleared >= depth),
            _ => (None, false),
        }
    }

    // Whether a literal is left open since memory was refused.
    fn is_refused(&self, at: usize, known: &Verdict) -> bool {
        let is_lost = self.joint.is_refused || !self.joint.findings.is_open(at);
        match known {
            Verdict::Fails(_) => false,
            Verdict::Holds(_) => false,
            Verdict::ClearTo(_) => is_lost,
            Verdict::Unknown => is_lost,
        }
    }

    /// What is known of the literal at a place: nothing where memory is refused.
    pub(crate) fn known(&self, alloc: Global, at: usize) -> Verdict
        requires { at < length self.now.bads.now }
        ensures { (bad : Lit) → slice_get self.now.bads.now at ≡ Some bad →
            IsKnown self.now.whole.now.circuit bad result }
    {
        match self.carried(alloc, at) {
            Ok(known) => known,
            Err(_) => Verdict::Unknown,
        }
    }

    // What the finding about the literal at a place says of the whole circuit.
    fn carried(&self, alloc: Global, at: usize) -> Result<Verdict, AllocError>
        requires within { at < length self.now.bads.now }
        requires own { at < length self.now.joint.findings.bads.now }
        ensures { IfOk result (λ known. (bad : Lit) → slice_get self.now.bads.now at ≡ Some bad →
            IsKnown self.now.whole.now.circuit bad known) }
    {
        let bad = self.bads[at];
        let own = self.joint.findings.bads[at];
        let finding = self.joint.findings.at(at);
        if let Finding::Fails(trace) = finding {
            return self.fails_by(alloc, bad, trace);
        }
        if self.joint.findings.is_shown(alloc, at)? {
            Ok(self.on_whole(bad, own, finding))
        } else {
            Ok(Verdict::Unknown)
        }
    }

    // That the whole circuit fails, where a trace of the one that is searched, carried to it, is a counterexample.
    fn fails_by(&self, alloc: Global, bad: Literal, trace: &Trace) -> Result<Verdict, AllocError>
        ensures { IfOk result (IsKnown self.now.whole.now.circuit bad) }
    {
        let trace = self.trace_of(alloc, trace)?;
        if replay(alloc, self.whole, bad, &trace)? {
            Ok(Verdict::Fails(trace))
        } else {
            Ok(Verdict::Unknown)
        }
    }

    // The trace of the whole circuit that goes on as one of the circuit that is searched does.
    fn trace_of(&self, alloc: Global, trace: &Trace) -> Result<Trace, AllocError> {
        match self.left {
            Some(left) => {
                let trace = left.trace_of(alloc, &self.part.netlist, trace)?;
                self.part.trace_of(alloc, self.whole, &trace)
            }
            None => self.part.trace_of(alloc, self.whole, trace),
        }
    }

    // What a finding about the literal that stands for the bad one says of the whole circuit.
    fn on_whole(&self, bad: Literal, own: Literal, finding: &Finding) -> Verdict
        requires stands { StandsFor self.now.joint.findings.netlist.now.circuit own self.now.whole.now.circuit bad }
        requires right { IsRightVerdict self.now.joint.findings.netlist.now.circuit own
            (verdict_by self.now.joint.findings.invariant finding.now) }
        ensures { IsKnown self.now.whole.now.circuit bad result }
    {
        let (_of, _own) = (bad, own);
        match finding {
            Finding::Fails(_) => Verdict::Unknown,
            Finding::Safe => Verdict::Holds(Evidence::Invariant),
            Finding::Inductive(k) => Verdict::Holds(Evidence::Induction(*k)),
            Finding::NoFailureWithin(depth) => Verdict::ClearTo(*depth),
            Finding::Unknown => Verdict::Unknown,
        }
    }

    /// The clauses of the invariant that was found, over the variables of the whole circuit, behind those of the merges; none
    /// where memory is refused, or where none was found in what is left.
    pub(crate) fn invariant(&self, alloc: Global) -> Vec<Vec<Literal>> {
        match self.clauses(alloc) {
            Ok(clauses) => clauses,
            Err(_) => Vec::new(alloc),
        }
    }

    // The same, if memory suffices.
    fn clauses(&self, alloc: Global) -> Result<Vec<Vec<Literal>>, AllocError> {
        let clauses = &self.joint.findings.invariant;
        match self.left {
            Some(left) if self.excludes() => {
                let clauses = left.clauses_of(alloc, clauses)?;
                self.part.names.clauses_of(alloc, &clauses)
            }
            Some(_) => Ok(Vec::new(alloc)),
            None => self.part.names.clauses_of(alloc, clauses),
        }
    }

    // Whether the invariant that was found excludes a literal.
    fn excludes(&self) -> bool {
        for finding in self.joint.findings.each.iter() {
            if matches!(finding, Finding::Safe) {
                return true;
            }
        }
        false
    }

    /// The greatest k for which a literal was found to be k-inductive, if one was.
    pub(crate) fn k(&self) -> Option<usize> {
        let mut greatest = None;
        for finding in self.joint.findings.each.iter() {
            greatest = greater(greatest, finding);
        }
        greatest
    }
}

// The greater one of a k and that of a finding, if there is one.
fn greater(greatest: Option<usize>, finding: &Finding) -> Option<usize> {
    let Finding::Inductive(k) = finding else {
        return greatest;
    };
    Some(greatest.unwrap_or(0).max(*k))
}

// How many moments a trace has that is known.
fn moments_of(known: &Verdict) -> Option<usize> {
    match known {
        Verdict::Fails(trace) => Some(trace.inputs.len()),
        _ => None,
    }
}

// Takes the literal at a place out of what a search is to find out, as if it were decided there.
fn leave_out_at(alloc: Global, findings: &mut Findings<'_>, at: usize)
    ensures netlist { findings.new.netlist ≡ findings.old.netlist }
    ensures bads { findings.new.bads ≡ findings.old.bads }
{
    if at >= findings.bads.len() || at >= findings.each.len() {
        return;
    }
    let trace = Trace {
        latches: Vec::new(alloc),
        inputs: Vec::new(alloc),
    };
    let _bad = findings.bads[at];
    findings.each[at] = Finding::Fails(trace);
}

// The same plan without simulation.
fn without_simulation(plan: &Plan) -> Plan {
    Plan {
        tries: Tries {
            rounds: 0,
            ..plan.tries
        },
        ..*plan
    }
}
