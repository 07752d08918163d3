//! A search: it goes on by turns, each of which ends with a learned clause or with what was found.
ghost use Rattle.std.specs.Prelude.{◌≡◌, OnOk, OnErr};
ghost use Rattle.gipsat_cnf.specs.Simplifying.{SaysSame};

use crate::assume::{Assumed, clause_of_failed, next_assumption};
use crate::collect::{collect, is_deleted, wants_collection};
use crate::decide::literal_to_decide;
use crate::eliminate::{eliminate, eliminate_again};
use crate::keep::keep_trail;
use crate::learn::learn;
use crate::propagate::propagate;
use crate::reduce::reduce;
use crate::restart::restart;
use crate::root::settle_root;
use crate::simplify::simplify;
use crate::state::State;
use crate::stats::Stats;
use crate::trail::short;
use crate::units::learn_units;
use crate::vivify::vivify;
use gipsat_cnf::Literal;
use gipsat_kernel::Kernel;
use std::alloc::{AllocError, Global};

/// What a call of a search is to find.
#[derive(Clone, Copy)]
pub struct Query<'a> {
    /// Literals that are to be true.
    pub assumptions: &'a [Literal],
    /// The variables that may be decided beside those of the assumptions. None: all.
    pub domain: Option<&'a [u32]>,
    /// After how many propagations since [`Search::begin`] it ends, at the next decision. `u64::MAX`: never.
    pub propagations: u64,
    /// Whether it ends with [`Turn::Guessed`] where no variable waits to be decided.
    pub is_guess: bool,
}

impl Query<'_> {
    /// Of all variables, without assumptions and without an end.
    pub fn all() -> Self {
        Query {
            assumptions: &[],
            domain: None,
            propagations: u64::MAX,
            is_guess: false,
        }
    }

    // Whether it assumes nothing, and all variables may be decided.
    fn is_plain(&self) -> bool {
        self.assumptions.is_empty() && self.domain.is_none()
    }
}

/// How a turn of a search ends. Nothing is proved of it: who calls the search asks the kernel.
#[derive(Drop)]
pub enum Turn {
    /// A clause was learned from a conflict. The search goes on with the next turn.
    Learned,
    /// A value for each variable, which the search takes for a model. If it is none, [`Search::reopen`] it.
    Model(Vec<bool>),
    /// The id of a working clause whose literals are negations of assumptions. It is empty if nothing satisfies the
    /// formula.
    Core(usize),
    /// This literal and its negation are assumed.
    Contradiction(Literal),
    /// No conflict was met, and no variable waits to be decided.
    Guessed,
    /// The budget of propagations is spent.
    Spent,
}

/// A search over the working clauses of a kernel. A search belongs to one kernel, from its first call on.
#[derive(Drop)]
pub struct Search {
    alloc: Global,
    // None before the first call, and after one that was refused memory.
    state: Option<State>,
    stats: Stats,
}

// What a decision came to: a literal was decided, or the turn has ended.
#[derive(Drop)]
enum Choice {
    Decided,
    Ends(Turn),
}

// The values of all variables. One that has none is false.
fn model_of(alloc: Global, state: &State) -> Result<Vec<bool>, AllocError> {
    let variables = state.trail.variables();
    let mut model = Vec::with_capacity(alloc, variables)?;
    for variable in 0..variables {
        model.push(state.trail.is_positive(short(variable)))?;
    }
    Ok(model)
}

// Why an assumption fails.
fn fail(kernel: &mut Kernel, state: &mut State, l: Literal) -> Result<Turn, AllocError>
    ensures { kernel.new ≡ kernel.old }
{
    Ok(match clause_of_failed(kernel, state, l)? {
        Some(id) => Turn::Core(id),
        None => Turn::Contradiction(l),
    })
}

// Decides a literal that is no assumption, if there is one.
fn decide(
    alloc: Global,
    kernel: &Kernel,
    state: &mut State,
    query: Query<'_>,
) -> Result<Choice, AllocError> {
    if state.stats.propagations >= state.end {
        return Ok(Choice::Ends(Turn::Spent));
    }
    state.stats.decisions = state.stats.decisions.saturating_add(1);
    if let Some(l) = literal_to_decide(kernel, state)? {
        state.trail.decide(l)?;
        return Ok(Choice::Decided);
    }
    if query.is_guess {
        return Ok(Choice::Ends(Turn::Guessed));
    }
    Ok(Choice::Ends(Turn::Model(model_of(alloc, state)?)))
}

// Decides an assumption that has no value, or else another literal, where nothing is left to propagate.
fn choose(
    alloc: Global,
    kernel: &mut Kernel,
    state: &mut State,
    query: Query<'_>,
) -> Result<Choice, AllocError>
    ensures { kernel.new ≡ kernel.old }
{
    match next_assumption(state, query.assumptions) {
        Assumed::All => decide(alloc, kernel, state, query),
        Assumed::Failed(l) => Ok(Choice::Ends(fail(kernel, state, l)?)),
        Assumed::Next(l) => {
            state.stats.decisions = state.stats.decisions.saturating_add(1);
            state.trail.decide(l)?;
            Ok(Choice::Decided)
        }
    }
}

// Learns from a conflict, and reduces and restarts where that is due.
fn learn_and_go_on(
    alloc: Global,
    kernel: &mut Kernel,
    state: &mut State,
    conflict: u32,
) -> Result<Turn, AllocError>
    ensures { kernel.new ≡ kernel.old }
{
    if let Some(empty) = learn(kernel, state, conflict)? {
        return Ok(Turn::Core(empty));
    }
    reduce(alloc, kernel, state)?;
    restart(alloc, kernel, state)?;
    Ok(Turn::Learned)
}

// Decides and propagates until a conflict is met, or something is found.
fn run(
    alloc: Global,
    kernel: &mut Kernel,
    state: &mut State,
    query: Query<'_>,
) -> Result<Turn, AllocError>
    ensures { kernel.new ≡ kernel.old }
{
    if let Some(conflict) = state.open {
        state.open = None;
        return learn_and_go_on(alloc, kernel, state, conflict);
    }
    for _ in 0..usize::MAX {
        if let Some(conflict) = propagate(alloc, state)? {
            return learn_and_go_on(alloc, kernel, state, conflict);
        }
        if state.trail.level() == 0 {
            learn_units(kernel, state)?;
        }
        if let Choice::Ends(turn) = choose(alloc, kernel, state, query)? {
            return Ok(turn);
        }
    }
    Ok(Turn::Spent)
}

// Makes room for all variables. Eliminated variables that are assumed, in the domain or in a new clause are restored.
fn prepare(
    alloc: Global,
    kernel: &Kernel,
    state: &mut State,
    query: Query<'_>,
) -> Result<(), AllocError> {
    let mut variables = kernel.variables();
    for l in query.assumptions {
        variables = variables.max((l.variable() as usize).saturating_add(1));
    }
    state.grow(alloc, variables)?;
    state.restore(kernel, query.assumptions, query.domain.unwrap_or(&[]))?;
    state.restart_policy.modes.allow(query.is_plain());
    state.eliminated.rewind();
    Ok(())
}

// Goes back to the root, and lets only the variables of the query be decided.
fn go_to_root(
    alloc: Global,
    kernel: &mut Kernel,
    state: &mut State,
    query: Query<'_>,
) -> Result<(), AllocError>
    ensures { kernel.new ≡ kernel.old }
{
    settle_root(alloc, kernel, state)?;
    state.activity.limit_to(query.domain, query.assumptions)
}

// Goes back to the root, with room for all variables.
fn resume(
    alloc: Global,
    kernel: &mut Kernel,
    state: &mut State,
    query: Query<'_>,
) -> Result<(), AllocError>
    ensures { kernel.new ≡ kernel.old }
{
    prepare(alloc, kernel, state, query)?;
    go_to_root(alloc, kernel, state, query)
}

// Begins a call, with its budget, on the trail of the last one as far as that may stay. An elimination that was begun
// is taken up again, if that is due and the query is plain.
fn begin(
    alloc: Global,
    kernel: &mut Kernel,
    state: &mut State,
    query: Query<'_>,
) -> Result<(), AllocError>
    ensures { kernel.new ≡ kernel.old }
{
    state.end = state.stats.propagations.saturating_add(query.propagations);
    prepare(alloc, kernel, state, query)?;
    if !keep_trail(kernel, state, query.assumptions, query.domain)? {
        go_to_root(alloc, kernel, state, query)?;
    }
    if query.is_plain() {
        eliminate_again(alloc, kernel, state)?;
    }
    Ok(())
}

// The clause of the formula without a true literal. None if there is none.
fn open_clause(kernel: &Kernel, state: &State) -> Option<usize> {
    for id in 0..kernel.len() {
        let clause = kernel.clause(id).unwrap_or(&[]);
        if kernel.is_original(id) && !state.trail.has_true(clause) {
            return Some(id);
        }
    }
    None
}

impl Search {
    /// A search that knows no clause. It takes no memory yet.
    pub fn new(alloc: Global) -> Self {
        Search {
            alloc,
            state: None,
            stats: Stats::new(),
        }
    }

    /// How much was done so far.
    pub fn stats(&self) -> Stats {
        self.stats
    }

    /// The value of a variable where the last call ended. None if it has none.
    pub fn value(&self, variable: u32) -> Option<bool> {
        let state = self.state.as_ref()?;
        if state.trail.has_no_value(variable) || variable as usize >= state.trail.variables() {
            return None;
        }
        Some(state.trail.is_positive(variable))
    }

    // Makes a new state, if there is none.
    fn prepare(&mut self) -> Result<(), AllocError> {
        if self.state.is_none() {
            self.state = Some(State::new(self.alloc, self.stats)?);
        }
        Ok(())
    }

    // Keeps the statistics of a call, or forgets the state of one that was refused memory.
    fn end(&mut self, is_refused: bool) {
        if is_refused {
            self.state = None;
        }
        if let Some(state) = &self.state {
            self.stats = state.stats;
        }
    }

    /// Begins a call: it watches the clauses that are new to it, and backtracks no farther than it has to. The levels
    /// of the last call stay, as far as their decisions are the first assumptions in their order, and all levels where
    /// no assumption is left, if the domain has as many variables, each of which could be decided in the last call:
    /// then those of the last call may be decided still.
    ///
    /// # Errors
    /// `AllocError` where memory is refused. The search forgets what it knows of the clauses.
    pub fn begin(&mut self, kernel: &mut Kernel, query: Query<'_>) -> Result<(), AllocError>
        ensures { kernel.new ≡ kernel.old }
    {
        self.prepare()?;
        let Some(state) = &mut self.state else {
            return Ok(());
        };
        let done = begin(self.alloc, kernel, state, query);
        self.end(done.is_err());
        done
    }

    /// Goes back to the root within a call, and watches the clauses that are new. The budget of the call goes on.
    ///
    /// # Errors
    /// `AllocError` where memory is refused. The search forgets what it knows of the clauses.
    pub fn resume(&mut self, kernel: &mut Kernel, query: Query<'_>) -> Result<(), AllocError>
        ensures { kernel.new ≡ kernel.old }
    {
        let Some(state) = &mut self.state else {
            return Ok(());
        };
        let done = resume(self.alloc, kernel, state, query);
        self.end(done.is_err());
        done
    }

    /// Gives the call so many propagations more, from now on.
    pub fn extend(&mut self, propagations: u64) {
        if let Some(state) = &mut self.state {
            state.end = state.stats.propagations.saturating_add(propagations);
        }
    }

    /// Goes on until a clause was learned or something was found, for the query of [`Search::begin`].
    ///
    /// # Errors
    /// `AllocError` where memory is refused. The search forgets what it knows of the clauses.
    pub fn turn(&mut self, kernel: &mut Kernel, query: Query<'_>) -> Result<Turn, AllocError>
        ensures { kernel.new ≡ kernel.old }
    {
        let Some(state) = &mut self.state else {
            return Ok(Turn::Spent);
        };
        let done = run(self.alloc, kernel, state, query);
        self.end(done.is_err());
        done
    }

    /// Lets the next turn begin with a clause of the formula that the last [`Turn::Model`] leaves open. False if there
    /// is none.
    pub fn reopen(&mut self, kernel: &Kernel) -> bool {
        let Some(state) = &mut self.state else {
            return false;
        };
        let Some(id) = open_clause(kernel, state) else {
            return false;
        };
        state.open = Some(short(id));
        state.stats.left_open = state.stats.left_open.saturating_add(1);
        true
    }

    /// Drops the clauses of the formula that a literal satisfies which has to be true, as far as that is found without
    /// a decision. Each such literal becomes a clause of the formula. The memory of the watches is freed: the next call
    /// watches all clauses anew.
    ///
    /// # Errors
    /// `AllocError` where memory is refused. The formula stays as it was.
    pub fn simplify(&mut self, kernel: &mut Kernel) -> Result<(), AllocError>
        ensures same { OnOk result (SaysSame kernel.old kernel.new) }
        ensures refused { OnErr result (kernel.new ≡ kernel.old) }
    {
        self.begin(kernel, Query::all())?;
        let Some(state) = &mut self.state else {
            return Ok(());
        };
        let done = simplify(self.alloc, kernel, state);
        self.end(done.is_err());
        done
    }

    /// Eliminates variables but for the frozen ones, in about so many steps: their clauses give way to resolvents. The
    /// elimination is taken up again where [`Search::begin`] is called for all variables, after twice as many
    /// propagations each time, with as many steps. Once all variables were tried, such a round may leave some clauses
    /// more.
    ///
    /// # Errors
    /// `AllocError` where memory is refused. The search forgets what it knows of the clauses.
    pub fn eliminate(
        &mut self,
        kernel: &mut Kernel,
        frozen: &[u32],
        steps: u64,
    ) -> Result<(), AllocError>
        ensures { kernel.new ≡ kernel.old }
    {
        self.begin(kernel, Query::all())?;
        let Some(state) = &mut self.state else {
            return Ok(());
        };
        let done = eliminate(self.alloc, kernel, state, frozen, steps);
        self.end(done.is_err());
        done
    }

    /// Shortens clauses of low glue that were learned since the last call, until it has propagated about so many
    /// literals.
    ///
    /// # Errors
    /// `AllocError` where memory is refused. The search forgets what it knows of the clauses.
    pub fn vivify(&mut self, kernel: &mut Kernel, propagations: u64) -> Result<(), AllocError>
        ensures { kernel.new ≡ kernel.old }
    {
        self.begin(kernel, Query::all())?;
        let Some(state) = &mut self.state else {
            return Ok(());
        };
        let done = vivify(self.alloc, kernel, state, propagations);
        self.end(done.is_err());
        done
    }

    /// Whether [`Search::collect`] drops the working clause with this id.
    pub fn is_deleted(&self, kernel: &Kernel, id: usize) -> bool {
        match &self.state {
            Some(state) => is_deleted(kernel, state, id),
            None => false,
        }
    }

    /// Whether many clauses were deleted since the last collection.
    pub fn wants_collection(&self, kernel: &Kernel) -> bool {
        match &self.state {
            Some(state) => wants_collection(kernel, state),
            None => false,
        }
    }

    /// Frees the deleted clauses. The ids of others change, as [`Kernel::collect`] says.
    ///
    /// # Errors
    /// `AllocError` where memory is refused. No clause is dropped then.
    pub fn collect(&mut self, kernel: &mut Kernel) -> Result<(), AllocError>
        ensures { kernel.new ≡ kernel.old }
    {
        let Some(state) = &mut self.state else {
            return Ok(());
        };
        let done = collect(self.alloc, kernel, state);
        self.end(done.is_err());
        done
    }
}
