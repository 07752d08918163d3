//! The solver: a search that guesses, and a kernel that is believed.
ghost use Rattle.std.specs.Prelude.{◌≡◌, ◌+◌, ◌≤◌, ◌++◌, ◌∷◌, [], true, IfNone, IfOk, IfSome, IsTrue, OnOk, OnErr};
ghost use Rattle.gipsat_cnf.specs.Prelude.{Adds, AreAllBelow, IsModel, IsSatisfiable, SaysSame, satisfies_clause};
ghost use Rattle.gipsat_solver.specs.Answers.{HasMore, HasNoFewer, HasUpTo, IsRight, IsRightEnd, IsRightGuess, IsRightLimited, IsRightUnder};

use crate::answers::{End, answer_of};
use crate::listener::{Progress, Report};
use crate::turns::{Step, end_of_lost, solve_one_conflict};
use gipsat_cnf::{Answer, AnswerUnder, Budget, ClauseSink, Cnf, Effort, Guess, Literal, SatSolver};
use gipsat_kernel::Kernel;
use gipsat_search::{Query, Search, Stats};
use std::alloc::{AllocError, Global};
use std::marker::Model;

/// What a search in slices does between them.
#[derive(Clone, Copy)]
pub struct Inprocessing {
    /// Whether it calls [`Solver::eliminate`] after the first slice.
    pub eliminates: bool,
    /// Whether it calls [`Solver::vivify`] after each.
    pub vivifies: bool,
}

impl Inprocessing {
    /// Both.
    pub const ALL: Self = Inprocessing {
        eliminates: true,
        vivifies: true,
    };
    /// Neither.
    pub const NONE: Self = Inprocessing {
        eliminates: false,
        vivifies: false,
    };
}

/// A formula to which clauses may be added, and what was learned of it.
///
/// It is seen as its formula, how many clauses were learned from conflicts, and a number above all variables that
/// [`Solver::new_variable`] gave.
pub struct Solver {
    alloc: Global,
    kernel: Kernel,
    search: Search,
    // One more than the last variable that was given. 0 where none was.
    given: usize,
    // How many clauses were learned from conflicts.
    learned: usize,
    // How many working clauses need not be told any more.
    told: usize,
    // How often a search told something wrong, so that all values were tried.
    lost: u64,
    // What a search in slices does between them.
    inprocessing: Inprocessing,
}

// One call in its owners' proofs, in place of one for each field.
impl Drop for Solver {
    fn drop(self) {
        let Solver {
            alloc: _,
            kernel,
            search,
            given: _,
            learned: _,
            told: _,
            lost: _,
            inprocessing: _,
        } = self;
    }
}

impl Model for Solver {
    ghost use Rattle.gipsat_solver.specs.Answers.{SolverState};

    ghost Value = { SolverState };

    ghost view = { λ s. record { formula = s.kernel; learned = s.learned; given = s.given } };
}

// Tells a working clause that was derived.
fn tell<P: Progress>(kernel: &Kernel, id: usize, progress: &mut P)
    ensures { IsTrue (P.wants_stop progress.old) → IsTrue (P.wants_stop progress.new) }
{
    if let Some(clause) = kernel.clause(id) {
        progress.added(id, clause, kernel.chain(id));
    }
}

impl Solver {
    /// The formula of no clause, which everything satisfies. It takes no memory yet.
    pub fn new(alloc: Global) -> Self
        ensures formula { result.formula ≡ [] }
        ensures learned { result.learned ≡ 0 }
        ensures given { result.given ≡ 0 }
    {
        Solver {
            alloc,
            kernel: Kernel::new(alloc),
            search: Search::new(alloc),
            given: 0,
            learned: 0,
            told: 0,
            lost: 0,
            inprocessing: Inprocessing::ALL,
        }
    }

    /// A formula that is taken over without a copy.
    ///
    /// # Errors
    /// `AllocError` where memory is refused. The formula is lost then.
    pub fn over(alloc: Global, formula: Cnf) -> Result<Self, AllocError>
        ensures formula { IfOk result (λ solver. solver.formula ≡ formula) }
        ensures learned { IfOk result (λ solver. solver.learned ≡ 0) }
        ensures given { IfOk result (λ solver. solver.given ≡ 0) }
    {
        Ok(Solver {
            alloc,
            kernel: Kernel::over(alloc, formula)?,
            search: Search::new(alloc),
            given: 0,
            learned: 0,
            told: 0,
            lost: 0,
            inprocessing: Inprocessing::ALL,
        })
    }

    /// Adds a clause to the formula: one of its literals has to be true. What was learned before is kept.
    ///
    /// # Errors
    /// `AllocError` where memory for the clause is refused, or where all clauses would have 2^32 literals.
    /// Nothing changes then.
    pub fn add_clause(&mut self, clause: &[Literal]) -> Result<(), AllocError>
        ensures formula { OnOk result (self.new.formula ≡ self.old.formula ++ clause.now ∷ []) }
        ensures means { OnOk result
            (Adds (λ a. IsTrue (satisfies_clause a clause.now)) self.old.formula self.new.formula) }
        ensures learned { self.new.learned ≡ self.old.learned }
        ensures given { self.new.given ≡ self.old.given }
        ensures refused { OnErr result (self.new ≡ self.old) }
    {
        self.kernel.add_clause(clause)?;
        Ok(())
    }

    /// A number that all variables of the formula are below, and all that [`Solver::new_variable`] gave.
    #[inline]
    pub fn variables(&self) -> usize
        ensures below { AreAllBelow result self.now.formula }
        ensures given { self.now.given ≤ result }
    {
        self.kernel.variables().max(self.given)
    }

    /// A new variable: no clause of the formula has it, and no other call gave it. It takes no memory before a clause
    /// or an assumption has it.
    ///
    /// # Errors
    /// `AllocError` where its number would be 2^31. Nothing changes then.
    pub fn new_variable(&mut self) -> Result<Literal, AllocError>
        ensures unused { IfOk result (λ l. AreAllBelow l.variable self.old.formula) }
        ensures other { IfOk result (λ l. self.old.given ≤ l.variable) }
        ensures given { IfOk result (λ l. self.new.given ≡ l.variable + 1) }
        ensures positive { IfOk result (λ l. l.positive ≡ true) }
        ensures formula { self.new.formula ≡ self.old.formula }
        ensures learned { self.new.learned ≡ self.old.learned }
        ensures refused { OnErr result (self.new ≡ self.old) }
    {
        let variable = self.variables();
        if variable >= 1 << 31 {
            return Err(AllocError);
        }
        self.given = variable + 1;
        Ok(Literal::new(variable as u32, true))
    }

    /// How many clauses it holds: those of the formula, and those that follow and were not freed. Nothing is proved of
    /// it.
    pub fn len(&self) -> usize {
        self.kernel.len()
    }

    /// How many clauses were learned from conflicts so far. Other clauses that follow do not count.
    pub fn learned(&self) -> usize
        ensures { result ≡ self.now.learned }
    {
        self.learned
    }

    /// How much was done so far. Nothing is proved of it.
    pub fn stats(&self) -> Stats {
        let stats = self.search.stats();
        Stats {
            left_open: stats.left_open.saturating_add(self.lost),
            ..stats
        }
    }

    /// Finds out whether anything satisfies the formula, and gives up after it has learned `limit` clauses.
    ///
    /// It may be called again: it goes on with what was learned so far.
    ///
    /// # Errors
    /// `AllocError` where memory is refused. The formula stays as it was; some clauses may have been learned.
    pub fn solve(&mut self, limit: usize) -> Result<Answer, AllocError>
        ensures right { IfOk result (IsRight self.old self.new limit) }
        ensures formula { self.new.formula ≡ self.old.formula }
        ensures given { self.new.given ≡ self.old.given }
        ensures learned { OnOk result (HasUpTo limit self.old self.new) }
        ensures refused { OnErr result (HasNoFewer self.old self.new) }
    {
        Ok(answer_of(self.solve_under(&[], limit)?))
    }

    /// Finds out whether anything satisfies the formula and makes each assumption true, and gives up after it has
    /// learned `limit` clauses.
    ///
    /// The assumptions hold for this call alone: what is learned follows from the formula. They may repeat or
    /// contradict each other, and may name variables that no clause has; memory is taken for each number up to the
    /// greatest then.
    ///
    /// # Errors
    /// `AllocError` where memory is refused. The formula stays as it was; some clauses may have been learned.
    pub fn solve_under(
        &mut self,
        assumptions: &[Literal],
        limit: usize,
    ) -> Result<AnswerUnder, AllocError>
        ensures right { IfOk result (IsRightUnder assumptions.now self.old self.new limit) }
        ensures formula { self.new.formula ≡ self.old.formula }
        ensures given { self.new.given ≡ self.old.given }
        ensures learned { OnOk result (HasUpTo limit self.old self.new) }
        ensures refused { OnErr result (HasNoFewer self.old self.new) }
    {
        let query = Query {
            assumptions,
            domain: None,
            propagations: u64::MAX,
            is_guess: false,
        };
        match self.find(&query, limit, &mut ())? {
            None => Ok(AnswerUnder::Unknown),
            Some(End::Model(model)) => Ok(AnswerUnder::Sat(model)),
            Some(End::Core(core)) => Ok(AnswerUnder::Unsat(core)),
            Some(End::Guessed | End::Spent) => unreachable!(),
        }
    }

    /// Finds out what [`Solver::solve_under`] does, and gives up once its budget is spent, also where no conflict is
    /// met. Nothing is proved of the propagations.
    ///
    /// The next call goes on where this one gave up, if it has the same assumptions, and neither frees clauses nor
    /// eliminates variables. Else a budget of fewer propagations than there are variables may be too small to meet a
    /// conflict or a model.
    ///
    /// # Errors
    /// `AllocError` where memory is refused. The formula stays as it was; some clauses may have been learned.
    pub fn solve_limited(
        &mut self,
        assumptions: &[Literal],
        budget: Budget,
    ) -> Result<AnswerUnder, AllocError>
        ensures right { IfOk result (IsRightLimited assumptions.now self.old self.new budget.clauses) }
        ensures formula { self.new.formula ≡ self.old.formula }
        ensures given { self.new.given ≡ self.old.given }
        ensures learned { OnOk result (HasUpTo budget.clauses self.old self.new) }
        ensures refused { OnErr result (HasNoFewer self.old self.new) }
    {
        let query = Query {
            assumptions,
            domain: None,
            propagations: budget.propagations,
            is_guess: false,
        };
        Ok(match self.find(&query, budget.clauses, &mut ())? {
            Some(End::Model(model)) => AnswerUnder::Sat(model),
            Some(End::Core(core)) => AnswerUnder::Unsat(core),
            _ => AnswerUnder::Unknown,
        })
    }

    /// Looks for a contradiction between the assumptions and the formula, as [`Solver::solve_under`] does, but does
    /// not read the formula once more before it answers `Sat`, and makes no list of values: [`Solver::value`] tells
    /// them one by one until the solver is called again. So a call costs no more than its search, however large the
    /// formula is.
    ///
    /// `Unsat` is as sure as that of `solve_under`, and so is its core. Of `Sat` nothing is proved: each variable that
    /// a clause has was assigned and no conflict was met. Who needs a model asks `solve_under`, or tries the values.
    ///
    /// # Errors
    /// `AllocError` where memory is refused. The formula stays as it was; some clauses may have been learned.
    pub fn guess_under(
        &mut self,
        assumptions: &[Literal],
        limit: usize,
    ) -> Result<Guess, AllocError>
        ensures right { IfOk result (IsRightGuess assumptions.now self.old self.new limit) }
        ensures formula { self.new.formula ≡ self.old.formula }
        ensures given { self.new.given ≡ self.old.given }
        ensures learned { OnOk result (HasUpTo limit self.old self.new) }
        ensures refused { OnErr result (HasNoFewer self.old self.new) }
    {
        self.guess(assumptions, limit, None)
    }

    /// What [`Solver::guess_under`] does, where only the variables of a domain are decided, apart from the assumptions.
    ///
    /// At `Sat` each variable of the domain has a value, and propagation within the domain met no conflict. These
    /// values can be extended to a model if the domain is closed, as that of a circuit's gates is with all that they
    /// read: nothing is proved of it. What is assumed counts as of the domain. A number of the domain that the formula
    /// and the assumptions don't have is passed over. Variables of the last call's domain and assumptions may be
    /// decided too.
    ///
    /// # Errors
    /// Those of [`Solver::guess_under`].
    pub fn guess_within(
        &mut self,
        domain: &[u32],
        assumptions: &[Literal],
        limit: usize,
    ) -> Result<Guess, AllocError>
        ensures right { IfOk result (IsRightGuess assumptions.now self.old self.new limit) }
        ensures formula { self.new.formula ≡ self.old.formula }
        ensures given { self.new.given ≡ self.old.given }
        ensures learned { OnOk result (HasUpTo limit self.old self.new) }
        ensures refused { OnErr result (HasNoFewer self.old self.new) }
    {
        self.guess(assumptions, limit, Some(domain))
    }

    // Guesses, within a domain where there is one.
    fn guess<'q>(
        &mut self,
        assumptions: &'q [Literal],
        limit: usize,
        domain: Option<&'q [u32]>,
    ) -> Result<Guess, AllocError>
        ensures right { IfOk result (IsRightGuess assumptions.now self.old self.new limit) }
        ensures formula { self.new.formula ≡ self.old.formula }
        ensures given { self.new.given ≡ self.old.given }
        ensures learned { OnOk result (HasUpTo limit self.old self.new) }
        ensures refused { OnErr result (HasNoFewer self.old self.new) }
    {
        let query = Query {
            assumptions,
            domain,
            propagations: u64::MAX,
            is_guess: true,
        };
        Ok(match self.find(&query, limit, &mut ())? {
            Some(End::Guessed) => Guess::Sat,
            Some(End::Model(_model)) => Guess::Sat,
            Some(End::Core(core)) => Guess::Unsat(core),
            Some(End::Spent) | None => Guess::Unknown,
        })
    }

    /// The value of a variable where the last search ended; None where it has none. Nothing is proved of it.
    pub fn value(&self, variable: u32) -> Option<bool> {
        self.search.value(variable)
    }

    /// Finds values that satisfy the formula, a variable past the end being false, or that there are none. It has no
    /// limit: where memory is not refused, it ends with one or the other.
    ///
    /// What was learned before is used, and what is learned is kept.
    ///
    /// # Errors
    /// `AllocError` where memory is refused. The formula stays as it was; some clauses may have been learned.
    pub fn find_model(&mut self) -> Result<Option<Vec<bool>>, AllocError>
        ensures model { IfOk result (λ found. IfSome found (λ model. IsModel self.old.formula model.items)) }
        ensures none { IfOk result (λ found. IfNone found (¬ (IsSatisfiable self.old.formula))) }
        ensures formula { self.new.formula ≡ self.old.formula }
        ensures given { self.new.given ≡ self.old.given }
        ensures learned { HasNoFewer self.old self.new }
    {
        match self.solve(usize::MAX)? {
            Answer::Sat(model) => Ok(Some(model)),
            Answer::Unsat => Ok(None),
            Answer::Unknown => self.kernel.find_model(self.alloc, &[]),
        }
    }

    // Begins a call, and searches until there is an end, or so many clauses were learned: no end then.
    pub(crate) fn find<P: Progress>(
        &mut self,
        query: &Query<'_>,
        limit: usize,
        progress: &mut P,
    ) -> Result<Option<End>, AllocError>
        ensures formula { self.new.formula ≡ self.old.formula }
        ensures given { self.new.given ≡ self.old.given }
        ensures right { IfOk result (λ end. IfSome end (IsRightEnd self.old.formula query.now)) }
        ensures limit { IfOk result (λ end. IfNone end (HasMore limit self.old self.new)) }
        ensures most { OnOk result (HasUpTo limit self.old self.new) }
        ensures refused { OnErr result (HasNoFewer self.old self.new) }
        ensures stop { IsTrue (P.wants_stop progress.old) → IsTrue (P.wants_stop progress.new) }
    {
        self.search.begin(&mut self.kernel, *query)?;
        self.find_on(query, limit, progress)
    }

    // As `find`, but goes on with a search that was begun where it is, with so many propagations more.
    pub(crate) fn resume<P: Progress>(
        &mut self,
        query: &Query<'_>,
        limit: usize,
        has_begun: bool,
        progress: &mut P,
    ) -> Result<Option<End>, AllocError>
        ensures formula { self.new.formula ≡ self.old.formula }
        ensures given { self.new.given ≡ self.old.given }
        ensures right { IfOk result (λ end. IfSome end (IsRightEnd self.old.formula query.now)) }
        ensures limit { IfOk result (λ end. IfNone end (HasMore limit self.old self.new)) }
        ensures most { OnOk result (HasUpTo limit self.old self.new) }
        ensures refused { OnErr result (HasNoFewer self.old self.new) }
        ensures stop { IsTrue (P.wants_stop progress.old) → IsTrue (P.wants_stop progress.new) }
    {
        if !has_begun {
            return self.find(query, limit, progress);
        }
        self.search.extend(query.propagations);
        self.find_on(query, limit, progress)
    }

    // Searches on until there is an end, or so many clauses were learned.
    fn find_on<P: Progress>(
        &mut self,
        query: &Query<'_>,
        limit: usize,
        progress: &mut P,
    ) -> Result<Option<End>, AllocError>
        ensures formula { self.new.formula ≡ self.old.formula }
        ensures given { self.new.given ≡ self.old.given }
        ensures right { IfOk result (λ end. IfSome end (IsRightEnd self.old.formula query.now)) }
        ensures limit { IfOk result (λ end. IfNone end (HasMore limit self.old self.new)) }
        ensures most { OnOk result (HasUpTo limit self.old self.new) }
        ensures refused { OnErr result (HasNoFewer self.old self.new) }
        ensures stop { IsTrue (P.wants_stop progress.old) → IsTrue (P.wants_stop progress.new) }
    {
        if self.search.wants_collection(&self.kernel) {
            self.collect(query, progress)?;
        }
        for _ in 0..limit {
            match solve_one_conflict(self.alloc, &mut self.kernel, &mut self.search, query)? {
                Step::Learned => self.count_learned()?,
                Step::Ended(end) => return Ok(Some(end)),
                Step::Reopened | Step::Lost => {
                    self.lost = self.lost.saturating_add(1);
                    return Ok(Some(end_of_lost(self.alloc, &self.kernel, query)?));
                }
            }
            if self.search.wants_collection(&self.kernel) {
                self.collect(query, progress)?;
            }
        }
        Ok(None)
    }

    // Counts a learned clause. It is refused where the count would overflow.
    fn count_learned(&mut self) -> Result<(), AllocError>
        ensures formula { self.new.formula ≡ self.old.formula }
        ensures given { self.new.given ≡ self.old.given }
        ensures more { OnOk result (HasMore 1 self.old self.new) }
        ensures refused { OnErr result (self.new ≡ self.old) }
    {
        self.learned = self.learned.checked_add(1).ok_or(AllocError)?;
        Ok(())
    }

    // Frees the clauses that are not looked at any more, and tells them. The search begins anew: at first, so that what
    // is true at the root is told before the clauses that it satisfies go.
    fn collect<P: Progress>(
        &mut self,
        query: &Query<'_>,
        progress: &mut P,
    ) -> Result<(), AllocError>
        ensures same { self.new ≡ self.old }
        ensures stop { IsTrue (P.wants_stop progress.old) → IsTrue (P.wants_stop progress.new) }
    {
        self.search.resume(&mut self.kernel, *query)?;
        self.tell_added(progress);
        let deleted = self.tell_deleted(progress);
        self.search.collect(&mut self.kernel)?;
        self.told = self.told.saturating_sub(deleted);
        self.search.resume(&mut self.kernel, *query)
    }

    // Tells the clauses that a collection would free: how many.
    fn tell_deleted<P: Progress>(&self, progress: &mut P) -> usize
        ensures { IsTrue (P.wants_stop progress.old) → IsTrue (P.wants_stop progress.new) }
    {
        let mut deleted = 0usize;
        for id in 0..self.kernel.len() {
            if self.kernel.is_original(id) || !self.search.is_deleted(&self.kernel, id) {
                continue;
            }
            if let Some(clause) = self.kernel.clause(id) {
                progress.deleted(id, clause);
                deleted = deleted.saturating_add(1);
            }
        }
        deleted
    }

    // Tells the clauses that were derived since this was called last.
    pub(crate) fn tell_added<P: Progress>(&mut self, progress: &mut P)
        ensures same { self.new ≡ self.old }
        ensures stop { IsTrue (P.wants_stop progress.old) → IsTrue (P.wants_stop progress.new) }
    {
        for id in self.told..self.kernel.len() {
            tell(&self.kernel, id, progress);
        }
        self.tell_no_more();
    }

    // Lets the clauses that there are now be told no more.
    fn tell_no_more(&mut self)
        ensures { self.new ≡ self.old }
    {
        self.told = self.kernel.len();
        self.kernel.forget_chains();
    }

    // Lets the clauses be told that come from now on, with what they are resolved from if that is wanted.
    pub(crate) fn tell_from_now_on(&mut self, with_chains: bool)
        ensures { self.new ≡ self.old }
    {
        self.tell_no_more();
        self.kernel.keep_chains(with_chains);
    }

    // How many literals all working clauses have.
    pub(crate) fn literals(&self) -> usize {
        self.kernel.literals().len()
    }

    // How far it is.
    pub(crate) fn report(&self) -> Report {
        Report {
            stats: self.stats(),
            clauses: self.len().saturating_sub(usize::from(self.ends_empty())),
        }
    }

    // Whether the last clause was derived and is empty.
    fn ends_empty(&self) -> bool {
        match self.kernel.len().checked_sub(1) {
            Some(last) => self.kernel.is_refuted(last) && !self.kernel.is_original(last),
            None => false,
        }
    }

    /// Sets what a search in slices ([`crate::progress::solve_in_slices`]) does between them. By default it does all.
    pub fn set_inprocessing(&mut self, inprocessing: Inprocessing)
        ensures { self.new ≡ self.old }
    {
        self.inprocessing = inprocessing;
    }

    /// What a search in slices does between them.
    pub fn inprocessing(&self) -> Inprocessing {
        self.inprocessing
    }

    /// Eliminates variables: the clauses of a variable give way to their resolvents, which become clauses of the
    /// solver, if these are not more than the clauses and not long. It also drops clauses that follow from others.
    /// Besides a walk over all clauses it takes about `steps` steps, and goes on while some thousand steps eliminate a
    /// variable; a step looks at a literal. The `frozen` variables are not eliminated; one that was eliminated before
    /// is not brought back.
    ///
    /// The formula is the same as before, and each answer is right as before: only the search no longer looks at the
    /// clauses of an eliminated variable, and decides it last. If such a variable is assumed, or a clause with it is
    /// added, its clauses are looked at again; so freeze a variable that you will assume or constrain often.
    ///
    /// # Errors
    /// `AllocError` where memory is refused. Some resolvents may have been added.
    pub fn eliminate(&mut self, frozen: &[u32], steps: u64) -> Result<(), AllocError>
        ensures { self.new ≡ self.old }
    {
        self.search.eliminate(&mut self.kernel, frozen, steps)
    }

    // Eliminates variables, as `eliminate` does, but those of some literals.
    pub(crate) fn eliminate_others(
        &mut self,
        literals: &[Literal],
        steps: u64,
    ) -> Result<(), AllocError>
        ensures { self.new ≡ self.old }
    {
        let mut frozen = Vec::new(self.alloc);
        for l in literals {
            frozen.push(l.variable())?;
        }
        self.eliminate(&frozen, steps)
    }

    /// Shortens learned clauses of more than two literals, those of low glue that were learned since the last call, the
    /// latest first. It makes the literals of a clause false, one after another; where propagation shows that some of
    /// them can't all be false, the clause of these becomes a clause of the solver, and the longer one is deleted. It
    /// ends once it has propagated about as many literals as `propagations`. [`Solver::stats`] does not count what it
    /// does, but for the clauses that it deletes.
    ///
    /// # Errors
    /// `AllocError` where memory is refused. Some clauses may have been added.
    pub fn vivify(&mut self, propagations: u64) -> Result<(), AllocError>
        ensures { self.new ≡ self.old }
    {
        self.search.vivify(&mut self.kernel, propagations)
    }

    /// Drops the clauses of the formula that a literal satisfies which has to be true, as far as that is found without
    /// a decision, and frees their memory if there is room for those that stay. Each such literal becomes a clause of
    /// the formula, so that the same assignments satisfy it as before. The deleted clauses go too.
    ///
    /// So a clause that was added with the negation of a variable is gone for good once the negation was added alone,
    /// and this was called; a clause of one literal, and the tables of the variable stay. It takes time and memory as
    /// the first call of [`Solver::solve`] does, and the next call sets up all watches. Where propagation alone meets a
    /// contradiction, it drops nothing.
    ///
    /// # Errors
    /// `AllocError` where memory is refused. No clause is dropped then, and none is added.
    pub fn simplify(&mut self) -> Result<(), AllocError>
        ensures same { OnOk result (SaysSame self.old.formula self.new.formula) }
        ensures learned { self.new.learned ≡ self.old.learned }
        ensures given { self.new.given ≡ self.old.given }
        ensures refused { OnErr result (self.new ≡ self.old) }
    {
        self.search.simplify(&mut self.kernel)?;
        // If this is refused memory, a later collection frees the clauses.
        let _ = self.search.collect(&mut self.kernel);
        Ok(())
    }
}

impl ClauseSink for Solver {
    ghost formula = { λ solver. solver.formula };

    fn add_clause(&mut self, clause: &[Literal]) -> Result<(), AllocError> {
        Solver::add_clause(self, clause)
    }
}

impl SatSolver for Solver {
    fn new(alloc: Global) -> Self {
        Solver::new(alloc)
    }

    fn solve_limited(
        &mut self,
        assumptions: &[Literal],
        budget: Budget,
    ) -> Result<AnswerUnder, AllocError> {
        Solver::solve_limited(self, assumptions, budget)
    }

    fn guess_within(
        &mut self,
        domain: &[u32],
        assumptions: &[Literal],
        limit: usize,
    ) -> Result<Guess, AllocError> {
        Solver::guess_within(self, domain, assumptions, limit)
    }

    fn value(&self, variable: u32) -> Option<bool> {
        Solver::value(self, variable)
    }

    fn find_model(&mut self) -> Result<Option<Vec<bool>>, AllocError> {
        Solver::find_model(self)
    }

    fn simplify(&mut self) -> Result<(), AllocError> {
        Solver::simplify(self)
    }

    fn eliminate(&mut self, frozen: &[u32], steps: u64) -> Result<(), AllocError> {
        Solver::eliminate(self, frozen, steps)
    }

    fn vivify(&mut self, propagations: u64) -> Result<(), AllocError> {
        Solver::vivify(self, propagations)
    }

    fn effort(&self) -> Effort {
        Effort {
            clauses: self.len(),
            learned: self.learned,
            propagations: self.search.stats().propagations,
        }
    }
}
