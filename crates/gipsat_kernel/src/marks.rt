//! A set of literals: those of the clause that is being derived.
ghost use Rattle.std.specs.Prelude.{◌≡◌, ◌≤◌, ◌<◌, length, set, take, true, OnOk, OnErr};
ghost use Rattle.std.specs.Bool.{OnTrue};
ghost use Rattle.gipsat_cnf.specs.Prelude.{AreHadBy, code};
ghost use Rattle.gipsat_kernel.specs.Marks.{AreListed, AreMarked, AreMarkedBut, Grows, IsTaken, KeepsMarksBut, MarksSame, NoneMarked, TakesMarked, is_marked};

use gipsat_cnf::{Cnf, Literal};
use std::alloc::{AllocError, Global};
use std::marker::Model;

// A flag for each code, and the literals that were marked since all flags were false, in order.
pub(crate) struct Marks {
    flags: Vec<bool>,
    listed: Vec<Literal>,
}

// One call in its owners' proofs, in place of one for each field.
impl Drop for Marks {
    fn drop(self) {
        let Marks { flags, listed } = self;
    }
}

impl Model for Marks {
    ghost use Rattle.std.specs.Prelude.{List, Bool};
    ghost use Rattle.gipsat_kernel.specs.Marks.{AreListed};

    ghost Value = { List Bool };

    ghost view = { λ m. m.flags.items };

    ghost invariant = { λ m. AreListed m.flags.items m.listed.items };
}

// Whether a literal's flag is set. A literal without a flag is not marked.
#[inline]
fn has(flags: &Vec<bool>, l: Literal) -> bool
    ensures { result ≡ is_marked flags.now.items l }
{
    match flags.get(l.code()) {
        Some(mark) => *mark,
        None => false,
    }
}

// Sets a literal's flag to a value. Nothing changes if it has none.
#[inline]
fn put(flags: &mut Vec<bool>, l: Literal, mark: bool)
    ensures { flags.new.items ≡ set flags.old.items (code l) mark }
{
    let code = l.code();
    if code >= flags.len() {
        return;
    }
    flags[code] = mark;
}

// Makes a flag for each code below a number. No literal more is marked.
fn cover(flags: &mut Vec<bool>, codes: usize) -> Result<(), AllocError>
    ensures same { MarksSame flags.old.items flags.new.items }
    ensures room { OnOk result (codes ≤ length flags.new.items) }
{
    if codes <= flags.len() {
        return Ok(());
    }
    flags.resize(codes, false)?;
    Ok(())
}

// Takes the marks of the listed literals away.
fn unmark(listed: &[Literal], flags: &mut Vec<bool>)
    requires { AreListed flags.old.items listed.now }
    ensures { NoneMarked flags.new.items }
{
    for l in listed {
        put(flags, *l, false);
    }
}

// Moves the marked literals to the front of the list, each once and in order, and takes their marks away. How many
// there are.
fn gather(listed: &mut Vec<Literal>, flags: &mut Vec<bool>) -> usize
    requires { AreListed flags.old.items listed.old.items }
    ensures small { result ≤ length listed.new.items }
    ensures taken { IsTaken flags.old.items flags.new.items (take result listed.new.items) }
{
    let mut count: usize = 0;
    for place in 0..listed.len() {
        let l = listed[place];
        if !has(flags, l) {
            continue;
        }
        put(flags, l, false);
        listed[count] = l;
        count += 1;
    }
    count
}

// Marks literals that have flags, where none is marked.
fn mark_known(literals: &[Literal], flags: &mut Vec<bool>)
    requires { NoneMarked flags.old.items }
    ensures { AreListed flags.new.items literals.now }
{
    for l in literals {
        put(flags, *l, true);
    }
}

// Whether each literal of the clause is marked.
fn are_marked(clause: &[Literal], flags: &Vec<bool>) -> bool
    ensures { OnTrue result (AreMarked clause.now flags.now.items) }
{
    for l in clause {
        if !has(flags, *l) {
            return false;
        }
    }
    true
}

// Whether each literal of the clause is one of others, where none is marked before and after.
fn is_part(clause: &[Literal], others: &[Literal], flags: &mut Vec<bool>) -> bool
    requires { NoneMarked flags.old.items }
    ensures none { NoneMarked flags.new.items }
    ensures part { OnTrue result (AreHadBy others.now clause.now) }
{
    mark_known(others, flags);
    let all = are_marked(clause, flags);
    unmark(others, flags);
    all
}

impl Marks {
    // No literal is marked, and none has a flag. It takes no memory.
    pub(crate) fn new(alloc: Global) -> Self {
        Marks {
            flags: Vec::new(alloc),
            listed: Vec::new(alloc),
        }
    }

    // Whether the literal is marked.
    #[inline]
    pub(crate) fn has(&self, l: Literal) -> bool
        ensures { result ≡ is_marked self.now l }
    {
        has(&self.flags, l)
    }

    // The literals that were marked since the last `clear`, in order; also those whose marks were removed.
    #[inline]
    pub(crate) fn listed(&self) -> &[Literal] {
        &self.listed
    }

    // Makes a flag for each literal of so many variables.
    pub(crate) fn cover_variables(&mut self, variables: usize) -> Result<(), AllocError> {
        cover(&mut self.flags, variables.saturating_mul(2))
    }

    // Makes a flag for each literal of the clause, and for its negation.
    pub(crate) fn cover_clause(&mut self, clause: &[Literal]) -> Result<(), AllocError> {
        let mut codes: usize = 0;
        for l in clause {
            codes = codes.max(l.code() + 2);
        }
        cover(&mut self.flags, codes)
    }

    // Marks a literal, and lists it if it was not marked.
    #[inline]
    pub(crate) fn add(&mut self, l: Literal) -> Result<(), AllocError>
        ensures grows { OnOk result (Grows self.old self.new) }
        ensures added { OnOk result (is_marked self.new l ≡ true) }
    {
        if has(&self.flags, l) {
            return Ok(());
        }
        let code = l.code();
        cover(&mut self.flags, code + 1)?;
        self.listed.push(l)?;
        self.flags[code] = true;
        Ok(())
    }

    // Takes a mark away.
    #[inline]
    pub(crate) fn remove(&mut self, l: Literal)
        ensures { KeepsMarksBut l self.old self.new }
    {
        put(&mut self.flags, l, false);
    }

    // Marks each of the clause's literals.
    pub(crate) fn add_all(&mut self, clause: &[Literal]) -> Result<(), AllocError>
        ensures { OnOk result (AreMarked clause.now self.new) }
    {
        for l in clause {
            self.add(*l)?;
        }
        Ok(())
    }

    // Marks each of the clause's literals but one.
    pub(crate) fn add_but(&mut self, but: Literal, clause: &[Literal]) -> Result<(), AllocError>
        ensures grows { OnOk result (Grows self.old self.new) }
        ensures marked { OnOk result (AreMarkedBut but clause.now self.new) }
    {
        for l in clause {
            if l.code() != but.code() {
                self.add(*l)?;
            }
        }
        Ok(())
    }

    // Takes all marks away, in the time of the listed literals.
    pub(crate) fn clear(&mut self)
        ensures { NoneMarked self.new }
    {
        unmark(&self.listed, &mut self.flags);
        self.listed.clear();
    }

    // Adds the clause of the marked literals to a list, with no memory but that of the list. No literal is marked
    // afterwards.
    pub(crate) fn take_into(&mut self, clauses: &mut Cnf) -> Result<(), AllocError>
        ensures taken { OnOk result (TakesMarked self.old clauses.old clauses.new) }
        ensures refused { OnErr result (clauses.new ≡ clauses.old) }
    {
        let count = gather(&mut self.listed, &mut self.flags);
        let pushed = clauses.push(&self.listed[..count]);
        self.listed.clear();
        pushed
    }

    // Whether each literal of the clause is one of others. No literal is marked afterwards.
    pub(crate) fn is_part(&mut self, clause: &[Literal], others: &[Literal]) -> bool
        ensures { OnTrue result (AreHadBy others.now clause.now) }
    {
        self.clear();
        is_part(clause, others, &mut self.flags)
    }
}
