//! Between which ids the clauses with each literal lie.
ghost use Rattle.std.specs.Prelude.{◌≡◌, ◌<◌, ◌≤◌, [], length, IfOk, OnOk};
ghost use Rattle.gipsat_kernel.specs.Occurrences.{AreNoted, Covers, IdsSame, IdsWiden, IsWithin, Widens, ids_at};

use gipsat_cnf::{Cnf, Literal};
use std::alloc::{AllocError, Global};
use std::marker::Model;

/// The ids from `start` on, before `end`.
#[derive(Clone, Copy)]
pub struct Ids {
    pub start: usize,
    pub end: usize,
}

const NO_IDS: Ids = Ids { start: 0, end: 0 };

// These ids, one more, which is before `end`, and all between.
#[inline]
fn widened(ids: Ids, id: usize, end: usize) -> Ids
    requires { id < end }
    ensures widens { IdsWiden ids result }
    ensures within { IsWithin result id }
{
    if ids.end == 0 {
        return Ids { start: id, end };
    }
    Ids {
        start: ids.start.min(id),
        end: ids.end.max(end),
    }
}

// Makes an entry for each code below a number. No literal more has ids.
fn cover(ids: &mut Vec<Ids>, codes: usize) -> Result<(), AllocError>
    ensures same { IdsSame ids.old.items ids.new.items }
    ensures room { OnOk result (codes ≤ length ids.new.items) }
{
    if codes <= ids.len() {
        return Ok(());
    }
    ids.resize(codes, NO_IDS)?;
    Ok(())
}

// For each literal, by its code, ids that those of the clauses with it are among.
#[derive(Drop)]
pub(crate) struct NotedIds {
    ids: Vec<Ids>,
}

impl Model for NotedIds {
    ghost use Rattle.std.specs.Prelude.{List};
    ghost use Rattle.gipsat_kernel.specs.declared.occurrences.Ids.{Ids};

    ghost Value = { List Ids };

    ghost view = { λ o. o.ids.items };
}

impl NotedIds {
    // Those of no clause. They take no memory.
    pub(crate) fn new(alloc: Global) -> Self
        ensures { result ≡ [] }
    {
        NotedIds {
            ids: Vec::new(alloc),
        }
    }

    // Those of the clauses of a formula.
    pub(crate) fn of(alloc: Global, clauses: &Cnf) -> Result<Self, AllocError>
        ensures { IfOk result (λ noted. Covers noted clauses.now) }
    {
        let mut noted = NotedIds::new(alloc);
        cover(&mut noted.ids, clauses.variables().saturating_mul(2))?;
        for id in 0..clauses.len() {
            noted.note(id, clauses.clause(id))?;
        }
        Ok(noted)
    }

    // The ids of a literal.
    #[inline]
    pub(crate) fn ids_with(&self, l: Literal) -> Ids
        ensures { result ≡ ids_at self.now l }
    {
        match self.ids.get(l.code()) {
            Some(ids) => *ids,
            None => NO_IDS,
        }
    }

    // Notes the id of a clause for each of its literals.
    pub(crate) fn note(&mut self, id: usize, clause: &[Literal]) -> Result<(), AllocError>
        ensures widens { Widens self.old self.new }
        ensures noted { OnOk result (AreNoted self.new clause.now id) }
    {
        for l in clause {
            self.note_literal(id, *l)?;
        }
        Ok(())
    }

    // Notes the id of a clause for a literal.
    #[inline]
    fn note_literal(&mut self, id: usize, l: Literal) -> Result<(), AllocError>
        ensures widens { Widens self.old self.new }
        ensures noted { OnOk result (IsWithin (ids_at self.new l) id) }
    {
        let Some(end) = id.checked_add(1) else {
            return Err(AllocError);
        };
        let code = l.code();
        cover(&mut self.ids, code + 1)?;
        let ids = self.ids[code];
        self.ids[code] = widened(ids, id, end);
        Ok(())
    }
}
