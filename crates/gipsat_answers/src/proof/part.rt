//! A writer of proofs that no values satisfy a formula and make all literals of a cube true.
ghost use Rattle.std.specs.Prelude.{is_some, IsTrue};
ghost use Rattle.std.specs.ControlFlow.{break_value};

use crate::proof::lrat::{write_added, write_deleted};
use crate::proof::writer::{Fault, Form, Format, ProofSteps, ProofWriter};
use gipsat_cnf::{Cnf, Literal};
use gipsat_solver::progress::{Progress, Report};
use std::alloc::{AllocError, Global};
use std::io::Write;
use std::ops::ControlFlow;

/// Writes, as the search goes on, an LRAT proof that a formula implies the negation of a cube. The search is one of the
/// formula with a clause of each literal of the cube. The names of the formula's clauses are those of a proof of it.
///
/// Each derived clause is written with the negations of the cube's literals, so that it follows from the formula alone.
/// The last one, of which the search has no literal, is the negation of the cube. A clause with a literal of the cube is
/// not written, nor named as a reason: what is derived from it is derived from that literal.
pub struct PartWriter<W: Write> {
    proof: ProofWriter<W>,
    cube: Vec<Literal>,
    // By the names of clauses less 1, whether the clause has a literal of the cube.
    passed: Vec<bool>,
    // The clause and the names of the last step.
    clause: Vec<Literal>,
    hints: Vec<u32>,
}

// One call in its owners' proofs, in place of one for each field.
impl<W: Write + Drop> Drop for PartWriter<W> {
    fn drop(self) {
        let PartWriter {
            proof,
            cube,
            passed,
            clause,
            hints,
        } = self;
    }
}

impl<W: Write + Drop> PartWriter<W> {
    /// Before the search. `clauses` are those of the formula, and behind them one of each literal of the cube.
    ///
    /// # Errors
    /// `AllocError` where memory is refused.
    pub fn new(
        alloc: Global,
        writer: W,
        format: Format,
        cube: &[Literal],
        clauses: &Cnf,
    ) -> Result<Self, AllocError> {
        let mut part = PartWriter {
            proof: ProofWriter::in_form(alloc, writer, Form::Lrat, format),
            cube: Vec::new(alloc),
            passed: Vec::new(alloc),
            clause: Vec::new(alloc),
            hints: Vec::new(alloc),
        };
        part.cube.extend_from_slice(cube)?;
        for place in 0..clauses.len() {
            part.passed.push(has_any(clauses.clause(place), cube))?;
        }
        Ok(part)
    }
}

impl<W: Write> PartWriter<W> {
    // Writes that a clause is added.
    fn add(&mut self, clause: &[Literal], chain: &[usize]) -> Result<(), Fault> {
        self.proof.names.add(chain)?;
        if self.pass(clause)? {
            return Ok(());
        }
        self.lift(clause)?;
        self.choose_hints()?;
        write_added(
            &mut self.proof.bytes,
            self.proof.format,
            self.proof.names.last,
            &self.clause,
            &self.hints,
        )?;
        self.proof.flush_much()
    }

    // Notes whether a clause that is added has a literal of the cube.
    fn pass(&mut self, clause: &[Literal]) -> Result<bool, AllocError> {
        let is_passed = has_any(clause, &self.cube);
        self.passed.push(is_passed)?;
        Ok(is_passed)
    }

    // Makes the clause of a step: one with the negations of the cube's literals, each once.
    fn lift(&mut self, clause: &[Literal]) -> Result<(), AllocError> {
        self.clause.clear();
        for l in clause {
            if !has(&self.cube, l.negated()) {
                self.clause.push(*l)?;
            }
        }
        for l in self.cube.iter() {
            if !has(&self.clause, l.negated()) {
                self.clause.push(l.negated())?;
            }
        }
        Ok(())
    }

    // Makes the hints of a step: those of the last chain whose clauses have no literal of the cube.
    fn choose_hints(&mut self) -> Result<(), AllocError> {
        self.hints.clear();
        for name in self.proof.names.hints.iter() {
            if !is_passed(&self.passed, *name) {
                self.hints.push(*name)?;
            }
        }
        Ok(())
    }

    // Writes that a clause is deleted, if a step added it or it is of the formula.
    fn delete(&mut self, id: usize) -> Result<(), Fault> {
        let name = self.proof.names.of(id);
        if !is_passed(&self.passed, name) {
            write_deleted(
                &mut self.proof.bytes,
                self.proof.format,
                self.proof.names.last,
                name,
            )?;
        }
        self.proof.names.free(id);
        self.proof.flush_much()
    }
}

// Whether a list has a literal.
fn has(list: &[Literal], l: Literal) -> bool {
    for other in list {
        if *other == l {
            return true;
        }
    }
    false
}

// Whether a clause has a literal of a cube.
fn has_any(clause: &[Literal], cube: &[Literal]) -> bool {
    for l in clause {
        if has(cube, *l) {
            return true;
        }
    }
    false
}

// Whether the clause of a name has a literal of the cube.
fn is_passed(passed: &[bool], name: u32) -> bool {
    let place = (name as usize).wrapping_sub(1);
    passed.get(place).copied().unwrap_or(false)
}

impl<W: Write> ProofSteps for PartWriter<W> {
    fn end_steps(&mut self, refuted: bool) -> Result<(), Fault> {
        self.proof.finish(refuted)
    }
}

impl<W: Write> Progress for PartWriter<W> {
    ghost wants_stop = { λ part. is_some part.proof.fault };

    fn wants_chains(&self) -> bool {
        true
    }

    fn begin(&mut self, report: Report)
        ensures stops { IsTrue (is_some self.old.proof.fault) → IsTrue (is_some self.new.proof.fault) }
    {
        self.proof.begin(report);
    }

    fn added(&mut self, _id: usize, clause: &[Literal], chain: &[usize])
        ensures stops { IsTrue (is_some self.old.proof.fault) → IsTrue (is_some self.new.proof.fault) }
    {
        if self.proof.fault.is_some() {
            return;
        }
        if let Err(fault) = self.add(clause, chain) {
            self.proof.fault = Some(fault);
        }
    }

    fn deleted(&mut self, id: usize, _clause: &[Literal])
        ensures stops { IsTrue (is_some self.old.proof.fault) → IsTrue (is_some self.new.proof.fault) }
    {
        if self.proof.fault.is_some() {
            return;
        }
        if let Err(fault) = self.delete(id) {
            self.proof.fault = Some(fault);
        }
    }

    fn note(&mut self, report: Report) -> ControlFlow<()>
        ensures stops { IsTrue (is_some (break_value result)) → IsTrue (is_some self.new.proof.fault) }
    {
        self.proof.note(report)
    }

    fn end(&mut self, report: Report)
        ensures stops { IsTrue (is_some self.old.proof.fault) → IsTrue (is_some self.new.proof.fault) }
    {
        self.proof.end(report);
    }
}
