//! A writer of proofs that nothing satisfies a formula, in the DRAT or the LRAT form: a step for each clause that a
//! solver derives, and one for each that it frees.

// How it is proved: an error type that has only cases which can occur (`Fault`) lets the clauses of
// its caller close.

ghost use Rattle.std.specs.Prelude.{◌≡◌, ◌++◌, ◌+◌, [], is_some};
ghost use Rattle.std.specs.Prelude.{IfNone, IfSome, IsErrOf, IsTrue, OnOk};
ghost use Rattle.std.specs.ControlFlow.{break_value};
ghost use Rattle.std.specs.Io.KnownBytes.{Appends, append_known};
ghost use Rattle.gipsat_answers.specs.Lrat.{added_bytes, deleted_bytes, hints_of, name_in};
ghost use Rattle.gipsat_answers.specs.Steps.{end_bytes};
ghost use Rattle.gipsat_answers.specs.declared.proof.writer.Fault.TheVariants as fault;

use crate::proof::lrat::{write_added, write_deleted};
use crate::proof::names::Names;
use crate::proof::steps::write_step;
use gipsat_cnf::Literal;
use gipsat_solver::progress::{Progress, Report};
use std::alloc::{AllocError, Global};
use std::io::{self, Write};
use std::ops::ControlFlow;

/// What the steps of a proof say.
#[derive(Clone, Copy, Debug, PartialEq, Eq, Hash)]
pub enum Form {
    /// The clauses that are added and deleted.
    Drat,
    /// Their names too, and the names of those that each follows from.
    Lrat,
}

/// How a proof is written.
#[derive(Clone, Copy, Debug, PartialEq, Eq, Hash)]
pub enum Format {
    /// A line for each step, with numbers in decimal digits.
    Text,
    /// A byte `a` or `d` for each step, and each number in groups of 7 bits.
    Binary,
}

/// Why a proof is not whole.
#[derive(Clone, Copy)]
pub enum Fault {
    /// Memory was refused, or an LRAT proof would have 2^32 names.
    Memory,
    /// The output could not be written.
    Output(io::Error),
}

impl From<AllocError> for Fault {
    ghost from_gives = { λ _ refused. refused ≡ fault.Memory };

    fn from(_refused: AllocError) -> Fault {
        Fault::Memory
    }
}

// From how many bytes on they are written.
const BUFFER_SIZE: usize = 65_536;

/// Writes a proof as the search goes on, and stops the search where it can't be written.
pub struct ProofWriter<W: Write> {
    writer: W,
    form: Form,
    pub(crate) format: Format,
    // The names of clauses, in LRAT alone.
    pub(crate) names: Names,
    // What was not written yet.
    pub(crate) bytes: Vec<u8>,
    // Why the proof is not whole.
    pub(crate) fault: Option<Fault>,
}

// One call in its owners' proofs, in place of one for each field.
impl<W: Write + Drop> Drop for ProofWriter<W> {
    fn drop(self) {
        let ProofWriter {
            writer,
            form: _,
            format: _,
            names: _,
            bytes,
            fault: _,
        } = self;
    }
}

impl<W: Write> ProofWriter<W> {
    /// Before the search, in the DRAT form.
    pub fn new(alloc: Global, writer: W, format: Format) -> Self {
        ProofWriter::in_form(alloc, writer, Form::Drat, format)
    }

    /// Before the search, in a form. In LRAT the clauses of the formula are named 1, 2 and so on in their order, so the
    /// solver may have derived no clause yet, and it is searched once.
    pub fn in_form(alloc: Global, writer: W, form: Form, format: Format) -> Self {
        ProofWriter {
            writer,
            form,
            format,
            names: Names::new(alloc),
            bytes: Vec::new(alloc),
            fault: None,
        }
    }

    /// Writes what is left, and in DRAT the empty clause where the search found that nothing satisfies the formula.
    ///
    /// # Errors
    /// The first failure of all: `Output` where a write failed, `Memory` where memory was refused.
    pub fn finish(&mut self, refuted: bool) -> Result<(), Fault>
        ensures whole { OnOk result (Appends (W.contents self.old.writer) (W.contents self.new.writer)
            (self.old.bytes.items ++ end_bytes self.old.form self.old.format refuted)) }
        ensures fault { IfSome self.old.fault (λ fault. IsErrOf result fault) }
    {
        if let Some(fault) = self.fault {
            return Err(fault);
        }
        match self.form {
            Form::Drat if refuted => write_step(&mut self.bytes, self.format, false, &[])?,
            _ => {}
        }
        self.flush()
    }

    // Writes that a clause is added.
    fn add(&mut self, clause: &[Literal], chain: &[usize]) -> Result<(), Fault>
        ensures form { self.new.form ≡ self.old.form }
        ensures format { self.new.format ≡ self.old.format }
        ensures written { OnOk result (Appends
            (append_known (W.contents self.old.writer) self.old.bytes.items)
            (append_known (W.contents self.new.writer) self.new.bytes.items)
            (added_bytes self.old.form self.old.format self.new.names.last clause.now
            (hints_of self.new.names.by_id.items chain.now))) }
    {
        match self.form {
            Form::Drat => write_step(&mut self.bytes, self.format, false, clause)?,
            Form::Lrat => {
                self.names.add(chain)?;
                let hints = &self.names.hints;
                write_added(&mut self.bytes, self.format, self.names.last, clause, hints)?;
            }
        }
        self.flush_much()
    }

    // Writes that a clause is deleted.
    fn delete(&mut self, id: usize, clause: &[Literal]) -> Result<(), Fault>
        ensures form { self.new.form ≡ self.old.form }
        ensures format { self.new.format ≡ self.old.format }
        ensures written { OnOk result (Appends
            (append_known (W.contents self.old.writer) self.old.bytes.items)
            (append_known (W.contents self.new.writer) self.new.bytes.items)
            (deleted_bytes self.old.form self.old.format self.old.names.last
            (name_in self.old.names.by_id.items id) clause.now)) }
    {
        match self.form {
            Form::Drat => write_step(&mut self.bytes, self.format, true, clause)?,
            Form::Lrat => {
                let name = self.names.of(id);
                write_deleted(&mut self.bytes, self.format, self.names.last, name)?;
                self.names.free(id);
            }
        }
        self.flush_much()
    }

    // Writes what was not written yet, once it is much.
    pub(crate) fn flush_much(&mut self) -> Result<(), Fault>
        ensures written { OnOk result (Appends (W.contents self.old.writer)
            (append_known (W.contents self.new.writer) self.new.bytes.items) self.old.bytes.items) }
        ensures form { self.new.form ≡ self.old.form }
        ensures format { self.new.format ≡ self.old.format }
        ensures names { self.new.names ≡ self.old.names }
    {
        if self.bytes.len() < BUFFER_SIZE {
            return Ok(());
        }
        self.flush()
    }

    // Writes what was not written yet.
    fn flush(&mut self) -> Result<(), Fault>
        ensures written { OnOk result (Appends (W.contents self.old.writer) (W.contents self.new.writer)
            self.old.bytes.items) }
        ensures cleared { self.new.bytes.items ≡ [] }
        ensures form { self.new.form ≡ self.old.form }
        ensures format { self.new.format ≡ self.old.format }
        ensures names { self.new.names ≡ self.old.names }
    {
        let done = self.writer.write_all(&self.bytes);
        self.bytes.clear();
        match done {
            Ok(()) => Ok(()),
            Err(error) => Err(Fault::Output(error)),
        }
    }
}

/// ProofSteps of a proof that are written as the search goes on.
pub trait ProofSteps: Progress {
    /// Writes what is left. `refuted` says whether the search found that nothing satisfies its formula.
    ///
    /// # Errors
    /// The first failure of all: `Output` where a write failed, `Memory` where memory was refused.
    fn end_steps(&mut self, refuted: bool) -> Result<(), Fault>
        ensures { OnOk result (¬ (IsTrue (Self.wants_stop self.old))) };
}

impl<W: Write> ProofSteps for ProofWriter<W> {
    fn end_steps(&mut self, refuted: bool) -> Result<(), Fault> {
        self.finish(refuted)
    }
}

impl<W: Write> Progress for ProofWriter<W> {
    ghost wants_stop = { λ proof. is_some proof.fault };

    fn wants_chains(&self) -> bool {
        matches!(self.form, Form::Lrat)
    }

    // In LRAT the clauses of the formula are named, unless they are.
    fn begin(&mut self, report: Report)
        ensures stops { IsTrue (is_some self.old.fault) → IsTrue (is_some self.new.fault) }
        ensures written { (self.new.bytes ≡ self.old.bytes) × (self.new.writer ≡ self.old.writer) }
        ensures form { self.new.form ≡ self.old.form }
        ensures format { self.new.format ≡ self.old.format }
    {
        if self.fault.is_some() || matches!(self.form, Form::Drat) {
            return;
        }
        if self.names.begin(report.clauses).is_err() {
            self.fault = Some(Fault::Memory);
        }
    }

    // Where nothing failed, the step that adds the clause is written.
    fn added(&mut self, _id: usize, clause: &[Literal], chain: &[usize])
        ensures stops { IsTrue (is_some self.old.fault) → IsTrue (is_some self.new.fault) }
        ensures form { self.new.form ≡ self.old.form }
        ensures format { self.new.format ≡ self.old.format }
        ensures written { IfNone self.new.fault (Appends
            (append_known (W.contents self.old.writer) self.old.bytes.items)
            (append_known (W.contents self.new.writer) self.new.bytes.items)
            (added_bytes self.old.form self.old.format self.new.names.last clause.now
            (hints_of self.new.names.by_id.items chain.now))) }
    {
        if self.fault.is_some() {
            return;
        }
        if let Err(fault) = self.add(clause, chain) {
            self.fault = Some(fault);
        }
    }

    // Where nothing failed, the step that deletes the clause is written.
    fn deleted(&mut self, id: usize, clause: &[Literal])
        ensures stops { IsTrue (is_some self.old.fault) → IsTrue (is_some self.new.fault) }
        ensures form { self.new.form ≡ self.old.form }
        ensures format { self.new.format ≡ self.old.format }
        ensures written { IfNone self.new.fault (Appends
            (append_known (W.contents self.old.writer) self.old.bytes.items)
            (append_known (W.contents self.new.writer) self.new.bytes.items)
            (deleted_bytes self.old.form self.old.format self.old.names.last
            (name_in self.old.names.by_id.items id) clause.now)) }
    {
        if self.fault.is_some() {
            return;
        }
        if let Err(fault) = self.delete(id, clause) {
            self.fault = Some(fault);
        }
    }

    fn note(&mut self, _report: Report) -> ControlFlow<()>
        ensures stops { IsTrue (is_some (break_value result)) → IsTrue (is_some self.new.fault) }
        ensures same { self.new ≡ self.old }
    {
        if self.fault.is_some() {
            ControlFlow::Break(())
        } else {
            ControlFlow::Continue(())
        }
    }

    fn end(&mut self, _report: Report)
        ensures { self.new ≡ self.old }
    {}
}
