//! Proofs of parts of a formula, joined to one. Each step is checked under the name that it is written with.
ghost use Rattle.std.specs.Prelude.{◌≡◌, IfOk};
ghost use Rattle.std.specs.Bool.{OnTrue};
ghost use Rattle.gipsat_drat.specs.Held.{IsConsistent, Keeps, held_of};

use crate::error::{Failure, Flaw, Notes, Refusal, Stop};
use crate::form::{Form, form_of};
use crate::joined::JoinedSteps;
use crate::lrat::LratChecker;
use crate::lrat_parser::LratParser;
use crate::lrat_writer::LratFormat;
use crate::task::{BUFFER_SIZE, convert, read_start, zeros};
use gipsat_cnf::Cnf;
use std::alloc::{AllocError, Global};
use std::io::{Read, Write};
use std::marker::Model;

/// Why a part of a proof is not joined.
#[derive(Clone, Copy)]
pub enum PartError {
    /// A step is refused.
    Refused(Refusal),
    /// It is not in the LRAT form.
    NotLrat,
    /// Its last clause is not the negation of a cube.
    OtherClause,
    /// Another part has the negation of the same cube, which has this number from 1 on.
    Twice(usize),
    /// It can't be read.
    Proof,
    /// Memory was refused.
    Memory,
    /// The joined proof can't be written.
    Output,
}

impl From<AllocError> for PartError {
    fn from(_refused: AllocError) -> PartError {
        PartError::Memory
    }
}

impl From<Failure> for PartError {
    fn from(failure: Failure) -> PartError {
        match failure {
            Failure::Proof => PartError::Proof,
            Failure::Form(_) => PartError::NotLrat,
            Failure::Memory => PartError::Memory,
            Failure::Output => PartError::Output,
        }
    }
}

/// A proof of a formula that is made of proofs of its parts. Contracts see the clauses that are held, and whether the
/// empty clause was shown.
///
/// A part is an LRAT proof whose last clause is the negation of a cube. Its steps go one by one to a checker that holds
/// the formula and the last clauses of the parts before, and into the joined proof, where they have new names.
pub struct Joiner {
    alloc: Global,
    checker: LratChecker,
    joined: JoinedSteps,
}

// One call in its owners' proofs, in place of one for each field.
impl Drop for Joiner {
    fn drop(self) {
        let Joiner {
            alloc: _,
            checker,
            joined,
        } = self;
    }
}

impl Model for Joiner {
    ghost use Rattle.gipsat_drat.specs.Held.{Held};

    ghost Value = { Held };

    ghost view = { λ joiner. joiner.checker };
}

impl Joiner {
    /// Before the first part of a proof of a formula that has these cubes.
    ///
    /// # Errors
    /// `AllocError` where memory is refused.
    pub fn over(
        alloc: Global,
        formula: Cnf,
        cubes: Cnf,
        format: LratFormat,
    ) -> Result<Self, AllocError>
        ensures { IfOk result (Keeps (held_of formula)) }
    {
        let given = formula.len() as u64;
        let joined = JoinedSteps::new(alloc, given, cubes, format)?;
        let checker = LratChecker::over(alloc, formula)?;
        Ok(Joiner {
            alloc,
            checker,
            joined,
        })
    }

    /// Whether the empty clause was shown.
    pub fn is_refuted(&self) -> bool
        ensures value { result ≡ self.now.refuted }
        ensures refutes { OnTrue result (¬ (IsConsistent self.now)) }
    {
        self.checker.is_refuted()
    }

    /// The number of the first cube whose negation no part has, from 1 on.
    pub fn missing(&self) -> Option<usize> {
        self.joined.missing()
    }

    /// Adds a part: the number of the first cube, from 1 on, that its last clause excludes. Its steps are written.
    ///
    /// # Errors
    /// A [`PartError`]. Some of its steps may have been written.
    pub fn add_part<P: Read, W: Write>(
        &mut self,
        proof: &mut P,
        writer: &mut W,
    ) -> Result<usize, PartError>
        ensures { Keeps self.old self.new }
    {
        let start = read_start(self.alloc, proof)?;
        let mut parser = match form_of(&start, self.joined.given()) {
            Ok(Form::LratText) => LratParser::of_text(self.alloc),
            Ok(Form::LratBinary) => LratParser::of_bytes(self.alloc),
            Ok(Form::Text | Form::Binary) | Err(_) => return Err(PartError::NotLrat),
        };
        self.joined.begin_part();
        self.feed(&mut parser, &start, writer)?;
        self.feed_rest(&mut parser, proof, writer)?;
        let number = self.joined.end_part()?;
        self.drop_rest(writer)?;
        Ok(number)
    }

    /// Adds a DRAT proof as text that nothing satisfies some clauses: those of the formula, and behind them the negations of
    /// the cubes in order. The steps that are needed are written.
    ///
    /// # Errors
    /// A [`PartError`]. Some of its steps may have been written.
    pub fn add_cover<W: Write>(
        &mut self,
        clauses: Cnf,
        mut steps: &[u8],
        writer: &mut W,
    ) -> Result<(), PartError>
        ensures { Keeps self.old self.new }
    {
        let mut hinted = Vec::new(self.alloc);
        let mut notes = Notes::new();
        convert(
            self.alloc,
            clauses,
            &mut steps,
            LratFormat::Text,
            &mut hinted,
            &mut notes,
        )?;
        let mut parser = LratParser::of_text(self.alloc);
        self.joined.begin_cover();
        self.feed(&mut parser, &hinted, writer)?;
        self.joined.flush(writer)?;
        Ok(())
    }

    // Adds the steps that end in some bytes.
    fn feed<W: Write>(
        &mut self,
        parser: &mut LratParser,
        bytes: &[u8],
        writer: &mut W,
    ) -> Result<(), PartError>
        ensures { Keeps self.old self.new }
    {
        match feed_steps(&mut self.checker, parser, &mut self.joined, bytes) {
            Ok(()) => {}
            Err(Stop::Memory) => return Err(PartError::Memory),
            Err(Stop::Refused(flaw)) => {
                let place = parser.place();
                return Err(PartError::Refused(Refusal { place, flaw }));
            }
        }
        self.joined.flush_much(writer)?;
        Ok(())
    }

    // Adds the steps of the rest of a part.
    fn feed_rest<P: Read, W: Write>(
        &mut self,
        parser: &mut LratParser,
        proof: &mut P,
        writer: &mut W,
    ) -> Result<(), PartError>
        ensures { Keeps self.old self.new }
    {
        let mut buf = zeros(self.alloc, BUFFER_SIZE)?;
        for _ in 0..u64::MAX {
            if self.checker.is_refuted() {
                return Ok(());
            }
            let Ok(n) = proof.read(&mut buf) else {
                return Err(PartError::Proof);
            };
            if n == 0 {
                return self.feed_end(parser, writer);
            }
            self.feed(parser, &buf[..n], writer)?;
        }
        Err(PartError::Proof)
    }

    // Adds the last step of a part, if no byte is behind its last number.
    fn feed_end<W: Write>(
        &mut self,
        parser: &mut LratParser,
        writer: &mut W,
    ) -> Result<(), PartError>
        ensures { Keeps self.old self.new }
    {
        if parser.is_text() {
            self.feed(parser, b"\n", writer)?;
        }
        if !parser.is_begun() || self.checker.is_refuted() {
            return Ok(());
        }
        Err(PartError::Refused(Refusal {
            place: parser.place(),
            flaw: Flaw::OpenClause,
        }))
    }

    // Deletes the clauses that a part leaves, but for its last one.
    fn drop_rest<W: Write>(&mut self, writer: &mut W) -> Result<(), PartError>
        ensures { Keeps self.old self.new }
    {
        let names = self.joined.left(self.alloc, &self.checker)?;
        if let Err(_) = self.checker.delete_all(&names) {
            return Err(PartError::Memory);
        }
        self.joined.write_deletion(&names)?;
        self.joined.flush_much(writer)?;
        Ok(())
    }
}

// Adds the steps that end in some bytes, each under its name in the joined proof, as far as the empty clause.
fn feed_steps(
    checker: &mut LratChecker,
    parser: &mut LratParser,
    joined: &mut JoinedSteps,
    bytes: &[u8],
) -> Result<(), Stop>
    ensures { Keeps checker.old checker.new }
{
    let mut start = 0;
    // Each round but the last ends a step.
    for _ in 0..bytes.len() {
        let Some(next) = parser.read_joined(joined, bytes, start)? else {
            return Ok(());
        };
        start = next;
        parser.end_step(checker)?;
        if checker.is_refuted() {
            return Ok(());
        }
    }
    Ok(())
}
