//! A proof as bytes: `a` before a clause to add, `d` before one to delete, and codes of literals with a 0 at their end.
//!
//! The code of a literal is twice the number of its variable, and one more if it is negative.
ghost use Rattle.std.specs.Prelude.{IfOk};
ghost use Rattle.gipsat_drat.specs.Held.{IsRightOf, Keeps};

use crate::checker::Checker;
use crate::codes::Codes;
use crate::error::{Failure, Flaw, Notes, Outcome, Place, Stop};
use crate::step::{GREATEST_NUMBER, Step};
use std::alloc::Global;

// The greatest code.
const GREATEST_CODE: u64 = 2 * GREATEST_NUMBER + 1;

// What has been read of a binary proof.
#[derive(Drop)]
pub(crate) struct BinaryParser {
    codes: Codes,
    step: Step,
    in_step: bool,
}

impl BinaryParser {
    // Before a proof.
    pub(crate) fn new(alloc: Global) -> Self {
        BinaryParser {
            codes: Codes::new(GREATEST_CODE),
            step: Step::new(alloc),
            in_step: false,
        }
    }

    // The byte that was read last.
    pub(crate) fn place(&self) -> Place {
        self.codes.place()
    }

    // What was passed over.
    pub(crate) fn notes(&self) -> Notes {
        self.step.notes()
    }

    // Reads some bytes more, as far as the empty clause.
    pub(crate) fn feed(&mut self, checker: &mut Checker, bytes: &[u8]) -> Result<(), Stop>
        ensures { Keeps checker.old checker.new }
    {
        for byte in bytes {
            self.byte(checker, *byte)?;
            if checker.is_refuted() {
                return Ok(());
            }
        }
        Ok(())
    }

    // Reads a byte more.
    fn byte(&mut self, checker: &mut Checker, byte: u8) -> Result<(), Stop>
        ensures { Keeps checker.old checker.new }
    {
        if !self.in_step {
            return self.begin_step(byte);
        }
        let Some(code) = self.codes.byte(byte)? else {
            return Ok(());
        };
        if code == 0 {
            self.in_step = false;
            return self.step.end(checker, self.codes.place());
        }
        self.step.push(code / 2, code % 2 == 0)
    }

    // Reads the first byte of a step.
    fn begin_step(&mut self, byte: u8) -> Result<(), Stop> {
        self.codes.count();
        match byte {
            b'a' => {}
            b'd' => self.step.begin_deletion()?,
            _ => return Err(Stop::Refused(Flaw::Step)),
        }
        self.in_step = true;
        Ok(())
    }

    // Ends the proof.
    pub(crate) fn finish(&self, checker: &Checker) -> Result<Outcome, Failure>
        ensures { IfOk result (IsRightOf checker.now) }
    {
        if checker.is_refuted() {
            return Ok(Outcome::Verified);
        }
        if self.in_step {
            return Stop::Refused(Flaw::OpenClause).at(self.place());
        }
        Stop::Refused(Flaw::Unfinished).at(self.place())
    }
}
