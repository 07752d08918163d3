//! A proof as text: numbers between blanks, and `d` before a clause to delete.
ghost use Rattle.std.specs.Prelude.{IfOk};
ghost use Rattle.gipsat_drat.specs.Held.{IsRightOf, Keeps};

use crate::checker::Checker;
use crate::error::{Failure, Flaw, Notes, Outcome, Place, Stop};
use crate::step::{GREATEST_NUMBER, Step};
use crate::words::{Word, Words};
use std::alloc::Global;

// What has been read of a text.
#[derive(Drop)]
pub(crate) struct TextParser {
    words: Words,
    step: Step,
}

impl TextParser {
    // Before a proof.
    pub(crate) fn new(alloc: Global) -> Self {
        TextParser {
            words: Words::new(GREATEST_NUMBER),
            step: Step::new(alloc),
        }
    }

    // The line that is read.
    pub(crate) fn place(&self) -> Place {
        self.words.place()
    }

    // What was passed over.
    pub(crate) fn notes(&self) -> Notes {
        self.step.notes()
    }

    // Reads some bytes more, as far as the empty clause.
    pub(crate) fn feed(&mut self, checker: &mut Checker, bytes: &[u8]) -> Result<(), Stop>
        ensures { Keeps checker.old checker.new }
    {
        for byte in bytes {
            let word = self.words.byte(*byte)?;
            self.word(checker, word)?;
            if checker.is_refuted() {
                return Ok(());
            }
        }
        Ok(())
    }

    // Takes a word.
    fn word(&mut self, checker: &mut Checker, word: Word) -> Result<(), Stop>
        ensures { Keeps checker.old checker.new }
    {
        match word {
            Word::None => Ok(()),
            Word::Delete => Ok(self.step.begin_deletion()?),
            Word::Minus => Err(Stop::Refused(Flaw::Word)),
            Word::Number {
                positive: true,
                value: 0,
            } => self.step.end(checker, self.words.place()),
            Word::Number { positive, value } => self.step.push(value, positive),
        }
    }

    // Ends the proof.
    pub(crate) fn finish(&mut self, checker: &mut Checker) -> Result<Outcome, Failure>
        ensures { IfOk result (IsRightOf checker.old) }
    {
        let word = self.words.finish();
        if let Err(stop) = self.word(checker, word) {
            return stop.at(self.place());
        }
        if checker.is_refuted() {
            return Ok(Outcome::Verified);
        }
        if self.step.is_begun() {
            return Stop::Refused(Flaw::OpenClause).at(self.place());
        }
        Stop::Refused(Flaw::Unfinished).at(self.place())
    }
}
