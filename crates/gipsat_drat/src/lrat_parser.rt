//! A proof with hints, as text or binary.
ghost use Rattle.std.specs.Prelude.{IfOk};
ghost use Rattle.gipsat_drat.specs.Held.{IsRightOf, Keeps};

use crate::codes::Codes;
use crate::error::{Failure, Flaw, Outcome, Place, Stop};
use crate::joined::JoinedSteps;
use crate::lrat::LratChecker;
use crate::lrat_step::{GREATEST_NAME, LratStep};
use crate::words::{Word, Words};
use std::alloc::Global;

// Where the numbers come from.
#[derive(Clone, Copy)]
enum Input {
    Text(Words),
    Binary(Codes),
}

// What has been read of a proof.
#[derive(Drop)]
pub(crate) struct LratParser {
    input: Input,
    step: LratStep,
}

impl LratParser {
    // Before a text.
    pub(crate) fn of_text(alloc: Global) -> Self {
        LratParser {
            input: Input::Text(Words::new(GREATEST_NAME)),
            step: LratStep::new(alloc),
        }
    }

    // Before a binary proof.
    pub(crate) fn of_bytes(alloc: Global) -> Self {
        LratParser {
            input: Input::Binary(Codes::new(2 * GREATEST_NAME + 1)),
            step: LratStep::new(alloc),
        }
    }

    // Where it reads.
    pub(crate) fn place(&self) -> Place {
        match self.input {
            Input::Text(words) => words.place(),
            Input::Binary(codes) => codes.place(),
        }
    }

    // Reads some bytes more, as far as the empty clause.
    pub(crate) fn feed(&mut self, checker: &mut LratChecker, bytes: &[u8]) -> Result<(), Stop>
        ensures { Keeps checker.old checker.new }
    {
        let mut start = 0;
        // Each round but the last ends a step.
        for _ in 0..bytes.len() {
            let Some(next) = self.read(bytes, start)? else {
                return Ok(());
            };
            start = next;
            self.step.end(checker)?;
            if checker.is_refuted() {
                return Ok(());
            }
        }
        Ok(())
    }

    // Whether it reads a text.
    pub(crate) fn is_text(&self) -> bool {
        matches!(self.input, Input::Text(_))
    }

    // Whether a step has begun that has not ended.
    pub(crate) fn is_begun(&self) -> bool {
        self.step.is_begun()
    }

    // Reads bytes as far as the end of a step, gives it its names in a joined proof, and writes it there: the place behind
    // it.
    pub(crate) fn read_joined(
        &mut self,
        joined: &mut JoinedSteps,
        bytes: &[u8],
        start: usize,
    ) -> Result<Option<usize>, Stop> {
        let next = self.read(bytes, start)?;
        if next.is_some() {
            self.step.join(joined)?;
        }
        Ok(next)
    }

    // Ends the step that was read.
    pub(crate) fn end_step(&mut self, checker: &mut LratChecker) -> Result<(), Stop>
        ensures { Keeps checker.old checker.new }
    {
        self.step.end(checker)
    }

    // Reads bytes from one place on, as far as the end of a step: the place behind it.
    fn read(&mut self, bytes: &[u8], start: usize) -> Result<Option<usize>, Stop> {
        match self.input {
            Input::Text(words) => {
                let mut words = words;
                let next = read_words(&mut words, &mut self.step, bytes, start);
                self.input = Input::Text(words);
                next
            }
            Input::Binary(codes) => {
                let mut codes = codes;
                let next = read_codes(&mut codes, &mut self.step, bytes, start);
                self.input = Input::Binary(codes);
                next
            }
        }
    }

    // Ends the proof.
    pub(crate) fn finish(&mut self, checker: &mut LratChecker) -> Result<Outcome, Failure>
        ensures { IfOk result (IsRightOf checker.old) }
    {
        if let Err(stop) = self.end_last(checker) {
            return stop.at(self.place());
        }
        if checker.is_refuted() {
            return Ok(Outcome::Verified);
        }
        if self.step.is_begun() {
            return Stop::Refused(Flaw::OpenClause).at(self.place());
        }
        Stop::Refused(Flaw::Unfinished).at(self.place())
    }

    // Ends the last step of a text, if no byte is behind its last number.
    fn end_last(&mut self, checker: &mut LratChecker) -> Result<(), Stop>
        ensures { Keeps checker.old checker.new }
    {
        let Input::Text(words) = self.input else {
            return Ok(());
        };
        let mut words = words;
        let word = words.finish();
        self.input = Input::Text(words);
        if take_word(&mut self.step, word)? {
            self.step.end(checker)?;
        }
        Ok(())
    }
}

// Reads a text from one place on, as far as the end of a step: the place behind it.
fn read_words(
    words: &mut Words,
    step: &mut LratStep,
    bytes: &[u8],
    start: usize,
) -> Result<Option<usize>, Stop> {
    let mut place = start;
    // Each round reads a byte at least.
    for _ in start..bytes.len() {
        if words.is_between() {
            place = step.read_hints(bytes, place)?;
        }
        if let Some(numeral) = words.numeral(bytes, place) {
            place = numeral.next;
            if step.push(numeral.value, numeral.positive)? {
                return Ok(Some(place));
            }
            continue;
        }
        let Some(byte) = bytes.get(place).copied() else {
            return Ok(None);
        };
        place = place.saturating_add(1);
        let word = words.byte(byte)?;
        if take_word(step, word)? {
            return Ok(Some(place));
        }
    }
    Ok(None)
}

// Adds a word to a step. Whether the step ends by it.
#[inline]
fn take_word(step: &mut LratStep, word: Word) -> Result<bool, Stop> {
    match word {
        Word::None => Ok(false),
        Word::Delete if step.is_begun() => {
            step.begin_deletion()?;
            Ok(false)
        }
        Word::Delete | Word::Minus => Err(Stop::Refused(Flaw::Word)),
        Word::Number { positive, value } => step.push(value, positive),
    }
}

// Reads a binary proof from one place on, as far as the end of a step: the place behind it.
fn read_codes(
    codes: &mut Codes,
    step: &mut LratStep,
    bytes: &[u8],
    start: usize,
) -> Result<Option<usize>, Stop> {
    let mut place = start;
    // Each round reads a byte at least.
    for _ in start..bytes.len() {
        if step.is_begun() {
            if let Some(code) = codes.small(bytes, place) {
                place = code.next;
                if push_code(step, code.value)? {
                    return Ok(Some(place));
                }
                continue;
            }
        }
        let Some(byte) = bytes.get(place).copied() else {
            return Ok(None);
        };
        place = place.saturating_add(1);
        if take_code(codes, step, byte)? {
            return Ok(Some(place));
        }
    }
    Ok(None)
}

// Adds a byte to a step. Whether the step ends by it.
#[inline]
fn take_code(codes: &mut Codes, step: &mut LratStep, byte: u8) -> Result<bool, Stop> {
    if !step.is_begun() {
        codes.count();
        match byte {
            b'a' => step.begin_addition(),
            b'd' => step.begin_deletion()?,
            _ => return Err(Stop::Refused(Flaw::Step)),
        }
        return Ok(false);
    }
    match codes.byte(byte)? {
        Some(code) => push_code(step, code),
        None => Ok(false),
    }
}

// Adds a number to a step. Whether the step ends by it.
#[inline]
fn push_code(step: &mut LratStep, code: u64) -> Result<bool, Stop> {
    if step.is_signed() {
        step.push(code / 2, code % 2 == 0)
    } else {
        step.push(code, true)
    }
}
