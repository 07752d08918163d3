//! The words of a proof as text: numbers and `d` between blanks, and comments.

use crate::error::{Flaw, Place};

// A small number and the byte behind it take so many bytes at most, so that each text may have it.
const LONGEST: usize = 17;

// A word, or what there is of one.
#[derive(Clone, Copy)]
pub(crate) enum Word {
    // There is none.
    None,
    // `d`.
    Delete,
    // A minus, and no digit yet.
    Minus,
    // A number that is so great, with a sign.
    Number { positive: bool, value: u64 },
}

// A small number that was read in one go, with the blank or the end of the line behind it.
#[derive(Clone, Copy)]
pub(crate) struct Numeral {
    pub positive: bool,
    pub value: u64,
    // The place behind both.
    pub next: usize,
    pub ends_line: bool,
}

// What has been read of a text.
#[derive(Clone, Copy)]
pub(crate) struct Words {
    // The word that has not ended.
    word: Word,
    // The greatest number that there may be, at most 2^56.
    greatest: u64,
    // Whether this line has no word.
    begins_line: bool,
    in_comment: bool,
    // Whether the byte that was read last ends its line.
    ends_line: bool,
    // The number of the line.
    line: usize,
}

impl Words {
    // Before a text with numbers up to one.
    pub(crate) fn new(greatest: u64) -> Self {
        Words {
            word: Word::None,
            greatest,
            begins_line: true,
            in_comment: false,
            ends_line: false,
            line: 1,
        }
    }

    // The line of the byte that was read last.
    pub(crate) fn place(&self) -> Place {
        Place::Line(self.line)
    }

    // Whether a word may begin here, and it is not the first one of its line.
    #[inline]
    pub(crate) fn is_between(&self) -> bool {
        let is_inside = self.begins_line || self.ends_line || self.in_comment;
        !is_inside && matches!(self.word, Word::None)
    }

    // Reads a small number that stands at a place, if no word has begun before it.
    #[inline]
    pub(crate) fn numeral(&mut self, bytes: &[u8], place: usize) -> Option<Numeral> {
        if self.in_comment && !self.ends_line || !matches!(self.word, Word::None) {
            return None;
        }
        let numeral = numeral_at(bytes, place)?;
        self.begin_line();
        self.begins_line = false;
        self.ends_line = numeral.ends_line;
        Some(numeral)
    }

    // Reads a byte more: the word that ends before it.
    #[inline]
    pub(crate) fn byte(&mut self, byte: u8) -> Result<Word, Flaw> {
        if byte.is_ascii_digit() && !self.in_comment && !self.ends_line {
            self.begins_line = false;
            self.word = word_with(self.word, byte, self.greatest)?;
            return Ok(Word::None);
        }
        self.other_byte(byte)
    }

    // Reads a byte more, which may begin a line or end a word: the word that ends before it.
    fn other_byte(&mut self, byte: u8) -> Result<Word, Flaw> {
        self.begin_line();
        if byte == b'\n' {
            self.ends_line = true;
            return Ok(self.end_word());
        }
        if self.in_comment {
            return Ok(Word::None);
        }
        if matches!(byte, b' ' | b'\t' | b'\r') {
            return Ok(self.end_word());
        }
        if byte == b'c' && self.begins_line {
            self.in_comment = true;
            return Ok(Word::None);
        }
        self.begins_line = false;
        self.word = word_with(self.word, byte, self.greatest)?;
        Ok(Word::None)
    }

    // Begins a line if the last one has ended.
    fn begin_line(&mut self) {
        if self.ends_line {
            self.ends_line = false;
            self.in_comment = false;
            self.begins_line = true;
            self.line = self.line.saturating_add(1);
        }
    }

    // Ends the word, if there is one.
    fn end_word(&mut self) -> Word {
        let word = self.word;
        self.word = Word::None;
        word
    }

    // Ends the text: its last word.
    pub(crate) fn finish(&mut self) -> Word {
        self.begin_line();
        self.end_word()
    }
}

// The small number at a place of a text, if a blank or the end of the line is behind it.
#[inline]
pub(crate) fn numeral_at(bytes: &[u8], start: usize) -> Option<Numeral> {
    let positive = *bytes.get(start)? != b'-';
    let first = if positive { start } else { start + 1 };
    let end = bytes.len().min(first.saturating_add(LONGEST));
    let mut value: u64 = 0;
    for place in first..end {
        let byte = bytes[place];
        let digit = byte.wrapping_sub(b'0');
        if digit > 9 {
            if place == first || byte != b' ' && byte != b'\n' {
                return None;
            }
            return Some(Numeral {
                positive,
                value,
                next: place + 1,
                ends_line: byte == b'\n',
            });
        }
        value = value.wrapping_mul(10).wrapping_add(u64::from(digit));
    }
    None
}

// The word with a byte more.
#[inline]
fn word_with(word: Word, byte: u8, greatest: u64) -> Result<Word, Flaw> {
    match word {
        Word::None if byte == b'd' => Ok(Word::Delete),
        Word::None if byte == b'-' => Ok(Word::Minus),
        Word::None => number_with(true, 0, byte, greatest),
        Word::Minus => number_with(false, 0, byte, greatest),
        Word::Number { positive, value } => number_with(positive, value, byte, greatest),
        Word::Delete => Err(Flaw::Word),
    }
}

// The greatest number that a text may have.
const GREATEST: u64 = 1 << 56;

// The number with a digit more.
#[inline]
fn number_with(positive: bool, value: u64, digit: u8, greatest: u64) -> Result<Word, Flaw> {
    if !digit.is_ascii_digit() {
        return Err(Flaw::Word);
    }
    if value > GREATEST {
        return Err(Flaw::Number);
    }
    let value = value * 10 + u64::from(digit - b'0');
    if value > greatest {
        return Err(Flaw::Number);
    }
    Ok(Word::Number { positive, value })
}
