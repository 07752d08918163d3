//! Which form a proof has, by its first bytes.

use crate::codes::Codes;
use crate::error::OtherForm;
use crate::lrat_step::GREATEST_NAME;
use crate::words::{Word, Words};
use gipsat_dimacs::Compression;

// How many of its first bytes tell binary proofs from texts. The bytes of a text's clauses are fewer, so that a binary
// step without a repeated literal has another byte among these: its 0, if no other.
const SIGNATURE_SIZE: usize = 32;

// A first step that is so long is no deletion of one clause.
const LONG_STEP: usize = 65_536;

// A form that is read.
#[derive(Clone, Copy)]
pub(crate) enum Form {
    Text,
    Binary,
    // With hints.
    LratText,
    // With hints.
    LratBinary,
}

// The form of a proof that begins with these bytes, about so many clauses.
pub(crate) fn form_of(start: &[u8], clauses: usize) -> Result<Form, OtherForm> {
    if let Some(compression) = Compression::of(start) {
        return Err(compressed(compression));
    }
    if start.starts_with(b"%") {
        return Err(OtherForm::Rup);
    }
    if is_text(start) {
        return if start.starts_with(b"o ") || start.starts_with(b"a ") {
            Err(OtherForm::Frat)
        } else {
            Ok(text_form(start, clauses))
        };
    }
    match start.first() {
        Some(b'o') => Err(OtherForm::Frat),
        Some(b'a' | b'd') => Ok(binary_form(start, clauses)),
        _ => Ok(text_form(start, clauses)),
    }
}

// The form of data that is compressed so.
fn compressed(compression: Compression) -> OtherForm {
    match compression {
        Compression::Gzip => OtherForm::Gzip,
        Compression::Xz => OtherForm::Xz,
        Compression::Bzip2 => OtherForm::Bzip2,
        Compression::Zstd => OtherForm::Zstd,
    }
}

// The form of a binary proof. With hints, a step that adds a clause begins with a name that no clause of the formula
// has, and somewhere a byte behind a 0 is none that a step begins with. A first deletion that is longer than these bytes
// is taken for one of names, since clauses are shorter.
fn binary_form(start: &[u8], clauses: usize) -> Form {
    let mut codes = Codes::new(GREATEST_NAME);
    let mut in_step = false;
    let mut kind = 0;
    let mut named = false;
    let mut is_first = true;
    for byte in start {
        if !in_step {
            if !matches!(*byte, b'a' | b'd') {
                return if named {
                    Form::LratBinary
                } else {
                    Form::Binary
                };
            }
            in_step = true;
            kind = *byte;
            continue;
        }
        let Ok(code) = codes.byte(*byte) else {
            return Form::Binary;
        };
        let Some(code) = code else {
            continue;
        };
        if kind == b'a' && !named && code <= clauses as u64 {
            return Form::Binary;
        }
        named = named || kind == b'a';
        in_step = code != 0;
        is_first = is_first && in_step;
    }
    if is_first && kind == b'd' && start.len() >= LONG_STEP {
        Form::LratBinary
    } else {
        Form::Binary
    }
}

// The form of a text. With hints, the first line of a step has `d` as its second word, or a name that no clause of the
// formula has and a number behind a 0.
fn text_form(start: &[u8], clauses: usize) -> Form {
    let mut words = Words::new(GREATEST_NAME);
    let mut is_named = false;
    let mut count: usize = 0;
    let mut has_zero = false;
    for byte in start {
        let Ok(word) = words.byte(*byte) else {
            return Form::Text;
        };
        match word {
            Word::None => {}
            Word::Delete if count == 1 => return Form::LratText,
            Word::Delete | Word::Minus => return Form::Text,
            Word::Number { positive, value } => {
                if has_zero {
                    return if is_named { Form::LratText } else { Form::Text };
                }
                is_named = is_named || count == 0 && positive && value > clauses as u64;
                has_zero = value == 0;
                count = count.saturating_add(1);
            }
        }
        if *byte == b'\n' && count > 0 {
            return Form::Text;
        }
    }
    Form::Text
}

// Whether the first step of a proof begins with a number that a step of one with hints may have as its name, since no
// clause of the formula has it.
pub(crate) fn begins_with_name(start: &[u8], clauses: usize) -> bool {
    match start {
        [b'a', codes @ ..] if !is_text(start) => first_code(codes) > clauses as u64,
        _ => first_number(start) > clauses as u64,
    }
}

// The first number of some bytes. 0 if there is none.
fn first_code(bytes: &[u8]) -> u64 {
    let mut codes = Codes::new(GREATEST_NAME);
    for byte in bytes {
        match codes.byte(*byte) {
            Ok(None) => {}
            Ok(Some(code)) => return code,
            Err(_) => return 0,
        }
    }
    0
}

// The first word of a text, if it is a number without a sign. 0 if it is not.
fn first_number(text: &[u8]) -> u64 {
    let mut words = Words::new(GREATEST_NAME);
    for byte in text {
        match words.byte(*byte) {
            Ok(Word::None) => {}
            Ok(Word::Number { positive, value }) if positive => return value,
            _ => return 0,
        }
    }
    0
}

// Whether the first bytes may be a text's, as far as a line that begins with `c`.
fn is_text(start: &[u8]) -> bool {
    let mut begins_line = false;
    for byte in start.iter().take(SIGNATURE_SIZE) {
        if *byte == b'c' && begins_line {
            return true;
        }
        if !is_of_text(*byte) {
            return false;
        }
        begins_line = *byte == b'\n';
    }
    true
}

// Whether a byte stands in the clauses of a text, also of one in the FRAT form.
fn is_of_text(byte: u8) -> bool {
    matches!(
        byte,
        b'0'..=b'9' | b'-' | b' ' | b'\t' | b'\r' | b'\n' | b'a' | b'd' | b'f' | b'l' | b'o' | b'r'
    )
}
