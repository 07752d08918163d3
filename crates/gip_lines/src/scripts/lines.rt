//! The lines of a script, and what each says.
ghost use Rattle.std.specs.Prelude.{◌≡◌, ◌<◌, ◌≤◌, ◌∷◌, [], List, ℕ, length, IfSome, MatchOption};
ghost use Rattle.std.specs.Option.{option_map_or};
ghost use Rattle.gip_lines.specs.Scripts.Lines.{greatest_key, without_words, only_key, with_pair, pairs_of, rank_line, ranks_line, line_of};
ghost use Rattle.giputils_text.specs.Lines.{space, pieces};
ghost use Rattle.giputils_text.specs.Numbers.{number_up_to};

use crate::texts::Said;
use giputils_text::{number, split_once};
use std::alloc::{AllocError, Allocator};

/// How many keys a line can name.
pub const KEYS: usize = Line::GREATEST_KEY as usize + 1;

/// One line of a script.
#[derive(Clone, Copy)]
pub enum Line {
    /// `push K`: holds the key K.
    Push(u8),
    /// `pop`: takes out the greatest held key.
    Pop,
    /// `len`: counts the held keys.
    Len,
    /// `clear`: lets all held keys go.
    Clear,
    /// `rank K R`: gives the key K the rank R.
    Rank(u8, u32),
    /// `ranks K R ..`: gives each key K of some pairs its rank R. At the place of each key stands the rank that it is
    /// given, if any.
    Ranks([Option<u32>; KEYS]),
    /// `up K`: the key K may have risen.
    Up(u8),
    /// `down K`: the key K may have fallen.
    Down(u8),
}

impl Line {
    /// The greatest key.
    pub const GREATEST_KEY: u8 = 15;

    /// The most pairs of a key and its rank in one line.
    pub const MOST_PAIRS: usize = 16;

    /// What a line says, without its line feed. There is none where it has another form.
    pub fn parse(line: &[u8]) -> Option<Line>
        ensures { result ≡ line_of line.now }
    {
        let (name, words) = split_once(line, b' ');
        if name == b"push".as_slice() {
            Some(Line::Push(sole_key(words)?))
        } else if name == b"pop".as_slice() {
            without_words(Line::Pop, words)
        } else if name == b"len".as_slice() {
            without_words(Line::Len, words)
        } else if name == b"clear".as_slice() {
            without_words(Line::Clear, words)
        } else if name == b"rank".as_slice() {
            rank(words?)
        } else if name == b"ranks".as_slice() {
            ranks(words?)
        } else if name == b"up".as_slice() {
            Some(Line::Up(sole_key(words)?))
        } else if name == b"down".as_slice() {
            Some(Line::Down(sole_key(words)?))
        } else {
            None
        }
    }
}

impl<A: Allocator> Said<A> for Line {
    ghost form = { line_of };

    fn read(_alloc: A, line: &[u8]) -> Result<Option<Line>, AllocError> {
        Ok(Line::parse(line))
    }
}

// The line, where no words follow its name.
fn without_words(line: Line, words: Option<&[u8]>) -> Option<Line>
    ensures { result ≡ without_words line (option_map_or (λ words. pieces space words.now) words.entry []) }
{
    match words {
        None => Some(line),
        Some(_) => None,
    }
}

// The key that the words are, where they are one word.
fn sole_key(words: Option<&[u8]>) -> Option<u8>
    ensures { result ≡ only_key (option_map_or (λ words. pieces space words.now) words.entry []) }
{
    let (key, more) = split_once(words?, b' ');
    match more {
        None => key_number(key),
        Some(_) => None,
    }
}

// The line `rank` with these words.
fn rank(words: &[u8]) -> Option<Line>
    ensures { result ≡ rank_line (pairs_of (pieces space words.now)) }
{
    let ((key, rank), more) = split_pair(words)?;
    match more {
        None => Some(Line::Rank(key, rank)),
        Some(_) => None,
    }
}

// The line `ranks` with these words.
fn ranks(words: &[u8]) -> Option<Line>
    ensures { result ≡ ranks_line (pairs_of (pieces space words.now)) }
{
    let mut given = [None; KEYS];
    let mut pairs = 0;
    let mut rest = Some(words);
    while let Some(words) = rest {
        let ((key, rank), more) = split_pair(words)?;
        if pairs == Line::MOST_PAIRS {
            return None;
        }
        given[key as usize] = Some(rank);
        pairs += 1;
        rest = more;
    }
    Some(Line::Ranks(given))
}

// The first two of some words as a key and its rank, and the words after them.
fn split_pair(words: &[u8]) -> Option<((u8, u32), Option<&[u8]>)>
    ensures parts { MatchOption result (pairs_of (pieces space words.now) ≡ None) (λ split.
        pairs_of (pieces space words.now)
        ≡ with_pair (Some split.0.0) (Some split.0.1)
        (pairs_of (option_map_or (λ more. pieces space more.now) split.1 []))) }
    ensures key { IfSome result (λ split. split.0.0 ≤ greatest_key) }
    ensures shorter { IfSome result (λ split. IfSome split.1 (λ more. length more.now < length words.now)) }
{
    let (key, more) = split_once(words, b' ');
    let (rank, more) = split_once(more?, b' ');
    Some(((key_number(key)?, number(rank, u32::MAX)?), more))
}

// The key that a word writes, where a line can name it.
fn key_number(word: &[u8]) -> Option<u8>
    ensures { result ≡ number_up_to greatest_key word.now }
{
    match number(word, u32::from(Line::GREATEST_KEY)) {
        Some(key) => Some(key as u8),
        None => None,
    }
}
