//! How far a text has been read.
ghost use Rattle.std.specs.Prelude.{◌≡◌, ◌<◌, ◌∷◌, [], length, true, false, IfOk, OnErr, codes};
ghost use Rattle.std.specs.Str.{bytes_eq};
ghost use Rattle.gipsat_dimacs.specs.Texts.{is_header};
ghost use Rattle.gipsat_dimacs.specs.Parsers.{begins_line, header_with_literal, is_full, is_short, takes_comment, is_ended, EndsLine, EndsNowhere};
ghost use Rattle.gipsat_dimacs.specs.declared.stage.Stage.TheVariants.{Problem};

use crate::error::{Compression, Reason};
use crate::rule::HeaderRule;
use gipsat_cnf::Literal;

// How many variables there are, and how many clauses are left to come.
#[derive(Clone, Copy)]
pub struct Header {
    pub variables: u32,
    pub left: u32,
}

impl Header {
    // That of a text that has none.
    pub const NONE: Header = Header {
        variables: 0,
        left: 0,
    };

    // The header after a literal: where its counts are hints, there are as many variables as were named.
    pub fn with_literal(self, rule: HeaderRule, l: Literal) -> Self
        ensures { result ≡ header_with_literal rule self l }
    {
        match rule {
            HeaderRule::Strict => self,
            HeaderRule::Relaxed => Header {
                variables: self.variables.max(l.variable() + 1),
                left: self.left,
            },
        }
    }

    // Whether no clause may follow any more.
    pub fn is_full(self, rule: HeaderRule) -> bool
        ensures { result ≡ is_full rule self }
    {
        match rule {
            HeaderRule::Strict => self.left == 0,
            HeaderRule::Relaxed => false,
        }
    }

    // Whether clauses are missing.
    pub fn is_short(self, rule: HeaderRule) -> bool
        ensures { result ≡ is_short rule self }
    {
        match rule {
            HeaderRule::Strict => self.left > 0,
            HeaderRule::Relaxed => false,
        }
    }
}

// What has been read.
#[derive(Clone, Copy)]
pub enum Stage {
    // No word that says something.
    Start,
    // The word `p` of the header, in this line.
    Problem,
    // The words `p cnf`, and none behind them, as far as lines were read.
    Format,
    // The header as far as its number of variables.
    Variables(u32),
    // The header, but not the end of its line.
    Clauses(Header),
    // The header, and no word of this line.
    Line(Header),
    // The header, and a word of this line.
    Words(Header),
    // All of the text, which a `%` has ended, and which has so many variables.
    Ended(u32),
}

impl Stage {
    // Whether no word of this line was read.
    pub fn begins_line(self) -> bool
        ensures { result ≡ begins_line self }
    {
        matches!(self, Stage::Start | Stage::Line(_))
    }

    // Whether the text has ended.
    pub fn is_ended(self) -> bool
        ensures { result ≡ is_ended self }
    {
        matches!(self, Stage::Ended(_))
    }
}

// The stage after the first word of a text.
pub fn first_word(word: &[u8]) -> Result<Stage, Reason>
    ensures ok { IfOk result (λ after. (bytes_eq word.now (codes "p") ≡ true) × (after ≡ Problem)) }
    ensures err { OnErr result (bytes_eq word.now (codes "p") ≡ false) }
{
    if word == b"p".as_slice() {
        return Ok(Stage::Problem);
    }
    match Compression::of(word) {
        Some(compression) => Err(Reason::Compressed(compression)),
        None => Err(Reason::Header),
    }
}

// Whether a text that begins with this word has a header.
pub fn is_header(rule: HeaderRule, word: &[u8]) -> bool
    requires some { 0 < length word.now }
    ensures { result ≡ is_header rule (word.now ∷ []) }
{
    match rule {
        HeaderRule::Strict => true,
        HeaderRule::Relaxed => word[0] == b'p',
    }
}

// Whether a comment may begin behind this word.
pub fn takes_comment(rule: HeaderRule, stage: Stage, word: &[u8]) -> bool
    ensures { result ≡ takes_comment rule stage word.now }
{
    match stage {
        Stage::Start => word.is_empty() || !is_header(rule, word),
        Stage::Line(_) | Stage::Words(_) => true,
        _ => false,
    }
}

// The stage, where the word is this one.
pub fn expect(word: &[u8], wanted: &[u8], stage: Stage) -> Result<Stage, Reason>
    ensures ok { IfOk result (λ after. (bytes_eq word.now wanted.now ≡ true) × (after ≡ stage)) }
    ensures err { OnErr result (bytes_eq word.now wanted.now ≡ false) }
{
    if word == wanted {
        Ok(stage)
    } else {
        Err(Reason::Header)
    }
}

// The stage after the end of a line.
pub fn next_line(stage: Stage) -> Result<Stage, Reason>
    ensures ok { IfOk result (λ after. EndsLine stage after) }
    ensures err { OnErr result (EndsNowhere stage) }
{
    match stage {
        Stage::Start | Stage::Format | Stage::Variables(_) => Ok(stage),
        Stage::Problem => Err(Reason::Header),
        Stage::Clauses(header) | Stage::Line(header) | Stage::Words(header) => {
            Ok(Stage::Line(header))
        }
        Stage::Ended(variables) => Ok(Stage::Ended(variables)),
    }
}
