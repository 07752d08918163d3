//! What the words of a command line say, one after another.
ghost use Rattle.std.specs.Prelude.{◌≡◌, ◌∷◌, true, false, map, string_bytes};
ghost use Rattle.giputils_text.specs.Numbers.{number_of};
ghost use Rattle.std.specs.Option.{option_map};
ghost use Rattle.gip_cli.specs.Asked.{number_in, word_in};
ghost use Rattle.gip_cli.specs.Items.{Any, assigned_said, before, behind, counted_said, first_said, first_word, given_said};
ghost use Rattle.gip_cli.specs.Items.{info_of, is_option, items_said, joined_said, left_behind, left_said, long_said, option_said, said_of};
ghost use Rattle.gip_cli.specs.Items.{told_said, value_said, word_said};
ghost use Rattle.gip_cli.specs.Options.{entry_of, is_among};

use crate::files::NO_NAME;
use crate::options::{Kind, OneOf, Opt, Wanted, named};
use std::fmt::{self, Display};

/// What some words of a command line say.
#[derive(Clone, Copy)]
pub enum Item<'a> {
    /// An option.
    Given(Given<'a>),
    /// A file.
    File(&'a str),
    /// What is to be told in place of an answer. It is the last item.
    Info(Info),
    /// That words have no meaning. It is the last item.
    Fault(Fault<'a>),
}

/// An option that is given.
#[derive(Clone, Copy)]
pub struct Given<'a> {
    /// Its line of the table.
    pub option: &'static Opt,
    /// What stands behind it.
    pub value: Value<'a>,
    /// The word that names it.
    pub word: &'a str,
}

/// What stands behind an option.
#[derive(Clone, Copy)]
pub enum Value<'a> {
    /// Nothing.
    Bare,
    /// This number.
    Number(usize),
    /// This word.
    Word(&'a str),
}

impl<'a> Given<'a> {
    /// The number that stands behind it, if one does.
    pub fn number(self) -> Option<usize>
        ensures { result ≡ number_in (given_said self.entry) }
    {
        match self.value {
            Value::Number(number) => Some(number),
            Value::Bare | Value::Word(_) => None,
        }
    }

    /// The word that stands behind it, if one does.
    pub fn text(self) -> Option<&'a str>
        ensures { option_map (λ word. word.now) result ≡ word_in (given_said self.entry) }
    {
        match self.value {
            Value::Word(word) => Some(word),
            Value::Bare | Value::Number(_) => None,
        }
    }
}

/// What is told in place of an answer.
#[derive(Clone, Copy)]
pub enum Info {
    /// What each option does.
    Help,
    /// The program's name and version.
    Version,
}

/// Why words have no meaning.
#[derive(Clone, Copy)]
pub enum Fault<'a> {
    /// No option has this name.
    UnknownOption(&'a str),
    /// No word stands behind the option of this long name, which wants this.
    NoValue(&'static str, Kind),
    /// This word behind the option of this long name is no number, or one of 2^64 or more.
    NoNumber(&'static str, &'a str),
    /// This word behind the option of this long name is none of these.
    NoChoice(&'static str, &'static [&'static str], &'a str),
    /// A file is to be written, and standard output is named.
    NoOutput,
}

impl Display for Fault<'_> {
    fn fmt<W: fmt::Write>(&self, f: &mut fmt::Formatter<W>) -> fmt::Result {
        match *self {
            Fault::UnknownOption(word) => write!(f, "unknown option '{word}'"),
            Fault::NoValue(long, kind) => write!(f, "'{long}' needs {} behind it", Wanted(kind)),
            Fault::NoNumber(long, word) => {
                write!(f, "'{long}' takes a number below 2^64, not '{word}'")
            }
            Fault::NoChoice(long, words, word) => {
                write!(f, "'{long}' takes {}, not '{word}'", OneOf(words))
            }
            Fault::NoOutput => f.write_str(NO_NAME),
        }
    }
}

/// The items of a command line.
///
/// A word that begins with a minus is an option, but for the minus alone, and other words are files; behind `--` all are.
/// The value of an option is the next word, or stands behind its long name and `=`, or at once behind its short name.
#[derive(Clone, Copy)]
pub struct Items<'a> {
    table: &'static [Opt],
    words: &'a [String],
    // Whether all words are files.
    files: bool,
}

impl<'a> Items<'a> {
    /// What these words say by a table of options. The options `--help`, `-h`, `--version` and `--` are in none.
    pub fn new(table: &'static [Opt], words: &'a [String]) -> Self
        ensures { left_said result ≡ items_said (map entry_of table.now) Any (map string_bytes words.now) }
    {
        Items {
            table,
            words,
            files: false,
        }
    }

    /// Takes the next item. `None` where no word is left.
    pub fn next(&mut self) -> Option<Item<'a>>
        ensures { left_said self.old ≡ first_said result (left_said self.new) }
    {
        if self.files {
            return self.file();
        }
        match self.take() {
            Some(word) => self.word(word),
            None => None,
        }
    }

    // Takes the next word.
    fn take(&mut self) -> Option<&'a str>
        ensures words { map string_bytes self.old.words.now ≡
            first_word (option_map (λ word. word.now) result) (map string_bytes self.new.words.now) }
        ensures table { self.new.table ≡ self.old.table }
        ensures files { self.new.files ≡ self.old.files }
    {
        let [word, rest @ ..] = self.words else {
            return None;
        };
        self.words = rest;
        Some(word.as_str())
    }

    // What this word says. `None` where it says nothing, and no word is left behind it.
    fn word(&mut self, word: &'a str) -> Option<Item<'a>>
        requires any { self.old.files ≡ false }
        ensures { first_said result (left_said self.new) ≡
            word_said (map entry_of self.old.table.now) word.now (left_behind self.old) }
    {
        if !is_option(word) {
            return Some(Item::File(word));
        }
        if word == "--" {
            self.files = true;
            return self.file();
        }
        Some(self.option(word))
    }

    // The next word, which is a file.
    fn file(&mut self) -> Option<Item<'a>>
        requires files { self.old.files ≡ true }
        ensures { left_said self.old ≡ first_said result (left_said self.new) }
    {
        let [name, rest @ ..] = self.words else {
            return None;
        };
        self.words = rest;
        Some(Item::File(name.as_str()))
    }

    // What this word says, which begins with a minus.
    fn option(&mut self, word: &'a str) -> Item<'a>
        requires any { self.old.files ≡ false }
        ensures { said_of result ∷ left_said self.new ≡
            told_said (info_of word.now) (map entry_of self.old.table.now) word.now (left_behind self.old) }
    {
        if let Some(info) = info_of(word) {
            return self.ended(Item::Info(info));
        }
        match named(self.table, word) {
            Some(option) => self.value(option, word),
            None => {
                let item = joined(self.table, word);
                self.ended(item)
            }
        }
    }

    // What an option says that this word names, with its value, which is the next word.
    fn value(&mut self, option: &'static Opt, word: &'a str) -> Item<'a>
        requires any { self.old.files ≡ false }
        ensures { said_of result ∷ left_said self.new ≡
            option_said (entry_of option.now) word.now (left_behind self.old) }
    {
        if let Kind::Switch = option.kind {
            return Item::Given(Given {
                option,
                value: Value::Bare,
                word,
            });
        }
        match self.words {
            [value, rest @ ..] => {
                self.words = rest;
                self.ended(value_of(option, value.as_str(), word))
            }
            [] => Item::Fault(Fault::NoValue(option.long, option.kind)),
        }
    }

    // This item. No word is left behind the last one.
    fn ended(&mut self, item: Item<'a>) -> Item<'a>
        requires any { self.old.files ≡ false }
        ensures { said_of result ∷ left_said self.new ≡ before (said_of item.entry) (left_said self.old) }
    {
        if let Item::Info(_) | Item::Fault(_) = item {
            self.words = &[];
        }
        item
    }
}

// Whether a word is no file: it begins with a minus, and is not the minus alone.
fn is_option(word: &str) -> bool
    ensures { result ≡ is_option word.now }
{
    word.starts_with('-') && word != "-"
}

// What is told in place of an answer.
fn info_of(word: &str) -> Option<Info>
    ensures { result ≡ info_of word.now }
{
    match word {
        "--help" | "-h" => Some(Info::Help),
        "--version" => Some(Info::Version),
        _ => None,
    }
}

// An option with its value, in this word.
fn value_of<'a>(option: &'static Opt, value: &'a str, word: &'a str) -> Item<'a>
    ensures { said_of result ≡ value_said (entry_of option.now) value.now word.now }
{
    match option.kind {
        Kind::Switch => return Item::Fault(Fault::UnknownOption(word)),
        Kind::Number(_) => return counted(option, value, word),
        Kind::Choice(_, words) if !is_among(words, value) => {
            return Item::Fault(Fault::NoChoice(option.long, words, value));
        }
        Kind::Output(_) if value == "-" => return Item::Fault(Fault::NoOutput),
        _ => {}
    }
    Item::Given(Given {
        option,
        value: Value::Word(value),
        word,
    })
}

// An option whose value is a number.
fn counted<'a>(option: &'static Opt, value: &'a str, word: &'a str) -> Item<'a>
    ensures { said_of result ≡ counted_said (entry_of option.now) value.now word.now }
{
    match number_of(value) {
        Some(number) => Item::Given(Given {
            option,
            value: Value::Number(number),
            word,
        }),
        None => Item::Fault(Fault::NoNumber(option.long, value)),
    }
}

// Whether a word is one of these.
fn is_among(mut words: &'static [&'static str], word: &str) -> bool
    ensures { result ≡ is_among (map (λ w. w.now) words.now) word.now }
{
    while let [first, rest @ ..] = words {
        if word == *first {
            return true;
        }
        words = rest;
    }
    false
}

// The number that a word writes.
fn number_of(word: &str) -> Option<usize>
    ensures { result ≡ number_of word.now }
{
    match word.parse() {
        Ok(number) => Some(number),
        Err(_) => None,
    }
}

// An option with its value in one word.
fn joined<'a>(table: &'static [Opt], word: &'a str) -> Item<'a>
    ensures { said_of result ≡ joined_said (map entry_of table.now) word.now }
{
    let mut left = table;
    while let [option, rest @ ..] = left {
        if let Some(value) = behind(option.short, word) {
            return value_of(option, value, word);
        }
        left = rest;
    }
    long(table, word)
}

// What stands behind a short name, in a word that begins with it.
fn behind<'a>(short: &str, word: &'a str) -> Option<&'a str>
    ensures { option_map (λ value. value.now) result ≡ behind short.now word.now }
{
    if short.is_empty() {
        return None;
    }
    word.strip_prefix(short)
}

// A long name, an equals sign and a value.
fn long<'a>(table: &'static [Opt], word: &'a str) -> Item<'a>
    ensures { said_of result ≡ long_said (map entry_of table.now) word.now }
{
    let Some((name, value)) = word.split_once('=') else {
        return Item::Fault(Fault::UnknownOption(word));
    };
    assigned(named(table, name), name, value, word)
}

// The option of this long name with its value, in this word.
fn assigned<'a>(option: Option<&'static Opt>, name: &str, value: &'a str, word: &'a str) -> Item<'a>
    ensures { said_of result ≡
        assigned_said (option_map (λ option. entry_of option.now) option.entry) name.now value.now word.now }
{
    match option {
        Some(option) if name == option.long => value_of(option, value, word),
        _ => Item::Fault(Fault::UnknownOption(word)),
    }
}
