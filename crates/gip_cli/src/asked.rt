//! What the words of a command line ask for.
ghost use Rattle.std.specs.Prelude.{◌≡◌, map, string_bytes};
ghost use Rattle.std.specs.Option.{option_map};
ghost use Rattle.std.specs.Result.{result_map_both};
ghost use Rattle.gip_cli.specs.Asked.{asked_said, ended, file_at, has, input_at, input_of, is_wanted, last, last_in};
ghost use Rattle.gip_cli.specs.Asked.{number, said_by, word};
ghost use Rattle.gip_cli.specs.Items.{given_said, misuse_of};
ghost use Rattle.gip_cli.specs.Options.{entry_of};

use crate::items::{Fault, Given, Info, Item, Items, Value};
use crate::options::Opt;

/// The words of a command line, with the table of the options.
#[derive(Clone, Copy)]
pub struct Asked<'a> {
    table: &'static [Opt],
    words: &'a [String],
}

/// Which options are looked for.
#[derive(Clone, Copy)]
enum Wanted<'n> {
    /// The one of this long name.
    Name(&'n str),
    /// Those of this scope.
    Scope(&'n str),
}

impl Wanted<'_> {
    // Whether it is looked for.
    fn holds(self, option: &Opt) -> bool
        ensures { result ≡ is_wanted self.entry (entry_of option.now) }
    {
        match self {
            Wanted::Name(name) => option.long == name,
            Wanted::Scope(scope) => option.scope == scope,
        }
    }
}

impl<'a> Asked<'a> {
    /// These words, by a table of options.
    pub fn new(table: &'static [Opt], words: &'a [String]) -> Self
        ensures { asked_said result ≡ said_by (map entry_of table.now) (map string_bytes words.now) }
    {
        Asked { table, words }
    }

    /// What is to be told in place of an answer, if anything is.
    ///
    /// # Errors
    /// Why the words have no meaning by the table.
    pub fn info(&self) -> Result<Option<Info>, Fault<'a>>
        ensures { result_map_both (λ info. info) misuse_of result ≡ ended (asked_said self.now) }
    {
        let mut items = Items::new(self.table, self.words);
        while let Some(item) = items.next() {
            match item {
                Item::Info(info) => return Ok(Some(info)),
                Item::Fault(fault) => return Err(fault),
                Item::Given(_) | Item::File(_) => {}
            }
        }
        Ok(None)
    }

    /// Whether the option of this long name is given.
    pub fn has(&self, name: &str) -> bool
        ensures { result ≡ has name.now (asked_said self.now) }
    {
        self.last(Wanted::Name(name)).is_some()
    }

    /// The number behind the option of this long name: the last one, if it is given several times.
    pub fn number(&self, name: &str) -> Option<usize>
        ensures { result ≡ number name.now (asked_said self.now) }
    {
        match self.last(Wanted::Name(name)) {
            Some(given) => given.number(),
            None => None,
        }
    }

    /// The word behind the option of this long name: the last one, if it is given several times.
    pub fn word(&self, name: &str) -> Option<&'a str>
        ensures { option_map (λ word. word.now) result ≡ word name.now (asked_said self.now) }
    {
        match self.last(Wanted::Name(name)) {
            Some(given) => given.text(),
            None => None,
        }
    }

    /// The last option of this scope.
    pub fn last_in(&self, scope: &str) -> Option<Given<'a>>
        ensures { option_map given_said result ≡ last_in scope.now (asked_said self.now) }
    {
        self.last(Wanted::Scope(scope))
    }

    // The last option that is looked for.
    fn last(&self, wanted: Wanted) -> Option<Given<'a>>
        ensures { option_map given_said result ≡ last (is_wanted wanted.entry) (asked_said self.now) }
    {
        let mut items = Items::new(self.table, self.words);
        let mut found = None;
        while let Some(item) = items.next() {
            if let Item::Given(given) = item
                && wanted.holds(given.option)
            {
                found = Some(given);
            }
        }
        found
    }

    /// The name of the file at this place, counted from 0.
    pub fn file(&self, place: usize) -> Option<&'a str>
        ensures { option_map (λ name. name.now) result ≡ file_at place (asked_said self.now) }
    {
        let mut items = Items::new(self.table, self.words);
        let mut left = place;
        while let Some(item) = items.next() {
            if let Item::File(name) = item {
                if left == 0 {
                    return Some(name);
                }
                left -= 1;
            }
        }
        None
    }

    /// The name of the file to read at this place. `None` is standard input.
    pub fn input(&self, place: usize) -> Option<&'a str>
        ensures { option_map (λ name. name.now) result ≡ input_at place (asked_said self.now) }
    {
        match self.file(place) {
            Some(name) => input(name),
            None => None,
        }
    }
}

/// The file to read of this name. `None` is standard input.
pub fn input<'a>(name: &'a str) -> Option<&'a str>
    ensures { option_map (λ name. name.now) result ≡ input_of name.now }
{
    if name == "-" { None } else { Some(name) }
}
