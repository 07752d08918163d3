//! The options of a program.
ghost use Rattle.std.specs.Prelude.{◌≡◌, map};
ghost use Rattle.std.specs.Option.{option_map};
ghost use Rattle.gip_cli.specs.Options.{entry_of, named};

use std::fmt::{self, Display};

/// An option of a program: a line of its table.
#[derive(Clone, Copy)]
pub struct Opt {
    /// Its long name, with the hyphens.
    pub long: &'static str,
    /// Its short name, with the hyphen. Empty where it has none.
    pub short: &'static str,
    /// What stands behind it.
    pub kind: Kind,
    /// The name of the options that a program's tasks take or refuse together with it.
    pub scope: &'static str,
    /// The title of its section in the help.
    pub section: &'static str,
    /// What it does.
    pub help: &'static str,
}

/// What stands behind an option. The first name is that of its value in the help.
#[derive(Clone, Copy)]
pub enum Kind {
    /// Nothing.
    Switch,
    /// A number below 2^64.
    Number(&'static str),
    /// One of these words.
    Choice(&'static str, &'static [&'static str]),
    /// Any word, which errors call so.
    Text(&'static str, &'static str),
    /// A file that is read. A minus is standard input.
    Input(&'static str),
    /// A file that is written. It is no minus, since standard output has the answer.
    Output(&'static str),
}

/// What has to stand behind an option, in an error.
#[derive(Clone, Copy)]
pub(crate) struct Wanted(pub(crate) Kind);

impl Display for Wanted {
    fn fmt<W: fmt::Write>(&self, f: &mut fmt::Formatter<W>) -> fmt::Result {
        match self.0 {
            Kind::Switch => f.write_str("nothing"),
            Kind::Number(_) => f.write_str("a number"),
            Kind::Choice(_, words) => Display::fmt(&OneOf(words), f),
            Kind::Text(_, wanted) => f.write_str(wanted),
            Kind::Input(_) | Kind::Output(_) => f.write_str("a file"),
        }
    }
}

/// Words of which one is wanted: `a, b or c`.
#[derive(Clone, Copy)]
pub(crate) struct OneOf(pub(crate) &'static [&'static str]);

impl Display for OneOf {
    fn fmt<W: fmt::Write>(&self, f: &mut fmt::Formatter<W>) -> fmt::Result {
        let words = self.0;
        for place in 0..words.len() {
            let is_last = words.len() - place == 1;
            f.write_str(match place {
                0 => "",
                _ if is_last => " or ",
                _ => ", ",
            })?;
            f.write_str(words[place])?;
        }
        Ok(())
    }
}

// The first option of a table that has this name.
pub(crate) fn named(mut table: &'static [Opt], word: &str) -> Option<&'static Opt>
    ensures { option_map (λ option. entry_of option.now) result ≡ named (map entry_of table.now) word.now }
{
    while let [option, rest @ ..] = table {
        if word == option.long || word == option.short {
            return Some(option);
        }
        table = rest;
    }
    None
}
