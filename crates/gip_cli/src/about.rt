//! What a program tells of itself.
use crate::items::Info;
use crate::options::{Kind, Opt};
use std::fmt::{self, Display};

// The columns of the help, and the one in which the texts of options begin.
const WIDTH: usize = 80;

const COLUMN: usize = 24;

// The options of each program, as the help has them.
const OTHER: [Opt; 3] = [
    Opt {
        long: "--help",
        short: "-h",
        kind: Kind::Switch,
        scope: "",
        section: "Other",
        help: "write this, and do nothing else",
    },
    Opt {
        long: "--version",
        short: "",
        kind: Kind::Switch,
        scope: "",
        section: "Other",
        help: "write the name and the version, and do nothing else",
    },
    Opt {
        long: "--",
        short: "",
        kind: Kind::Switch,
        scope: "",
        section: "Other",
        help: "take all words behind this one as files, whatever they begin with",
    },
];

/// What a program tells of itself.
#[derive(Clone, Copy)]
pub struct About {
    /// Its name and version.
    pub version: &'static str,
    /// Its forms of words.
    pub usage: &'static [&'static str],
    /// What it does, in paragraphs.
    pub summary: &'static [&'static str],
    /// Its options.
    pub options: &'static [Opt],
    /// What else there is to say of options.
    pub note: &'static str,
    /// What each exit status says.
    pub statuses: &'static str,
}

impl About {
    // Writes what is to be told.
    pub(crate) fn tell<W: fmt::Write>(&self, f: &mut W, info: Info) -> fmt::Result {
        match info {
            Info::Help => self.help(f),
            Info::Version => writeln!(f, "{}", self.version),
        }
    }

    // Writes the help. No line has more than 80 columns.
    fn help<W: fmt::Write>(&self, f: &mut W) -> fmt::Result {
        let mut title = "usage:";
        for form in self.usage {
            writeln!(f, "{title} {form}")?;
            title = "      ";
        }
        for paragraph in self.summary {
            f.write_str("\n")?;
            fill(f, 0, paragraph)?;
        }
        rows(f, self.options)?;
        rows(f, &OTHER)?;
        f.write_str("\n")?;
        fill(f, 0, self.note)?;
        f.write_str("\n")?;
        fill(f, 0, self.statuses)
    }
}

// Writes options, and the title of each section.
fn rows<W: fmt::Write>(f: &mut W, options: &[Opt]) -> fmt::Result {
    for place in 0..options.len() {
        let option = &options[place];
        if place == 0 || options[place - 1].section != option.section {
            writeln!(f, "\n{}:", option.section)?;
        }
        row(f, option)?;
    }
    Ok(())
}

// Writes how an option is written, and what it does.
fn row<W: fmt::Write>(f: &mut W, option: &Opt) -> fmt::Result {
    let column = heading(f, option)?;
    if column < COLUMN {
        blanks(f, COLUMN - column)?;
    } else {
        f.write_str("\n")?;
        blanks(f, COLUMN)?;
    }
    fill(f, COLUMN, option.help)
}

// Writes how an option is written. The column behind it.
fn heading<W: fmt::Write>(f: &mut W, option: &Opt) -> Result<usize, fmt::Error> {
    match option.short {
        "" => f.write_str("      ")?,
        short => write!(f, "  {short}, ")?,
    }
    f.write_str(option.long)?;
    let column = option.long.len().saturating_add(6);
    match option.kind {
        Kind::Switch => Ok(column),
        Kind::Number(name)
        | Kind::Choice(name, _)
        | Kind::Text(name, _)
        | Kind::Input(name)
        | Kind::Output(name) => {
            write!(f, " {name}")?;
            Ok(column.saturating_add(1).saturating_add(name.len()))
        }
    }
}

fn blanks<W: fmt::Write>(f: &mut W, count: usize) -> fmt::Result {
    for _ in 0..count {
        f.write_str(" ")?;
    }
    Ok(())
}

// Writes the words of a text, from this column on, into lines that end before column 80.
fn fill<W: fmt::Write>(f: &mut W, indent: usize, text: &str) -> fmt::Result {
    let mut column = indent;
    for word in text.split(' ') {
        let end = column.saturating_add(1).saturating_add(word.len());
        if column == indent {
            column = column.saturating_add(word.len());
        } else if end <= WIDTH {
            f.write_str(" ")?;
            column = end;
        } else {
            f.write_str("\n")?;
            blanks(f, indent)?;
            column = indent.saturating_add(word.len());
        }
        f.write_str(word)?;
    }
    f.write_str("\n")
}
