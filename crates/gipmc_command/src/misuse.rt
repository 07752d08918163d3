//! Why the words of a command line have no meaning.
use gip_cli::Fault;
use std::fmt::{self, Display};

/// Why the arguments have no meaning.
#[derive(Clone, Copy)]
pub enum UsageError<'a> {
    /// Words that have no meaning by the table of options.
    Words(Fault<'a>),
    /// More files are named than are read.
    ExtraFile(&'a str),
    /// More than one of a witness, a certificate, a list and a joined certificate is asked for.
    TwoTasks,
    /// This option of a search stands beside one of these.
    NoSearch(&'a str),
    /// This limit stands beside a witness or a list.
    NoLimit(&'a str),
    /// This option about properties stands beside a list or a joined certificate.
    NoProperty(&'a str),
    /// No certificate to join is named.
    NoPart,
    /// Standard input is named twice.
    InputTwice,
}

impl Display for UsageError<'_> {
    fn fmt<W: fmt::Write>(&self, f: &mut fmt::Formatter<W>) -> fmt::Result {
        match *self {
            UsageError::Words(fault) => Display::fmt(&fault, f),
            UsageError::ExtraFile(name) => write!(f, "one file too many, '{name}'"),
            UsageError::TwoTasks => {
                f.write_str("one at most of '--replay', '--certify', '--list' and '--join' is done")
            }
            UsageError::NoSearch(word) => write!(
                f,
                "'{word}' goes with none of '--replay', '--certify', '--list' and '--join'"
            ),
            UsageError::NoLimit(word) => {
                write!(f, "'{word}' goes with neither '--replay' nor '--list'")
            }
            UsageError::NoProperty(word) => {
                write!(f, "'{word}' goes with neither '--list' nor '--join'")
            }
            UsageError::NoPart => f.write_str("'--join' needs certificates behind the circuit"),
            UsageError::InputTwice => f.write_str("one file at most is read from standard input"),
        }
    }
}
