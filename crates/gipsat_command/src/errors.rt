//! Why nothing was answered, as it is told.
use crate::proof_file::ProofError;
use gip_cli::{Cause, Fault};
use gipsat_dimacs::{Compression, Reason};
use gipsat_drat::PartError;
use gipsat_drat::error::{OtherForm, Place, Refusal};
use std::fmt::{self, Display};
use std::io;

/// Why the arguments have no meaning.
#[derive(Clone, Copy)]
pub enum UsageError<'a> {
    /// Words that have no meaning by the table of options.
    Words(Fault<'a>),
    /// More files are named than are read.
    ExtraFile(&'a str),
    /// Fewer than two files are named for a check.
    MissingFile,
    /// `--lrat` is given, and no proof is to be written.
    MissingProof,
    /// `--project` is given without `--models`.
    MissingModels,
    /// A proof is to be written beside assumptions or several models.
    ProofOfMore,
    /// A search under a cube has other assumptions, or is for several models.
    PartOfMore,
    /// A proof of a part is to be written without hints.
    MissingHints,
    /// Cubes are to be written beside an answer or a proof.
    CubesOfMore,
    /// Fewer files are named than that of a formula and that of its cubes.
    MissingCubes,
    /// Proofs are to be joined, and another check is asked for.
    CheckOfMore,
    /// The second option does not go with the first.
    NotFor(&'static str, &'a str),
    /// Standard input is named as the formula and as the other file.
    InputTwice,
}

impl Display for UsageError<'_> {
    fn fmt<W: fmt::Write>(&self, f: &mut fmt::Formatter<W>) -> fmt::Result {
        match *self {
            UsageError::Words(fault) => Display::fmt(&fault, f),
            UsageError::ExtraFile(name) => write!(f, "one file too many, '{name}'"),
            UsageError::MissingFile => f.write_str("'--check' takes two files, FORMULA and PROOF"),
            UsageError::MissingProof => f.write_str("'--lrat' needs '--proof'"),
            UsageError::MissingModels => f.write_str("'--project' needs '--models'"),
            UsageError::ProofOfMore => f.write_str(
                "'--proof' is of the formula alone, without '--assume' and '--models'",
            ),
            UsageError::PartOfMore => {
                f.write_str("'--cube' has a meaning without '--assume' and '--models'")
            }
            UsageError::MissingHints => f.write_str("a proof of '--cube' needs '--lrat'"),
            UsageError::CubesOfMore => f.write_str(
                "'--cubes' has a meaning without '--assume', '--models', '--proof' and '--cube'",
            ),
            UsageError::MissingCubes => {
                f.write_str("'--cube' and '--join' take a file FORMULA and a file CUBES")
            }
            UsageError::CheckOfMore => {
                f.write_str("'--join' has a meaning without '--check' and '--lrat-from-drat'")
            }
            UsageError::NotFor(name, word) => write!(f, "'{name}' takes no option '{word}'"),
            UsageError::InputTwice => {
                f.write_str("one file at most is read from standard input")
            }
        }
    }
}

/// Why there is no answer. A name is that of a file; that of standard input or output is `None`.
#[derive(Clone, Copy)]
pub enum Failure<'a> {
    /// The file of this name could not be opened.
    Open(&'a str, io::Error),
    /// A read of this input failed.
    Read(Option<&'a str>, Option<io::Error>),
    /// A write to this output failed.
    Write(Option<&'a str>, Option<io::Error>),
    /// At this line, counted from 1, the formula of this input has another form.
    Line(Option<&'a str>, usize, Reason),
    /// At this line a question of this input lacks its form, as this text says.
    Question(Option<&'a str>, usize, &'static str),
    /// At this line the formula of a check, in this input, is compressed.
    Compressed(Option<&'a str>, usize, Compression),
    /// Behind this option stands no list of literals, for this reason.
    Literals(&'static str, Reason),
    /// Behind this option a literal has a variable that the formula of this input does not have.
    Unnamed(Option<&'a str>, &'static str),
    /// The cubes in this input have none of this number, but are so many.
    NoCube(Option<&'a str>, usize, usize),
    /// This proof of a part is not joined, for this reason.
    Part(&'a str, PartError),
    /// In this input no proof has the cube of this number.
    Missing(Option<&'a str>, usize),
    /// Propagation does not show that the cubes in this input cover the formula.
    Uncovered(Option<&'a str>),
    /// This input has questions, beside which this option has no meaning.
    Questions(Option<&'a str>, &'a str),
    /// The proof was not written.
    Proof(ProofError<'a>),
    /// The proof in this input is refused.
    Refused(Option<&'a str>, Refusal),
    /// The proof in this input has a form that is not read.
    Form(Option<&'a str>, OtherForm),
    /// Memory was refused.
    Memory,
}

impl Display for Failure<'_> {
    fn fmt<W: fmt::Write>(&self, f: &mut fmt::Formatter<W>) -> fmt::Result {
        match *self {
            Failure::Open(name, error) => write!(f, "{name}: {}", Cause(Some(error))),
            Failure::Read(name, error) => write!(
                f,
                "{}: cannot be read: {}",
                name.unwrap_or("<stdin>"),
                Cause(error)
            ),
            Failure::Write(name, error) => write!(
                f,
                "{}: cannot be written: {}",
                name.unwrap_or("<stdout>"),
                Cause(error)
            ),
            Failure::Line(name, line, reason) => {
                write!(f, "{}:{line}: {reason}", name.unwrap_or("<stdin>"))
            }
            Failure::Question(name, line, flaw) => {
                write!(f, "{}:{line}: {flaw}", name.unwrap_or("<stdin>"))
            }
            Failure::Compressed(name, line, compression) => {
                let name = name.unwrap_or("<stdin>");
                let tool = tool_of(compression);
                write!(
                    f,
                    "{name}:{line}: {tool} data (try: {tool} -dc FORMULA | gipsat --check - PROOF)"
                )
            }
            Failure::Literals(option, reason) => write!(f, "{option}: {reason}"),
            Failure::Unnamed(name, option) => {
                let name = name.unwrap_or("<stdin>");
                write!(f, "{option}: a variable that {name} does not have")
            }
            Failure::NoCube(name, number, count) => {
                let name = name.unwrap_or("<stdin>");
                write!(f, "{name}: no cube {number}, of {count}")
            }
            Failure::Part(name, error) => write!(f, "{}", PartFault(name, error)),
            Failure::Missing(name, number) => {
                let name = name.unwrap_or("<stdin>");
                write!(f, "{name}: no proof of cube {number}")
            }
            Failure::Uncovered(name) => {
                let name = name.unwrap_or("<stdin>");
                write!(
                    f,
                    "{name}: propagation does not show that the cubes cover the formula"
                )
            }
            Failure::Questions(name, option) => {
                let name = name.unwrap_or("<stdin>");
                write!(
                    f,
                    "{name}: a text with questions takes no option '{option}'"
                )
            }
            Failure::Proof(error) => Display::fmt(&error, f),
            Failure::Refused(name, refusal) => {
                let name = name.unwrap_or("<stdin>");
                let flaw = refusal.flaw;
                match refusal.place {
                    Place::Line(line) => write!(f, "{name}:{line}: {flaw}"),
                    Place::Byte(byte) => write!(f, "{name}: byte {byte}: {flaw}"),
                }
            }
            Failure::Form(name, form) => write!(f, "{}: {form}", name.unwrap_or("<stdin>")),
            Failure::Memory => f.write_str("memory: refused"),
        }
    }
}

// Why the proof of a part in this file is not joined.
#[derive(Clone, Copy)]
struct PartFault<'a>(&'a str, PartError);

impl Display for PartFault<'_> {
    fn fmt<W: fmt::Write>(&self, f: &mut fmt::Formatter<W>) -> fmt::Result {
        let name = self.0;
        match self.1 {
            PartError::Refused(refusal) => {
                let flaw = refusal.flaw;
                match refusal.place {
                    Place::Line(line) => write!(f, "{name}:{line}: {flaw}"),
                    Place::Byte(byte) => write!(f, "{name}: byte {byte}: {flaw}"),
                }
            }
            PartError::NotLrat => write!(f, "{name}: not in the LRAT form"),
            PartError::OtherClause => {
                write!(f, "{name}: its last clause is not the negation of a cube")
            }
            PartError::Twice(number) => write!(f, "{name}: another proof of cube {number}"),
            PartError::Proof => write!(f, "{name}: cannot be read"),
            PartError::Memory => f.write_str("memory: refused"),
            PartError::Output => f.write_str("the joined proof cannot be written"),
        }
    }
}

// The program that decompresses a file.
fn tool_of(compression: Compression) -> &'static str {
    match compression {
        Compression::Gzip => "gzip",
        Compression::Xz => "xz",
        Compression::Bzip2 => "bzip2",
        Compression::Zstd => "zstd",
    }
}
