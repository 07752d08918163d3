//! Why a text is refused.
ghost use Rattle.std.specs.Prelude.{◌≡◌, Some};
ghost use Rattle.gipsat_dimacs.specs.Errors.{reason_text, error_text, error_at, memory_refused};
ghost use Rattle.gipsat_dimacs.specs.declared.error.Stop.TheVariants.{Memory, Refused};

use std::alloc::{AllocError, AllocFailed};
use std::error::Error;
use std::fmt;

/// How a file is compressed, told by its first bytes.
#[derive(Clone, Copy, Debug, PartialEq, Eq, Hash)]
pub enum Compression {
    /// By gzip.
    Gzip,
    /// By xz.
    Xz,
    /// By bzip2.
    Bzip2,
    /// By zstd.
    Zstd,
}

// The first bytes of compressed data.
const SIGNATURES: &[(&[u8], Compression)] = &[
    (b"\x1f\x8b", Compression::Gzip),
    (b"\xfd7zXZ", Compression::Xz),
    (b"BZh", Compression::Bzip2),
    (b"\x28\xb5\x2f\xfd", Compression::Zstd),
];

impl Compression {
    /// How data that begins with these bytes is compressed, if they tell that it is.
    pub fn of(start: &[u8]) -> Option<Self> {
        for &(signature, compression) in SIGNATURES {
            if start.starts_with(signature) {
                return Some(compression);
            }
        }
        None
    }
}

/// Why a text has not the form.
#[derive(Clone, Copy, Debug, PartialEq, Eq, Hash)]
pub enum Reason {
    /// The text does not begin with a header `p cnf VARIABLES CLAUSES`, or more words stand behind it in its last line.
    Header,
    /// There is a second header.
    SecondHeader,
    /// A word is no number.
    Word,
    /// A number is greater than 2^31 - 1.
    Number,
    /// A variable is greater than the header says.
    Variable,
    /// There are more clauses than the header says.
    MoreClauses,
    /// There are fewer clauses than the header says.
    FewerClauses,
    /// The last clause has no 0 at its end.
    OpenClause,
    /// It is no text: it is compressed, and has to be decompressed first.
    Compressed(Compression),
}

impl fmt::Display for Reason {
    ghost output = { λ reason. Some (reason_text reason) };

    fn fmt<W: fmt::Write>(&self, f: &mut fmt::Formatter<W>) -> fmt::Result {
        match self {
            Reason::Header => f.write_str("no header `p cnf VARIABLES CLAUSES`"),
            Reason::SecondHeader => f.write_str("a second header"),
            Reason::Word => f.write_str("not a number"),
            Reason::Number => f.write_str("a number past 2147483647"),
            Reason::Variable => f.write_str("a variable that the header does not have"),
            Reason::MoreClauses => f.write_str("more clauses than the header says"),
            Reason::FewerClauses => f.write_str("fewer clauses than the header says"),
            Reason::OpenClause => f.write_str("a clause without its 0"),
            Reason::Compressed(Compression::Gzip) => {
                f.write_str("gzip data (try: gzip -dc FILE | gipsat)")
            }
            Reason::Compressed(Compression::Xz) => {
                f.write_str("xz data (try: xz -dc FILE | gipsat)")
            }
            Reason::Compressed(Compression::Bzip2) => {
                f.write_str("bzip2 data (try: bzip2 -dc FILE | gipsat)")
            }
            Reason::Compressed(Compression::Zstd) => {
                f.write_str("zstd data (try: zstd -dc FILE | gipsat)")
            }
        }
    }
}

/// Why a formula was not read, or no answer was written.
#[derive(Clone, Copy, Debug, PartialEq, Eq, Hash)]
pub enum DimacsError {
    /// The input could not be read.
    Input,
    /// At the line with this number, counted from 1, the text has another form.
    Line(usize, Reason),
    /// Memory was refused.
    Memory,
    /// The output could not be written.
    Output,
}

impl fmt::Display for DimacsError {
    ghost output = { λ error. Some (error_text error) };

    fn fmt<W: fmt::Write>(&self, f: &mut fmt::Formatter<W>) -> fmt::Result {
        match self {
            DimacsError::Input => f.write_str("input: cannot be read"),
            DimacsError::Line(number, reason) => write!(f, "line {number}: {reason}"),
            DimacsError::Memory => f.write_str("memory: refused"),
            DimacsError::Output => f.write_str("output: cannot be written"),
        }
    }
}

impl Error for DimacsError {}

impl From<AllocError> for DimacsError {
    ghost from_gives = { λ _ error. error ≡ memory_refused };

    fn from(_refused: AllocError) -> DimacsError {
        DimacsError::Memory
    }
}

impl<T: Drop> From<AllocFailed<T>> for DimacsError {
    ghost from_gives = { λ _ error. error ≡ memory_refused };

    fn from(_refused: AllocFailed<T>) -> DimacsError {
        DimacsError::Memory
    }
}

// What stops a parser at a line.
#[derive(Clone, Copy)]
pub(crate) enum Stop {
    // Memory was refused.
    Memory,
    // The text has another form.
    Refused(Reason),
}

impl Stop {
    // The error of it at a line.
    pub(crate) fn at(self, line: usize) -> DimacsError
        ensures { result ≡ error_at line self }
    {
        match self {
            Stop::Memory => DimacsError::Memory,
            Stop::Refused(reason) => DimacsError::Line(line, reason),
        }
    }
}

impl From<AllocError> for Stop {
    ghost from_gives = { λ _ stop. stop ≡ Memory };

    fn from(_refused: AllocError) -> Stop {
        Stop::Memory
    }
}

impl<T: Drop> From<AllocFailed<T>> for Stop {
    ghost from_gives = { λ _ stop. stop ≡ Memory };

    fn from(_refused: AllocFailed<T>) -> Stop {
        Stop::Memory
    }
}

impl From<Reason> for Stop {
    ghost from_gives = { λ reason stop. stop ≡ Refused reason };

    fn from(reason: Reason) -> Stop {
        Stop::Refused(reason)
    }
}
