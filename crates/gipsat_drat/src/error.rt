//! What becomes of a proof, and why.
ghost use Rattle.std.specs.Prelude.{◌≡◌, Some, IfOk};
ghost use Rattle.gipsat_drat.specs.Held.{Held, IsRightOf};
ghost use Rattle.gipsat_drat.specs.Outcomes.{error_text, failure_error, flaw_text, form_text};
ghost use Rattle.gipsat_drat.specs.Outcomes.{outcome_text, place_text, refusal_text};
ghost use Rattle.gipsat_drat.specs.declared.error.DratError.TheVariants as error;
ghost use Rattle.gipsat_drat.specs.declared.error.Failure.TheVariants as failure;
ghost use Rattle.gipsat_drat.specs.declared.error.Stop.TheVariants as stop;

use gipsat_dimacs::DimacsError;
use std::alloc::{AllocError, AllocFailed};
use std::error::Error;
use std::fmt;

/// Why a proof is refused.
#[derive(Clone, Copy, Debug, PartialEq, Eq, Hash)]
pub enum Flaw {
    /// A word is no number.
    Word,
    /// A literal's number is greater than 2^31 - 1, or another number is greater than the form has.
    Number,
    /// A 0 has a sign.
    Variable,
    /// A clause is neither RUP nor RAT on its first literal.
    NotShown,
    /// A step's name is not greater than all before.
    Name,
    /// No clause has the name of a hint, or of a deletion.
    Unnamed,
    /// Not all literals of a hint's clause but one are false, or that one is true.
    Hint,
    /// The hints do not show the clause.
    NotHinted,
    /// A step of a binary proof begins with another byte than `a` or `d`.
    Step,
    /// The last clause has no 0 at its end.
    OpenClause,
    /// The proof ends, and the empty clause was not shown.
    Unfinished,
}

impl fmt::Display for Flaw {
    ghost output = { λ flaw. Some (flaw_text flaw) };

    fn fmt<W: fmt::Write>(&self, f: &mut fmt::Formatter<W>) -> fmt::Result {
        match self {
            Flaw::Word => f.write_str("not a number"),
            Flaw::Number => f.write_str("a number that is too great"),
            Flaw::Variable => f.write_str("a 0 with a sign"),
            Flaw::NotShown => f.write_str(
                "a clause that is neither RUP nor RAT on its first literal",
            ),
            Flaw::Name => f.write_str("a name that is not greater than all before"),
            Flaw::Unnamed => f.write_str("a name that no clause has"),
            Flaw::Hint => f.write_str("a hint whose clause is not unit"),
            Flaw::NotHinted => f.write_str("hints that do not show the clause"),
            Flaw::Step => f.write_str("a step that begins with neither a nor d"),
            Flaw::OpenClause => f.write_str("a clause without its 0"),
            Flaw::Unfinished => f.write_str("the end without the empty clause"),
        }
    }
}

/// A place in a proof.
#[derive(Clone, Copy, Debug, PartialEq, Eq, Hash)]
pub enum Place {
    /// The number of a line of a text, counted from 1.
    Line(usize),
    /// The number of a byte of a binary proof, counted from 1: of the one that was read last.
    Byte(usize),
}

impl fmt::Display for Place {
    ghost output = { λ place. Some (place_text place) };

    fn fmt<W: fmt::Write>(&self, f: &mut fmt::Formatter<W>) -> fmt::Result {
        match self {
            Place::Line(number) => write!(f, "line {number}"),
            Place::Byte(number) => write!(f, "byte {number}"),
        }
    }
}

/// Where a proof is refused, and why.
#[derive(Clone, Copy, Debug, PartialEq, Eq, Hash)]
pub struct Refusal {
    /// Where.
    pub place: Place,
    /// Why.
    pub flaw: Flaw,
}

impl fmt::Display for Refusal {
    ghost output = { λ refusal. Some (refusal_text refusal) };

    fn fmt<W: fmt::Write>(&self, f: &mut fmt::Formatter<W>) -> fmt::Result {
        let place = self.place;
        let flaw = self.flaw;
        write!(f, "proof {place}: {flaw}")
    }
}

/// What is to be told of a check of a DRAT proof.
#[derive(Clone, Copy)]
pub struct Notes {
    /// How many deletions of clauses that were not held were passed over.
    pub missing: usize,
    /// Where the first one ends.
    pub first: Option<Place>,
    /// Whether the proof was read as DRAT though it begins with a number that could be a name of LRAT.
    pub may_be_lrat: bool,
}

impl Notes {
    /// Before a check.
    pub fn new() -> Self {
        Notes {
            missing: 0,
            first: None,
            may_be_lrat: false,
        }
    }
}

/// What was found out about a proof.
#[derive(Clone, Copy, Debug, PartialEq, Eq, Hash)]
pub enum Outcome {
    /// It shows that nothing satisfies the formula.
    Verified,
    /// It was refused.
    Refused(Refusal),
}

impl Outcome {
    /// The line that says so: `s VERIFIED` or `s NOT VERIFIED`.
    pub fn text(self) -> &'static [u8]
        ensures { result.now ≡ outcome_text self }
    {
        match self {
            Outcome::Verified => b"s VERIFIED\n",
            Outcome::Refused(_) => b"s NOT VERIFIED\n",
        }
    }
}

/// A form of a proof that is known by its first bytes, and not read.
#[derive(Clone, Copy, Debug, PartialEq, Eq, Hash)]
pub enum OtherForm {
    /// Compressed by gzip.
    Gzip,
    /// Compressed by xz.
    Xz,
    /// Compressed by bzip2.
    Bzip2,
    /// Compressed by zstd.
    Zstd,
    /// Picosat's: RUP steps behind a line that begins with `%`.
    Rup,
    /// FRAT, as text or binary.
    Frat,
    /// LRAT, where a proof without hints is wanted.
    Lrat,
}

impl fmt::Display for OtherForm {
    ghost output = { λ form. Some (form_text form) };

    fn fmt<W: fmt::Write>(&self, f: &mut fmt::Formatter<W>) -> fmt::Result {
        match self {
            OtherForm::Gzip => f.write_str(
                "gzip data (try: gzip -dc PROOF | gipsat --check FORMULA -)",
            ),
            OtherForm::Xz => {
                f.write_str("xz data (try: xz -dc PROOF | gipsat --check FORMULA -)")
            }
            OtherForm::Bzip2 => f.write_str(
                "bzip2 data (try: bzip2 -dc PROOF | gipsat --check FORMULA -)",
            ),
            OtherForm::Zstd => f.write_str(
                "zstd data (try: zstd -dc PROOF | gipsat --check FORMULA -)",
            ),
            OtherForm::Rup => f.write_str(
                "a first line with % (try: sed 1d PROOF | gipsat --check FORMULA -)",
            ),
            OtherForm::Frat => f.write_str("the FRAT form, which is not read (DRAT is)"),
            OtherForm::Lrat => f.write_str("the LRAT form, which has hints already"),
        }
    }
}

/// Why a proof was not checked to its end, or no outcome was written.
#[derive(Clone, Copy, Debug, PartialEq, Eq, Hash)]
pub enum DratError {
    /// The formula was not read.
    Formula(DimacsError),
    /// The proof could not be read.
    Proof,
    /// The proof has a form that is not read.
    Form(OtherForm),
    /// Memory was refused.
    Memory,
    /// The output could not be written.
    Output,
}

impl fmt::Display for DratError {
    ghost output = { λ error. Some (error_text error) };

    fn fmt<W: fmt::Write>(&self, f: &mut fmt::Formatter<W>) -> fmt::Result {
        match self {
            DratError::Formula(error) => write!(f, "formula: {error}"),
            DratError::Proof => f.write_str("proof: cannot be read"),
            DratError::Form(form) => write!(f, "proof: {form}"),
            DratError::Memory => f.write_str("memory: refused"),
            DratError::Output => f.write_str("output: cannot be written"),
        }
    }
}

impl Error for DratError {}

impl From<AllocError> for DratError {
    ghost from_gives = { λ _ e. e ≡ error.Memory };

    fn from(_refused: AllocError) -> DratError {
        DratError::Memory
    }
}

impl From<DimacsError> for DratError {
    ghost from_gives = { λ why e. e ≡ error.Formula why };

    fn from(why: DimacsError) -> DratError {
        DratError::Formula(why)
    }
}

// Why a proof was not checked to its end.
#[derive(Clone, Copy)]
pub(crate) enum Failure {
    // The proof could not be read.
    Proof,
    // The proof has a form that is not read.
    Form(OtherForm),
    // Memory was refused.
    Memory,
    // The output could not be written.
    Output,
}

impl From<AllocError> for Failure {
    ghost from_gives = { λ _ e. e ≡ failure.Memory };

    fn from(_refused: AllocError) -> Failure {
        Failure::Memory
    }
}

impl From<OtherForm> for Failure {
    ghost from_gives = { λ form e. e ≡ failure.Form form };

    fn from(form: OtherForm) -> Failure {
        Failure::Form(form)
    }
}

impl From<Failure> for DratError {
    ghost from_gives = { λ failure e. e ≡ failure_error failure };

    fn from(failure: Failure) -> DratError {
        match failure {
            Failure::Proof => DratError::Proof,
            Failure::Form(form) => DratError::Form(form),
            Failure::Memory => DratError::Memory,
            Failure::Output => DratError::Output,
        }
    }
}

// What stops a check.
#[derive(Clone, Copy)]
pub(crate) enum Stop {
    // Memory was refused.
    Memory,
    // The proof is refused.
    Refused(Flaw),
}

impl Stop {
    // What a check comes to that is stopped at a place.
    pub(crate) fn at(self, place: Place) -> Result<Outcome, Failure>
        ensures { IfOk result (λ outcome. (held : Held) → IsRightOf held outcome) }
    {
        match self {
            Stop::Memory => Err(Failure::Memory),
            Stop::Refused(flaw) => Ok(Outcome::Refused(Refusal { place, flaw })),
        }
    }
}

impl From<AllocError> for Stop {
    ghost from_gives = { λ _ s. s ≡ stop.Memory };

    fn from(_refused: AllocError) -> Stop {
        Stop::Memory
    }
}

impl<T: Drop> From<AllocFailed<T>> for Stop {
    ghost from_gives = { λ _ s. s ≡ stop.Memory };

    fn from(_refused: AllocFailed<T>) -> Stop {
        Stop::Memory
    }
}

impl From<Flaw> for Stop {
    ghost from_gives = { λ flaw s. s ≡ stop.Refused flaw };

    fn from(flaw: Flaw) -> Stop {
        Stop::Refused(flaw)
    }
}
