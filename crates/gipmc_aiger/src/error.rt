//! Why a text is refused.
ghost use Rattle.std.specs.Prelude.{◌≡◌};
ghost use Rattle.gipmc_aiger.specs.Circuits.{Rows};
ghost use Rattle.gipmc_aiger.specs.Defects.{IsDefectOf, IsErrorOf};
ghost use Rattle.gipmc_aiger.specs.declared.error.Stop.TheVariants.{Memory};
ghost use Rattle.gipmc_aiger.specs.declared.error.AigerError.TheVariants as refusal;
ghost use Rattle.gipmc_aiger.specs.declared.error.Defect.TheVariants as defect;

use std::alloc::{AllocError, AllocFailed};
use thiserror::Error;

/// Why a text has not the form.
#[derive(Clone, Copy, Debug, PartialEq, Eq, Drop, Error)]
pub enum Reason {
    /// The text does not begin with `aag` or `aig`.
    #[error("no header `aag` or `aig`")]
    Format,
    /// There are justice properties and no bad literals, where a circuit is wanted without its justice properties.
    #[error("justice without bad literals is not supported")]
    Liveness,
    /// There are more inputs, latches and gates than the header has variables, or fewer in the binary form.
    #[error("the header's variables are not its inputs, latches and gates")]
    Counts,
    /// No number stands where one is wanted.
    #[error("not a number")]
    Number,
    /// A number is greater than the text may have.
    #[error("a number that is too great")]
    Great,
    /// Another byte stands where a space or a line end is wanted, or the text ends there.
    #[error("not a space or a line end where one is wanted")]
    Separator,
    /// The literal of an input, a latch or a gate is negated or constant.
    #[error("a negated or constant literal in front of an input, a latch or a gate")]
    Defined,
    /// The reset of a latch is neither 0, nor 1, nor the latch.
    #[error("a reset that is neither 0, nor 1, nor the latch itself")]
    Reset,
    /// A number of the binary form ends too early, or is too great.
    #[error("no number in groups of 7 bits")]
    Delta,
    /// A gate of the binary form has an operand that is not below it, or the second operand is greater than the first.
    #[error("a gate whose operands are not below it, the greater first")]
    Order,
    /// What stands behind the gates is neither a symbol nor a comment.
    #[error("neither a symbol nor a comment behind the gates")]
    Symbol,
    /// The text of a witness or an invariant ends too early.
    #[error("the text ends too early")]
    End,
    /// A witness does not begin with the line `1`.
    #[error("no line `1`, with which a witness begins")]
    Status,
    /// No bad literal is named in the second line of a witness.
    #[error("no line `b` with the number of a bad literal")]
    Property,
    /// A line of a witness has more or fewer values than the circuit has latches or inputs.
    #[error("more or fewer values than the circuit has latches or inputs")]
    Length,
    /// A value is neither `0`, nor `1`, nor `x`.
    #[error("a value that is neither 0, nor 1, nor x")]
    Bit,
    /// An invariant does not begin with `p cnf`, the number of latches and the number of clauses, or has more or fewer.
    #[error("no header `p cnf LATCHES CLAUSES` that says what follows")]
    Clauses,
}

// Why reading stops: memory, or a reason with the number of bytes that are left at the place.
#[derive(Clone, Copy)]
pub(crate) enum Stop {
    Memory,
    Refused(Reason, usize),
}

impl From<AllocError> for Stop {
    ghost from_gives = { λ _ stop. stop ≡ Memory };

    fn from(_refused: AllocError) -> Stop {
        Stop::Memory
    }
}

impl<T: Drop> From<AllocFailed<T>> for Stop {
    ghost from_gives = { λ _ stop. stop ≡ Memory };

    fn from(_refused: AllocFailed<T>) -> Stop {
        Stop::Memory
    }
}

/// Where a text is refused.
#[derive(Clone, Copy, Debug, PartialEq, Eq, Drop, Error)]
pub enum Place {
    /// In the line with this number, counted from 1.
    #[error("line {0}")]
    Line(usize),
    /// At the byte with this number, counted from 0, among the gates of the binary form.
    #[error("byte {0}")]
    Byte(usize),
}

/// Why no circuit, witness or invariant was read.
#[derive(Clone, Copy, Debug, PartialEq, Eq, Drop, Error)]
pub enum AigerError {
    /// Memory was refused.
    #[error("memory: refused")]
    Memory,
    /// The text has another form.
    #[error("{0}: {1}")]
    Refused(Place, Reason),
    /// A variable is defined twice, or it is 0 and defined at all.
    #[error("variable {0} is defined twice")]
    Twice(u32),
    /// A variable is used, and nothing defines it.
    #[error("variable {0} is not defined")]
    Undefined(u32),
    /// The gate of a variable depends on itself.
    #[error("the gate of variable {0} depends on itself")]
    Cycle(u32),
}

impl From<AllocError> for AigerError {
    ghost from_gives = { λ _ error. error ≡ refusal.Memory };

    fn from(_refused: AllocError) -> AigerError {
        AigerError::Memory
    }
}

// Why the rows of a text are no circuit.
#[derive(Clone, Copy)]
pub(crate) enum Defect {
    Memory,
    Twice(u32),
    Undefined(u32),
    Cycle(u32),
}

impl Defect {
    // The error of it.
    pub(crate) fn error(self) -> AigerError
        ensures { (n : Rows) → IsDefectOf n self → IsErrorOf n result }
    {
        match self {
            Defect::Memory => AigerError::Memory,
            Defect::Twice(variable) => AigerError::Twice(variable),
            Defect::Undefined(variable) => AigerError::Undefined(variable),
            Defect::Cycle(variable) => AigerError::Cycle(variable),
        }
    }
}

impl From<AllocError> for Defect {
    ghost from_gives = { λ _ made. made ≡ defect.Memory };

    fn from(_refused: AllocError) -> Defect {
        Defect::Memory
    }
}

impl<T: Drop> From<AllocFailed<T>> for Defect {
    ghost from_gives = { λ _ made. made ≡ defect.Memory };

    fn from(_refused: AllocFailed<T>) -> Defect {
        Defect::Memory
    }
}
