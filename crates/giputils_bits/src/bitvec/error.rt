//! Why a bit vector could not be made longer.
ghost use Rattle.std.specs.Prelude.{◌≡◌, Some};
ghost use Rattle.giputils_bits.specs.Error.{error_text};
ghost use Rattle.giputils_bits.specs.declared.bitvec.error.BitVecError.TheVariants.{Memory};

use std::alloc::AllocError;
use std::error::Error;
use std::fmt;

/// Why a bit vector could not be made, or made longer.
#[derive(Clone, Copy, Debug, PartialEq, Eq, Hash)]
pub enum BitVecError {
    /// The length would be above `usize::MAX`. No memory was asked for.
    TooLong,
    /// A request for memory was refused.
    Memory,
}

impl fmt::Display for BitVecError {
    ghost output = { λ error. Some (error_text error) };

    fn fmt<W: fmt::Write>(&self, f: &mut fmt::Formatter<W>) -> fmt::Result {
        match self {
            BitVecError::TooLong => f.write_str("the vector would be too long"),
            BitVecError::Memory => f.write_str("memory was refused"),
        }
    }
}

impl Error for BitVecError {}

impl From<AllocError> for BitVecError {
    ghost from_gives = { λ _ error. error ≡ Memory };

    fn from(_refused: AllocError) -> BitVecError {
        BitVecError::Memory
    }
}
