//! What stops the program.
ghost use Rattle.std.specs.Prelude.{◌≡◌, Some};
ghost use Rattle.gip_lines.specs.Fault.{fault_text, fault_status};
ghost use Rattle.gip_lines.specs.declared.fault.GipFault.TheVariants.{Memory};

use std::alloc::{AllocError, AllocFailed};
use std::error::Error;
use std::fmt;

/// Why a run of the program ended early. Its text is what the program writes on standard error.
#[derive(Clone, Copy, Debug, PartialEq, Eq)]
pub enum GipFault {
    /// The input could not be read, or it is too long.
    Input,
    /// The line with this number, counted from 1, is the first of another form.
    Line(usize),
    /// Memory ran out before anything was written.
    Memory,
    /// The output could not be written.
    Output,
}

impl GipFault {
    /// The exit status of a program that ends with this fault: 2 where what was given is at fault, and 1 where the
    /// machine is.
    pub fn status(&self) -> u8
        ensures { result ≡ fault_status self.now }
    {
        match self {
            GipFault::Input | GipFault::Line(_) => 2,
            GipFault::Memory | GipFault::Output => 1,
        }
    }
}

impl fmt::Display for GipFault {
    ghost output = { λ fault. Some (fault_text fault) };

    fn fmt<W: fmt::Write>(&self, f: &mut fmt::Formatter<W>) -> fmt::Result {
        match self {
            GipFault::Input => f.write_str("input: refused"),
            GipFault::Line(number) => write!(f, "line {number}: refused"),
            GipFault::Memory => f.write_str("memory: refused"),
            GipFault::Output => f.write_str("output: failed"),
        }
    }
}

impl Error for GipFault {}

impl From<AllocError> for GipFault {
    ghost from_gives = { λ _ fault. fault ≡ Memory };

    fn from(_refused: AllocError) -> GipFault {
        GipFault::Memory
    }
}

impl<T: Drop> From<AllocFailed<T>> for GipFault {
    ghost from_gives = { λ _ fault. fault ≡ Memory };

    fn from(_refused: AllocFailed<T>) -> GipFault {
        GipFault::Memory
    }
}
