//! The two tasks of the program.
ghost use Rattle.std.specs.Prelude.{◌≡◌, ◌≢◌, ◌↔◌, ℕ, true, false, IfErr, IfSome, OnOk, IsErrOf};
ghost use Rattle.std.specs.Io.KnownBytes.{IsAtEnd};
ghost use Rattle.gip_lines.specs.Input.{IsTooLong, Fits};
ghost use Rattle.gip_lines.specs.Task.{IsInputOf, first_line_against, Writes};

use crate::fault::GipFault;
use crate::scripts::script;
use crate::vectors::bits;
use crate::watched::Watched;
use std::alloc::Allocator;
use std::io::{Read, Write};

/// What the program is asked for.
#[derive(Clone, Copy, Debug, PartialEq, Eq)]
pub enum Task {
    /// To run a script: [`script`].
    Script,
    /// To show vectors of bits: [`bits`].
    Bits,
}

impl Task {
    /// Does the task: its contract is that of [`script`] or of [`bits`]. Neither device may have failed, which
    /// [`Watched::failed`] tells.
    ///
    /// # Errors
    /// Those of [`script`] or of [`bits`].
    pub fn run<A: Allocator + Copy, R: Read, W: Write>(
        self,
        alloc: A,
        reader: &mut Watched<R>,
        writer: &mut Watched<W>,
    ) -> Result<(), GipFault>
        requires reader { reader.old.has_failed ≡ false }
        requires writer { writer.old.has_failed ≡ false }

        // Success means that all of the task's input was read, and that its output and nothing else was written.
        ensures read_to_end { OnOk result (IsAtEnd (R.remaining reader.new.device)) }
        ensures fits { OnOk result (IfSome (R.remaining reader.old.device) Fits) }
        ensures is_input { OnOk result (IfSome (R.remaining reader.old.device) (IsInputOf self)) }
        ensures written { OnOk result (IfSome (R.remaining reader.old.device) (λ input.
            Writes self input (W.contents writer.old.device) (W.contents writer.new.device))) }

        // When each fault comes.
        ensures line { (number : ℕ) → IsErrOf result (GipFault.Line number) →
            IfSome (R.remaining reader.old.device) (λ input.
            Fits input × (first_line_against self input ≡ Some number)) }
        ensures line_read_to_end { (number : ℕ) → IsErrOf result (GipFault.Line number) →
            IsAtEnd (R.remaining reader.new.device) }
        ensures input { IsErrOf result GipFault.Input → reader.new.has_failed ≡ false →
            IsTooLong (R.remaining reader.old.device) }
        ensures reader_failed { reader.new.has_failed ≡ true → IsErrOf result GipFault.Input }
        ensures writer_failed { IsErrOf result GipFault.Output ↔ (writer.new.has_failed ≡ true) }
        ensures unwritten { IfErr result (λ fault. fault ≢ GipFault.Output → writer.new ≡ writer.old) }
    {
        match self {
            Task::Script => script(alloc, reader, writer),
            Task::Bits => bits(alloc, reader, writer),
        }
    }
}
