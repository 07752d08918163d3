//! A script from the bytes in to the bytes out.
ghost use Rattle.std.specs.Prelude.{◌≡◌, ◌≢◌, ◌↔◌, ℕ, Bool, true, false, List, IfErr, IfSome, OnOk, IsErrOf};
ghost use Rattle.std.specs.Io.KnownBytes.{Appends, IsAtEnd};
ghost use Rattle.gip_lines.specs.Input.{IsTooLong, Fits};
ghost use Rattle.gip_lines.specs.Scripts.Lines.{IsScript, lines_of, first_other_line};
ghost use Rattle.gip_lines.specs.Scripts.Replies.{script_text};

pub mod lines;
mod replies;

use crate::fault::GipFault;
use crate::texts;
use crate::transfer::{read_all, write_all};
use crate::watched::Watched;
use lines::Line;
use replies::replies_to;
use std::alloc::Allocator;
use std::io::{Read, Write};

/// Runs a script: reads all of it, checks every line, runs the lines in turn on a set of keys that is empty at first,
/// and then writes the replies, one line each.
///
/// What a line says stands at [`Line`]. Neither device may have failed, which [`Watched::failed`] tells.
///
/// # Errors
/// - [`GipFault::Input`] where a read fails, or the input has more than [`INPUT_LIMIT`](crate::INPUT_LIMIT) bytes.
/// - [`GipFault::Line`] with the number of the first line of another form.
/// - [`GipFault::Memory`] where memory for anything but a held key is refused.
/// - [`GipFault::Output`] where a write fails. What was written by then is open.
///
/// At the first three nothing was written. How much of the input was read is open where the input failed.
pub fn script<A: Allocator + Copy, R: Read, W: Write>(
    alloc: A,
    reader: &mut Watched<R>,
    writer: &mut Watched<W>,
) -> Result<(), GipFault>
    requires reader { reader.old.has_failed ≡ false }
    requires writer { writer.old.has_failed ≡ false }

    // Success means that all of a script was read, and that its replies and nothing else were written.
    ensures read_to_end { OnOk result (IsAtEnd (R.remaining reader.new.device)) }
    ensures fits { OnOk result (IfSome (R.remaining reader.old.device) Fits) }
    ensures is_script { OnOk result (IfSome (R.remaining reader.old.device) IsScript) }
    ensures written { OnOk result (IfSome (R.remaining reader.old.device) (λ input. (refusals : List Bool)
        × Appends (W.contents writer.old.device) (W.contents writer.new.device)
        (script_text (lines_of input) refusals))) }

    // When each fault comes.
    ensures line { (number : ℕ) → IsErrOf result (GipFault.Line number) →
        IfSome (R.remaining reader.old.device) (λ input.
        Fits input × (first_other_line input ≡ Some number)) }
    ensures line_read_to_end { (number : ℕ) → IsErrOf result (GipFault.Line number) →
        IsAtEnd (R.remaining reader.new.device) }
    ensures input { IsErrOf result GipFault.Input → reader.new.has_failed ≡ false →
        IsTooLong (R.remaining reader.old.device) }
    ensures reader_failed { reader.new.has_failed ≡ true → IsErrOf result GipFault.Input }
    ensures writer_failed { IsErrOf result GipFault.Output ↔ (writer.new.has_failed ≡ true) }
    ensures unwritten { IfErr result (λ fault. fault ≢ GipFault.Output → writer.new ≡ writer.old) }
{
    let input = read_all(alloc, reader)?;
    let lines: Vec<Line, A> = texts::parse(alloc, &input)?;
    let text = replies_to(alloc, &lines)?;
    write_all(writer, &text)
}
