//! Vectors of bits from the bytes in to the bytes out.
ghost use Rattle.std.specs.Prelude.{◌≡◌, ◌≢◌, ◌↔◌, ℕ, true, false, IfErr, IfSome, OnOk, IsErrOf};
ghost use Rattle.std.specs.Io.KnownBytes.{Appends, IsAtEnd};
ghost use Rattle.gip_lines.specs.Vectors.Lines.{AreBits, bits_of_lines, first_line_without_bits};
ghost use Rattle.gip_lines.specs.Vectors.Replies.{bits_text, LinesAreBinaryTexts};
ghost use Rattle.gip_lines.specs.Input.{IsTooLong, Fits};

mod lines;
mod replies;

use crate::fault::GipFault;
use crate::texts;
use crate::transfer::{read_all, write_all};
use crate::watched::Watched;
use giputils_bits::bitvec::BitVec;
use replies::replies_to;
use std::alloc::Allocator;
use std::io::{Read, Write};

/// Shows vectors of bits: reads the whole input, checks every line, makes the vector that each line writes, and then
/// writes for each its binary text, its hexadecimal text and its length, in one line.
///
/// A line is `[]`, or one or more digits `0` and `1`, the last bit first. Neither device may have failed, which
/// [`Watched::failed`] tells.
///
/// # Errors
/// - [`GipFault::Input`] where a read fails, or the input has more than [`INPUT_LIMIT`](crate::INPUT_LIMIT) bytes.
/// - [`GipFault::Line`] with the number of the first line of another form.
/// - [`GipFault::Memory`] where memory is refused.
/// - [`GipFault::Output`] where a write fails. What was written by then is open.
///
/// At the first three nothing was written. How much of the input was read is open where the input failed.
pub fn bits<A: Allocator + Copy, R: Read, W: Write>(
    alloc: A,
    reader: &mut Watched<R>,
    writer: &mut Watched<W>,
) -> Result<(), GipFault>
    requires reader { reader.old.has_failed ≡ false }
    requires writer { writer.old.has_failed ≡ false }

    // Success means that the whole input was read, and that its vectors and nothing else were written.
    ensures read_to_end { OnOk result (IsAtEnd (R.remaining reader.new.device)) }
    ensures fits { OnOk result (IfSome (R.remaining reader.old.device) Fits) }
    ensures are_bits { OnOk result (IfSome (R.remaining reader.old.device) AreBits) }
    ensures written { OnOk result (IfSome (R.remaining reader.old.device) (λ input.
        Appends (W.contents writer.old.device) (W.contents writer.new.device)
        (bits_text (bits_of_lines input)))) }

    // When each fault comes.
    ensures line { (number : ℕ) → IsErrOf result (GipFault.Line number) →
        IfSome (R.remaining reader.old.device) (λ input.
        Fits input × (first_line_without_bits input ≡ Some number)) }
    ensures line_read_to_end { (number : ℕ) → IsErrOf result (GipFault.Line number) →
        IsAtEnd (R.remaining reader.new.device) }
    ensures input { IsErrOf result GipFault.Input → reader.new.has_failed ≡ false →
        IsTooLong (R.remaining reader.old.device) }
    ensures reader_failed { reader.new.has_failed ≡ true → IsErrOf result GipFault.Input }
    ensures writer_failed { IsErrOf result GipFault.Output ↔ (writer.new.has_failed ≡ true) }
    ensures unwritten { IfErr result (λ fault. fault ≢ GipFault.Output → writer.new ≡ writer.old) }
{
    let input = read_all(alloc, reader)?;
    let lines: Vec<BitVec<A>, A> = texts::parse(alloc, &input)?;
    let text = replies_to(alloc, &lines)?;
    write_all(writer, &text)
}

/// A law of lines of bits, which callers of [`bits`] may cite: a line writes some bits exactly where it is their binary
/// text. So the reply to a line begins with the line.
pub const fn lines_are_binary_texts()
    ensures { LinesAreBinaryTexts }
{}
