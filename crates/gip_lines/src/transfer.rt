//! The whole input in, and the whole output out.

// How it is proved: bytes in and out. A reader whose contract tells its bytes has `R.remaining
// device`, and such a writer has `W.contents`. `Appends` and `IsAtEnd` of `std.specs.Io.KnownBytes`
// state the bytes that were read and written.

ghost use Rattle.std.specs.Prelude.{◌≡◌, ◌<◌, ◌≤◌, false, is_err, length, take, vec_len, IfOk, IfErr, OnOk};
ghost use Rattle.std.specs.Io.KnownBytes.{Appends, Consumes, IsAtEnd};
ghost use Rattle.gip_lines.specs.Fault.{StopsReading};
ghost use Rattle.gip_lines.specs.Input.{input_limit};

use crate::fault::GipFault;
use crate::watched::Watched;
use std::alloc::{AllocError, Allocator};
use std::io::{Read, Write};

/// The greatest number of bytes in an input.
pub const INPUT_LIMIT: usize = 1_048_576;

// Reads all that the reader has left, in reads as large as they can be.
pub(crate) fn read_all<R: Read, A: Allocator>(
    alloc: A,
    reader: &mut Watched<R>,
) -> Result<Vec<u8, A>, GipFault>
    requires works { reader.old.has_failed ≡ false }
    ensures input { IfOk result (λ input.
        Consumes (R.remaining reader.old.device) (R.remaining reader.new.device) input.items) }
    ensures end { OnOk result (IsAtEnd (R.remaining reader.new.device)) }
    ensures fits { IfOk result (λ input. vec_len input ≤ input_limit) }
    ensures err { IfErr result (StopsReading reader.new.has_failed (R.remaining reader.old.device)) }
    ensures still_works { OnOk result (reader.new.has_failed ≡ false) }
{
    // One byte more than fits, so that an input that is too long shows.
    let mut input = zeros(alloc, INPUT_LIMIT + 1)?;
    let filled = fill(reader, &mut input)?;
    if filled > INPUT_LIMIT {
        return Err(GipFault::Input);
    }
    input.truncate(filled);
    Ok(input)
}

// So many zeros.
fn zeros<A: Allocator>(alloc: A, len: usize) -> Result<Vec<u8, A>, AllocError>
    ensures { IfOk result (λ zeros. vec_len zeros ≡ len) }
{
    vec![in alloc; 0u8; len]
}

// Reads until the buffer is full or the input ends, and says how many bytes it read.
fn fill<R: Read>(reader: &mut Watched<R>, buf: &mut [u8]) -> Result<usize, GipFault>
    requires works { reader.old.has_failed ≡ false }
    ensures bound { IfOk result (λ n. n ≤ length buf.new) }
    ensures bytes { IfOk result (λ n.
        Consumes (R.remaining reader.old.device) (R.remaining reader.new.device) (take n buf.new)) }
    ensures end { IfOk result (λ n. n < length buf.new → IsAtEnd (R.remaining reader.new.device)) }
    ensures failed { reader.new.has_failed ≡ is_err result }
    ensures err { IfErr result (λ fault. fault ≡ GipFault.Input) }
{
    let mut filled = 0;
    while filled < buf.len() {
        match reader.read(&mut buf[filled..]) {
            Ok(0) => return Ok(filled),
            Ok(n) => filled += n,
            Err(_) => return Err(GipFault::Input),
        }
    }
    Ok(filled)
}

// Writes all of a text, however much of it each write takes.
pub(crate) fn write_all<W: Write>(writer: &mut Watched<W>, text: &[u8]) -> Result<(), GipFault>
    requires works { writer.old.has_failed ≡ false }
    ensures ok { OnOk result (Appends (W.contents writer.old.device) (W.contents writer.new.device) text.now) }
    ensures failed { writer.new.has_failed ≡ is_err result }
    ensures err { IfErr result (λ fault. fault ≡ GipFault.Output) }
{
    let mut rest = text;
    while !rest.is_empty() {
        match writer.write(rest) {
            Ok(0) => return Err(GipFault::Output),
            Ok(n) => rest = &rest[n..],
            Err(_) => return Err(GipFault::Output),
        }
    }
    Ok(())
}
