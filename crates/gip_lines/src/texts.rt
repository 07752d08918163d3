//! What the lines of a text say.

// How it is proved: the parser's loop has the invariant `readings text ≡ map Some lines ++ readings rest`. Several
// forms share it by a private trait with a ghost member `form`. `position` on a slice is read by
// `position_from_yields_List` and `YieldsList-from_slice` (`proofs/Readings`).

ghost use Rattle.std.specs.Prelude.{◌≡◌, ℕ, List, Option, map, IfOk, IfErr};
ghost use Rattle.gip_lines.specs.Fault.{StopsParsing};
ghost use Rattle.gip_lines.specs.Texts.{readings};

use crate::fault::GipFault;
use giputils_text::split_line;
use std::alloc::{AllocError, Allocator};

// What a line of one kind says.
pub(crate) trait Said<A: Allocator>: Sized + Drop {
    // What a line says, where it has the form.
    ghost form: { List ℕ → Option Self };

    // What a line says, without its line feed. There is none where it has another form.
    fn read(alloc: A, line: &[u8]) -> Result<Option<Self>, AllocError>
        ensures { IfOk result (λ said. said ≡ form line.now) };
}

// What the lines of a text say, line by line.
pub(crate) fn parse<L: Said<A>, A: Allocator + Copy>(
    alloc: A,
    text: &[u8],
) -> Result<Vec<L, A>, GipFault>
    ensures ok { IfOk result (λ lines. readings L.form text.now ≡ map Some lines.items) }
    ensures err { IfErr result (StopsParsing L.form text.now) }
{
    let mut lines = Vec::new(alloc);
    let mut rest = text;
    while let Some((line, after)) = split_line(rest) {
        match L::read(alloc, line)? {
            Some(line) => lines.push(line)?,
            None => return Err(GipFault::Line(lines.len() + 1)),
        }
        rest = after;
    }
    Ok(lines)
}
