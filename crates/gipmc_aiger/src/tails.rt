//! What may stand behind the gates: symbols, and a comment.
ghost use Rattle.std.specs.Prelude.{◌≡◌};
ghost use Rattle.gipmc_aiger.specs.Reading.{Gives};
ghost use Rattle.gipmc_aiger.specs.Tails.{Tells, begins_comment, begins_number, count_of, is_tail, name_at, symbol_at};

use crate::error::{Reason, Stop};
use crate::header::Header;
use crate::numbers::{SPACE, expected, number};
use giputils_text::split_line;

// Reads over symbols and a comment.
pub(crate) fn tail(header: &Header, bytes: &[u8]) -> Result<(), Stop>
    ensures { Tells result (is_tail header.now bytes.now) }
{
    let mut rest = bytes;
    while let Some((line, after)) = split_line(rest) {
        if begins_comment(line) {
            return Ok(());
        }
        match symbol(header, line) {
            Ok(_) => rest = after,
            Err(Stop::Memory) => return Err(Stop::Memory),
            Err(Stop::Refused(_, _)) => return Err(Stop::Refused(Reason::Symbol, rest.len())),
        }
    }
    Ok(())
}

// Whether a comment begins with a line.
pub(crate) fn begins_comment(line: &[u8]) -> bool
    ensures { result ≡ begins_comment line.now }
{
    match line {
        [first, rest @ ..] => *first == b'c' && !begins_number(rest),
        [] => false,
    }
}

// Whether a digit stands at the front.
fn begins_number(bytes: &[u8]) -> bool
    ensures { result ≡ begins_number bytes.now }
{
    match bytes {
        [first, ..] => first.is_ascii_digit(),
        [] => false,
    }
}

// How many rows of a kind there are.
fn count_of(header: &Header, kind: u8) -> u32
    ensures { result ≡ count_of header.now kind }
{
    match kind {
        b'i' => header.sizes.inputs,
        b'l' => header.sizes.latches,
        b'o' => header.sizes.outputs,
        b'b' => header.bads,
        b'c' => header.constraints,
        b'j' => header.justice,
        b'f' => header.fairness,
        _ => 0,
    }
}

// The name that a line gives to a row.
fn symbol<'a>(header: &Header, line: &'a [u8]) -> Result<&'a [u8], Stop>
    ensures { Gives (λ x. x.now) result (symbol_at header.now line.now) }
{
    match line {
        [kind, rest @ ..] => name(count_of(header, *kind), rest),
        [] => Err(Stop::Refused(Reason::Symbol, 0)),
    }
}

// The name behind a place below this count and a space.
fn name(count: u32, bytes: &[u8]) -> Result<&[u8], Stop>
    ensures { Gives (λ x. x.now) result (name_at count bytes.now) }
{
    let (place, rest) = number(GREATEST_PLACE, bytes)?;
    let name = expected(SPACE, Reason::Separator, rest)?;
    if place >= count {
        return Err(Stop::Refused(Reason::Symbol, bytes.len()));
    }
    Ok(name)
}

// The greatest place that a symbol may name.
pub(crate) const GREATEST_PLACE: u32 = 2_147_483_647;
