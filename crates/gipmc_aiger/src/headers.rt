//! A reader of headers.
ghost use Rattle.std.specs.Prelude.{◌≡◌, ◌<◌, ◌^◌, None, IfOk, IsErrOf};
ghost use Rattle.gipmc_aiger.specs.Reading.{Gives};
ghost use Rattle.gipmc_aiger.specs.Circuits.{form_at, letter_at, count_at, optional_count_at, sizes_at, properties_at, header_at, has_counts, IsHeaderOf};

use crate::error::{AigerError, Place, Reason, Stop};
use crate::header::{Form, Header, Properties, Sizes};
use crate::numbers::{NEWLINE, SPACE, expected, number, optional};
use crate::place::error_at;

// The greatest number of a header.
pub(crate) const GREATEST_COUNT: u32 = 2_147_483_647;

// The form that the first word names.
fn form(bytes: &[u8]) -> Result<(Form, &[u8]), Stop>
    ensures { Gives (λ x. (x.0, x.1.now)) result (form_at bytes.now) }
{
    let rest = expected(b'a', Reason::Format, bytes)?;
    let (form, rest) = letter(rest)?;
    let rest = expected(b'g', Reason::Format, rest)?;
    Ok((form, rest))
}

// The form that a second letter names.
fn letter(bytes: &[u8]) -> Result<(Form, &[u8]), Stop>
    ensures { Gives (λ x. (x.0, x.1.now)) result (letter_at bytes.now) }
{
    match bytes {
        [letter, rest @ ..] => {
            if *letter == b'a' {
                return Ok((Form::Ascii, rest));
            }
            if *letter == b'i' {
                return Ok((Form::Binary, rest));
            }
            Err(Stop::Refused(Reason::Format, bytes.len()))
        }
        [] => Err(Stop::Refused(Reason::Format, 0)),
    }
}

// A number behind a space.
fn count(bytes: &[u8]) -> Result<(u32, &[u8]), Stop>
    ensures gives { Gives (λ x. (x.0, x.1.now)) result (count_at bytes.now) }
    ensures small { IfOk result (λ x. x.0 < 2 ^ 31) }
{
    let rest = expected(SPACE, Reason::Separator, bytes)?;
    number(GREATEST_COUNT, rest)
}

// The number behind a space, or 0 where no space follows.
fn optional_count(bytes: &[u8]) -> Result<(u32, &[u8]), Stop>
    ensures { Gives (λ x. (x.0, x.1.now)) result (optional_count_at bytes.now) }
{
    let (count, rest) = optional(GREATEST_COUNT, bytes)?;
    Ok((count.unwrap_or(0), rest))
}

// The first five numbers.
#[tactic(auto, unfolding(crate::specs::Circuits::sizes_at))]
fn sizes(bytes: &[u8]) -> Result<(Sizes, &[u8]), Stop>
    ensures { Gives (λ x. (x.0, x.1.now)) result (sizes_at bytes.now) }
{
    let (maximum, rest) = count(bytes)?;
    let (inputs, rest) = count(rest)?;
    let (latches, rest) = count(rest)?;
    let (outputs, rest) = count(rest)?;
    let (gates, rest) = count(rest)?;
    let sizes = Sizes {
        maximum,
        inputs,
        latches,
        outputs,
        gates,
    };
    Ok((sizes, rest))
}

// The other four numbers.
#[tactic(auto, unfolding(crate::specs::Circuits::properties_at))]
fn properties(bytes: &[u8]) -> Result<(Properties, &[u8]), Stop>
    ensures { Gives (λ x. (x.0, x.1.now)) result (properties_at bytes.now) }
{
    let (bads, rest) = optional_count(bytes)?;
    let (constraints, rest) = optional_count(rest)?;
    let (justice, rest) = optional_count(rest)?;
    let (fairness, rest) = optional_count(rest)?;
    let properties = Properties {
        bads,
        constraints,
        justice,
        fairness,
    };
    Ok((properties, rest))
}

// Whether the variables are enough for inputs, latches and gates, and in the binary form no more.
fn has_counts(form: Form, sizes: &Sizes) -> bool
    ensures { result ≡ has_counts form sizes.now }
{
    let defined = u64::from(sizes.inputs) + u64::from(sizes.latches) + u64::from(sizes.gates);
    match form {
        Form::Ascii => defined <= u64::from(sizes.maximum),
        Form::Binary => defined == u64::from(sizes.maximum),
    }
}

// The header at the front of a text, and the bytes behind its line.
#[tactic(auto, unfolding(crate::specs::Circuits::header_at))]
pub(crate) fn header(bytes: &[u8]) -> Result<(Header, &[u8]), Stop>
    ensures { Gives (λ x. (x.0, x.1.now)) result (header_at bytes.now) }
{
    let (form, rest) = form(bytes)?;
    let (sizes, rest) = sizes(rest)?;
    let (properties, rest) = properties(rest)?;
    let rest = expected(NEWLINE, Reason::Separator, rest)?;
    if !has_counts(form, &sizes) {
        return Err(Stop::Refused(Reason::Counts, rest.len().saturating_add(1)));
    }
    let header = Header {
        form,
        sizes,
        bads: properties.bads,
        constraints: properties.constraints,
        justice: properties.justice,
        fairness: properties.fairness,
    };
    Ok((header, rest))
}

/// Reads the header of the text of a circuit: which form it has, and how many rows of each kind.
///
/// # Errors
/// [`AigerError::Refused`] where the text does not begin with a header.
pub fn read_header(text: &[u8]) -> Result<Header, AigerError>
    ensures ok { IfOk result (IsHeaderOf text.now) }
    ensures refused { (place : Place) (reason : Reason) → IsErrOf result (AigerError.Refused place reason) →
        header_at text.now ≡ None }
{
    match header(text) {
        Ok((header, _)) => Ok(header),
        Err(stop) => Err(error_at(text, stop)),
    }
}
