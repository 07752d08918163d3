//! All witnesses of a text: answers in HWMCC's form, one behind another, or a trace in abc's form.
ghost use Rattle.std.specs.Prelude.{◌≡◌, ◌≤◌, false, None, Some, length, IfErr, IfOk, IsErrOf};
ghost use Rattle.std.specs.List.{list_any};
ghost use Rattle.gipmc_aiger.specs.Claims.{bare_alone, bare_frames_of, bare_of, before_mark, behind_end, begins_with, claim_of, claim_view, claims_from, claims_of, claims_view, is_last, is_other_status, is_passed, lassos_of, place_of, places_of, properties_at, properties_of};
ghost use Rattle.gipmc_aiger.specs.Reading.{Gives, IsReadError};
ghost use Rattle.gipmc_aiger.specs.Witnesses.{frames_view, said_lines};
ghost use Rattle.giputils_text.specs.Lines.{pieces};

use crate::error::{AigerError, Place, Reason, Stop};
use crate::numbers::number;
use crate::place::error_at;
use crate::witness::{
    GREATEST_PROPERTY, bits, bits_in, frames, is_end, is_status, left_at, said_line, status,
};
use gipmc_circuits::Trace;
use giputils_text::split_once;
use std::alloc::Global;

/// What a witness claims: that its trace makes bad literals true at its last moment, or that it is a lasso of justice
/// properties.
pub struct Claim {
    /// The places of these bad literals or justice properties among those of the circuit. A trace in abc's form names
    /// none.
    pub properties: Vec<u32>,
    /// The trace.
    pub trace: Trace,
}

// One call in its owners' proofs, in place of one for each field.
impl Drop for Claim {
    fn drop(self) {
        let Claim { properties, trace } = self;
    }
}

/// Reads the witnesses of all answers of a text about bad literals, for a circuit of so many latches and inputs. Answers
/// that begin with the line `0` or `2` have none, and those about justice properties are read over. A witness may name
/// several bad literals: `b0b1`. An `x` is read as 0, and lines that begin with `c` or `u` are read over.
///
/// Where a line has a `#`, the text is a trace in the form that abc writes by `write_cex -a`: a line for the latches at
/// first and for the inputs at each moment, and the `#` behind the last one.
///
/// # Errors
/// - [`AigerError::Refused`] with the line and the reason where the text has another form.
/// - [`AigerError::Memory`] where memory is refused.
pub fn read_claims(
    alloc: Global,
    latches: usize,
    inputs: usize,
    text: &[u8],
) -> Result<Vec<Claim>, AigerError>
    ensures ok { IfOk result (λ claims. claims_of latches inputs text.now ≡ Some (claims_view claims.items)) }
    ensures refused { (place : Place) (reason : Reason) → IsErrOf result (AigerError.Refused place reason) →
        claims_of latches inputs text.now ≡ None }
    ensures errors { IfErr result IsReadError }
{
    match claims(alloc, latches, inputs, text) {
        Ok(claims) => Ok(claims),
        Err(stop) => Err(error_at(text, stop)),
    }
}

/// Reads the witnesses of all answers of a text about justice properties, for a circuit of so many latches and inputs.
/// Answers that begin with the line `0` or `2` have none, and those about bad literals are read over. A witness may name
/// several justice properties: `j0j1`. An `x` is read as 0, and lines that begin with `c` or `u` are read over. A trace in
/// the form that abc writes is one of a bad literal, so there is none in it.
///
/// # Errors
/// - [`AigerError::Refused`] with the line and the reason where the text has another form.
/// - [`AigerError::Memory`] where memory is refused.
pub fn read_lassos(
    alloc: Global,
    latches: usize,
    inputs: usize,
    text: &[u8],
) -> Result<Vec<Claim>, AigerError>
    ensures ok { IfOk result (λ claims. lassos_of latches inputs text.now ≡ Some (claims_view claims.items)) }
    ensures refused { (place : Place) (reason : Reason) → IsErrOf result (AigerError.Refused place reason) →
        lassos_of latches inputs text.now ≡ None }
    ensures errors { IfErr result IsReadError }
{
    match lassos(alloc, latches, inputs, text) {
        Ok(claims) => Ok(claims),
        Err(stop) => Err(error_at(text, stop)),
    }
}

// The claims of a text.
fn claims(alloc: Global, latches: usize, inputs: usize, text: &[u8]) -> Result<Vec<Claim>, Stop>
    ensures { Gives (λ v. claims_view v.items) result (claims_of latches inputs text.now) }
{
    if is_bare(text) {
        return bare_alone(alloc, latches, inputs, text);
    }
    answered(alloc, b'b', b'j', latches, inputs, text)
}

// The claims of a text about justice properties.
fn lassos(alloc: Global, latches: usize, inputs: usize, text: &[u8]) -> Result<Vec<Claim>, Stop>
    ensures { Gives (λ v. claims_view v.items) result (lassos_of latches inputs text.now) }
{
    if is_bare(text) {
        return Ok(Vec::new(alloc));
    }
    answered(alloc, b'j', b'b', latches, inputs, text)
}

// Whether a text has a line that is the last one in abc's form.
fn is_bare(text: &[u8]) -> bool
    ensures { result ≡ list_any is_last (said_lines text.now) }
{
    let mut rest = text;
    while let Some((line, after)) = said_line(rest) {
        if is_last(line) {
            return true;
        }
        rest = after;
    }
    false
}

// Whether a line has a `#`.
fn is_last(line: &[u8]) -> bool
    ensures { result ≡ is_last line.now }
{
    line.iter().any(|byte| *byte == b'#')
}

// The claim of a text in abc's form.
fn bare_alone(alloc: Global, latches: usize, inputs: usize, text: &[u8]) -> Result<Vec<Claim>, Stop>
    ensures { Gives (λ v. claims_view v.items) result (bare_alone latches inputs (said_lines text.now)) }
{
    let claim = bare(alloc, latches, inputs, text)?;
    let mut claims = Vec::new(alloc);
    claims.push(claim)?;
    Ok(claims)
}

// The same alone.
#[tactic(auto, unfolding(crate::specs::Claims::bare_of))]
fn bare(alloc: Global, latches: usize, inputs: usize, text: &[u8]) -> Result<Claim, Stop>
    ensures { Gives claim_view result (bare_of latches inputs (said_lines text.now)) }
{
    let (latches, rest) = bits(alloc, latches, text)?;
    let inputs = bare_frames(alloc, inputs, rest)?;
    let trace = Trace { latches, inputs };
    Ok(Claim {
        properties: Vec::new(alloc),
        trace,
    })
}

// The values at each moment, up to the last one.
fn bare_frames(alloc: Global, count: usize, text: &[u8]) -> Result<Vec<Vec<bool>>, Stop>
    ensures { Gives (λ v. frames_view v.items) result (bare_frames_of count (said_lines text.now)) }
{
    let mut frames = Vec::new(alloc);
    let mut rest = text;
    while let Some((line, after)) = said_line(rest) {
        if is_last(line) {
            let frame = bits_in(alloc, count, before_mark(line), left_at(line, after))?;
            frames.push(frame)?;
            return Ok(frames);
        }
        let frame = bits_in(alloc, count, line, left_at(line, after))?;
        frames.push(frame)?;
        rest = after;
    }
    Err(Stop::Refused(Reason::End, 0))
}

// What stands before the first `#` of a line.
fn before_mark(line: &[u8]) -> &[u8]
    ensures { result.now ≡ before_mark line.now }
{
    let (before, _) = split_once(line, b'#');
    before
}

// The claims of the answers of a text about properties with this letter. Those with the other letter are read over.
fn answered(
    alloc: Global,
    letter: u8,
    other: u8,
    latches: usize,
    inputs: usize,
    text: &[u8],
) -> Result<Vec<Claim>, Stop>
    ensures { Gives (λ v. claims_view v.items) result
        (claims_from letter other latches inputs false (said_lines text.now)) }
{
    let mut claims = Vec::new(alloc);
    let mut rest = text;
    while let Some((line, after)) = said_line(rest) {
        if is_passed(other, line, after) {
            rest = behind(after);
            continue;
        }
        let claim = claim_at(alloc, letter, latches, inputs, rest)?;
        claims.push(claim)?;
        rest = behind(after);
    }
    Ok(claims)
}

// Whether an answer that begins with a line, and goes on with a text, has no witness, or one of properties with this
// other letter.
fn is_passed(other: u8, line: &[u8], text: &[u8]) -> bool
    ensures { result ≡ is_passed other line.now (said_lines text.now) }
{
    is_other_status(line) || (is_status(line) && begins_with(other, text))
}

// Whether the first line begins with this letter.
fn begins_with(letter: u8, text: &[u8]) -> bool
    ensures { result ≡ begins_with letter (said_lines text.now) }
{
    let Some((line, _)) = said_line(text) else {
        return false;
    };
    match line {
        [first, ..] => *first == letter,
        [] => false,
    }
}

// The claim at the front of a text.
#[tactic(auto, unfolding(crate::specs::Claims::claim_of))]
fn claim_at(
    alloc: Global,
    letter: u8,
    latches: usize,
    inputs: usize,
    text: &[u8],
) -> Result<Claim, Stop>
    ensures { Gives claim_view result (claim_of letter latches inputs (said_lines text.now)) }
{
    let rest = status(text)?;
    let (properties, rest) = properties(alloc, letter, rest)?;
    let (latches, rest) = bits(alloc, latches, rest)?;
    let inputs = frames(alloc, inputs, rest)?;
    let trace = Trace { latches, inputs };
    Ok(Claim { properties, trace })
}

// Whether an answer without a witness begins with a line: `0` or `2`.
fn is_other_status(line: &[u8]) -> bool
    ensures { result ≡ is_other_status line.now }
{
    match line {
        [first, rest @ ..] => (*first == b'0' || *first == b'2') && rest.is_empty(),
        [] => false,
    }
}

// What stands behind the line that ends an answer.
fn behind(text: &[u8]) -> &[u8]
    ensures lines { said_lines result.now ≡ behind_end (said_lines text.now) }
    ensures shorter { length result.now ≤ length text.now }
{
    let mut rest = text;
    while let Some((line, after)) = said_line(rest) {
        if is_end(line) {
            return after;
        }
        rest = after;
    }
    rest
}

// The properties that a line names behind this letter, and the text behind it.
fn properties(alloc: Global, letter: u8, text: &[u8]) -> Result<(Vec<u32>, &[u8]), Stop>
    ensures { Gives (λ x. (x.0.items, said_lines x.1.now)) result (properties_at letter (said_lines text.now)) }
{
    let Some((line, rest)) = said_line(text) else {
        return Err(Stop::Refused(Reason::End, 0));
    };
    match properties_of(alloc, letter, line) {
        Ok(properties) => Ok((properties, rest)),
        Err(Stop::Memory) => Err(Stop::Memory),
        Err(Stop::Refused(reason, _)) => Err(Stop::Refused(reason, left_at(line, rest))),
    }
}

// The properties that a line names behind this letter.
fn properties_of(alloc: Global, letter: u8, line: &[u8]) -> Result<Vec<u32>, Stop>
    ensures { Gives (λ v. v.items) result (properties_of letter line.now) }
{
    let (front, words) = split_once(line, letter);
    if !front.is_empty() {
        return Err(Stop::Refused(Reason::Property, 0));
    }
    match words {
        Some(words) => places(alloc, letter, words),
        None => Err(Stop::Refused(Reason::Property, 0)),
    }
}

// The places between these letters of a text.
fn places(alloc: Global, letter: u8, text: &[u8]) -> Result<Vec<u32>, Stop>
    ensures { Gives (λ v. v.items) result (places_of (pieces letter text.now)) }
{
    let mut places = Vec::new(alloc);
    let mut rest = text;
    loop {
        let (word, after) = split_once(rest, letter);
        let place = place_of(word)?;
        places.push(place)?;
        match after {
            Some(after) => rest = after,
            None => return Ok(places),
        }
    }
}

// The place that a word writes.
fn place_of(word: &[u8]) -> Result<u32, Stop>
    ensures { Gives (λ n. n) result (place_of word.now) }
{
    let (place, rest) = number(GREATEST_PROPERTY, word)?;
    if !rest.is_empty() {
        return Err(Stop::Refused(Reason::Property, 0));
    }
    Ok(place)
}
