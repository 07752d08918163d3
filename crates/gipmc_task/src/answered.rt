//! Answers about properties, and their texts.
ghost use Rattle.std.specs.Prelude.{◌≡◌, ◌<◌, ◌^◌, ◌++◌, ◌∷◌, [], codes, decimal, IfOk, OnOk};
ghost use Rattle.gipmc_task.specs.Output.{IsWritten};
ghost use Rattle.gipmc_task.specs.Verdicts.{IsAnswerBy, answer_text, depth_text, named, place_of, text_of};
ghost use Rattle.gipmc_task.specs.Verdicts.{texts_of, together, trace_text};

use crate::outcome::Outcome;
use crate::output::Output;
use crate::verdict::Verdict;
use gipmc_aiger::{Property, write_lasso, write_witness};
use gipmc_circuits::Trace;
use gipmc_engines::{Event, Observer};
use std::alloc::{AllocError, Global};
use std::io::Write;

/// An answer about a property.
#[derive(Debug, Drop)]
pub struct Answered {
    /// The property.
    pub property: Property,
    /// The depths that were told before, each by a line `u N`: no trace of at most so many transitions fails.
    pub depths: Vec<usize>,
    /// What is known of the property.
    pub verdict: Verdict,
}

/// What is known of all properties that were answered about.
pub fn together(answers: &[Answered]) -> Outcome
    ensures { result ≡ together answers.now }
{
    let mut outcome = Outcome::Safe;
    for answer in answers {
        outcome = outcome.and(answer.verdict.outcome());
    }
    outcome
}

/// The list of one answer.
pub(crate) fn one(alloc: Global, answer: Answered) -> Result<Vec<Answered>, AllocError>
    ensures items { IfOk result (λ answers. answers.items ≡ answer ∷ []) }
    ensures text { IfOk result (λ answers. texts_of answers.items ≡ answer_text answer) }
{
    let mut answers = Vec::new(alloc);
    answers.reserve(1)?;
    answers.push_reserved(answer);
    Ok(answers)
}

/// Answers about a property: writes what is known of it, and tells an observer of a witness.
pub(crate) fn tell<O: Observer, W: Write>(
    alloc: Global,
    property: Property,
    verdict: Verdict,
    observer: &mut O,
    output: &mut Output<W>,
) -> Result<Answered, AllocError>
    ensures answer { IfOk result (IsAnswerBy property [] verdict) }
    ensures written { IfOk result (λ a. IsWritten output.old.failure output.new.failure
        (W.contents output.old.writer) (W.contents output.new.writer) (answer_text a)) }
{
    tell_behind(alloc, property, Vec::new(alloc), verdict, observer, output)
}

/// The same behind depths that were told.
pub(crate) fn tell_behind<O: Observer, W: Write>(
    alloc: Global,
    property: Property,
    depths: Vec<usize>,
    verdict: Verdict,
    observer: &mut O,
    output: &mut Output<W>,
) -> Result<Answered, AllocError>
    ensures answer { IfOk result (IsAnswerBy property depths.items verdict) }
    ensures written { IfOk result (λ a. IsWritten output.old.failure output.new.failure
        (W.contents output.old.writer) (W.contents output.new.writer) (text_of property verdict)) }
{
    let text = text_of(alloc, property, &verdict)?;
    output.tell(&text);
    note_witness(property, &verdict, &text, observer);
    Ok(Answered {
        property,
        depths,
        verdict,
    })
}

// Tells an observer of the text of what is known of a property, if that is a witness.
fn note_witness<O: Observer>(property: Property, verdict: &Verdict, text: &[u8], observer: &mut O) {
    if verdict.outcome() == Outcome::Fails {
        let place = place_of(property);
        let _ = observer.note(Event::Witness { place, text });
    }
}

// The place of a property among those of its kind.
fn place_of(property: Property) -> usize
    ensures { result ≡ place_of property }
{
    match property {
        Property::Bad(place) => place,
        Property::Justice(place) => place,
    }
}

// The greatest place of a property that a text may have.
const GREATEST: usize = 2_147_483_647;

// The text of what is known of a property.
fn text_of(alloc: Global, property: Property, verdict: &Verdict) -> Result<Vec<u8>, AllocError>
    ensures text { IfOk result (λ text. text.items ≡ text_of property verdict.now) }
    ensures small { IfOk result (λ text. place_of property < 2 ^ 31) }
{
    if place_of(property) > GREATEST {
        return Err(AllocError);
    }
    match verdict {
        Verdict::Fails(trace) => trace_text(alloc, property, trace),
        Verdict::Holds(_) => named(alloc, b"0", property),
        Verdict::ClearTo(depth) => within(alloc, *depth, property),
        Verdict::Unknown => named(alloc, b"2", property),
    }
}

// The text of a trace by which a property fails.
fn trace_text(alloc: Global, property: Property, trace: &Trace) -> Result<Vec<u8>, AllocError>
    requires { place_of property < 2 ^ 31 }
    ensures { IfOk result (λ text. text.items ≡ trace_text property trace.now) }
{
    match property {
        Property::Bad(place) => write_witness(alloc, place as u32, trace),
        Property::Justice(place) => write_lasso(alloc, place as u32, trace),
    }
}

// A status, and the lines that name a property.
fn named(alloc: Global, status: &[u8], property: Property) -> Result<Vec<u8>, AllocError>
    ensures { IfOk result (λ text. text.items ≡ status.now ++ named property) }
{
    let mut text = Vec::new(alloc);
    text.extend_from_slice(status)?;
    write_named(&mut text, property)?;
    Ok(text)
}

// The text where nothing fails up to a depth.
fn within(alloc: Global, depth: usize, property: Property) -> Result<Vec<u8>, AllocError>
    ensures { IfOk result (λ text. text.items ≡ depth_text depth ++ codes "2" ++ named property) }
{
    let mut text = depth_text(alloc, depth)?;
    text.extend_from_slice(b"2")?;
    write_named(&mut text, property)?;
    Ok(text)
}

/// The line that tells a depth.
pub(crate) fn depth_text(alloc: Global, depth: usize) -> Result<Vec<u8>, AllocError>
    ensures { IfOk result (λ text. text.items ≡ depth_text depth) }
{
    let mut text = Vec::new(alloc);
    text.extend_from_slice(b"u")?;
    write_number(&mut text, depth)?;
    text.extend_from_slice(b"\n")?;
    Ok(text)
}

// Writes the lines that name a property.
fn write_named(text: &mut Vec<u8>, property: Property) -> Result<(), AllocError>
    ensures { OnOk result (text.new.items ≡ text.old.items ++ named property) }
{
    match property {
        Property::Bad(place) => write_name(text, b"\nb", place),
        Property::Justice(place) => write_name(text, b"\nj", place),
    }
}

// Writes the same behind what stands before the place.
fn write_name(text: &mut Vec<u8>, before: &[u8], place: usize) -> Result<(), AllocError>
    ensures { OnOk result (text.new.items ≡ text.old.items ++ before.now ++ decimal place ++ codes "\n.\n") }
{
    text.extend_from_slice(before)?;
    write_number(text, place)?;
    text.extend_from_slice(b"\n.\n")?;
    Ok(())
}

// Writes a number.
fn write_number(text: &mut Vec<u8>, number: usize) -> Result<(), AllocError>
    ensures { OnOk result (text.new.items ≡ text.old.items ++ decimal number) }
{
    write!(text, "{number}").map_err(|_| AllocError)
}
