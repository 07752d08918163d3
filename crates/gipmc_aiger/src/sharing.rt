//! Which inputs and latches a certificate shares with the circuit that it certifies.
ghost use Rattle.std.specs.Prelude.{◌≡◌, ◌++◌, [], ◌∷◌, map, slice_get, IfOk, OnOk};
ghost use Rattle.std.specs.Option.{option_to_list};
ghost use Rattle.giputils_text.specs.Lines.{text_lines};
ghost use Rattle.gipmc_circuits.specs.WellFormed.{latch_variables};
ghost use Rattle.gipmc_aiger.specs.Reading.{Gives};
ghost use Rattle.gipmc_aiger.specs.Sharing.{link_at, link_in, linked, links_by_place, links_in, number_named, shared_with, variable_at};

use crate::error::{Reason, Stop};
use crate::numbers::{SPACE, expected, number};
use crate::rows::literal_of;
use crate::tails::{GREATEST_PLACE, begins_comment};
use gipmc_circuits::{Circuit, Link, Register};
use gipsat_cnf::Literal;
use giputils_text::split_line;
use std::alloc::{AllocError, Global};

/// The inputs and latches that symbols name `= n`, each with the literal of number n. Where there is no such symbol,
/// inputs and latches with those of the circuit that stand at the same places.
///
/// # Errors
/// `AllocError` where memory is refused, or where a variable of the circuit is 2^31 or more.
pub(crate) fn shared(
    alloc: Global,
    circuit: &Circuit,
    inputs: &[u32],
    registers: &[Register],
    symbols: &[u8],
) -> Result<Vec<Link>, AllocError>
    ensures { IfOk result
        (λ links. links.items ≡ shared_with circuit.now inputs.now registers.now symbols.now) }
{
    let latches = register_variables(alloc, registers)?;
    let links = by_names(alloc, inputs, &latches, symbols)?;
    if links.is_empty() {
        return in_order(alloc, circuit, inputs, &latches);
    }
    Ok(links)
}

// The variables of the latches.
fn register_variables(alloc: Global, registers: &[Register]) -> Result<Vec<u32>, AllocError>
    ensures { IfOk result (λ all. all.items ≡ map (λ r. r.variable) registers.now) }
{
    registers.iter().map(|r| r.variable).collect(alloc)
}

// The inputs and latches that symbols name `= n`.
fn by_names(
    alloc: Global,
    inputs: &[u32],
    latches: &[u32],
    symbols: &[u8],
) -> Result<Vec<Link>, AllocError>
    ensures { IfOk result
        (λ links. links.items ≡ links_in inputs.now latches.now (text_lines symbols.now)) }
{
    let mut links = Vec::new(alloc);
    let mut rest = symbols;
    while let Some((line, after)) = split_line(rest) {
        if begins_comment(line) {
            return Ok(links);
        }
        push_named(&mut links, inputs, latches, line)?;
        rest = after;
    }
    Ok(links)
}

// Adds the link that a line states, if it states one.
fn push_named(
    links: &mut Vec<Link>,
    inputs: &[u32],
    latches: &[u32],
    line: &[u8],
) -> Result<(), AllocError>
    ensures { OnOk result (links.new.items
        ≡ links.old.items ++ option_to_list (link_in inputs.now latches.now line.now)) }
{
    match link_in(inputs, latches, line) {
        Ok(link) => {
            links.push(link)?;
            Ok(())
        }
        Err(Stop::Memory) => Err(AllocError),
        Err(Stop::Refused(_, _)) => Ok(()),
    }
}

// The link that a line states: a symbol of an input or a latch, whose name is `= n`.
fn link_in(inputs: &[u32], latches: &[u32], line: &[u8]) -> Result<Link, Stop>
    ensures { Gives (λ x. x) result (link_in inputs.now latches.now line.now) }
{
    match line {
        [kind, rest @ ..] => link_at(inputs, latches, *kind, rest),
        [] => Err(Stop::Refused(Reason::Symbol, 0)),
    }
}

// The same behind the kind of the row.
fn link_at(inputs: &[u32], latches: &[u32], kind: u8, bytes: &[u8]) -> Result<Link, Stop>
    ensures { Gives (λ x. x) result (link_at inputs.now latches.now kind bytes.now) }
{
    let (place, rest) = number(GREATEST_PLACE, bytes)?;
    let name = expected(SPACE, Reason::Separator, rest)?;
    let code = number_named(name)?;
    let variable = variable_at(inputs, latches, kind, place)?;
    Ok(Link {
        variable,
        literal: literal_of(code),
    })
}

// The number n of a name `= n`.
fn number_named(name: &[u8]) -> Result<u32, Stop>
    ensures { Gives (λ x. x) result (number_named name.now) }
{
    let rest = expected(b'=', Reason::Symbol, name)?;
    let rest = expected(SPACE, Reason::Symbol, rest)?;
    let (code, rest) = number(u32::MAX, rest)?;
    if !rest.is_empty() {
        return Err(Stop::Refused(Reason::Symbol, rest.len()));
    }
    Ok(code)
}

// The variable of the input or the latch at a place.
fn variable_at(inputs: &[u32], latches: &[u32], kind: u8, place: u32) -> Result<u32, Stop>
    ensures { Gives (λ x. x) result (variable_at inputs.now latches.now kind place) }
{
    match kind {
        b'i' => item_at(inputs, place),
        b'l' => item_at(latches, place),
        _ => Err(Stop::Refused(Reason::Symbol, 0)),
    }
}

// The variable at a place of a list.
fn item_at(variables: &[u32], place: u32) -> Result<u32, Stop>
    ensures { Gives (λ x. x) result (slice_get variables.now place) }
{
    match variables.get(place as usize) {
        Some(variable) => Ok(*variable),
        None => Err(Stop::Refused(Reason::Symbol, 0)),
    }
}

// Inputs and latches with those of the circuit at the same places.
fn in_order(
    alloc: Global,
    circuit: &Circuit,
    inputs: &[u32],
    latches: &[u32],
) -> Result<Vec<Link>, AllocError>
    ensures { IfOk result (λ links. links.items
        ≡ links_by_place inputs.now circuit.now.inputs.items
        ++ links_by_place latches.now (latch_variables circuit.now)) }
{
    let others = latch_variables(alloc, circuit)?;
    let mut links = Vec::new(alloc);
    push_by_place(&mut links, inputs, &circuit.inputs)?;
    push_by_place(&mut links, latches, &others)?;
    Ok(links)
}

// The variables of the latches of a circuit.
fn latch_variables(alloc: Global, circuit: &Circuit) -> Result<Vec<u32>, AllocError>
    ensures { IfOk result (λ all. all.items ≡ latch_variables circuit.now) }
{
    circuit.latches.iter().map(|l| l.variable).collect(alloc)
}

// Adds links of variables with those at the same places of another list.
fn push_by_place(links: &mut Vec<Link>, own: &[u32], others: &[u32]) -> Result<(), AllocError>
    ensures { OnOk result (links.new.items ≡ links.old.items ++ links_by_place own.now others.now) }
{
    for place in 0..own.len().min(others.len()) {
        push_link(links, own[place], others[place])?;
    }
    Ok(())
}

// Adds a link of a variable with another one, if a literal has room for that.
fn push_link(links: &mut Vec<Link>, variable: u32, other: u32) -> Result<(), AllocError>
    ensures { OnOk result (links.new.items ≡ links.old.items ++ linked (variable, other) ∷ []) }
{
    if other >= 1 << 31 {
        return Err(AllocError);
    }
    links.push(Link {
        variable,
        literal: Literal::new(other, true),
    })?;
    Ok(())
}
