//! The rows behind a header: a line each, but for the gates of the binary form, which are bytes.
ghost use Rattle.std.specs.Prelude.{◌≡◌, ◌<◌, ◌^◌, ℕ, List, Option, IfOk};
ghost use Rattle.gipmc_aiger.specs.Reading.{Gives};
ghost use Rattle.gipmc_aiger.specs.Circuits.{literal_of, variable_of, reset_of, defined_at, separated_at, input_at, latch_at, leading_at, literal_at, operands_at, written_operands_at, packed_operands_at, gate_at, rows_at, justice_at};
ghost use Rattle.gipmc_aiger.specs.WitnessCircuits.{register_at};
ghost use Rattle.gipmc_aiger.specs.declared.header.Header.{Header};

use crate::error::{Reason, Stop};
use crate::header::{Form, Header, Justice};
use crate::headers::GREATEST_COUNT;
use crate::numbers::{NEWLINE, SPACE, delta, expected, number, optional};
use gipmc_circuits::{And, Latch, Register};
use gipsat_cnf::Literal;
use std::alloc::Global;

// What a row says.
pub(crate) trait Row: Sized + Drop {
    // What the row at a place says, and the bytes behind it.
    ghost says: { Header → ℕ → List ℕ → Option (Self × List ℕ) };

    // Reads the row at a place.
    fn read<'a>(header: &Header, place: u32, bytes: &'a [u8]) -> Result<(Self, &'a [u8]), Stop>
        ensures { Gives (λ x. (x.0, x.1.now)) result (says header.now place bytes.now) };
}

// So many rows, and the bytes behind them.
pub(crate) fn rows<'a, T: Row>(
    alloc: Global,
    header: &Header,
    count: u32,
    bytes: &'a [u8],
) -> Result<(Vec<T>, &'a [u8]), Stop>
    ensures { Gives (λ x. (x.0.items, x.1.now)) result (rows_at (T.says header.now) 0 count bytes.now) }
{
    let mut rows = Vec::new(alloc);
    let mut rest = bytes;
    for place in 0..count {
        let (row, after) = T::read(header, place, rest)?;
        rows.push(row)?;
        rest = after;
    }
    Ok((rows, rest))
}

// The literal of a number: twice its variable, and 1 more for the negation.
pub(crate) fn literal_of(code: u32) -> Literal
    ensures { result ≡ literal_of code }
{
    Literal::new(code / 2, code % 2 == 0)
}

// The variable of a literal that is neither negated nor constant.
fn variable_of(code: u32, left: usize) -> Result<u32, Stop>
    ensures gives { Gives (λ x. x) result (variable_of code) }
    ensures small { IfOk result (λ x. x < 2 ^ 31) }
{
    if code % 2 == 1 {
        return Err(Stop::Refused(Reason::Defined, left));
    }
    if code == 0 {
        return Err(Stop::Refused(Reason::Defined, left));
    }
    Ok(code / 2)
}

// The variable that a row defines: in the binary form the one with this number, else that of the literal at the front.
fn defined<'a>(header: &Header, number: u64, bytes: &'a [u8]) -> Result<(u32, &'a [u8]), Stop>
    ensures gives { Gives (λ x. (x.0, x.1.now)) result (defined_at header.now number bytes.now) }
    ensures small { IfOk result (λ x. x.0 < 2 ^ 31) }
{
    match header.form {
        Form::Ascii => leading(header, bytes),
        Form::Binary => {
            if number > u64::from(header.sizes.maximum) {
                return Err(Stop::Refused(Reason::Counts, bytes.len()));
            }
            if number > GREATEST_VARIABLE {
                return Err(Stop::Refused(Reason::Great, bytes.len()));
            }
            Ok((number as u32, bytes))
        }
    }
}

// The variable of the literal at the front.
fn leading<'a>(header: &Header, bytes: &'a [u8]) -> Result<(u32, &'a [u8]), Stop>
    ensures gives { Gives (λ x. (x.0, x.1.now)) result (leading_at header.now bytes.now) }
    ensures small { IfOk result (λ x. x.0 < 2 ^ 31) }
{
    let (code, rest) = number(header.greatest_literal(), bytes)?;
    let variable = variable_of(code, bytes.len())?;
    Ok((variable, rest))
}

// What stands behind a byte; in the binary form there is no such byte.
fn separated<'a>(form: Form, byte: u8, bytes: &'a [u8]) -> Result<&'a [u8], Stop>
    ensures { Gives (λ rest. rest.now) result (separated_at form byte bytes.now) }
{
    match form {
        Form::Ascii => expected(byte, Reason::Separator, bytes),
        Form::Binary => Ok(bytes),
    }
}

impl Row for u32 {
    ghost says = { input_at };

    fn read<'a>(header: &Header, place: u32, bytes: &'a [u8]) -> Result<(u32, &'a [u8]), Stop> {
        let (variable, rest) = defined(header, u64::from(place) + 1, bytes)?;
        let rest = separated(header.form, NEWLINE, rest)?;
        Ok((variable, rest))
    }
}

impl Row for Literal {
    ghost says = { literal_at };

    fn read<'a>(
        header: &Header,
        _place: u32,
        bytes: &'a [u8],
    ) -> Result<(Literal, &'a [u8]), Stop> {
        let (code, rest) = number(header.greatest_literal(), bytes)?;
        let rest = expected(NEWLINE, Reason::Separator, rest)?;
        Ok((literal_of(code), rest))
    }
}

impl Row for Latch {
    ghost says = { latch_at };

    #[tactic(auto, unfolding(crate::specs::Circuits::latch_at))]
    fn read<'a>(header: &Header, place: u32, bytes: &'a [u8]) -> Result<(Latch, &'a [u8]), Stop> {
        let first = u64::from(header.sizes.inputs) + 1;
        let (variable, rest) = defined(header, first + u64::from(place), bytes)?;
        let rest = separated(header.form, SPACE, rest)?;
        let (next, rest) = number(header.greatest_literal(), rest)?;
        let (code, after) = optional(header.greatest_literal(), rest)?;
        let reset = reset_of(variable, code, rest.len())?;
        let rest = expected(NEWLINE, Reason::Separator, after)?;
        let latch = Latch {
            variable,
            next: literal_of(next),
            reset,
        };
        Ok((latch, rest))
    }
}

impl Row for Register {
    ghost says = { register_at };

    #[tactic(auto, unfolding(crate::specs::WitnessCircuits::register_at))]
    fn read<'a>(
        header: &Header,
        place: u32,
        bytes: &'a [u8],
    ) -> Result<(Register, &'a [u8]), Stop> {
        let first = u64::from(header.sizes.inputs) + 1;
        let (variable, rest) = defined(header, first + u64::from(place), bytes)?;
        let rest = separated(header.form, SPACE, rest)?;
        let (next, rest) = number(header.greatest_literal(), rest)?;
        let (code, rest) = optional(header.greatest_literal(), rest)?;
        let rest = expected(NEWLINE, Reason::Separator, rest)?;
        let register = Register {
            variable,
            next: literal_of(next),
            reset: literal_of(code.unwrap_or(0)),
        };
        Ok((register, rest))
    }
}

impl Row for Justice {
    ghost says = { justice_at };

    fn read<'a>(
        _header: &Header,
        _place: u32,
        bytes: &'a [u8],
    ) -> Result<(Justice, &'a [u8]), Stop> {
        let (literals, rest) = number(GREATEST_COUNT, bytes)?;
        let rest = expected(NEWLINE, Reason::Separator, rest)?;
        Ok((Justice { literals }, rest))
    }
}

// The reset of a latch by its number: 0, or 1, or the latch itself; 0 where there is none.
fn reset_of(variable: u32, code: Option<u32>, left: usize) -> Result<Option<bool>, Stop>
    ensures { Gives (λ x. x) result (reset_of variable code) }
{
    match code {
        None => Ok(Some(false)),
        Some(code) => {
            if code == 0 {
                return Ok(Some(false));
            }
            if code == 1 {
                return Ok(Some(true));
            }
            if u64::from(code) != 2 * u64::from(variable) {
                return Err(Stop::Refused(Reason::Reset, left));
            }
            Ok(None)
        }
    }
}

impl Row for And {
    ghost says = { gate_at };

    #[tactic(auto, unfolding(crate::specs::Circuits::gate_at))]
    fn read<'a>(header: &Header, place: u32, bytes: &'a [u8]) -> Result<(And, &'a [u8]), Stop> {
        let first = u64::from(header.sizes.inputs) + u64::from(header.sizes.latches) + 1;
        let (output, rest) = defined(header, first + u64::from(place), bytes)?;
        let (left, right, rest) = operands(header, output, rest)?;
        let gate = And {
            output,
            left: literal_of(left),
            right: literal_of(right),
        };
        Ok((gate, rest))
    }
}

// The numbers of the operands of a gate.
fn operands<'a>(header: &Header, output: u32, bytes: &'a [u8]) -> Result<(u32, u32, &'a [u8]), Stop>
    requires { output < 2 ^ 31 }
    ensures { Gives (λ x. (x.0, x.1, x.2.now)) result (operands_at header.now output bytes.now) }
{
    match header.form {
        Form::Ascii => written_operands(header, bytes),
        Form::Binary => packed_operands(output, bytes),
    }
}

// The numbers of the operands in the rest of a line.
#[tactic(auto, unfolding(crate::specs::Circuits::written_operands_at))]
fn written_operands<'a>(header: &Header, bytes: &'a [u8]) -> Result<(u32, u32, &'a [u8]), Stop>
    ensures { Gives (λ x. (x.0, x.1, x.2.now)) result (written_operands_at header.now bytes.now) }
{
    let rest = expected(SPACE, Reason::Separator, bytes)?;
    let (left, rest) = number(header.greatest_literal(), rest)?;
    let rest = expected(SPACE, Reason::Separator, rest)?;
    let (right, rest) = number(header.greatest_literal(), rest)?;
    let rest = expected(NEWLINE, Reason::Separator, rest)?;
    Ok((left, right, rest))
}

// The numbers of the operands by what they lie below the output and below one another.
#[tactic(auto, unfolding(crate::specs::Circuits::packed_operands_at))]
fn packed_operands(output: u32, bytes: &[u8]) -> Result<(u32, u32, &[u8]), Stop>
    requires { output < 2 ^ 31 }
    ensures { Gives (λ x. (x.0, x.1, x.2.now)) result (packed_operands_at output bytes.now) }
{
    let (below_output, rest) = delta(GROUPS, bytes)?;
    let (below_left, rest) = delta(GROUPS, rest)?;
    if below_output == 0 {
        return Err(Stop::Refused(Reason::Order, bytes.len()));
    }
    let sum = u64::from(below_output) + u64::from(below_left);
    if sum > u64::from(2 * output) {
        return Err(Stop::Refused(Reason::Order, bytes.len()));
    }
    let left = 2 * output - below_output;
    Ok((left, left - below_left, rest))
}

// The greatest variable of a literal.
const GREATEST_VARIABLE: u64 = 2_147_483_647;

// The most groups of a number in the binary form.
const GROUPS: u8 = 5;
