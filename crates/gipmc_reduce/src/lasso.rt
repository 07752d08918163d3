//! Lassos: traces that lead back to one of their moments, and whether they show that a circuit is not live.
ghost use Rattle.std.specs.Prelude.{◌≡◌, ◌++◌, ◌<◌, filter, length, not, IfOk, IfSome, IsTrue};
ghost use Rattle.gipsat_cnf.specs.Prelude.{assignment_in, is_true};
ghost use Rattle.gipmc_circuits.specs.Traces.{fits, have_width};
ghost use Rattle.gipmc_reduce.specs.Lassos.{IsLasso, IsReachedBy, Loops, from};
ghost use Rattle.gipmc_reduce.specs.Liveness.{FailsForever};

use gipmc_circuits::trace::{advance, begin};
use gipmc_circuits::{Circuit, Netlist, Trace};
use gipsat_cnf::Literal;
use std::alloc::{AllocError, Global};

/// A lasso: a trace, from whose last moment one more transition leads back to one of its moments. There its loop starts.
#[derive(Debug, Drop)]
pub struct Lasso {
    /// Its moments: those before the loop, and then those of the loop.
    pub trace: Trace,
    /// The place of the moment at which the loop starts, counted from 0.
    pub start: usize,
}

// The value of a variable, false past the end.
fn value_of(values: &[bool], variable: u32) -> bool
    ensures { result ≡ assignment_in values.now variable }
{
    values.get(variable as usize).copied().unwrap_or(false)
}

// Whether the literal is true.
fn is_true(values: &[bool], l: Literal) -> bool
    ensures { result ≡ is_true (assignment_in values.now) l }
{
    value_of(values, l.variable()) == l.is_positive()
}

// The literals that are not true.
fn not_met(alloc: Global, values: &[bool], literals: &[Literal]) -> Result<Vec<Literal>, AllocError>
    ensures { IfOk result
        (λ left. left.items ≡ filter (λ l. not (is_true (assignment_in values.now) l)) literals.now) }
{
    let mut left = Vec::new(alloc);
    for l in literals {
        if is_true(values, *l) {
            continue;
        }
        left.push(*l)?;
    }
    Ok(left)
}

// Whether the values are the same.
fn are_same(left: &[bool], right: &[bool]) -> bool
    ensures { IsTrue result → left.now ≡ right.now }
{
    left == right
}

// The literals of both lists.
pub(crate) fn both(
    alloc: Global,
    fairness: &[Literal],
    justice: &[Literal],
) -> Result<Vec<Literal>, AllocError>
    ensures { IfOk result (λ both. both.items ≡ fairness.now ++ justice.now) }
{
    let mut both = Vec::new(alloc);
    both.extend_from_slice(fairness)?;
    both.extend_from_slice(justice)?;
    Ok(both)
}

// Whether each row has so many values.
fn have_width(width: usize, rows: &[Vec<bool>]) -> bool
    ensures { result ≡ have_width width rows.now }
{
    rows.iter().all(|row| row.len() == width)
}

// Whether the trace has a value for each latch, and in each row one for each input.
fn fits(circuit: &Circuit, trace: &Trace) -> bool
    ensures { result ≡ fits circuit.now trace.now }
{
    trace.latches.len() == circuit.latches.len() && have_width(circuit.inputs.len(), &trace.inputs)
}

// The values of all variables at the moment where the loop starts. None if the circuit does not allow it.
fn loop_start(
    alloc: Global,
    circuit: &Circuit,
    trace: &Trace,
    start: usize,
) -> Result<Option<Vec<bool>>, AllocError>
    requires { start < length trace.now.inputs.items }
    ensures { IfOk result (λ found. IfSome found
        (λ values. IsReachedBy circuit.now trace.now start (assignment_in values.items))) }
{
    let begun = begin(alloc, circuit, &trace.latches, &trace.inputs[0])?;
    let Some(mut values) = begun else {
        return Ok(None);
    };
    for place in 0..start {
        let Some(now) = advance(alloc, circuit, &values, &trace.inputs[place + 1])? else {
            return Ok(None);
        };
        values = now;
    }
    Ok(Some(values))
}

// Whether the loop leads from these values back to them, with each of the literals true at some moment.
fn loops(
    alloc: Global,
    circuit: &Circuit,
    literals: &[Literal],
    trace: &Trace,
    start: usize,
    first: &[bool],
) -> Result<bool, AllocError>
    requires within { start < length trace.now.inputs.items }
    requires reached { IsReachedBy circuit.now trace.now start (assignment_in first.now) }
    ensures { IfOk result (λ does. IsTrue does → Loops circuit.now literals.now (from trace.now start)) }
{
    let last = trace.inputs.len() - 1;
    let mut left = not_met(alloc, first, literals)?;
    let mut values = Vec::new(alloc);
    values.extend_from_slice(first)?;
    for place in start..last {
        let Some(now) = advance(alloc, circuit, &values, &trace.inputs[place + 1])? else {
            return Ok(false);
        };
        left = not_met(alloc, &now, &left)?;
        values = now;
    }
    let again = advance(alloc, circuit, &values, &trace.inputs[start])?;
    let Some(again) = again else {
        return Ok(false);
    };
    if !are_same(&again, first) {
        return Ok(false);
    }
    Ok(left.is_empty())
}

// Whether it is a lasso of the circuit, with each fairness constraint and each literal of the property in its loop.
fn is_lasso(
    alloc: Global,
    circuit: &Circuit,
    fairness: &[Literal],
    justice: &[Literal],
    trace: &Trace,
    start: usize,
) -> Result<bool, AllocError>
    ensures { IfOk result
        (λ is. IsTrue is → IsLasso circuit.now fairness.now justice.now (from trace.now start)) }
{
    if !fits(circuit, trace) {
        return Ok(false);
    }
    if start >= trace.inputs.len() {
        return Ok(false);
    }
    let literals = both(alloc, fairness, justice)?;
    let Some(first) = loop_start(alloc, circuit, trace, start)? else {
        return Ok(false);
    };
    loops(alloc, circuit, &literals, trace, start, &first)
}

/// Whether the lasso is one of the circuit, in whose loop each fairness constraint is true at some moment, and each
/// literal of the justice property.
///
/// False if it has more or fewer values than the circuit has latches and inputs, or if its loop starts behind its last
/// row.
///
/// # Errors
/// `AllocError` where memory is refused.
pub fn replay_lasso(
    alloc: Global,
    netlist: &Netlist,
    fairness: &[Literal],
    justice: &[Literal],
    lasso: &Lasso,
) -> Result<bool, AllocError>
    ensures lasso { IfOk result
        (λ is. IsTrue is → IsLasso netlist.now.circuit fairness.now justice.now lasso.now) }
    ensures fails { IfOk result
        (λ is. IsTrue is → FailsForever netlist.now.circuit fairness.now justice.now) }
{
    is_lasso(
        alloc,
        &netlist.circuit,
        fairness,
        justice,
        &lasso.trace,
        lasso.start,
    )
}

// What the latches hold at these values.
fn latches_of(alloc: Global, circuit: &Circuit, values: &[bool]) -> Result<Vec<bool>, AllocError> {
    let mut latches = Vec::with_capacity(alloc, circuit.latches.len())?;
    for latch in &circuit.latches {
        latches.push(value_of(values, latch.variable))?;
    }
    Ok(latches)
}

// What they hold behind them.
fn next_of(alloc: Global, circuit: &Circuit, values: &[bool]) -> Result<Vec<bool>, AllocError> {
    let mut latches = Vec::with_capacity(alloc, circuit.latches.len())?;
    for latch in &circuit.latches {
        latches.push(is_true(values, latch.next))?;
    }
    Ok(latches)
}

// The first of the rows that is the same, by its place.
fn place_of(rows: &[Vec<bool>], wanted: &[bool]) -> Option<usize> {
    for place in 0..rows.len() {
        if are_same(&rows[place], wanted) {
            return Some(place);
        }
    }
    None
}

// The first moment of the trace at which the latches hold what they hold behind its last one. None if there is none.
fn start_of(alloc: Global, circuit: &Circuit, trace: &Trace) -> Result<Option<usize>, AllocError> {
    let Some((first, rest)) = trace.inputs.split_first() else {
        return Ok(None);
    };
    let Some(mut values) = begin(alloc, circuit, &trace.latches, first)? else {
        return Ok(None);
    };
    let mut rows = Vec::with_capacity(alloc, trace.inputs.len())?;
    for row in rest {
        rows.reserve(1)?;
        rows.push_reserved(latches_of(alloc, circuit, &values)?);
        let Some(now) = advance(alloc, circuit, &values, row)? else {
            return Ok(None);
        };
        values = now;
    }
    rows.reserve(1)?;
    rows.push_reserved(latches_of(alloc, circuit, &values)?);
    let next = next_of(alloc, circuit, &values)?;
    Ok(place_of(&rows, &next))
}

/// Where the loop of a trace starts whose last moment leads back to another one, if each fairness constraint is true at
/// some moment of the loop, and each literal of the justice property. It is the first moment that is possible, counted from
/// 0: so witnesses of AIGER list lassos. None if the trace is no lasso.
///
/// # Errors
/// `AllocError` where memory is refused.
pub fn closed(
    alloc: Global,
    netlist: &Netlist,
    fairness: &[Literal],
    justice: &[Literal],
    trace: &Trace,
) -> Result<Option<usize>, AllocError>
    ensures { IfOk result (λ found. IfSome found
        (λ start. IsLasso netlist.now.circuit fairness.now justice.now (from trace.now start))) }
{
    let Some(start) = start_of(alloc, &netlist.circuit, trace)? else {
        return Ok(None);
    };
    if is_lasso(alloc, &netlist.circuit, fairness, justice, trace, start)? {
        Ok(Some(start))
    } else {
        Ok(None)
    }
}
