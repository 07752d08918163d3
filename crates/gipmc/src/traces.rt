//! What is told of the traces that were found, beside the answers: tables with names, and a wave.
ghost use Rattle.std.specs.Prelude.{IfOk};
ghost use Rattle.gipmc_traces.specs.Rows.{Shows};

use crate::errors::Failure;
use crate::files::{write_out, write_whole};
use crate::search::Found;
use gip_cli::NewFile;
use gipmc_aiger::{Problem, Property};
use gipmc_circuits::{Netlist, Trace};
use gipmc_command::Options;
use gipmc_reduce::closed;
use gipmc_task::{Answered, Verdict};
use gipmc_traces::{Names, Scene, known_text, latch_rows, table_text, vcd_text};
use std::alloc::AllocError;

/// Tells of each trace that was found what the options ask for. The wave is that of the first one. It is written
/// whether or not the tables were.
///
/// # Errors
/// [`Failure::Memory`], and those of standard output and of the file.
pub fn tell_traces<'a>(
    rt: &HostRuntime,
    options: &Options<'a>,
    bytes: &[u8],
    problem: &Problem,
    found: &Found,
    wave: Option<NewFile<'a>>,
) -> Result<(), Failure<'a>> {
    let told = if options.asked.has("--names") {
        tell_named(rt, bytes, problem, found)
    } else {
        Ok(())
    };
    let kept = match wave {
        Some(file) => keep_wave(rt, bytes, problem, found, file),
        None => Ok(()),
    };
    told?;
    kept
}

// Writes tables about the bad literals, and then about the justice properties.
fn tell_named<'a>(
    rt: &HostRuntime,
    bytes: &[u8],
    problem: &Problem,
    found: &Found,
) -> Result<(), Failure<'a>> {
    let names = Names::read(rt.alloc(), &problem.netlist.circuit, bytes)?;
    tell_tables(rt, problem, &names, &found.bads.answers)?;
    tell_tables(rt, problem, &names, &found.justice)
}

// Writes of each answer, in turn, the table of its trace, or what is known of a property that has a name.
fn tell_tables<'a>(
    rt: &HostRuntime,
    problem: &Problem,
    names: &Names,
    answers: &[Answered],
) -> Result<(), Failure<'a>> {
    for answer in answers {
        tell_table(rt, problem, names, answer)?;
    }
    Ok(())
}

// Writes the table of an answer's trace, or what is known of its property.
fn tell_table<'a>(
    rt: &HostRuntime,
    problem: &Problem,
    names: &Names,
    answer: &Answered,
) -> Result<(), Failure<'a>> {
    let property = answer.property;
    match &answer.verdict {
        Verdict::Fails(trace) => write_table(rt, problem, names, property, trace),
        Verdict::Holds(_) => write_known(rt, names, property, b"safe"),
        Verdict::ClearTo(_) => write_known(rt, names, property, b"open"),
        Verdict::Unknown => write_known(rt, names, property, b"open"),
    }
}

// Writes what is known of a property, if it has a name.
fn write_known<'a>(
    rt: &HostRuntime,
    names: &Names,
    property: Property,
    known: &[u8],
) -> Result<(), Failure<'a>> {
    let text = known_text(rt.alloc(), names, property, known)?;
    write_out(rt, &text)
}

// Writes the table of a trace to standard output.
fn write_table<'a>(
    rt: &HostRuntime,
    problem: &Problem,
    names: &Names,
    property: Property,
    trace: &Trace,
) -> Result<(), Failure<'a>> {
    let latches = rows_of(rt, &problem.netlist, trace)?;
    let start = start_of(rt, problem, property, trace)?;
    let scene = Scene {
        names,
        trace,
        latches: &latches,
        start,
    };
    let text = table_text(rt.alloc(), &scene, property)?;
    write_out(rt, &text)
}

// Writes the wave of the first trace to the file, if a trace was found.
fn keep_wave<'a>(
    rt: &HostRuntime,
    bytes: &[u8],
    problem: &Problem,
    found: &Found,
    file: NewFile<'a>,
) -> Result<(), Failure<'a>> {
    let first = match first_trace(&found.bads.answers) {
        None => first_trace(&found.justice),
        first => first,
    };
    let Some((property, trace)) = first else {
        return Ok(());
    };
    let names = Names::read(rt.alloc(), &problem.netlist.circuit, bytes)?;
    let text = wave_of(rt, problem, &names, property, trace)?;
    write_whole(file, &text)
}

// The first property that fails, and the trace by which it does.
fn first_trace(answers: &[Answered]) -> Option<(Property, &Trace)> {
    for answer in answers {
        if let Verdict::Fails(trace) = &answer.verdict {
            return Some((answer.property, trace));
        }
    }
    None
}

// The wave of a trace.
fn wave_of<'a>(
    rt: &HostRuntime,
    problem: &Problem,
    names: &Names,
    property: Property,
    trace: &Trace,
) -> Result<Vec<u8>, Failure<'a>> {
    let latches = rows_of(rt, &problem.netlist, trace)?;
    let start = start_of(rt, problem, property, trace)?;
    let scene = Scene {
        names,
        trace,
        latches: &latches,
        start,
    };
    Ok(vcd_text(rt.alloc(), &scene)?)
}

// What the latches hold at each moment of a trace.
fn rows_of<'a>(
    rt: &HostRuntime,
    netlist: &Netlist,
    trace: &Trace,
) -> Result<Vec<Vec<bool>>, Failure<'a>>
    ensures { IfOk result (λ rows. Shows netlist.now.circuit trace.now rows.items) }
{
    match latch_rows(rt.alloc(), netlist, trace)? {
        Some(rows) => Ok(rows),
        // It is not reached: what is answered is a trace.
        None => Err(Failure::Memory),
    }
}

// Where the loop of a lasso begins. None where the trace is that of a bad literal.
fn start_of(
    rt: &HostRuntime,
    problem: &Problem,
    property: Property,
    trace: &Trace,
) -> Result<Option<usize>, AllocError> {
    let Property::Justice(place) = property else {
        return Ok(None);
    };
    let liveness = &problem.liveness;
    match liveness.justice.get(place) {
        Some(justice) => closed(
            rt.alloc(),
            &problem.netlist,
            &liveness.fairness,
            justice,
            trace,
        ),
        None => Ok(None),
    }
}
