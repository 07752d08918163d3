//! Traces as value change dumps (VCD), which viewers of waves read.
use crate::signals::{Kind, Scene, Signal, signals};
use std::alloc::{AllocError, Global};
use std::io::Write;

/// The value change dump of a trace: a moment is a unit of time, and the last one lasts one unit too. A name `a.b.c` is
/// the signal `c` in the scope `b` of the scope `a`, and all are in the scope `circuit`. Of a lasso there is a signal
/// `again` in the scope `lasso`, which is true in the loop.
///
/// # Errors
/// `AllocError` where memory is refused.
pub fn vcd_text(alloc: Global, scene: &Scene) -> Result<Vec<u8>, AllocError> {
    let signals = signals(alloc, scene.names)?;
    let mut text = Vec::new(alloc);
    text.extend_from_slice(b"$timescale 1 ns $end\n$scope module circuit $end\n")?;
    write_variables(&mut text, &signals)?;
    text.extend_from_slice(b"$upscope $end\n")?;
    if scene.start.is_some() {
        write_lasso_variable(&mut text, signals.len())?;
    }
    text.extend_from_slice(b"$enddefinitions $end\n")?;
    for moment in 0..scene.latches.len() {
        write_moment(&mut text, scene, &signals, moment)?;
    }
    write_time(&mut text, scene.latches.len())?;
    Ok(text)
}

// Writes the variables in their scopes.
fn write_variables(text: &mut Vec<u8>, signals: &[Signal]) -> Result<(), AllocError> {
    let mut scope: &[u8] = &[];
    for (place, signal) in signals.iter().enumerate() {
        let (outer, name) = scoped(signal.name);
        write_scopes(text, scope, outer)?;
        scope = outer;
        write_variable(text, place, signal, name)?;
    }
    write_scopes(text, scope, &[])
}

// The scope of a name, and the name in it.
fn scoped(name: &[u8]) -> (&[u8], &[u8]) {
    match name.iter().rposition(|byte| *byte == b'.') {
        Some(at) if at > 0 && at + 1 < name.len() => (&name[..at], &name[at + 1..]),
        _ => (&[], name),
    }
}

// Leaves one scope for another one.
fn write_scopes(text: &mut Vec<u8>, last: &[u8], next: &[u8]) -> Result<(), AllocError> {
    if last == next {
        return Ok(());
    }
    if !last.is_empty() {
        for part in last.split(|byte| *byte == b'.') {
            if !part.is_empty() {
                text.extend_from_slice(b"$upscope $end\n")?;
            }
        }
    }
    if !next.is_empty() {
        for part in next.split(|byte| *byte == b'.') {
            if !part.is_empty() {
                write_scope(text, part)?;
            }
        }
    }
    Ok(())
}

// Enters a scope.
fn write_scope(text: &mut Vec<u8>, name: &[u8]) -> Result<(), AllocError> {
    text.extend_from_slice(b"$scope module ")?;
    for byte in unended(name) {
        text.push(if byte.is_ascii_graphic() { *byte } else { b'_' })?;
    }
    text.extend_from_slice(b" $end\n")?;
    Ok(())
}

// A name that does not end the command in which it stands.
fn unended(name: &[u8]) -> &[u8] {
    match name {
        b"$end" => b"_end",
        _ => name,
    }
}

// Writes what a variable is.
fn write_variable(
    text: &mut Vec<u8>,
    place: usize,
    signal: &Signal,
    name: &[u8],
) -> Result<(), AllocError> {
    let kind = match signal.kind {
        Kind::Input => "wire",
        Kind::Latch => "reg",
    };
    let width = signal.width;
    write!(text, "$var {kind} {width} ").map_err(|_| AllocError)?;
    write_code(text, place)?;
    text.push(b' ')?;
    signal.write_name(unended(name), text)?;
    text.push(b' ')?;
    signal.write_index(text)?;
    text.extend_from_slice(b" $end\n")?;
    Ok(())
}

// Writes what the variable of a lasso's loop is, which stands at a place.
fn write_lasso_variable(text: &mut Vec<u8>, place: usize) -> Result<(), AllocError> {
    text.extend_from_slice(b"$scope module lasso $end\n$var wire 1 ")?;
    write_code(text, place)?;
    text.extend_from_slice(b" again  $end\n$upscope $end\n")?;
    Ok(())
}

// Writes the code of the signal at a place: its digits to the base 94, the lowest first.
fn write_code(text: &mut Vec<u8>, mut place: usize) -> Result<(), AllocError> {
    while place >= 94 {
        text.push(b'!' + (place % 94) as u8)?;
        place /= 94;
    }
    text.push(b'!' + place as u8)?;
    Ok(())
}

// Writes what changes at a moment.
fn write_moment(
    text: &mut Vec<u8>,
    scene: &Scene,
    signals: &[Signal],
    moment: usize,
) -> Result<(), AllocError> {
    write_time(text, moment)?;
    for (place, signal) in signals.iter().enumerate() {
        if signal.changes(scene, moment) {
            write_change(text, scene, place, signal, moment)?;
        }
    }
    match scene.start {
        Some(start) => write_lasso_change(text, signals.len(), start, moment),
        None => Ok(()),
    }
}

// Writes whether a moment is in the loop that begins at `start`, where that changes.
fn write_lasso_change(
    text: &mut Vec<u8>,
    place: usize,
    start: usize,
    moment: usize,
) -> Result<(), AllocError> {
    if moment != 0 && moment != start {
        return Ok(());
    }
    text.push(if moment == start { b'1' } else { b'0' })?;
    write_code(text, place)?;
    text.push(b'\n')?;
    Ok(())
}

// Writes the line of a moment.
fn write_time(text: &mut Vec<u8>, moment: usize) -> Result<(), AllocError> {
    writeln!(text, "#{moment}").map_err(|_| AllocError)
}

// Writes what the signal at a place is at a moment.
fn write_change(
    text: &mut Vec<u8>,
    scene: &Scene,
    place: usize,
    signal: &Signal,
    moment: usize,
) -> Result<(), AllocError> {
    if signal.width > 1 {
        text.push(b'b')?;
    }
    signal.write_value(scene, moment, text)?;
    if signal.width > 1 {
        text.push(b' ')?;
    }
    write_code(text, place)?;
    text.push(b'\n')?;
    Ok(())
}
