//! What changes from moment to moment of a trace, in lines that a reader of witnesses passes over.
use crate::names::Names;
use crate::signals::{Scene, Signal, signals};
use gipmc_aiger::Property;
use std::alloc::{AllocError, Global};
use std::io::Write;

/// The table of a trace by which a property fails: a line with the name of the property, then lines
/// `c #MOMENT NAME = VALUE` for what each input and latch is at moment 0, and later for what is another value than at
/// the moment before. A lasso ends with the line `c #END is #START again`: behind its last moment its loop begins anew.
///
/// # Errors
/// `AllocError` where memory is refused.
pub fn table_text(alloc: Global, scene: &Scene, property: Property) -> Result<Vec<u8>, AllocError> {
    let signals = signals(alloc, scene.names)?;
    let mut text = Vec::new(alloc);
    write_title(&mut text, scene.names, property)?;
    text.push(b'\n')?;
    for moment in 0..scene.latches.len() {
        write_changes(&mut text, scene, &signals, moment)?;
    }
    write_loop(&mut text, scene)?;
    Ok(text)
}

/// What is known of a property, in a line with its name; no line where it has no name.
///
/// # Errors
/// `AllocError` where memory is refused.
pub fn known_text(
    alloc: Global,
    names: &Names,
    property: Property,
    known: &[u8],
) -> Result<Vec<u8>, AllocError> {
    let mut text = Vec::new(alloc);
    if names.of(property).is_empty() {
        return Ok(text);
    }
    write_title(&mut text, names, property)?;
    text.extend_from_slice(b": ")?;
    text.extend_from_slice(known)?;
    text.push(b'\n')?;
    Ok(text)
}

// Writes what names a property.
fn write_title(text: &mut Vec<u8>, names: &Names, property: Property) -> Result<(), AllocError> {
    let (letter, place) = match property {
        Property::Bad(place) => ('b', place),
        Property::Justice(place) => ('j', place),
    };
    write!(text, "c {letter}{place}").map_err(|_| AllocError)?;
    let name = names.of(property);
    if !name.is_empty() {
        text.push(b' ')?;
    }
    for byte in name {
        let is_shown = byte.is_ascii_graphic() || *byte == b' ';
        text.push(if is_shown { *byte } else { b'_' })?;
    }
    Ok(())
}

// Writes where the loop of a lasso begins anew.
fn write_loop(text: &mut Vec<u8>, scene: &Scene) -> Result<(), AllocError> {
    let Some(start) = scene.start else {
        return Ok(());
    };
    let end = scene.latches.len();
    writeln!(text, "c #{end} is #{start} again").map_err(|_| AllocError)
}

// Writes the lines of a moment.
fn write_changes(
    text: &mut Vec<u8>,
    scene: &Scene,
    signals: &[Signal],
    moment: usize,
) -> Result<(), AllocError> {
    for signal in signals {
        if signal.changes(scene, moment) {
            write_change(text, scene, signal, moment)?;
        }
    }
    Ok(())
}

// Writes what a signal is at a moment.
fn write_change(
    text: &mut Vec<u8>,
    scene: &Scene,
    signal: &Signal,
    moment: usize,
) -> Result<(), AllocError> {
    write!(text, "c #{moment} ").map_err(|_| AllocError)?;
    signal.write_name(signal.name, text)?;
    signal.write_index(text)?;
    text.extend_from_slice(b" = ")?;
    signal.write_value(scene, moment, text)?;
    text.push(b'\n')?;
    Ok(())
}
