//! Signals: inputs and latches whose names differ by an index alone are put together.
use crate::names::Names;
use gipmc_circuits::Trace;
use giputils_text::number;
use std::alloc::{AllocError, Global};
use std::io::Write;

/// A trace that is to be shown.
#[derive(Clone, Copy)]
pub struct Scene<'a> {
    /// The names in its circuit's text.
    pub names: &'a Names<'a>,
    /// The trace.
    pub trace: &'a Trace,
    /// What the latches hold at each moment, as [`latch_rows`](crate::latch_rows) finds out.
    pub latches: &'a [Vec<bool>],
    /// Of a lasso, the moment at which its loop begins: it follows the last moment again.
    pub start: Option<usize>,
}

// What a signal is in the circuit.
#[derive(Clone, Copy, PartialEq, Eq)]
pub(crate) enum Kind {
    Input,
    Latch,
}

// Bits that stand one behind the other among the inputs or the latches.
#[derive(Clone, Copy)]
pub(crate) struct Signal<'a> {
    pub(crate) kind: Kind,
    // The place of the first bit.
    first: usize,
    pub(crate) width: usize,
    // The name without an index. It is empty where the bit has none.
    pub(crate) name: &'a [u8],
    // The least index, if the name has one.
    low: Option<u32>,
    // Whether the index of the first bit is the least one.
    is_rising: bool,
}

// The signals of a circuit: inputs, and then latches.
pub(crate) fn signals<'a>(alloc: Global, names: &Names<'a>) -> Result<Vec<Signal<'a>>, AllocError> {
    let mut signals = Vec::new(alloc);
    gather(&mut signals, Kind::Input, &names.inputs)?;
    gather(&mut signals, Kind::Latch, &names.latches)?;
    Ok(signals)
}

// Adds the signals of these bits.
fn gather<'a>(
    signals: &mut Vec<Signal<'a>>,
    kind: Kind,
    names: &[&'a [u8]],
) -> Result<(), AllocError> {
    for (place, name) in names.iter().enumerate() {
        let bit = Signal::bit(kind, place, name);
        if is_joined(signals, bit) {
            continue;
        }
        signals.push(bit)?;
    }
    Ok(())
}

// Joins a bit to the last signal, if it is its next one.
fn is_joined<'a>(signals: &mut [Signal<'a>], bit: Signal<'a>) -> bool {
    let Some(last) = signals.last_mut() else {
        return false;
    };
    match last.with(bit) {
        Some(joined) => {
            *last = joined;
            true
        }
        None => false,
    }
}

impl<'a> Signal<'a> {
    // The signal of one bit.
    fn bit(kind: Kind, first: usize, symbol: &'a [u8]) -> Self {
        let (name, low) = indexed(symbol);
        Signal {
            kind,
            first,
            width: 1,
            name,
            low,
            is_rising: true,
        }
    }

    // With one bit more, if that is the next one.
    fn with(self, bit: Signal<'a>) -> Option<Signal<'a>> {
        if self.kind != bit.kind || self.name != bit.name {
            return None;
        }
        let low = self.low?;
        let next = bit.low?;
        let width = self.width.saturating_add(1);
        if next as usize == (low as usize).saturating_add(self.width) {
            if self.width > 1 && !self.is_rising {
                return None;
            }
            return Some(Signal { width, ..self });
        }
        if next.saturating_add(1) != low || (self.width > 1 && self.is_rising) {
            return None;
        }
        Some(Signal {
            width,
            low: bit.low,
            is_rising: false,
            ..self
        })
    }

    // The bits of its kind at a moment.
    fn row<'s>(&self, scene: &Scene<'s>, moment: usize) -> &'s [bool] {
        let rows = match self.kind {
            Kind::Input => scene.trace.inputs.get(moment),
            Kind::Latch => scene.latches.get(moment),
        };
        match rows {
            Some(row) => row,
            None => &[],
        }
    }

    // Its value at a moment, the bit of the first place first.
    fn values<'s>(&self, scene: &Scene<'s>, moment: usize) -> &'s [bool] {
        let row = self.row(scene, moment);
        let end = self.first.saturating_add(self.width);
        row.get(self.first..end).unwrap_or(&[])
    }

    // Whether its value at a moment is another one than at the moment before.
    pub(crate) fn changes(&self, scene: &Scene, moment: usize) -> bool {
        if moment == 0 {
            return true;
        }
        self.values(scene, moment) != self.values(scene, moment - 1)
    }

    // Writes its value at a moment, the bit of the greatest index first.
    pub(crate) fn write_value(
        &self,
        scene: &Scene,
        moment: usize,
        text: &mut Vec<u8>,
    ) -> Result<(), AllocError> {
        let values = self.values(scene, moment);
        for place in 0..values.len() {
            let place = if self.is_rising {
                values.len() - 1 - place
            } else {
                place
            };
            text.push(if values[place] { b'1' } else { b'0' })?;
        }
        Ok(())
    }

    // Writes its name without an index, or its letter and place where it has none. A byte that a viewer may not take
    // becomes an underscore.
    pub(crate) fn write_name(&self, name: &[u8], text: &mut Vec<u8>) -> Result<(), AllocError> {
        if name.is_empty() {
            let letter = match self.kind {
                Kind::Input => 'i',
                Kind::Latch => 'l',
            };
            let place = self.first;
            return write!(text, "{letter}{place}").map_err(|_| AllocError);
        }
        for byte in name {
            text.push(if byte.is_ascii_graphic() { *byte } else { b'_' })?;
        }
        Ok(())
    }

    // Writes its index, or those of its bits, if it has some.
    pub(crate) fn write_index(&self, text: &mut Vec<u8>) -> Result<(), AllocError> {
        let Some(low) = self.low else {
            return Ok(());
        };
        if self.width == 1 {
            return write!(text, "[{low}]").map_err(|_| AllocError);
        }
        let high = (low as usize).saturating_add(self.width).saturating_sub(1);
        write!(text, "[{high}:{low}]").map_err(|_| AllocError)
    }
}

// A name without an index, and the index, if it has one.
fn indexed(symbol: &[u8]) -> (&[u8], Option<u32>) {
    let [front @ .., b']'] = symbol else {
        return (symbol, None);
    };
    let Some(at) = front.iter().rposition(|byte| *byte == b'[') else {
        return (symbol, None);
    };
    match number(&front[at + 1..], u32::MAX) {
        Some(index) if at > 0 => (&front[..at], Some(index)),
        _ => (symbol, None),
    }
}
