//! The names of a circuit's inputs, latches and properties, which its text has behind the gates.
use gipmc_aiger::Property;
use gipmc_circuits::Circuit;
use giputils_text::{number, split_line, split_once};
use std::alloc::{AllocError, Global};

/// The names of a circuit, as its text writes them. Where there is none, it is empty.
pub struct Names<'a> {
    /// Of the inputs.
    pub inputs: Vec<&'a [u8]>,
    /// Of the latches.
    pub latches: Vec<&'a [u8]>,
    /// Of the bad literals.
    pub bads: Vec<&'a [u8]>,
    /// Of the justice properties.
    pub justice: Vec<&'a [u8]>,
}

// One call in its owners' proofs, in place of one for each field.
impl Drop for Names<'_> {
    fn drop(self) {
        let Names {
            inputs,
            latches,
            bads,
            justice,
        } = self;
    }
}

impl<'a> Names<'a> {
    /// The names that the text of a circuit has. Where the outputs are taken for bad literals, their names are too.
    ///
    /// # Errors
    /// `AllocError` where memory is refused.
    pub fn read(alloc: Global, circuit: &Circuit, text: &'a [u8]) -> Result<Self, AllocError> {
        let (first, rest) = split_line(text).unwrap_or((text, &[]));
        let header = Header::of(first);
        let mut names = Names {
            inputs: unnamed(alloc, circuit.inputs.len())?,
            latches: unnamed(alloc, circuit.latches.len())?,
            bads: unnamed(alloc, circuit.bads.len())?,
            justice: unnamed(alloc, header.justice as usize)?,
        };
        let mut rest = header.tail(rest);
        while let Some((line, after)) = split_line(rest) {
            if begins_comment(line) {
                return Ok(names);
            }
            names.take(&header, line);
            rest = after;
        }
        Ok(names)
    }

    /// The name of a property, empty where it has none.
    pub fn of(&self, property: Property) -> &'a [u8] {
        let none: &'a [u8] = &[];
        let name = match property {
            Property::Bad(place) => self.bads.get(place),
            Property::Justice(place) => self.justice.get(place),
        };
        name.copied().unwrap_or(none)
    }

    // Takes the name of a line, if it has one.
    fn take(&mut self, header: &Header, line: &'a [u8]) {
        let [kind, rest @ ..] = line else {
            return;
        };
        let (place, Some(name)) = split_once(rest, b' ') else {
            return;
        };
        let Some(place) = number(place, u32::MAX) else {
            return;
        };
        let place = place as usize;
        match *kind {
            b'i' => name_at(&mut self.inputs, place, name),
            b'l' => name_at(&mut self.latches, place, name),
            b'b' => name_at(&mut self.bads, place, name),
            b'j' => name_at(&mut self.justice, place, name),
            b'o' if header.bads == 0 => name_at(&mut self.bads, place, name),
            _ => {}
        }
    }
}

// Whether a comment begins with a line: a `c` without a number.
fn begins_comment(line: &[u8]) -> bool {
    match line {
        [b'c', second, ..] => !second.is_ascii_digit(),
        [b'c'] => true,
        _ => false,
    }
}

// So many empty names.
fn unnamed<'a>(alloc: Global, count: usize) -> Result<Vec<&'a [u8]>, AllocError> {
    let mut names = Vec::new(alloc);
    for _ in 0..count {
        let none: &'a [u8] = &[];
        names.push(none)?;
    }
    Ok(names)
}

// Names what is at a place, if there is one.
fn name_at<'a>(names: &mut [&'a [u8]], place: usize, name: &'a [u8]) {
    if let Some(entry) = names.get_mut(place) {
        *entry = name;
    }
}

// What a header says of the rows behind it.
#[derive(Clone, Copy)]
struct Header {
    is_binary: bool,
    inputs: u32,
    latches: u32,
    outputs: u32,
    gates: u32,
    bads: u32,
    constraints: u32,
    justice: u32,
    fairness: u32,
}

impl Header {
    // What a line says, which is that of a circuit that was read.
    fn of(line: &[u8]) -> Self {
        let (form, numbers) = word(line);
        let (_, numbers) = count(numbers);
        let (inputs, numbers) = count(numbers);
        let (latches, numbers) = count(numbers);
        let (outputs, numbers) = count(numbers);
        let (gates, numbers) = count(numbers);
        let (bads, numbers) = count(numbers);
        let (constraints, numbers) = count(numbers);
        let (justice, numbers) = count(numbers);
        let (fairness, _) = count(numbers);
        Header {
            is_binary: form == b"aig".as_slice(),
            inputs,
            latches,
            outputs,
            gates,
            bads,
            constraints,
            justice,
            fairness,
        }
    }

    // What stands behind the rows.
    fn tail(self, text: &[u8]) -> &[u8] {
        if self.is_binary {
            let rest = skip_lines(text, self.latches);
            let rest = self.skip_literals(rest);
            let rest = skip_groups(rest, self.gates);
            return skip_groups(rest, self.gates);
        }
        let rest = skip_lines(text, self.inputs);
        let rest = skip_lines(rest, self.latches);
        let rest = self.skip_literals(rest);
        skip_lines(rest, self.gates)
    }

    // What stands behind the lines of single literals.
    fn skip_literals(self, text: &[u8]) -> &[u8] {
        let rest = skip_lines(text, self.outputs);
        let rest = skip_lines(rest, self.bads);
        let rest = skip_lines(rest, self.constraints);
        let rest = skip_justice(rest, self.justice);
        skip_lines(rest, self.fairness)
    }
}

// The first word of a line, and those behind it.
fn word(line: &[u8]) -> (&[u8], &[u8]) {
    match split_once(line, b' ') {
        (word, Some(rest)) => (word, rest),
        (word, None) => (word, &[]),
    }
}

// The number that the first word writes, 0 where it writes none, and the words behind it.
fn count(line: &[u8]) -> (u32, &[u8]) {
    let (word, rest) = word(line);
    (number(word, u32::MAX).unwrap_or(0), rest)
}

// What stands behind so many lines.
fn skip_lines(text: &[u8], count: u32) -> &[u8] {
    let mut rest = text;
    for _ in 0..count {
        match split_line(rest) {
            Some((_, after)) => rest = after,
            None => return &[],
        }
    }
    rest
}

// What stands behind so many justice properties: a line for the number of literals of each, and then the literals.
fn skip_justice(text: &[u8], count: u32) -> &[u8] {
    let mut sizes = text;
    let mut rest = skip_lines(text, count);
    for _ in 0..count {
        let Some((size, after)) = split_line(sizes) else {
            return &[];
        };
        rest = skip_lines(rest, number(size, u32::MAX).unwrap_or(0));
        sizes = after;
    }
    rest
}

// What stands behind so many numbers in groups of 7 bits.
fn skip_groups(text: &[u8], count: u32) -> &[u8] {
    let mut rest = text;
    for _ in 0..count {
        match rest.iter().position(|group| *group < 128) {
            Some(at) => rest = &rest[at + 1..],
            None => return &[],
        }
    }
    rest
}
