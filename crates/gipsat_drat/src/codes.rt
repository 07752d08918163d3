//! The numbers of a binary proof: seven bits a byte, the lowest first, and 128 is added to each byte but the last.

use crate::error::{Flaw, Place};

// The greatest number of any binary proof.
const GREATEST: u64 = 1 << 56;

// What one stands for in the last byte of a small number.
const GREATEST_SMALL_SCALE: u64 = 1 << 21;

// A small number that was read in one go.
#[derive(Clone, Copy)]
pub(crate) struct SmallCode {
    pub value: u64,
    // The place behind it.
    pub next: usize,
}

// What has been read of a binary proof.
#[derive(Clone, Copy)]
pub(crate) struct Codes {
    // What the bytes of the number that has not ended say.
    value: u64,
    // What one stands for in the next byte.
    scale: u64,
    // The greatest number that there may be, at most 2^56 + 1.
    greatest: u64,
    // How many bytes were read.
    bytes: usize,
}

impl Codes {
    // Before a proof with numbers up to one.
    pub(crate) fn new(greatest: u64) -> Self {
        Codes {
            value: 0,
            scale: 1,
            greatest,
            bytes: 0,
        }
    }

    // The byte that was read last.
    pub(crate) fn place(&self) -> Place {
        Place::Byte(self.bytes)
    }

    // Reads the byte that a step begins with.
    #[inline]
    pub(crate) fn count(&mut self) {
        self.bytes = self.bytes.saturating_add(1);
    }

    // Reads a number that stands at a place, if it is small, and none has begun before it.
    #[inline]
    pub(crate) fn small(&mut self, bytes: &[u8], place: usize) -> Option<SmallCode> {
        if self.scale != 1 {
            return None;
        }
        let code = code_at(bytes, place)?;
        let read = code.next.saturating_sub(place);
        self.bytes = self.bytes.saturating_add(read);
        Some(code)
    }

    // Reads a byte more of a number: that number, if it ends.
    #[inline]
    pub(crate) fn byte(&mut self, byte: u8) -> Result<Option<u64>, Flaw> {
        self.count();
        if self.value > GREATEST || self.scale > GREATEST || self.scale > self.greatest {
            return Err(Flaw::Number);
        }
        let value = self.value + u64::from(byte % 128) * self.scale;
        if value > self.greatest {
            return Err(Flaw::Number);
        }
        if byte < 128 {
            self.value = 0;
            self.scale = 1;
            return Ok(Some(value));
        }
        self.value = value;
        self.scale = self.scale.saturating_mul(128);
        Ok(None)
    }
}

// The number at a place, if it is small.
#[inline]
fn code_at(bytes: &[u8], start: usize) -> Option<SmallCode> {
    let mut value: u64 = 0;
    let mut scale: u64 = 1;
    for place in start..bytes.len() {
        let byte = bytes[place];
        if scale > GREATEST_SMALL_SCALE || value > GREATEST_SMALL_SCALE {
            return None;
        }
        value += u64::from(byte % 128) * scale;
        if byte < 128 {
            return Some(SmallCode {
                value,
                next: place + 1,
            });
        }
        scale *= 128;
    }
    None
}
