//! What all workloads share: the numbers that they draw, and the checksum of what was answered.

// How it is proved: eight bytes at a time. `as_chunks::<8>()` with `from_le_bytes(*bytes)` closes;
// `chunks(8)` does not say that a chunk has at most 8 bytes.

ghost use Rattle.std.specs.Prelude.{◌^◌, ◌<◌, ◌≤◌};

use rand_core::Rng;
use rand_pcg::Pcg32;
use std::fmt;

// The stream of every generator.
const STREAM: u64 = 54;

/// The numbers that a workload draws: those of PCG32 from a seed on.
#[derive(Drop)]
pub(crate) struct Generator(Pcg32);

impl Generator {
    pub(crate) fn new(seed: u64) -> Self {
        Generator(Pcg32::new(seed, STREAM))
    }

    /// The next number.
    #[inline]
    pub(crate) fn draw(&mut self) -> u32 {
        self.0.next_u32()
    }

    /// A word, made of the next two numbers, the first of them above the second.
    #[inline]
    pub(crate) fn draw_word(&mut self) -> u64 {
        let high = u64::from(self.draw());
        (high << 32) | u64::from(self.draw())
    }

    /// A number below `bound`, made of the next one.
    #[inline]
    pub(crate) fn below(&mut self, bound: usize) -> usize
        requires positive { 0 < bound }
        requires fits { bound ≤ 2 ^ 32 }
        ensures { result < bound }
    {
        scaled(self.draw(), bound)
    }
}

/// A drawn number as one below `bound`.
#[inline]
pub(crate) fn scaled(drawn: u32, bound: usize) -> usize
    requires positive { 0 < bound }
    requires fits { bound ≤ 2 ^ 32 }
    ensures { result < bound }
{
    ((u64::from(drawn) * bound as u64) >> 32) as usize
}

/// A checksum of 64-bit words, FNV-1a taken a word at a time. `{}` writes 16 hexadecimal digits.
#[derive(Clone, Copy)]
pub(crate) struct Checksum(u64);

impl Checksum {
    pub(crate) fn new() -> Self {
        Checksum(0xcbf2_9ce4_8422_2325)
    }

    #[inline]
    pub(crate) fn mix(&mut self, word: u64) {
        self.0 = (self.0 ^ word).wrapping_mul(0x100_0000_01b3);
    }

    /// Mixes the bytes of a text, eight a word, the first of them lowest, and then how many they are.
    pub(crate) fn mix_text(&mut self, text: &str) {
        let (chunks, rest) = text.as_bytes().as_chunks::<8>();
        for bytes in chunks {
            self.mix(u64::from_le_bytes(*bytes));
        }
        if !rest.is_empty() {
            let mut word = [0; 8];
            for (byte, of_rest) in word.iter_mut().zip(rest) {
                *byte = *of_rest;
            }
            self.mix(u64::from_le_bytes(word));
        }
        self.mix(text.len() as u64);
    }
}

impl fmt::Display for Checksum {
    fn fmt<W: fmt::Write>(&self, f: &mut fmt::Formatter<W>) -> fmt::Result {
        write!(f, "{:016x}", self.0)
    }
}
