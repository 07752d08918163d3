//! The texts of a bit vector. They are written a word at a time through a buffer on the stack, and take no memory.
ghost use Rattle.std.specs.Prelude.{◌≡◌, ◌<◌, ◌≤◌, ◌-◌, ◌^◌, true, false, Some, length, map};
ghost use Rattle.std.specs.Fmt.{digit_glyph, digits, WritesOnOk, WritesStyledOnOk};
ghost use Rattle.giputils_bits.specs.Text.{binary_text, hex_text, lowest_digits, BinaryTextsTell, HexTextsDoNotTell};
ghost use Rattle.giputils_bits.specs.Spelt.{words_text};

use super::BitVec;
use std::alloc::{Allocator, Global};
use std::marker::Model;
use std::{fmt, str};

/// The hexadecimal text of a vector, seen as that text. It is there for format strings, whose `{:x}` takes numbers
/// alone: `{}` of it is what [`fmt::LowerHex`] or [`fmt::UpperHex`] of the vector writes.
#[derive(Drop)]
pub struct Hex<'a, A: Allocator = Global> {
    bits: &'a BitVec<A>,
    upper: bool,
}

impl<'a, A: Allocator> Model for Hex<'a, A> {
    ghost use Rattle.std.specs.Prelude.{ℕ, List};

    ghost Value = { List ℕ };

    ghost use Rattle.giputils_bits.specs.Text.{hex_text};

    ghost view = { λ h. hex_text h.upper h.bits.now };
}

impl<A: Allocator> BitVec<A> {
    /// The text that `LowerHex` writes, for a format string.
    #[inline]
    pub fn lower_hex(&self) -> Hex<'_, A>
        ensures { result ≡ hex_text false self.now }
    {
        Hex {
            bits: self,
            upper: false,
        }
    }

    /// The text that `UpperHex` writes, for a format string.
    #[inline]
    pub fn upper_hex(&self) -> Hex<'_, A>
        ensures { result ≡ hex_text true self.now }
    {
        Hex {
            bits: self,
            upper: true,
        }
    }
}

/// Width, fill and flags of the caller have no effect.
impl<A: Allocator> fmt::Display for Hex<'_, A> {
    ghost output = { λ text. Some text };

    ghost styled_output = { λ text _. Some text };

    fn fmt<W: fmt::Write>(&self, f: &mut fmt::Formatter<W>) -> fmt::Result {
        write_hex(self.bits, self.upper, f)
    }
}

/// One digit a bit, the last bit first, or `[]`. Width, fill and flags of the caller have no effect.
impl<A: Allocator> fmt::Display for BitVec<A> {
    ghost output = { λ v. Some (binary_text v) };

    ghost styled_output = { λ v _. Some (binary_text v) };

    fn fmt<W: fmt::Write>(&self, f: &mut fmt::Formatter<W>) -> fmt::Result {
        write_binary(self, f)
    }
}

/// The same text as that of `Display`, also under options.
impl<A: Allocator> fmt::Debug for BitVec<A> {
    ghost debug_output = { λ v. Some (binary_text v) };

    fn fmt<W: fmt::Write>(&self, f: &mut fmt::Formatter<W>) -> fmt::Result
        ensures writes { WritesOnOk W.write_str_gives f.old result (binary_text self.now) f.new }
        ensures styled { WritesStyledOnOk W.write_str_gives f.old result (binary_text self.now) f.new }
    {
        write_binary(self, f)
    }
}

/// The same text as that of `Display`.
impl<A: Allocator> fmt::Binary for BitVec<A> {
    fn fmt<W: fmt::Write>(&self, f: &mut fmt::Formatter<W>) -> fmt::Result
        ensures writes { WritesOnOk W.write_str_gives f.old result (binary_text self.now) f.new }
        ensures styled { WritesStyledOnOk W.write_str_gives f.old result (binary_text self.now) f.new }
    {
        write_binary(self, f)
    }
}

/// `0x` and the number of the bits in base 16, or `[]`: 16 digits for each word but the last, and that one's without
/// leading zeros. Width, fill and flags of the caller have no effect.
impl<A: Allocator> fmt::LowerHex for BitVec<A> {
    fn fmt<W: fmt::Write>(&self, f: &mut fmt::Formatter<W>) -> fmt::Result
        ensures writes { WritesOnOk W.write_str_gives f.old result (hex_text false self.now) f.new }
        ensures styled { WritesStyledOnOk W.write_str_gives f.old result (hex_text false self.now) f.new }
    {
        write_hex(self, false, f)
    }
}

/// The same as `LowerHex`, with `A` to `F`; the `0x` stays small.
impl<A: Allocator> fmt::UpperHex for BitVec<A> {
    fn fmt<W: fmt::Write>(&self, f: &mut fmt::Formatter<W>) -> fmt::Result
        ensures writes { WritesOnOk W.write_str_gives f.old result (hex_text true self.now) f.new }
        ensures styled { WritesStyledOnOk W.write_str_gives f.old result (hex_text true self.now) f.new }
    {
        write_hex(self, true, f)
    }
}

/// A law of texts, which callers may cite: binary texts are equal exactly where the vectors are.
pub const fn binary_texts_tell()
    ensures { BinaryTextsTell }
{}

/// A law of texts: different vectors may have one hexadecimal text.
pub const fn hex_texts_do_not_tell()
    ensures { HexTextsDoNotTell }
{}

// Writes the binary text.
fn write_binary<A: Allocator, W: fmt::Write>(
    bits: &BitVec<A>,
    f: &mut fmt::Formatter<W>,
) -> fmt::Result
    ensures writes { WritesOnOk W.write_str_gives f.old result (binary_text bits.now) f.new }
    ensures styled { WritesStyledOnOk W.write_str_gives f.old result (binary_text bits.now) f.new }
{
    let len = bits.len();
    if len == 0 {
        return f.write_str("[]");
    }
    let words = bits.words();
    let last = (len - 1) / 64;
    let mut buffer = [b'0'; 64];
    f.write_str(spell(words[last], 1, false, len - 64 * last, &mut buffer))?;
    write_words(&words[..last], 1, 64, false, f)
}

// Writes the hexadecimal text.
fn write_hex<A: Allocator, W: fmt::Write>(
    bits: &BitVec<A>,
    upper: bool,
    f: &mut fmt::Formatter<W>,
) -> fmt::Result
    ensures writes { WritesOnOk W.write_str_gives f.old result (hex_text upper bits.now) f.new }
    ensures styled { WritesStyledOnOk W.write_str_gives f.old result (hex_text upper bits.now) f.new }
{
    let len = bits.len();
    if len == 0 {
        return f.write_str("[]");
    }
    if bits.is_zero() {
        return f.write_str("0x0");
    }
    let words = bits.words();
    let last = (len - 1) / 64;
    let mut buffer = [b'0'; 64];
    f.write_str("0x")?;
    f.write_str(spell(words[last], 4, upper, hex_len(words[last]), &mut buffer))?;
    write_words(&words[..last], 4, 16, upper, f)
}

// Writes each word, the last one first, as `count` digits of `shift` binary places each.
#[inline]
fn write_words<W: fmt::Write>(
    words: &[u64],
    shift: u32,
    count: usize,
    upper: bool,
    f: &mut fmt::Formatter<W>,
) -> fmt::Result
    requires some { 0 < shift }
    requires few { shift ≤ 4 }
    requires fits { count ≤ 64 }
    ensures { WritesStyledOnOk W.write_str_gives f.old result (words_text upper (2 ^ shift) count words.now) f.new }
{
    let mut buffer = [b'0'; 64];
    let mut left = words.len();
    while left > 0 {
        left -= 1;
        f.write_str(spell(words[left], shift, upper, count, &mut buffer))?;
    }
    Ok(())
}

// The `count` lowest digits of a word, the highest of them first, each of `shift` binary places.
#[inline]
fn spell<'b>(word: u64, shift: u32, upper: bool, count: usize, buffer: &'b mut [u8; 64]) -> &'b str
    requires some { 0 < shift }
    requires few { shift ≤ 4 }
    requires fits { count ≤ 64 }
    ensures { result.now ≡ map (digit_glyph upper) (lowest_digits (2 ^ shift) count word) }
{
    let mask = (1 << shift) - 1;
    let mut rest = word;
    for k in 0..count {
        buffer[count - 1 - k] = glyph(rest & mask, upper);
        rest >>= shift;
    }
    unsafe { str::from_utf8_unchecked(&buffer[..count]) }
}

// The digit, which is below 16, as a character.
#[inline]
fn glyph(digit: u64, upper: bool) -> u8
    requires { digit < 16 }
    ensures { result ≡ digit_glyph upper digit }
{
    let digit = digit as u8;
    if digit < 10 {
        b'0' + digit
    } else if upper {
        b'A' - 10 + digit
    } else {
        b'a' - 10 + digit
    }
}

// How many digits a word has in base 16, without leading zeros: one at least.
#[inline]
fn hex_len(word: u64) -> usize
    ensures len { result ≡ length (digits 16 false word) }
    ensures fits { result ≤ 64 }
{
    let mut len = 1;
    let mut rest = word;
    while rest >= 16 {
        rest /= 16;
        len += 1;
    }
    len
}
