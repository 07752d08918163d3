//! A bit vector read from a text.
ghost use Rattle.std.specs.Prelude.{◌≡◌, ◌≤◌, length, IfOk, IfErr, IsOk, MatchOption};
ghost use Rattle.std.specs.List.{list_all};
ghost use Rattle.giputils_bits.specs.Bits.{value_of};
ghost use Rattle.giputils_bits.specs.Error.{IsMemory};
ghost use Rattle.giputils_bits.specs.Text.{binary_text, is_binary_digit, places_written, IsNoBinaryText};

use super::BitVec;
use super::error::BitVecError;
use std::alloc::Allocator;

impl<A: Allocator> BitVec<A> {
    /// The bits whose binary text this is, as `Display` writes it, or none where it is no such text: one digit `0` or
    /// `1` for each bit, the last bit first, or `[]` for no bit.
    ///
    /// # Errors
    /// `Memory` where there are more than 64 digits and the one request for memory is refused.
    pub fn from_binary_text(alloc: A, text: &[u8]) -> Result<Option<Self>, BitVecError>
        ensures ok { IfOk result (λ read.
            MatchOption read (IsNoBinaryText text.now) (λ bits. text.now ≡ binary_text bits)) }
        ensures inline { length text.now ≤ 64 → IsOk result }
        ensures err { IfErr result IsMemory }
    {
        if text == b"[]".as_slice() {
            return Ok(Some(Self::new(alloc)));
        }
        if text.is_empty() || !are_digits(text) {
            return Ok(None);
        }
        Ok(Some(read_digits(alloc, text)?))
    }
}

// Whether each byte is a digit 0 or 1.
fn are_digits(text: &[u8]) -> bool
    ensures { result ≡ list_all is_binary_digit text.now }
{
    text.iter().all(|byte| matches!(byte, b'0' | b'1'))
}

// The bits that digits write, the last digit first. They are read by 64 from the end on, a word at a time.
fn read_digits<A: Allocator>(alloc: A, digits: &[u8]) -> Result<BitVec<A>, BitVecError>
    ensures ok { IfOk result (λ bits. bits ≡ places_written digits.now) }
    ensures inline { length digits.now ≤ 64 → IsOk result }
    ensures err { IfErr result IsMemory }
{
    let mut bits = BitVec::with_capacity(alloc, digits.len())?;
    let mut rest = digits;
    while rest.len() > BitVec::WORD_SIZE {
        let (front, last) = rest.split_at(rest.len() - BitVec::WORD_SIZE);
        bits.push_word(number(last))?;
        rest = front;
    }
    bits.push_word(number(rest))?;
    bits.truncate(digits.len());
    Ok(bits)
}

// The number that at most 64 digits write.
fn number(digits: &[u8]) -> u64
    requires { length digits.now ≤ 64 }
    ensures { result ≡ value_of (places_written digits.now) }
{
    let mut number = 0;
    for digit in digits {
        number = 2 * number + u64::from(*digit == b'1');
    }
    number
}
