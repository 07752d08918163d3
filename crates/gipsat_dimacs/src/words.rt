//! Words of a text.
ghost use Rattle.std.specs.Prelude.{◌≡◌, ◌<◌, ◌^◌, ◌==◌, ◌||◌, Some, None, slice_index, IfOk, IfSome, OnErr, Bool};
ghost use Rattle.gipsat_dimacs.specs.Texts.{number_of, item_of, signed_item, is_blank, greatest_number};

use crate::error::{Compression, Reason};
use gipsat_cnf::Literal;
use gipsat_cnf::dimacs::Item;

// The greatest number that a text may name.
pub const GREATEST_NUMBER: u32 = 2_147_483_647;

// Whether a byte stands between words.
pub fn is_blank(byte: u8) -> bool
    ensures { result ≡ is_blank byte }
{
    matches!(byte, b' ' | b'\t' | 0x0b | 0x0c | b'\r')
}

// Why a word writes no number that a text may name.
fn not_a_number(word: &[u8]) -> Reason {
    if let Some(compression) = Compression::of(word) {
        return Reason::Compressed(compression);
    }
    if word.is_empty() || word.iter().any(|byte| !byte.is_ascii_digit()) {
        return Reason::Word;
    }
    Reason::Number
}

// The number that a word writes.
pub fn number(word: &[u8]) -> Result<u32, Reason>
    ensures ok { IfOk result (λ n. number_of word.now ≡ Some n) }
    ensures small { IfOk result (λ n. n < 2 ^ 31) }
    ensures err { OnErr result (number_of word.now ≡ None) }
{
    match giputils_text::number(word, GREATEST_NUMBER) {
        Some(n) => Ok(n),
        None => Err(not_a_number(word)),
    }
}

// What a word of a clause says, where there are so many variables.
pub fn item_in(word: &[u8], variables: u32) -> Result<Item, Reason>
    ensures ok { IfOk result (λ item. item_of variables word.now ≡ Some item) }
    ensures err { OnErr result (item_of variables word.now ≡ None) }
{
    match word {
        [b'p'] => Err(Reason::SecondHeader),
        [b'-', digits @ ..] => signed_item(number(digits)?, false, variables),
        _ => signed_item(number(word)?, true, variables),
    }
}

// What a number with a sign says, where there are so many variables.
fn signed_item(n: u32, positive: bool, variables: u32) -> Result<Item, Reason>
    requires { n < 2 ^ 31 }
    ensures ok { IfOk result (λ item. signed_item variables positive n ≡ Some item) }
    ensures err { OnErr result (signed_item variables positive n ≡ None) }
{
    if n == 0 {
        return Ok(Item::End);
    }
    if n > variables {
        return Err(Reason::Variable);
    }
    Ok(Item::Literal(Literal::new(n - 1, positive)))
}
