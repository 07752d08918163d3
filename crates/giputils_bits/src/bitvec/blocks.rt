//! Tests of words, many at once.
ghost use Rattle.std.specs.Prelude.{◌≡◌, ◌↔◌, IsTrue, length};
ghost use Rattle.giputils_bits.specs.Places.{MakesZeros};

use super::words::WordOp;

// How many words are tested at once: so many that the processor takes several in one step, so few that a difference is
// found soon.
const BLOCK: usize = 64;

// Whether two lists of words, of one length, are equal.
pub(crate) fn same_words(words: &[u64], others: &[u64]) -> bool
    requires { length words.now ≡ length others.now }
    ensures { IsTrue result ↔ (words.now ≡ others.now) }
{
    let mut rest = words;
    let mut others_rest = others;
    while rest.len() > BLOCK {
        let (block, more) = rest.split_at(BLOCK);
        let (others_block, others_more) = others_rest.split_at(BLOCK);
        if !same_block(block, others_block) {
            return false;
        }
        rest = more;
        others_rest = others_more;
    }
    same_block(rest, others_rest)
}

// The same, of few words: no word is a reason to stop before the last.
#[inline]
fn same_block(words: &[u64], others: &[u64]) -> bool
    requires { length words.now ≡ length others.now }
    ensures { IsTrue result ↔ (words.now ≡ others.now) }
{
    let mut differences = 0;
    for k in 0..words.len() {
        differences |= words[k] ^ others[k];
    }
    differences == 0
}

// Whether the operation makes 0 of each word and the other at its place.
pub(crate) fn makes_zeros<O: WordOp>(words: &[u64], others: &[u64]) -> bool
    requires { length words.now ≡ length others.now }
    ensures { IsTrue result ↔ MakesZeros O.made words.now others.now }
{
    let mut rest = words;
    let mut others_rest = others;
    while rest.len() > BLOCK {
        let (block, more) = rest.split_at(BLOCK);
        let (others_block, others_more) = others_rest.split_at(BLOCK);
        if !block_makes_zeros::<O>(block, others_block) {
            return false;
        }
        rest = more;
        others_rest = others_more;
    }
    block_makes_zeros::<O>(rest, others_rest)
}

// The same, of few words: no word is a reason to stop before the last.
#[inline]
fn block_makes_zeros<O: WordOp>(words: &[u64], others: &[u64]) -> bool
    requires { length words.now ≡ length others.now }
    ensures { IsTrue result ↔ MakesZeros O.made words.now others.now }
{
    let mut made = 0;
    for k in 0..words.len() {
        made |= O::apply(words[k], others[k]);
    }
    made == 0
}
