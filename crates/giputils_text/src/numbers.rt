//! Numbers in decimal digits.
ghost use Rattle.std.specs.Prelude.{◌≡◌, ◌≤◌, IfSome};
ghost use Rattle.giputils_text.specs.Numbers.{number_up_to};

/// The number that a word of decimal digits alone writes, where it is no greater than `greatest`.
pub fn number(word: &[u8], greatest: u32) -> Option<u32>
    ensures number { result ≡ number_up_to greatest word.now }
    ensures at_most { IfSome result (λ n. n ≤ greatest) }
{
    if word.is_empty() {
        return None;
    }
    let mut value: u64 = 0;
    for digit in word {
        if !digit.is_ascii_digit() {
            return None;
        }
        value = value * 10 + u64::from(*digit - b'0');
        if value > u64::from(greatest) {
            return None;
        }
    }
    Some(value as u32)
}
