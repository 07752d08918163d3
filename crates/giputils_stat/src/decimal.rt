//! Fractions of whole numbers, written with a fixed number of decimals.

// How it is proved: `write!(f, "{whole}.{decimals:0places$}")` closes, since `c.laid_out.ensures` gives `format_spec 32
// 0 4 places ..`, and `unfolding padded_integral char_count` opens it. A branch before a long `write!` leaves goals, so
// it stands in a small type with its own `Display`, and a number in a long text in a private function with clauses.

ghost use Rattle.std.specs.Prelude.{◌≡◌, ℕ, ◌+◌, ◌*◌, ◌^◌, ◌<◌, ◌≤◌, Some};
ghost use Rattle.giputils_stat.specs.Decimals.{IsNearest, rounded, decimal, ratio, seconds};

use std::cmp::Ordering;
use std::fmt;

/// The whole number nearest to `numerator / denominator`, and of two equally near ones the even one.
///
/// The denominator must be above 0.
#[inline]
pub fn rounded(numerator: u128, denominator: u64) -> u128
    requires { 0 < denominator }
    ensures nearest { IsNearest numerator denominator result }
    ensures only { (n : ℕ) → IsNearest numerator denominator n → n ≡ result }
    ensures value { result ≡ rounded numerator denominator }
{
    let denominator = denominator as u128;
    let whole = numerator / denominator;
    let rest = numerator % denominator;
    match (2 * rest).cmp(&denominator) {
        Ordering::Less => whole,
        Ordering::Equal => whole + whole % 2,
        Ordering::Greater => whole + 1,
    }
}

/// A fraction, shown with `places` decimals: rounded to the nearest, and of two equally near ones to the even one.
///
/// The denominator is above 0, and there are 1 to 19 places.
#[derive(Clone, Copy, Debug)]
pub struct Decimal {
    /// What is divided.
    pub numerator: u128,
    /// What it is divided by.
    pub denominator: u64,
    /// The number of digits after the point.
    pub places: u32,
    ghost divides: { 0 < denominator },
    ghost some_places: { 0 < places },
    ghost few_places: { places ≤ 19 },
}

impl Decimal {
    /// How many of a hundred `part` is of `whole`.
    ///
    /// `whole` must be above 0, and there must be 1 to 19 places.
    #[inline]
    pub fn percent(part: u64, whole: u64, places: u32) -> Decimal
        requires divides { 0 < whole }
        requires some_places { 0 < places }
        requires few_places { places ≤ 19 }
        ensures part { result.numerator ≡ 100 * part }
        ensures whole { result.denominator ≡ whole }
        ensures places { result.places ≡ places }
    {
        Decimal {
            numerator: 100 * part as u128,
            denominator: whole,
            places,
        }
    }

    // The whole part and the decimals. The rest of the division is below the denominator, so that no product runs over.
    fn parts(&self) -> (u128, u64)
        ensures value { result.0 * 10 ^ self.now.places + result.1
            ≡ rounded (self.now.numerator * 10 ^ self.now.places) self.now.denominator }
        ensures decimals { result.1 < 10 ^ self.now.places }
    {
        let unit = 10u64.pow(self.places);
        let denominator = self.denominator as u128;
        let whole = self.numerator / denominator;
        let rest = self.numerator % denominator;
        let decimals = rounded(rest * unit as u128, self.denominator) as u64;
        if decimals < unit {
            (whole, decimals)
        } else {
            (whole + 1, 0)
        }
    }
}

impl fmt::Display for Decimal {
    ghost output = { λ x. Some (decimal x.numerator x.denominator x.places) };

    fn fmt<W: fmt::Write>(&self, f: &mut fmt::Formatter<W>) -> fmt::Result {
        let (whole, decimals) = self.parts();
        let places = self.places as usize;
        write!(f, "{whole}.{decimals:0places$}")
    }
}

// A fraction whose denominator may be 0, where it has no value.
#[derive(Clone, Copy)]
pub(crate) struct Ratio {
    pub(crate) numerator: u128,
    pub(crate) denominator: u64,
    pub(crate) places: u32,
    ghost some_places: { 0 < places },
    ghost few_places: { places ≤ 19 },
}

impl fmt::Display for Ratio {
    ghost output = { λ x. Some (ratio x.numerator x.denominator x.places) };

    fn fmt<W: fmt::Write>(&self, f: &mut fmt::Formatter<W>) -> fmt::Result {
        if self.denominator == 0 {
            return f.write_str("NaN");
        }
        let decimal = Decimal {
            numerator: self.numerator,
            denominator: self.denominator,
            places: self.places,
        };
        decimal.fmt(f)
    }
}

/// A length of time, shown in seconds with `places` decimals and an `s`.
///
/// There are 1 to 19 places.
#[derive(Clone, Copy, Debug)]
pub struct Seconds {
    /// The length in nanoseconds.
    pub nanos: u128,
    /// The number of digits after the point.
    pub places: u32,
    ghost some_places: { 0 < places },
    ghost few_places: { places ≤ 19 },
}

impl fmt::Display for Seconds {
    ghost output = { λ s. Some (seconds s.nanos s.places) };

    fn fmt<W: fmt::Write>(&self, f: &mut fmt::Formatter<W>) -> fmt::Result {
        let seconds = Decimal {
            numerator: self.nanos,
            denominator: 1_000_000_000,
            places: self.places,
        };
        write!(f, "{seconds}s")
    }
}
