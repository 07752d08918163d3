//! Options that are kept in one number, whose greatest value stands for none.
ghost use Rattle.std.specs.Prelude.{◌≡◌, ◌<◌, Some, None, is_some, is_none, unwrap_or, nat_eq};
ghost use Rattle.std.specs.Option.{option_eq};
ghost use Rattle.std.specs.Ordering.{on};
ghost use Rattle.std.specs.Cmp.Rules.{comparing};
ghost use Rattle.std.specs.Borrow.{Lends, sem, u8 as row_u8, u32 as row_u32};
ghost use Rattle.std.proofs.Common.{rules};
ghost use Rattle.giputils_vec.specs.Others.{option_u8, option_u32, kept_u8, kept_u32};

use std::ops::{Deref, DerefMut};

/// An option of a number below 255, kept in one `u8`: 255 stands for none.
#[derive(Clone, Copy, Debug, Eq)]
pub struct OptionU8(u8);

impl OptionU8 {
    /// None.
    pub const NONE: Self = OptionU8(u8::MAX);

    /// The option that holds `v`, a number below 255.
    #[inline]
    pub fn some(v: u8) -> Self
        requires { v < 255 }
        ensures { option_u8 result ≡ Some v }
    {
        OptionU8(v)
    }

    /// Whether it holds a number.
    #[inline]
    pub fn is_some(&self) -> bool
        ensures { result ≡ is_some (option_u8 self.now) }
    {
        *self != Self::NONE
    }

    /// Whether it holds none.
    #[inline]
    pub fn is_none(&self) -> bool
        ensures { result ≡ is_none (option_u8 self.now) }
    {
        *self == Self::NONE
    }

    /// The number that it holds, if it holds one.
    #[inline]
    pub fn get(self) -> Option<u8>
        ensures { result ≡ option_u8 self }
    {
        match self.0 {
            u8::MAX => None,
            number => Some(number),
        }
    }
}

/// Equal as options.
impl PartialEq for OptionU8 {
    ghost eq = { on option_u8 (option_eq nat_eq) };

    ghost laws = { Prim.search (comparing, rules) };

    #[inline]
    fn eq(&self, other: &Self) -> bool {
        self.0 == other.0
    }
}

/// None.
impl Default for OptionU8 {
    ghost is_default = { λ o. option_u8 o ≡ None };

    #[inline]
    fn default() -> Self {
        Self::NONE
    }
}

/// The number, or 255 where there is none.
impl Deref for OptionU8 {
    type Target = u8;

    ghost deref_gives = { λ o n. n ≡ unwrap_or (option_u8 o) 255 };

    #[inline]
    fn deref(&self) -> &u8 {
        &self.0
    }
}

/// A number below 255 that is written is then the one that is held, and writing 255 leaves none.
impl DerefMut for OptionU8 {
    ghost use Rattle.giputils_vec.specs.contracts.others.OptionU8.{the_row};

    ghost deref_mut_gives = { λ o n. n ≡ unwrap_or (option_u8 o) 255 };

    #[inline]
    fn deref_mut(&mut self) -> &mut u8
        ensures* writes_back { sem 𝓛 (Lends the_row row_u8 self.entry result kept_u8) }
        ensures value { result.now ≡ unwrap_or (option_u8 self.old) 255 }
    {
        &mut self.0
    }
}

/// An option of a number below 4294967295, kept in one `u32`: 4294967295 stands for none.
#[derive(Clone, Copy, Debug, Eq)]
pub struct OptionU32(u32);

impl OptionU32 {
    /// None.
    pub const NONE: Self = OptionU32(u32::MAX);

    /// The option that holds `v`, a number below 4294967295.
    #[inline]
    pub fn some(v: u32) -> Self
        requires { v < 4294967295 }
        ensures { option_u32 result ≡ Some v }
    {
        OptionU32(v)
    }

    /// Whether it holds a number.
    #[inline]
    pub fn is_some(&self) -> bool
        ensures { result ≡ is_some (option_u32 self.now) }
    {
        *self != Self::NONE
    }

    /// Whether it holds none.
    #[inline]
    pub fn is_none(&self) -> bool
        ensures { result ≡ is_none (option_u32 self.now) }
    {
        *self == Self::NONE
    }

    /// The number that it holds, if it holds one.
    #[inline]
    pub fn get(self) -> Option<u32>
        ensures { result ≡ option_u32 self }
    {
        match self.0 {
            u32::MAX => None,
            number => Some(number),
        }
    }
}

/// Equal as options.
impl PartialEq for OptionU32 {
    ghost eq = { on option_u32 (option_eq nat_eq) };

    ghost laws = { Prim.search (comparing, rules) };

    #[inline]
    fn eq(&self, other: &Self) -> bool {
        self.0 == other.0
    }
}

/// None.
impl Default for OptionU32 {
    ghost is_default = { λ o. option_u32 o ≡ None };

    #[inline]
    fn default() -> Self {
        Self::NONE
    }
}

/// The number, or 4294967295 where there is none.
impl Deref for OptionU32 {
    type Target = u32;

    ghost deref_gives = { λ o n. n ≡ unwrap_or (option_u32 o) 4294967295 };

    #[inline]
    fn deref(&self) -> &u32 {
        &self.0
    }
}

/// A number below 4294967295 that is written is then the one that is held, and writing 4294967295 leaves none.
impl DerefMut for OptionU32 {
    ghost use Rattle.giputils_vec.specs.contracts.others.OptionU32.{the_row};

    ghost deref_mut_gives = { λ o n. n ≡ unwrap_or (option_u32 o) 4294967295 };

    #[inline]
    fn deref_mut(&mut self) -> &mut u32
        ensures* writes_back { sem 𝓛 (Lends the_row row_u32 self.entry result kept_u32) }
        ensures value { result.now ≡ unwrap_or (option_u32 self.old) 4294967295 }
    {
        &mut self.0
    }
}
