//! What a heap asks of its keys, and of the comparer that it is lent.

// How it is proved: laws of a trait. In an answer, a law is `g.met.T.HeapKey.one_value` and a ghost
// member is `g.T.HeapKey.number`.

ghost use Rattle.std.specs.Prelude.{◌≡◌, ◌==◌, ℕ, Bool, refl};

/// A key of a heap: a value that is told apart by its number alone.
///
/// Two values are equal, and are one and the same value, exactly where their numbers are equal.
pub trait HeapKey: Copy + PartialEq {
    /// The number of a key.
    ghost number: { Self → ℕ };

    /// The key's number.
    fn key(&self) -> u32
        ensures { result ≡ number self.now };

    /// Keys of one number are one value.
    ghost one_value: { (x y : Self) → number x ≡ number y → x ≡ y };

    /// `==` compares the numbers.
    ghost eq_by_number: { (x y : Self) → Self.eq x y ≡ (number x == number y) };
}

impl HeapKey for u8 {
    ghost number = { λ key. key };

    ghost one_value = { λ _ _ same. same };

    ghost eq_by_number = { λ _ _. refl };

    fn key(&self) -> u32 {
        u32::from(*self)
    }
}

impl HeapKey for u16 {
    ghost number = { λ key. key };

    ghost one_value = { λ _ _ same. same };

    ghost eq_by_number = { λ _ _. refl };

    fn key(&self) -> u32 {
        u32::from(*self)
    }
}

impl HeapKey for u32 {
    ghost number = { λ key. key };

    ghost one_value = { λ _ _ same. same };

    ghost eq_by_number = { λ _ _. refl };

    fn key(&self) -> u32 {
        *self
    }
}

/// A comparer of keys. It states a relation and answers it, and need not be an order.
pub trait BinaryHeapCmp<T> {
    /// Whether the first key is at least the second.
    ghost at_least: { Self → T → T → Bool };

    /// Whether `s` is at least `o`.
    fn gte(&self, s: T, o: T) -> bool
        ensures { result ≡ at_least self.now s o };
}
