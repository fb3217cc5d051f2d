//! Where among the keys does a range begin or end?

ghost use Rattle.std.specs.Prelude.{◌≡◌};

/// A position among the keys, defined by a key that need not be constructed. A contract sees that key.
pub trait Bound<K: Ord> {
    ghost use Rattle.std.specs.Ordering.{is_lt};

    ghost position: { Self → K };

    /// Returns true if the key is below the bound's key.
    fn is_above(&self, key: &K) -> bool
        ensures { result ≡ is_lt (K.cmp key.now (position self.now)) };
}

/// A key is the bound at its own position.
impl<K: Ord> Bound<K> for K {
    ghost position = { λ key. key };

    fn is_above(&self, key: &K) -> bool {
        key.cmp(self).is_lt()
    }
}
