//! How is the work of a call counted?

ghost use Rattle.std.specs.Prelude.{◌≡◌, ◌+◌, ◌<◌, ◌^◌};
ghost use Rattle.std.specs.Ordering.{is_lt};

use crate::bound::Bound;
use std::cmp::Ordering;
use std::marker::Model;

/// A counter of the work of calls: of comparisons of keys, of rows and nodes put into new nodes, or of copied nodes. It
/// never decreases; a contract sees the number.
#[derive(Drop)]
pub struct Count {
    number: u64,
}

impl Model for Count {
    ghost use Rattle.std.specs.Prelude.{ℕ};

    ghost Value = { ℕ };

    ghost view = { λ count. count.number };
}

impl Count {
    /// Returns a counter at 0.
    pub fn new() -> Count
        ensures { result ≡ 0 }
    {
        Count { number: 0 }
    }

    /// Returns the number that was counted.
    pub fn number(&self) -> u64
        ensures { result ≡ self.now }
    {
        self.number
    }

    /// Adds to the number, which has room for it.
    pub(crate) fn raise(&mut self, by: usize)
        requires { self.old + by < 2 ^ 64 }
        ensures { self.new ≡ self.old + by }
    {
        self.number += by as u64;
    }
}

/// Returns true if the key is below the bound, and adds 1 to the count. All comparisons of keys are made here or in
/// `compared`.
pub(crate) fn is_below<K: Ord, B: Bound<K>>(key: &K, bound: &B, count: &mut Count) -> bool
    requires { count.old + 1 < 2 ^ 64 }
    ensures below { result ≡ is_lt (K.cmp key.now (B.position bound.now)) }
    ensures counted { count.new ≡ count.old + 1 }
{
    count.raise(1);
    bound.is_above(key)
}

/// Compares two keys, and adds 1 to the count.
pub(crate) fn compared<K: Ord>(one: &K, other: &K, count: &mut Count) -> Ordering
    requires { count.old + 1 < 2 ^ 64 }
    ensures order { result ≡ K.cmp one.now other.now }
    ensures counted { count.new ≡ count.old + 1 }
{
    count.raise(1);
    one.cmp(other)
}
