//! How often may a batch be tried?

use std::marker::Model;

/// How often a batch may be tried: 1 to 16 times. The model in contracts is the number.
#[derive(Debug, Drop)]
pub struct Tries {
    count: u64,
}

impl Model for Tries {
    ghost use Rattle.std.specs.Prelude.{ℕ, ◌≤◌};
    ghost use Rattle.std.specs.Coded.{coded_ℕ};

    ghost Value = { ℕ };

    ghost coded = { coded_ℕ };

    ghost view = { λ tries. tries.count };

    ghost invariant = { λ tries. (1 ≤ tries.count) × (tries.count ≤ 16) };
}

impl Tries {
    ghost use Rattle.std.specs.Prelude.{◌≡◌, ◌≤◌};
    ghost use Rattle.line_reading.specs.Fields.{tries_of};

    /// Returns this number of tries, if it is 1 to 16.
    pub(crate) fn of(count: u64) -> Option<Tries>
        ensures { result ≡ tries_of count }
    {
        if count > 0 && !(count > 16) {
            Some(Tries { count })
        } else {
            None
        }
    }

    /// Returns the number, 1 to 16.
    pub fn count(&self) -> u64
        ensures value { result ≡ self.now }
        ensures least { 1 ≤ result }
        ensures most { result ≤ 16 }
    {
        self.count
    }
}
