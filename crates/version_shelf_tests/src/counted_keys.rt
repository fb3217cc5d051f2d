//! Numbers whose comparisons and copies are counted.

ghost use Rattle.std.specs.Prelude.{Some, refl, nat_eq, ◌≡◌};
ghost use Rattle.std.specs.Cmp.{nat_cmp_total, nat_eq_equiv, partial_equiv_from_equiv, partial_order_from_agreeing_total, unsigned_ties};
ghost use Rattle.std.specs.Ordering.{nat_cmp};

use crate::bounds::is_at_most;
use std::alloc::AllocError;
use std::cell::Cell;
use std::cmp::Ordering;
use std::marker::Model;
use std::process::Abort;

/// The numbers of comparisons and of copies since they were last read.
#[derive(Drop)]
pub struct Counts {
    comparisons: Cell<u64>,
    copies: Cell<u64>,
}

impl Counts {
    pub fn new() -> Counts {
        Counts {
            comparisons: Cell::new(0),
            copies: Cell::new(0),
        }
    }

    pub fn number(&self, value: u64) -> CountedKey<'_> {
        CountedKey {
            value,
            counts: self,
        }
    }

    pub fn comparisons(&self) -> u64 {
        self.comparisons.replace(0)
    }

    pub fn copies(&self) -> u64 {
        self.copies.replace(0)
    }

    /// Asserts that at most this number of comparisons was made.
    pub fn are_at_most(&self, rt: &impl Abort, most: u64, at: &str) {
        is_at_most(rt, self.comparisons(), most, at);
    }
}

fn count_one(cell: &Cell<u64>) {
    cell.set(cell.get().wrapping_add(1));
}

/// A number whose comparisons and copies are counted. Its model in contracts is the number.
#[derive(Drop)]
pub struct CountedKey<'a> {
    value: u64,
    counts: &'a Counts,
}

impl<'a> Model for CountedKey<'a> {
    ghost use Rattle.std.specs.Prelude.{ℕ};

    ghost Value = { ℕ };

    ghost view = { λ counted. counted.value };
}

impl<'a> CountedKey<'a> {
    pub fn value(&self) -> u64
        ensures { result ≡ self.now }
    {
        self.value
    }
}

impl<'a> Clone for CountedKey<'a> {
    ghost is_clone = { λ original copy. copy ≡ original };

    fn clone(&self) -> Result<CountedKey<'a>, AllocError> {
        count_one(&self.counts.copies);
        Ok(CountedKey {
            value: self.value,
            counts: self.counts,
        })
    }
}

impl<'a> PartialEq for CountedKey<'a> {
    ghost eq = { nat_eq };

    ghost laws = { partial_equiv_from_equiv nat_eq_equiv };

    fn eq(&self, other: &CountedKey<'a>) -> bool {
        count_one(&self.counts.comparisons);
        self.value == other.value
    }
}

impl<'a> Eq for CountedKey<'a> {
    ghost laws = { nat_eq_equiv };
}

impl<'a> PartialOrd for CountedKey<'a> {
    ghost partial_cmp = { λ a b. Some (nat_cmp a b) };

    ghost laws = { partial_order_from_agreeing_total nat_cmp nat_cmp_total (λ a b. refl) unsigned_ties };

    fn partial_cmp(&self, other: &CountedKey<'a>) -> Option<Ordering> {
        Some(self.cmp(other))
    }
}

impl<'a> Ord for CountedKey<'a> {
    ghost cmp = { nat_cmp };

    ghost total = { nat_cmp_total };

    ghost matches_partial_cmp = { λ a b. refl };

    ghost matches_eq = { unsigned_ties };

    fn cmp(&self, other: &CountedKey<'a>) -> Ordering {
        count_one(&self.counts.comparisons);
        self.value.cmp(&other.value)
    }
}
