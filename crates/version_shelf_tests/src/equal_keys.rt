//! Keys that differ but compare as equal: which key and which value does a shelf have?

ghost use Rattle.std.specs.Prelude.{Some, refl, nat_eq};
ghost use Rattle.std.specs.Cmp.{on_equiv, on_total, nat_cmp_total, nat_eq_equiv, partial_equiv_from_equiv, partial_order_from_agreeing_total, unsigned_ties};
ghost use Rattle.std.specs.Ordering.{nat_cmp, on};

use crate::scripts::{AsText, plays};
use std::alloc::Global;
use std::cmp::Ordering;
use std::test::Fail;
use version_shelf::Shelf;

/// A key that is ordered by its rank alone.
#[derive(Clone, Copy)]
struct Labelled {
    rank: u64,
    label: u64,
}

impl PartialEq for Labelled {
    ghost eq = { on (λ key. key.rank) nat_eq };

    ghost laws = { partial_equiv_from_equiv (on_equiv (λ key. key.rank) nat_eq_equiv) };

    fn eq(&self, other: &Labelled) -> bool {
        self.rank == other.rank
    }
}

impl Eq for Labelled {
    ghost laws = { on_equiv (λ key. key.rank) nat_eq_equiv };
}

impl PartialOrd for Labelled {
    ghost partial_cmp = { λ a b. Some (on (λ key. key.rank) nat_cmp a b) };

    ghost laws = { partial_order_from_agreeing_total (on (λ key. key.rank) nat_cmp) (on_total (λ key. key.rank) nat_cmp_total) (λ a b. refl) (λ a b. unsigned_ties a.rank b.rank) };

    fn partial_cmp(&self, other: &Labelled) -> Option<Ordering> {
        Some(self.cmp(other))
    }
}

impl Ord for Labelled {
    ghost cmp = { on (λ key. key.rank) nat_cmp };

    ghost total = { on_total (λ key. key.rank) nat_cmp_total };

    ghost matches_partial_cmp = { λ a b. refl };

    ghost matches_eq = { λ a b. unsigned_ties a.rank b.rank };

    fn cmp(&self, other: &Labelled) -> Ordering {
        self.rank.cmp(&other.rank)
    }
}

impl AsText for Labelled {
    fn of_text(_alloc: Global, text: &str) -> Result<Labelled, Fail> {
        let (rank, label) = text.split_once('-').unwrap_or((text, ""));
        Ok(Labelled {
            rank: rank.parse::<u64>()?,
            label: label.parse::<u64>()?,
        })
    }

    fn text(&self, alloc: Global) -> Result<String, Fail> {
        Ok(format!(in alloc; "{}-{}", self.rank, self.label)?)
    }
}

type Ranks = Shelf<Labelled, u64>;

/// Keys are written as their ranks and their labels.
const LABELS: &str = "\
0 with 1-7 10
1 with 2-7 20
2 with 3-7 30
3 with 2-8 21
4 range 0-0 9-0 => 3 of 3: 1-7 10 2-8 21 3-7 30
3 range 0-0 9-0 => 3 of 3: 1-7 10 2-7 20 3-7 30
3 get 2-8 => 20
3 without 2-8
5 range 0-0 9-0 => 2 of 2: 1-7 10 3-7 30
3 range 2-8 3-9 => 1 of 3: 2-7 20
";

#[test]
fn the_last_key_and_value_remain(rt: HostRuntime) -> Result<(), Fail> {
    plays(&rt, rt.alloc(), Ranks::new(rt.alloc()), LABELS)
}
