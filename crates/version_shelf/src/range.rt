//! What does an iterator over the rows from a bound on, or between two, return?

ghost use Rattle.std.specs.Prelude.{◌≡◌, ◌++◌};
ghost use Rattle.std.specs.Iterator.{YieldsFirstBy, item_count};

use crate::walk::{Walk, refill};
use std::marker::Model;

/// An iterator over rows of a shelf in ascending order of keys: all rows, those from a bound on, or those between two. A
/// contract sees it as the list of the remaining rows. `next` returns the first of them; no call allocates memory.
#[derive(Drop)]
pub struct Range<'a, K: Ord + 'a, V: 'a> {
    walk: Walk<'a, K, V>,
}

impl<'a, K: Ord + 'a, V: 'a> Model for Range<'a, K, V> {
    ghost use Rattle.std.specs.Prelude.{List};
    ghost use Rattle.version_shelf.specs.Nodes.{AreWalkNodes, walk_rows};

    ghost Value = { List (K × V) };

    ghost view = { λ range. let walk = range.walk in walk_rows walk.rest.now walk.leaves.now walk.inners.now walk.last_leaves.now walk.last.now };

    ghost invariant = { λ range. let walk = range.walk in AreWalkNodes walk.leaves.now walk.inners.now walk.last_leaves.now };
}

impl<'a, K: Ord + 'a, V: 'a> Range<'a, K, V> {
    ghost use Rattle.std.specs.Prelude.{◌≡◌};
    ghost use Rattle.version_shelf.specs.Nodes.{AreWalkNodes, walk_rows};

    /// Makes the iterator over the remaining rows of a walk.
    pub(crate) fn of(walk: Walk<'a, K, V>) -> Range<'a, K, V>
        requires { AreWalkNodes walk.leaves.now walk.inners.now walk.last_leaves.now }
        ensures { result ≡ walk_rows walk.entry.rest.now walk.entry.leaves.now walk.entry.inners.now walk.entry.last_leaves.now walk.entry.last.now }
    {
        Range { walk }
    }
}

impl<'a, K: Ord + 'a, V: 'a> Iterator for Range<'a, K, V> {
    type Item = (&'a K, &'a V);

    ghost next_gives = { YieldsFirstBy (λ row. (row.0.now, row.1.now)) (λ rows. rows) };

    ghost remaining = { item_count (λ rows. rows) };

    fn next(&mut self) -> Option<(&'a K, &'a V)> {
        if self.walk.rest.is_empty() {
            refill(&mut self.walk);
        }
        let (row, rest) = self.walk.rest.split_first()?;
        self.walk.rest = rest;
        Some((row.key(), row.value()))
    }
}
