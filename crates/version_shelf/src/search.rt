//! Where in an ordered list of parts does a bound belong?

ghost use Rattle.std.specs.Prelude.{◌≡◌, ◌+◌, ◌-◌, ◌<◌, ◌≤◌, ◌^◌, Bool, ℕ, length, take};
ghost use Rattle.version_shelf.specs.Nodes.{AreNodes, Cuts, CutsAt, IsSplitIndex, last_passes};

use crate::bound::Bound;
use crate::count::{Count, is_below};
use crate::node::Node;
use crate::shared_row::SharedRow;

/// A part that can be compared with a bound: a row, or a node, which counts as its last row.
pub(crate) trait Sought<K: Ord> {
    // the part's last key is below the key
    ghost below: { K → Self → Bool };

    // the least number of these parts in a node that has neighbours
    ghost least: { ℕ };

    /// Returns true if the part's last key is below the bound. Makes at most one comparison.
    fn is_below<B: Bound<K>>(&self, bound: &B, count: &mut Count) -> bool
        requires { count.old + 1 < 2 ^ 64 }
        ensures below { result ≡ below (B.position bound.now) self.now }
        ensures counted { (count.old ≤ count.new) × (count.new ≤ count.old + 1) };
}

impl<K: Ord, V> Sought<K> for SharedRow<K, V> {
    ghost use Rattle.std.specs.Ordering.{is_lt};
    ghost use Rattle.version_shelf.specs.Nodes.{least_rows};

    ghost below = { λ key row. is_lt (K.cmp row.0 key) };

    ghost least = { least_rows };

    fn is_below<B: Bound<K>>(&self, bound: &B, count: &mut Count) -> bool {
        is_below(self.key(), bound, count)
    }
}

impl<K: Ord, T: Sought<K>> Sought<K> for Node<T> {
    ghost use Rattle.version_shelf.specs.Nodes.{last_passes, least_leaves};

    ghost below = { λ key parts. last_passes (T.below key) parts };

    ghost least = { least_leaves };

    fn is_below<B: Bound<K>>(&self, bound: &B, count: &mut Count) -> bool {
        match self.parts().split_last() {
            Some((part, _)) => part.is_below(bound, count),
            None => false,
        }
    }
}

/// Returns the index of the bound, by binary search: the part before it is below the bound, and the part at it isn't. Makes
/// at most 9 comparisons.
pub(crate) fn position<K: Ord, T: Sought<K>, B: Bound<K>>(
    parts: &[T],
    bound: &B,
    count: &mut Count,
) -> usize
    requires size { length parts.now < 512 }
    requires room { count.old + 9 < 2 ^ 64 }
    ensures position { IsSplitIndex (T.below (B.position bound.now)) parts.now result }
    ensures counted { (count.old ≤ count.new) × (count.new ≤ count.old + 9) }
{
    let mut from = 0;
    let mut until = parts.len();
    while from < until {
        let middle = from + (until - from) / 2;
        if parts[middle].is_below(bound, count) {
            from = middle + 1;
        } else {
            until = middle;
        }
    }
    from
}

/// As [`position`], for a bound whose index most often is 0: the first part is compared before the search. Makes at most 10
/// comparisons.
pub(crate) fn position_near<K: Ord, T: Sought<K>, B: Bound<K>>(
    parts: &[T],
    bound: &B,
    count: &mut Count,
) -> usize
    requires size { length parts.now < 512 }
    requires room { count.old + 10 < 2 ^ 64 }
    ensures position { IsSplitIndex (T.below (B.position bound.now)) parts.now result }
    ensures counted { (count.old ≤ count.new) × (count.new ≤ count.old + 10) }
{
    if !parts.is_empty() && !parts[0].is_below(bound, count) {
        return 0;
    }
    position(parts, bound, count)
}

/// Returns the parts without the last one.
fn all_but_last<T>(parts: &[T]) -> &[T]
    ensures { result.now ≡ take (length parts.now - 1) parts.now }
{
    match parts.split_last() {
        Some((_, others)) => others,
        None => parts,
    }
}

/// An ordered list of nodes cut at a bound: the nodes before it, the parts of the node where it belongs, and the nodes
/// after that one. If there is no node, all three are empty.
#[derive(Drop)]
pub(crate) struct Cut<'a, T> {
    pub(crate) below: &'a [Node<T>],
    pub(crate) at: &'a [T],
    pub(crate) above: &'a [Node<T>],
}

/// Cuts the nodes at the first one whose last key isn't below the bound, or at the last node.
pub(crate) fn cut_at<'a, K: Ord, T: Sought<K>, B: Bound<K>>(
    nodes: &'a [Node<T>],
    bound: &B,
    count: &mut Count,
) -> Cut<'a, T>
    requires nodes { AreNodes T.least nodes.now }
    requires size { length nodes.now ≤ 512 }
    requires room { count.old + 9 < 2 ^ 64 }
    ensures cuts { Cuts T.least nodes.now result.below.now result.at.now result.above.now }
    ensures key { CutsAt (T.below (B.position bound.now)) result.below.now result.at.now result.above.now }
    ensures counted { (count.old ≤ count.new) × (count.new ≤ count.old + 9) }
{
    cut_at_position(nodes, bound, position(all_but_last(nodes), bound, count))
}

/// As [`cut_at`], for a bound that most often belongs to the first node, which is compared first.
pub(crate) fn cut_near<'a, K: Ord, T: Sought<K>, B: Bound<K>>(
    nodes: &'a [Node<T>],
    bound: &B,
    count: &mut Count,
) -> Cut<'a, T>
    requires nodes { AreNodes T.least nodes.now }
    requires size { length nodes.now ≤ 512 }
    requires room { count.old + 10 < 2 ^ 64 }
    ensures cuts { Cuts T.least nodes.now result.below.now result.at.now result.above.now }
    ensures key { CutsAt (T.below (B.position bound.now)) result.below.now result.at.now result.above.now }
    ensures counted { (count.old ≤ count.new) × (count.new ≤ count.old + 10) }
{
    cut_at_position(
        nodes,
        bound,
        position_near(all_but_last(nodes), bound, count),
    )
}

/// Cuts the nodes at this index, which is that of the bound among all nodes but the last.
fn cut_at_position<'a, K: Ord, T: Sought<K>, B: Bound<K>>(
    nodes: &'a [Node<T>],
    bound: &B,
    position: usize,
) -> Cut<'a, T>
    requires nodes { AreNodes T.least nodes.now }
    requires position { IsSplitIndex (last_passes (T.below (B.position bound.now))) (take (length nodes.now - 1) nodes.now) position }
    ensures cuts { Cuts T.least nodes.now result.below.now result.at.now result.above.now }
    ensures key { CutsAt (T.below (B.position bound.now)) result.below.now result.at.now result.above.now }
{
    // the bound occurs in the contract alone
    let _ = bound;
    let (below, from) = nodes.split_at(position);
    match from.split_first() {
        Some((node, above)) => Cut {
            below,
            at: node.parts(),
            above,
        },
        None => Cut {
            below,
            at: &[],
            above: from,
        },
    }
}
