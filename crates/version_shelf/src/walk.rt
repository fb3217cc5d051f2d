//! How does an iterator move from node to node?

ghost use Rattle.std.specs.Prelude.{◌≡◌, ◌++◌, ◌∷◌, ◌+◌, ◌<◌, ◌≤◌, ◌^◌, [], length};
ghost use Rattle.version_shelf.specs.Shelf.{IsInOrder, rows_between, rows_from};
ghost use Rattle.version_shelf.specs.Nodes.{AreFullNodes, AreNodes, AreWalkNodes, flatten, least_leaves, least_rows, most_inners, walk_rows};

use crate::bound::Bound;
use crate::count::Count;
use crate::leaf::{between, split};
use crate::node::{InnerNode, Leaf};
use crate::search::{cut_at, cut_near};
use crate::shared_row::SharedRow;

/// The remainder of a walk: rows, the leaves after them, and the inner nodes after these. Then the last leaves, from the
/// inner node of the upper bound, and the last rows, from the leaf of the upper bound.
#[derive(Drop)]
pub(crate) struct Walk<'a, K, V> {
    pub(crate) rest: &'a [SharedRow<K, V>],
    pub(crate) leaves: &'a [Leaf<K, V>],
    pub(crate) inners: &'a [InnerNode<K, V>],
    pub(crate) last_leaves: &'a [Leaf<K, V>],
    pub(crate) last: &'a [SharedRow<K, V>],
}

/// Moves to the rows of the next leaf. May be called only if `rest` is empty; if it stays empty, the walk is over.
pub(crate) fn refill<K, V>(walk: &mut Walk<'_, K, V>)
    requires nodes { AreWalkNodes walk.old.leaves.now walk.old.inners.now walk.old.last_leaves.now }
    requires none { length walk.old.rest.now ≡ 0 }
    ensures nodes { AreWalkNodes walk.new.leaves.now walk.new.inners.now walk.new.last_leaves.now }
    ensures rows { walk_rows walk.new.rest.now walk.new.leaves.now walk.new.inners.now walk.new.last_leaves.now walk.new.last.now ≡ walk_rows walk.old.rest.now walk.old.leaves.now walk.old.inners.now walk.old.last_leaves.now walk.old.last.now }
    ensures ends { length walk.new.rest.now ≡ 0 → walk_rows walk.new.rest.now walk.new.leaves.now walk.new.inners.now walk.new.last_leaves.now walk.new.last.now ≡ [] }
{
    refill_leaves(walk);
    match walk.leaves.split_first() {
        Some((leaf, leaves)) => {
            walk.rest = leaf.parts();
            walk.leaves = leaves;
        }
        None => {
            walk.rest = walk.last;
            walk.last = &[];
        }
    }
}

/// Moves to the leaves of the next inner node if `leaves` is empty; if it stays empty, no leaf remains.
fn refill_leaves<K, V>(walk: &mut Walk<'_, K, V>)
    requires nodes { AreWalkNodes walk.old.leaves.now walk.old.inners.now walk.old.last_leaves.now }
    ensures nodes { AreWalkNodes walk.new.leaves.now walk.new.inners.now walk.new.last_leaves.now }
    ensures rest { walk.new.rest.now ≡ walk.old.rest.now }
    ensures last { walk.new.last.now ≡ walk.old.last.now }
    ensures leaves { flatten walk.new.leaves.now ++ (flatten (flatten walk.new.inners.now) ++ flatten walk.new.last_leaves.now) ≡ flatten walk.old.leaves.now ++ (flatten (flatten walk.old.inners.now) ++ flatten walk.old.last_leaves.now) }
    ensures ends { length walk.new.leaves.now ≡ 0 → flatten (flatten walk.new.inners.now) ++ flatten walk.new.last_leaves.now ≡ [] }
{
    if !walk.leaves.is_empty() {
        return;
    }
    match walk.inners.split_first() {
        Some((middle, inners)) => {
            walk.leaves = middle.parts();
            walk.inners = inners;
        }
        None => {
            walk.leaves = walk.last_leaves;
            walk.last_leaves = &[];
        }
    }
}

/// Returns the walk over the rows of a shelf with `lo <= key < hi`. Makes at most 57 comparisons.
pub(crate) fn walk_between<'a, K: Ord, V, L: Bound<K>, H: Bound<K>>(
    inners: &'a [InnerNode<K, V>],
    lo: &L,
    hi: &H,
    count: &mut Count,
) -> Walk<'a, K, V>
    requires order { IsInOrder K.cmp (flatten (flatten inners.now)) }
    requires inners { AreNodes least_leaves inners.now }
    requires leaves { AreNodes least_rows (flatten inners.now) }
    requires size { length inners.now ≤ most_inners }
    requires room { count.old + 57 < 2 ^ 64 }
    ensures nodes { AreWalkNodes result.leaves.now result.inners.now result.last_leaves.now }
    ensures rows { walk_rows result.rest.now result.leaves.now result.inners.now result.last_leaves.now result.last.now ≡ rows_between K.cmp (flatten (flatten inners.now)) (L.position lo.now) (H.position hi.now) }
    ensures counted { (count.old ≤ count.new) × (count.new ≤ count.old + 57) }
{
    let start = cut_at(inners, lo, count);
    let (_, from) = inners.split_at(start.below.len());
    let end = cut_near(from, hi, count);
    match end.below.split_first() {
        None => walk_in_inner(end.at, lo, hi, count),
        Some((_, inners)) => {
            let start = cut_at(start.at, lo, count);
            let end = cut_at(end.at, hi, count);
            Walk {
                rest: split(start.at, lo, count).1,
                leaves: start.above,
                inners,
                last_leaves: end.below,
                last: split(end.at, hi, count).0,
            }
        }
    }
}

/// Returns the walk over the rows of a shelf with `lo <= key`. Makes at most 28 comparisons.
pub(crate) fn walk_from<'a, K: Ord, V>(
    inners: &'a [InnerNode<K, V>],
    lo: &K,
    count: &mut Count,
) -> Walk<'a, K, V>
    requires order { IsInOrder K.cmp (flatten (flatten inners.now)) }
    requires inners { AreNodes least_leaves inners.now }
    requires leaves { AreNodes least_rows (flatten inners.now) }
    requires size { length inners.now ≤ most_inners }
    requires room { count.old + 28 < 2 ^ 64 }
    ensures nodes { AreWalkNodes result.leaves.now result.inners.now result.last_leaves.now }
    ensures rows { walk_rows result.rest.now result.leaves.now result.inners.now result.last_leaves.now result.last.now ≡ rows_from K.cmp (flatten (flatten inners.now)) lo.now }
    ensures counted { (count.old ≤ count.new) × (count.new ≤ count.old + 28) }
{
    let middle = cut_at(inners, lo, count);
    let leaf = cut_at(middle.at, lo, count);
    Walk {
        rest: split(leaf.at, lo, count).1,
        leaves: leaf.above,
        inners: middle.above,
        last_leaves: &[],
        last: &[],
    }
}

/// Returns the walk over all rows of a shelf.
pub(crate) fn walk_all<K, V>(inners: &[InnerNode<K, V>]) -> Walk<'_, K, V>
    requires inners { AreNodes least_leaves inners.now }
    requires leaves { AreNodes least_rows (flatten inners.now) }
    ensures nodes { AreWalkNodes result.leaves.now result.inners.now result.last_leaves.now }
    ensures rows { walk_rows result.rest.now result.leaves.now result.inners.now result.last_leaves.now result.last.now ≡ flatten (flatten inners.now) }
{
    match inners.split_first() {
        Some((middle, inners)) => walk_after(middle.parts(), inners),
        None => walk_after(&[], &[]),
    }
}

/// Returns the walk over the rows of these leaves, and then over those of these inner nodes.
fn walk_after<'a, K, V>(leaves: &'a [Leaf<K, V>], inners: &'a [InnerNode<K, V>]) -> Walk<'a, K, V>
    requires leaves { AreNodes least_rows (flatten (leaves.now ∷ inners.now)) }
    requires inners { AreFullNodes least_leaves inners.now }
    ensures nodes { AreWalkNodes result.leaves.now result.inners.now result.last_leaves.now }
    ensures rows { walk_rows result.rest.now result.leaves.now result.inners.now result.last_leaves.now result.last.now ≡ flatten leaves.now ++ flatten (flatten inners.now) }
{
    match leaves.split_first() {
        Some((leaf, leaves)) => Walk {
            rest: leaf.parts(),
            leaves,
            inners,
            last_leaves: &[],
            last: &[],
        },
        None => Walk {
            rest: &[],
            leaves: &[],
            inners,
            last_leaves: &[],
            last: &[],
        },
    }
}

/// Returns the walk over the rows of one inner node with `lo <= key < hi`. Makes at most 38 comparisons.
fn walk_in_inner<'a, K: Ord, V, L: Bound<K>, H: Bound<K>>(
    leaves: &'a [Leaf<K, V>],
    lo: &L,
    hi: &H,
    count: &mut Count,
) -> Walk<'a, K, V>
    requires order { IsInOrder K.cmp (flatten leaves.now) }
    requires leaves { AreNodes least_rows leaves.now }
    requires size { length leaves.now ≤ least_leaves + least_leaves }
    requires room { count.old + 38 < 2 ^ 64 }
    ensures nodes { AreWalkNodes result.leaves.now result.inners.now result.last_leaves.now }
    ensures rows { walk_rows result.rest.now result.leaves.now result.inners.now result.last_leaves.now result.last.now ≡ rows_between K.cmp (flatten leaves.now) (L.position lo.now) (H.position hi.now) }
    ensures counted { (count.old ≤ count.new) × (count.new ≤ count.old + 38) }
{
    let start = cut_at(leaves, lo, count);
    let (_, from) = leaves.split_at(start.below.len());
    let end = cut_near(from, hi, count);
    match end.below.split_first() {
        None => Walk {
            rest: between(end.at, lo, hi, count),
            leaves: &[],
            inners: &[],
            last_leaves: &[],
            last: &[],
        },
        Some((_, leaves)) => Walk {
            rest: split(start.at, lo, count).1,
            leaves,
            inners: &[],
            last_leaves: &[],
            last: split(end.at, hi, count).0,
        },
    }
}
