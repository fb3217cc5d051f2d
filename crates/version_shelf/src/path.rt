//! Where in a shelf does a key belong, and what is on both sides of it?

ghost use Rattle.std.specs.Prelude.{◌≡◌, ◌++◌, ◌+◌, ◌<◌, ◌≤◌, ◌^◌, IfOk, List, is_some, length};
ghost use Rattle.std.specs.Option.{option_copied};
ghost use Rattle.version_shelf.specs.Shelf.{IsInOrder, get, rows_below, rows_above};
ghost use Rattle.version_shelf.specs.Nodes.{AreNodes, IsCutAt, IsPath, flatten, least_leaves, least_rows, most_inners};

use crate::count::Count;
use crate::leaf::{Parts, part};
use crate::node::{InnerNode, Leaf};
use crate::rebuilt::rebuilt;
use crate::search::{Cut, cut_at};
use crate::shared_row::SharedRow;
use std::alloc::{AllocError, Global};

pub(crate) const LEAST_ROWS: usize = 16;

pub(crate) const LEAST_LEAVES: usize = 32;

/// The path from the root to a key: the inner nodes of a shelf, the leaves of one inner node, and the rows of one
/// leaf. Each list is cut at the key.
#[derive(Drop)]
pub(crate) struct Path<'a, K, V> {
    pub(crate) inners: Cut<'a, Leaf<K, V>>,
    pub(crate) leaves: Cut<'a, SharedRow<K, V>>,
    pub(crate) rows: Parts<'a, K, V>,
}

/// Returns the path to a key, in the inner nodes of a shelf. Makes at most 28 comparisons.
pub(crate) fn path_to<'a, K: Ord, V>(
    inners: &'a [InnerNode<K, V>],
    key: &K,
    count: &mut Count,
) -> Path<'a, K, V>
    requires order { IsInOrder K.cmp (flatten (flatten inners.now)) }
    requires inners { AreNodes least_leaves inners.now }
    requires leaves { AreNodes least_rows (flatten inners.now) }
    requires size { length inners.now ≤ most_inners }
    requires room { count.old + 28 < 2 ^ 64 }
    ensures leads { IsPath inners.now result.inners.below.now result.inners.at.now result.inners.above.now result.leaves.below.now result.leaves.at.now result.leaves.above.now }
    ensures size { length result.rows.below.now + length result.rows.above.now ≤ length result.leaves.at.now }
    ensures least { length result.leaves.at.now ≤ length result.rows.below.now + length result.rows.above.now + 1 }
    ensures below { flatten (flatten result.inners.below.now) ++ (flatten result.leaves.below.now ++ result.rows.below.now) ≡ rows_below K.cmp (flatten (flatten inners.now)) key.now }
    ensures value { option_copied result.rows.value ≡ get K.cmp (flatten (flatten inners.now)) key.now }
    ensures above { result.rows.above.now ++ (flatten result.leaves.above.now ++ flatten (flatten result.inners.above.now)) ≡ rows_above K.cmp (flatten (flatten inners.now)) key.now }
    ensures whole { IsCutAt (is_some result.rows.value) result.leaves.at.now result.rows.below.now result.rows.above.now }
    ensures counted { (count.old ≤ count.new) × (count.new ≤ count.old + 28) }
{
    let inners = cut_at(inners, key, count);
    let leaves = cut_at(inners.at, key, count);
    let rows = part(leaves.at, key, count);
    Path {
        inners,
        leaves,
        rows,
    }
}

/// Returns the inner nodes of a shelf in which these rows replace those of the leaf at the end of the path. The error is out
/// of memory, or a reference count at its maximum.
pub(crate) fn inners_with<K: Drop, V: Drop>(
    alloc: Global,
    path: &Path<'_, K, V>,
    rows: Vec<SharedRow<K, V>>,
    count: &mut Count,
) -> Result<Vec<InnerNode<K, V>>, AllocError>
    requires leads { (inners : List (List (List (K × V)))) × IsPath inners path.now.inners.below.now path.now.inners.at.now path.now.inners.above.now path.now.leaves.below.now path.now.leaves.at.now path.now.leaves.above.now }
    requires most { length rows.items ≤ 33 }
    requires fewest { length path.now.leaves.at.now ≤ length rows.items + 1 }
    requires room { count.old + 866 < 2 ^ 64 }
    ensures rows { IfOk result (λ inners. flatten (flatten inners.items) ≡ flatten (flatten path.now.inners.below.now) ++ (flatten path.now.leaves.below.now ++ (rows.items ++ (flatten path.now.leaves.above.now ++ flatten (flatten path.now.inners.above.now))))) }
    ensures inners { IfOk result (λ inners. AreNodes least_leaves inners.items) }
    ensures leaves { IfOk result (λ inners. AreNodes least_rows (flatten inners.items)) }
    ensures counted { (count.old ≤ count.new) × (count.new ≤ count.old + 866) }
{
    let leaves = &path.leaves;
    let leaves = rebuilt(alloc, LEAST_ROWS, leaves.below, rows, leaves.above, count)?;
    let inners = &path.inners;
    rebuilt(
        alloc,
        LEAST_LEAVES,
        inners.below,
        leaves,
        inners.above,
        count,
    )
}
