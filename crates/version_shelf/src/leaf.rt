//! How are the rows of one leaf searched and changed?

ghost use Rattle.std.specs.Prelude.{◌≡◌, ◌++◌, ◌∷◌, ◌+◌, ◌<◌, ◌≤◌, ◌^◌, IfOk, is_some, length};
ghost use Rattle.std.specs.Option.{option_copied};
ghost use Rattle.version_shelf.specs.Nodes.{IsCutAt};
ghost use Rattle.version_shelf.specs.Shelf.{IsInOrder, get, rows_below, rows_above, rows_between, rows_from};

use crate::bound::Bound;
use crate::count::{Count, compared};
use crate::node::{append, put};
use crate::search::{position, position_near};
use crate::shared_row::SharedRow;
use std::alloc::{AllocError, Global};

/// The rows of a leaf relative to a key: those below it, the value at it, if there is one, and those above it.
#[derive(Drop)]
pub(crate) struct Parts<'a, K, V> {
    pub(crate) below: &'a [SharedRow<K, V>],
    pub(crate) value: Option<&'a V>,
    pub(crate) above: &'a [SharedRow<K, V>],
}

/// Splits the rows at a bound, by binary search: returns those below it, and the others.
pub(crate) fn split<'a, K: Ord, V, B: Bound<K>>(
    rows: &'a [SharedRow<K, V>],
    bound: &B,
    count: &mut Count,
) -> (&'a [SharedRow<K, V>], &'a [SharedRow<K, V>])
    requires order { IsInOrder K.cmp rows.now }
    requires size { length rows.now ≤ 32 }
    requires room { count.old + 9 < 2 ^ 64 }
    ensures below { result.0.now ≡ rows_below K.cmp rows.now (B.position bound.now) }
    ensures others { result.1.now ≡ rows_from K.cmp rows.now (B.position bound.now) }
    ensures whole { rows.now ≡ result.0.now ++ result.1.now }
    ensures counted { (count.old ≤ count.new) × (count.new ≤ count.old + 9) }
{
    rows.split_at(position(rows, bound, count))
}

/// As [`split`], for a bound that most often is not above the first row, which is compared first.
fn split_near<'a, K: Ord, V, B: Bound<K>>(
    rows: &'a [SharedRow<K, V>],
    bound: &B,
    count: &mut Count,
) -> (&'a [SharedRow<K, V>], &'a [SharedRow<K, V>])
    requires order { IsInOrder K.cmp rows.now }
    requires size { length rows.now ≤ 32 }
    requires room { count.old + 10 < 2 ^ 64 }
    ensures below { result.0.now ≡ rows_below K.cmp rows.now (B.position bound.now) }
    ensures others { result.1.now ≡ rows_from K.cmp rows.now (B.position bound.now) }
    ensures counted { (count.old ≤ count.new) × (count.new ≤ count.old + 10) }
{
    rows.split_at(position_near(rows, bound, count))
}

/// Splits the rows at a key.
pub(crate) fn part<'a, K: Ord, V>(
    rows: &'a [SharedRow<K, V>],
    key: &K,
    count: &mut Count,
) -> Parts<'a, K, V>
    requires order { IsInOrder K.cmp rows.now }
    requires size { length rows.now ≤ 32 }
    requires room { count.old + 10 < 2 ^ 64 }
    ensures below { result.below.now ≡ rows_below K.cmp rows.now key.now }
    ensures value { option_copied result.value ≡ get K.cmp rows.now key.now }
    ensures above { result.above.now ≡ rows_above K.cmp rows.now key.now }
    ensures whole { IsCutAt (is_some result.value) rows.now result.below.now result.above.now }
    ensures counted { (count.old ≤ count.new) × (count.new ≤ count.old + 10) }
{
    let (below, others) = split(rows, key, count);
    match others.split_first() {
        Some((row, above)) if compared(row.key(), key, count).is_eq() => Parts {
            below,
            value: Some(row.value()),
            above,
        },
        _ => Parts {
            below,
            value: None,
            above: others,
        },
    }
}

/// Returns the rows with `lo <= key < hi`.
pub(crate) fn between<'a, K: Ord, V, L: Bound<K>, H: Bound<K>>(
    rows: &'a [SharedRow<K, V>],
    lo: &L,
    hi: &H,
    count: &mut Count,
) -> &'a [SharedRow<K, V>]
    requires order { IsInOrder K.cmp rows.now }
    requires size { length rows.now ≤ 32 }
    requires room { count.old + 19 < 2 ^ 64 }
    ensures rows { result.now ≡ rows_between K.cmp rows.now (L.position lo.now) (H.position hi.now) }
    ensures counted { (count.old ≤ count.new) × (count.new ≤ count.old + 19) }
{
    let (_, from) = split(rows, lo, count);
    split_near(from, hi, count).0
}

/// Returns a new list of the rows below, the row, and the rows above. Adds the number of rows put into it to the count. The
/// error is out of memory, or a reference count at its maximum.
pub(crate) fn rows_with<K: Drop, V: Drop>(
    alloc: Global,
    below: &[SharedRow<K, V>],
    row: SharedRow<K, V>,
    above: &[SharedRow<K, V>],
    count: &mut Count,
) -> Result<Vec<SharedRow<K, V>>, AllocError>
    requires size { length below.now + length above.now ≤ 32 }
    requires room { count.old + 33 < 2 ^ 64 }
    ensures rows { IfOk result (λ all. all.items ≡ below.now ++ row ∷ above.now) }
    ensures counted { (count.old ≤ count.new) × (count.new ≤ count.old + 33) }
{
    let mut all = Vec::with_capacity(alloc, below.len() + 1 + above.len())?;
    append(&mut all, below, count)?;
    put(&mut all, row, count)?;
    append(&mut all, above, count)?;
    Ok(all)
}

/// Returns a new list of the rows below and the rows above. Adds the number of rows put into it to the count. The error is
/// out of memory, or a reference count at its maximum.
pub(crate) fn rows_without<K: Drop, V: Drop>(
    alloc: Global,
    below: &[SharedRow<K, V>],
    above: &[SharedRow<K, V>],
    count: &mut Count,
) -> Result<Vec<SharedRow<K, V>>, AllocError>
    requires size { length below.now + length above.now ≤ 32 }
    requires room { count.old + 33 < 2 ^ 64 }
    ensures rows { IfOk result (λ all. all.items ≡ below.now ++ above.now) }
    ensures counted { (count.old ≤ count.new) × (count.new ≤ count.old + 33) }
{
    let mut all = Vec::with_capacity(alloc, below.len() + above.len())?;
    append(&mut all, below, count)?;
    append(&mut all, above, count)?;
    Ok(all)
}
