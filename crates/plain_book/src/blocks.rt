//! Where in blocks of rows does a key belong, and how is the block of a key replaced?

ghost use Rattle.std.specs.Prelude.{◌≡◌, ◌≤◌, ◌<◌, ◌++◌, ◌∷◌, [], OnOk, IfOk, drop, length, take};
ghost use Rattle.std.specs.List.{AllByRecursion};
ghost use Rattle.entry_book.specs.Order.{Ascending, is_before};
ghost use Rattle.plain_book.specs.Blocks.{IsBlock, IsBlockRank, IsCut, begins_behind, joined};

use crate::row::BookRow;
use entry_book::{Sequence, Shared};
use std::alloc::{AllocError, Global};

/// The largest number of rows in a block.
const MOST: usize = 256;

/// Consecutive rows of a list, shared by books through a reference count.
pub(crate) type Block<T> = Shared<Sequence<T>>;

/// Returns true if the bytes are before the others in lexicographic order.
#[tactic(auto, unfolding(entry_book::specs::Order::is_before))]
fn is_before(bytes: &[u8], others: &[u8]) -> bool
    ensures { result ≡ is_before bytes.now others.now }
{
    bytes.cmp(others).is_lt()
}

/// Returns true if the block has a first row and its key is after this key.
fn begins_behind<T: BookRow>(block: &[T], key: &[u8]) -> bool
    ensures { result ≡ begins_behind T.key key.now block.now }
{
    match block.split_first() {
        Some((row, _)) => is_before(key, row.key()),
        None => false,
    }
}

/// Returns the number of blocks that don't begin after the key, by binary search.
fn block_rank<T: BookRow>(blocks: &[Block<T>], key: &[u8]) -> usize
    ensures { IsBlockRank T.key key.now blocks.now result }
{
    let mut from = 0;
    let mut until = blocks.len();
    while from < until {
        let middle = from + (until - from) / 2;
        if begins_behind(blocks[middle].get().as_slice(), key) {
            until = middle;
        } else {
            from = middle + 1;
        }
    }
    from
}

/// Blocks cut at a key: the blocks whose rows are below it, the rows of the block to which it belongs, and the blocks whose
/// rows are above it.
#[derive(Drop)]
pub(crate) struct Cut<'a, T> {
    pub(crate) before: &'a [Block<T>],
    pub(crate) rows: &'a [T],
    pub(crate) behind: &'a [Block<T>],
}

/// Cuts the blocks at a key, by binary search.
pub(crate) fn cut_at<'a, T: BookRow>(blocks: &'a [Block<T>], key: &[u8]) -> Cut<'a, T>
    requires order { Ascending T.key (joined blocks.now) }
    requires filled { AllByRecursion IsBlock blocks.now }
    ensures { IsCut T.key key.now blocks.now result.before.now result.rows.now result.behind.now }
{
    let rank = block_rank(blocks, key).saturating_sub(1);
    let (before, from) = blocks.split_at(rank);
    match from.split_first() {
        Some((block, behind)) => Cut {
            before,
            rows: block.get().as_slice(),
            behind,
        },
        None => Cut {
            before,
            rows: &[],
            behind: from,
        },
    }
}

/// Appends the blocks, and increments their reference counts. The error, here and below, is out of memory.
fn push_shared<T: Drop>(blocks: &[Block<T>], out: &mut Vec<Block<T>>) -> Result<(), AllocError>
    ensures { OnOk result (out.new.items ≡ out.old.items ++ blocks.now) }
{
    for block in blocks {
        out.push(block.clone()?)?;
    }
    Ok(())
}

/// Appends the rows as one block.
fn push_block<T: Drop>(
    alloc: Global,
    rows: Vec<T>,
    out: &mut Vec<Block<T>>,
) -> Result<(), AllocError>
    ensures { OnOk result (out.new.items ≡ out.old.items ++ rows.items ∷ []) }
{
    out.push(Shared::of(alloc, Sequence::of(rows))?)?;
    Ok(())
}

/// Appends the rows as one block, or as halves of 128 and 129 if there are 257; appends nothing if there are none.
fn push_rows<T: Drop>(
    alloc: Global,
    rows: Vec<T>,
    out: &mut Vec<Block<T>>,
) -> Result<(), AllocError>
    requires size { length rows.items ≤ 257 }
    requires filled { AllByRecursion IsBlock out.old.items }
    ensures rows { OnOk result (joined out.new.items ≡ joined out.old.items ++ rows.items) }
    ensures filled { OnOk result (AllByRecursion IsBlock out.new.items) }
    ensures one { OnOk result (0 < length rows.items → length rows.items ≤ 256 → out.new.items ≡ out.old.items ++ rows.items ∷ []) }
    ensures halves { OnOk result (256 < length rows.items
        → out.new.items ≡ out.old.items ++ take 128 rows.items ∷ drop 128 rows.items ∷ []) }
{
    if rows.is_empty() {
        return Ok(());
    }
    if rows.len() <= MOST {
        push_block(alloc, rows, out)?;
        return Ok(());
    }
    let mut rows = rows;
    let rest = rows.split_off(MOST / 2)?;
    push_block(alloc, rows, out)?;
    push_block(alloc, rest, out)?;
    Ok(())
}

/// Returns the blocks in which these rows replace those at the cut.
pub(crate) fn with_rows_at<T: Drop>(
    alloc: Global,
    cut: &Cut<T>,
    rows: Vec<T>,
) -> Result<Vec<Block<T>>, AllocError>
    requires size { length rows.items ≤ 257 }
    requires before { AllByRecursion IsBlock cut.now.before.now }
    requires behind { AllByRecursion IsBlock cut.now.behind.now }
    ensures rows { IfOk result (λ blocks. joined blocks.items
        ≡ joined cut.now.before.now ++ (rows.items ++ joined cut.now.behind.now)) }
    ensures filled { IfOk result (λ blocks. AllByRecursion IsBlock blocks.items) }
{
    let most = cut.before.len().saturating_add(cut.behind.len());
    let mut out = Vec::with_capacity(alloc, most.saturating_add(2))?;
    push_shared(cut.before, &mut out)?;
    push_rows(alloc, rows, &mut out)?;
    push_shared(cut.behind, &mut out)?;
    Ok(out)
}
