//! What does a mark read after some writes?

ghost use Rattle.std.specs.Prelude.{◌≡◌, ◌++◌, IfOk, IfSome, IsTrue, OnOk, Some, filter, map};
ghost use Rattle.entry_book.specs.Book.{AscendingBook};
ghost use Rattle.entry_book.specs.Order.{Ascending, is_before, with_row};
ghost use Rattle.entry_book.specs.Writes.{after, after_write};
ghost use Rattle.entry_book.specs.Tokens.{token_key};
ghost use Rattle.version_book.specs.Marks.{kept_if, names_token, seen};
ghost use Rattle.version_book.specs.RowRanks.{IsRowRank};
ghost use Rattle.version_book.specs.Written.{HasOwnKey, write_of};

use crate::changes::{Changes, RowWrite, TokenWrite};
use crate::hits::is_passed;
use crate::mark::Mark;
use crate::row::BookRow;
use crate::rows_read::RowsRead;
use entry_book::KeptBatch;
use std::alloc::{AllocError, Global};

/// Returns true if these bytes are less than the others.
#[tactic(auto, unfolding(entry_book::specs::Order::is_before))]
fn is_before(bytes: &[u8], others: &[u8]) -> bool
    ensures { result ≡ is_before bytes.now others.now }
{
    bytes.cmp(others).is_lt()
}

/// Appends copies of the rows whose keys are less than this one. The error is out of memory.
fn push_before<T: BookRow>(rows: &[T], key: &[u8], out: &mut Vec<T>) -> Result<(), AllocError>
    ensures { OnOk result (out.new.items ≡ out.old.items ++ filter (λ row. is_before (T.key row) key.now) rows.now) }
{
    for row in rows {
        if is_before(row.key(), key) {
            out.push(row.duplicate()?)?;
        }
    }
    Ok(())
}

/// Appends copies of the rows whose keys are greater than this one. The error is out of memory.
fn push_behind<T: BookRow>(rows: &[T], key: &[u8], out: &mut Vec<T>) -> Result<(), AllocError>
    ensures { OnOk result (out.new.items ≡ out.old.items ++ filter (λ row. is_before key.now (T.key row)) rows.now) }
{
    for row in rows {
        if is_before(key, row.key()) {
            out.push(row.duplicate()?)?;
        }
    }
    Ok(())
}

/// Returns the rows with the new row, if any, in place of the row with this key. The error is out of memory.
#[tactic(auto, unfolding(entry_book::specs::Order::with_row))]
fn with_row<T: BookRow>(
    alloc: Global,
    rows: &[T],
    key: &[u8],
    new: Option<T>,
) -> Result<Vec<T>, AllocError>
    ensures { IfOk result (λ out. out.items ≡ with_row T.key key.now new rows.now) }
{
    let mut out = Vec::new(alloc);
    push_before(rows, key, &mut out)?;
    if let Some(new) = new {
        out.push(new)?;
    }
    push_behind(rows, key, &mut out)?;
    Ok(out)
}

/// Returns a copy of the row, if there is one and the mark names it. The error is out of memory.
fn kept<T: BookRow>(mark: &Mark, row: &Option<T>) -> Result<Option<T>, AllocError>
    ensures { IfOk result (λ found. found ≡ kept_if (T.names mark.now) row.now) }
{
    if let Some(row) = row {
        if row.is_named(mark) {
            return Ok(Some(row.duplicate()?));
        }
    }
    Ok(None)
}

/// Returns the rows that a mark names, after a write of this row, or of none, under a key. The error is out of memory.
fn rows_after<T: BookRow>(
    alloc: Global,
    rows: &[T],
    mark: &Mark,
    key: &[u8],
    new: &Option<T>,
) -> Result<Vec<T>, AllocError>
    ensures { IfOk result (λ out. out.items ≡ with_row T.key key.now (kept_if (T.names mark.now) new.now) rows.now) }
{
    let new = kept(mark, new)?;
    with_row(alloc, rows, key, new)
}

/// Returns the stored batches that a mark names, after a write that has no place yet: its place is 0. The error is out of
/// memory.
fn tokens_after(
    alloc: Global,
    tokens: &[KeptBatch],
    mark: &Mark,
    write: &TokenWrite,
) -> Result<Vec<KeptBatch>, AllocError>
    ensures { IfOk result (λ out. out.items ≡ with_row token_key write.now.token (kept_if (names_token mark.now) (Some (record {
      token = write.now.token;
      ops = write.now.ops;
      place = 0;
      replies = write.now.replies;
    }))) tokens.now) }
{
    let change = write.at_place(0)?;
    let key = change.key.as_bytes().as_slice();
    rows_after(alloc, tokens, mark, key, &change.new)
}

/// Returns what the mark reads after one more write, in new lists. The error is out of memory.
fn after_write(
    alloc: Global,
    reading: RowsRead,
    mark: &Mark,
    write: &RowWrite,
) -> Result<RowsRead, AllocError>
    ensures { IfOk result (λ next. next ≡ after_write (seen mark.now (write_of write.now)) reading) }
{
    let mut reading = reading;
    match write {
        RowWrite::Entry(change) => {
            let key = change.key.as_bytes().as_slice();
            let rows = reading.entries.as_slice();
            reading.entries = rows_after(alloc, rows, mark, key, &change.new)?;
        }
        RowWrite::Agent(change) => {
            let key = change.key.get().as_str().as_bytes();
            let rows = reading.agents.as_slice();
            reading.agents = rows_after(alloc, rows, mark, key, &change.new)?;
        }
        RowWrite::Bundle(change) => {
            let key = change.key.get().as_str().as_bytes();
            let rows = reading.bundles.as_slice();
            reading.bundles = rows_after(alloc, rows, mark, key, &change.new)?;
        }
        RowWrite::Token(write) => {
            let rows = reading.tokens.as_slice();
            reading.tokens = tokens_after(alloc, rows, mark, write)?;
        }
    }
    Ok(reading)
}

/// Returns what the mark reads after these writes, in new lists. The rows need not be in order. The error is out of memory.
fn after_writes(
    alloc: Global,
    reading: RowsRead,
    mark: &Mark,
    writes: &[RowWrite],
) -> Result<RowsRead, AllocError>
    ensures { IfOk result (λ next. next ≡ after (map (seen mark.now) (map write_of writes.now)) reading) }
{
    let mut reading = reading;
    for write in writes {
        reading = after_write(alloc, reading, mark, write)?;
    }
    Ok(reading)
}

/// Returns the index of the row with this key, or as an error the index at which it belongs. It is a binary search.
fn rank_of<T: BookRow>(rows: &[T], key: &[u8]) -> Result<usize, usize>
    requires order { Ascending T.key rows.now }
    ensures { IsRowRank T.key rows.now key.now result }
{
    rows.binary_search_by(|row| row.key().cmp(key))
}

/// Puts the new row, if any, in place of the row with this key. The other rows stay where they are or move up or down. The error
/// is out of memory.
fn put<T: BookRow>(rows: &mut Vec<T>, key: &[u8], new: Option<T>) -> Result<(), AllocError>
    requires order { Ascending T.key rows.old.items }
    ensures { OnOk result (rows.new.items ≡ with_row T.key key.now new rows.old.items) }
{
    match rank_of(rows.as_slice(), key) {
        Ok(index) => match new {
            Some(new) => rows[index] = new,
            None => drop(rows.remove(index)),
        },
        Err(index) => {
            if let Some(new) = new {
                rows.insert(index, new)?;
            }
        }
    }
    Ok(())
}

/// Puts the new row, if any and if the mark names it, in place of the row with this key. The error is out of memory.
fn put_named<T: BookRow>(
    rows: &mut Vec<T>,
    mark: &Mark,
    key: &[u8],
    new: &Option<T>,
) -> Result<(), AllocError>
    requires order { Ascending T.key rows.old.items }
    requires keyed { IfSome new.now (λ row. T.key row ≡ key.now) }
    ensures rows { OnOk result (rows.new.items ≡ with_row T.key key.now (kept_if (T.names mark.now) new.now) rows.old.items) }
    ensures order { OnOk result (Ascending T.key rows.new.items) }
{
    let new = kept(mark, new)?;
    put(rows, key, new)
}

/// Puts the stored batch of a write that has no place yet, with the place 0, if the mark names it. The error is out of memory.
fn put_token(tokens: &mut Vec<KeptBatch>, mark: &Mark, write: &TokenWrite) -> Result<(), AllocError>
    requires order { Ascending token_key tokens.old.items }
    ensures rows { OnOk result (tokens.new.items ≡ with_row token_key write.now.token (kept_if (names_token mark.now) (Some (record {
      token = write.now.token;
      ops = write.now.ops;
      place = 0;
      replies = write.now.replies;
    }))) tokens.old.items) }
    ensures order { OnOk result (Ascending token_key tokens.new.items) }
{
    let change = write.at_place(0)?;
    let key = change.key.as_bytes().as_slice();
    put_named(tokens, mark, key, &change.new)
}

/// Makes what the mark reads into what it reads after one more write. The new row must have the key of the write. The error is
/// out of memory.
fn put_write(reading: &mut RowsRead, mark: &Mark, write: &RowWrite) -> Result<(), AllocError>
    requires order { AscendingBook reading.old }
    requires keyed { HasOwnKey (write_of write.now) }
    ensures next { OnOk result (reading.new ≡ after_write (seen mark.now (write_of write.now)) reading.old) }
    ensures order { OnOk result (AscendingBook reading.new) }
{
    match write {
        RowWrite::Entry(change) => {
            let key = change.key.as_bytes().as_slice();
            put_named(&mut reading.entries, mark, key, &change.new)
        }
        RowWrite::Agent(change) => {
            let key = change.key.get().as_str().as_bytes();
            put_named(&mut reading.agents, mark, key, &change.new)
        }
        RowWrite::Bundle(change) => {
            let key = change.key.get().as_str().as_bytes();
            put_named(&mut reading.bundles, mark, key, &change.new)
        }
        RowWrite::Token(write) => put_token(&mut reading.tokens, mark, write),
    }
}

/// Returns true if there is no row, or it has this key.
fn is_keyed<T: BookRow>(key: &[u8], row: &Option<T>) -> bool
    ensures { IsTrue result → IfSome row.now (λ row. T.key row ≡ key.now) }
{
    match row {
        Some(row) => row.key().cmp(key).is_eq(),
        None => true,
    }
}

/// Returns true if the write's new row, if there is one, has the key of the write.
fn has_own_key(write: &RowWrite) -> bool
    ensures { IsTrue result → HasOwnKey (write_of write.now) }
{
    match write {
        RowWrite::Entry(change) => is_keyed(change.key.as_bytes().as_slice(), &change.new),
        RowWrite::Agent(change) => is_keyed(change.key.get().as_str().as_bytes(), &change.new),
        RowWrite::Bundle(change) => is_keyed(change.key.get().as_str().as_bytes(), &change.new),
        RowWrite::Token(_) => true,
    }
}

/// Returns true if the mark neither names the new row nor reads a row with this key.
fn is_unseen<T: BookRow>(rows: &[T], mark: &Mark, key: &[u8], new: &Option<T>) -> bool
    requires order { Ascending T.key rows.now }
    ensures { IsTrue result → rows.now ≡ with_row T.key key.now (kept_if (T.names mark.now) new.now) rows.now }
{
    if is_passed(mark, new) {
        return false;
    }
    // most marks read no row or one
    match rows {
        [] => true,
        [row] => row.key() != key,
        _ => rank_of(rows, key).is_err(),
    }
}

/// Returns true if the write leaves what the mark reads as it is. Returns false for each write of a token, the last of a batch.
fn is_left(reading: &RowsRead, mark: &Mark, write: &RowWrite) -> bool
    requires order { AscendingBook reading.now }
    ensures { IsTrue result → reading.now ≡ after_write (seen mark.now (write_of write.now)) reading.now }
{
    match write {
        RowWrite::Entry(change) => {
            let key = change.key.as_bytes().as_slice();
            is_unseen(reading.entries.as_slice(), mark, key, &change.new)
        }
        RowWrite::Agent(change) => {
            let key = change.key.get().as_str().as_bytes();
            is_unseen(reading.agents.as_slice(), mark, key, &change.new)
        }
        RowWrite::Bundle(change) => {
            let key = change.key.get().as_str().as_bytes();
            is_unseen(reading.bundles.as_slice(), mark, key, &change.new)
        }
        RowWrite::Token(_) => false,
    }
}

/// Returns what the mark reads after these changes, given what it reads before them, in order. A write that the mark doesn't see
/// costs a look at its new row, and a search in the rows that were read. A write that the mark sees, whose new row has another
/// key than the write, can put the rows out of order. That write and all later ones are made in new lists. The error is out of
/// memory.
pub(crate) fn after_changes(
    alloc: Global,
    reading: RowsRead,
    mark: &Mark,
    changes: &Changes,
) -> Result<RowsRead, AllocError>
    requires order { AscendingBook reading }
    ensures { IfOk result (λ next. next ≡ after (map (seen mark.now) changes.now) reading) }
{
    let mut reading = reading;
    let mut writes = changes.writes();
    while let Some((write, rest)) = writes.split_first() {
        if !is_left(&reading, mark, write) {
            if !has_own_key(write) {
                return after_writes(alloc, reading, mark, writes);
            }
            put_write(&mut reading, mark, write)?;
        }
        writes = rest;
    }
    Ok(reading)
}
