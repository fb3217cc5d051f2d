//! Commits and items of the journal as text.

use commit_head::{Commit, Item};
use entry_book::Limit;
use std::alloc::Global;
use test_batches::{Failed, kind_at_place, replies_text};

fn full_text(alloc: Global, limit: &Limit, place: u64) -> Result<String, Failed> {
    let code = limit.code();
    kind_at_place(alloc, code, place)
}

/// The result of a commit, and its number. Out of memory is an error, so that no table has to handle it.
pub fn commit_text(alloc: Global, commit: &Commit) -> Result<String, Failed> {
    match commit {
        Commit::Committed(number) => kind_at_place(alloc, "committed", *number),
        Commit::Conflict(place) => kind_at_place(alloc, "conflict", *place),
        Commit::Full(limit, place) => full_text(alloc, limit, *place),
        Commit::NoMemory => Err(Failed::NoMemory),
    }
}

/// An item of the journal: its seat and call, its numbers of operations and writes, and the replies.
pub fn item_text(alloc: Global, item: &Item) -> Result<String, Failed> {
    let (seat, call) = (item.seat, item.call);
    let (ops, writes) = (item.batch.ops().len(), item.changes.len());
    let kind = format!(in alloc; "seat {seat} call {call} operations {ops} writes {writes}")?;
    replies_text(alloc, kind.as_str(), item.replies.get().as_slice())
}
