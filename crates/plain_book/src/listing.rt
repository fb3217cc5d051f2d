//! Which entries does a page list?

ghost use Rattle.std.specs.Prelude.{◌≡◌, ◌&&◌, ◌++◌, ◌≤◌, IfOk, OnOk, None, filter, if◌then◌else◌, length, nat_lt, take};
ghost use Rattle.entry_book.specs.Pages.{comes_after, last_id, passes};
ghost use Rattle.plain_book.specs.Blocks.{joined};

use crate::blocks::Block;
use entry_book::{Entry, PageQuery};
use std::alloc::{AllocError, Global};
use uuid::Uuid;

/// Returns the first entries of the blocks that the page lists, at most its size. If more entries follow, it also returns
/// the id of the last one listed, after which the next page begins. The error, here and below, is out of memory.
pub(crate) fn page_among(
    alloc: Global,
    query: &PageQuery,
    blocks: &[Block<Entry>],
) -> Result<(Vec<Entry>, Option<Uuid>), AllocError>
    ensures listed { IfOk result (λ page. page.0.items ≡ take query.now.size
        (filter (λ entry. passes query.now.filter entry && comes_after query.now.from entry) (joined blocks.now))) }
    ensures next { IfOk result (λ page. page.1 ≡ (
        if nat_lt query.now.size (length (filter (λ entry. passes query.now.filter entry && comes_after query.now.from entry) (joined blocks.now)))
        then last_id page.0.items
        else None)) }
{
    let mut listed = Vec::new(alloc);
    for block in blocks {
        if add_listed(query, block.get().as_slice(), &mut listed)? {
            let next = last_id(listed.as_slice());
            return Ok((listed, next));
        }
    }
    Ok((listed, None))
}

/// Appends the entries that the page lists, until it is full. Returns true if it would list another one.
fn add_listed(
    query: &PageQuery,
    entries: &[Entry],
    listed: &mut Vec<Entry>,
) -> Result<bool, AllocError>
    requires room { length listed.old.items ≤ query.now.size }
    ensures listed { OnOk result (listed.new.items ≡ take query.now.size (listed.old.items
        ++ filter (λ entry. passes query.now.filter entry && comes_after query.now.from entry) entries.now)) }
    ensures more { IfOk result (λ more. more ≡ nat_lt query.now.size (length (listed.old.items
        ++ filter (λ entry. passes query.now.filter entry && comes_after query.now.from entry) entries.now))) }
{
    for entry in entries {
        if query.lists(entry) {
            if listed.len() as u64 == query.size {
                return Ok(true);
            }
            listed.push(entry.clone()?)?;
        }
    }
    Ok(false)
}

/// Returns the id of the last entry, if there is one.
fn last_id(entries: &[Entry]) -> Option<Uuid>
    ensures { result ≡ last_id entries.now }
{
    match entries.split_last() {
        Some((entry, _)) => Some(*entry.id()),
        None => None,
    }
}
