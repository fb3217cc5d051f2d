//! Which entries of a version does a page list?
//!
//! The search starts at the id after which the page begins. It ends with the row that shows that more follow than the page
//! lists.

ghost use Rattle.std.specs.Prelude.{◌≡◌, ◌&&◌, ◌++◌, ◌∷◌, [], IfOk, OnOk, None, filter, length, map, nat_lt, take, if◌then◌else◌};
ghost use Rattle.std.specs.Map.{values_of};
ghost use Rattle.entry_book.specs.Pages.{comes_after, last_id, passes};
ghost use Rattle.entry_book.specs.Rows.{Entry as EntryRow};
ghost use Rattle.version_book.specs.CommittedRows.{row_of};

use crate::borrowed::Borrowed;
use crate::committed_row::CommittedRow;
use entry_book::{Entry, PageQuery};
use std::alloc::{AllocError, Global};
use uuid::Uuid;
use version_shelf::Range;

/// Appends the entry to the list, and returns its id, which now is the last one. The error is out of memory.
#[tactic(auto, using(entry_book::proofs::Pages::last_of))]
fn push_last<'a>(
    listed: &mut Vec<Borrowed<'a, Entry>>,
    entry: &'a Entry,
) -> Result<Option<Uuid>, AllocError>
    ensures pushed { OnOk result (listed.new.items ≡ listed.old.items ++ entry.now ∷ []) }
    ensures last { IfOk result (λ last. last ≡ last_id listed.new.items) }
{
    listed.push(Borrowed::of(entry))?;
    Ok(Some(*entry.id()))
}

/// Returns those of these rows that the page lists, borrowed, up to its size. Also returns the id after which the next page
/// begins, if there is one. The error is out of memory.
pub(crate) fn page_of<'a>(
    alloc: Global,
    query: &PageQuery,
    rows: Range<'a, Uuid, CommittedRow<Entry>>,
) -> Result<(Vec<Borrowed<'a, Entry>>, Option<Uuid>), AllocError>
    ensures listed { IfOk result (λ page. page.0.items ≡ take query.now.size
        (filter (λ (entry : EntryRow). passes query.now.filter entry && comes_after query.now.from entry) (map row_of (values_of rows.entry)))) }
    ensures next { IfOk result (λ page. page.1 ≡ (
        if nat_lt query.now.size (length (filter (λ (entry : EntryRow). passes query.now.filter entry && comes_after query.now.from entry) (map row_of (values_of rows.entry))))
        then last_id page.0.items
        else None)) }
{
    let mut listed = Vec::new(alloc);
    let mut last = None;
    for (_, row) in rows {
        if query.lists(&row.row) {
            if listed.len() as u64 == query.size {
                return Ok((listed, last));
            }
            last = push_last(&mut listed, &row.row)?;
        }
    }
    Ok((listed, None))
}
