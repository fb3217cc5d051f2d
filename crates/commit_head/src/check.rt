//! Did a batch that was committed since a work began write what the work has read?

ghost use Rattle.std.specs.Prelude.{◌≡◌, IfSome, List, false, true};
ghost use Rattle.std.specs.List.{AllByRecursion, list_any};
ghost use Rattle.version_book.specs.CommittedRows.{book_of};
ghost use Rattle.version_book.specs.History.{Follows, IsEarlier, any_hits};
ghost use Rattle.version_book.specs.Marks.{Agree, hits};
ghost use Rattle.entry_book.specs.Batches.{Batch};
ghost use Rattle.commit_head.specs.Journals.{Agrees, Leads, batches_of};
ghost use Rattle.commit_head.specs.declared.item.Item.{Item as JournalItem};

use crate::item::Item;
use version_book::{Mark, Version};

/// Returns true if a write of one of these items hits the mark.
fn is_hit(items: &[Item], mark: &Mark) -> bool
    ensures { result ≡ list_any (λ item. list_any (λ w. hits w mark.now) item.changes) items.now }
{
    items.iter().any(|item| item.changes.hits(mark))
}

/// Returns true if a write of one of these items hits one of the marks.
fn are_hit(items: &[Item], marks: &[Mark]) -> bool
    ensures { result ≡ list_any (λ mark. list_any (λ item. list_any (λ w. hits w mark) item.changes) items.now) marks.now }
{
    marks.iter().any(|mark| is_hit(items, mark))
}

/// Returns true if the rows at one of the marks differ from those in an older version of the same history, or were written
/// since.
fn are_changed(newest: &Version, older: &Version, marks: &[Mark]) -> bool
    ensures agree { IsEarlier older.now newest.now → result ≡ false
        → AllByRecursion (Agree (book_of older.now.rows) (book_of newest.now.rows)) marks.now }
    ensures hit { (batches : List Batch) → Follows older.now batches newest.now → result ≡ true
        → list_any (λ mark. any_hits mark older.now batches) marks.now ≡ true }
{
    for mark in marks {
        if !newest.unchanged(mark, older) {
            return true;
        }
    }
    false
}

/// Returns the items since the version, if they are at most 63 and all of them are retained.
fn items_since<'a>(kept: &'a [Item], newest: &Version, older: &Version) -> Option<&'a [Item]>
    ensures { (items : List JournalItem) → Leads older.now items newest.now → Agrees items kept.now
        → IfSome result (λ since. since.now ≡ items) }
{
    let commits = newest.number().checked_sub(older.number())?;
    if commits > 63 || commits > kept.len() as u64 {
        return None;
    }
    Some(&kept[kept.len() - commits as usize..])
}

/// Returns true if a batch that was committed since the older version wrote what these marks read. If these are at most 63
/// commits whose items are retained, it checks their writes; otherwise it compares the rows of both versions.
pub(crate) fn is_conflict(kept: &[Item], newest: &Version, older: &Version, marks: &[Mark]) -> bool
    ensures agree { (items : List JournalItem) → Leads older.now items newest.now → Agrees items kept.now → result ≡ false
        → AllByRecursion (Agree (book_of older.now.rows) (book_of newest.now.rows)) marks.now }
    ensures hit { (items : List JournalItem) → Leads older.now items newest.now → Agrees items kept.now → result ≡ true
        → list_any (λ mark. any_hits mark older.now (batches_of items)) marks.now ≡ true }
{
    // its contract says that the version's book is lawful, so that its rows are in order
    let _ = older.number();
    match items_since(kept, newest, older) {
        Some(since) => are_hit(since, marks),
        None => are_changed(newest, older, marks),
    }
}
