//! Which entries does a page list?

ghost use Rattle.std.specs.Prelude.{◌≡◌, ◌++◌, ◌∷◌, [], IfOk, OnOk};
ghost use Rattle.entry_book.specs.Pages.{comes_after, last_id};

use crate::entry::Entry;
use crate::page::PageQuery;
use std::alloc::{AllocError, Global};
use uuid::Uuid;

/// Returns true if the entry comes after this id, or no id is given.
#[tactic(auto, unfolding(crate::specs::Order::is_before))]
fn comes_after(entry: &Entry, from: Option<Uuid>) -> bool
    ensures { result ≡ comes_after from entry.now }
{
    match from {
        Some(from) => from.cmp(entry.id()).is_lt(),
        None => true,
    }
}

/// Appends an entry, and returns its id, which is now the last one. The error is out of memory.
#[tactic(auto, using(crate::proofs::Pages::last_of))]
fn push_last(listed: &mut Vec<Entry>, entry: &Entry) -> Result<Option<Uuid>, AllocError>
    ensures pushed { OnOk result (listed.new.items ≡ listed.old.items ++ entry.now ∷ []) }
    ensures last { IfOk result (λ last. last ≡ last_id listed.new.items) }
{
    listed.push(entry.clone()?)?;
    Ok(Some(*entry.id()))
}

impl PageQuery {
    ghost use Rattle.std.specs.Prelude.{◌≡◌, ◌&&◌, IfOk, filter, length, nat_lt, take, if◌then◌else◌, None};
    ghost use Rattle.entry_book.specs.Pages.{comes_after, last_id, passes};

    /// Returns true if a page of unlimited size would list the entry.
    pub fn lists(&self, entry: &Entry) -> bool
        ensures { result ≡ (passes self.now.filter entry.now && comes_after self.now.from entry.now) }
    {
        self.filter.passes(entry) && comes_after(entry, self.from)
    }

    /// Returns the first of these entries that the page lists, as many as it has room for, and the id after which the next
    /// page begins, if there is one. The error is out of memory.
    pub fn page_of(
        &self,
        alloc: Global,
        entries: &[Entry],
    ) -> Result<(Vec<Entry>, Option<Uuid>), AllocError>
        ensures listed { IfOk result (λ page. page.0.items ≡ take self.now.size
            (filter (λ entry. passes self.now.filter entry && comes_after self.now.from entry) entries.now)) }
        ensures next { IfOk result (λ page. page.1 ≡ (
            if nat_lt self.now.size (length (filter (λ entry. passes self.now.filter entry && comes_after self.now.from entry) entries.now))
            then last_id page.0.items
            else None)) }
    {
        let mut listed = Vec::new(alloc);
        let mut last = None;
        for entry in entries {
            if self.lists(entry) {
                if listed.len() as u64 == self.size {
                    return Ok((listed, last));
                }
                last = push_last(&mut listed, entry)?;
            }
        }
        Ok((listed, None))
    }
}
