//! How are the entries of a book stored?
//!
//! In two lists: one in the order of ids, and one that groups them by parent. Finding an entry, or the entries of a parent,
//! takes about log2 n comparisons. A search for a similar entry reads only the entries of its parent.

ghost use Rattle.std.specs.Prelude.{◌≡◌, IfOk};

use crate::blocks::Block;
use crate::by_parent::{with_sibling, without_sibling};
use crate::find::first_similar;
use crate::rows::Rows;
use crate::siblings::Siblings;
use entry_book::{Entry, NewEntry, pair_with};
use spiffe_name::SpiffeId;
use std::alloc::{AllocError, Global};
use std::marker::Model;
use uuid::Uuid;

/// The entries of a book. A contract sees the list of them, in the order of their ids.
#[derive(Drop)]
pub(crate) struct Entries {
    by_id: Rows<Entry>,
    by_parent: Rows<Siblings>,
}

impl Model for Entries {
    ghost use Rattle.std.specs.Prelude.{List};
    ghost use Rattle.entry_book.specs.Order.{Ascending};
    ghost use Rattle.entry_book.specs.Rows.{Entry, entry_key};
    ghost use Rattle.plain_book.specs.Siblings.{IsByParent};

    ghost Value = { List Entry };

    ghost view = { λ entries. entries.by_id };

    ghost invariant = { λ entries.
        Ascending entry_key entries.by_id × IsByParent entries.by_id entries.by_parent };
}

impl Entries {
    ghost use Rattle.std.specs.Prelude.{◌≡◌, ◌&&◌, IfOk, None, Some, [], bytes_eq, filter, length, not};
    ghost use Rattle.std.specs.Option.{option_copied};
    ghost use Rattle.spiffe_name.specs.SelectorSet.{set_eq};
    ghost use Rattle.entry_book.specs.Book.{in_group};
    ghost use Rattle.entry_book.specs.Order.{Ascending, first, with_row};
    ghost use Rattle.entry_book.specs.Rows.{entry_key};
    ghost use Rattle.plain_book.specs.Blocks.{joined};
    ghost use Rattle.plain_book.specs.Siblings.{IsByParent};

    /// Returns an empty list. The error, here and below, is out of memory.
    pub(crate) fn empty(alloc: Global) -> Result<Entries, AllocError>
        ensures { IfOk result (λ entries. entries ≡ []) }
    {
        Ok(Entries {
            by_id: Rows::empty(alloc)?,
            by_parent: Rows::empty(alloc)?,
        })
    }

    /// Returns the number of entries.
    pub(crate) fn len(&self) -> usize
        ensures { result ≡ length self.now }
    {
        self.by_id.len()
    }

    /// Returns the blocks of the list in the order of ids.
    pub(crate) fn blocks(&self) -> &[Block<Entry>]
        ensures { joined result.now ≡ self.now }
    {
        self.by_id.blocks()
    }

    /// Returns a vector of all entries, and increments the reference count of each.
    pub(crate) fn to_vec(&self, alloc: Global) -> Result<Vec<Entry>, AllocError>
        ensures { IfOk result (λ all. all.items ≡ self.now) }
    {
        self.by_id.to_vec(alloc)
    }

    /// Returns the entry with an id, if there is one.
    pub(crate) fn entry(&self, id: &Uuid) -> Option<&Entry>
        ensures { option_copied result ≡ first (filter (λ entry. bytes_eq entry.id id.now) self.now) }
    {
        self.by_id.row(id.as_bytes().as_slice())
    }

    /// Returns the entries of a parent, in the order of their ids.
    pub(crate) fn children(
        &self,
        alloc: Global,
        parent: &SpiffeId,
    ) -> Result<Vec<Entry>, AllocError>
        ensures found { IfOk result
            (λ found. found.items ≡ filter (λ entry. bytes_eq entry.parent parent.now) self.now) }
        ensures order { Ascending entry_key self.now }
    {
        match self.by_parent.row(parent.as_str().as_bytes()) {
            Some(siblings) => siblings.entries.to_vec(alloc),
            None => Ok(Vec::new(alloc)),
        }
    }

    /// Returns the first other entry with the same parent, identity and selectors, if there is one.
    pub(crate) fn similar(&self, new: &NewEntry) -> Option<&Entry>
        ensures { option_copied result ≡ first (filter
            (λ entry. set_eq entry.selectors new.now.selectors && not (bytes_eq entry.id new.now.id))
            (filter (in_group new.now.parent new.now.identity) self.now)) }
    {
        match self.by_parent.row(new.parent.get().as_str().as_bytes()) {
            Some(siblings) => first_similar(siblings.entries.blocks(), new),
            None => None,
        }
    }

    /// Returns the entries with this one, which replaces the one with its id, if there is one.
    pub(crate) fn with(&self, alloc: Global, entry: Entry) -> Result<Entries, AllocError>
        ensures rows { IfOk result (λ new. new ≡ with_row entry_key entry.id (Some entry) self.now) }
        ensures order { IfOk result (λ new. Ascending entry_key new) }
    {
        let parents = self.by_parent_with(alloc, &entry)?;
        let (by_parent, by_id) = pair_with(parents, self.by_id.with(alloc, entry))?;
        Ok(Entries { by_id, by_parent })
    }

    /// Returns the entries without the one with this id, if there is one.
    pub(crate) fn without(&self, alloc: Global, id: &Uuid) -> Result<Entries, AllocError>
        ensures rows { IfOk result (λ new. new ≡ with_row entry_key id.now None self.now) }
        ensures order { IfOk result (λ new. Ascending entry_key new) }
    {
        let parents = self.by_parent_without(alloc, id)?;
        let rest = self.by_id.without(alloc, id.as_bytes().as_slice());
        let (by_parent, by_id) = pair_with(parents, rest)?;
        Ok(Entries { by_id, by_parent })
    }

    /// Returns the list by parents with this entry, which replaces the one with its id, if there is one.
    fn by_parent_with(&self, alloc: Global, entry: &Entry) -> Result<Rows<Siblings>, AllocError>
        ensures { IfOk result
            (λ new. IsByParent (with_row entry_key entry.now.id (Some entry.now) self.now) new) }
    {
        let others = self.by_parent_without(alloc, entry.id())?;
        with_sibling(alloc, &others, entry)
    }

    /// Returns the list by parents without the entry with this id, if there is one.
    fn by_parent_without(&self, alloc: Global, id: &Uuid) -> Result<Rows<Siblings>, AllocError>
        ensures by_parent { IfOk result (λ new. IsByParent (with_row entry_key id.now None self.now) new) }
        ensures order { Ascending entry_key self.now }
    {
        match self.entry(id) {
            Some(old) => without_sibling(alloc, &self.by_parent, old),
            None => self.by_parent.clone(),
        }
    }
}

impl Clone for Entries {
    ghost is_clone = { λ original copy. copy ≡ original };

    fn clone(&self) -> Result<Entries, AllocError> {
        Ok(Entries {
            by_id: self.by_id.clone()?,
            by_parent: self.by_parent.clone()?,
        })
    }
}
