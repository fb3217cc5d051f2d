//! How are the entries of a version stored?

ghost use Rattle.std.specs.Prelude.{◌≡◌, IfOk, IsTrue};
ghost use Rattle.entry_book.specs.Order.{Ascending};
ghost use Rattle.entry_book.specs.Rows.{entry_key};
ghost use Rattle.version_book.specs.CommittedRows.{of_row};
ghost use Rattle.version_book.specs.Index.{HaveSameKeys, group_keys, user_keys, expiry_keys};

use crate::borrowed::Borrowed;
use crate::changes::RowChange;
use crate::committed_row::{CommittedRow, borrowed, is_same_row, row_alone};
use crate::index::{
    borrowed_between, entries_between, replace_keys, same_between, with_keys, without_keys,
};
use crate::key::{ExpiryKey, GroupKey, KeyPart, UserKey};
use crate::mark::{IndexRange, Mark, MarkKind};
use crate::page::page_of;
use crate::parent::{ParentEnd, ParentStart};
use crate::row_shelf::put_row;
use entry_book::{DomainSet, Entry, PageQuery, Shared, both};
use spiffe_name::SpiffeId;
use std::alloc::{AllocError, Global};
use std::marker::Model;
use uuid::Uuid;
use version_shelf::Shelf;

/// The entries of a version by id, with indexes by parent and identity, by trust domain, and by expiry. The model in contracts
/// is the list of entries with their commit numbers, in the order of their ids.
#[derive(Drop)]
pub(crate) struct Entries {
    rows: Shelf<Uuid, CommittedRow<Entry>>,
    groups: Shelf<GroupKey, CommittedRow<Entry>>,
    users: Shelf<UserKey, CommittedRow<Entry>>,
    expiries: Shelf<ExpiryKey, CommittedRow<Entry>>,
}

impl Model for Entries {
    ghost use Rattle.std.specs.Prelude.{List};
    ghost use Rattle.std.specs.Map.{values_of};
    ghost use Rattle.entry_book.specs.Order.{Ascending};
    ghost use Rattle.entry_book.specs.Rows.{Entry as BookEntry, entry_key};
    ghost use Rattle.version_book.specs.declared.committed_row.CommittedRow.{CommittedRow as NumberedRow};
    ghost use Rattle.version_book.specs.Index.{IsIndex, group_keys, user_keys, expiry_keys};
    ghost use Rattle.version_book.specs.CommittedRows.{of_row};
    ghost use Rattle.version_book.specs.Stores.{IsKeyed};

    ghost Value = { List (NumberedRow BookEntry) };

    ghost view = { λ entries. values_of entries.rows };

    ghost invariant = { λ entries. let rows = values_of entries.rows in
        IsKeyed entry_key entries.rows × Ascending (of_row entry_key) rows
        × IsIndex group_keys rows entries.groups × IsIndex user_keys rows entries.users
        × IsIndex expiry_keys rows entries.expiries };
}

/// Returns the key of an entry under its parent and identity, in a list. The error is out of memory.
fn group_keys(alloc: Global, entry: &Entry) -> Result<Vec<GroupKey>, AllocError>
    ensures { IfOk result (λ keys. keys.items ≡ group_keys entry.now) }
{
    let parent = KeyPart::At(entry.parent().clone()?);
    let identity = KeyPart::At(entry.identity().clone()?);
    let key = (parent, identity, KeyPart::At(*entry.id()));
    let mut keys = Vec::new(alloc);
    keys.push(key)?;
    Ok(keys)
}

/// Returns the keys of an entry under the trust domains that it names. The error is out of memory.
fn user_keys(alloc: Global, entry: &Entry) -> Result<Vec<UserKey>, AllocError>
    ensures { IfOk result (λ keys. keys.items ≡ user_keys entry.now) }
{
    let mut keys = Vec::new(alloc);
    for domain in entry.domains().as_slice() {
        keys.push((domain.clone()?, KeyPart::At(*entry.id())))?;
    }
    Ok(keys)
}

/// Returns the key of an entry under its expiry, or an empty list if it has none. The error is out of memory.
fn expiry_keys(alloc: Global, entry: &Entry) -> Result<Vec<ExpiryKey>, AllocError>
    ensures { IfOk result (λ keys. keys.items ≡ expiry_keys entry.now) }
{
    let mut keys = Vec::new(alloc);
    if entry.expiry() > 0 {
        keys.push((entry.expiry(), KeyPart::At(*entry.id())))?;
    }
    Ok(keys)
}

/// Returns true if both IDs have the same text.
fn are_same_ids(one: &SpiffeId, other: &SpiffeId) -> bool
    ensures { IsTrue result → one.now ≡ other.now }
{
    one == other
}

/// Returns true if both sets have the same trust domains.
fn are_same_domains(one: &DomainSet, other: &DomainSet) -> bool
    ensures { IsTrue result → one.now ≡ other.now }
{
    one == other
}

/// Returns true if both entries have the same keys: the same id, parent, identity, trust domains and expiry.
fn have_same_keys(one: &Entry, other: &Entry) -> bool
    ensures { IsTrue result → HaveSameKeys one.now other.now }
{
    if !are_same_ids(one.parent().get(), other.parent().get()) {
        return false;
    }
    if !are_same_ids(one.identity().get(), other.identity().get()) {
        return false;
    }
    if !are_same_domains(one.domains(), other.domains()) {
        return false;
    }
    one.expiry() == other.expiry() && one.id() == other.id()
}

impl Entries {
    ghost use Rattle.std.specs.Prelude.{◌≡◌, ◌&&◌, ◌+◌, ◌≤◌, [], IfOk, IfSome, IsTrue, Some, None, bytes_eq, filter, length, map, nat_lt, option_map, option_to_list, take, if◌then◌else◌};
    ghost use Rattle.std.specs.Option.{option_copied};
    ghost use Rattle.entry_book.specs.Order.{Ascending, Within, first, with_row};
    ghost use Rattle.entry_book.specs.Pages.{comes_after, last_id, passes};
    ghost use Rattle.entry_book.specs.Rows.{Entry as EntryRow, entry_key};
    ghost use Rattle.version_book.specs.Index.{HaveSameKeys};
    ghost use Rattle.version_book.specs.Marks.{names_entry};
    ghost use Rattle.version_book.specs.CommittedRows.{numbered, of_row, row_of};
    ghost use Rattle.version_shelf.specs.Shelf.{most_rows};
    ghost use Rattle.version_book.specs.Room.{count_of_names};
    ghost use Rattle.version_book.specs.Stores.{IsAbsent, IdentifyRows};

    /// Makes an empty set of entries. Allocates no memory.
    pub(crate) fn empty(alloc: Global) -> Entries
        ensures { result ≡ [] }
    {
        Entries {
            rows: Shelf::new(alloc),
            groups: Shelf::new(alloc),
            users: Shelf::new(alloc),
            expiries: Shelf::new(alloc),
        }
    }

    /// Returns the number of entries.
    pub(crate) fn len(&self) -> usize
        ensures count { result ≡ length self.now }
        ensures order { Ascending (of_row entry_key) self.now }
    {
        self.rows.len()
    }

    /// Returns the entries without this one, which must be among them. The error is out of memory.
    fn without(self, alloc: Global, entry: &Entry) -> Result<Entries, AllocError>
        requires there { Within (map row_of self) entry.now }
        ensures { IfOk result (λ entries. entries ≡ with_row (of_row entry_key) entry.now.id None self) }
    {
        let group_keys = group_keys(alloc, entry)?;
        let user_keys = user_keys(alloc, entry)?;
        let expiry_keys = expiry_keys(alloc, entry)?;
        let Entries {
            rows,
            groups,
            users,
            expiries,
        } = self;
        let rows = rows.into_without(entry.id())?;
        Ok(Entries {
            rows,
            groups: without_keys(groups, group_keys.as_slice())?,
            users: without_keys(users, user_keys.as_slice())?,
            expiries: without_keys(expiries, expiry_keys.as_slice())?,
        })
    }

    /// Returns the entries with this one added. No entry may have its id yet, and there must be room for it. The error is out
    /// of memory.
    fn with(self, alloc: Global, row: CommittedRow<Entry>) -> Result<Entries, AllocError>
        requires absent { IsAbsent entry_key row.row.id self }
        requires room { length self + 1 ≤ most_rows }
        requires names { count_of_names (map row_of self) + length row.row.domains ≤ most_rows }
        ensures { IfOk result (λ entries. entries ≡ with_row (of_row entry_key) row.row.id (Some row) self) }
    {
        let group_keys = group_keys(alloc, &row.row)?;
        let user_keys = user_keys(alloc, &row.row)?;
        let expiry_keys = expiry_keys(alloc, &row.row)?;
        let Entries {
            rows,
            groups,
            users,
            expiries,
        } = self;
        let groups = with_keys(groups, group_keys, &row)?;
        let users = with_keys(users, user_keys, &row)?;
        let expiries = with_keys(expiries, expiry_keys, &row)?;
        let id = *row.row.id();
        let rows = rows.into_with(id, row)?;
        Ok(Entries {
            rows,
            groups,
            users,
            expiries,
        })
    }

    /// Returns the entries with this one in place of the one that has its id, which has the same keys. The error is out of
    /// memory.
    fn replaced(
        self,
        alloc: Global,
        old: &Entry,
        row: CommittedRow<Entry>,
    ) -> Result<Entries, AllocError>
        requires there { Within (map row_of self) old.now }
        requires same { HaveSameKeys old.now row.row }
        requires room { length (with_row entry_key row.row.id (Some row.row) (map row_of self)) ≤ most_rows }
        ensures { IfOk result (λ entries. entries ≡ with_row (of_row entry_key) row.row.id (Some row) self) }
    {
        // the old entry occurs in the contract alone
        let _ = old;
        let group_keys = group_keys(alloc, &row.row)?;
        let user_keys = user_keys(alloc, &row.row)?;
        let expiry_keys = expiry_keys(alloc, &row.row)?;
        let Entries {
            rows,
            groups,
            users,
            expiries,
        } = self;
        let groups = replace_keys(groups, group_keys, &row)?;
        let users = replace_keys(users, user_keys, &row)?;
        let expiries = replace_keys(expiries, expiry_keys, &row)?;
        let id = *row.row.id();
        let rows = put_row(rows, id, row)?;
        Ok(Entries {
            rows,
            groups,
            users,
            expiries,
        })
    }

    /// Returns the entries with this one, in place of the old one of its id, if there is one. If that has the same keys, each
    /// shelf is changed once; otherwise the old keys are removed first. The error is out of memory.
    fn put(
        self,
        alloc: Global,
        old: Option<&Entry>,
        row: CommittedRow<Entry>,
    ) -> Result<Entries, AllocError>
        requires found { filter (λ (entry : EntryRow). bytes_eq entry.id row.row.id) (map row_of self) ≡ option_to_list (option_copied old) }
        requires room { length (with_row entry_key row.row.id (Some row.row) (map row_of self)) ≤ most_rows }
        requires names { count_of_names (with_row entry_key row.row.id (Some row.row) (map row_of self)) ≤ most_rows }
        ensures { IfOk result (λ entries. entries ≡ with_row (of_row entry_key) row.row.id (Some row) self) }
    {
        match old {
            None => {
                in_order(&self);
                self.with(alloc, row)
            }
            Some(old) => {
                if have_same_keys(old, &row.row) {
                    return self.replaced(alloc, old, row);
                }
                let rest = self.without(alloc, old)?;
                rest.with(alloc, row)
            }
        }
    }

    /// Returns the entries without the old one of an id, if there is one. The error is out of memory.
    fn rest_of(self, alloc: Global, id: &Uuid, old: Option<&Entry>) -> Result<Entries, AllocError>
        requires found { filter (λ (entry : EntryRow). bytes_eq entry.id id.now) (map row_of self) ≡ option_to_list (option_copied old) }
        ensures { IfOk result (λ rest. rest ≡ with_row (of_row entry_key) id.now None self) }
    {
        // the id occurs in the contract alone
        let _ = id;
        match old {
            Some(old) => self.without(alloc, old),
            None => {
                in_order(&self);
                Ok(self)
            }
        }
    }

    /// Returns the entries after a change of one of them by this commit. The change's old entry must be the one of its key. The
    /// error is out of memory.
    pub(crate) fn after(
        self,
        alloc: Global,
        change: &RowChange<Uuid, Entry>,
        commit: u64,
    ) -> Result<Entries, AllocError>
        requires found { filter (λ (entry : EntryRow). bytes_eq entry.id change.now.key) (map row_of self) ≡ option_to_list change.now.old }
        requires keyed { IfSome change.now.new (λ new. new.id ≡ change.now.key) }
        requires room { IfSome change.now.new (λ new. length (with_row entry_key change.now.key change.now.new (map row_of self)) ≤ most_rows) }
        requires names { IfSome change.now.new (λ new. count_of_names (with_row entry_key change.now.key change.now.new (map row_of self)) ≤ most_rows) }
        ensures { IfOk result (λ entries. entries ≡ with_row (of_row entry_key) change.now.key (option_map (numbered commit) change.now.new) self) }
    {
        let old = change.old.as_ref();
        match &change.new {
            Some(new) => {
                let row = new.clone()?;
                self.put(alloc, old, CommittedRow { row, commit })
            }
            None => self.rest_of(alloc, &change.key, old),
        }
    }

    /// Returns the entry of an id, if there is one. Allocates no memory.
    pub(crate) fn get(&self, id: &Uuid) -> Option<&Entry>
        ensures { option_copied result ≡ first (filter (λ (entry : EntryRow). bytes_eq entry.id id.now) (map row_of self.now)) }
    {
        borrowed(self.rows.get(id))
    }

    /// Returns the entries of a parent, borrowed, in the order of their ids. The error is out of memory.
    pub(crate) fn children(
        &self,
        alloc: Global,
        parent: &Shared<SpiffeId>,
    ) -> Result<Vec<Borrowed<'_, Entry>>, AllocError>
        ensures { IfOk result (λ found. found.items ≡ filter (λ (entry : EntryRow). bytes_eq entry.parent parent.now) (map row_of self.now)) }
    {
        borrowed_between(
            alloc,
            &self.groups,
            &ParentStart { parent },
            &ParentEnd { parent },
        )
    }

    /// Returns the entries that a page lists, borrowed, and the id after which the next page begins, if there is one. The error
    /// is out of memory.
    pub(crate) fn page(
        &self,
        alloc: Global,
        query: &PageQuery,
    ) -> Result<(Vec<Borrowed<'_, Entry>>, Option<Uuid>), AllocError>
        ensures listed { IfOk result (λ page. page.0.items ≡ take query.now.size
            (filter (λ (entry : EntryRow). passes query.now.filter entry && comes_after query.now.from entry) (map row_of self.now))) }
        ensures next { IfOk result (λ page. page.1 ≡ (
            if nat_lt query.now.size (length (filter (λ (entry : EntryRow). passes query.now.filter entry && comes_after query.now.from entry) (map row_of self.now)))
            then last_id page.0.items
            else None)) }
    {
        match &query.from {
            Some(from) => page_of(alloc, query, self.rows.range_from(from)),
            None => page_of(alloc, query, self.rows.rows()),
        }
    }

    /// Returns the entries that a mark names, in the order of their ids. The error is out of memory.
    pub(crate) fn at(&self, alloc: Global, mark: &Mark) -> Result<Vec<Entry>, AllocError>
        ensures { IfOk result (λ found. found.items ≡ filter (names_entry mark.now) (map row_of self.now)) }
    {
        match mark.index_range() {
            IndexRange::Groups(low, high) => entries_between(alloc, &self.groups, low, high),
            IndexRange::Users(low, high) => entries_between(alloc, &self.users, low, high),
            IndexRange::Expiries(low, high) => entries_between(alloc, &self.expiries, low, high),
            IndexRange::SingleRow => match mark.kind() {
                MarkKind::Entry(id) => row_alone(alloc, self.rows.get(id)),
                _ => Ok(Vec::new(alloc)),
            },
        }
    }

    /// Returns true if these entries and the older ones have the same ids at a mark, each last written by the same commit. In
    /// one history, true implies that the entries are equal.
    pub(crate) fn is_same_at(&self, older: &Entries, mark: &Mark) -> bool
        ensures same { filter (of_row (names_entry mark.now)) older.now ≡ filter (of_row (names_entry mark.now)) self.now → IsTrue result }
        ensures is_exact { IdentifyRows entry_key older.now self.now → IsTrue result
            → filter (of_row (names_entry mark.now)) older.now ≡ filter (of_row (names_entry mark.now)) self.now }
    {
        match mark.index_range() {
            IndexRange::Groups(low, high) => same_between(&older.groups, &self.groups, low, high),
            IndexRange::Users(low, high) => same_between(&older.users, &self.users, low, high),
            IndexRange::Expiries(low, high) => same_between(
                &older.expiries,
                &self.expiries,
                low,
                high,
            ),
            IndexRange::SingleRow => match mark.kind() {
                MarkKind::Entry(id) => is_same_row(older.rows.get(id), self.rows.get(id)),
                _ => true,
            },
        }
    }
}

/// The entries are in strictly ascending order of their ids. The function only brings this fact into a proof.
fn in_order(entries: &Entries)
    ensures { Ascending (of_row entry_key) entries.now }
{
    // its contract says that the entries are in order
    let _ = entries.len();
}

/// Clones both indexes. The error is out of memory.
fn clone_indexes(
    groups: &Shelf<GroupKey, CommittedRow<Entry>>,
    users: &Shelf<UserKey, CommittedRow<Entry>>,
) -> Result<
    (
        Shelf<GroupKey, CommittedRow<Entry>>,
        Shelf<UserKey, CommittedRow<Entry>>,
    ),
    AllocError,
>
    ensures { IfOk result (λ both. (both.0 ≡ groups.now) × (both.1 ≡ users.now)) }
{
    both(groups.clone(), users.clone())
}

impl Clone for Entries {
    ghost is_clone = { λ original copy. copy ≡ original };

    fn clone(&self) -> Result<Entries, AllocError> {
        let (rows, expiries) = both(self.rows.clone(), self.expiries.clone())?;
        let (groups, users) = clone_indexes(&self.groups, &self.users)?;
        Ok(Entries {
            rows,
            groups,
            users,
            expiries,
        })
    }
}
