//! What does a head store, and which work may commit?

ghost use Rattle.std.specs.Prelude.{◌≡◌, ◌+◌, ◌-◌, ◌≤◌, ◌<◌, ◌++◌, [], length, vec_capacity, vec_len};
ghost use Rattle.commit_head.specs.Heads.{last_items};

use crate::commit::Commit;
use crate::item::Item;
use crate::prepare::prepare_commit;
use crate::prepared::Prepared;
use batch_work::{Status, Versioned, Window, Work};
use spiffe_name::TrustDomain;
use std::alloc::{AllocError, Global};
use std::marker::Model;
use std::mem::swap;
use version_book::Version;

/// Drops all items but the last 64, and returns the number of dropped items. The capacity is unchanged.
fn drop_older(items: &mut Vec<Item>) -> usize
    ensures dropped { result + length items.new.items ≡ length items.old.items }
    ensures kept { items.new.items ≡ last_items items.old.items }
    ensures capacity { vec_capacity items.new ≡ vec_capacity items.old }
{
    let dropped = items.len().saturating_sub(64);
    items.drain(..dropped);
    dropped
}

/// Moves the last 64 items of a list to an empty one, which has room for them.
fn move_last(from: &mut Vec<Item>, to: &mut Vec<Item>)
    requires enough { 64 ≤ vec_len from.old }
    requires empty { to.old.items ≡ [] }
    requires room { 64 ≤ vec_capacity to.old }
    ensures moved { from.new.items ++ to.new.items ≡ from.old.items }
    ensures count { length to.new.items ≡ 64 }
    ensures capacity { vec_capacity from.new ≡ vec_capacity from.old }
{
    for _ in 0..64_usize {
        let Some(item) = from.pop() else {
            unreachable!()
        };
        to.push_reserved(item);
    }
    to.reverse();
}

/// Moves all items but the last 64 to an empty list, which has room for 64. Swaps the two lists, and moves the last items
/// back. So it moves at most 64 items, however many there are.
fn move_older(items: &mut Vec<Item>, older: &mut Vec<Item>)
    requires empty { older.old.items ≡ [] }
    requires room { 64 ≤ vec_capacity older.old }
    ensures moved { older.new.items ++ items.new.items ≡ items.old.items }
    ensures kept { items.new.items ≡ last_items items.old.items }
    ensures room { 64 ≤ vec_capacity older.new }
{
    if items.len() <= 64 {
        return;
    }
    swap(items, older);
    move_last(older, items);
}

/// The only place where the book changes. It has the window on which works begin, and the journal (commit log): one item for
/// each commit, of which a checkpoint drops all but the last 64.
///
/// A reader gets a clone of the window, and begins on it without the head. A writer first prepares a commit, which checks
/// that what the work has read is unchanged and allocates all memory, and then finishes it, which allocates none. If at
/// most 63 items were added since the work began, and all are retained, the check looks at their writes. Otherwise it
/// compares the rows of both versions at each mark. A commit costs this check and the version's `apply`. The caller ensures
/// that no seat commits a call twice.
#[derive(Drop)]
pub struct Head {
    window: Window,
    kept: Vec<Item>,
}

impl Model for Head {
    ghost use Rattle.std.specs.Prelude.{◌-◌, vec_capacity, vec_len};
    ghost use Rattle.commit_head.specs.Heads.{HasJournal, Head};

    ghost Value = { Head };

    ghost view = { λ head. record {
      window = head.window;
      kept = head.kept.items;
      room = vec_capacity head.kept - vec_len head.kept;
    } };

    ghost invariant = { λ head. HasJournal (record {
      window = head.window;
      kept = head.kept.items;
      room = vec_capacity head.kept - vec_len head.kept;
    }) };
}

impl Head {
    ghost use Rattle.std.specs.Prelude.{◌≡◌, ◌+◌, ◌^◌, ◌≤◌, ◌++◌, [], IfErr, IfOk, length, vec_capacity};
    ghost use Rattle.std.specs.Option.{option_copied};
    ghost use Rattle.version_book.specs.CommittedRows.{book_of};
    ghost use Rattle.batch_work.specs.Working.{status_of};
    ghost use Rattle.commit_head.specs.Heads.{BeganOn, Fits, HasJournal, IsAppended, IsCommit, IsItemOf, IsRefused, IsUnchangedHead, ReadsAreUnchanged, item_at, head_place};
    ghost use Rattle.commit_head.specs.Journals.{empty_version};

    /// Makes a head with book 0 and no item. The error is out of memory.
    pub fn new(alloc: Global, domain: TrustDomain) -> Result<Head, AllocError>
        ensures window { IfOk result (λ head. head.window ≡ record { older = []; newest = empty_version domain }) }
        ensures kept { IfOk result (λ head. head.kept ≡ []) }
    {
        let version = Version::empty(alloc, domain)?;
        Ok(Head {
            window: Window::of(version),
            kept: Vec::new(alloc),
        })
    }

    /// Returns the window on which works begin. The number of its newest version is within the limit on commits, and there is a
    /// journal that leads to it. Allocates no memory.
    pub fn window(&self) -> &Window
        ensures window { result.now ≡ self.now.window }
        ensures low { self.now.window.newest.number ≤ 2 ^ 48 }
        ensures journal { HasJournal self.now }
    {
        &self.window
    }

    /// Returns the number of committed batches, which is that of the newest version. Allocates no memory.
    pub fn place(&self) -> u64
        ensures { result ≡ head_place self.now }
    {
        self.window.newest().number()
    }

    /// Returns the number of retained items of the journal. Allocates no memory.
    pub fn kept(&self) -> u64
        ensures { result ≡ length self.now.kept }
    {
        self.kept.len() as u64
    }

    /// Returns the item of the commit with this number, if it is retained. Allocates no memory.
    pub fn item(&self, number: u64) -> Option<&Item>
        ensures { option_copied result ≡ item_at number self.now }
    {
        let back = self.place().checked_sub(number)?;
        let index = self.kept().checked_sub(back)?.checked_sub(1)?;
        self.kept.as_slice().get(index as usize)
    }

    /// Prepares the commit of a ready work for this seat and call, or returns why it can't be committed. A commit is prepared
    /// only if everything that the work has read is unchanged: at each of its marks, the newest book reads the same as the one
    /// on which the work began. It allocates all memory that the commit needs; nothing has changed but the room for items. The
    /// work must have begun on the newest version of this head or an earlier one of its history.
    pub fn prepare(&mut self, seat: u32, call: u64, work: &Work) -> Result<Prepared, Commit>
        requires ready { status_of work.now ≡ Status.Ready }
        requires domain { work.now.batch.domain ≡ self.old.window.newest.domain }
        requires began { BeganOn work.now.base self.old }
        ensures is_unchanged { IsUnchangedHead self.old self.new }
        ensures validated { IfOk result (λ prepared. ReadsAreUnchanged work.now.base work.now.batch (book_of self.old.window.newest.rows)) }
        ensures fits { IfOk result (Fits self.new) }
        ensures of_work { IfOk result (λ prepared. IsItemOf seat call work.now prepared.item) }
        ensures refused { IfErr result (IsRefused self.old work.now) }
    {
        let newest = self.window().newest();
        let place = newest.number();
        let prepared = match prepare_commit(seat, call, newest, self.kept.as_slice(), work) {
            Ok(prepared) => prepared,
            Err(refusal) => return Err(refusal.outcome_at(place)),
        };
        match self.kept.reserve(1) {
            Ok(()) => Ok(prepared),
            Err(AllocError) => Err(Commit::NoMemory),
        }
    }

    /// Finishes a prepared commit and returns its number. No other commit may come in between. Allocates no memory.
    pub fn finish(&mut self, prepared: Prepared) -> u64
        requires fits { Fits self.old prepared }
        ensures number { result ≡ head_place self.old + 1 }
        ensures appended { IsAppended self.old prepared.item self.new }
    {
        let Prepared { item, version } = prepared;
        let number = version.number();
        self.window.push(version);
        self.kept.push_reserved(item);
        number
    }

    /// Commits a ready work for this seat and call if everything that it has read is unchanged, or returns why it can't; then
    /// nothing has changed but the room for items. The work must have begun on the newest version of this head or an earlier one
    /// of its history.
    pub fn commit(&mut self, seat: u32, call: u64, work: &Work) -> Commit
        requires ready { status_of work.now ≡ Status.Ready }
        requires domain { work.now.batch.domain ≡ self.old.window.newest.domain }
        requires began { BeganOn work.now.base self.old }
        ensures { IsCommit self.old seat call work.now result self.new }
    {
        match self.prepare(seat, call, work) {
            Ok(prepared) => Commit::Committed(self.finish(prepared)),
            Err(refusal) => refusal,
        }
    }

    /// Drops all items but the last 64, and returns the number of dropped items. Place, window and versions are unchanged. The
    /// room for items hasn't shrunk, so that a commit that was prepared before can still be finished. Allocates no memory.
    pub fn checkpoint(&mut self) -> u64
        ensures dropped { result + length self.new.kept ≡ length self.old.kept }
        ensures kept { self.new.kept ≡ last_items self.old.kept }
        ensures window { self.new.window ≡ self.old.window }
        ensures room { self.old.room ≤ self.new.room }
    {
        drop_older(&mut self.kept) as u64
    }

    /// Removes the same items as [`Head::checkpoint`], but moves them to an empty list, which has room for 64, so that the
    /// caller can drop them later. Place, window and versions are unchanged. Allocates no memory.
    pub fn checkpoint_into(&mut self, older: &mut Vec<Item>)
        requires empty { older.old.items ≡ [] }
        requires room { 64 ≤ vec_capacity older.old }
        ensures moved { older.new.items ++ self.new.kept ≡ self.old.kept }
        ensures kept { self.new.kept ≡ last_items self.old.kept }
        ensures window { self.new.window ≡ self.old.window }
        ensures room { 64 ≤ vec_capacity older.new }
    {
        move_older(&mut self.kept, older);
    }
}
