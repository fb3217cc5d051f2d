//! How are the rows of a version stored?

ghost use Rattle.std.specs.Prelude.{◌≡◌, IfOk};
ghost use Rattle.version_book.specs.CommittedRows.{book_of, no_rows, rows_after_write};
ghost use Rattle.version_book.specs.Room.{RoomFor};
ghost use Rattle.version_book.specs.Written.{placed_write, write_of};
ghost use Rattle.version_book.specs.declared.changes.RowWrite.TheVariants as write;

use crate::borrowed::Borrowed;
use crate::changes::{RowWrite, TokenWrite};
use crate::entries::Entries;
use crate::mark::Mark;
use crate::row_shelf::RowShelf;
use crate::rows_read::RowsRead;
use entry_book::{Agent, Bundle, Entry, KeptBatch, PageQuery, Shared, both};
use spiffe_name::{SpiffeId, TrustDomain};
use std::alloc::{AllocError, Global};
use std::marker::Model;
use uuid::Uuid;

/// The four sets of rows of a version. The model in contracts is their rows with their commit numbers, in the order of their
/// keys.
#[derive(Drop)]
pub(crate) struct Store {
    entries: Entries,
    agents: RowShelf<Shared<SpiffeId>, Agent>,
    bundles: RowShelf<Shared<TrustDomain>, Bundle>,
    tokens: RowShelf<Uuid, KeptBatch>,
}

impl Model for Store {
    ghost use Rattle.version_book.specs.CommittedRows.{CommittedRows};

    ghost Value = { CommittedRows };

    ghost view = { λ store. record {
      entries = store.entries;
      agents = store.agents;
      bundles = store.bundles;
      tokens = store.tokens;
    } };
}

impl Store {
    ghost use Rattle.std.specs.Prelude.{◌≡◌, IfOk, IsTrue, Ok, map, length};
    ghost use Rattle.std.specs.Option.{option_copied};
    ghost use Rattle.entry_book.specs.Book.{agent_at, bundle_at, children_of, entry_at};
    ghost use Rattle.entry_book.specs.Order.{Ascending};
    ghost use Rattle.entry_book.specs.Pages.{listed, next_of};
    ghost use Rattle.entry_book.specs.Rows.{entry_key, agent_key, bundle_key};
    ghost use Rattle.entry_book.specs.Tokens.{token_key};
    ghost use Rattle.entry_book.specs.Writes.{FitAll, FitsBook};
    ghost use Rattle.version_book.specs.Marks.{reads};
    ghost use Rattle.version_book.specs.CommittedRows.{book_of, marked, no_rows, of_row, rows_after, rows_after_write};
    ghost use Rattle.version_book.specs.Room.{RoomAll, RoomFor};
    ghost use Rattle.version_book.specs.Stores.{NumbersIdentify};
    ghost use Rattle.version_book.specs.Written.{placed, placed_write, write_of};

    /// Makes a store without rows. Allocates no memory.
    pub(crate) fn empty(alloc: Global) -> Store
        ensures { result ≡ no_rows }
    {
        Store {
            entries: Entries::empty(alloc),
            agents: RowShelf::empty(alloc),
            bundles: RowShelf::empty(alloc),
            tokens: RowShelf::empty(alloc),
        }
    }

    /// Returns the number of entries.
    pub(crate) fn count_of_entries(&self) -> usize
        ensures count { result ≡ length self.now.entries }
        ensures order { Ascending (of_row entry_key) self.now.entries }
    {
        self.entries.len()
    }

    /// Returns the number of agents.
    pub(crate) fn count_of_agents(&self) -> usize
        ensures count { result ≡ length self.now.agents }
        ensures order { Ascending (of_row agent_key) self.now.agents }
    {
        self.agents.len()
    }

    /// Returns the number of bundles.
    pub(crate) fn count_of_bundles(&self) -> usize
        ensures count { result ≡ length self.now.bundles }
        ensures order { Ascending (of_row bundle_key) self.now.bundles }
    {
        self.bundles.len()
    }

    /// Returns the number of tokens under which a batch is stored.
    pub(crate) fn count_of_tokens(&self) -> usize
        ensures count { result ≡ length self.now.tokens }
        ensures order { Ascending (of_row token_key) self.now.tokens }
    {
        self.tokens.len()
    }

    /// Makes a store of the four sets. The error is out of memory, if making one of them failed.
    fn of(
        entries: Result<Entries, AllocError>,
        agents: Result<RowShelf<Shared<SpiffeId>, Agent>, AllocError>,
        bundles: Result<RowShelf<Shared<TrustDomain>, Bundle>, AllocError>,
        tokens: Result<RowShelf<Uuid, KeptBatch>, AllocError>,
    ) -> Result<Store, AllocError>
        ensures entries { IfOk result (λ store. entries ≡ Ok store.entries) }
        ensures agents { IfOk result (λ store. agents ≡ Ok store.agents) }
        ensures bundles { IfOk result (λ store. bundles ≡ Ok store.bundles) }
        ensures tokens { IfOk result (λ store. tokens ≡ Ok store.tokens) }
    {
        let (((entries, agents), bundles), tokens) = both(
            both(both(entries, agents), bundles),
            tokens,
        )?;
        Ok(Store {
            entries,
            agents,
            bundles,
            tokens,
        })
    }

    /// Returns the rows after one write by this commit. The commit's number is set as the place of a stored batch. The error is
    /// out of memory.
    fn after_write(self, alloc: Global, write: &RowWrite, commit: u64) -> Result<Store, AllocError>
        requires fits { FitsBook (placed_write commit (write_of write.now)) (book_of self) }
        requires room { RoomFor (placed_write commit (write_of write.now)) (book_of self) }
        ensures { IfOk result (λ store. store ≡ rows_after_write commit (placed_write commit (write_of write.now)) self) }
    {
        let Store {
            entries,
            agents,
            bundles,
            tokens,
        } = self;
        match write {
            RowWrite::Entry(change) => {
                let entries = entries.after(alloc, change, commit);
                Store::of(entries, Ok(agents), Ok(bundles), Ok(tokens))
            }
            RowWrite::Agent(change) => {
                let agents = agents.after(change, commit);
                Store::of(Ok(entries), agents, Ok(bundles), Ok(tokens))
            }
            RowWrite::Bundle(change) => {
                let bundles = bundles.after(change, commit);
                Store::of(Ok(entries), Ok(agents), bundles, Ok(tokens))
            }
            RowWrite::Token(token) => {
                let tokens = tokens_after(tokens, token, commit);
                Store::of(Ok(entries), Ok(agents), Ok(bundles), tokens)
            }
        }
    }

    /// Returns the rows after these writes, one after another, by this commit. The commit's number is set as the place of a
    /// stored batch. The error is out of memory.
    pub(crate) fn after_writes(
        &self,
        alloc: Global,
        writes: &[RowWrite],
        commit: u64,
    ) -> Result<Store, AllocError>
        requires fits { FitAll (placed commit (map write_of writes.now)) (book_of self.now) }
        requires room { RoomAll (placed commit (map write_of writes.now)) (book_of self.now) }
        ensures { IfOk result (λ store. store ≡ rows_after commit (placed commit (map write_of writes.now)) self.now) }
    {
        let mut store = self.clone()?;
        for write in writes {
            store = store.after_write(alloc, write, commit)?;
        }
        Ok(store)
    }

    /// Returns the entry of an id, if there is one. Allocates no memory.
    pub(crate) fn entry(&self, id: &Uuid) -> Option<&Entry>
        ensures { option_copied result ≡ entry_at id.now (book_of self.now) }
    {
        self.entries.get(id)
    }

    /// Returns the agent of an id, if there is one. Allocates no memory.
    pub(crate) fn agent(&self, id: &Shared<SpiffeId>) -> Option<&Agent>
        ensures { option_copied result ≡ agent_at id.now (book_of self.now) }
    {
        self.agents.get(id)
    }

    /// Returns the bundle of a trust domain, if there is one. Allocates no memory.
    pub(crate) fn bundle(&self, domain: &Shared<TrustDomain>) -> Option<&Bundle>
        ensures { option_copied result ≡ bundle_at domain.now (book_of self.now) }
    {
        self.bundles.get(domain)
    }

    /// Returns the entries of a parent, borrowed, in the order of their ids. The error is out of memory.
    pub(crate) fn children(
        &self,
        alloc: Global,
        parent: &Shared<SpiffeId>,
    ) -> Result<Vec<Borrowed<'_, Entry>>, AllocError>
        ensures { IfOk result (λ found. found.items ≡ children_of parent.now (book_of self.now)) }
    {
        self.entries.children(alloc, parent)
    }

    /// Returns the entries that a page lists, borrowed, and the id after which the next page begins, if there is one. The error
    /// is out of memory.
    pub(crate) fn page(
        &self,
        alloc: Global,
        query: &PageQuery,
    ) -> Result<(Vec<Borrowed<'_, Entry>>, Option<Uuid>), AllocError>
        ensures listed { IfOk result (λ page. page.0.items ≡ listed query.now (book_of self.now)) }
        ensures next { IfOk result (λ page. page.1 ≡ next_of query.now (book_of self.now)) }
    {
        self.entries.page(alloc, query)
    }

    /// Returns the rows that a mark names. The error is out of memory.
    pub(crate) fn read(&self, alloc: Global, mark: &Mark) -> Result<RowsRead, AllocError>
        ensures { IfOk result (λ reading. reading ≡ reads mark.now (book_of self.now)) }
    {
        Ok(RowsRead {
            entries: self.entries.at(alloc, mark)?,
            agents: self.agents.at(alloc, mark)?,
            bundles: self.bundles.at(alloc, mark)?,
            tokens: self.tokens.at(alloc, mark)?,
        })
    }

    /// Returns true if these rows and the older ones have the same keys at a mark, each last written by the same commit. In one
    /// history, true implies that the rows are equal.
    pub(crate) fn is_same_at(&self, older: &Store, mark: &Mark) -> bool
        ensures same { marked mark.now older.now ≡ marked mark.now self.now → IsTrue result }
        ensures is_exact { NumbersIdentify older.now self.now → IsTrue result → marked mark.now older.now ≡ marked mark.now self.now }
    {
        self.entries.is_same_at(&older.entries, mark)
            && self.agents.is_same_at(&older.agents, mark)
            && self.bundles.is_same_at(&older.bundles, mark)
            && self.tokens.is_same_at(&older.tokens, mark)
    }
}

/// Returns the stored batches after a write by this commit, whose number becomes their place. The error is out of memory.
fn tokens_after(
    tokens: RowShelf<Uuid, KeptBatch>,
    token: &TokenWrite,
    commit: u64,
) -> Result<RowShelf<Uuid, KeptBatch>, AllocError>
    requires room { RoomFor (placed_write commit (write_of (write.Token token.now))) (book_of (record no_rows { tokens = tokens })) }
    ensures { IfOk result (λ after. after
        ≡ (rows_after_write commit (placed_write commit (write_of (write.Token token.now))) (record no_rows { tokens = tokens })).tokens) }
{
    tokens.after(&token.at_place(commit)?, commit)
}

impl Clone for Store {
    ghost is_clone = { λ original copy. copy ≡ original };

    fn clone(&self) -> Result<Store, AllocError> {
        Store::of(
            self.entries.clone(),
            self.agents.duplicate(),
            self.bundles.duplicate(),
            self.tokens.duplicate(),
        )
    }
}
