//! What can be read from a version of the book, and how is the next one made?

ghost use Rattle.std.specs.Prelude.{◌≡◌};

use crate::borrowed::Borrowed;
use crate::changes::Changes;
use crate::mark::Mark;
use crate::names::ServerNames;
use crate::overlay::after_changes;
use crate::rows_read::RowsRead;
use crate::store::Store;
use entry_book::{Agent, Bundle, Entry, PageQuery, Shared};
use spiffe_name::{SpiffeId, TrustDomain};
use std::alloc::{AllocError, Global};
use std::marker::Model;
use uuid::Uuid;

/// The number of rows of each kind in a version.
#[derive(Clone, Copy, PartialEq, Eq)]
pub struct RowCounts {
    /// The entries.
    pub entries: usize,
    /// The agents.
    pub agents: usize,
    /// The bundles.
    pub bundles: usize,
    /// The batches stored under tokens.
    pub tokens: usize,
}

/// What all clones of a version share.
#[derive(Drop)]
struct Body {
    names: Shared<ServerNames>,
    store: Store,
}

/// A snapshot of the book of a trust domain's server. It never changes: a reader may keep it for any time, and a writer makes
/// the next one. Each row has the number of the commit that last wrote it. The model in contracts is the trust domain, the
/// number, and the rows with their numbers.
///
/// A clone increments one reference count, whatever the number of rows, and every read from it gives the same result at any
/// later time. A writer pays for the next version: the table at the head of this crate says what each call costs.
#[derive(Drop)]
pub struct Version {
    alloc: Global,
    number: u64,
    body: Shared<Body>,
}

impl Model for Version {
    ghost use Rattle.std.specs.Prelude.{◌*◌};
    ghost use Rattle.entry_book.specs.Lawful.{Lawful};
    ghost use Rattle.version_book.specs.CommittedRows.{AllUpTo, VersionState, book_of};

    ghost Value = { VersionState };

    ghost view = { λ version. record {
      domain = version.body.names;
      number = version.number;
      rows = version.body.store;
    } };

    ghost invariant = { λ version.
        Lawful version.body.names (64 * version.number) (book_of version.body.store)
        × AllUpTo version.number version.body.store };
}

impl Version {
    ghost use Rattle.std.specs.Prelude.{◌≡◌, ◌*◌, IfOk, IsTrue, List, false, length, true};
    ghost use Rattle.std.specs.Option.{option_copied};
    ghost use Rattle.spiffe_name.specs.Id.{server_text};
    ghost use Rattle.entry_book.specs.Batches.{Batch};
    ghost use Rattle.entry_book.specs.Book.{agent_at, bundle_at, children_of, entry_at};
    ghost use Rattle.entry_book.specs.Lawful.{Lawful};
    ghost use Rattle.entry_book.specs.Pages.{listed, next_of};
    ghost use Rattle.entry_book.specs.Writes.{after};
    ghost use Rattle.version_book.specs.Applying.{MayApply};
    ghost use Rattle.version_book.specs.History.{Follows, IsEarlier, any_hits};
    ghost use Rattle.version_book.specs.Marks.{Agree, reads};
    ghost use Rattle.version_book.specs.CommittedRows.{AllUpTo, book_of, marked, next_state, no_rows};
    ghost use Rattle.version_book.specs.Written.{placed};

    /// Makes the first version, with no rows and the number 0. The error is out of memory.
    pub fn empty(alloc: Global, domain: TrustDomain) -> Result<Version, AllocError>
        ensures { IfOk result (λ version. version ≡ record { domain = domain; number = 0; rows = no_rows }) }
    {
        let names = ServerNames::of(alloc, domain)?;
        let body = Body {
            names: Shared::of(alloc, names)?,
            store: Store::empty(alloc),
        };
        Ok(Version {
            alloc,
            number: 0,
            body: Shared::of(alloc, body)?,
        })
    }

    /// Returns the server's trust domain. Allocates no memory.
    pub fn domain(&self) -> &TrustDomain
        ensures { result.now ≡ self.now.domain }
    {
        self.body.get().names.get().domain()
    }

    /// Returns the ID of the server. Allocates no memory.
    pub fn server(&self) -> &Shared<SpiffeId>
        ensures { result.now ≡ server_text self.now.domain }
    {
        self.body.get().names.get().server()
    }

    /// Returns the number of this version's book in its history. The book is lawful, and no row was written by a later commit.
    /// Allocates no memory.
    pub fn number(&self) -> u64
        ensures number { result ≡ self.now.number }
        ensures lawful { Lawful self.now.domain (64 * self.now.number) (book_of self.now.rows) }
        ensures commits { AllUpTo self.now.number self.now.rows }
    {
        self.number
    }

    /// Returns the number of rows of each kind. Allocates no memory.
    pub fn count(&self) -> RowCounts
        ensures { result ≡ record {
          entries = length self.now.rows.entries;
          agents = length self.now.rows.agents;
          bundles = length self.now.rows.bundles;
          tokens = length self.now.rows.tokens;
        } }
    {
        let store = &self.body.get().store;
        RowCounts {
            entries: store.count_of_entries(),
            agents: store.count_of_agents(),
            bundles: store.count_of_bundles(),
            tokens: store.count_of_tokens(),
        }
    }

    /// Returns the entry of an id, if there is one. Allocates no memory.
    pub fn entry(&self, id: &Uuid) -> Option<&Entry>
        ensures { option_copied result ≡ entry_at id.now (book_of self.now.rows) }
    {
        self.body.get().store.entry(id)
    }

    /// Returns the agent of an id, if there is one. Allocates no memory.
    pub fn agent(&self, id: &Shared<SpiffeId>) -> Option<&Agent>
        ensures { option_copied result ≡ agent_at id.now (book_of self.now.rows) }
    {
        self.body.get().store.agent(id)
    }

    /// Returns the bundle of a trust domain, if there is one. Allocates no memory.
    pub fn bundle(&self, domain: &Shared<TrustDomain>) -> Option<&Bundle>
        ensures { option_copied result ≡ bundle_at domain.now (book_of self.now.rows) }
    {
        self.body.get().store.bundle(domain)
    }

    /// Returns the entries of a parent, borrowed, in the order of their ids. It increments no reference count, neither of a row
    /// nor of the parent's ID. The error is out of memory.
    pub fn children(
        &self,
        parent: &Shared<SpiffeId>,
    ) -> Result<Vec<Borrowed<'_, Entry>>, AllocError>
        ensures { IfOk result (λ found. found.items ≡ children_of parent.now (book_of self.now.rows)) }
    {
        self.body.get().store.children(self.alloc, parent)
    }

    /// Returns the entries that a page lists, borrowed, and the id after which the next page begins, if there is one. They are
    /// those of this version, whichever book the query names. The error is out of memory.
    pub fn page(
        &self,
        query: &PageQuery,
    ) -> Result<(Vec<Borrowed<'_, Entry>>, Option<Uuid>), AllocError>
        ensures listed { IfOk result (λ page. page.0.items ≡ listed query.now (book_of self.now.rows)) }
        ensures next { IfOk result (λ page. page.1 ≡ next_of query.now (book_of self.now.rows)) }
    {
        self.body.get().store.page(self.alloc, query)
    }

    /// Returns what a mark reads from this version's book. The error is out of memory.
    pub fn read(&self, mark: &Mark) -> Result<RowsRead, AllocError>
        ensures { IfOk result (λ reading. reading ≡ reads mark.now (book_of self.now.rows)) }
    {
        self.body.get().store.read(self.alloc, mark)
    }

    /// Returns what a mark reads from the book after these changes, without applying them. A batch that they store under a
    /// token has the place 0. The error is out of memory.
    pub fn read_after(&self, mark: &Mark, changes: &Changes) -> Result<RowsRead, AllocError>
        ensures { IfOk result (λ reading. reading ≡ reads mark.now (after changes.now (book_of self.now.rows))) }
    {
        let reading = self.read(mark)?;
        after_changes(self.alloc, reading, mark, changes)
    }

    /// Returns the next version: the book after these changes. The rows that they write get its number, which is also the place
    /// of a stored batch. The caller ensures that the number is one more than this version's. Each change in turn must find its
    /// old row and write a row with its own key. The resulting book must be lawful, and there must be room for its rows. The
    /// theorem `laws::applying` says this of the writes of a batch. The error is out of memory; this version is unchanged. The
    /// theorem `laws::books` says that the next version's book is the book after the changes, and the contract of `number` that
    /// it is lawful.
    pub fn apply(&self, changes: &Changes, number: u64) -> Result<Version, AllocError>
        requires may { MayApply (placed number changes.now) number self.now }
        ensures { IfOk result (λ version. version ≡ next_state (placed number changes.now) self.now) }
    {
        let body = self.body.get();
        let names = body.names.clone()?;
        let store = body
            .store
            .after_writes(self.alloc, changes.writes(), number)?;
        let body = Body { names, store };
        Ok(Version {
            alloc: self.alloc,
            number,
            body: Shared::of(self.alloc, body)?,
        })
    }

    /// Returns true if this version and an older one have the same keys at a mark, each last written by the same commit. Let
    /// the older one be an earlier version of the same history, or the same version. If the result is true, both versions read
    /// the same at the mark; if it is false, a batch committed in between made a write that hits the mark. Allocates no memory.
    pub fn unchanged(&self, mark: &Mark, older: &Version) -> bool
        ensures same { marked mark.now older.now.rows ≡ marked mark.now self.now.rows → IsTrue result }
        ensures rows { IsEarlier older.now self.now
            → IsTrue result → marked mark.now older.now.rows ≡ marked mark.now self.now.rows }
        ensures reads { IsEarlier older.now self.now
            → IsTrue result → Agree (book_of older.now.rows) (book_of self.now.rows) mark.now }
        ensures hit { (batches : List Batch) → Follows older.now batches self.now
            → result ≡ false → any_hits mark.now older.now batches ≡ true }
    {
        let body = self.body.get();
        body.store.is_same_at(&older.body.get().store, mark)
    }
}

/// A clone shares the rows: it increments one reference count and copies nothing. The error is a reference count at its
/// maximum.
impl Clone for Version {
    ghost is_clone = { λ original copy. copy ≡ original };

    fn clone(&self) -> Result<Version, AllocError> {
        Ok(Version {
            alloc: self.alloc,
            number: self.number,
            body: self.body.clone()?,
        })
    }
}
