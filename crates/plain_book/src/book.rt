//! How is a book stored?

ghost use Rattle.std.specs.Prelude.{◌≡◌};

mod counts;

use crate::entries::Entries;
use crate::expired::expired_among;
use crate::listing::page_among;
use crate::rows::Rows;
use crate::users::{first_user, named_bundles, users_among};
use crate::worklist::authorised_of;
use entry_book::{
    Agent, Bundle, DomainSet, Entry, KeptBatch, NewEntry, PageQuery, Sequence, Shared, pair_with,
};
use spiffe_name::{SpiffeId, TrustDomain};
use std::alloc::{AllocError, Global};
use std::marker::Model;
use uuid::Uuid;

/// A book: its entries, agents, bundles and batches with tokens, each a list of rows in the order of their keys. Books share
/// by reference counts the lists, blocks and rows that they have in common. A contract sees it as the record of the four lists.
#[derive(Drop)]
pub(crate) struct Book {
    entries: Entries,
    agents: Rows<Agent>,
    bundles: Rows<Bundle>,
    tokens: Rows<Shared<KeptBatch>>,
}

impl Model for Book {
    ghost use Rattle.entry_book.specs.Book.{AscendingBook, Book};

    ghost Value = { Book };

    ghost view = { λ book. record {
      entries = book.entries;
      agents = book.agents;
      bundles = book.bundles;
      tokens = book.tokens;
    } };

    ghost invariant = { λ book. AscendingBook (record {
      entries = book.entries;
      agents = book.agents;
      bundles = book.bundles;
      tokens = book.tokens;
    }) };
}

/// Reading rows.
impl Book {
    ghost use Rattle.std.specs.Prelude.{◌≡◌, IfOk};
    ghost use Rattle.std.specs.Option.{option_copied};
    ghost use Rattle.spiffe_name.specs.Id.{server_text};
    ghost use Rattle.entry_book.specs.Rows.{at_revision};
    ghost use Rattle.entry_book.specs.Order.{first};
    ghost use Rattle.entry_book.specs.Book.{agent_at, bundle_at, children_of, entry_at, expired_before, token_at, users_of};
    ghost use Rattle.entry_book.specs.Authorised.{authorised};
    ghost use Rattle.entry_book.specs.Ops.{bundles_of, lacking, similar};
    ghost use Rattle.entry_book.specs.Pages.{listed, next_of};

    /// Returns the entry with an id, if there is one.
    pub(crate) fn entry(&self, id: &Uuid) -> Option<&Entry>
        ensures { option_copied result ≡ entry_at id.now self.now }
    {
        self.entries.entry(id)
    }

    /// Returns the agent with an id, if there is one.
    pub(crate) fn agent(&self, id: &SpiffeId) -> Option<&Agent>
        ensures { option_copied result ≡ agent_at id.now self.now }
    {
        self.agents.row(id.as_str().as_bytes())
    }

    /// Returns the bundle of a domain, if there is one.
    pub(crate) fn bundle(&self, domain: &TrustDomain) -> Option<&Bundle>
        ensures { option_copied result ≡ bundle_at domain.now self.now }
    {
        self.bundles.row(domain.as_str().as_bytes())
    }

    /// Returns the batch stored under a token, if there is one.
    pub(crate) fn kept(&self, token: &Uuid) -> Option<&KeptBatch>
        ensures { option_copied result ≡ token_at token.now self.now }
    {
        match self.tokens.row(token.as_bytes().as_slice()) {
            Some(kept) => Some(kept.get()),
            None => None,
        }
    }

    /// Returns the first other entry with the same parent, identity and selectors, if there is one.
    pub(crate) fn similar(&self, new: &NewEntry) -> Option<&Entry>
        ensures { option_copied result ≡ similar (at_revision 0 new.now) self.now }
    {
        self.entries.similar(new)
    }

    /// Returns the first of these domains that has no bundle, if there is one.
    pub(crate) fn lacking<'a>(&self, domains: &'a DomainSet) -> Option<&'a Shared<TrustDomain>>
        ensures { option_copied result ≡ lacking domains.now self.now }
    {
        for domain in domains.as_slice() {
            if self.bundle(domain.get()).is_none() {
                return Some(domain);
            }
        }
        None
    }

    /// Returns the first entry that names a domain, if there is one.
    pub(crate) fn user(&self, domain: &TrustDomain) -> Option<&Entry>
        ensures { option_copied result ≡ first (users_of domain.now self.now) }
    {
        first_user(self.entries.blocks(), domain)
    }

    /// Returns the entries that name a domain, in the order of their ids. The error, here and below, is out of memory.
    pub(crate) fn users(
        &self,
        alloc: Global,
        domain: &TrustDomain,
    ) -> Result<Vec<Entry>, AllocError>
        ensures { IfOk result (λ users. users.items ≡ users_of domain.now self.now) }
    {
        let all = self.entries.to_vec(alloc)?;
        users_among(alloc, all.as_slice(), domain)
    }

    /// Returns the entries that expire before a moment, in seconds since the epoch, in the order of their ids.
    pub(crate) fn expired(&self, alloc: Global, moment: u64) -> Result<Vec<Entry>, AllocError>
        ensures { IfOk result (λ expired. expired.items ≡ expired_before moment self.now) }
    {
        let all = self.entries.to_vec(alloc)?;
        expired_among(alloc, all.as_slice(), moment)
    }

    /// Returns the entries of a parent, in the order of their ids.
    pub(crate) fn children(
        &self,
        alloc: Global,
        parent: &SpiffeId,
    ) -> Result<Sequence<Entry>, AllocError>
        ensures { IfOk result (λ found. found ≡ children_of parent.now self.now) }
    {
        let found = self.entries.children(alloc, parent)?;
        Ok(Sequence::of(found))
    }

    /// Returns the entries that a page lists, in the order of their ids. If more entries follow, it also returns the id after
    /// which the next page begins.
    pub(crate) fn page(
        &self,
        alloc: Global,
        query: &PageQuery,
    ) -> Result<(Sequence<Entry>, Option<Uuid>), AllocError>
        ensures { IfOk result (λ page. page ≡ (listed query.now self.now, next_of query.now self.now)) }
    {
        let (found, next) = page_among(alloc, query, self.entries.blocks())?;
        Ok((Sequence::of(found), next))
    }

    /// Returns the authorised entries of an agent in the book of this trust domain, in the order of their ids.
    #[tactic(auto, unfolding(entry_book::specs::Authorised::authorised))]
    pub(crate) fn authorised(
        &self,
        alloc: Global,
        own_domain: &TrustDomain,
        agent: &Agent,
    ) -> Result<Sequence<Entry>, AllocError>
        ensures { IfOk result (λ found. found ≡ authorised (server_text own_domain.now) agent.now self.now) }
    {
        let found = authorised_of(alloc, own_domain, agent, &self.entries)?;
        Ok(Sequence::of(found))
    }

    /// Returns the bundles of the domains that these entries name, in the order of domains.
    pub(crate) fn bundles_of(
        &self,
        alloc: Global,
        entries: &[Entry],
    ) -> Result<Sequence<Bundle>, AllocError>
        ensures { IfOk result (λ named. named ≡ bundles_of entries.now self.now) }
    {
        let all = self.bundles.to_vec(alloc)?;
        let named = named_bundles(alloc, all.as_slice(), entries)?;
        Ok(Sequence::of(named))
    }
}

/// Making changed books. The error is out of memory.
impl Book {
    ghost use Rattle.std.specs.Prelude.{◌≡◌, ◌≤◌, ◌^◌, IfOk, None, Some, map};
    ghost use Rattle.entry_book.specs.Rows.{Entry as EntryRow, agent_key, bundle_key, entry_key};
    ghost use Rattle.entry_book.specs.Tokens.{token_key};
    ghost use Rattle.entry_book.specs.Order.{Ascending, Within, with_row};
    ghost use Rattle.entry_book.specs.Book.{empty_book};
    ghost use Rattle.entry_book.specs.Writes.{after};
    ghost use Rattle.entry_book.specs.Ops.{freed, removed};

    /// Returns the book with no rows.
    pub(crate) fn empty(alloc: Global) -> Result<Book, AllocError>
        ensures { IfOk result (λ book. book ≡ empty_book) }
    {
        Ok(Book {
            entries: Entries::empty(alloc)?,
            agents: Rows::empty(alloc)?,
            bundles: Rows::empty(alloc)?,
            tokens: Rows::empty(alloc)?,
        })
    }

    /// Returns the book with these entries, and otherwise unchanged.
    fn with_entries(&self, entries: Entries) -> Result<Book, AllocError>
        requires ascending { Ascending entry_key entries }
        ensures { IfOk result (λ book. book ≡ record self.now { entries = entries }) }
    {
        let (entries, found) = pair_with(entries, self.clone())?;
        let Book {
            entries: before,
            agents,
            bundles,
            tokens,
        } = found;
        drop(before);
        Ok(Book {
            entries,
            agents,
            bundles,
            tokens,
        })
    }

    /// Returns the book with these agents, and otherwise unchanged.
    fn with_agents(&self, agents: Rows<Agent>) -> Result<Book, AllocError>
        requires ascending { Ascending agent_key agents }
        ensures { IfOk result (λ book. book ≡ record self.now { agents = agents }) }
    {
        let (agents, found) = pair_with(agents, self.clone())?;
        let Book {
            entries,
            agents: before,
            bundles,
            tokens,
        } = found;
        drop(before);
        Ok(Book {
            entries,
            agents,
            bundles,
            tokens,
        })
    }

    /// Returns the book with these bundles, and otherwise unchanged.
    fn with_bundles(&self, bundles: Rows<Bundle>) -> Result<Book, AllocError>
        requires ascending { Ascending bundle_key bundles }
        ensures { IfOk result (λ book. book ≡ record self.now { bundles = bundles }) }
    {
        let (bundles, found) = pair_with(bundles, self.clone())?;
        let Book {
            entries,
            agents,
            bundles: before,
            tokens,
        } = found;
        drop(before);
        Ok(Book {
            entries,
            agents,
            bundles,
            tokens,
        })
    }

    /// Returns the book with these stored batches, and otherwise unchanged.
    fn with_tokens(&self, tokens: Rows<Shared<KeptBatch>>) -> Result<Book, AllocError>
        requires ascending { Ascending token_key tokens }
        ensures { IfOk result (λ book. book ≡ record self.now { tokens = tokens }) }
    {
        let (tokens, found) = pair_with(tokens, self.clone())?;
        let Book {
            entries,
            agents,
            bundles,
            tokens: before,
        } = found;
        drop(before);
        Ok(Book {
            entries,
            agents,
            bundles,
            tokens,
        })
    }

    /// Returns the book with this entry, which replaces the one with its id, if there is one.
    pub(crate) fn with_entry(&self, alloc: Global, entry: Entry) -> Result<Book, AllocError>
        ensures { IfOk result (λ book. book ≡ record self.now {
          entries = with_row entry_key entry.id (Some entry) self.now.entries;
        }) }
    {
        let entries = self.entries.with(alloc, entry)?;
        self.with_entries(entries)
    }

    /// Returns the book without the entry that has this one's id, if there is one.
    pub(crate) fn without_entry(&self, alloc: Global, entry: &Entry) -> Result<Book, AllocError>
        ensures { IfOk result (λ book. book ≡ record self.now {
          entries = with_row entry_key entry.now.id None self.now.entries;
        }) }
    {
        let entries = self.entries.without(alloc, entry.id())?;
        self.with_entries(entries)
    }

    /// Returns the book without the entries of these ids, removed one after another.
    pub(crate) fn without_all(&self, alloc: Global, gone: &[Entry]) -> Result<Book, AllocError>
        ensures { IfOk result (λ book. book ≡ after (map removed gone.now) self.now) }
    {
        let mut rest = self.clone()?;
        for entry in gone {
            rest = rest.without_entry(alloc, entry)?;
        }
        Ok(rest)
    }

    /// Returns the book with each of these entries without a domain and at its next revision, put there one after another.
    pub(crate) fn with_freed(
        &self,
        alloc: Global,
        users: &[Entry],
        domain: &TrustDomain,
    ) -> Result<Book, AllocError>
        requires room { (entry : EntryRow) → Within users.now entry → entry.revision ≤ 2 ^ 63 }
        ensures { IfOk result (λ book. book ≡ after (map (freed domain.now) users.now) self.now) }
    {
        let mut changed = self.clone()?;
        for entry in users {
            let freed = entry.dissociated(alloc, domain)?;
            changed = changed.with_entry(alloc, freed)?;
        }
        Ok(changed)
    }

    /// Returns the book with this agent, which replaces the one with its id, if there is one.
    pub(crate) fn with_agent(&self, alloc: Global, agent: Agent) -> Result<Book, AllocError>
        ensures { IfOk result (λ book. book ≡ record self.now {
          agents = with_row agent_key agent.id (Some agent) self.now.agents;
        }) }
    {
        let agents = self.agents.with(alloc, agent)?;
        self.with_agents(agents)
    }

    /// Returns the book without the agent that has this one's id, if there is one.
    pub(crate) fn without_agent(&self, alloc: Global, agent: &Agent) -> Result<Book, AllocError>
        ensures { IfOk result (λ book. book ≡ record self.now {
          agents = with_row agent_key agent.now.id None self.now.agents;
        }) }
    {
        let agents = self
            .agents
            .without(alloc, agent.id.get().as_str().as_bytes())?;
        self.with_agents(agents)
    }

    /// Returns the book with this bundle, which replaces the one of its domain, if there is one.
    pub(crate) fn with_bundle(&self, alloc: Global, bundle: Bundle) -> Result<Book, AllocError>
        ensures { IfOk result (λ book. book ≡ record self.now {
          bundles = with_row bundle_key bundle.domain (Some bundle) self.now.bundles;
        }) }
    {
        let bundles = self.bundles.with(alloc, bundle)?;
        self.with_bundles(bundles)
    }

    /// Returns the book without the bundle of this one's domain, if there is one.
    pub(crate) fn without_bundle(&self, alloc: Global, bundle: &Bundle) -> Result<Book, AllocError>
        ensures { IfOk result (λ book. book ≡ record self.now {
          bundles = with_row bundle_key bundle.now.domain None self.now.bundles;
        }) }
    {
        let bundles = self
            .bundles
            .without(alloc, bundle.domain.get().as_str().as_bytes())?;
        self.with_bundles(bundles)
    }

    /// Returns the book with this batch stored under its token, which replaces the one there, if there is one.
    pub(crate) fn with_token(
        &self,
        alloc: Global,
        kept: Shared<KeptBatch>,
    ) -> Result<Book, AllocError>
        ensures { IfOk result (λ book. book ≡ record self.now {
          tokens = with_row token_key kept.token (Some kept) self.now.tokens;
        }) }
    {
        let tokens = self.tokens.with(alloc, kept)?;
        self.with_tokens(tokens)
    }
}

impl Clone for Book {
    ghost is_clone = { λ original copy. copy ≡ original };

    fn clone(&self) -> Result<Book, AllocError> {
        Ok(Book {
            entries: self.entries.clone()?,
            agents: self.agents.clone()?,
            bundles: self.bundles.clone()?,
            tokens: self.tokens.clone()?,
        })
    }
}
