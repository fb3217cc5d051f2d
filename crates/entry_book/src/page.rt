//! What is a query for a page of entries?

ghost use Rattle.std.specs.Prelude.{◌≡◌};
ghost use Rattle.entry_book.specs.Pages.{is_given};

use crate::entry::Entry;
use crate::shared::Shared;
use spiffe_name::{SelectorSet, SpiffeId, TrustDomain};
use std::alloc::AllocError;
use uuid::Uuid;

/// How an entry's selectors have to relate to the given ones.
#[derive(Clone, Copy, Debug, PartialEq, Eq, Drop)]
pub enum MatchMode {
    /// They are the same set.
    Exact,
    /// They have one in common.
    Any,
    /// The entry's set contains the given one.
    Superset,
    /// The entry's set is contained in the given one.
    Subset,
}

/// A condition on an entry's selectors. A clone shares the set.
#[derive(Drop)]
pub struct SelectorMatch {
    /// The given selectors.
    pub selectors: Shared<SelectorSet>,
    /// How the entry's selectors have to relate to them.
    pub mode: MatchMode,
}

impl SelectorMatch {
    ghost use Rattle.std.specs.Prelude.{◌≡◌};
    ghost use Rattle.entry_book.specs.Pages.{matches};

    /// Returns true if the entry's selectors satisfy the condition.
    pub fn matches(&self, entry: &Entry) -> bool
        ensures { result ≡ matches self.now entry.now }
    {
        let given = self.selectors.get();
        let own = entry.selectors().get();
        match self.mode {
            MatchMode::Exact => own == given,
            MatchMode::Any => own.meets(given),
            MatchMode::Superset => given.within(own),
            MatchMode::Subset => own.within(given),
        }
    }
}

impl Clone for SelectorMatch {
    ghost is_clone = { λ original copy. copy ≡ original };

    fn clone(&self) -> Result<SelectorMatch, AllocError> {
        Ok(SelectorMatch {
            selectors: self.selectors.clone()?,
            mode: self.mode,
        })
    }
}

/// Which entries a page lists: those that satisfy each part that is given. A clone shares its texts.
#[derive(Drop)]
pub struct Filter {
    /// The parent of the entry.
    pub parent: Option<Shared<SpiffeId>>,
    /// The ID that the workload gets.
    pub identity: Option<Shared<SpiffeId>>,
    /// A trust domain that the entry names.
    pub domain: Option<Shared<TrustDomain>>,
    /// A condition on the entry's selectors.
    pub selectors: Option<SelectorMatch>,
}

/// Returns true if no ID is given, or this one.
fn is_given(given: &Option<Shared<SpiffeId>>, id: &Shared<SpiffeId>) -> bool
    ensures { result ≡ is_given given.now id.now }
{
    match given {
        Some(given) => id.get() == given.get(),
        None => true,
    }
}

impl Filter {
    ghost use Rattle.std.specs.Prelude.{◌≡◌};
    ghost use Rattle.entry_book.specs.Pages.{passes, passes_domain, passes_selectors};

    /// Returns true if the entry satisfies each part that is given.
    pub fn passes(&self, entry: &Entry) -> bool
        ensures { result ≡ passes self.now entry.now }
    {
        is_given(&self.parent, entry.parent())
            && is_given(&self.identity, entry.identity())
            && self.passes_domain(entry)
            && self.passes_selectors(entry)
    }

    /// Returns true if no trust domain is given, or the entry names it.
    fn passes_domain(&self, entry: &Entry) -> bool
        ensures { result ≡ passes_domain self.now.domain entry.now }
    {
        match &self.domain {
            Some(domain) => entry.names(domain.get()),
            None => true,
        }
    }

    /// Returns true if no condition on selectors is given, or the entry satisfies it.
    fn passes_selectors(&self, entry: &Entry) -> bool
        ensures { result ≡ passes_selectors self.now.selectors entry.now }
    {
        match &self.selectors {
            Some(question) => question.matches(entry),
            None => true,
        }
    }
}

impl Clone for Filter {
    ghost is_clone = { λ original copy. copy ≡ original };

    fn clone(&self) -> Result<Filter, AllocError> {
        Ok(Filter {
            parent: self.parent.clone()?,
            identity: self.identity.clone()?,
            domain: self.domain.clone()?,
            selectors: self.selectors.clone()?,
        })
    }
}

/// A query for one page of entries. A clone shares its texts.
#[derive(Drop)]
pub struct PageQuery {
    /// The maximum number of entries that it lists, 1 to 500.
    pub size: u64,
    /// The number of the book that it reads; `None` for the last one, whatever its number. If it isn't one of the last 64
    /// books, the operation is refused `VersionGone`.
    pub at: Option<u64>,
    /// The id after which it begins; `None` to begin with the first entry.
    pub from: Option<Uuid>,
    /// Which entries it lists.
    pub filter: Filter,
}

impl Clone for PageQuery {
    ghost is_clone = { λ original copy. copy ≡ original };

    fn clone(&self) -> Result<PageQuery, AllocError> {
        Ok(PageQuery {
            size: self.size,
            at: self.at,
            from: self.from,
            filter: self.filter.clone()?,
        })
    }
}
