//! What do marks and writes need to know of a row?

ghost use Rattle.std.specs.Prelude.{◌≡◌, Bool, IfOk, List, MatchOption, bytes_eq, false, refl, ℕ};
ghost use Rattle.std.specs.Cmp.Lexicographic.{slice_cmp};
ghost use Rattle.std.specs.Ordering.{nat_cmp};

use crate::mark::{Mark, MarkKind};
use entry_book::{Agent, Bundle, Entry, KeptBatch, Shared};
use spiffe_name::{SpiffeId, TrustDomain};
use std::alloc::AllocError;
use uuid::Uuid;

/// A row of a book. It has a key, by whose bytes rows are ordered, and marks that name it.
pub(crate) trait BookRow: Drop {
    ghost use Rattle.version_book.specs.declared.mark.MarkKind.{MarkKind};

    ghost key: { Self → List ℕ };

    ghost names: { MarkKind → Self → Bool };

    /// Returns the bytes of its key.
    fn key(&self) -> &[u8]
        ensures { result.now ≡ key self.now };

    /// Returns true if it is one of the rows that the mark names.
    fn is_named(&self, mark: &Mark) -> bool
        ensures { result ≡ names mark.now self.now };

    /// Returns a clone of the row, which shares its texts. The error is a reference count at its maximum.
    fn duplicate(&self) -> Result<Self, AllocError>
        ensures { IfOk result (λ copy. copy ≡ self.now) };
}

/// A row that marks name only by its key. The key has a type of its own, and is ordered by its bytes.
pub(crate) trait KeyedRow<K: Ord>: BookRow {
    ghost bytes: { K → List ℕ };

    /// Returns the key of the row that the mark names, or `None` if it names no row of this type.
    fn key_in(mark: &Mark) -> Option<&K>
        ensures { MatchOption result ((row : Self) → Self.names mark.now row ≡ false)
            (λ key. (row : Self) → Self.names mark.now row ≡ bytes_eq (Self.key row) (bytes key.now)) };

    ghost by_bytes: { (one other : K) → K.cmp one other ≡ slice_cmp nat_cmp (bytes one) (bytes other) };
}

impl BookRow for Entry {
    ghost use Rattle.version_book.specs.Marks.{names_entry};

    ghost key = { λ entry. entry.id };

    ghost names = { names_entry };

    fn key(&self) -> &[u8] {
        self.id().as_bytes().as_slice()
    }

    fn is_named(&self, mark: &Mark) -> bool {
        match mark.kind() {
            MarkKind::Entry(id) => self.id() == id,
            MarkKind::Group(parent, identity) => {
                self.parent().get() == parent.get() && self.identity().get() == identity.get()
            }
            MarkKind::Children(parent) => self.parent().get() == parent.get(),
            MarkKind::Users(domain) => self.names(domain.get()),
            MarkKind::Expiring(moment) => self.expires_before(*moment),
            MarkKind::All => true,
            MarkKind::Agent(_) | MarkKind::Bundle(_) | MarkKind::Token(_) => false,
        }
    }

    fn duplicate(&self) -> Result<Self, AllocError> {
        self.clone()
    }
}

impl BookRow for Agent {
    ghost use Rattle.version_book.specs.Marks.{names_agent};

    ghost key = { λ agent. agent.id };

    ghost names = { names_agent };

    fn key(&self) -> &[u8] {
        self.id.get().as_str().as_bytes()
    }

    fn is_named(&self, mark: &Mark) -> bool {
        match mark.kind() {
            MarkKind::Agent(id) => self.id.get() == id.get(),
            _ => false,
        }
    }

    fn duplicate(&self) -> Result<Self, AllocError> {
        self.clone()
    }
}

impl KeyedRow<Shared<SpiffeId>> for Agent {
    ghost bytes = { λ id. id };

    ghost by_bytes = { λ one other. refl };

    fn key_in(mark: &Mark) -> Option<&Shared<SpiffeId>> {
        match mark.kind() {
            MarkKind::Agent(id) => Some(id),
            _ => None,
        }
    }
}

impl BookRow for Bundle {
    ghost use Rattle.version_book.specs.Marks.{names_bundle};

    ghost key = { λ bundle. bundle.domain };

    ghost names = { names_bundle };

    fn key(&self) -> &[u8] {
        self.domain.get().as_str().as_bytes()
    }

    fn is_named(&self, mark: &Mark) -> bool {
        match mark.kind() {
            MarkKind::Bundle(domain) => self.domain.get() == domain.get(),
            _ => false,
        }
    }

    fn duplicate(&self) -> Result<Self, AllocError> {
        self.clone()
    }
}

impl KeyedRow<Shared<TrustDomain>> for Bundle {
    ghost bytes = { λ domain. domain };

    ghost by_bytes = { λ one other. refl };

    fn key_in(mark: &Mark) -> Option<&Shared<TrustDomain>> {
        match mark.kind() {
            MarkKind::Bundle(domain) => Some(domain),
            _ => None,
        }
    }
}

impl BookRow for KeptBatch {
    ghost use Rattle.version_book.specs.Marks.{names_token};

    ghost key = { λ kept. kept.token };

    ghost names = { names_token };

    fn key(&self) -> &[u8] {
        self.token.as_bytes().as_slice()
    }

    fn is_named(&self, mark: &Mark) -> bool {
        match mark.kind() {
            MarkKind::Token(token) => self.token == *token,
            _ => false,
        }
    }

    fn duplicate(&self) -> Result<Self, AllocError> {
        self.clone()
    }
}

impl KeyedRow<Uuid> for KeptBatch {
    ghost bytes = { λ token. token };

    ghost by_bytes = { λ one other. refl };

    fn key_in(mark: &Mark) -> Option<&Uuid> {
        match mark.kind() {
            MarkKind::Token(token) => Some(token),
            _ => None,
        }
    }
}
