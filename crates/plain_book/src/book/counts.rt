//! How many rows does a book have, and do they exceed a limit?

ghost use Rattle.std.specs.Prelude.{◌≡◌};

use super::Book;
use entry_book::{Limit, limit_passed};

impl Book {
    ghost use Rattle.std.specs.Prelude.{◌≡◌, length};
    ghost use Rattle.entry_book.specs.Limits.{limit_passed};

    /// Returns the first limit that this book would exceed as the successor of the book at this place, if there is one.
    pub(crate) fn limit_passed(&self, place: u64) -> Option<Limit>
        ensures { result ≡ limit_passed place self.now }
    {
        limit_passed(
            place,
            self.entry_count(),
            self.agent_count(),
            self.bundle_count(),
            self.token_count(),
        )
    }

    /// Returns the number of entries.
    fn entry_count(&self) -> usize
        ensures { result ≡ length self.now.entries }
    {
        self.entries.len()
    }

    /// Returns the number of agents.
    fn agent_count(&self) -> usize
        ensures { result ≡ length self.now.agents }
    {
        self.agents.len()
    }

    /// Returns the number of bundles.
    fn bundle_count(&self) -> usize
        ensures { result ≡ length self.now.bundles }
    {
        self.bundles.len()
    }

    /// Returns the number of batches stored under tokens.
    fn token_count(&self) -> usize
        ensures { result ≡ length self.now.tokens }
    {
        self.tokens.len()
    }
}
