//! What does a mark read?

ghost use Rattle.std.specs.Prelude.{◌≡◌};

use entry_book::{Agent, Bundle, Entry, KeptBatch};
use std::marker::Model;

/// The rows that a mark reads, whole and in the order of their keys: entries, an agent, a bundle or a stored batch, possibly
/// none. The model in contracts is the book of these rows alone.
#[derive(Drop)]
pub struct RowsRead {
    pub(crate) entries: Vec<Entry>,
    pub(crate) agents: Vec<Agent>,
    pub(crate) bundles: Vec<Bundle>,
    pub(crate) tokens: Vec<KeptBatch>,
}

impl Model for RowsRead {
    ghost use Rattle.entry_book.specs.Book.{Book};

    ghost Value = { Book };

    ghost view = { λ reading. record {
      entries = reading.entries.items;
      agents = reading.agents.items;
      bundles = reading.bundles.items;
      tokens = reading.tokens.items;
    } };
}

impl RowsRead {
    ghost use Rattle.std.specs.Prelude.{◌≡◌};

    /// Returns the entries that were read, in the order of their ids.
    pub fn entries(&self) -> &[Entry]
        ensures { result.now ≡ self.now.entries }
    {
        self.entries.as_slice()
    }

    /// Returns the agent that was read; at most one.
    pub fn agents(&self) -> &[Agent]
        ensures { result.now ≡ self.now.agents }
    {
        self.agents.as_slice()
    }

    /// Returns the bundle that was read; at most one.
    pub fn bundles(&self) -> &[Bundle]
        ensures { result.now ≡ self.now.bundles }
    {
        self.bundles.as_slice()
    }

    /// Returns the stored batch that was read; at most one.
    pub fn tokens(&self) -> &[KeptBatch]
        ensures { result.now ≡ self.now.tokens }
    {
        self.tokens.as_slice()
    }

    /// Returns the entries that were read, in the order of their ids, by value.
    pub fn into_entries(self) -> Vec<Entry>
        ensures { result.items ≡ self.entries }
    {
        let RowsRead { entries, .. } = self;
        entries
    }

    /// Returns the agent that was read, by value; at most one.
    pub fn into_agents(self) -> Vec<Agent>
        ensures { result.items ≡ self.agents }
    {
        let RowsRead { agents, .. } = self;
        agents
    }

    /// Returns the bundle that was read, by value; at most one.
    pub fn into_bundles(self) -> Vec<Bundle>
        ensures { result.items ≡ self.bundles }
    {
        let RowsRead { bundles, .. } = self;
        bundles
    }

    /// Returns the stored batch that was read, by value; at most one.
    pub fn into_tokens(self) -> Vec<KeptBatch>
        ensures { result.items ≡ self.tokens }
    {
        let RowsRead { tokens, .. } = self;
        tokens
    }
}
