//! What is an agent of a book?

ghost use Rattle.std.specs.Prelude.{◌≡◌};

use crate::shared::Shared;
use spiffe_name::{SelectorSet, SpiffeId};
use std::alloc::AllocError;

/// An agent of the book: its ID, whose path begins with `/spire/agent/`, and the selectors of its node. A clone shares
/// them.
#[derive(Drop)]
pub struct Agent {
    /// The agent's key.
    pub id: Shared<SpiffeId>,
    /// The selectors of the node that it runs on.
    pub selectors: Shared<SelectorSet>,
}

impl Clone for Agent {
    ghost is_clone = { λ original copy. copy ≡ original };

    fn clone(&self) -> Result<Agent, AllocError> {
        Ok(Agent {
            id: self.id.clone()?,
            selectors: self.selectors.clone()?,
        })
    }
}
