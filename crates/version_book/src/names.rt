//! What do all versions of a book have in common?

use entry_book::{Shared, pair_with};
use spiffe_name::{SpiffeId, TrustDomain};
use std::alloc::{AllocError, Global};
use std::marker::Model;

/// The trust domain of a book's server, and the server's ID. The model in contracts is the trust domain.
#[derive(Drop)]
pub(crate) struct ServerNames {
    domain: TrustDomain,
    server: Shared<SpiffeId>,
}

impl Model for ServerNames {
    ghost use Rattle.std.specs.Prelude.{◌≡◌, List, ℕ};
    ghost use Rattle.spiffe_name.specs.Id.{server_text};

    ghost Value = { List ℕ };

    ghost view = { λ names. names.domain };

    ghost invariant = { λ names. names.server ≡ server_text names.domain };
}

impl ServerNames {
    ghost use Rattle.std.specs.Prelude.{◌≡◌, IfOk};
    ghost use Rattle.spiffe_name.specs.Id.{server_text};

    /// Makes the names of a trust domain's server. The error is out of memory.
    pub(crate) fn of(alloc: Global, domain: TrustDomain) -> Result<ServerNames, AllocError>
        ensures { IfOk result (λ names. names ≡ domain) }
    {
        let server = SpiffeId::server_of(alloc, &domain);
        let (domain, server) = pair_with(domain, server)?;
        let (domain, server) = pair_with(domain, Shared::of(alloc, server))?;
        Ok(ServerNames { domain, server })
    }

    /// Returns the trust domain.
    pub(crate) fn domain(&self) -> &TrustDomain
        ensures { result.now ≡ self.now }
    {
        &self.domain
    }

    /// Returns the server's ID.
    pub(crate) fn server(&self) -> &Shared<SpiffeId>
        ensures { result.now ≡ server_text self.now }
    {
        &self.server
    }
}
