//! What is a trust bundle of a book?

ghost use Rattle.std.specs.Prelude.{◌≡◌};

use crate::shared::Shared;
use crate::text::Text;
use spiffe_name::TrustDomain;
use std::alloc::AllocError;

/// The bundle of another trust domain, as opaque text. A clone shares the text.
#[derive(Drop)]
pub struct Bundle {
    /// The bundle's key.
    pub domain: Shared<TrustDomain>,
    /// The bundle's text.
    pub text: Shared<Text>,
    /// The sequence number: 0 for a new bundle; each further set adds 1.
    pub sequence: u64,
}

impl Clone for Bundle {
    ghost is_clone = { λ original copy. copy ≡ original };

    fn clone(&self) -> Result<Bundle, AllocError> {
        Ok(Bundle {
            domain: self.domain.clone()?,
            text: self.text.clone()?,
            sequence: self.sequence,
        })
    }
}
