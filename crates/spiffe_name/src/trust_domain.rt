//! Which texts name a trust domain?

ghost use Rattle.std.specs.Prelude.{Some, bytes_eq, refl, ◌≡◌};
ghost use Rattle.std.specs.Cmp.{partial_equiv_from_equiv};
ghost use Rattle.std.specs.Cmp.Lexicographic.{nat_list_cmp_total, nat_list_eq_equiv, slice_cmp, texts_po, texts_ties};
ghost use Rattle.std.specs.Ordering.{nat_cmp};
ghost use Rattle.std.specs.List.{list_all};
ghost use Rattle.spiffe_name.specs.Domain.{domain_refusal, is_domain_byte};

use crate::refusals::{Failure, IdRefusal};
use std::alloc::{AllocError, Global};
use std::cmp::Ordering;
use std::fmt;
use std::marker::Model;

/// The name of a trust domain: 1 to 255 bytes of `a-z`, `0-9`, `.`, `-`, `_` (SPIFFE-ID, sections 2.1 and 2.3). The
/// model in contracts is its text.
#[derive(Debug, Drop)]
pub struct TrustDomain {
    text: String,
}

impl Model for TrustDomain {
    ghost use Rattle.std.specs.String.{string_bytes};
    ghost use Rattle.std.specs.Prelude.{◌≡◌, None, List, ℕ};
    ghost use Rattle.spiffe_name.specs.Domain.{domain_refusal};

    ghost Value = { List ℕ };

    ghost view = { λ domain. string_bytes domain.text };

    ghost invariant = { λ domain. domain_refusal (string_bytes domain.text) ≡ None };
}

impl TrustDomain {
    ghost use Rattle.std.specs.Prelude.{◌≡◌, MatchResult, IfErr, OnOk, None};
    ghost use Rattle.spiffe_name.specs.Domain.{domain_refusal, IsDomain};
    ghost use Rattle.spiffe_name.specs.Failures.{FailsBy, IsNoMemory};

    /// Parses a trust domain. The error is the first of `NoDomain`, `DomainTooLong` and `DomainChar` that applies, or
    /// out of memory.
    pub fn parse(alloc: Global, text: &str) -> Result<TrustDomain, Failure<IdRefusal>>
        ensures table { MatchResult result
            (λ domain. (domain ≡ text.now) × (domain_refusal text.now ≡ None))
            (FailsBy (domain_refusal text.now)) }
        ensures sound { OnOk result (IsDomain text.now) }
        ensures complete { IsDomain text.now → IfErr result IsNoMemory }
    {
        match domain_refusal(text.as_bytes()) {
            Some(refusal) => Err(Failure::Refused(refusal)),
            None => Ok(TrustDomain {
                text: String::from_str(alloc, text)?,
            }),
        }
    }

    /// Returns the text.
    pub fn as_str(&self) -> &str
        ensures text { result.now ≡ self.now }
        ensures domain { IsDomain self.now }
    {
        self.text.as_str()
    }
}

impl Clone for TrustDomain {
    ghost is_clone = { λ original copy. copy ≡ original };

    fn clone(&self) -> Result<TrustDomain, AllocError> {
        Ok(TrustDomain {
            text: self.text.clone()?,
        })
    }
}

/// Two trust domains are equal if their texts are.
impl PartialEq for TrustDomain {
    ghost eq = { bytes_eq };

    ghost laws = { partial_equiv_from_equiv nat_list_eq_equiv };

    fn eq(&self, other: &TrustDomain) -> bool {
        self.as_str() == other.as_str()
    }
}

impl Eq for TrustDomain {
    ghost laws = { nat_list_eq_equiv };
}

impl PartialOrd for TrustDomain {
    ghost partial_cmp = { λ a b. Some (slice_cmp nat_cmp a b) };

    ghost laws = { texts_po };

    fn partial_cmp(&self, other: &TrustDomain) -> Option<Ordering> {
        Some(self.cmp(other))
    }
}

/// Trust domains are ordered by the bytes of their texts.
impl Ord for TrustDomain {
    ghost cmp = { slice_cmp nat_cmp };

    ghost total = { nat_list_cmp_total };

    ghost matches_partial_cmp = { λ a b. refl };

    ghost matches_eq = { texts_ties };

    fn cmp(&self, other: &TrustDomain) -> Ordering {
        self.as_str().cmp(other.as_str())
    }
}

impl fmt::Display for TrustDomain {
    ghost output = { λ domain. Some domain };

    fn fmt<W: fmt::Write>(&self, f: &mut fmt::Formatter<W>) -> fmt::Result {
        f.write_str(self.as_str())
    }
}

/// Returns true if a trust domain may contain this byte.
pub(crate) fn is_domain_byte(byte: u8) -> bool
    ensures { result ≡ is_domain_byte byte }
{
    matches!(byte, b'a'..=b'z' | b'0'..=b'9' | b'.' | b'-' | b'_')
}

fn all_domain_bytes(bytes: &[u8]) -> bool
    ensures { result ≡ list_all is_domain_byte bytes.now }
{
    bytes.iter().all(|byte| is_domain_byte(*byte))
}

/// Returns the first fault of a trust domain, if it has one.
#[tactic(auto, unfolding(crate::specs::Domain::domain_refusal))]
pub(crate) fn domain_refusal(domain: &[u8]) -> Option<IdRefusal>
    ensures { result ≡ domain_refusal domain.now }
{
    if domain.is_empty() {
        return Some(IdRefusal::NoDomain);
    }
    if domain.len() > 255 {
        return Some(IdRefusal::DomainTooLong);
    }
    if !all_domain_bytes(domain) {
        return Some(IdRefusal::DomainChar);
    }
    None
}
