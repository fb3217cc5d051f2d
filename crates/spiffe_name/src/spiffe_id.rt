//! Which texts are SPIFFE IDs, and what are their parts?

ghost use Rattle.std.specs.Prelude.{Some, bytes_eq, refl, ◌≡◌, ◌==◌, ◌≤◌, ◌+◌, drop, length};
ghost use Rattle.std.specs.Cmp.{partial_equiv_from_equiv};
ghost use Rattle.std.specs.Cmp.Lexicographic.{nat_list_cmp_total, nat_list_eq_equiv, slice_cmp, texts_po, texts_ties};
ghost use Rattle.std.specs.Ordering.{nat_cmp};
ghost use Rattle.std.specs.List.{list_all, position_or_len, slice_split};
ghost use Rattle.spiffe_name.specs.Id.{id_refusal, is_path_byte, is_slash, parts_refusal, segment_refusal, segments_refusal};

use crate::refusals::{Failure, IdRefusal};
use crate::trust_domain::{TrustDomain, domain_refusal, is_domain_byte};
use std::alloc::{AllocError, Global};
use std::cmp::Ordering;
use std::fmt;
use std::marker::Model;

/// A SPIFFE ID: `spiffe://` in lower case, a trust domain, and a path of segments each after a `/`, in at most 2,048
/// bytes. A segment is one or more of `a-z`, `A-Z`, `0-9`, `.`, `-`, `_`, and isn't `.` or `..` (SPIFFE-ID, sections
/// 2.1 to 2.3, narrowed as `docs/NAMES.md` says). The model in contracts is its text.
#[derive(Debug, Drop)]
pub struct SpiffeId {
    text: String,
}

impl Model for SpiffeId {
    ghost use Rattle.std.specs.String.{string_bytes};
    ghost use Rattle.std.specs.Prelude.{◌≡◌, None, List, ℕ};
    ghost use Rattle.spiffe_name.specs.Id.{id_refusal};

    ghost Value = { List ℕ };

    ghost view = { λ id. string_bytes id.text };

    ghost invariant = { λ id. id_refusal (string_bytes id.text) ≡ None };
}

impl SpiffeId {
    ghost use Rattle.std.specs.Prelude.{◌≡◌, ◌++◌, IfErr, IfOk, List, MatchResult, None, OnOk, ℕ};
    ghost use Rattle.spiffe_name.specs.Id.{Spells, domain_of, id_refusal, path_of, path_text, server_segments, server_text};
    ghost use Rattle.spiffe_name.specs.Failures.{FailsBy, IsNoMemory};

    /// Parses an ID. The error is the first [`IdRefusal`] that applies, in their order, or out of memory.
    pub fn parse(alloc: Global, text: &str) -> Result<SpiffeId, Failure<IdRefusal>>
        ensures table { MatchResult result
            (λ id. (id ≡ text.now) × (id_refusal text.now ≡ None))
            (FailsBy (id_refusal text.now)) }
        ensures sound { OnOk result
            ((domain : List ℕ) × (segments : List (List ℕ)) × Spells text.now domain segments) }
        ensures complete { (domain : List ℕ) (segments : List (List ℕ)) → Spells text.now domain segments
            → IfErr result IsNoMemory }
    {
        match refusal_of(text.as_bytes()) {
            Some(refusal) => Err(Failure::Refused(refusal)),
            None => Ok(SpiffeId {
                text: String::from_str(alloc, text)?,
            }),
        }
    }

    /// Makes the ID of the server of a trust domain: `spiffe://`, the domain, and the path `/spire/server`.
    pub fn server_of(alloc: Global, domain: &TrustDomain) -> Result<SpiffeId, AllocError>
        ensures id { IfOk result (λ id. id ≡ server_text domain.now) }
        ensures spelled { OnOk result (Spells (server_text domain.now) domain.now server_segments) }
    {
        let mut text = String::from_str(alloc, "spiffe://")?;
        text.push_str(domain.as_str())?;
        text.push_str("/spire/server")?;
        Ok(SpiffeId { text })
    }

    /// Returns the trust domain's text, which is between `spiffe://` and the path.
    pub fn domain(&self) -> &str
        ensures computed { result.now ≡ domain_of self.now }
        ensures part { (segments : List (List ℕ)) × Spells self.now result.now segments }
    {
        let text = self.text.as_str();
        &text[9..domain_end(text.as_bytes())]
    }

    /// Returns the path: a `/` before each segment. It is empty if the ID has no segment.
    pub fn path(&self) -> &str
        ensures computed { result.now ≡ path_of self.now }
        ensures part { (domain : List ℕ) × (segments : List (List ℕ))
            × Spells self.now domain segments × (result.now ≡ path_text segments) }
    {
        let text = self.text.as_str();
        &text[domain_end(text.as_bytes())..]
    }

    /// Returns the text.
    pub fn as_str(&self) -> &str
        ensures text { result.now ≡ self.now }
        ensures id { (domain : List ℕ) × (segments : List (List ℕ)) × Spells self.now domain segments }
    {
        self.text.as_str()
    }
}

impl Clone for SpiffeId {
    ghost is_clone = { λ original copy. copy ≡ original };

    fn clone(&self) -> Result<SpiffeId, AllocError> {
        Ok(SpiffeId {
            text: self.text.clone()?,
        })
    }
}

/// Two IDs are equal if their texts are.
impl PartialEq for SpiffeId {
    ghost eq = { bytes_eq };

    ghost laws = { partial_equiv_from_equiv nat_list_eq_equiv };

    fn eq(&self, other: &SpiffeId) -> bool {
        self.as_str() == other.as_str()
    }
}

impl Eq for SpiffeId {
    ghost laws = { nat_list_eq_equiv };
}

impl PartialOrd for SpiffeId {
    ghost partial_cmp = { λ a b. Some (slice_cmp nat_cmp a b) };

    ghost laws = { texts_po };

    fn partial_cmp(&self, other: &SpiffeId) -> Option<Ordering> {
        Some(self.cmp(other))
    }
}

/// IDs are ordered by the bytes of their texts.
impl Ord for SpiffeId {
    ghost cmp = { slice_cmp nat_cmp };

    ghost total = { nat_list_cmp_total };

    ghost matches_partial_cmp = { λ a b. refl };

    ghost matches_eq = { texts_ties };

    fn cmp(&self, other: &SpiffeId) -> Ordering {
        self.as_str().cmp(other.as_str())
    }
}

impl fmt::Display for SpiffeId {
    ghost output = { λ id. Some id };

    fn fmt<W: fmt::Write>(&self, f: &mut fmt::Formatter<W>) -> fmt::Result {
        f.write_str(self.as_str())
    }
}

/// Returns true if a path segment may contain this byte.
fn is_path_byte(byte: u8) -> bool
    ensures { result ≡ is_path_byte byte }
{
    is_domain_byte(byte) || byte.is_ascii_uppercase()
}

fn all_path_bytes(bytes: &[u8]) -> bool
    ensures { result ≡ list_all is_path_byte bytes.now }
{
    bytes.iter().all(|byte| is_path_byte(*byte))
}

/// Returns the first fault of one segment, if it has one.
#[tactic(auto, unfolding(crate::specs::Id::segment_refusal))]
fn segment_refusal(segment: &[u8]) -> Option<IdRefusal>
    ensures { result ≡ segment_refusal segment.now }
{
    if segment.is_empty() {
        return Some(IdRefusal::EmptySegment);
    }
    if matches!(segment, b"." | b"..") {
        return Some(IdRefusal::DotSegment);
    }
    if !all_path_bytes(segment) {
        return Some(IdRefusal::PathChar);
    }
    None
}

/// Returns the fault of the first bad segment of a path, which is given without its first `/`.
fn segments_refusal(path: &[u8]) -> Option<IdRefusal>
    ensures { result ≡ segments_refusal (slice_split is_slash path.now) }
{
    for segment in path.split(|byte| *byte == b'/') {
        let refusal = segment_refusal(segment);
        if refusal.is_some() {
            return refusal;
        }
    }
    None
}

/// Returns the index of the first `/`, or the length if there is none.
fn first_slash(bytes: &[u8]) -> usize
    ensures first { result ≡ position_or_len is_slash bytes.now }
    ensures bound { result ≤ length bytes.now }
{
    bytes
        .iter()
        .position(|byte| *byte == b'/')
        .unwrap_or(bytes.len())
}

/// Returns the index at which the trust domain of an ID ends.
fn domain_end(text: &[u8]) -> usize
    requires { 9 ≤ length text.now }
    ensures end { result ≡ 9 + position_or_len is_slash (drop 9 text.now) }
    ensures bound { result ≤ length text.now }
{
    9 + first_slash(&text[9..])
}

/// Returns the first fault of the text after `spiffe://`, if it has one.
#[tactic(auto, using(crate::proofs::Ids::parts_lemmas))]
fn parts_refusal(rest: &[u8]) -> Option<IdRefusal>
    ensures { result ≡ parts_refusal (slice_split is_slash rest.now) }
{
    let end = first_slash(rest);
    if end == rest.len() {
        return domain_refusal(rest);
    }
    match domain_refusal(&rest[..end]) {
        Some(refusal) => Some(refusal),
        None => segments_refusal(&rest[end + 1..]),
    }
}

/// Returns the first fault of a text, if it has one.
#[tactic(auto, unfolding(crate::specs::Id::id_refusal))]
fn refusal_of(text: &[u8]) -> Option<IdRefusal>
    ensures { result ≡ id_refusal text.now }
{
    if text.len() > 2048 {
        return Some(IdRefusal::TooLong);
    }
    match text.strip_prefix(b"spiffe://") {
        None => Some(IdRefusal::Scheme),
        Some(rest) => parts_refusal(rest),
    }
}
