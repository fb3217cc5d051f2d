//! Are these operations a valid batch for a trust domain?

ghost use Rattle.std.specs.Prelude.{◌≡◌, bytes_eq};
ghost use Rattle.entry_book.specs.Batches.{agent_fault, agent_id_fault, batch_refusal, first_past_of_many, bundle_fault, entry_fault, first_past, has_no_path, if_given, is_agent_path, is_foreign, is_outside, is_query, op_fault, ops_refusal, or_token, own_domain_fault, page_fault, parent_fault};
ghost use Rattle.spiffe_name.specs.Id.{path_of, server_text};

use crate::agent::Agent;
use crate::entry::NewEntry;
use crate::fault::{BatchRefusal, OpFault};
use crate::op::Op;
use crate::page::{PageQuery, SelectorMatch};
use crate::shared::Shared;
use crate::text::Text;
use spiffe_name::{SelectorSet, SpiffeId, TrustDomain};
use uuid::Uuid;

/// Returns why these operations and this token, if any, are not a batch.
#[tactic(auto, unfolding(crate::specs::Batches::batch_refusal))]
pub(crate) fn refusal_of(
    domain: &TrustDomain,
    ops: &[Op],
    token: &Option<Uuid>,
) -> Option<BatchRefusal>
    ensures { result ≡ batch_refusal domain.now ops.now token.now }
{
    if ops.is_empty() {
        return Some(BatchRefusal::NoOps);
    }
    if ops.len() > 64 {
        return Some(BatchRefusal::TooManyOps);
    }
    let later = later_refusal(ops, token);
    ops_refusal(domain, ops, later)
}

/// Returns why operations without a fault are not a batch.
fn later_refusal(ops: &[Op], token: &Option<Uuid>) -> Option<BatchRefusal>
    ensures { result ≡ or_token (first_past_of_many ops.now) ops.now token.now }
{
    if let Some(index) = first_past_of_many(ops) {
        return Some(BatchRefusal::PastPageNotAlone(index));
    }
    if token.is_some() && is_query(ops) {
        return Some(BatchRefusal::TokenOnQuery);
    }
    None
}

/// Returns the index of the first page that gives the number of a book, if there are several operations.
fn first_past_of_many(ops: &[Op]) -> Option<usize>
    ensures { result ≡ first_past_of_many ops.now }
{
    if ops.len() > 1 { first_past(ops) } else { None }
}

/// Returns the index of the first page that gives the number of a book.
fn first_past(ops: &[Op]) -> Option<usize>
    ensures { result ≡ first_past 0 ops.now }
{
    for (index, op) in ops.iter().enumerate() {
        if op.place_asked().is_some() {
            return Some(index);
        }
    }
    None
}

/// Returns true if a batch of these operations is read-only.
fn is_query(ops: &[Op]) -> bool
    ensures { result ≡ is_query ops.now }
{
    ops.iter().all(|op| op.is_question())
}

/// Returns the first operation with a fault, and the fault; or `later` if none has one.
fn ops_refusal(
    domain: &TrustDomain,
    ops: &[Op],
    later: Option<BatchRefusal>,
) -> Option<BatchRefusal>
    ensures { result ≡ ops_refusal domain.now 0 ops.now later }
{
    for (index, op) in ops.iter().enumerate() {
        if let Some(fault) = op_fault(domain, op) {
            return Some(BatchRefusal::OfOp(index, fault));
        }
    }
    later
}

/// Returns the least fault of an operation.
fn op_fault(domain: &TrustDomain, op: &Op) -> Option<OpFault>
    ensures { result ≡ op_fault domain.now op.now }
{
    match op {
        Op::Create(new) | Op::Update(new, _) => entry_fault(domain, new.get()),
        Op::Delete(_, _) | Op::Show(_) | Op::ShowBundle(_) | Op::Prune(_) => None,
        Op::ShowAgent(agent) | Op::Authorised(agent) | Op::Trust(agent) | Op::DropAgent(agent) => {
            agent_id_fault(domain, agent.get())
        }
        Op::Children(parent) => parent_fault(domain, parent.get()),
        Op::Page(query) => page_fault(domain, query.get()),
        Op::SetAgent(agent) => agent_fault(domain, agent),
        Op::SetBundle(of, text) => bundle_fault(domain, of.get(), text.get()),
        Op::DropBundle(of, _) => own_domain_fault(domain, of.get()),
    }
}

/// Returns the least fault of an entry.
#[tactic(auto, unfolding(crate::specs::Batches::entry_fault))]
fn entry_fault(domain: &TrustDomain, new: &NewEntry) -> Option<OpFault>
    ensures { result ≡ entry_fault domain.now new.now }
{
    let parent = new.parent.get();
    let identity = new.identity.get();
    if is_foreign(domain, parent) || is_foreign(domain, identity) {
        return Some(OpFault::ForeignId);
    }
    if has_no_path(parent) || has_no_path(identity) {
        return Some(OpFault::EmptyPath);
    }
    if is_server(domain, identity) {
        return Some(OpFault::ServerIdentity);
    }
    if is_outside(new.selectors.get()) {
        return Some(OpFault::Selectors);
    }
    if new.domains.len() > 8 {
        return Some(OpFault::TooManyDomains);
    }
    if new.hint.get().as_str().len() > 1024 {
        return Some(OpFault::HintTooLong);
    }
    None
}

/// Returns the fault of a parent in a query.
#[tactic(auto, unfolding(crate::specs::Batches::parent_fault))]
fn parent_fault(domain: &TrustDomain, parent: &SpiffeId) -> Option<OpFault>
    ensures { result ≡ parent_fault domain.now parent.now }
{
    if is_foreign(domain, parent) {
        return Some(OpFault::ForeignId);
    }
    if has_no_path(parent) {
        return Some(OpFault::EmptyPath);
    }
    None
}

/// Returns the least fault of a page.
#[tactic(auto, unfolding(crate::specs::Batches::page_fault))]
fn page_fault(domain: &TrustDomain, query: &PageQuery) -> Option<OpFault>
    ensures { result ≡ page_fault domain.now query.now }
{
    let filter = &query.filter;
    if is_given_foreign(domain, &filter.parent) || is_given_foreign(domain, &filter.identity) {
        return Some(OpFault::ForeignId);
    }
    if is_given_bare(&filter.parent) || is_given_bare(&filter.identity) {
        return Some(OpFault::EmptyPath);
    }
    if is_given_outside(&filter.selectors) {
        return Some(OpFault::Selectors);
    }
    if query.size < 1 || query.size > 500 {
        return Some(OpFault::PageSize);
    }
    None
}

/// Returns true if an ID of another trust domain is given.
fn is_given_foreign(domain: &TrustDomain, given: &Option<Shared<SpiffeId>>) -> bool
    ensures { result ≡ if_given (is_foreign domain.now) given.now }
{
    match given {
        Some(id) => is_foreign(domain, id.get()),
        None => false,
    }
}

/// Returns true if an ID without a path is given.
fn is_given_bare(given: &Option<Shared<SpiffeId>>) -> bool
    ensures { result ≡ if_given has_no_path given.now }
{
    match given {
        Some(id) => has_no_path(id.get()),
        None => false,
    }
}

/// Returns true if selectors are given, but fewer than 1 or more than 16.
fn is_given_outside(given: &Option<SelectorMatch>) -> bool
    ensures { result ≡ if_given (λ question. is_outside question.selectors) given.now }
{
    match given {
        Some(question) => is_outside(question.selectors.get()),
        None => false,
    }
}

/// Returns the fault of an agent that is queried or dropped.
#[tactic(auto, unfolding(crate::specs::Batches::agent_id_fault))]
fn agent_id_fault(domain: &TrustDomain, agent: &SpiffeId) -> Option<OpFault>
    ensures { result ≡ agent_id_fault domain.now agent.now }
{
    if is_foreign(domain, agent) {
        return Some(OpFault::ForeignId);
    }
    if !is_agent_path(agent) {
        return Some(OpFault::AgentPath);
    }
    None
}

/// Returns the least fault of an agent that is set.
#[tactic(auto, unfolding(crate::specs::Batches::agent_fault))]
fn agent_fault(domain: &TrustDomain, agent: &Agent) -> Option<OpFault>
    ensures { result ≡ agent_fault domain.now agent.now }
{
    let id = agent.id.get();
    if is_foreign(domain, id) {
        return Some(OpFault::ForeignId);
    }
    if agent.selectors.get().len() > 64 {
        return Some(OpFault::Selectors);
    }
    if !is_agent_path(id) {
        return Some(OpFault::AgentPath);
    }
    None
}

/// Returns the fault of a bundle that is set.
#[tactic(auto, unfolding(crate::specs::Batches::bundle_fault))]
fn bundle_fault(domain: &TrustDomain, of: &TrustDomain, text: &Text) -> Option<OpFault>
    ensures { result ≡ bundle_fault domain.now of.now text.now }
{
    if of == domain {
        return Some(OpFault::OwnDomainBundle);
    }
    if text.as_str().len() > 65536 {
        return Some(OpFault::BundleTooLong);
    }
    None
}

/// Returns the fault of a bundle that is dropped.
#[tactic(auto, unfolding(crate::specs::Batches::own_domain_fault))]
fn own_domain_fault(domain: &TrustDomain, of: &TrustDomain) -> Option<OpFault>
    ensures { result ≡ own_domain_fault domain.now of.now }
{
    if of == domain {
        return Some(OpFault::OwnDomainBundle);
    }
    None
}

/// Returns true if the ID is of another trust domain.
fn is_foreign(domain: &TrustDomain, id: &SpiffeId) -> bool
    ensures { result ≡ is_foreign domain.now id.now }
{
    id.domain() != domain.as_str()
}

/// Returns true if the ID's path is empty.
fn has_no_path(id: &SpiffeId) -> bool
    ensures { result ≡ has_no_path id.now }
{
    id.path().is_empty()
}

/// Returns true if the ID's path is that of an agent.
fn is_agent_path(id: &SpiffeId) -> bool
    ensures { result ≡ is_agent_path (path_of id.now) }
{
    id.path().as_bytes().starts_with(b"/spire/agent/")
}

/// Returns true if this is the ID of the trust domain's server.
pub fn is_server(domain: &TrustDomain, id: &SpiffeId) -> bool
    ensures { result ≡ bytes_eq id.now (server_text domain.now) }
{
    let Some(rest) = id.as_str().as_bytes().strip_prefix(b"spiffe://") else {
        return false;
    };
    let Some(path) = rest.strip_prefix(domain.as_str().as_bytes()) else {
        return false;
    };
    path == b"/spire/server".as_slice()
}

/// Returns true if the selectors are fewer than 1 or more than 16.
fn is_outside(selectors: &SelectorSet) -> bool
    ensures { result ≡ is_outside selectors.now }
{
    selectors.is_empty() || selectors.len() > 16
}
