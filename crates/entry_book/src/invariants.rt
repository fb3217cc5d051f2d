//! Which type invariants do the operations of a batch and its token have? For the prover: these functions have no effect,
//! and their contracts bring the invariants into a proof.

ghost use Rattle.std.specs.Prelude.{◌≡◌, IfSome, length};
ghost use Rattle.std.specs.List.{AllByRecursion};
ghost use Rattle.entry_book.specs.Rows.{IsId, IsProperAgent, IsProperEntry};
ghost use Rattle.entry_book.specs.Batches.{IsProperOp, IsProperPage};
ghost use Rattle.spiffe_name.specs.Domain.{IsDomain};
ghost use Rattle.spiffe_name.specs.SelectorSet.{IsSelectorSet};

use crate::agent::Agent;
use crate::entry::NewEntry;
use crate::op::Op;
use crate::page::{PageQuery, SelectorMatch};
use crate::shared::Shared;
use spiffe_name::{SpiffeId, TrustDomain};
use uuid::Uuid;

/// A token has 16 bytes.
pub(crate) fn know_token(token: &Option<Uuid>)
    ensures { IfSome token.now (λ id. length id ≡ 16) }
{
    know_given_uuid(token);
}

/// The parts of each operation satisfy the invariants of their types.
pub(crate) fn know_ops(ops: &[Op])
    ensures { AllByRecursion IsProperOp ops.now }
{
    for op in ops {
        know_op(op);
    }
}

fn know_op(op: &Op)
    ensures { IsProperOp op.now }
{
    match op {
        Op::Create(new) | Op::Update(new, _) => know_entry(new.get()),
        Op::Delete(id, _) | Op::Show(id) => {
            let _ = byte_count(id.as_bytes());
        }
        Op::Prune(_) => {}
        Op::ShowAgent(id)
        | Op::Children(id)
        | Op::Authorised(id)
        | Op::Trust(id)
        | Op::DropAgent(id) => {
            let _ = id.get().as_str();
        }
        Op::Page(query) => know_page(query.get()),
        Op::SetAgent(agent) => know_agent(agent),
        Op::ShowBundle(domain) | Op::SetBundle(domain, _) | Op::DropBundle(domain, _) => {
            let _ = domain.get().as_str();
        }
    }
}

fn know_entry(new: &NewEntry)
    ensures { IsProperEntry new.now }
{
    let _ = byte_count(new.id.as_bytes());
    let _ = new.parent.get().as_str();
    let _ = new.identity.get().as_str();
    let _ = new.selectors.get().as_slice();
    know_domains(new.domains.as_slice());
}

fn know_domains(domains: &[Shared<TrustDomain>])
    ensures { AllByRecursion IsDomain domains.now }
{
    for domain in domains {
        let _ = domain.get().as_str();
    }
}

fn know_agent(agent: &Agent)
    ensures { IsProperAgent agent.now }
{
    let _ = agent.id.get().as_str();
    let _ = agent.selectors.get().as_slice();
}

fn know_page(query: &PageQuery)
    ensures { IsProperPage query.now }
{
    know_given_uuid(&query.from);
    know_given_id(&query.filter.parent);
    know_given_id(&query.filter.identity);
    know_given_domain(&query.filter.domain);
    know_given_selectors(&query.filter.selectors);
}

fn know_given_uuid(given: &Option<Uuid>)
    ensures { IfSome given.now (λ id. length id ≡ 16) }
{
    if let Some(id) = given {
        let _ = byte_count(id.as_bytes());
    }
}

fn know_given_id(given: &Option<Shared<SpiffeId>>)
    ensures { IfSome given.now IsId }
{
    if let Some(id) = given {
        let _ = id.get().as_str();
    }
}

fn know_given_domain(given: &Option<Shared<TrustDomain>>)
    ensures { IfSome given.now IsDomain }
{
    if let Some(domain) = given {
        let _ = domain.get().as_str();
    }
}

fn know_given_selectors(given: &Option<SelectorMatch>)
    ensures { IfSome given.now (λ question. IsSelectorSet question.selectors) }
{
    if let Some(question) = given {
        let _ = question.selectors.get().as_slice();
    }
}

/// Returns the length of a UUID; its contract says that it is 16.
fn byte_count(bytes: &[u8; 16]) -> usize
    ensures { length bytes.now ≡ 16 }
{
    bytes.len()
}
