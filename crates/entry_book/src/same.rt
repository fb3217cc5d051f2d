//! When are two operations the same?

ghost use Rattle.std.specs.Prelude.{◌≡◌};
ghost use Rattle.entry_book.specs.SameOps.{agent_eq, entry_eq, filter_eq, match_eq, op_eq, ops_eq, page_eq};
ghost use Rattle.std.specs.Option.{option_eq};

use crate::agent::Agent;
use crate::entry::NewEntry;
use crate::op::Op;
use crate::page::{Filter, PageQuery, SelectorMatch};

/// Returns true if these are the same operations, in the same order.
pub(crate) fn is_same_ops(ops: &[Op], others: &[Op]) -> bool
    ensures { result ≡ ops_eq ops.now others.now }
{
    if ops.len() != others.len() {
        return false;
    }
    for (index, op) in ops.iter().enumerate() {
        if !is_same_op(op, &others[index]) {
            return false;
        }
    }
    true
}

/// Returns true if these are the same operation. A new operation needs a case here; without one, it differs from itself.
fn is_same_op(op: &Op, other: &Op) -> bool
    ensures { result ≡ op_eq op.now other.now }
{
    match (op, other) {
        (Op::Create(new), Op::Create(other)) => is_same_entry(new.get(), other.get()),
        (Op::Update(new, expected), Op::Update(other, other_expected)) => {
            is_same_entry(new.get(), other.get()) && expected == other_expected
        }
        (Op::Delete(id, expected), Op::Delete(other, other_expected)) => {
            id == other && expected == other_expected
        }
        (Op::Show(id), Op::Show(other)) => id == other,
        (Op::ShowAgent(id), Op::ShowAgent(other)) => id == other,
        (Op::ShowBundle(domain), Op::ShowBundle(other)) => domain == other,
        (Op::Children(parent), Op::Children(other)) => parent == other,
        (Op::Page(query), Op::Page(other)) => is_same_page(query.get(), other.get()),
        (Op::Authorised(id), Op::Authorised(other)) => id == other,
        (Op::Trust(id), Op::Trust(other)) => id == other,
        (Op::Prune(moment), Op::Prune(other)) => moment == other,
        (Op::SetAgent(agent), Op::SetAgent(other)) => is_same_agent(agent, other),
        (Op::DropAgent(id), Op::DropAgent(other)) => id == other,
        (Op::SetBundle(domain, text), Op::SetBundle(other, other_text)) => {
            domain == other && text == other_text
        }
        (Op::DropBundle(domain, mode), Op::DropBundle(other, other_mode)) => {
            domain == other && mode == other_mode
        }
        _ => false,
    }
}

fn is_same_entry(new: &NewEntry, other: &NewEntry) -> bool
    ensures { result ≡ entry_eq new.now other.now }
{
    new.id == other.id
        && new.parent == other.parent
        && new.identity == other.identity
        && new.selectors == other.selectors
        && new.hint == other.hint
        && new.domains == other.domains
        && new.expiry == other.expiry
        && new.x509_svid_ttl == other.x509_svid_ttl
        && new.jwt_svid_ttl == other.jwt_svid_ttl
}

fn is_same_agent(agent: &Agent, other: &Agent) -> bool
    ensures { result ≡ agent_eq agent.now other.now }
{
    agent.id == other.id && agent.selectors == other.selectors
}

fn is_same_page(query: &PageQuery, other: &PageQuery) -> bool
    ensures { result ≡ page_eq query.now other.now }
{
    query.size == other.size
        && query.at == other.at
        && query.from == other.from
        && is_same_filter(&query.filter, &other.filter)
}

fn is_same_filter(filter: &Filter, other: &Filter) -> bool
    ensures { result ≡ filter_eq filter.now other.now }
{
    filter.parent == other.parent
        && filter.identity == other.identity
        && filter.domain == other.domain
        && is_same_condition(&filter.selectors, &other.selectors)
}

/// Returns true if both have the same condition on selectors, or neither has one.
fn is_same_condition(question: &Option<SelectorMatch>, other: &Option<SelectorMatch>) -> bool
    ensures { result ≡ option_eq match_eq question.now other.now }
{
    match (question, other) {
        (None, None) => true,
        (Some(question), Some(other)) => is_same_match(question, other),
        _ => false,
    }
}

/// Returns true if these are the same condition on selectors.
fn is_same_match(question: &SelectorMatch, other: &SelectorMatch) -> bool
    ensures { result ≡ match_eq question.now other.now }
{
    question.selectors == other.selectors && question.mode == other.mode
}
