//! Replies as text. An ID is written as its path, and that of an agent as its name alone. An entry is written as its
//! number, a dot and its revision, followed by its domains.

use crate::failed::Failed;
use entry_book::{Agent, Bundle, Entry, OpRefusal, OpReply, Refusal, Reply, ReplyOutcome};
use spiffe_name::SpiffeId;
use std::alloc::Global;
use uuid::Uuid;

/// Returns the number in the last two bytes of an id.
fn number_of(id: &Uuid) -> u16 {
    let bytes = id.as_bytes();
    u16::from_be_bytes([bytes[14], bytes[15]])
}

/// Returns an agent's name, and of any other ID of `ex.org` the path.
pub fn path<'a>(id: &'a SpiffeId) -> &'a str {
    let text = id.as_str();
    if let Some(name) = text.strip_prefix("spiffe://ex.org/spire/agent/") {
        return name;
    }
    text.strip_prefix("spiffe://ex.org").unwrap_or(text)
}

/// Returns the kind, and the number of an id.
pub fn of_number(alloc: Global, kind: &str, id: &Uuid) -> Result<String, Failed> {
    let number = number_of(id);
    Ok(format!(in alloc; "{kind} {number}")?)
}

/// Returns the kind, and the text.
pub fn of_text(alloc: Global, kind: &str, text: &str) -> Result<String, Failed> {
    Ok(format!(in alloc; "{kind} {text}")?)
}

fn add_entry(alloc: Global, text: &mut String, entry: &Entry) -> Result<(), Failed> {
    let number = number_of(entry.id());
    let revision = entry.revision();
    text.push_str(format!(in alloc; " {number}.{revision}")?.as_str())?;
    for domain in entry.domains().as_slice() {
        text.push_str(" ")?;
        text.push_str(domain.get().as_str())?;
    }
    Ok(())
}

fn entries_text(alloc: Global, kind: &str, entries: &[Entry]) -> Result<String, Failed> {
    let mut text = String::from_str(alloc, kind)?;
    for entry in entries {
        add_entry(alloc, &mut text, entry)?;
    }
    Ok(text)
}

fn entry_text(alloc: Global, kind: &str, entry: &Entry) -> Result<String, Failed> {
    let mut text = String::from_str(alloc, kind)?;
    add_entry(alloc, &mut text, entry)?;
    Ok(text)
}

fn page_text(alloc: Global, entries: &[Entry], next: &Option<Uuid>) -> Result<String, Failed> {
    let mut text = entries_text(alloc, "page", entries)?;
    if let Some(id) = next {
        text.push_str(of_number(alloc, " next", id)?.as_str())?;
    }
    Ok(text)
}

/// Returns an agent, as its name and the number of its selectors.
fn agent_text(alloc: Global, agent: &Agent) -> Result<String, Failed> {
    let name = path(agent.id.get());
    let count = agent.selectors.get().len();
    Ok(format!(in alloc; "agent {name} {count}")?)
}

/// Returns a bundle, as its domain and its sequence.
fn bundle_text(alloc: Global, bundle: &Bundle) -> Result<String, Failed> {
    let domain = bundle.domain.get().as_str();
    let sequence = bundle.sequence;
    Ok(format!(in alloc; "bundle {domain} {sequence}")?)
}

fn bundles_text(alloc: Global, bundles: &[Bundle]) -> Result<String, Failed> {
    let mut text = String::from_str(alloc, "bundles")?;
    for bundle in bundles {
        text.push_str(" ")?;
        text.push_str(bundle_text(alloc, bundle)?.as_str())?;
    }
    Ok(text)
}

fn ids_text(alloc: Global, kind: &str, ids: &[Uuid]) -> Result<String, Failed> {
    let mut text = String::from_str(alloc, kind)?;
    for id in ids {
        text.push_str(of_number(alloc, "", id)?.as_str())?;
    }
    Ok(text)
}

fn dropped_text(alloc: Global, deleted: &[Uuid], dissociated: &[Uuid]) -> Result<String, Failed> {
    let mut text = ids_text(alloc, "dropped", deleted)?;
    text.push_str(ids_text(alloc, " /", dissociated)?.as_str())?;
    Ok(text)
}

fn nothing(alloc: Global) -> Result<String, Failed> {
    Ok(String::from_str(alloc, "none")?)
}

fn op_reply_text(alloc: Global, reply: &OpReply) -> Result<String, Failed> {
    match reply {
        OpReply::Entry(entry) => entry_text(alloc, "entry", entry),
        OpReply::EntryShown(Some(entry)) => entry_text(alloc, "shown", entry),
        OpReply::Entries(entries) => entries_text(alloc, "entries", entries.as_slice()),
        OpReply::Page(entries, next) => page_text(alloc, entries.as_slice(), next),
        OpReply::Agent(agent) | OpReply::AgentShown(Some(agent)) => agent_text(alloc, agent),
        OpReply::Bundle(bundle) | OpReply::BundleShown(Some(bundle)) => bundle_text(alloc, bundle),
        OpReply::Bundles(bundles) => bundles_text(alloc, bundles.as_slice()),
        OpReply::Pruned(ids) => ids_text(alloc, "pruned", ids.as_slice()),
        OpReply::Dropped(deleted, dissociated) => {
            dropped_text(alloc, deleted.as_slice(), dissociated.as_slice())
        }
        OpReply::EntryShown(None) | OpReply::AgentShown(None) | OpReply::BundleShown(None) => {
            nothing(alloc)
        }
    }
}

/// Returns the kind of a batch's outcome, and the replies to its operations, each after a semicolon.
pub fn replies_text(alloc: Global, kind: &str, replies: &[OpReply]) -> Result<String, Failed> {
    let mut text = String::from_str(alloc, kind)?;
    for reply in replies {
        text.push_str("; ")?;
        text.push_str(op_reply_text(alloc, reply)?.as_str())?;
    }
    Ok(text)
}

/// Returns the kind of an outcome, and its place.
pub fn kind_at_place(alloc: Global, kind: &str, place: u64) -> Result<String, Failed> {
    Ok(format!(in alloc; "{kind} at {place}")?)
}

/// Returns the kind of a batch's outcome, its place, and the replies to its operations.
pub fn accepted_text(
    alloc: Global,
    kind: &str,
    place: u64,
    replies: &[OpReply],
) -> Result<String, Failed> {
    let head = kind_at_place(alloc, kind, place)?;
    replies_text(alloc, head.as_str(), replies)
}

/// Returns the detail of an operation's refusal, if it has one.
fn detail_text(alloc: Global, refusal: &OpRefusal) -> Result<String, Failed> {
    match refusal {
        OpRefusal::Similar(id) => of_number(alloc, " by", id),
        OpRefusal::NoBundle(domain) => of_text(alloc, " without", domain.get().as_str()),
        _ => Ok(String::new(alloc)),
    }
}

fn refused_text(alloc: Global, place: u64, refusal: &Refusal) -> Result<String, Failed> {
    let code = refusal.code();
    match refusal {
        Refusal::OfOp(index, reason) => {
            let detail = detail_text(alloc, reason)?;
            Ok(format!(in alloc; "refused {code} at {place}; operation {index}{detail}")?)
        }
        _ => Ok(format!(in alloc; "refused {code} at {place}")?),
    }
}

/// Returns a batch's outcome, its place, and the replies to its operations; or the code of the refusal, with the index and
/// the detail of an operation that is refused.
pub fn outcome_text(alloc: Global, place: u64, outcome: &ReplyOutcome) -> Result<String, Failed> {
    match outcome {
        ReplyOutcome::Committed(replies) => {
            accepted_text(alloc, "committed", place, replies.get().as_slice())
        }
        ReplyOutcome::Answered(replies) => {
            accepted_text(alloc, "answered", place, replies.get().as_slice())
        }
        ReplyOutcome::Repeated(replies) => {
            accepted_text(alloc, "repeated", place, replies.get().as_slice())
        }
        ReplyOutcome::Refused(refusal) => refused_text(alloc, place, refusal),
    }
}

/// Returns the outcome and the place of a reply, as `outcome_text`.
pub fn reply_text(alloc: Global, reply: &Reply) -> Result<String, Failed> {
    outcome_text(alloc, reply.place, &reply.outcome)
}
