//! All rows of a small book, and whether they are lawful.

use crate::playing::{Answer, asked};
use crate::search::{bit, does_name, number_of};
use entry_book::{Agent, Bundle, Entry, Op, OpReply};
use plain_book::PlainBook;
use std::alloc::Global;
use std::test::Fail;
use test_support::{add_copy, if_done};

/// Queries all rows that there can be, and the bundle of the server's own domain.
const KEYS: &str = "\
show 1; show 2; show 3; show 4; show 5; show 6; show 7; show_agent n1; show_agent n2; \
show_bundle d100; show_bundle d101; show_bundle d102; show_bundle ex.org";

/// Queries the children of each parent.
const CHILDREN: &str =
    "children n1; children n2; children /spire/server; children /web; children /api";

/// The rows of a book over a few names.
#[derive(Drop)]
pub struct BookRows {
    pub entries: Vec<Entry>,
    pub agents: Vec<Agent>,
    pub bundles: Vec<Bundle>,
}

fn empty(alloc: Global) -> BookRows {
    BookRows {
        entries: Vec::new(alloc),
        agents: Vec::new(alloc),
        bundles: Vec::new(alloc),
    }
}

/// Returns true if this row, if there is one, has the key of the query.
fn is_of_its_key(op: &Op, reply: &OpReply) -> bool {
    match (op, reply) {
        (Op::Show(id), OpReply::EntryShown(Some(entry))) => entry.id() == id,
        (Op::ShowAgent(id), OpReply::AgentShown(Some(agent))) => {
            agent.id.get().as_str() == id.get().as_str()
        }
        (Op::ShowBundle(domain), OpReply::BundleShown(Some(bundle))) => {
            bundle.domain.get().as_str() == domain.get().as_str()
        }
        _ => true,
    }
}

/// Adds the row of a reply, if there is one. It must have the key of the query.
fn keep(rows: &mut BookRows, op: &Op, reply: &OpReply) -> Result<(), Fail> {
    if !is_of_its_key(op, reply) {
        return Err(Fail::from("a row of another key"));
    }
    match reply {
        OpReply::EntryShown(Some(entry)) => add_copy(&mut rows.entries, entry),
        OpReply::AgentShown(Some(agent)) => add_copy(&mut rows.agents, agent),
        OpReply::BundleShown(Some(bundle)) => add_copy(&mut rows.bundles, bundle),
        _ => Ok(()),
    }
}

fn keep_all(rows: &mut BookRows, ops: &[Op], replies: &[OpReply]) -> Result<(), Fail> {
    for (op, reply) in ops.iter().zip(replies) {
        keep(rows, op, reply)?;
    }
    Ok(())
}

/// The rows of the replies, each with the key of its query.
fn shown_rows(alloc: Global, shown: &Answer) -> Result<BookRows, Fail> {
    let mut rows = empty(alloc);
    let kept = keep_all(&mut rows, shown.ops(), shown.replies());
    if_done(kept, rows)
}

/// The rows of the book, each queried by its key, and with that key.
pub fn rows_of(alloc: Global, book: &mut PlainBook) -> Result<BookRows, Fail> {
    let shown = asked(alloc, book, KEYS)?;
    let rows = shown_rows(alloc, &shown);
    drop(shown);
    rows
}

/// The bits of the entries; `None` if an entry is repeated or out of order.
fn bits(entries: &[Entry]) -> Option<u64> {
    let mut all = 0;
    let mut last = 0;
    for entry in entries {
        let number = number_of(entry.id());
        if number <= last {
            return None;
        }
        last = number;
        all |= bit(entry);
    }
    Some(all)
}

/// Returns true if these are the entries of these bits, each once and in order.
pub fn are_of(entries: &[Entry], wanted: u64) -> bool {
    match bits(entries) {
        Some(all) => all == wanted,
        None => false,
    }
}

fn are_under(entries: &[Entry], parent: &str) -> bool {
    for entry in entries {
        if entry.parent().get().as_str() != parent {
            return false;
        }
    }
    true
}

/// The bits of the entries of a parent; `None` if an entry is repeated, out of order, or of another parent.
fn bits_of_children(op: &Op, reply: &OpReply) -> Option<u64> {
    match (op, reply) {
        (Op::Children(parent), OpReply::Entries(entries))
            if are_under(entries.as_slice(), parent.get().as_str()) => { bits(entries.as_slice()) }
        _ => None,
    }
}

/// The bits of the entries of all these parents.
fn bits_of_all_children(ops: &[Op], replies: &[OpReply]) -> Option<u64> {
    let mut all = 0;
    for (op, reply) in ops.iter().zip(replies) {
        all |= bits_of_children(op, reply)?;
    }
    Some(all)
}

/// Returns true if the children of each parent are its own, each once and in order, and together are all entries.
pub fn are_children_listed(
    alloc: Global,
    book: &mut PlainBook,
    rows: &BookRows,
) -> Result<bool, Fail> {
    let listed = asked(alloc, book, CHILDREN)?;
    let bits = bits_of_all_children(listed.ops(), listed.replies());
    drop(listed);
    match bits {
        Some(all) => Ok(are_of(&rows.entries, all)),
        None => Ok(false),
    }
}

fn is_similar(one: &Entry, other: &Entry) -> bool {
    one.id() != other.id()
        && one.parent().get().as_str() == other.parent().get().as_str()
        && one.identity().get().as_str() == other.identity().get().as_str()
        && one.selectors().get() == other.selectors().get()
}

/// The number of these bundles whose domains the entry names.
fn bundled_count(entry: &Entry, bundles: &[Bundle]) -> usize {
    let mut count: usize = 0;
    for bundle in bundles {
        let is_named = does_name(entry, bundle.domain.get().as_str());
        count = count.wrapping_add(usize::from(is_named));
    }
    count
}

/// Returns true if the entry is lawful among these rows, in a book whose revisions are at most `most`.
fn is_lawful_entry(entry: &Entry, rows: &BookRows, most: u64) -> bool {
    for other in &rows.entries {
        if is_similar(entry, other) {
            return false;
        }
    }
    entry.revision() <= most
        && bundled_count(entry, &rows.bundles) == entry.domains().as_slice().len()
}

/// Returns true if the rows are those of a lawful book at this place. The server's own domain has no bundle.
pub fn is_lawful(rows: &BookRows, place: u64) -> bool {
    let most = place.wrapping_mul(64);
    for entry in &rows.entries {
        if !is_lawful_entry(entry, rows, most) {
            return false;
        }
    }
    for bundle in &rows.bundles {
        if bundle.sequence > most || bundle.domain.get().as_str() == "ex.org" {
            return false;
        }
    }
    true
}
