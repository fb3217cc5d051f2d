//! Rows as text. A line of a reading looks like ` 1.0|/a /x 10 u:1 d1`: the row in short form, and after the bar the other
//! fields to compare. A line of writes looks like `|entry 1|all|group /a /x|children /a|users d1| => 1.0|/a /x 10 u:1 d1`.
//! It begins with the marks that name the row, between bars; the first of them names it alone.

use entry_book::{Agent, Bundle, Entry, Filter, KeptBatch, PageQuery, Shared};
use spiffe_name::{SelectorSet, SpiffeId};
use std::alloc::Global;
use test_batches::{Failed, of_number};
use uuid::Uuid;
use version_book::{
    Borrowed, Changes, Mark, MarkKind, RowWrite, RowsRead, TokenWrite, Version, owned,
};

/// The moments of random batches, in order, as marks.
const MOMENTS: &str = "|expiring 1|expiring 2|expiring 3|expiring 4|";

fn path(id: &SpiffeId) -> &str {
    let text = id.as_str();
    text.strip_prefix("spiffe://ex.org").unwrap_or(text)
}

/// Appends a word, and the number of an id.
fn add_number(alloc: Global, text: &mut String, word: &str, id: &Uuid) -> Result<(), Failed> {
    let as_text = of_number(alloc, word, id)?;
    Ok(text.push_str(as_text.as_str())?)
}

fn add_selectors(text: &mut String, selectors: &SelectorSet) -> Result<(), Failed> {
    for selector in selectors.as_slice() {
        text.push_str(" ")?;
        text.push_str(selector.as_str())?;
    }
    Ok(())
}

fn add_domains(text: &mut String, entry: &Entry) -> Result<(), Failed> {
    for domain in entry.domains().as_slice() {
        text.push_str(" ")?;
        text.push_str(domain.get().as_str())?;
    }
    Ok(())
}

/// Appends an entry; its short form is its number, a dot, and its revision.
fn add_entry(alloc: Global, text: &mut String, entry: &Entry) -> Result<(), Failed> {
    add_number(alloc, text, "", entry.id())?;
    let (revision, expiry) = (entry.revision(), entry.expiry());
    let (parent, identity) = (path(entry.parent().get()), path(entry.identity().get()));
    write!(text, ".{revision}|{parent} {identity} {expiry}")?;
    add_selectors(text, entry.selectors().get())?;
    add_domains(text, entry)?;
    Ok(text.push_str("\n")?)
}

/// Appends an agent; its short form is its selectors.
fn add_agent(text: &mut String, agent: &Agent) -> Result<(), Failed> {
    text.push_str(" agent")?;
    add_selectors(text, agent.selectors.get())?;
    let path = path(agent.id.get());
    Ok(write!(text, "|{path}\n")?)
}

/// Appends a bundle; its short form is its sequence.
fn add_bundle(text: &mut String, bundle: &Bundle) -> Result<(), Failed> {
    let (domain, sequence) = (bundle.domain.get().as_str(), bundle.sequence);
    Ok(write!(text, " bundle {sequence}|{domain}\n")?)
}

/// Appends the row of a token; its short form is the number of operations and the place.
fn add_kept(
    alloc: Global,
    text: &mut String,
    token: &Uuid,
    ops: usize,
    place: u64,
) -> Result<(), Failed> {
    write!(text, " {ops} ops at {place}")?;
    add_number(alloc, text, "|token", token)?;
    Ok(text.push_str("\n")?)
}

pub fn add_entries(alloc: Global, text: &mut String, entries: &[Entry]) -> Result<(), Failed> {
    for entry in entries {
        add_entry(alloc, text, entry)?;
    }
    Ok(())
}

pub fn add_agents(text: &mut String, agents: &[Agent]) -> Result<(), Failed> {
    for agent in agents {
        add_agent(text, agent)?;
    }
    Ok(())
}

pub fn add_bundles(text: &mut String, bundles: &[Bundle]) -> Result<(), Failed> {
    for bundle in bundles {
        add_bundle(text, bundle)?;
    }
    Ok(())
}

/// Appends the rows of tokens. A place after the last one is written as 0, as a place that isn't known yet is.
pub fn add_tokens(
    alloc: Global,
    text: &mut String,
    tokens: &[KeptBatch],
    last: u64,
) -> Result<(), Failed> {
    for kept in tokens {
        let place = if kept.place > last { 0 } else { kept.place };
        let ops = kept.ops.get().as_slice().len();
        add_kept(alloc, text, &kept.token, ops, place)?;
    }
    Ok(())
}

fn add_reading(
    alloc: Global,
    text: &mut String,
    reading: &RowsRead,
    last: u64,
) -> Result<(), Failed> {
    add_entries(alloc, text, reading.entries())?;
    add_agents(text, reading.agents())?;
    add_bundles(text, reading.bundles())?;
    add_tokens(alloc, text, reading.tokens(), last)
}

/// What was read, with places up to the last one.
fn reading_text(alloc: Global, reading: &RowsRead, last: u64) -> Result<String, Failed> {
    let mut text = String::new(alloc);
    add_reading(alloc, &mut text, reading, last)?;
    Ok(text)
}

/// What a version reads at a mark, with places up to the last one.
pub fn read_up_to(
    alloc: Global,
    version: &Version,
    mark: &Mark,
    last: u64,
) -> Result<String, Failed> {
    let reading = version.read(mark)?;
    let text = reading_text(alloc, &reading, last);
    drop(reading);
    text
}

/// What a version reads at a mark.
pub fn read_text(alloc: Global, version: &Version, mark: &Mark) -> Result<String, Failed> {
    read_up_to(alloc, version, mark, u64::MAX)
}

/// Appends borrowed entries.
fn add_borrowed(
    alloc: Global,
    text: &mut String,
    entries: Vec<Borrowed<'_, Entry>>,
) -> Result<(), Failed> {
    let copies = owned(alloc, entries.as_slice());
    drop(entries);
    let copies = copies?;
    let added = add_entries(alloc, text, &copies);
    drop(copies);
    added
}

/// The aliases of a version, which are the children of its server.
pub fn aliases_text(alloc: Global, version: &Version) -> Result<String, Failed> {
    let mut text = String::new(alloc);
    add_children(alloc, &mut text, version, version.server())?;
    Ok(text)
}

fn add_children(
    alloc: Global,
    text: &mut String,
    version: &Version,
    parent: &Shared<SpiffeId>,
) -> Result<(), Failed> {
    add_borrowed(alloc, text, version.children(parent)?)
}

/// Appends the entries of the page that begins after this id, and returns the id after which the next one begins.
fn add_page(
    alloc: Global,
    text: &mut String,
    version: &Version,
    query: &PageQuery,
) -> Result<Option<Uuid>, Failed> {
    let (entries, next) = version.page(query)?;
    add_borrowed(alloc, text, entries)?;
    Ok(next)
}

/// Appends all entries, by pages of two.
fn add_pages(alloc: Global, text: &mut String, version: &Version) -> Result<(), Failed> {
    let mut query = PageQuery {
        size: 2,
        from: None,
        at: None,
        filter: Filter {
            parent: None,
            identity: None,
            domain: None,
            selectors: None,
        },
    };
    for _ in 0..1_000 {
        query.from = add_page(alloc, text, version, &query)?;
        if query.from.is_none() {
            break;
        }
    }
    Ok(())
}

/// Appends what a version returns if it is read by name for what a mark names; if it can't be, what it reads at the mark.
fn add_asked(
    alloc: Global,
    text: &mut String,
    version: &Version,
    mark: &Mark,
) -> Result<(), Failed> {
    match mark.kind() {
        MarkKind::Entry(id) => match version.entry(id) {
            Some(entry) => add_entry(alloc, text, entry),
            None => Ok(()),
        },
        MarkKind::Agent(id) => match version.agent(id) {
            Some(agent) => add_agent(text, agent),
            None => Ok(()),
        },
        MarkKind::Bundle(domain) => match version.bundle(domain) {
            Some(bundle) => add_bundle(text, bundle),
            None => Ok(()),
        },
        MarkKind::Children(parent) => add_children(alloc, text, version, parent),
        MarkKind::All => add_pages(alloc, text, version),
        MarkKind::Group(_, _) | MarkKind::Users(_) | MarkKind::Expiring(_) | MarkKind::Token(_) => {
            let read = read_text(alloc, version, mark)?;
            Ok(text.push_str(read.as_str())?)
        }
    }
}

/// What a version returns if it is read by name for what a mark names.
pub fn asked_text(alloc: Global, version: &Version, mark: &Mark) -> Result<String, Failed> {
    let mut text = String::new(alloc);
    add_asked(alloc, &mut text, version, mark)?;
    Ok(text)
}

/// What a version reads at a mark through writes.
pub fn through_text(
    alloc: Global,
    version: &Version,
    mark: &Mark,
    changes: &Changes,
) -> Result<String, Failed> {
    let reading = version.read_after(mark, changes)?;
    let text = reading_text(alloc, &reading, u64::MAX);
    drop(reading);
    text
}

/// Appends the marks of the domains that an entry names.
fn add_users(text: &mut String, entry: &Entry) -> Result<(), Failed> {
    for domain in entry.domains().as_slice() {
        text.push_str("users ")?;
        text.push_str(domain.get().as_str())?;
        text.push_str("|")?;
    }
    Ok(())
}

/// The marks of the moments before which an entry of this expiry expires, which are the later ones. An expiry of 0 is none.
fn moments(alloc: Global, expiry: u64) -> Result<&'static str, Failed> {
    let own = format!(in alloc; "|expiring {expiry}|")?;
    match MOMENTS.split_once(own.as_str()) {
        Some((_, later)) => Ok(later),
        None => Ok(""),
    }
}

/// Appends the marks that name an entry.
fn add_marks(alloc: Global, text: &mut String, entry: &Entry) -> Result<(), Failed> {
    add_number(alloc, text, "|entry", entry.id())?;
    let (parent, identity) = (path(entry.parent().get()), path(entry.identity().get()));
    write!(text, "|all|group {parent} {identity}|children {parent}|")?;
    add_users(text, entry)?;
    Ok(text.push_str(moments(alloc, entry.expiry())?)?)
}

/// Appends the entry of a write, if there is one, after this sign.
fn write_entry(
    alloc: Global,
    text: &mut String,
    sign: &str,
    row: &Option<Entry>,
) -> Result<(), Failed> {
    let Some(entry) = row else {
        return Ok(());
    };
    text.push_str(sign)?;
    add_marks(alloc, text, entry)?;
    text.push_str(" =>")?;
    add_entry(alloc, text, entry)
}

fn write_agent(text: &mut String, sign: &str, row: &Option<Agent>) -> Result<(), Failed> {
    let Some(agent) = row else {
        return Ok(());
    };
    let path = path(agent.id.get());
    write!(text, "{sign}|agent {path}| =>")?;
    add_agent(text, agent)
}

fn write_bundle(text: &mut String, sign: &str, row: &Option<Bundle>) -> Result<(), Failed> {
    let Some(bundle) = row else {
        return Ok(());
    };
    let domain = bundle.domain.get().as_str();
    write!(text, "{sign}|bundle {domain}| =>")?;
    add_bundle(text, bundle)
}

fn write_token(
    alloc: Global,
    text: &mut String,
    write: &TokenWrite,
    place: u64,
) -> Result<(), Failed> {
    add_number(alloc, text, "|token", &write.token)?;
    text.push_str("| =>")?;
    let ops = write.ops.get().as_slice().len();
    add_kept(alloc, text, &write.token, ops, place)
}

fn add_write(alloc: Global, text: &mut String, write: &RowWrite, place: u64) -> Result<(), Failed> {
    match write {
        RowWrite::Entry(change) => {
            write_entry(alloc, text, "-", &change.old)?;
            write_entry(alloc, text, "", &change.new)
        }
        RowWrite::Agent(change) => {
            write_agent(text, "-", &change.old)?;
            write_agent(text, "", &change.new)
        }
        RowWrite::Bundle(change) => {
            write_bundle(text, "-", &change.old)?;
            write_bundle(text, "", &change.new)
        }
        RowWrite::Token(write) => write_token(alloc, text, write, place),
    }
}

/// Appends the writes of the commit at a place, in order: each removed row, after a minus, and each new one.
pub fn add_writes(
    alloc: Global,
    text: &mut String,
    changes: &Changes,
    place: u64,
) -> Result<(), Failed> {
    for write in changes.writes() {
        add_write(alloc, text, write, place)?;
    }
    Ok(())
}
