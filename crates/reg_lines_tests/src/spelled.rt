//! Describes what lines represent, key by key, in the text of the tables.

use crate::printed::add;
use call_events::Event;
use entry_book::{Batch, NewEntry, Op, PageQuery, SelectorMatch};
use line_reading::{Record, Request};
use reg_lines::PrintJson;
use std::alloc::Global;
use std::test::Fail;

/// Appends an optional value, or this text if it is missing.
fn add_given<T: PrintJson>(
    alloc: Global,
    text: &mut String,
    given: &Option<T>,
    none: &str,
) -> Result<(), Fail> {
    match given {
        Some(value) => add(alloc, text, " ", value),
        None => Ok(text.push_str(none)?),
    }
}

/// Appends a lifetime, unless it is 0.
fn add_lifetime(alloc: Global, text: &mut String, before: &str, seconds: u64) -> Result<(), Fail> {
    if seconds == 0 {
        return Ok(());
    }
    add(alloc, text, before, &seconds)
}

/// Appends the fields of an entry in the order of the format.
fn add_entry(alloc: Global, text: &mut String, new: &NewEntry) -> Result<(), Fail> {
    add(alloc, text, " ", &new.id)?;
    add(alloc, text, " ", &new.parent)?;
    add(alloc, text, " ", &new.identity)?;
    add(alloc, text, " ", &new.selectors)?;
    add(alloc, text, " ", &new.hint)?;
    add(alloc, text, " ", &new.domains)?;
    add(alloc, text, " ", &new.expiry)?;
    add_lifetime(alloc, text, " x509 ", new.x509_svid_ttl)?;
    add_lifetime(alloc, text, " jwt ", new.jwt_svid_ttl)
}

fn add_match(alloc: Global, text: &mut String, given: &Option<SelectorMatch>) -> Result<(), Fail> {
    match given {
        Some(SelectorMatch { selectors, mode }) => {
            add(alloc, text, " ", selectors)?;
            Ok(text.push_str(format!(in alloc; " {mode:?}")?.as_str())?)
        }
        None => Ok(text.push_str(" -")?),
    }
}

/// Appends what was read for each key of a page; `-` for a missing key, and nothing for a missing `at`.
fn add_page(alloc: Global, text: &mut String, query: &PageQuery) -> Result<(), Fail> {
    add(alloc, text, "page ", &query.size)?;
    if let Some(at) = &query.at {
        add(alloc, text, " at ", at)?;
    }
    add_given(alloc, text, &query.from, " -")?;
    add_given(alloc, text, &query.filter.parent, " -")?;
    add_given(alloc, text, &query.filter.identity, " -")?;
    add_given(alloc, text, &query.filter.domain, " -")?;
    add_match(alloc, text, &query.filter.selectors)
}

/// Appends the operation's name, and what was read for each of its keys.
fn add_op(alloc: Global, text: &mut String, op: &Op) -> Result<(), Fail> {
    match op {
        Op::Create(new) => {
            text.push_str("create")?;
            add_entry(alloc, text, new.get())
        }
        Op::Update(new, expected) => {
            text.push_str("update")?;
            add_entry(alloc, text, new.get())?;
            add_given(alloc, text, expected, " any")
        }
        Op::Delete(id, expected) => {
            add(alloc, text, "delete ", id)?;
            add_given(alloc, text, expected, " any")
        }
        Op::Show(id) => add(alloc, text, "show ", id),
        Op::ShowAgent(agent) => add(alloc, text, "show_agent ", agent),
        Op::ShowBundle(domain) => add(alloc, text, "show_bundle ", domain),
        Op::Children(parent) => add(alloc, text, "children ", parent),
        Op::Page(query) => add_page(alloc, text, query.get()),
        Op::Authorised(agent) => add(alloc, text, "authorised ", agent),
        Op::Trust(agent) => add(alloc, text, "trust ", agent),
        Op::Prune(moment) => add(alloc, text, "prune ", moment),
        Op::SetAgent(agent) => {
            add(alloc, text, "set_agent ", &agent.id)?;
            add(alloc, text, " ", &agent.selectors)
        }
        Op::DropAgent(agent) => add(alloc, text, "drop_agent ", agent),
        Op::SetBundle(domain, bundle) => {
            add(alloc, text, "set_bundle ", domain)?;
            add(alloc, text, " ", bundle)
        }
        Op::DropBundle(domain, mode) => {
            add(alloc, text, "drop_bundle ", domain)?;
            Ok(text.push_str(format!(in alloc; " {mode:?}")?.as_str())?)
        }
    }
}

/// Appends a batch's minimum place, if it isn't 0, its token, and its operations.
fn add_batch(alloc: Global, text: &mut String, batch: &Batch) -> Result<(), Fail> {
    if batch.after() != 0 {
        add(alloc, text, " after ", &batch.after())?;
    }
    if let Some(token) = &batch.token() {
        add(alloc, text, " token ", token)?;
    }
    for op in batch.ops() {
        text.push_str("; ")?;
        add_op(alloc, text, op)?;
    }
    Ok(())
}

/// Appends the number of tries of a request, and its batch.
pub(crate) fn add_request(alloc: Global, text: &mut String, request: &Request) -> Result<(), Fail> {
    add(alloc, text, "", &request.tries.count())?;
    add_batch(alloc, text, &request.batch)
}

/// Appends the event's name, its call, and the batch of an invoke.
pub(crate) fn add_event(alloc: Global, text: &mut String, event: &Event) -> Result<(), Fail> {
    match event {
        Event::Invoke(call, batch) => {
            add(alloc, text, "invoke ", call)?;
            add_batch(alloc, text, batch)
        }
        Event::Begin(call) => add(alloc, text, "begin ", call),
        Event::Step(call) => add(alloc, text, "step ", call),
        Event::Commit(call) => add(alloc, text, "commit ", call),
        Event::Reply(call) => add(alloc, text, "reply ", call),
    }
}

/// Appends the line that describes what was read of a record.
pub(crate) fn add_record(alloc: Global, text: &mut String, record: &Record) -> Result<(), Fail> {
    add(alloc, text, "{\"batch\":", &record.batch)?;
    add(alloc, text, ",\"call\":", &record.call)?;
    add(alloc, text, ",\"invoked\":", &record.invoked)?;
    add(alloc, text, ",\"replied\":", &record.replied)?;
    text.push_str(",\"reply\":")?;
    text.push_str(record.reply.to_string(alloc)?.as_str())?;
    Ok(text.push_str("}")?)
}
