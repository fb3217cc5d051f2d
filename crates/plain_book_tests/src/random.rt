//! Random batches over a few names: each resulting book is lawful, each authorised reply is what a search for
//! chains finds, and every code and kind of reply occurs.

use crate::playing::{Answer, answer_to, asked, first_book};
use crate::requests::{
    Past, Request, is_past_page, is_stale_text, keep, past_of, random_request, text_of,
};
use crate::rows::{BookRows, are_children_listed, are_of, is_lawful, rows_of};
use crate::search::{bit, does_name, ends, has_cycle, is_alias, listed, number_of};
use crate::wanted::holds;
use entry_book::{Agent, Bundle, DropMode, Entry, NewEntry, Op, OpReply, PageQuery, ReplyOutcome};
use plain_book::PlainBook;
use std::alloc::Global;
use std::process::Abort;
use std::test::Fail;
use test_support::{if_done, pair_with};
use uuid::Uuid;

/// What must occur.
const COMING: &str = "\
committed
answered
repeated
refused W1
refused O1
refused O2
refused O3
refused O4
refused O5
refused O6
refused O7
refused O8
refused O9
a page of an earlier book
a cycle
an alias that is held
an alias that isn't held
entries after a change
a bundle dropped with no user
entries deleted with their bundle
entries without their bundle
a bundle told
entries pruned
";

/// Returns true if the line is among these.
fn is_among(lines: &str, wanted: &str) -> bool {
    for line in lines.lines() {
        if line == wanted {
            return true;
        }
    }
    false
}

/// Adds the line to what occurred, if it holds.
fn note(came: &mut String, line: &str, holds: bool) -> Result<(), Fail> {
    if holds && !is_among(came.as_str(), line) {
        came.push_str(line)?;
        came.push_str("\n")?;
    }
    Ok(())
}

fn note_change(came: &mut String, op: &Op, reply: &OpReply) -> Result<(), Fail> {
    match (op, reply) {
        (_, OpReply::Pruned(ids)) => note(came, "entries pruned", !ids.as_slice().is_empty()),
        (_, OpReply::Entries(_)) => note(came, "entries after a change", true),
        (Op::DropBundle(_, mode), OpReply::Dropped(deleted, dissociated)) => {
            let (is_deleted, is_freed) = (
                !deleted.as_slice().is_empty(),
                !dissociated.as_slice().is_empty(),
            );
            note(
                came,
                "a bundle dropped with no user",
                *mode == DropMode::Restrict,
            )?;
            note(came, "entries deleted with their bundle", is_deleted)?;
            note(came, "entries without their bundle", is_freed)
        }
        _ => Ok(()),
    }
}

/// Notes the outcome of a request, whose reply is also given as text.
fn note_all(
    came: &mut String,
    request: &Request,
    answer: &Answer,
    as_text: &str,
) -> Result<(), Fail> {
    if let Some((head, _)) = as_text.split_once(" at ") {
        note(came, head, true)?;
    }
    match answer.outcome() {
        ReplyOutcome::Committed(_) => note_changes(came, answer.ops(), answer.replies()),
        ReplyOutcome::Answered(_) => note(came, "a page of an earlier book", is_past_page(request)),
        _ => Ok(()),
    }
}

fn note_changes(came: &mut String, ops: &[Op], replies: &[OpReply]) -> Result<(), Fail> {
    for (op, reply) in ops.iter().zip(replies) {
        note_change(came, op, reply)?;
    }
    Ok(())
}

/// Returns true if one of these entries names the bundle's domain.
fn is_named(bundle: &Bundle, rows: &BookRows, ends: u64) -> bool {
    for entry in &rows.entries {
        if ends & bit(entry) != 0 && does_name(entry, bundle.domain.get().as_str()) {
            return true;
        }
    }
    false
}

/// Returns true if the bundle at an index is this one.
fn is_shown(shown: &[Bundle], index: usize, bundle: &Bundle) -> bool {
    match shown.get(index) {
        Some(next) => {
            next.domain.get() == bundle.domain.get() && next.sequence == bundle.sequence
        }
        None => false,
    }
}

/// Returns true if these are the bundles that the entries name, in the order of their domains.
fn is_trust(shown: &[Bundle], rows: &BookRows, ends: u64) -> bool {
    let mut count: usize = 0;
    for bundle in &rows.bundles {
        if is_named(bundle, rows, ends) {
            if !is_shown(shown, count, bundle) {
                return false;
            }
            count = count.wrapping_add(1);
        }
    }
    count == shown.len()
}

/// Returns true if the entry has the given id and lifetimes.
fn is_as_given(new: &NewEntry, entry: &Entry) -> bool {
    entry.id() == &new.id
        && entry.x509_svid_ttl() == new.x509_svid_ttl
        && entry.jwt_svid_ttl() == new.jwt_svid_ttl
}

/// The bits of the entries in which a chain for the agent ends; none if there is no such agent.
fn ends_of(rows: &BookRows, text: &str) -> u64 {
    for agent in &rows.agents {
        if agent.id.get().as_str() == text {
            return ends(rows, agent);
        }
    }
    0
}

/// Returns true if this is the number of the id after which the next page begins, or if there is neither.
fn is_next(next: &Option<Uuid>, last: Option<u16>) -> bool {
    match (next, last) {
        (Some(id), Some(last)) => number_of(id) == last,
        (None, None) => true,
        _ => false,
    }
}

/// Returns true if the page lists what the search finds in these rows.
fn is_listed(query: &PageQuery, rows: Option<&BookRows>, reply: &OpReply) -> bool {
    match (rows, reply) {
        (Some(rows), OpReply::Page(entries, next)) => {
            let (all, last) = listed(rows, query);
            are_of(entries.as_slice(), all) && is_next(next, last)
        }
        _ => false,
    }
}

/// The rows that a page reads: those of the book whose number it gives, or of the last one before the batch.
fn rows_for<'a>(query: &PageQuery, past: &'a Past) -> Option<&'a BookRows> {
    match query.at {
        Some(at) => past.books.get(at as usize),
        None => past.books.last(),
    }
}

/// Returns true if the reply to a query is what a search finds in these rows, those of the resulting book.
fn is_found(op: &Op, reply: &OpReply, rows: &BookRows, past: &Past) -> bool {
    match (op, reply) {
        (Op::Authorised(agent), OpReply::Entries(entries)) => {
            are_of(entries.as_slice(), ends_of(rows, agent.get().as_str()))
        }
        (Op::Trust(agent), OpReply::Bundles(bundles)) => {
            is_trust(
                bundles.as_slice(),
                rows,
                ends_of(rows, agent.get().as_str()),
            )
        }
        (Op::Page(query), reply) => is_listed(query.get(), rows_for(query.get(), past), reply),
        _ => true,
    }
}

/// Returns true if the entry that an operation made has what was given.
fn is_made(op: &Op, reply: &OpReply) -> bool {
    match (op, reply) {
        (Op::Create(new) | Op::Update(new, _), OpReply::Entry(entry)) => {
            is_as_given(new.get(), entry)
        }
        _ => true,
    }
}

/// Returns true if the replies are right. The queries in a repeated batch were answered from an earlier book, and are skipped.
fn are_right(answer: &Answer, rows: &BookRows, past: &Past) -> bool {
    let is_repeated = matches!(answer.outcome(), ReplyOutcome::Repeated(_));
    for (op, reply) in answer.ops().iter().zip(answer.replies()) {
        if !is_made(op, reply) || !(is_repeated || is_found(op, reply, rows, past)) {
            return false;
        }
    }
    true
}

/// Notes cycles, and aliases that the agent holds or doesn't hold.
fn note_chains(came: &mut String, rows: &BookRows, ends: u64) -> Result<(), Fail> {
    note(came, "a cycle", has_cycle(rows, ends))?;
    for entry in &rows.entries {
        let is_end = ends & bit(entry) != 0;
        note(came, "an alias that is held", is_alias(entry) && is_end)?;
        note(came, "an alias that isn't held", is_alias(entry) && !is_end)?;
    }
    Ok(())
}

/// Queries the authorised entries and the bundles of the agent.
fn questions(alloc: Global, agent: &Agent) -> Result<String, Fail> {
    let id = agent.id.get().as_str();
    let path = id.strip_prefix("spiffe://ex.org").unwrap_or(id);
    Ok(format!(in alloc; "authorised {path}; trust {path}")?)
}

/// Returns true if these are the entries, and the bundles that they name.
fn have_text(replies: &[OpReply], rows: &BookRows, ends: u64) -> bool {
    match replies {
        [OpReply::Entries(entries), OpReply::Bundles(bundles)] => {
            are_of(entries.as_slice(), ends) && is_trust(bundles.as_slice(), rows, ends)
        }
        _ => false,
    }
}

/// Returns true if the agent got some bundle.
fn is_trusting(replies: &[OpReply]) -> bool {
    match replies {
        [_, OpReply::Bundles(bundles)] => !bundles.as_slice().is_empty(),
        _ => false,
    }
}

/// Returns true if the agent gets the entries in which a chain for it ends, and the bundles that they name.
fn is_as_text(
    alloc: Global,
    book: &mut PlainBook,
    rows: &BookRows,
    agent: &Agent,
    came: &mut String,
) -> Result<bool, Fail> {
    let ends = ends(rows, agent);
    note_chains(came, rows, ends)?;
    let questions = questions(alloc, agent)?;
    let as_text = asked(alloc, book, questions.as_str())?;
    let is_trusting = is_trusting(as_text.replies());
    let has_text = have_text(as_text.replies(), rows, ends);
    drop(as_text);
    note(came, "a bundle told", is_trusting)?;
    Ok(has_text)
}

/// Asserts that the resulting book is lawful, and that its agents get what a search finds.
fn judge(
    rt: &impl Abort,
    alloc: Global,
    book: &mut PlainBook,
    rows: &BookRows,
    came: &mut String,
) -> Result<(), Fail> {
    holds(rt, is_lawful(rows, book.place()), "a lawful book");
    let are_listed = are_children_listed(alloc, book, rows)?;
    holds(rt, are_listed, "the children of each parent");
    for agent in &rows.agents {
        let is_as_text = is_as_text(alloc, book, rows, agent, came)?;
        holds(rt, is_as_text, "what each agent is told");
    }
    Ok(())
}

/// The rows of the resulting book, after checking them and the reply.
fn judged_rows(
    rt: &impl Abort,
    alloc: Global,
    book: &mut PlainBook,
    (answer, as_text): (&Answer, &str),
    past: &Past,
    came: &mut String,
) -> Result<BookRows, Fail> {
    let rows = rows_of(alloc, book)?;
    holds(rt, are_right(answer, &rows, past), as_text);
    let judged = judge(rt, alloc, book, &rows, came);
    if_done(judged, rows)
}

/// Checks the reply to a request at a place, and returns it as text, with the rows of the resulting book.
fn judged(
    rt: &impl Abort,
    alloc: Global,
    book: &mut PlainBook,
    (request, place): (&Request, u64),
    answer: &Answer,
    past: &Past,
    came: &mut String,
) -> Result<(String, BookRows), Fail> {
    let as_text = answer.text(alloc)?;
    note_all(came, request, answer, as_text.as_str())?;
    let is_as_text = is_stale_text(alloc, request, past, place, as_text.as_str())?;
    holds(rt, is_as_text, as_text.as_str());
    let rows = judged_rows(rt, alloc, book, (answer, as_text.as_str()), past, came);
    pair_with(as_text, rows)
}

/// Runs a request, and checks its reply, as in `judged`.
fn run(
    rt: &impl Abort,
    alloc: Global,
    book: &mut PlainBook,
    request: &Request,
    past: &Past,
    came: &mut String,
) -> Result<(String, BookRows), Fail> {
    let place = book.place();
    let text = text_of(alloc, request)?;
    let answer = answer_to(alloc, book, text.as_str())?;
    let judged = judged(rt, alloc, book, (request, place), &answer, past, came);
    drop(answer);
    judged
}

/// Runs a random request, and checks its reply.
fn round(
    rt: &impl Abort,
    alloc: Global,
    book: &mut PlainBook,
    state: &mut u64,
    past: &mut Past,
    came: &mut String,
) -> Result<(), Fail> {
    let request = random_request(alloc, state, past, book.place())?;
    let ran = run(rt, alloc, book, &request, past, came);
    let (request, (as_text, rows)) = pair_with(request, ran)?;
    keep(past, request, as_text, rows)
}

/// Runs random requests, one after another.
fn rounds(
    rt: &impl Abort,
    alloc: Global,
    book: &mut PlainBook,
    past: &mut Past,
    came: &mut String,
) -> Result<(), Fail> {
    let mut state = 7;
    for _ in 0..1500 {
        round(rt, alloc, book, &mut state, past, came)?;
    }
    Ok(())
}

/// What occurred in random requests to the first book.
fn all_rounds(rt: &impl Abort, alloc: Global, book: &mut PlainBook) -> Result<String, Fail> {
    let mut came = String::new(alloc);
    let mut past = past_of(alloc, rows_of(alloc, book)?)?;
    let done = rounds(rt, alloc, book, &mut past, &mut came);
    drop(past);
    if_done(done, came)
}

/// Asserts that everything occurred that must occur.
fn all_came(rt: &impl Abort, came: &str) {
    for line in COMING.lines() {
        holds(rt, is_among(came, line), line);
    }
}

#[test]
fn random_requests_keep_the_book_lawful_and_get_what_a_search_finds(
    rt: HostRuntime,
) -> Result<(), Fail> {
    let mut book = first_book(rt.alloc())?;
    let came = all_rounds(&rt, rt.alloc(), &mut book);
    drop(book);
    all_came(&rt, came?.as_str());
    Ok(())
}
