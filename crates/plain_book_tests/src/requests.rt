//! Random requests over a few names, and the replies that follow from a minimum place and a token, before the operations are
//! checked.

use crate::draws::drawn;
use crate::rows::BookRows;
use std::alloc::Global;
use std::test::Fail;
use test_batches::below;
use test_support::{add, one};

/// `<changes>` are one to three changes, in one of four cases with a final query for an agent's authorised entries.
/// `<questions>` are one to three queries. `<from>` is what follows the number of the book in a page. Each part of a filter
/// is given in half of the cases.
const GRAMMAR: &str = "\
<changes>: <change> <end> | <change> ; <change> <end> | <change> ; <change> ; <change> <end>
<end>: ; authorised <agent> | | |
<change>: <create> | <create> | <create> | <create> | <create> | <update> | <update> \
| delete <number> with <expected> | prune <moment> | <agents> | <agents> | <agents> | <bundles> | <bundles> | <bundles> | <bundles>
<create>: create <entry> with <lifetime> <lifetime>
<update>: update <entry> with <lifetime> <lifetime> <expected>
<entry>: <number> <parent> <identity> <selectors> <moment> <domains>
<agents>: set_agent <agent> <held> | set_agent <agent> <held> | drop_agent <agent>
<bundles>: set_bundle <bundle> | drop_bundle <bundle> <mode>
<questions>: <question> | <question> ; <question> | <question> ; <question> ; <question>
<question>: show <number> | show_agent <agent> | show_bundle <domain> | children <parent> \
| authorised <agent> | trust <agent> | <page> | <page>
<page>: page <size> - <from>
<from>: <number?> with <parent?> <identity?> <domain?> <match?>
<number?>: - | <number>
<parent?>: - | <parent>
<identity?>: - | <identity>
<domain?>: - | <domain>
<match?>: - | <match> <selectors>
<number>: 1 | 2 | 3 | 4 | 5 | 6 | 7
<size>: 1 | 2 | 3
<parent>: /spire/agent/n1 | /spire/agent/n2 | /spire/server | /web | /api
<identity>: /web | /api | /spire/agent/n2
<agent>: /spire/agent/n1 | /spire/agent/n2
<selectors>: x:1 | x:1,x:2
<held>: - | - | x:1 | x:1,x:2
<moment>: 0 | 1 | 2 | 3
<lifetime>: 0 | 300 | 3600
<expected>: - | - | 0 | 1
<domains>: | | d100 | d100 d101
<bundle>: d100 | d101 | d102
<domain>: d100 | d101 | d102 | ex.org
<mode>: restrict | delete | dissociate
<match>: exact | any | superset | subset
";

/// A batch: its minimum place, its token, the number of the book that it reads, if it is a page that gives one, and its
/// operations.
#[derive(Drop)]
pub struct Request {
    after: u64,
    token: Option<u64>,
    at: Option<u64>,
    ops: String,
}

/// A batch that was committed with a token, and the reply that it got.
#[derive(Drop)]
struct Kept {
    token: u64,
    ops: String,
    as_text: String,
}

/// The rows of each book so far, by its number, and the batches that were committed with a token.
#[derive(Drop)]
pub struct Past {
    pub books: Vec<BookRows>,
    kept: Vec<Kept>,
}

/// The past of the first book, which has these rows.
pub fn past_of(alloc: Global, rows: BookRows) -> Result<Past, Fail> {
    let books = one(alloc, rows)?;
    let kept = Vec::new(alloc);
    Ok(Past { books, kept })
}

/// Returns true if the request reads the book of a number.
pub fn is_past_page(request: &Request) -> bool {
    request.at.is_some()
}

/// The batch's text.
pub fn text_of(alloc: Global, request: &Request) -> Result<String, Fail> {
    let (after, ops) = (request.after, request.ops.as_str());
    match request.token {
        Some(token) => Ok(format!(in alloc; "after {after}; token {token}; {ops}")?),
        None => Ok(format!(in alloc; "after {after}; {ops}")?),
    }
}

/// A minimum place for a request; in one of sixteen cases it isn't reached yet.
fn least(state: &mut u64, place: u64) -> u64 {
    match below(state, 16) {
        0 => place.wrapping_add(1),
        1 => place,
        _ => 0,
    }
}

/// A page of one of up to 67 books before this place, of this place, or of the next two.
fn past_page(alloc: Global, state: &mut u64, place: u64) -> Result<Request, Fail> {
    let at = place
        .wrapping_add(2)
        .saturating_sub(below(state, 70) as u64);
    let page = format!(in alloc; "page <size> {at} <from>")?;
    Ok(Request {
        after: least(state, place),
        token: None,
        at: Some(at),
        ops: drawn(alloc, state, GRAMMAR, page.as_str())?,
    })
}

/// A batch: queries in one of four cases, otherwise changes, half of which have a token.
fn new_request(alloc: Global, state: &mut u64, place: u64) -> Result<Request, Fail> {
    let asks = below(state, 4) == 0;
    let token = below(state, 600) as u64;
    let kind = if asks { "<questions>" } else { "<changes>" };
    Ok(Request {
        after: least(state, place),
        token: if asks || token >= 300 {
            None
        } else {
            Some(token)
        },
        at: None,
        ops: drawn(alloc, state, GRAMMAR, kind)?,
    })
}

/// One of the batches that were committed with a token, again; any other if there is none.
fn again(alloc: Global, state: &mut u64, past: &Past, place: u64) -> Result<Request, Fail> {
    let index = below(state, 300);
    match past.kept.get(index) {
        Some(kept) => Ok(Request {
            after: least(state, place),
            token: Some(kept.token),
            at: None,
            ops: kept.ops.clone()?,
        }),
        None => new_request(alloc, state, place),
    }
}

/// A random request for a book at this place.
pub fn random_request(
    alloc: Global,
    state: &mut u64,
    past: &Past,
    place: u64,
) -> Result<Request, Fail> {
    match below(state, 12) {
        0 => past_page(alloc, state, place),
        1 => again(alloc, state, past, place),
        _ => new_request(alloc, state, place),
    }
}

/// Stores the request under its token, if it has one, with the reply that it got.
fn keep_answer(past: &mut Past, request: Request, as_text: String) -> Result<(), Fail> {
    let Request { token, ops, .. } = request;
    if let Some(token) = token {
        return add(
            &mut past.kept,
            Kept {
                token,
                ops,
                as_text,
            },
        );
    }
    Ok(())
}

/// Stores the rows after the request and its reply, if it was committed now.
pub fn keep(
    past: &mut Past,
    request: Request,
    as_text: String,
    rows: BookRows,
) -> Result<(), Fail> {
    if !as_text.as_str().starts_with("committed") {
        drop(rows);
        return Ok(());
    }
    add(&mut past.books, rows)?;
    keep_answer(past, request, as_text)
}

/// The batch that was committed with the request's token.
fn kept_for<'a>(past: &'a Past, request: &Request) -> Option<&'a Kept> {
    let token = request.token?;
    for kept in &past.kept {
        if kept.token == token {
            return Some(kept);
        }
    }
    None
}

/// Returns true if this is the number of a book that isn't available at this place.
fn is_gone(at: Option<u64>, place: u64) -> bool {
    match at {
        Some(at) => at > place || place.saturating_sub(at) > 63,
        None => false,
    }
}

/// The reply that follows at this place before the operations are checked; none if they are checked.
fn text_before(
    alloc: Global,
    request: &Request,
    past: &Past,
    place: u64,
) -> Result<Option<String>, Fail> {
    if request.after > place {
        return Ok(Some(format!(in alloc; "refused W1 at {place}")?));
    }
    if is_gone(request.at, place) {
        return Ok(Some(format!(in alloc; "refused O8 at {place}; operation 0")?));
    }
    match kept_for(past, request) {
        Some(kept) if kept.ops == request.ops => {
            let as_text = kept.as_text.replace(alloc, "committed", "repeated")?;
            Ok(Some(as_text))
        }
        Some(_) => Ok(Some(format!(in alloc; "refused O9 at {place}")?)),
        None => Ok(None),
    }
}

/// Returns true if this can be the reply to a request whose operations are checked.
fn is_text_after(as_text: &str) -> bool {
    !as_text.starts_with("refused W1")
        && !as_text.starts_with("refused O8")
        && !as_text.starts_with("refused O9")
        && !as_text.starts_with("repeated")
}

/// Returns true if the reply agrees with what follows from the place, the token and the available books, for any operations.
pub fn is_stale_text(
    alloc: Global,
    request: &Request,
    past: &Past,
    place: u64,
    as_text: &str,
) -> Result<bool, Fail> {
    match text_before(alloc, request, past, place)? {
        Some(expected) => Ok(as_text == expected.as_str()),
        None => Ok(is_text_after(as_text)),
    }
}
