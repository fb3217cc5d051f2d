//! The expected reads of a random batch, computed over plain rows that are kept along with the history: operation by
//! operation, each on the rows that the earlier ones left, up to the first refusal.

use crate::plain_rows::{
    DOMAINS, IDS, PlainEntry, PlainRows, delete_users, domain_index, entry_number, entry_of,
    free_users, has_similar, id_index, is_used, is_user, no_rows, prune, selectors_of,
};
use std::alloc::Global;
use std::test::Fail;
use test_batches::{number, number_behind, word, words};

/// The index of the server's ID in `IDS`.
const SERVER: usize = 3;

/// The rows after the batches so far, and the tokens with which some of these were committed.
#[derive(Drop)]
pub struct PlainHistory {
    rows: PlainRows,
    tokens: Vec<u64>,
}

pub fn no_history(alloc: Global) -> PlainHistory {
    PlainHistory {
        rows: no_rows(),
        tokens: Vec::new(alloc),
    }
}

fn begin_mark(text: &mut String) -> Result<(), Fail> {
    if !text.is_empty() {
        text.push_str(" | ")?;
    }
    Ok(())
}

/// Appends one more read, of a kind and a name.
fn read(text: &mut String, kind: &str, name: &str) -> Result<(), Fail> {
    begin_mark(text)?;
    text.push_str(kind)?;
    text.push_str(" ")?;
    text.push_str(name)?;
    Ok(())
}

fn read_all(text: &mut String) -> Result<(), Fail> {
    begin_mark(text)?;
    text.push_str("all")?;
    Ok(())
}

fn read_group(text: &mut String, parent: &str, identity: &str) -> Result<(), Fail> {
    read(text, "group", parent)?;
    text.push_str(" ")?;
    text.push_str(identity)?;
    Ok(())
}

/// Reads the bundles of the domains that the entry names, up to the first missing one. Returns true if none is missing.
fn reads_bundles(rows: &PlainRows, text: &mut String, new: &PlainEntry) -> Result<bool, Fail> {
    for domain in 0..3_usize {
        if new.domains[domain] {
            read(text, "bundle", DOMAINS[domain])?;
            if !rows.bundles[domain] {
                return Ok(false);
            }
        }
    }
    Ok(true)
}

/// Puts an entry, unless it is refused. Returns true if it isn't.
fn puts(
    rows: &mut PlainRows,
    text: &mut String,
    words: &[&str],
    revision: u64,
) -> Result<bool, Fail> {
    read_group(text, word(words, 2), word(words, 3))?;
    let new = entry_of(words, revision)?;
    let number = entry_number(word(words, 1));
    if has_similar(rows, number, &new) || !reads_bundles(rows, text, &new)? {
        return Ok(false);
    }
    rows.entries[number] = Some(new);
    Ok(true)
}

fn creates(rows: &mut PlainRows, text: &mut String, words: &[&str]) -> Result<bool, Fail> {
    read(text, "entry", word(words, 1))?;
    if rows.entries[entry_number(word(words, 1))].is_some() {
        return Ok(false);
    }
    puts(rows, text, words, 0)
}

/// Returns true if revision 0 is expected and the entry has another.
fn is_stale(words: &[&str], revision: u64) -> bool {
    revision != 0 && word(words, 0).ends_with("0")
}

fn updates(rows: &mut PlainRows, text: &mut String, words: &[&str]) -> Result<bool, Fail> {
    read(text, "entry", word(words, 1))?;
    let Some(old) = rows.entries[entry_number(word(words, 1))] else {
        return Ok(false);
    };
    if is_stale(words, old.revision) {
        return Ok(false);
    }
    puts(rows, text, words, old.revision.wrapping_add(1))
}

fn deletes(rows: &mut PlainRows, text: &mut String, words: &[&str]) -> Result<bool, Fail> {
    read(text, "entry", word(words, 1))?;
    let number = entry_number(word(words, 1));
    let Some(old) = rows.entries[number] else {
        return Ok(false);
    };
    if is_stale(words, old.revision) {
        return Ok(false);
    }
    rows.entries[number] = None;
    Ok(true)
}

fn prunes(rows: &mut PlainRows, text: &mut String, words: &[&str]) -> Result<bool, Fail> {
    read(text, "expiring", word(words, 1))?;
    prune(rows, number(words, 1)?);
    Ok(true)
}

fn sets_agent(rows: &mut PlainRows, text: &mut String, words: &[&str]) -> Result<bool, Fail> {
    read(text, "agent", word(words, 1))?;
    rows.agents[id_index(word(words, 1))] = Some(selectors_of(word(words, 2)));
    Ok(true)
}

fn drops_agent(rows: &mut PlainRows, text: &mut String, words: &[&str]) -> Result<bool, Fail> {
    read(text, "agent", word(words, 1))?;
    let place = id_index(word(words, 1));
    let was_there = rows.agents[place].is_some();
    rows.agents[place] = None;
    Ok(was_there)
}

fn sets_bundle(rows: &mut PlainRows, text: &mut String, words: &[&str]) -> Result<bool, Fail> {
    read(text, "bundle", word(words, 1))?;
    rows.bundles[domain_index(word(words, 1))] = true;
    Ok(true)
}

/// Changes the entries that name a dropped bundle's domain. Returns true if the bundle is dropped.
fn change_users(rows: &mut PlainRows, domain: usize, mode: &str) -> bool {
    match mode {
        "delete" => delete_users(rows, domain),
        "dissociate" => free_users(rows, domain),
        _ => return !is_used(rows, domain),
    }
    true
}

fn drops_bundle(rows: &mut PlainRows, text: &mut String, words: &[&str]) -> Result<bool, Fail> {
    read(text, "bundle", word(words, 1))?;
    let domain = domain_index(word(words, 1));
    if !rows.bundles[domain] {
        return Ok(false);
    }
    read(text, "users", word(words, 1))?;
    if !change_users(rows, domain, word(words, 2)) {
        return Ok(false);
    }
    rows.bundles[domain] = false;
    Ok(true)
}

/// An agent with its selectors, and the identities whose children were read.
#[derive(Clone, Copy, Drop)]
struct PlainWalk {
    agent: usize,
    selectors: [bool; 2],
    reached: [bool; 5],
}

/// Returns true if the agent has all selectors of the entry.
fn is_held(walk: &PlainWalk, entry: &PlainEntry) -> bool {
    for selector in 0..2_usize {
        if entry.selectors[selector] && !walk.selectors[selector] {
            return false;
        }
    }
    true
}

/// Returns true if the entry is among what was read so far.
fn is_found(walk: &PlainWalk, entry: &PlainEntry) -> bool {
    let parent = entry.parent;
    (parent == SERVER && is_held(walk, entry))
        || parent == walk.agent
        || (parent < 5 && walk.reached[parent])
}

/// Returns true if the identity is that of an entry found.
fn is_met(rows: &PlainRows, walk: &PlainWalk, identity: usize) -> bool {
    for number in 0..7_usize {
        if let Some(entry) = &rows.entries[number] {
            if entry.identity == identity && is_found(walk, entry) {
                return true;
            }
        }
    }
    false
}

/// The least identity that was found and whose children weren't read.
fn least_unread(rows: &PlainRows, walk: &PlainWalk) -> Option<usize> {
    for identity in 0..5_usize {
        if identity != walk.agent && !walk.reached[identity] && is_met(rows, walk, identity) {
            return Some(identity);
        }
    }
    None
}

/// Reads the children of the least identity that is left. Returns true if there is one.
fn read_next(rows: &PlainRows, text: &mut String, walk: &mut PlainWalk) -> Result<bool, Fail> {
    let Some(identity) = least_unread(rows, walk) else {
        return Ok(false);
    };
    if identity < 5 {
        walk.reached[identity] = true;
        read(text, "children", IDS[identity])?;
    }
    Ok(true)
}

/// Reads the children of the server and of the agent, then those of each identity found, until none is left.
fn read_walk(
    rows: &PlainRows,
    text: &mut String,
    walk: &mut PlainWalk,
    agent: &str,
) -> Result<(), Fail> {
    read(text, "children", "/spire/server")?;
    read(text, "children", agent)?;
    for _ in 0..9_usize {
        if !read_next(rows, text, walk)? {
            break;
        }
    }
    Ok(())
}

/// Returns true if an entry found names the domain.
fn is_trusted(rows: &PlainRows, walk: &PlainWalk, domain: usize) -> bool {
    for number in 0..7_usize {
        if let Some(entry) = &rows.entries[number] {
            if is_user(entry, domain) && is_found(walk, entry) {
                return true;
            }
        }
    }
    false
}

/// Reads the bundles of the domains that the entries found name.
fn read_trusted(rows: &PlainRows, text: &mut String, walk: &PlainWalk) -> Result<(), Fail> {
    for domain in 0..3_usize {
        if is_trusted(rows, walk, domain) {
            read(text, "bundle", DOMAINS[domain])?;
        }
    }
    Ok(())
}

/// The reads of `authorised` or `trust`. Returns false if it is refused.
fn walks(rows: &PlainRows, text: &mut String, words: &[&str]) -> Result<bool, Fail> {
    read(text, "agent", word(words, 1))?;
    let agent = id_index(word(words, 1));
    let Some(selectors) = rows.agents[agent] else {
        return Ok(false);
    };
    let mut walk = PlainWalk {
        agent,
        selectors,
        reached: [false; 5],
    };
    read_walk(rows, text, &mut walk, word(words, 1))?;
    if word(words, 0) == "trust" {
        read_trusted(rows, text, &walk)?;
    }
    Ok(true)
}

/// The reads of a query. Returns false if it is refused.
fn asks(rows: &PlainRows, text: &mut String, words: &[&str]) -> Result<bool, Fail> {
    match word(words, 0) {
        "show" => read(text, "entry", word(words, 1))?,
        "show_agent" => read(text, "agent", word(words, 1))?,
        "show_bundle" => read(text, "bundle", word(words, 1))?,
        "children" => read(text, "children", word(words, 1))?,
        "page" => read_all(text)?,
        _ => return walks(rows, text, words),
    }
    Ok(true)
}

/// Plays an operation: its reads and its changes. Returns false if it is refused.
fn plays(rows: &mut PlainRows, text: &mut String, words: &[&str]) -> Result<bool, Fail> {
    match word(words, 0) {
        "create" => creates(rows, text, words),
        "update" | "update0" => updates(rows, text, words),
        "delete" | "delete0" => deletes(rows, text, words),
        "prune" => prunes(rows, text, words),
        "set_agent" => sets_agent(rows, text, words),
        "drop_agent" => drops_agent(rows, text, words),
        "set_bundle" => sets_bundle(rows, text, words),
        "drop_bundle" => drops_bundle(rows, text, words),
        _ => asks(rows, text, words),
    }
}

/// Plays the operation of a line; lines with a token or a minimum place have none.
fn plays_line(
    alloc: Global,
    rows: &mut PlainRows,
    text: &mut String,
    line: &str,
) -> Result<bool, Fail> {
    if line.starts_with("token ") || line.starts_with("after ") {
        return Ok(true);
    }
    let words = words(alloc, line)?;
    plays(rows, text, words.as_slice())
}

/// Plays the operations up to the first refusal. Returns true if none is refused.
fn plays_lines(
    alloc: Global,
    rows: &mut PlainRows,
    text: &mut String,
    lines: &str,
) -> Result<bool, Fail> {
    for line in lines.lines() {
        if !plays_line(alloc, rows, text, line)? {
            return Ok(false);
        }
    }
    Ok(true)
}

fn read_token(alloc: Global, text: &mut String, token: u64) -> Result<(), Fail> {
    let name = format!(in alloc; "{token}")?;
    read(text, "token", name.as_str())
}

/// Stores the token, if there is one.
fn keep(history: &mut PlainHistory, token: Option<u64>) -> Result<(), Fail> {
    if let Some(token) = token {
        history.tokens.push(token)?;
    }
    Ok(())
}

/// Reads the token, if there is one. Returns true if nothing is stored under it.
fn reads_token(
    alloc: Global,
    history: &PlainHistory,
    text: &mut String,
    token: Option<u64>,
) -> Result<bool, Fail> {
    let Some(token) = token else {
        return Ok(true);
    };
    read_token(alloc, text, token)?;
    Ok(!history.tokens.as_slice().contains(&token))
}

/// Plays the lines of a batch that may run. Unless an operation is refused, the rows are then those after it.
fn play_batch(
    alloc: Global,
    history: &mut PlainHistory,
    text: &mut String,
    lines: &str,
) -> Result<(), Fail> {
    let token = number_behind(alloc, lines, "token")?;
    let mut rows = history.rows;
    if reads_token(alloc, history, text, token)? && plays_lines(alloc, &mut rows, text, lines)? {
        history.rows = rows;
        keep(history, token)?;
    }
    Ok(())
}

/// Plays a batch at this place, and returns its reads, as text. Only batches of changes have a token.
pub fn footprint(
    alloc: Global,
    history: &mut PlainHistory,
    place: u64,
    batch: &str,
) -> Result<String, Fail> {
    let lines = batch.replace(alloc, "; ", "\n")?;
    let mut text = String::new(alloc);
    let least = number_behind(alloc, lines.as_str(), "after")?;
    if least.unwrap_or(0) <= place {
        play_batch(alloc, history, &mut text, lines.as_str())?;
    }
    Ok(text)
}
