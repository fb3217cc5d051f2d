//! Random batches over a few names, as text.

ghost use Rattle.std.specs.Prelude.{◌<◌};

use crate::failed::Failed;
use std::alloc::Global;

const NUMBERS: [&str; 6] = ["1", "2", "3", "4", "5", "6"];

const PARENTS: [&str; 5] = ["n1", "n2", "/spire/server", "/web", "/api"];

const IDENTITIES: [&str; 3] = ["/web", "/api", "n2"];

const SELECTORS: [&str; 4] = ["x:1", "x:2", "x:1,x:2", "x:1"];

const EXPIRIES: [&str; 4] = ["0", "1", "2", "3"];

const DOMAINS: [&str; 6] = ["", "", "d1", "d2", "d3", "d1 d3"];

const BUNDLES: [&str; 4] = ["d1", "d2", "d3", "ex.org"];

const AGENTS: [&str; 2] = ["n1", "n2"];

const MODES: [&str; 3] = ["restrict", "delete", "dissociate"];

const CHANGES: [&str; 16] = [
    "create",
    "create",
    "create",
    "create",
    "update",
    "update0",
    "delete",
    "delete0",
    "prune",
    "set_agent",
    "set_agent",
    "drop_agent",
    "set_bundle",
    "set_bundle",
    "set_bundle",
    "drop_bundle",
];

const QUESTIONS: [&str; 8] = [
    "show",
    "show_agent",
    "show_bundle",
    "children",
    "page",
    "page",
    "authorised",
    "trust",
];

/// Returns a pseudo-random number below a bound, and advances the state.
pub fn below(state: &mut u64, bound: u64) -> usize
    requires { 0 < bound }
    ensures { result < bound }
{
    *state = state
        .wrapping_mul(6_364_136_223_846_793_005)
        .wrapping_add(1_442_695_040_888_963_407);
    ((*state >> 33) % bound) as usize
}

/// Returns a random operation of this kind on an entry.
fn entry_line(alloc: Global, state: &mut u64, kind: &str) -> Result<String, Failed> {
    let (number, parent) = (NUMBERS[below(state, 6)], PARENTS[below(state, 5)]);
    let (identity, selectors) = (IDENTITIES[below(state, 3)], SELECTORS[below(state, 4)]);
    let (expiry, domains) = (EXPIRIES[below(state, 4)], DOMAINS[below(state, 6)]);
    Ok(format!(in alloc; "{kind} {number} {parent} {identity} {selectors} {expiry} {domains}")?)
}

fn is_of_one_entry(kind: &str) -> bool {
    matches!(
        kind,
        "create" | "update" | "update0" | "delete" | "delete0" | "show"
    )
}

/// Returns a random page of the newest book.
fn page_line(alloc: Global, state: &mut u64) -> Result<String, Failed> {
    let size = NUMBERS[below(state, 3)];
    if below(state, 2) == 0 {
        return Ok(format!(in alloc; "page {size} - -")?);
    }
    let from = NUMBERS[below(state, 6)];
    Ok(format!(in alloc; "page {size} - {from}")?)
}

/// Returns the two words after the kind of a random operation that is neither on one entry nor a page.
fn words_of(state: &mut u64, kind: &str) -> (&'static str, &'static str) {
    match kind {
        "set_agent" | "drop_agent" | "show_agent" | "authorised" | "trust" => (
            AGENTS[below(state, 2)],
            SELECTORS[below(state, 4)],
        ),
        "prune" => (EXPIRIES[below(state, 4)], ""),
        "children" => (PARENTS[below(state, 5)], ""),
        "show_bundle" => (BUNDLES[below(state, 4)], ""),
        _ => (BUNDLES[below(state, 3)], MODES[below(state, 3)]),
    }
}

/// Returns a random operation of this kind.
fn line_of(alloc: Global, state: &mut u64, kind: &str) -> Result<String, Failed> {
    if is_of_one_entry(kind) {
        return entry_line(alloc, state, kind);
    }
    if kind == "page" {
        return page_line(alloc, state);
    }
    let (first, second) = words_of(state, kind);
    Ok(format!(in alloc; "{kind} {first} {second}")?)
}

fn change(alloc: Global, state: &mut u64) -> Result<String, Failed> {
    let kind = CHANGES[below(state, 16)];
    line_of(alloc, state, kind)
}

fn question(alloc: Global, state: &mut u64) -> Result<String, Failed> {
    let kind = QUESTIONS[below(state, 8)];
    line_of(alloc, state, kind)
}

/// Appends fewer than `bound` random queries or changes to the text.
fn add_lines(
    alloc: Global,
    state: &mut u64,
    text: &mut String,
    asks: bool,
    bound: u64,
) -> Result<(), Failed>
    requires { 0 < bound }
{
    for _ in 0..below(state, bound) {
        text.push_str("; ")?;
        let line = if asks {
            question(alloc, state)?
        } else {
            change(alloc, state)?
        };
        text.push_str(line.as_str())?;
    }
    Ok(())
}

/// Returns one to three queries.
fn questions(alloc: Global, state: &mut u64) -> Result<String, Failed> {
    let mut text = question(alloc, state)?;
    add_lines(alloc, state, &mut text, true, 3)?;
    Ok(text)
}

/// Returns one to three changes, and up to two queries.
fn changes(alloc: Global, state: &mut u64) -> Result<String, Failed> {
    let mut text = change(alloc, state)?;
    add_lines(alloc, state, &mut text, false, 3)?;
    add_lines(alloc, state, &mut text, true, 3)?;
    Ok(text)
}

/// Returns changes with a token.
fn with_token(alloc: Global, state: &mut u64) -> Result<String, Failed> {
    let token = below(state, 200);
    let changes = changes(alloc, state)?;
    let text = changes.as_str();
    Ok(format!(in alloc; "token {token}; {text}")?)
}

/// Returns a batch of changes with one of a few tokens, so that it is likely to be repeated.
fn repeated(alloc: Global, state: &mut u64) -> Result<String, Failed> {
    let token = below(state, 20);
    let agent = AGENTS[below(state, 2)];
    Ok(format!(in alloc; "token {token}; set_agent {agent} x:1")?)
}

/// Returns a page of one of up to 67 books before this place, of this place, or of the next two.
fn past_page(alloc: Global, state: &mut u64, place: u64) -> Result<String, Failed> {
    let size = NUMBERS[below(state, 6)];
    let back = below(state, 70) as u64;
    let at = place.wrapping_add(2).saturating_sub(back);
    Ok(format!(in alloc; "page {size} {at} -")?)
}

/// Returns changes with this place or the next one as their minimum place.
fn later(alloc: Global, state: &mut u64, place: u64) -> Result<String, Failed> {
    let least = place.wrapping_add(below(state, 2) as u64);
    let changes = changes(alloc, state)?;
    let text = changes.as_str();
    Ok(format!(in alloc; "after {least}; {text}")?)
}

/// Returns a random batch for a book at this place.
pub fn batch_text(alloc: Global, state: &mut u64, place: u64) -> Result<String, Failed> {
    match below(state, 16) {
        0 => past_page(alloc, state, place),
        1 => later(alloc, state, place),
        2 => repeated(alloc, state),
        3 | 4 => with_token(alloc, state),
        5..=8 => questions(alloc, state),
        _ => changes(alloc, state),
    }
}
