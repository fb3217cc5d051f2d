//! The rows of a small book, as numbers, and what the operations of random batches do to them.

ghost use Rattle.std.specs.Prelude.{◌<◌};

use std::test::Fail;
use test_batches::word;

/// The IDs of random batches, in the order of their texts.
pub const IDS: [&str; 5] = ["/api", "n1", "n2", "/spire/server", "/web"];

/// The trust domains that entries of random batches name, in order.
pub const DOMAINS: [&str; 3] = ["d1", "d2", "d3"];

/// An entry: the indices of its IDs in `IDS`, which of the two selectors it has, and which of the domains it names.
#[derive(Clone, Copy, Drop)]
pub struct PlainEntry {
    pub parent: usize,
    pub identity: usize,
    pub selectors: [bool; 2],
    pub expiry: u64,
    pub domains: [bool; 3],
    pub revision: u64,
}

/// The entries by their numbers, the selectors of agents by their indices in `IDS`, and which of the domains has a bundle.
#[derive(Clone, Copy, Drop)]
pub struct PlainRows {
    pub entries: [Option<PlainEntry>; 7],
    pub agents: [Option<[bool; 2]>; 5],
    pub bundles: [bool; 4],
}

pub fn no_rows() -> PlainRows {
    PlainRows {
        entries: [None; 7],
        agents: [None; 5],
        bundles: [false; 4],
    }
}

/// The number of an entry.
pub fn entry_number(word: &str) -> usize
    ensures { result < 7 }
{
    match word {
        "1" => 1,
        "2" => 2,
        "3" => 3,
        "4" => 4,
        "5" => 5,
        "6" => 6,
        _ => 0,
    }
}

/// The index of an ID in `IDS`.
pub fn id_index(word: &str) -> usize
    ensures { result < 5 }
{
    match word {
        "/api" => 0,
        "n1" => 1,
        "n2" => 2,
        "/spire/server" => 3,
        _ => 4,
    }
}

/// The index of a trust domain in `DOMAINS`; that of the own domain, which never has a bundle, is after them.
pub fn domain_index(word: &str) -> usize
    ensures { result < 4 }
{
    match word {
        "d1" => 0,
        "d2" => 1,
        "d3" => 2,
        _ => 3,
    }
}

pub fn selectors_of(word: &str) -> [bool; 2] {
    [word.contains("x:1"), word.contains("x:2")]
}

/// Returns true if the domain is among the words of an entry.
fn names(words: &[&str], domain: &str) -> bool {
    for word in words.iter().skip(6) {
        if *word == domain {
            return true;
        }
    }
    false
}

fn domains_of(words: &[&str]) -> [bool; 3] {
    [names(words, "d1"), names(words, "d2"), names(words, "d3")]
}

/// The entry of these words, at this revision.
pub fn entry_of(words: &[&str], revision: u64) -> Result<PlainEntry, Fail> {
    Ok(PlainEntry {
        parent: id_index(word(words, 2)),
        identity: id_index(word(words, 3)),
        selectors: selectors_of(word(words, 4)),
        expiry: word(words, 5).parse::<u64>()?,
        domains: domains_of(words),
        revision,
    })
}

fn is_similar(one: &PlainEntry, other: &PlainEntry) -> bool {
    one.parent == other.parent
        && one.identity == other.identity
        && one.selectors[0] == other.selectors[0]
        && one.selectors[1] == other.selectors[1]
}

/// Returns true if there is a similar entry with another number.
pub fn has_similar(rows: &PlainRows, number: usize, new: &PlainEntry) -> bool {
    for other in 0..7_usize {
        if let Some(entry) = &rows.entries[other] {
            if other != number && is_similar(entry, new) {
                return true;
            }
        }
    }
    false
}

/// Removes the entries that expire before the moment.
pub fn prune(rows: &mut PlainRows, moment: u64) {
    for number in 0..7_usize {
        if let Some(entry) = rows.entries[number] {
            if 0 < entry.expiry && entry.expiry < moment {
                rows.entries[number] = None;
            }
        }
    }
}

/// Returns true if the entry names the domain of this index.
pub fn is_user(entry: &PlainEntry, domain: usize) -> bool {
    domain < 3 && entry.domains[domain]
}

pub fn is_used(rows: &PlainRows, domain: usize) -> bool {
    for number in 0..7_usize {
        if let Some(entry) = &rows.entries[number] {
            if is_user(entry, domain) {
                return true;
            }
        }
    }
    false
}

/// Removes the entries that name the domain.
pub fn delete_users(rows: &mut PlainRows, domain: usize) {
    for number in 0..7_usize {
        if let Some(entry) = rows.entries[number] {
            if is_user(&entry, domain) {
                rows.entries[number] = None;
            }
        }
    }
}

/// The entry without the domain, at its next revision.
fn freed(entry: &PlainEntry, domain: usize) -> PlainEntry {
    let mut freed = *entry;
    if domain < 3 {
        freed.domains[domain] = false;
    }
    freed.revision = entry.revision.wrapping_add(1);
    freed
}

/// Removes the domain from the entries that name it.
pub fn free_users(rows: &mut PlainRows, domain: usize) {
    for number in 0..7_usize {
        if let Some(entry) = rows.entries[number] {
            if is_user(&entry, domain) {
                rows.entries[number] = Some(freed(&entry, domain));
            }
        }
    }
}
