//! A search for chains by their length, and one for the entries of a page by counting.

use crate::rows::BookRows;
use entry_book::{Agent, Entry, Filter, MatchMode, PageQuery, SelectorMatch, Shared};
use spiffe_name::{SpiffeId, TrustDomain};
use uuid::Uuid;

/// The number in the last two bytes of an id.
pub fn number_of(id: &Uuid) -> u16 {
    let bytes = id.as_bytes();
    u16::from_be_bytes([bytes[14], bytes[15]])
}

/// The bit of an entry's number.
pub fn bit(entry: &Entry) -> u64 {
    1_u64.wrapping_shl(u32::from(number_of(entry.id())))
}

/// Returns true if the entry is an alias.
pub fn is_alias(entry: &Entry) -> bool {
    entry.parent().get().as_str() == "spiffe://ex.org/spire/server"
}

/// Returns true if the entry names the domain.
pub fn does_name(entry: &Entry, domain: &str) -> bool {
    for named in entry.domains().as_slice() {
        if named.get().as_str() == domain {
            return true;
        }
    }
    false
}

fn has(agent: &Agent, wanted: &str) -> bool {
    for selector in agent.selectors.get().as_slice() {
        if selector.as_str() == wanted {
            return true;
        }
    }
    false
}

/// Returns true if the agent has all selectors of the entry.
fn has_all(agent: &Agent, entry: &Entry) -> bool {
    for wanted in entry.selectors().get().as_slice() {
        if !has(agent, wanted.as_str()) {
            return false;
        }
    }
    true
}

fn starts(entry: &Entry, agent: &Agent) -> bool {
    entry.parent().get().as_str() == agent.id.get().as_str()
        || (is_alias(entry) && has_all(agent, entry))
}

/// The entries in which a chain of one entry ends.
fn first_level(rows: &BookRows, agent: &Agent) -> u64 {
    let mut level = 0;
    for entry in &rows.entries {
        if starts(entry, agent) {
            level |= bit(entry);
        }
    }
    level
}

/// Returns true if the entry's parent is the identity of one of these.
fn follows(entry: &Entry, rows: &BookRows, level: u64) -> bool {
    for before in &rows.entries {
        let is_before = before.identity().get().as_str() == entry.parent().get().as_str();
        if is_before && level & bit(before) != 0 {
            return true;
        }
    }
    false
}

/// The entries in which a chain ends that is one entry longer.
fn next_level(rows: &BookRows, level: u64) -> u64 {
    let mut next = 0;
    for entry in &rows.entries {
        if follows(entry, rows, level) {
            next |= bit(entry);
        }
    }
    next
}

/// These entries, and those in which a chain ends that continues from one of them; no chain longer than the number of
/// entries is needed.
fn reached(rows: &BookRows, level: u64) -> u64 {
    let mut level = level;
    let mut all = level;
    for _ in &rows.entries {
        level = next_level(rows, level);
        all |= level;
    }
    all
}

/// The entries in which some chain for the agent ends.
pub fn ends(rows: &BookRows, agent: &Agent) -> u64 {
    reached(rows, first_level(rows, agent))
}

/// Returns true if a chain returns to one of these entries.
pub fn has_cycle(rows: &BookRows, ends: u64) -> bool {
    for entry in &rows.entries {
        let after = reached(rows, next_level(rows, bit(entry)));
        if ends & after & bit(entry) != 0 {
            return true;
        }
    }
    false
}

/// Whether sets match that have the first `own` and the first `given` of the same selectors.
fn do_counts_match(own: usize, given: usize, mode: MatchMode) -> bool {
    match mode {
        MatchMode::Exact => own == given,
        MatchMode::Any => own.min(given) > 0,
        MatchMode::Superset => own >= given,
        MatchMode::Subset => own <= given,
    }
}

/// Returns true if no ID is given, or this one.
fn is_given(given: &Option<Shared<SpiffeId>>, id: &Shared<SpiffeId>) -> bool {
    match given {
        Some(given) => given.get().as_str() == id.get().as_str(),
        None => true,
    }
}

/// Returns true if no domain is given, or the entry names it.
fn is_of_domain(given: &Option<Shared<TrustDomain>>, entry: &Entry) -> bool {
    match given {
        Some(given) => does_name(entry, given.get().as_str()),
        None => true,
    }
}

fn is_of_selectors(question: &Option<SelectorMatch>, entry: &Entry) -> bool {
    match question {
        Some(question) => {
            let own = entry.selectors().get().as_slice().len();
            let given = question.selectors.get().as_slice().len();
            do_counts_match(own, given, question.mode)
        }
        None => true,
    }
}

/// Returns true if the entry has each part that is given.
fn has_parts(entry: &Entry, filter: &Filter) -> bool {
    is_given(&filter.parent, entry.parent())
        && is_given(&filter.identity, entry.identity())
        && is_of_domain(&filter.domain, entry)
        && is_of_selectors(&filter.selectors, entry)
}

/// The number of the entry after which a page begins; 0 for none.
fn number_before(query: &PageQuery) -> u16 {
    match &query.from {
        Some(id) => number_of(id),
        None => 0,
    }
}

/// The bits of the entries of a page, and the number of the last one if there are more.
pub fn listed(rows: &BookRows, query: &PageQuery) -> (u64, Option<u16>) {
    let from = number_before(query);
    let mut all = 0;
    let mut last = 0;
    let mut rest = query.size;
    for entry in &rows.entries {
        if number_of(entry.id()) > from && has_parts(entry, &query.filter) {
            if rest == 0 {
                return (all, Some(last));
            }
            all |= bit(entry);
            last = number_of(entry.id());
            rest = rest.wrapping_sub(1);
        }
    }
    (all, None)
}
