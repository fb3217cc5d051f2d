//! Marks from the words of a line. IDs are of `ex.org` and written as their paths.

use entry_book::Shared;
use spiffe_name::{SpiffeId, TrustDomain};
use std::alloc::Global;
use test_batches::{Failed, number, trust_domain, word, words};
use uuid::Uuid;
use version_book::Mark;

/// The UUID whose last bytes are the number after the first word.
fn uuid(words: &[&str]) -> Result<Uuid, Failed> {
    Ok(Uuid::from_u64_pair(0, number(words, 1)?))
}

fn id(alloc: Global, path: &str) -> Result<Shared<SpiffeId>, Failed> {
    let text = format!(in alloc; "spiffe://ex.org{path}")?;
    Ok(Shared::of(alloc, SpiffeId::parse(alloc, text.as_str())?)?)
}

fn domain(alloc: Global, name: &str) -> Result<Shared<TrustDomain>, Failed> {
    Ok(Shared::of(alloc, trust_domain(alloc, name)?)?)
}

/// The mark of a line.
pub fn mark_of(alloc: Global, line: &str) -> Result<Mark, Failed> {
    let words = words(alloc, line)?;
    mark(alloc, words.as_slice())
}

fn mark(alloc: Global, words: &[&str]) -> Result<Mark, Failed> {
    match word(words, 0) {
        "all" => Ok(Mark::all()),
        "token" => Ok(Mark::token(uuid(words)?)),
        "entry" => Ok(Mark::entry(uuid(words)?)),
        "expiring" => Ok(Mark::expiring(number(words, 1)?)),
        "users" => Ok(Mark::users(&domain(alloc, word(words, 1))?)?),
        "bundle" => Ok(Mark::bundle(domain(alloc, word(words, 1))?)),
        kind => mark_of_id(alloc, words, kind),
    }
}

fn mark_of_id(alloc: Global, words: &[&str], kind: &str) -> Result<Mark, Failed> {
    let first = id(alloc, word(words, 1))?;
    match kind {
        "group" => Ok(Mark::group(&first, &id(alloc, word(words, 2))?)?),
        "children" => Ok(Mark::children(&first)?),
        _ => Ok(Mark::agent(first)),
    }
}
