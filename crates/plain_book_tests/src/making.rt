//! Batches from texts as in `test_batches`. What those cannot express follows `with` in a line: the two lifetimes of an
//! entry, the revision that an update or a delete expects, and the filter of a page. IDs in such a line are written as
//! their paths.

use entry_book::{
    Batch, DomainSet, Filter, MatchMode, NewEntry, Op, PageQuery, SelectorMatch, Sequence, Shared,
    Text,
};
use spiffe_name::{Selector, SelectorSet, SpiffeId, TrustDomain};
use std::alloc::Global;
use std::test::Fail;
use test_batches::{number, number_behind, trust_domain, word, words};
use test_support::{add, add_copy, if_done, pair_with};
use uuid::Uuid;

/// The number in a word, or none for `-`.
fn given_number(words: &[&str], index: usize) -> Result<Option<u64>, Fail> {
    if word(words, index) == "-" {
        return Ok(None);
    }
    Ok(Some(number(words, index)?))
}

/// The UUID whose last bytes are this number.
fn uuid(words: &[&str], index: usize) -> Result<Uuid, Fail> {
    Ok(Uuid::from_u64_pair(0, number(words, index)?))
}

fn id(alloc: Global, path: &str) -> Result<Shared<SpiffeId>, Fail> {
    let text = format!(in alloc; "spiffe://ex.org{path}")?;
    let id = SpiffeId::parse(alloc, text.as_str())?;
    Ok(Shared::of(alloc, id)?)
}

/// The selectors in a word, which commas separate.
fn selectors(alloc: Global, word: &str) -> Result<Shared<SelectorSet>, Fail> {
    let mut selectors = Vec::new(alloc);
    for text in word.split(',') {
        selectors.push(Selector::parse(alloc, text)?)?;
    }
    Ok(Shared::of(alloc, SelectorSet::of(selectors)?)?)
}

fn domains(alloc: Global, words: &[&str]) -> Result<DomainSet, Fail> {
    let mut domains = Vec::new(alloc);
    for name in words.iter().skip(6) {
        domains.push(trust_domain(alloc, name)?)?;
    }
    Ok(DomainSet::of(alloc, domains)?)
}

fn no_hint(alloc: Global) -> Result<Shared<Text>, Fail> {
    Ok(Shared::of(alloc, Text::of(String::new(alloc)))?)
}

/// The parent and the identity of an entry.
fn ids(alloc: Global, words: &[&str]) -> Result<(Shared<SpiffeId>, Shared<SpiffeId>), Fail> {
    let parent = id(alloc, word(words, 2))?;
    pair_with(parent, id(alloc, word(words, 3)))
}

/// The selectors and the domains of an entry.
fn sets(alloc: Global, words: &[&str]) -> Result<(Shared<SelectorSet>, DomainSet), Fail> {
    let selectors = selectors(alloc, word(words, 4))?;
    pair_with(selectors, domains(alloc, words))
}

/// An entry with no hint, from its number, parent, identity, selectors, expiry and domains, and from its lifetimes.
fn entry(alloc: Global, words: &[&str], more: &[&str]) -> Result<Shared<NewEntry>, Fail> {
    let (number, expiry) = (uuid(words, 1)?, number(words, 5)?);
    let (x509_svid_ttl, jwt_svid_ttl) = lifetimes(more)?;
    let named = pair_with(ids(alloc, words)?, sets(alloc, words))?;
    let (named, hint) = pair_with(named, no_hint(alloc))?;
    let ((parent, identity), (selectors, domains)) = named;
    let new = NewEntry {
        id: number,
        parent,
        identity,
        selectors,
        hint,
        domains,
        expiry,
        x509_svid_ttl,
        jwt_svid_ttl,
    };
    Ok(Shared::of(alloc, new)?)
}

fn lifetimes(words: &[&str]) -> Result<(u64, u64), Fail> {
    Ok((number(words, 0)?, number(words, 1)?))
}

/// The ID in a word, or none for `-`.
fn given_id(alloc: Global, path: &str) -> Result<Option<Shared<SpiffeId>>, Fail> {
    if path == "-" {
        return Ok(None);
    }
    Ok(Some(id(alloc, path)?))
}

fn given_domain(alloc: Global, name: &str) -> Result<Option<Shared<TrustDomain>>, Fail> {
    if name == "-" {
        return Ok(None);
    }
    let domain = trust_domain(alloc, name)?;
    Ok(Some(Shared::of(alloc, domain)?))
}

fn mode(word: &str) -> MatchMode {
    match word {
        "exact" => MatchMode::Exact,
        "any" => MatchMode::Any,
        "superset" => MatchMode::Superset,
        _ => MatchMode::Subset,
    }
}

/// The condition with a mode and its selectors; none if the mode is `-`.
fn given_match(alloc: Global, word: &str, of: &str) -> Result<Option<SelectorMatch>, Fail> {
    if word == "-" {
        return Ok(None);
    }
    let selectors = selectors(alloc, of)?;
    let mode = mode(word);
    Ok(Some(SelectorMatch { selectors, mode }))
}

/// The filter with a parent, an identity, a domain, a mode and its selectors.
fn filter(alloc: Global, words: &[&str]) -> Result<Filter, Fail> {
    let parent = given_id(alloc, word(words, 0))?;
    let identity = given_id(alloc, word(words, 1))?;
    let domain = given_domain(alloc, word(words, 2))?;
    let selectors = given_match(alloc, word(words, 3), word(words, 4))?;
    Ok(Filter {
        parent,
        identity,
        domain,
        selectors,
    })
}

/// A page from its size, the number of the book that it reads, the number of the entry after which it begins, and its filter.
fn page(alloc: Global, words: &[&str], more: &[&str]) -> Result<Shared<PageQuery>, Fail> {
    let (size, at) = (number(words, 1)?, given_number(words, 2)?);
    let from = match given_number(words, 3)? {
        Some(number) => Some(Uuid::from_u64_pair(0, number)),
        None => None,
    };
    let filter = filter(alloc, more)?;
    let query = PageQuery {
        size,
        at,
        from,
        filter,
    };
    Ok(Shared::of(alloc, query)?)
}

/// The operation of a line with words after `with`.
fn op_with(alloc: Global, words: &[&str], more: &[&str]) -> Result<Op, Fail> {
    match word(words, 0) {
        "create" => Ok(Op::Create(entry(alloc, words, more)?)),
        "update" => {
            let expected = given_number(more, 2)?;
            Ok(Op::Update(entry(alloc, words, more)?, expected))
        }
        "delete" => Ok(Op::Delete(uuid(words, 1)?, given_number(more, 0)?)),
        "page" => Ok(Op::Page(page(alloc, words, more)?)),
        _ => Err(Fail::from("a line with nothing more")),
    }
}

fn add_with(alloc: Global, ops: &mut Vec<Op>, line: &str, more: &str) -> Result<(), Fail> {
    let (words, more) = (words(alloc, line)?, words(alloc, more)?);
    add(ops, op_with(alloc, words.as_slice(), more.as_slice())?)
}

fn add_copies(ops: &mut Vec<Op>, copied: &[Op]) -> Result<(), Fail> {
    for op in copied {
        add_copy(ops, op)?;
    }
    Ok(())
}

/// Appends the operation of a line without `with`.
fn add_plain(alloc: Global, ops: &mut Vec<Op>, line: &str) -> Result<(), Fail> {
    let batch = test_batches::batch(alloc, line)?;
    let added = add_copies(ops, batch.shared_ops().get().as_slice());
    drop(batch);
    added
}

fn add_line(alloc: Global, ops: &mut Vec<Op>, line: &str) -> Result<(), Fail> {
    if line.starts_with("token ") || line.starts_with("after ") {
        return Ok(());
    }
    match line.split_once(" with ") {
        Some((line, more)) => add_with(alloc, ops, line, more),
        None => add_plain(alloc, ops, line),
    }
}

fn add_lines(alloc: Global, ops: &mut Vec<Op>, lines: &str) -> Result<(), Fail> {
    for line in lines.lines() {
        add_line(alloc, ops, line)?;
    }
    Ok(())
}

/// The operations of the lines.
fn ops_of(alloc: Global, lines: &str) -> Result<Vec<Op>, Fail> {
    let mut ops = Vec::new(alloc);
    let added = add_lines(alloc, &mut ops, lines);
    if_done(added, ops)
}

/// The batch of lines, some with more words.
fn batch_with(alloc: Global, lines: &str) -> Result<Batch, Fail> {
    let token = match number_behind(alloc, lines, "token")? {
        Some(number) => Some(Uuid::from_u64_pair(0, number)),
        None => None,
    };
    let after = number_behind(alloc, lines, "after")?.unwrap_or(0);
    let domain = trust_domain(alloc, "ex.org")?;
    let ops = Sequence::of(ops_of(alloc, lines)?);
    Ok(Batch::new(alloc, &domain, ops, after, token)?)
}

/// The batch of a text.
pub fn batch(alloc: Global, text: &str) -> Result<Batch, Fail> {
    if text.contains(" with ") {
        let lines = text.replace(alloc, "; ", "\n")?;
        return batch_with(alloc, lines.as_str());
    }
    Ok(test_batches::batch(alloc, text)?)
}
