//! Operations from the words of a text: first the kind, then the values that each of its kind has, then parts such as
//! `hint=1`. An ID of `ex.org` is written as its path, and any other ID in full. `update1` expects revision 1.

use crate::making::{agent, domain, domains, id, new_entry, selectors, text, uuid};
use entry_book::{
    DropMode, Filter, MatchMode, NewEntry, Op, PageQuery, SelectorMatch, Sequence, Shared,
};
use spiffe_name::SpiffeId;
use std::alloc::{AllocError, Global};
use std::test::Fail;
use test_support::if_done;
use uuid::Uuid;

fn words<'a>(alloc: Global, as_text: &'a str) -> Result<Vec<&'a str>, AllocError> {
    let mut words = Vec::new(alloc);
    for word in as_text.split_whitespace() {
        words.push(word)?;
    }
    Ok(words)
}

/// The word at an index from 0; the empty word after the last one.
fn word<'a>(words: &[&'a str], index: usize) -> &'a str {
    words.get(index).copied().unwrap_or("")
}

fn id_text(alloc: Global, word: &str) -> Result<String, AllocError> {
    if word.starts_with("/") {
        return format!(in alloc; "spiffe://ex.org{word}");
    }
    String::from_str(alloc, word)
}

fn shared_id(alloc: Global, word: &str) -> Result<Shared<SpiffeId>, Fail> {
    let text = id_text(alloc, word)?;
    id(alloc, text.as_str())
}

/// Sets the part of an entry that has this name.
fn set_part(alloc: Global, new: &mut NewEntry, name: &str, value: &str) -> Result<(), Fail> {
    match name {
        "id" => new.id = Uuid::from_u64_pair(0, value.parse::<u64>()?),
        "selectors" => new.selectors = selectors(alloc, value.parse::<u32>()?)?,
        "hint" => new.hint = text(alloc, value.parse::<usize>()?)?,
        "domains" => new.domains = domains(alloc, value.parse::<u32>()?)?,
        "expiry" => new.expiry = value.parse::<u64>()?,
        "x509" => new.x509_svid_ttl = value.parse::<u64>()?,
        "jwt" => new.jwt_svid_ttl = value.parse::<u64>()?,
        _ => return Err(Fail::from("no such part of an entry")),
    }
    Ok(())
}

/// Sets the parts of an entry that follow its identity in the text.
fn set_parts(alloc: Global, new: &mut NewEntry, words: &[&str]) -> Result<(), Fail> {
    for part in words.iter().skip(3) {
        let (name, value) = part.split_once('=').unwrap_or((part, ""));
        set_part(alloc, new, name, value)?;
    }
    Ok(())
}

/// An entry with the parent and the identity of the words, and otherwise the values of `new_entry`.
fn plain_entry(alloc: Global, words: &[&str]) -> Result<NewEntry, Fail> {
    let parent = id_text(alloc, word(words, 1))?;
    let identity = id_text(alloc, word(words, 2))?;
    new_entry(alloc, parent.as_str(), identity.as_str())
}

/// An entry with the parent, the identity and the other parts of the words.
fn entry(alloc: Global, words: &[&str]) -> Result<Shared<NewEntry>, Fail> {
    let mut new = plain_entry(alloc, words)?;
    let set = set_parts(alloc, &mut new, words);
    Ok(Shared::of(alloc, if_done(set, new)?)?)
}

/// The entry that the operation of a text creates.
pub fn created(alloc: Global, as_text: &str) -> Result<Shared<NewEntry>, Fail> {
    let words = words(alloc, as_text)?;
    entry(alloc, words.as_slice())
}

fn question(alloc: Global, count: &str, mode: MatchMode) -> Result<Option<SelectorMatch>, Fail> {
    let selectors = selectors(alloc, count.parse::<u32>()?)?;
    Ok(Some(SelectorMatch { selectors, mode }))
}

/// Sets the part of a page that has this name; the values of `any` and `exact` are numbers of selectors.
fn ask_for(alloc: Global, query: &mut PageQuery, name: &str, value: &str) -> Result<(), Fail> {
    match name {
        "at" => query.at = Some(value.parse::<u64>()?),
        "parent" => query.filter.parent = Some(shared_id(alloc, value)?),
        "identity" => query.filter.identity = Some(shared_id(alloc, value)?),
        "domain" => query.filter.domain = Some(domain(alloc, value)?),
        "any" => query.filter.selectors = question(alloc, value, MatchMode::Any)?,
        "exact" => query.filter.selectors = question(alloc, value, MatchMode::Exact)?,
        _ => return Err(Fail::from("no such part of a page")),
    }
    Ok(())
}

/// Sets the parts of a page that follow its size in the text.
fn ask_for_parts(alloc: Global, query: &mut PageQuery, words: &[&str]) -> Result<(), Fail> {
    for part in words.iter().skip(2) {
        let (name, value) = part.split_once('=').unwrap_or((part, ""));
        ask_for(alloc, query, name, value)?;
    }
    Ok(())
}

/// A page of a size and with the given parts. Without parts, it lists all entries of the last book.
fn page(alloc: Global, words: &[&str]) -> Result<Op, Fail> {
    let mut query = PageQuery {
        size: word(words, 1).parse::<u64>()?,
        at: None,
        from: None,
        filter: Filter {
            parent: None,
            identity: None,
            domain: None,
            selectors: None,
        },
    };
    let asked = ask_for_parts(alloc, &mut query, words);
    Ok(Op::Page(Shared::of(alloc, if_done(asked, query)?)?))
}

/// The revision that an operation expects: none if there is no word for it.
fn expected(word: &str) -> Result<Option<u64>, Fail> {
    if word.is_empty() {
        return Ok(None);
    }
    Ok(Some(word.parse::<u64>()?))
}

fn op_of_words(alloc: Global, words: &[&str]) -> Result<Op, Fail> {
    match word(words, 0) {
        "create" => Ok(Op::Create(entry(alloc, words)?)),
        "update" => Ok(Op::Update(entry(alloc, words)?, None)),
        "update1" => Ok(Op::Update(entry(alloc, words)?, Some(1))),
        "delete" => Ok(Op::Delete(uuid(), expected(word(words, 1))?)),
        "show" => Ok(Op::Show(uuid())),
        "prune" => Ok(Op::Prune(word(words, 1).parse::<u64>()?)),
        "page" => page(alloc, words),
        "set_agent" => {
            let count = word(words, 2).parse::<u32>()?;
            let id = id_text(alloc, word(words, 1))?;
            Ok(Op::SetAgent(agent(alloc, id.as_str(), count)?))
        }
        "show_bundle" | "set_bundle" | "drop_bundle" => op_of_bundle(alloc, words),
        kind => op_of_id(shared_id(alloc, word(words, 1))?, kind),
    }
}

/// An operation on the bundle of a trust domain, with a text of the given number of bytes. Without a mode, a drop is restricted.
fn op_of_bundle(alloc: Global, words: &[&str]) -> Result<Op, Fail> {
    let of = domain(alloc, word(words, 1))?;
    match (word(words, 0), word(words, 2)) {
        ("show_bundle", _) => Ok(Op::ShowBundle(of)),
        ("drop_bundle", "delete") => Ok(Op::DropBundle(of, DropMode::Delete)),
        ("drop_bundle", _) => Ok(Op::DropBundle(of, DropMode::Restrict)),
        (_, length) => Ok(Op::SetBundle(of, text(alloc, length.parse::<usize>()?)?)),
    }
}

fn op_of_id(id: Shared<SpiffeId>, kind: &str) -> Result<Op, Fail> {
    match kind {
        "drop_agent" => Ok(Op::DropAgent(id)),
        "show_agent" => Ok(Op::ShowAgent(id)),
        "children" => Ok(Op::Children(id)),
        "authorised" => Ok(Op::Authorised(id)),
        "trust" => Ok(Op::Trust(id)),
        _ => Err(Fail::from("no such operation")),
    }
}

/// The operation of a text.
pub fn op(alloc: Global, as_text: &str) -> Result<Op, Fail> {
    let words = words(alloc, as_text)?;
    op_of_words(alloc, words.as_slice())
}

/// Appends the operation of a text.
pub fn add(alloc: Global, ops: &mut Sequence<Op>, as_text: &str) -> Result<(), Fail> {
    ops.push(op(alloc, as_text)?)?;
    Ok(())
}

fn add_all(alloc: Global, ops: &mut Sequence<Op>, as_text: &str) -> Result<(), Fail> {
    let lines = as_text.replace(alloc, "; ", "\n")?;
    for line in lines.lines() {
        add(alloc, ops, line)?;
    }
    Ok(())
}

/// The operations of a text, which `; ` separates.
pub fn ops(alloc: Global, as_text: &str) -> Result<Sequence<Op>, Fail> {
    let mut ops = Sequence::empty(alloc);
    let added = add_all(alloc, &mut ops, as_text);
    if_done(added, ops)
}
