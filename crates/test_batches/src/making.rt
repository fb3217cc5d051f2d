//! Batches from the words of a text. They are of `ex.org`: an ID is written as its path, and that of an agent as its name alone.

use crate::failed::Failed;
use entry_book::{
    Agent, Batch, DomainSet, DropMode, Filter, NewEntry, Op, PageQuery, Sequence, Shared, Text,
};
use spiffe_name::{Selector, SelectorSet, SpiffeId, TrustDomain};
use std::alloc::Global;
use uuid::Uuid;

/// Returns the words of a line, which spaces separate.
pub fn words<'a>(alloc: Global, line: &'a str) -> Result<Vec<&'a str>, Failed> {
    let mut words = Vec::new(alloc);
    for word in line.split_whitespace() {
        words.push(word)?;
    }
    Ok(words)
}

/// Returns the word at an index from 0; the empty word after the last one.
pub fn word<'a>(words: &[&'a str], index: usize) -> &'a str {
    words.get(index).copied().unwrap_or("")
}

/// Returns the number in the word at an index from 0.
pub fn number(words: &[&str], index: usize) -> Result<u64, Failed> {
    Ok(word(words, index).parse::<u64>()?)
}

/// Returns the number in a word, or none for `-`.
fn given_number(words: &[&str], index: usize) -> Result<Option<u64>, Failed> {
    if word(words, index) == "-" {
        return Ok(None);
    }
    Ok(Some(number(words, index)?))
}

/// Returns the UUID whose last bytes are this number.
fn uuid(words: &[&str], index: usize) -> Result<Uuid, Failed> {
    Ok(Uuid::from_u64_pair(0, number(words, index)?))
}

fn id_text(alloc: Global, word: &str) -> Result<String, Failed> {
    if word.starts_with("/") {
        return Ok(format!(in alloc; "spiffe://ex.org{word}")?);
    }
    Ok(format!(in alloc; "spiffe://ex.org/spire/agent/{word}")?)
}

fn id(alloc: Global, word: &str) -> Result<Shared<SpiffeId>, Failed> {
    let text = id_text(alloc, word)?;
    Ok(Shared::of(alloc, SpiffeId::parse(alloc, text.as_str())?)?)
}

/// Returns the trust domain of a name. It has no contract, so that callers' proofs don't evaluate the grammar on a literal.
pub fn trust_domain(alloc: Global, name: &str) -> Result<TrustDomain, Failed> {
    Ok(TrustDomain::parse(alloc, name)?)
}

fn domain(alloc: Global, name: &str) -> Result<Shared<TrustDomain>, Failed> {
    Ok(Shared::of(alloc, trust_domain(alloc, name)?)?)
}

/// Returns the selectors in a word, which commas separate; none for `-`.
fn selectors(alloc: Global, word: &str) -> Result<Shared<SelectorSet>, Failed> {
    let spaced = word.replace(alloc, ",", " ")?;
    let mut selectors = Vec::new(alloc);
    for text in spaced.split_whitespace() {
        if text != "-" {
            selectors.push(Selector::parse(alloc, text)?)?;
        }
    }
    Ok(Shared::of(alloc, SelectorSet::of(selectors)?)?)
}

fn domains(alloc: Global, words: &[&str]) -> Result<DomainSet, Failed> {
    let mut domains = Vec::new(alloc);
    for name in words.iter().skip(6) {
        domains.push(TrustDomain::parse(alloc, name)?)?;
    }
    Ok(DomainSet::of(alloc, domains)?)
}

fn text(alloc: Global) -> Result<Shared<Text>, Failed> {
    Ok(Shared::of(alloc, Text::of(String::new(alloc)))?)
}

fn hint(alloc: Global, word: &str) -> Result<Shared<Text>, Failed> {
    let text = String::from_str(alloc, word)?;
    Ok(Shared::of(alloc, Text::of(text))?)
}

/// Returns an entry from its number, parent, identity, selectors, expiry and domains. Its hint and its lifetimes are
/// derived from these.
fn entry(alloc: Global, words: &[&str]) -> Result<Shared<NewEntry>, Failed> {
    let expiry = number(words, 5)?;
    let parent = id(alloc, word(words, 2))?;
    let identity = id(alloc, word(words, 3))?;
    let selectors = selectors(alloc, word(words, 4))?;
    let hint = hint(alloc, word(words, 3))?;
    let domains = domains(alloc, words)?;
    let new = NewEntry {
        id: uuid(words, 1)?,
        parent,
        identity,
        selectors,
        hint,
        domains,
        expiry,
        x509_svid_ttl: expiry.wrapping_mul(60),
        jwt_svid_ttl: expiry.wrapping_mul(5),
    };
    Ok(Shared::of(alloc, new)?)
}

/// Returns an agent from its name and its selectors.
fn agent(alloc: Global, words: &[&str]) -> Result<Agent, Failed> {
    let selectors = selectors(alloc, word(words, 2))?;
    Ok(Agent {
        id: id(alloc, word(words, 1))?,
        selectors,
    })
}

/// Returns a page from its size, the number of the book that it reads, and the number of the entry after which it begins.
fn page(alloc: Global, words: &[&str]) -> Result<Op, Failed> {
    let filter = Filter {
        parent: None,
        identity: None,
        domain: None,
        selectors: None,
    };
    let query = PageQuery {
        size: number(words, 1)?,
        at: given_number(words, 2)?,
        from: given_number(words, 3)?.map(|number| Uuid::from_u64_pair(0, number)),
        filter,
    };
    Ok(Op::Page(Shared::of(alloc, query)?))
}

fn mode(word: &str) -> DropMode {
    match word {
        "delete" => DropMode::Delete,
        "dissociate" => DropMode::Dissociate,
        _ => DropMode::Restrict,
    }
}

/// Returns the operation of a line. One whose name ends in 0 expects revision 0.
fn op(alloc: Global, words: &[&str]) -> Result<Op, Failed> {
    Ok(match word(words, 0) {
        "create" => Op::Create(entry(alloc, words)?),
        "update" => Op::Update(entry(alloc, words)?, None),
        "update0" => Op::Update(entry(alloc, words)?, Some(0)),
        "delete" => Op::Delete(uuid(words, 1)?, None),
        "delete0" => Op::Delete(uuid(words, 1)?, Some(0)),
        "show" => Op::Show(uuid(words, 1)?),
        "prune" => Op::Prune(number(words, 1)?),
        "page" => page(alloc, words)?,
        "set_agent" => Op::SetAgent(agent(alloc, words)?),
        kind => other_op(alloc, words, kind)?,
    })
}

fn other_op(alloc: Global, words: &[&str], kind: &str) -> Result<Op, Failed> {
    Ok(match kind {
        "set_bundle" => Op::SetBundle(domain(alloc, word(words, 1))?, text(alloc)?),
        "drop_bundle" => {
            let mode = mode(word(words, 2));
            Op::DropBundle(domain(alloc, word(words, 1))?, mode)
        }
        "show_bundle" => Op::ShowBundle(domain(alloc, word(words, 1))?),
        kind => op_of_id(id(alloc, word(words, 1))?, kind)?,
    })
}

fn op_of_id(id: Shared<SpiffeId>, kind: &str) -> Result<Op, Failed> {
    Ok(match kind {
        "drop_agent" => Op::DropAgent(id),
        "show_agent" => Op::ShowAgent(id),
        "children" => Op::Children(id),
        "authorised" => Op::Authorised(id),
        "trust" => Op::Trust(id),
        _ => return Err(Failed::NotRead),
    })
}

/// Returns the number after this word, in the first line that begins with it.
pub fn number_behind(alloc: Global, lines: &str, first: &str) -> Result<Option<u64>, Failed> {
    for line in lines.lines() {
        let words = words(alloc, line)?;
        if word(words.as_slice(), 0) == first {
            return Ok(Some(number(words.as_slice(), 1)?));
        }
    }
    Ok(None)
}

/// Returns the operations of all lines that don't begin with `token` or `after`.
fn ops_of(alloc: Global, lines: &str) -> Result<Sequence<Op>, Failed> {
    let mut ops = Sequence::empty(alloc);
    for line in lines.lines() {
        if !line.starts_with("token ") && !line.starts_with("after ") {
            ops.push(op(alloc, words(alloc, line)?.as_slice())?)?;
        }
    }
    Ok(ops)
}

/// Returns the batch of a text: its token, `token 7`, and its minimum place, `after 1`, if they are given, and its
/// operations, which `; ` separates.
pub fn batch(alloc: Global, text: &str) -> Result<Batch, Failed> {
    let lines = text.replace(alloc, "; ", "\n")?;
    let token = number_behind(alloc, lines.as_str(), "token")?;
    let after = number_behind(alloc, lines.as_str(), "after")?;
    let ops = ops_of(alloc, lines.as_str())?;
    let domain = trust_domain(alloc, "ex.org")?;
    let token = token.map(|number| Uuid::from_u64_pair(0, number));
    Ok(Batch::new(alloc, &domain, ops, after.unwrap_or(0), token)?)
}
