//! Tables of texts: which are names, and what is the first fault of each other one?

use crate::wanted::is_text;
use spiffe_name::{Failure, Selector, SpiffeId, TrustDomain};
use std::alloc::Global;
use std::process::Abort;
use std::test::Fail;

/// Returns the code of the refusal of a text as an ID, or `ok`; then also checks the text of the parsed ID.
fn id_fault(rt: &impl Abort, alloc: Global, text: &str) -> Result<&'static str, Fail> {
    match SpiffeId::parse(alloc, text) {
        Ok(id) => {
            is_text(rt, id.as_str(), text, "the text of an ID");
            Ok("ok")
        }
        Err(Failure::Refused(refusal)) => Ok(refusal.code()),
        Err(Failure::NoMemory) => Err(Fail::from("no memory")),
    }
}

fn domain_fault(rt: &impl Abort, alloc: Global, text: &str) -> Result<&'static str, Fail> {
    match TrustDomain::parse(alloc, text) {
        Ok(domain) => {
            is_text(rt, domain.as_str(), text, "the text of a trust domain");
            Ok("ok")
        }
        Err(Failure::Refused(refusal)) => Ok(refusal.code()),
        Err(Failure::NoMemory) => Err(Fail::from("no memory")),
    }
}

fn selector_fault(rt: &impl Abort, alloc: Global, text: &str) -> Result<&'static str, Fail> {
    match Selector::parse(alloc, text) {
        Ok(selector) => {
            is_text(rt, selector.as_str(), text, "the text of a selector");
            Ok("ok")
        }
        Err(Failure::Refused(refusal)) => Ok(refusal.code()),
        Err(Failure::NoMemory) => Err(Fail::from("no memory")),
    }
}

/// Returns the code of the refusal of a text as a name of this kind, or `ok`.
fn fault(rt: &impl Abort, alloc: Global, kind: &str, text: &str) -> Result<&'static str, Fail> {
    match kind {
        "ID" => id_fault(rt, alloc, text),
        "trust domain" => domain_fault(rt, alloc, text),
        "selector" => selector_fault(rt, alloc, text),
        _ => Err(Fail::from("no such kind of name")),
    }
}

/// Expands `START*COUNT PIECE` to the start and that many copies of the piece. A text without a star stays as it is.
fn text_of(alloc: Global, as_text: &str) -> Result<String, Fail> {
    let (start, pieces) = as_text.split_once('*').unwrap_or((as_text, "0 "));
    let (count, piece) = pieces.split_once(' ').unwrap_or((pieces, ""));
    let pieces = piece.repeat(alloc, count.parse::<usize>()?)?;
    Ok(format!(in alloc; "{start}{pieces}")?)
}

fn check_line(rt: &impl Abort, alloc: Global, kind: &str, line: &str) -> Result<(), Fail> {
    let (code, as_text) = line.split_once(' ').unwrap_or((line, ""));
    let text = text_of(alloc, as_text)?;
    is_text(rt, fault(rt, alloc, kind, text.as_str())?, code, line);
    Ok(())
}

/// Checks a table. Each line has a code and a text, which gets this code as a name of this kind. A line with a code alone
/// is about the empty text.
pub(crate) fn check(rt: &impl Abort, alloc: Global, kind: &str, table: &str) -> Result<(), Fail> {
    for line in table.lines() {
        check_line(rt, alloc, kind, line)?;
    }
    Ok(())
}
