//! What does a batch carry besides its operations, and when are two batches' operations the same?

use crate::making::uuid;
use crate::ops_of_text::ops;
use crate::wanted::{holds, is_number, is_text};
use entry_book::{Batch, KeptBatch, Op, Sequence, Shared};
use spiffe_name::{Failure, TrustDomain};
use std::alloc::Global;
use std::process::Abort;
use std::test::Fail;
use test_support::copy;
use uuid::Uuid;

/// The code of the refusal of a text's batch and the index of the operation at fault, or `ok` and the number of the book that the
/// batch reads; 99 means none.
fn as_text(alloc: Global, batch: &str, token: Option<Uuid>) -> Result<(&'static str, u64), Fail> {
    let domain = TrustDomain::parse(alloc, "ex.org")?;
    let ops = ops(alloc, batch)?;
    match Batch::new(alloc, &domain, ops, 0, token) {
        Ok(batch) => Ok(("ok", batch.past_place().unwrap_or(99))),
        Err(Failure::Refused(refusal)) => {
            Ok((refusal.code(), refusal.op().unwrap_or(99) as u64))
        }
        Err(Failure::NoMemory) => Err(Fail::from("no memory")),
    }
}

/// Checks a line: a code, a number, a colon, and the batch that gets them from `as_text`.
fn is_as_text(rt: &impl Abort, alloc: Global, line: &str, token: Option<Uuid>) -> Result<(), Fail> {
    let (expected, batch) = line.split_once(": ").unwrap_or((line, ""));
    let (code, number) = expected.split_once(' ').unwrap_or((expected, ""));
    let number = number.parse::<u64>()?;
    let (got, at) = as_text(alloc, batch, token)?;
    is_text(rt, got, code, line);
    is_number(rt, at, number, line);
    Ok(())
}

const PAGES_OF_BOOKS: &str = "\
ok 99: page 1
ok 0: page 1 at=0
B13 1: show; page 1 at=7
B9 1: page 1 at=7; page 501
";

#[test]
fn a_page_of_an_earlier_book_is_alone(rt: HostRuntime) -> Result<(), Fail> {
    for line in PAGES_OF_BOOKS.lines() {
        is_as_text(&rt, rt.alloc(), line, None)?;
    }
    Ok(())
}

const WITH_A_TOKEN: &str = "\
B14 99: show
ok 99: show; prune 1
B13 0: page 1 at=7; page 1 at=8
B14 99: page 1 at=7
";

#[test]
fn a_token_is_for_changes(rt: HostRuntime) -> Result<(), Fail> {
    for line in WITH_A_TOKEN.lines() {
        is_as_text(&rt, rt.alloc(), line, Some(uuid()))?;
    }
    Ok(())
}

/// A sequence of this item alone.
fn one<T: Drop>(alloc: Global, item: T) -> Result<Sequence<T>, Fail> {
    let mut items = Sequence::empty(alloc);
    items.push(item)?;
    Ok(items)
}

#[test]
fn a_batch_carries_what_it_was_given(rt: HostRuntime) -> Result<(), Fail> {
    let alloc = rt.alloc();
    let domain = TrustDomain::parse(alloc, "ex.org")?;
    let ops = one(alloc, Op::Prune(5))?;
    let batch = copy(Batch::new(alloc, &domain, ops, 6, Some(uuid()))?)?;
    is_number(&rt, batch.after(), 6, "after");
    holds(&rt, batch.token() == Some(uuid()), "token");
    let count = batch.shared_ops().get().as_slice().len();
    is_number(&rt, count as u64, 1, "operations");
    holds(&rt, batch.past_place() == None, "the place of a book");
    Ok(())
}

// ---- the same operations

fn kept(alloc: Global, ops: Sequence<Op>) -> Result<KeptBatch, Fail> {
    let ops = Shared::of(alloc, ops)?;
    let replies = Shared::of(alloc, Sequence::empty(alloc))?;
    Ok(KeptBatch {
        token: uuid(),
        ops,
        place: 1,
        replies,
    })
}

/// Copies of the operations of a text.
fn copies(alloc: Global, as_text: &str) -> Result<Sequence<Op>, Fail> {
    copy(ops(alloc, as_text)?)
}

/// Returns true if a stored batch has the operations of a text.
fn has_ops(alloc: Global, kept: &KeptBatch, as_text: &str) -> Result<bool, Fail> {
    let ops = copies(alloc, as_text)?;
    Ok(kept.has_ops(ops.as_slice()))
}

/// Returns true if a stored batch of the operations of one text has those of another text.
fn is_same(alloc: Global, as_text: &str, other: &str) -> Result<bool, Fail> {
    let kept = kept(alloc, copies(alloc, as_text)?)?;
    has_ops(alloc, &kept, other)
}

/// Asserts that an operation equals one of the same text, and differs from the one after the bar.
fn compare(rt: &impl Abort, alloc: Global, line: &str) -> Result<(), Fail> {
    let (as_text, other) = line.split_once(" | ").unwrap_or((line, line));
    holds(rt, is_same(alloc, as_text, as_text)?, as_text);
    holds(rt, !is_same(alloc, as_text, other)?, line);
    holds(rt, !is_same(alloc, other, as_text)?, line);
    Ok(())
}

/// Asserts for each line that the first operation equals itself and differs from the other one.
fn compare_lines(rt: &impl Abort, alloc: Global, table: &str) -> Result<(), Fail> {
    for line in table.lines() {
        compare(rt, alloc, line)?;
    }
    Ok(())
}

const PARTS: &str = "\
create /spire/agent/n1 /web | create /web /web
create /spire/agent/n1 /web | create /spire/agent/n1 /spire/agent/n1
create /spire/agent/n1 /web | create /spire/agent/n1 /web id=0
create /spire/agent/n1 /web | create /spire/agent/n1 /web expiry=98
";

#[test]
fn each_part_of_an_entry_is_compared(rt: HostRuntime) -> Result<(), Fail> {
    compare_lines(&rt, rt.alloc(), PARTS)
}

const TEXTS: &str = "\
create /spire/agent/n1 /web | create /spire/agent/n1 /web selectors=2
create /spire/agent/n1 /web | create /spire/agent/n1 /web hint=1
create /spire/agent/n1 /web | create /spire/agent/n1 /web domains=1
";

#[test]
fn each_text_of_an_entry_is_compared(rt: HostRuntime) -> Result<(), Fail> {
    compare_lines(&rt, rt.alloc(), TEXTS)
}

const LIFETIMES: &str = "\
create /spire/agent/n1 /web | create /spire/agent/n1 /web x509=1 jwt=300
create /spire/agent/n1 /web | create /spire/agent/n1 /web x509=3600 jwt=1
";

#[test]
fn each_lifetime_of_an_entry_is_compared(rt: HostRuntime) -> Result<(), Fail> {
    compare_lines(&rt, rt.alloc(), LIFETIMES)
}

const REVISIONS: &str = "\
delete | delete 0
show | delete
update1 /spire/agent/n1 /web | update /spire/agent/n1 /web
update /spire/agent/n1 /web | create /spire/agent/n1 /web
prune 1 | prune 2
";

/// An expected revision matters, even if it is the one that would be found.
#[test]
fn revisions_and_kinds_are_compared(rt: HostRuntime) -> Result<(), Fail> {
    compare_lines(&rt, rt.alloc(), REVISIONS)
}

const CHANGES_OF_AGENTS: &str = "\
set_agent /spire/agent/n1 1 | set_agent /spire/agent/n1 2
drop_agent /spire/agent/n1 | drop_agent /web
";

#[test]
fn changes_of_agents_are_compared(rt: HostRuntime) -> Result<(), Fail> {
    compare_lines(&rt, rt.alloc(), CHANGES_OF_AGENTS)
}

const QUESTIONS_OF_AGENTS: &str = "\
show_agent /spire/agent/n1 | show_agent /web
children /spire/agent/n1 | children /web
authorised /spire/agent/n1 | authorised /web
trust /spire/agent/n1 | trust /web
";

#[test]
fn questions_of_agents_are_compared(rt: HostRuntime) -> Result<(), Fail> {
    compare_lines(&rt, rt.alloc(), QUESTIONS_OF_AGENTS)
}

const ON_BUNDLES: &str = "\
set_bundle b 1 | set_bundle c 1
set_bundle b 1 | set_bundle b 2
show_bundle b | show_bundle c
drop_bundle b restrict | drop_bundle c restrict
drop_bundle b delete | drop_bundle b restrict
";

#[test]
fn operations_on_bundles_are_compared(rt: HostRuntime) -> Result<(), Fail> {
    compare_lines(&rt, rt.alloc(), ON_BUNDLES)
}

const PAGES: &str = "\
page 1 | page 2
page 1 at=1 | page 1 at=2
page 1 any=1 | page 1
";

#[test]
fn pages_are_compared(rt: HostRuntime) -> Result<(), Fail> {
    compare_lines(&rt, rt.alloc(), PAGES)
}

const QUESTIONS_TO_SELECTORS: &str = "\
page 1 any=1 | page 1 any=2
page 1 any=1 | page 1 exact=1
";

#[test]
fn questions_to_selectors_are_compared(rt: HostRuntime) -> Result<(), Fail> {
    compare_lines(&rt, rt.alloc(), QUESTIONS_TO_SELECTORS)
}

/// Operations in another order, or fewer of them, are different.
#[test]
fn order_and_count_are_compared(rt: HostRuntime) -> Result<(), Fail> {
    let alloc = rt.alloc();
    let as_text = "prune 1; prune 2";
    let is_turned = is_same(alloc, as_text, "prune 2; prune 1")?;
    holds(&rt, !is_turned, "turned");
    let is_first = is_same(alloc, as_text, "prune 1")?;
    holds(&rt, !is_first, "the first alone");
    Ok(())
}
