//! Which lists of operations are a batch, at each boundary.

use crate::ops_of_text::{add, op, ops};
use crate::wanted::{holds, is_number, is_text};
use entry_book::{Batch, BatchRefusal, Op, Sequence};
use spiffe_name::{Failure, TrustDomain};
use std::alloc::Global;
use std::process::Abort;
use std::test::Fail;
use test_support::{copy, if_done};

/// The number of operations of a copy of the batch.
fn count_in_copy(batch: Batch) -> Result<usize, Fail> {
    let copied = copy(batch)?;
    Ok(copied.ops().len())
}

/// The code of a batch's refusal and the index of the operation at fault, or `ok` and the number of operations of a copy.
fn fault(
    alloc: Global,
    domain: &TrustDomain,
    ops: Sequence<Op>,
) -> Result<(&'static str, usize), Fail> {
    match Batch::new(alloc, domain, ops, 0, None) {
        Ok(batch) => Ok(("ok", count_in_copy(batch)?)),
        Err(Failure::Refused(refusal)) => Ok((refusal.code(), refusal.op().unwrap_or(99))),
        Err(Failure::NoMemory) => Err(Fail::from("no memory")),
    }
}

/// The result of `fault` for the batch of a text.
fn fault_text(alloc: Global, as_text: &str) -> Result<(&'static str, usize), Fail> {
    let domain = TrustDomain::parse(alloc, "ex.org")?;
    fault(alloc, &domain, ops(alloc, as_text)?)
}

/// Asserts the code and the number of a batch.
fn is_fault(rt: &impl Abort, (got, at): (&str, usize), (code, number): (&str, u64)) {
    is_text(rt, got, code, "code");
    is_number(rt, at as u64, number, code);
}

/// Asserts that the code at the start of the line is that of the batch with the one operation after it.
fn check_line(rt: &impl Abort, alloc: Global, line: &str) -> Result<(), Fail> {
    let (code, as_text) = line.split_once(' ').unwrap_or((line, ""));
    let (got, _) = fault_text(alloc, as_text)?;
    is_text(rt, got, code, line);
    Ok(())
}

/// Checks each line of the table: a code, and the one operation of a batch that gets it.
pub fn check(rt: &impl Abort, alloc: Global, table: &str) -> Result<(), Fail> {
    for line in table.lines() {
        check_line(rt, alloc, line)?;
    }
    Ok(())
}

const QUESTION: &str = "authorised /spire/agent/n1";

fn add_questions(alloc: Global, ops: &mut Sequence<Op>, count: u64) -> Result<(), Fail> {
    for _ in 0..count {
        add(alloc, ops, QUESTION)?;
    }
    Ok(())
}

/// The given number of equal queries.
fn questions(alloc: Global, count: u64) -> Result<Sequence<Op>, Fail> {
    let mut ops = Sequence::empty(alloc);
    let added = add_questions(alloc, &mut ops, count);
    if_done(added, ops)
}

/// The result of `fault` for a batch of the given number of queries.
fn fault_of_questions(alloc: Global, count: u64) -> Result<(&'static str, usize), Fail> {
    let domain = TrustDomain::parse(alloc, "ex.org")?;
    fault(alloc, &domain, questions(alloc, count)?)
}

/// Asserts the code and the number of a batch with the given number of queries.
fn counts(
    rt: &impl Abort,
    alloc: Global,
    count: u64,
    fault_of_count: (&str, u64),
) -> Result<(), Fail> {
    is_fault(rt, fault_of_questions(alloc, count)?, fault_of_count);
    Ok(())
}

#[test]
fn a_batch_has_1_to_64_operations(rt: HostRuntime) -> Result<(), Fail> {
    let alloc = rt.alloc();
    counts(&rt, alloc, 0, ("B1", 99))?;
    counts(&rt, alloc, 1, ("ok", 1))?;
    counts(&rt, alloc, 64, ("ok", 64))?;
    counts(&rt, alloc, 65, ("B2", 99))?;
    let too_many = BatchRefusal::TooManyOps.op();
    holds(&rt, too_many == None, "no operation is too many");
    Ok(())
}

const SECOND_IS_FAULTY: &str = "\
authorised /spire/agent/n1; \
create /spire/agent/n1 /spire/server hint=1025 selectors=0; \
authorised spiffe://b.org/spire/agent/n1";

#[test]
fn the_first_operations_least_fault_is_reported(rt: HostRuntime) -> Result<(), Fail> {
    is_fault(&rt, fault_text(rt.alloc(), SECOND_IS_FAULTY)?, ("B5", 1));
    Ok(())
}

fn add_behind_a_question(alloc: Global, ops: &mut Sequence<Op>, as_text: &str) -> Result<(), Fail> {
    add(alloc, ops, QUESTION)?;
    add(alloc, ops, as_text)
}

/// A query, and the operation of a text after it.
fn behind_a_question(alloc: Global, as_text: &str) -> Result<Sequence<Op>, Fail> {
    let mut ops = Sequence::empty(alloc);
    let added = add_behind_a_question(alloc, &mut ops, as_text);
    if_done(added, ops)
}

/// A copy of the batch of a query and the operation of a text.
fn batch_behind_a_question(alloc: Global, as_text: &str) -> Result<Batch, Fail> {
    let own_domain = TrustDomain::parse(alloc, "ex.org")?;
    let ops = behind_a_question(alloc, as_text)?;
    copy(Batch::new(alloc, &own_domain, ops, 0, None)?)
}

fn op_is_question(alloc: Global, as_text: &str) -> Result<bool, Fail> {
    let op = op(alloc, as_text)?;
    Ok(op.is_question())
}

/// Asserts whether the operation is read-only, and that a batch of a query and this operation is so too.
fn asks(rt: &impl Abort, alloc: Global, as_text: &str, is_question: bool) -> Result<(), Fail> {
    let is_question_text = op_is_question(alloc, as_text)?;
    holds(rt, is_question_text == is_question, as_text);
    let batch = batch_behind_a_question(alloc, as_text)?;
    holds(rt, batch.is_query() == is_question, as_text);
    is_text(rt, batch.domain().as_str(), "ex.org", as_text);
    Ok(())
}

const QUESTIONS: &str = "\
show
show_agent /spire/agent/n1
show_bundle ex.org
children /spire/agent/n1
page 500
authorised /spire/agent/n1
trust /spire/agent/n1
";

#[test]
fn batches_of_questions_are_queries(rt: HostRuntime) -> Result<(), Fail> {
    for question in QUESTIONS.lines() {
        asks(&rt, rt.alloc(), question, true)?;
    }
    Ok(())
}

const CHANGES: &str = "\
create /spire/agent/n1 /web
update /spire/agent/n1 /web
delete
prune 0
set_agent /spire/agent/n1 0
drop_agent /spire/agent/n1
set_bundle d100 0
drop_bundle d100 delete
";

#[test]
fn batches_with_a_change_are_no_queries(rt: HostRuntime) -> Result<(), Fail> {
    for change in CHANGES.lines() {
        asks(&rt, rt.alloc(), change, false)?;
    }
    Ok(())
}

const IDS_OF_ENTRIES: &str = "\
ok create /spire/agent/n1 /web
ok create /spire/server /web
B3 create spiffe://b.org/spire/agent/n1 /web
B3 create /spire/agent/n1 spiffe://b.org/spire/agent/n1
B3 create spiffe://ex.org.b/x spiffe://ex.org
B4 create spiffe://ex.org /web
B4 create /spire/agent/n1 spiffe://ex.org
B5 create /spire/agent/n1 /spire/server
ok create /spire/agent/n1 /spire/server/x
ok create /spire/agent/n1 /spire
";

#[test]
fn ids_of_entries_at_their_boundaries(rt: HostRuntime) -> Result<(), Fail> {
    check(&rt, rt.alloc(), IDS_OF_ENTRIES)
}

const IDS_OF_AGENTS: &str = "\
ok authorised /spire/agent/n1
ok set_agent /spire/agent/n1 0
ok show_agent /spire/agent/n1
ok trust /spire/agent/n1
ok drop_agent /spire/agent/n1
ok authorised /spire/agent/n/1
ok set_agent /spire/agent/n/1 0
ok show_agent /spire/agent/n/1
ok trust /spire/agent/n/1
ok drop_agent /spire/agent/n/1
B3 authorised spiffe://b.org/spire/agent/n1
B3 set_agent spiffe://b.org/spire/agent/n1 0
B3 show_agent spiffe://b.org/spire/agent/n1
B3 trust spiffe://b.org/spire/agent/n1
B3 drop_agent spiffe://b.org/spire/agent/n1
B10 authorised /spire/agent
B10 set_agent /spire/agent 0
B10 show_agent /spire/agent
B10 trust /spire/agent
B10 drop_agent /spire/agent
B10 authorised /spire/agents/n1
B10 set_agent /spire/agents/n1 0
B10 show_agent /spire/agents/n1
B10 trust /spire/agents/n1
B10 drop_agent /spire/agents/n1
B10 authorised /x/spire/agent/n1
B10 set_agent /x/spire/agent/n1 0
B10 show_agent /x/spire/agent/n1
B10 trust /x/spire/agent/n1
B10 drop_agent /x/spire/agent/n1
B10 authorised spiffe://ex.org
B10 set_agent spiffe://ex.org 0
B10 show_agent spiffe://ex.org
B10 trust spiffe://ex.org
B10 drop_agent spiffe://ex.org
";

#[test]
fn ids_of_agents_at_their_boundaries(rt: HostRuntime) -> Result<(), Fail> {
    check(&rt, rt.alloc(), IDS_OF_AGENTS)
}

const PARENTS: &str = "\
ok children /spire/agent/n1
ok children /spire/server
B3 children spiffe://b.org/spire/agent/n1
B4 children spiffe://ex.org
";

#[test]
fn parents_at_their_boundaries(rt: HostRuntime) -> Result<(), Fail> {
    check(&rt, rt.alloc(), PARENTS)
}

const BUNDLES: &str = "\
ok show_bundle ex.org
B11 set_bundle ex.org 65537
ok set_bundle d100 65536
B12 set_bundle d100 65537
B11 drop_bundle ex.org delete
ok drop_bundle d100 delete
";

#[test]
fn bundles_at_their_boundaries(rt: HostRuntime) -> Result<(), Fail> {
    check(&rt, rt.alloc(), BUNDLES)
}

const COUNTS: &str = "\
B6 create /spire/agent/n1 /web selectors=0 domains=0 hint=0
B6 update /spire/agent/n1 /web selectors=0 domains=0 hint=0
ok create /spire/agent/n1 /web selectors=1 domains=0 hint=0
ok update /spire/agent/n1 /web selectors=1 domains=0 hint=0
ok create /spire/agent/n1 /web selectors=16 domains=8 hint=1024
ok update /spire/agent/n1 /web selectors=16 domains=8 hint=1024
B6 create /spire/agent/n1 /web selectors=17 domains=9 hint=1025
B6 update /spire/agent/n1 /web selectors=17 domains=9 hint=1025
B7 create /spire/agent/n1 /web selectors=16 domains=9 hint=1025
B7 update /spire/agent/n1 /web selectors=16 domains=9 hint=1025
B8 create /spire/agent/n1 /web selectors=16 domains=8 hint=1025
B8 update /spire/agent/n1 /web selectors=16 domains=8 hint=1025
ok set_agent /spire/agent/n1 0
ok set_agent /spire/agent/n1 64
B6 set_agent /spire/agent/n1 65
";

#[test]
fn counts_at_their_boundaries(rt: HostRuntime) -> Result<(), Fail> {
    check(&rt, rt.alloc(), COUNTS)
}
