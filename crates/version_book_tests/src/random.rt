//! Random operations on few rows: every mark reads what plain lists have, and reports whether it is unchanged.

use crate::draws::batch_text;
use crate::listed::{Listed, as_text, own_mark};
use crate::marks::mark_of;
use crate::playing::{Step, first_step, go_on, number_of};
use crate::rows::{asked_text, read_text, read_up_to, through_text};
use crate::wanted::{holds, is_text};
use std::alloc::{AllocError, Global};
use std::process::Abort;
use std::test::Fail;
use test_batches::{number, word, words};
use test_support::{add, if_done, pair_with};
use version_book::{Changes, Mark, Version};

const MARKS: &str = "\
entry 1
entry 2
entry 3
entry 4
entry 5
entry 6
entry 7
group /a /a
group /a /x
group /ab /a
group /ab /x
group /x /a
group /x /x
children /a
children /ab
children /x
children /y
users d1
users d2
users d3
users ex.org
expiring 0
expiring 1
expiring 2
expiring 3
expiring 4
all
agent /spire/agent/m
agent /spire/agent/n
bundle d1
bundle d2
bundle d3
token 1
token 2
token 3
token 101
";

/// A mark, and its words between bars.
#[derive(Drop)]
struct NamedMark {
    name: String,
    mark: Mark,
}

fn between_bars(alloc: Global, words: &str) -> Result<String, AllocError> {
    format!(in alloc; "|{words}|")
}

fn named_mark(alloc: Global, line: &str) -> Result<NamedMark, Fail> {
    let name = between_bars(alloc, line)?;
    let mark = mark_of(alloc, line)?;
    Ok(NamedMark { name, mark })
}

fn add_named_marks(alloc: Global, marks: &mut Vec<NamedMark>) -> Result<(), Fail> {
    for line in MARKS.lines() {
        add(marks, named_mark(alloc, line)?)?;
    }
    Ok(())
}

fn all_marks(alloc: Global) -> Result<Vec<NamedMark>, Fail> {
    let mut marks = Vec::new(alloc);
    let added = add_named_marks(alloc, &mut marks);
    if_done(added, marks)
}

/// Runs random batches until there are this many versions after the first.
fn go_on_to(alloc: Global, steps: &mut Vec<Step>, seed: u64, count: usize) -> Result<(), Fail> {
    let mut state = seed;
    for _ in 0..100_000 {
        if steps.len() > count {
            break;
        }
        let text = batch_text(alloc, &mut state)?;
        go_on(alloc, steps, text.as_str())?;
    }
    Ok(())
}

fn versions(alloc: Global, seed: u64, count: usize) -> Result<Vec<Step>, Fail> {
    let mut steps = first_step(alloc)?;
    let gone_on = go_on_to(alloc, &mut steps, seed, count);
    if_done(gone_on, steps)
}

/// A history of this many versions after the first, and all marks.
fn history(alloc: Global, seed: u64, count: usize) -> Result<(Vec<Step>, Vec<NamedMark>), Fail> {
    let steps = versions(alloc, seed, count)?;
    pair_with(steps, all_marks(alloc))
}

/// Operations that must occur as a batch of their own, each with the number of rows that it must write at least.
const COMING: &str = "\
1 create
1 update
1 delete
1 prune
1 set_agent
1 drop_agent
1 set_bundle
1 drop_bundle restrict
2 drop_bundle delete
2 drop_bundle dissociate
";

/// The operations of a batch, without its token.
fn without_token(batch: &str) -> &str {
    if !batch.starts_with("token") {
        return batch;
    }
    match batch.split_once("; ") {
        Some((_, ops)) => ops,
        None => batch,
    }
}

/// Returns true if the batch was one operation of this kind, in this mode, and wrote at least `least` rows.
fn is_alone(step: &Step, (kind, mode): (&str, &str), least: u64) -> bool {
    let ops = without_token(step.batch.as_str());
    !ops.contains(";")
        && ops.starts_with(kind)
        && ops.contains(mode)
        && step.changes.len() as u64 >= least
}

fn has_come(alloc: Global, steps: &[Step], line: &str) -> Result<bool, Fail> {
    let words = words(alloc, line)?;
    let least = number(words.as_slice(), 0)?;
    let op = (word(words.as_slice(), 1), word(words.as_slice(), 2));
    for step in steps {
        if is_alone(step, op, least) {
            return Ok(true);
        }
    }
    Ok(false)
}

/// Asserts that every operation occurred alone and wrote something, and that each mode of dropping a bundle that affects
/// users had some.
fn every_operation_came(rt: &impl Abort, alloc: Global, steps: &[Step]) -> Result<(), Fail> {
    for line in COMING.lines() {
        holds(rt, has_come(alloc, steps, line)?, line);
    }
    Ok(())
}

/// Asserts that the version reads these rows at the mark, and returns them if they are read by name.
fn reads(
    rt: &impl Abort,
    alloc: Global,
    version: &Version,
    mark: &Mark,
    (expected, at): (&str, &str),
) -> Result<(), Fail> {
    let got = read_text(alloc, version, mark)?;
    is_text(rt, got.as_str(), expected, at);
    let asked = asked_text(alloc, version, mark)?;
    is_text(rt, asked.as_str(), expected, at);
    Ok(())
}

/// Asserts that the version reads at every mark what the lists have.
fn reads_named(
    rt: &impl Abort,
    alloc: Global,
    version: &Version,
    listed: &Listed,
    marks: &[NamedMark],
) -> Result<(), Fail> {
    for NamedMark { name, mark } in marks {
        let expected = listed.named_text(alloc, name.as_str())?;
        reads(rt, alloc, version, mark, (expected.as_str(), name.as_str()))?;
    }
    Ok(())
}

/// Asserts that the version reads a row, and no other, at the row's own mark.
fn reads_row(rt: &impl Abort, alloc: Global, version: &Version, row: &str) -> Result<(), Fail> {
    let mark = mark_of(alloc, own_mark(row))?;
    let got = read_text(alloc, version, &mark);
    drop(mark);
    is_text(rt, got?.as_str().trim_end(), as_text(row), row);
    Ok(())
}

fn reads_rows(
    rt: &impl Abort,
    alloc: Global,
    version: &Version,
    rows: &[String],
) -> Result<(), Fail> {
    for row in rows {
        reads_row(rt, alloc, version, row.as_str())?;
    }
    Ok(())
}

/// Returns true if the version has as many rows of each kind as the lists.
fn is_counted(version: &Version, listed: &Listed) -> bool {
    let count = version.count();
    listed.count_of("|entry ") == count.entries
        && listed.count_of("|agent ") == count.agents
        && listed.count_of("|bundle ") == count.bundles
        && listed.tokens().len() == count.tokens
}

/// Asserts that the version has the rows of the lists.
fn is_as_listed(
    rt: &impl Abort,
    alloc: Global,
    version: &Version,
    listed: &Listed,
    marks: &[NamedMark],
) -> Result<(), Fail> {
    reads_named(rt, alloc, version, listed, marks)?;
    reads_rows(rt, alloc, version, listed.rows())?;
    reads_rows(rt, alloc, version, listed.tokens())?;
    holds(rt, is_counted(version, listed), "the counts of rows");
    Ok(())
}

/// Applies the writes of each version to the lists, and asserts that the version has their rows.
fn are_as_listed(
    rt: &impl Abort,
    alloc: Global,
    steps: &[Step],
    listed: &mut Listed,
    marks: &[NamedMark],
) -> Result<(), Fail> {
    for step in steps {
        listed.apply(alloc, step.writes.as_str())?;
        is_as_listed(rt, alloc, &step.version, listed, marks)?;
    }
    Ok(())
}

/// Returns true if a batch wrote more than three rows.
fn is_some_long(steps: &[Step]) -> bool {
    for step in steps {
        if step.changes.len() > 3 {
            return true;
        }
    }
    false
}

/// Asserts that everything occurred that must occur, and that each version reads at each mark what the lists have.
fn all_as_listed(
    rt: &impl Abort,
    alloc: Global,
    steps: &[Step],
    marks: &[NamedMark],
) -> Result<(), Fail> {
    holds(rt, steps.len() == 1001, "the count of versions");
    holds(rt, is_some_long(steps), "a batch of more than three writes");
    every_operation_came(rt, alloc, steps)?;
    let mut listed = Listed::empty(alloc);
    let compared = are_as_listed(rt, alloc, steps, &mut listed, marks);
    drop(listed);
    compared
}

#[test]
fn each_mark_reads_what_the_lists_have(rt: HostRuntime) -> Result<(), Fail> {
    let (steps, marks) = history(rt.alloc(), 7, 1000)?;
    let compared = all_as_listed(&rt, rt.alloc(), &steps, &marks);
    drop(steps);
    drop(marks);
    compared
}

/// The outcomes that must occur for a mark between two versions.
const OUTCOMES: &str = "\
not hit
unchanged though hit
equal though changed
other rows
";

/// The outcome for a mark between two versions: whether the writes between them hit it, whether the newer one reports it
/// unchanged, and whether both read the same.
fn outcome(is_hit: bool, is_unchanged: bool, is_equal: bool) -> &'static str {
    if !is_hit {
        "not hit"
    } else if is_unchanged {
        "unchanged though hit"
    } else if is_equal {
        "equal though changed"
    } else {
        "other rows"
    }
}

/// Adds the outcome, if it is new.
fn note(seen: &mut String, outcome: &str) -> Result<(), Fail> {
    if !seen.contains(outcome) {
        seen.push_str(outcome)?;
        seen.push_str("\n")?;
    }
    Ok(())
}

/// Compares a version, which reads these rows at a mark, with an older one.
fn compare(
    rt: &impl Abort,
    alloc: Global,
    (newer, older): (&Version, &Version),
    (mark, now): (&Mark, &str),
    is_hit: bool,
) -> Result<&'static str, Fail> {
    let before = read_text(alloc, older, mark)?;
    let (is_unchanged, is_equal) = (newer.unchanged(mark, older), before.as_str() == now);
    holds(rt, is_equal || !is_unchanged, "unchanged, so equal");
    holds(rt, is_hit || is_unchanged, "not hit, so unchanged");
    Ok(outcome(is_hit, is_unchanged, is_equal))
}

/// Compares a version with each one before it, beginning with the last, at one mark.
fn compare_at(
    rt: &impl Abort,
    alloc: Global,
    steps: &[Step],
    NamedMark { name, mark }: &NamedMark,
    seen: &mut String,
) -> Result<(), Fail> {
    let Some((newer, earlier)) = steps.split_last() else {
        return Ok(());
    };
    let now = read_text(alloc, &newer.version, mark)?;
    let mut is_hit = newer.writes.contains(name.as_str());
    for older in earlier.iter().rev() {
        let versions = (&newer.version, &older.version);
        note(
            seen,
            compare(rt, alloc, versions, (mark, now.as_str()), is_hit)?,
        )?;
        is_hit = is_hit || older.writes.contains(name.as_str());
    }
    Ok(())
}

/// Compares each version with each of the nine before it, at each mark, and returns the outcomes.
fn compare_all(
    rt: &impl Abort,
    alloc: Global,
    steps: &[Step],
    marks: &[NamedMark],
) -> Result<String, Fail> {
    let mut seen = String::new(alloc);
    for ten in steps.windows(10) {
        for named in marks {
            compare_at(rt, alloc, ten, named, &mut seen)?;
        }
    }
    Ok(seen)
}

/// Asserts that each outcome occurs when all versions are compared.
fn all_outcomes_come(
    rt: &impl Abort,
    alloc: Global,
    steps: &[Step],
    marks: &[NamedMark],
) -> Result<(), Fail> {
    every_operation_came(rt, alloc, steps)?;
    let seen = compare_all(rt, alloc, steps, marks)?;
    for outcome in OUTCOMES.lines() {
        holds(rt, seen.contains(outcome), outcome);
    }
    Ok(())
}

#[test]
fn a_mark_is_unchanged_where_no_write_hits_it(rt: HostRuntime) -> Result<(), Fail> {
    let (steps, marks) = history(rt.alloc(), 13, 300)?;
    let compared = all_outcomes_come(&rt, rt.alloc(), &steps, &marks);
    drop(steps);
    drop(marks);
    compared
}

fn append_copy(changes: &mut Changes, more: &Changes) -> Result<(), AllocError> {
    changes.append(more.clone()?)
}

/// The writes of two versions, one after the other.
fn both(middle: &Changes, newer: &Changes) -> Result<Changes, AllocError> {
    let mut changes = middle.clone()?;
    let appended = append_copy(&mut changes, newer);
    if_done(appended, changes)
}

/// Asserts that a mark read through writes gives what a newer version gives. Places of newer commits aren't known yet and
/// read as 0.
fn reads_through(
    rt: &impl Abort,
    alloc: Global,
    (older, newer): (&Version, &Version),
    changes: &Changes,
    NamedMark { name, mark }: &NamedMark,
) -> Result<(), Fail> {
    let got = through_text(alloc, older, mark, changes)?;
    let expected = read_up_to(alloc, newer, mark, number_of(older))?;
    is_text(rt, got.as_str(), expected.as_str(), name.as_str());
    Ok(())
}

/// Asserts that each mark reads rightly through the writes of the last two of three versions, and that they hit it exactly
/// if those of one of the two do. Returns the number of marks that they hit.
fn hits_of(
    rt: &impl Abort,
    alloc: Global,
    (older, middle, newer): (&Step, &Step, &Step),
    changes: &Changes,
    marks: &[NamedMark],
) -> Result<usize, Fail> {
    let mut hits: usize = 0;
    for named in marks {
        reads_through(rt, alloc, (&older.version, &newer.version), changes, named)?;
        let name = named.name.as_str();
        let is_hit = changes.hits(&named.mark);
        let is_hit_by_one = middle.writes.contains(name) || newer.writes.contains(name);
        holds(rt, is_hit == is_hit_by_one, name);
        hits = hits.wrapping_add(usize::from(is_hit));
    }
    Ok(hits)
}

/// The number of marks that are hit.
fn hits(
    rt: &impl Abort,
    alloc: Global,
    three: &[Step],
    marks: &[NamedMark],
) -> Result<usize, Fail> {
    let [older, middle, newer] = three else {
        return Err(Fail::from("no three versions"));
    };
    let changes = both(&middle.changes, &newer.changes)?;
    let hits = hits_of(rt, alloc, (older, middle, newer), &changes, marks);
    drop(changes);
    hits
}

/// Checks each mark through the writes of each two versions. Some writes must hit marks, and some must miss a mark.
fn all_read_through(
    rt: &impl Abort,
    alloc: Global,
    steps: &[Step],
    marks: &[NamedMark],
) -> Result<(), Fail> {
    let (mut is_some_hit, mut is_some_unhit) = (false, false);
    for three in steps.windows(3) {
        let hits = hits(rt, alloc, three, marks)?;
        is_some_hit = is_some_hit || hits != 0;
        is_some_unhit = is_some_unhit || hits != marks.len();
    }
    holds(rt, is_some_hit && is_some_unhit, "both, hit and unhit");
    Ok(())
}

#[test]
fn each_mark_reads_through_writes_what_it_reads_after_them(rt: HostRuntime) -> Result<(), Fail> {
    let (steps, marks) = history(rt.alloc(), 5, 100)?;
    let read = all_read_through(&rt, rt.alloc(), &steps, &marks);
    drop(steps);
    drop(marks);
    read
}
