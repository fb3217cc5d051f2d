//! Tables of questions about the versions of one history, and the expected answers.

use crate::marks::mark_of;
use crate::rows::{
    add_agents, add_bundles, add_entries, add_tokens, add_writes, aliases_text, read_text,
};
use crate::wanted::{holds, is_text};
use batch_work::{Status, Work};
use std::alloc::{AllocError, Global};
use std::process::Abort;
use std::test::Fail;
use test_batches::{Failed, batch, number, trust_domain, word, words};
use test_support::{add_some, if_done, one, pair_with};
use test_works::{ended, next_of};
use version_book::{Changes, Mark, RowCounts, Version};

/// A version, the batch that led to it, and its writes, also as text.
#[derive(Drop)]
pub struct Step {
    pub batch: String,
    pub writes: String,
    pub changes: Changes,
    pub version: Version,
}

/// The first version, alone.
pub fn first_step(alloc: Global) -> Result<Vec<Step>, Fail> {
    let version = Version::empty(alloc, trust_domain(alloc, "ex.org")?)?;
    let step = Step {
        batch: String::new(alloc),
        writes: String::new(alloc),
        changes: Changes::new(alloc),
        version,
    };
    one(alloc, step)
}

/// The writes of a work that is ready, for a place, as text.
fn writes_text(alloc: Global, work: &Work, place: u64) -> Result<String, Failed> {
    let mut text = String::new(alloc);
    add_writes(alloc, &mut text, work.changes(), place)?;
    Ok(text)
}

/// The version of this number, after the batch of a work, whose text is given; nothing if the batch isn't accepted.
fn step_of(alloc: Global, work: &Work, text: &str, number: u64) -> Result<Option<Step>, Fail> {
    if work.status() != Status::Ready {
        return Ok(None);
    }
    let batch = String::from_str(alloc, text)?;
    let writes = writes_text(alloc, work, number)?;
    let changes = work.changes().clone()?;
    let (changes, version) = pair_with(changes, next_of(work))?;
    Ok(Some(Step {
        batch,
        writes,
        changes,
        version,
    }))
}

/// The version of this number, after the batch of a text; nothing if the batch isn't accepted.
fn play(alloc: Global, version: &Version, text: &str, number: u64) -> Result<Option<Step>, Fail> {
    let work = ended(alloc, version, batch(alloc, text)?)?;
    let step = step_of(alloc, &work, text, number);
    drop(work);
    step
}

/// Appends the version after the batch of a text, and returns true, if the batch is accepted.
pub fn go_on(alloc: Global, steps: &mut Vec<Step>, text: &str) -> Result<bool, Fail> {
    let number = steps.len() as u64;
    let Some(last) = steps.last() else {
        return Ok(false);
    };
    let next = play(alloc, &last.version, text, number)?;
    add_some(steps, next)
}

/// Appends the rows of a reading, in short form.
fn add_short(text: &mut String, rows: &str) -> Result<(), Failed> {
    for row in rows.lines() {
        let (as_text, _) = row.split_once("|").unwrap_or((row, ""));
        text.push_str(as_text)?;
    }
    Ok(())
}

/// What a version reads at a mark.
fn as_text(alloc: Global, version: &Version, mark: &Mark) -> Result<String, Failed> {
    let rows = read_text(alloc, version, mark)?;
    let mut text = String::new(alloc);
    add_short(&mut text, rows.as_str())?;
    Ok(text)
}

fn add_own_entries(
    alloc: Global,
    text: &mut String,
    version: &Version,
    mark: &Mark,
) -> Result<(), Failed> {
    let entries = version.read(mark)?.into_entries();
    let added = add_entries(alloc, text, &entries);
    drop(entries);
    added
}

fn add_own_agents(text: &mut String, version: &Version, mark: &Mark) -> Result<(), Failed> {
    let agents = version.read(mark)?.into_agents();
    let added = add_agents(text, &agents);
    drop(agents);
    added
}

fn add_own_bundles(text: &mut String, version: &Version, mark: &Mark) -> Result<(), Failed> {
    let bundles = version.read(mark)?.into_bundles();
    let added = add_bundles(text, &bundles);
    drop(bundles);
    added
}

fn add_own_tokens(
    alloc: Global,
    text: &mut String,
    version: &Version,
    mark: &Mark,
) -> Result<(), Failed> {
    let tokens = version.read(mark)?.into_tokens();
    let added = add_tokens(alloc, text, &tokens, u64::MAX);
    drop(tokens);
    added
}

/// Appends what a version reads at a mark, as owned rows.
fn add_own(alloc: Global, text: &mut String, version: &Version, mark: &Mark) -> Result<(), Failed> {
    add_own_entries(alloc, text, version, mark)?;
    add_own_agents(text, version, mark)?;
    add_own_bundles(text, version, mark)?;
    add_own_tokens(alloc, text, version, mark)
}

/// Returns true if both marks name the same, by a clone of what the first names.
fn names_same(mark: &Mark, other: &Mark) -> Result<bool, AllocError> {
    let kind = mark.kind().clone()?;
    let is_same = kind == *other.kind();
    drop(kind);
    Ok(is_same)
}

/// Returns an error unless the mark's clone names the same.
fn is_cloned(copy: &Mark, mark: &Mark) -> Result<(), Fail> {
    if names_same(copy, mark)? {
        return Ok(());
    }
    Err(Fail::from("a clone that names something else"))
}

/// The mark's clone, after checking that it and a clone of what it names are equal to the mark.
fn same_mark(mark: &Mark) -> Result<Mark, Fail> {
    let copy = mark.clone()?;
    let cloned = is_cloned(&copy, mark);
    if_done(cloned, copy)
}

/// What a version reads at a mark, as owned rows.
fn text_of_own(alloc: Global, version: &Version, mark: &Mark) -> Result<String, Failed> {
    let mut rows = String::new(alloc);
    add_own(alloc, &mut rows, version, mark)?;
    let mut text = String::new(alloc);
    add_short(&mut text, rows.as_str())?;
    Ok(text)
}

/// What the version's clone reads at a mark.
fn text_of_clone(alloc: Global, version: &Version, mark: &Mark) -> Result<String, Failed> {
    let copy = version.clone()?;
    let as_text = text_of_own(alloc, &copy, mark);
    drop(copy);
    as_text
}

/// What the version's clone reads at the mark's clone.
fn text_of_clones(alloc: Global, version: &Version, mark: &Mark) -> Result<String, Fail> {
    let copy = same_mark(mark)?;
    let as_text = text_of_clone(alloc, version, &copy);
    drop(copy);
    Ok(as_text?)
}

/// The number of a version. It has no contract, so that no proof about a text opens the version's rows.
pub fn number_of(version: &Version) -> u64 {
    version.number()
}

/// The numbers of rows of a version, without a contract too.
fn count_of(version: &Version) -> RowCounts {
    version.count()
}

fn text_of_count(alloc: Global, version: &Version) -> Result<String, Failed> {
    let (count, number) = (count_of(version), number_of(version));
    let (entries, agents) = (count.entries, count.agents);
    let (bundles, tokens) = (count.bundles, count.tokens);
    Ok(format!(in alloc; " {entries} {agents} {bundles} {tokens} at {number}")?)
}

/// The ID of a version's server.
fn text_of_server(alloc: Global, version: &Version) -> Result<String, AllocError> {
    let server = version.server().get().as_str();
    format!(in alloc; " {server}")
}

/// The aliases of a version.
fn text_of_aliases(alloc: Global, version: &Version) -> Result<String, Failed> {
    let rows = aliases_text(alloc, version)?;
    let mut text = String::new(alloc);
    add_short(&mut text, rows.as_str())?;
    Ok(text)
}

/// Whether the mark is unchanged since the older version, as text.
fn text_of_same(
    alloc: Global,
    newer: &Version,
    older: Option<&Step>,
    mark: &Mark,
) -> Result<String, Fail> {
    match older {
        Some(older) if newer.unchanged(mark, &older.version) => Ok(String::from_str(
            alloc, " yes",
        )?),
        Some(_) => Ok(String::from_str(alloc, " no")?),
        None => Err(Fail::from("no such version")),
    }
}

fn answer_at(alloc: Global, steps: &[Step], words: &[&str], mark: &Mark) -> Result<String, Fail> {
    let Some(step) = steps.get(number(words, 1)? as usize) else {
        return Err(Fail::from("no such version"));
    };
    match word(words, 0) {
        "COUNT" => Ok(text_of_count(alloc, &step.version)?),
        "SERVER" => Ok(text_of_server(alloc, &step.version)?),
        "ALIASES" => Ok(text_of_aliases(alloc, &step.version)?),
        "READS" => Ok(as_text(alloc, &step.version, mark)?),
        "CLONE" => text_of_clones(alloc, &step.version, mark),
        _ => {
            let older = steps.get(number(words, 2)? as usize);
            text_of_same(alloc, &step.version, older, mark)
        }
    }
}

/// The answer of a version to a question: `COUNT 2`, `SERVER 2`, `ALIASES 2`, `READS 2: children /a`, the same of its clone,
/// `CLONE 2: children /a`, or, for a newer and an older one, `SAME 2 1: children /a`.
fn answer(alloc: Global, steps: &[Step], question: &str) -> Result<String, Fail> {
    let (head, line) = question.split_once(": ").unwrap_or((question, "all"));
    let words = words(alloc, head)?;
    let mark = mark_of(alloc, line)?;
    let as_text = answer_at(alloc, steps, words.as_slice(), &mark);
    drop(mark);
    as_text
}

/// Plays a line of a table.
fn plays_line(
    rt: &impl Abort,
    alloc: Global,
    steps: &mut Vec<Step>,
    line: &str,
) -> Result<(), Fail> {
    if let Some((question, expected)) = line.split_once(" =>") {
        let got = answer(alloc, steps.as_slice(), question)?;
        is_text(rt, got.as_str(), expected, line);
    } else if !line.is_empty() {
        let is_accepted = go_on(alloc, steps, line)?;
        holds(rt, is_accepted, line);
    }
    Ok(())
}

fn plays_lines(
    rt: &impl Abort,
    alloc: Global,
    steps: &mut Vec<Step>,
    table: &str,
) -> Result<(), Fail> {
    for line in table.lines() {
        plays_line(rt, alloc, steps, line)?;
    }
    Ok(())
}

/// Plays a table. A line has a question, `=>`, and the expected answer; each other line that isn't empty is the batch that
/// leads to the next version.
pub fn plays(rt: &impl Abort, alloc: Global, table: &str) -> Result<(), Fail> {
    let mut steps = first_step(alloc)?;
    let played = plays_lines(rt, alloc, &mut steps, table);
    drop(steps);
    played
}
