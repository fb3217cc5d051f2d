//! Tables of batches on a window, with the expected reads and outcomes of their works.

use crate::running::{commit, end_text, ended};
use crate::wanted::is_text;
use batch_work::{Versioned, Window};
use std::alloc::Global;
use std::process::Abort;
use std::test::Fail;
use test_batches::{marks_text, number, trust_domain, words};
use version_book::Version;

/// The window that has only the empty book.
pub fn first_window(alloc: Global) -> Result<Window, Fail> {
    let domain = trust_domain(alloc, "ex.org")?;
    Ok(Window::of(Version::empty(alloc, domain)?))
}

/// The number of the newest version. It has no contract.
pub fn newest_number(window: &Window) -> u64 {
    window.newest().number()
}

/// The marks that a batch reads on the window.
fn reads(alloc: Global, window: &Window, text: &str) -> Result<String, Fail> {
    let work = ended(alloc, window, text)?;
    let as_text = marks_text(alloc, work.marks());
    drop(work);
    Ok(as_text?)
}

/// The outcome of a batch on the window.
fn comes(alloc: Global, window: &Window, text: &str) -> Result<String, Fail> {
    let work = ended(alloc, window, text)?;
    let as_text = end_text(alloc, &work);
    drop(work);
    as_text
}

/// Runs a batch, which must become ready, and pushes the version after it.
fn continues(alloc: Global, window: &mut Window, text: &str) -> Result<(), Fail> {
    let work = ended(alloc, window, text)?;
    let pushed = commit(window, &work);
    drop(work);
    pushed
}

/// Does the same for a batch this many times.
fn continues_often(
    alloc: Global,
    window: &mut Window,
    times: &str,
    text: &str,
) -> Result<(), Fail> {
    for _ in 0..times.parse::<u64>()? {
        continues(alloc, window, text)?;
    }
    Ok(())
}

/// The number of the version that the window returns for this one.
pub fn found_number(window: &Window, number: u64) -> Option<u64> {
    let version = window.book(number)?;
    Some(version.number())
}

/// Appends the number of the version that the window returns for this one.
fn add_version(alloc: Global, text: &mut String, window: &Window, number: u64) -> Result<(), Fail> {
    if let Some(found) = found_number(window, number) {
        text.push_str(format!(in alloc; "{found} ")?.as_str())?;
    }
    Ok(())
}

/// The versions that the window returns for the numbers from the first to the last, and the newest one.
fn versions(alloc: Global, window: &Window, first: u64, last: u64) -> Result<String, Fail> {
    let mut text = String::new(alloc);
    for number in first..last.wrapping_add(1) {
        add_version(alloc, &mut text, window, number)?;
    }
    let newest = newest_number(window);
    text.push_str(format!(in alloc; "newest {newest}")?.as_str())?;
    Ok(text)
}

/// The versions for the two numbers after a word.
fn versions_asked(alloc: Global, window: &Window, question: &str) -> Result<String, Fail> {
    let words = words(alloc, question)?;
    let (first, last) = (number(words.as_slice(), 1)?, number(words.as_slice(), 2)?);
    versions(alloc, window, first, last)
}

fn answer(alloc: Global, window: &Window, question: &str) -> Result<String, Fail> {
    if let Some(text) = question.strip_prefix("READS ") {
        return reads(alloc, window, text);
    }
    if let Some(text) = question.strip_prefix("COMES ") {
        return comes(alloc, window, text);
    }
    versions_asked(alloc, window, question)
}

/// A line without an answer: `AGAIN`, a number and a batch, or a batch alone.
fn runs(alloc: Global, window: &mut Window, line: &str) -> Result<(), Fail> {
    let Some(text) = line.strip_prefix("AGAIN ") else {
        return continues(alloc, window, line);
    };
    match text.split_once(" ") {
        Some((times, text)) => continues_often(alloc, window, times, text),
        None => Err(Fail::from("no such line")),
    }
}

/// Plays a line of a table.
fn plays_line(rt: &impl Abort, alloc: Global, window: &mut Window, line: &str) -> Result<(), Fail> {
    if let Some((question, expected)) = line.split_once(" => ") {
        let got = answer(alloc, window, question)?;
        is_text(rt, got.as_str(), expected, line);
    } else if !line.is_empty() {
        runs(alloc, window, line)?;
    }
    Ok(())
}

/// Plays a table on the window. A line has a question, ` => `, and the expected answer: `READS` gives the marks that a
/// batch reads, `COMES` its outcome, and `VERSIONS` the versions that the window returns for a range of numbers. `AGAIN`
/// and a number run a batch that many times, and any other line that isn't empty is a batch to run. Each of these must
/// become ready, and leads to the next version.
pub fn plays_on(
    rt: &impl Abort,
    alloc: Global,
    window: &mut Window,
    table: &str,
) -> Result<(), Fail> {
    for line in table.lines() {
        plays_line(rt, alloc, window, line)?;
    }
    Ok(())
}

/// Plays a table, beginning with the empty book.
pub fn plays(rt: &impl Abort, alloc: Global, table: &str) -> Result<(), Fail> {
    let mut window = first_window(alloc)?;
    let played = plays_on(rt, alloc, &mut window, table);
    drop(window);
    played
}
