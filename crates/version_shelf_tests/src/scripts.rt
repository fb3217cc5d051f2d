//! Scripts: how shelves are made from one another, and what each of them returns.

ghost use Rattle.version_shelf.specs.Shelf.{ClonesEqual};

use crate::bounds::is_met;
use crate::wanted::is_text;
use std::alloc::Global;
use std::process::Abort;
use std::test::Fail;
use version_shelf::Shelf;

/// A key or a value that is written as a text without spaces.
pub trait AsText: Sized {
    fn of_text(alloc: Global, text: &str) -> Result<Self, Fail>;

    fn text(&self, alloc: Global) -> Result<String, Fail>;
}

impl AsText for u64 {
    fn of_text(_alloc: Global, text: &str) -> Result<u64, Fail> {
        Ok(text.parse::<u64>()?)
    }

    fn text(&self, alloc: Global) -> Result<String, Fail> {
        Ok(format!(in alloc; "{self}")?)
    }
}

/// The shelf with a row.
fn with_row<K: Ord + Clone + AsText + Drop, V: Clone + AsText + Drop>(
    rt: &impl Abort,
    alloc: Global,
    shelf: &Shelf<K, V>,
    row: &str,
) -> Result<Shelf<K, V>, Fail>
    requires keys { ClonesEqual K.is_clone }
    requires values { ClonesEqual V.is_clone }
{
    let (key, value) = row.split_once(' ').unwrap_or((row, ""));
    let key = K::of_text(alloc, key)?;
    let value = V::of_text(alloc, value)?;
    is_met(rt, shelf.has_room(), "has_room");
    Ok(shelf.with(key, value)?)
}

/// The shelf without a key.
fn without_key<K: Ord + Clone + AsText + Drop, V: Clone + Drop>(
    alloc: Global,
    shelf: &Shelf<K, V>,
    key: &str,
) -> Result<Shelf<K, V>, Fail>
    requires keys { ClonesEqual K.is_clone }
    requires values { ClonesEqual V.is_clone }
{
    let key = K::of_text(alloc, key)?;
    Ok(shelf.without(&key)?)
}

/// The shelf that this step makes from a shelf.
fn made<K: Ord + Clone + AsText + Drop, V: Clone + AsText + Drop>(
    rt: &impl Abort,
    alloc: Global,
    shelf: &Shelf<K, V>,
    as_text: &str,
) -> Result<Shelf<K, V>, Fail>
    requires keys { ClonesEqual K.is_clone }
    requires values { ClonesEqual V.is_clone }
{
    match as_text.split_once(' ').unwrap_or((as_text, "")) {
        ("with", row) => with_row(rt, alloc, shelf, row),
        ("without", key) => without_key(alloc, shelf, key),
        ("clone", _) => Ok(shelf.clone()?),
        _ => Err(Fail::from("no such shelf")),
    }
}

fn row_text<K: AsText, V: AsText>(alloc: Global, key: &K, value: &V) -> Result<String, Fail> {
    let key = key.text(alloc)?;
    let value = value.text(alloc)?;
    Ok(format!(in alloc; " {key} {value}")?)
}

/// The number of rows between two bounds, the number of all rows, and each of the former.
fn rows_text<K: Ord + Clone + AsText, V: Clone + AsText>(
    alloc: Global,
    shelf: &Shelf<K, V>,
    lo: &K,
    hi: &K,
) -> Result<String, Fail> {
    let (count, len) = (shelf.range(lo, hi).count(), shelf.len());
    let mut text = format!(in alloc; "{count} of {len}:")?;
    for (key, value) in shelf.range(lo, hi) {
        text.push_str(row_text(alloc, key, value)?.as_str())?;
    }
    Ok(text)
}

fn range_text<K: Ord + Clone + AsText + Drop, V: Clone + AsText>(
    alloc: Global,
    shelf: &Shelf<K, V>,
    bounds: &str,
) -> Result<String, Fail> {
    let (lo, hi) = bounds.split_once(' ').unwrap_or((bounds, ""));
    let lo = K::of_text(alloc, lo)?;
    let hi = K::of_text(alloc, hi)?;
    rows_text(alloc, shelf, &lo, &hi)
}

/// The value at a key, or `none`.
fn value_text<K: Ord + Clone + AsText + Drop, V: Clone + AsText>(
    alloc: Global,
    shelf: &Shelf<K, V>,
    key: &str,
) -> Result<String, Fail> {
    let key = K::of_text(alloc, key)?;
    match shelf.get(&key) {
        Some(value) => value.text(alloc),
        None => Ok(String::from_str(alloc, "none")?),
    }
}

fn answer<K: Ord + Clone + AsText + Drop, V: Clone + AsText>(
    alloc: Global,
    shelf: &Shelf<K, V>,
    question: &str,
) -> Result<String, Fail> {
    match question.split_once(' ').unwrap_or((question, "")) {
        ("range", bounds) => range_text(alloc, shelf, bounds),
        ("get", key) => value_text(alloc, shelf, key),
        _ => Err(Fail::from("no such question")),
    }
}

fn plays_line<K: Ord + Clone + AsText + Drop, V: Clone + AsText + Drop>(
    rt: &impl Abort,
    alloc: Global,
    shelves: &mut Vec<Shelf<K, V>>,
    line: &str,
) -> Result<(), Fail>
    requires keys { ClonesEqual K.is_clone }
    requires values { ClonesEqual V.is_clone }
{
    let (number, as_text) = line.split_once(' ').unwrap_or((line, ""));
    let Some(shelf) = shelves.get(number.parse::<usize>()?) else {
        return Err(Fail::from("no such shelf"));
    };
    if let Some((question, expected)) = as_text.split_once(" => ") {
        let got = answer(alloc, shelf, question)?;
        is_text(rt, got.as_str(), expected, line);
        return Ok(());
    }
    let next = made(rt, alloc, shelf, as_text)?;
    Ok(shelves.push(next)?)
}

/// Plays a script over a first shelf, which has number 0. Each line begins with the number of a shelf. Lines with `with`
/// and a row, `without` and a key, or `clone` make the shelf of the next number from that one. Other lines read the `range`
/// between two bounds, or `get` the value at a key, and compare it with the text after ` => `.
pub fn plays<K: Ord + Clone + AsText + Drop, V: Clone + AsText + Drop>(
    rt: &impl Abort,
    alloc: Global,
    first: Shelf<K, V>,
    script: &str,
) -> Result<(), Fail>
    requires keys { ClonesEqual K.is_clone }
    requires values { ClonesEqual V.is_clone }
{
    let mut shelves = Vec::new(alloc);
    shelves.push(first)?;
    for line in script.lines() {
        plays_line(rt, alloc, &mut shelves, line)?;
    }
    Ok(())
}
