//! How many comparisons and copies of keys and values does each call make?

ghost use Rattle.std.specs.Prelude.{◌<◌, ◌≤◌};

use crate::bounds::is_met;
use crate::counted_keys::{CountedKey, Counts};
use crate::wanted::{holds, is_number};
use std::alloc::AllocError;
use std::process::Abort;
use std::test::Fail;
use version_shelf::Shelf;

type CountedShelf<'a> = Shelf<CountedKey<'a>, CountedKey<'a>>;

/// The logarithm of the number of rows to the base 2, rounded up; 0 if there are none.
fn log2_rounded_up(rows: u64) -> u64
    ensures { result ≤ 64 }
{
    if rows < 2 {
        0
    } else {
        u64::from((rows - 1).ilog2()) + 1
    }
}

/// Asserts that looking up the rows between two keys makes at most this number of comparisons.
fn assert_range<'a>(
    rt: &impl Abort,
    shelf: &CountedShelf<'a>,
    counts: &'a Counts,
    (lo, hi): (&CountedKey<'a>, &CountedKey<'a>),
    most: u64,
) {
    let walk = shelf.range(lo, hi);
    counts.are_at_most(rt, most, "range");
    holds(rt, walk.count() <= shelf.len(), "rows of a range");
    counts.are_at_most(rt, 0, "the rows of a range");
}

/// Looks up, uses as a bound, removes and sets every key of the shelf and every number next to one, and checks the costs.
fn assert_calls_are_cheap<'a>(
    rt: &impl Abort,
    shelf: &CountedShelf<'a>,
    counts: &'a Counts,
) -> Result<(), Fail> {
    let rows = shelf.len() as u64;
    let log2 = log2_rounded_up(rows);
    counts.comparisons();
    is_number(rt, shelf.clone()?.len() as u64, rows, "clone");
    for value in 0..2 * rows + 1 {
        is_met(rt, shelf.has_room(), "has_room");
        counts.are_at_most(rt, 0, "len, clone and has_room");
        let lo = counts.number(value / 2);
        let key = counts.number(value);
        let is_there = shelf.get(&key).is_some();
        let made = counts.comparisons();
        holds(rt, is_there == (value % 2 == 1), "get");
        holds(rt, (made > 0) == (rows > 0), "comparisons, or none");
        holds(rt, made <= log2 + 2, "comparisons of get");
        assert_range(rt, shelf, counts, (&lo, &key), 2 * log2 + 3);
        assert_range(rt, shelf, counts, (&key, &lo), 2 * log2 + 3);
        let fewer = shelf.without(&key)?.len() as u64;
        counts.are_at_most(rt, log2 + 2, "without");
        holds(rt, fewer + value % 2 == rows, "without");
        let more = shelf.with(key, lo)?.len() as u64;
        counts.are_at_most(rt, log2 + 2, "with");
        holds(rt, more + value % 2 == rows + 1, "with");
    }
    Ok(())
}

/// The shelf with one more row, whose key is the next odd number.
fn with_next<'a>(
    rt: &impl Abort,
    shelf: &CountedShelf<'a>,
    counts: &'a Counts,
    row: u64,
) -> Result<CountedShelf<'a>, AllocError>
    requires { row < 70 }
{
    is_met(rt, shelf.has_room(), "has_room");
    shelf.with(counts.number(2 * row + 1), counts.number(row))
}

#[test]
fn calls_compare_no_more_than_the_head_says_and_copy_nothing(rt: HostRuntime) -> Result<(), Fail> {
    let counts = Counts::new();
    let mut shelf = Shelf::new(rt.alloc());
    for row in 0..70 {
        assert_calls_are_cheap(&rt, &shelf, &counts)?;
        shelf = with_next(&rt, &shelf, &counts, row)?;
    }
    is_number(&rt, counts.copies(), 0, "copies");
    Ok(())
}
