//! Shelves of many nodes, filled and emptied in several orders. Is the cost of each call within its bound, and does an old
//! shelf stay readable?

ghost use Rattle.std.specs.Prelude.{◌<◌};

use crate::bounds::{is_at_most, is_met};
use crate::counted_keys::{CountedKey, Counts};
use crate::wanted::{holds, is_number};
use std::alloc::{AllocError, Global};
use std::process::Abort;
use std::test::Fail;
use version_shelf::{Count, Shelf};

type CountedShelf<'a> = Shelf<CountedKey<'a>, CountedKey<'a>>;

const ROWS: u64 = 9_000;

/// The order in which keys come.
#[derive(Clone, Copy)]
enum Order {
    Rising,
    Falling,
    Mixed,
}

impl Order {
    /// The key of this turn: each key below `ROWS` comes once.
    fn key(self, turn: u64) -> u64
        requires { turn < 9000 }
    {
        match self {
            Order::Rising => turn,
            Order::Falling => ROWS - 1 - turn,
            Order::Mixed => turn * 7_919 % ROWS,
        }
    }
}

/// Asserts that the shelf has this value at the key, at a cost within the bound, and that all comparisons were counted.
fn assert_found<'a>(
    rt: &impl Abort,
    shelf: &CountedShelf<'a>,
    counts: &'a Counts,
    key: u64,
    value: Option<u64>,
) {
    let mut count = Count::new();
    counts.comparisons();
    let found = match shelf.find(&counts.number(key), &mut count) {
        Some(found) => Some(found.value()),
        None => None,
    };
    holds(rt, found == value, "the value that is found");
    is_number(rt, count.number(), counts.comparisons(), "count of find");
    is_at_most(rt, count.number(), 32, "count of find");
}

/// Asserts that a change has put this many rows and nodes into new nodes, from 1 to 1,024, and has copied no key and no value.
fn assert_change(rt: &impl Abort, count: u64, counts: &Counts) {
    is_at_most(rt, 1, count, "least count of a change");
    is_at_most(rt, count, 1_024, "count of a change");
    is_number(rt, counts.copies(), 0, "copies");
}

/// The shelf with the key, whose value is the turn.
fn with_key<'a>(
    rt: &impl Abort,
    shelf: &CountedShelf<'a>,
    counts: &'a Counts,
    key: u64,
    turn: u64,
) -> Result<CountedShelf<'a>, AllocError> {
    let mut count = Count::new();
    is_met(rt, shelf.has_room(), "has_room");
    let more = shelf.with_counted(counts.number(key), counts.number(turn), &mut count)?;
    assert_change(rt, count.number(), counts);
    Ok(more)
}

/// The shelf without the key.
fn without_key<'a>(
    rt: &impl Abort,
    shelf: &CountedShelf<'a>,
    counts: &'a Counts,
    key: u64,
) -> Result<CountedShelf<'a>, AllocError> {
    let mut count = Count::new();
    let fewer = shelf.without_counted(&counts.number(key), &mut count)?;
    assert_change(rt, count.number(), counts);
    Ok(fewer)
}

/// Asserts that the shelf has the rows of the first `turns` turns, and no others.
fn assert_turns<'a>(
    rt: &impl Abort,
    shelf: &CountedShelf<'a>,
    counts: &'a Counts,
    order: Order,
    turns: u64,
) {
    is_number(rt, shelf.len() as u64, turns, "len");
    for turn in 0..ROWS {
        let value = if turn < turns { Some(turn) } else { None };
        assert_found(rt, shelf, counts, order.key(turn), value);
    }
    let mut last = None;
    let mut rows = 0_u64;
    for (key, _) in shelf.range(&counts.number(0), &counts.number(ROWS)) {
        holds(rt, last < Some(key.value()), "rising keys");
        last = Some(key.value());
        rows = rows.wrapping_add(1);
    }
    is_number(rt, rows, turns, "rows of the whole range");
}

fn keep<'a>(kept: &mut Vec<CountedShelf<'a>>, shelf: &CountedShelf<'a>) -> Result<(), AllocError> {
    Ok(kept.push(shelf.clone()?)?)
}

/// How the next shelf is made: from a shelf that remains, or from one that is consumed.
#[derive(Clone, Copy)]
enum Way {
    Borrowed,
    Consumed,
}

/// The shelf with the key, whose value is the turn, made in this way.
fn with_next<'a>(
    rt: &impl Abort,
    shelf: CountedShelf<'a>,
    counts: &'a Counts,
    way: Way,
    key: u64,
    turn: u64,
) -> Result<CountedShelf<'a>, AllocError> {
    if let Way::Borrowed = way {
        return with_key(rt, &shelf, counts, key, turn);
    }
    is_met(rt, shelf.has_room(), "has_room");
    let more = shelf.into_with(counts.number(key), counts.number(turn))?;
    is_number(rt, counts.copies(), 0, "copies");
    Ok(more)
}

/// The shelf without the key, made in this way.
fn without_next<'a>(
    rt: &impl Abort,
    shelf: CountedShelf<'a>,
    counts: &'a Counts,
    way: Way,
    key: u64,
) -> Result<CountedShelf<'a>, AllocError> {
    if let Way::Borrowed = way {
        return without_key(rt, &shelf, counts, key);
    }
    let fewer = shelf.into_without(&counts.number(key))?;
    is_number(rt, counts.copies(), 0, "copies");
    Ok(fewer)
}

/// The shelf of all keys, which are set in this order. Every thousandth shelf before it is kept, from the empty one on.
fn filled<'a>(
    rt: &impl Abort,
    alloc: Global,
    counts: &'a Counts,
    way: Way,
    order: Order,
    kept: &mut Vec<CountedShelf<'a>>,
) -> Result<CountedShelf<'a>, AllocError> {
    let mut shelf = Shelf::new(alloc);
    for turn in 0..ROWS {
        if turn % 1_000 == 0 {
            keep(kept, &shelf)?;
        }
        shelf = with_next(rt, shelf, counts, way, order.key(turn), turn)?;
    }
    Ok(shelf)
}

/// The shelf without keys, after all are removed in this order.
fn emptied<'a>(
    rt: &impl Abort,
    shelf: CountedShelf<'a>,
    counts: &'a Counts,
    way: Way,
    order: Order,
) -> Result<CountedShelf<'a>, AllocError> {
    let mut shelf = shelf;
    for turn in 0..ROWS {
        shelf = without_next(rt, shelf, counts, way, order.key(turn))?;
    }
    Ok(shelf)
}

/// Asserts that the kept shelves have the rows of the turns before them.
fn assert_kept<'a>(rt: &impl Abort, kept: &[CountedShelf<'a>], counts: &'a Counts, order: Order) {
    let mut turns = 0_u64;
    for old in kept {
        assert_turns(rt, old, counts, order, turns);
        turns = turns.wrapping_add(1_000);
    }
    is_number(rt, turns, ROWS, "turns up to the last shelf");
}

/// Fills a shelf in one order, empties it in another, and then checks the old ones.
fn assert_filled_and_emptied(
    rt: &impl Abort,
    alloc: Global,
    way: Way,
    order: Order,
    emptying: Order,
) -> Result<(), Fail> {
    let counts = Counts::new();
    let mut kept = Vec::new(alloc);
    let full = filled(rt, alloc, &counts, way, order, &mut kept)?;
    assert_turns(rt, &full, &counts, order, ROWS);
    let empty = emptied(rt, full.clone()?, &counts, way, emptying)?;
    assert_turns(rt, &empty, &counts, order, 0);
    assert_turns(rt, &full, &counts, order, ROWS);
    assert_kept(rt, kept.as_slice(), &counts, order);
    Ok(())
}

#[test]
fn a_shelf_is_filled_by_rising_keys_and_emptied_by_falling_ones(
    rt: HostRuntime,
) -> Result<(), Fail> {
    assert_filled_and_emptied(
        &rt,
        rt.alloc(),
        Way::Borrowed,
        Order::Rising,
        Order::Falling,
    )
}

#[test]
fn a_shelf_is_filled_by_falling_keys_and_emptied_by_mixed_ones(
    rt: HostRuntime,
) -> Result<(), Fail> {
    assert_filled_and_emptied(&rt, rt.alloc(), Way::Borrowed, Order::Falling, Order::Mixed)
}

#[test]
fn a_shelf_is_filled_by_mixed_keys_and_emptied_by_rising_ones(rt: HostRuntime) -> Result<(), Fail> {
    assert_filled_and_emptied(&rt, rt.alloc(), Way::Borrowed, Order::Mixed, Order::Rising)
}

#[test]
fn a_shelf_is_filled_in_place_by_rising_keys_and_emptied_by_falling_ones(
    rt: HostRuntime,
) -> Result<(), Fail> {
    assert_filled_and_emptied(
        &rt,
        rt.alloc(),
        Way::Consumed,
        Order::Rising,
        Order::Falling,
    )
}

#[test]
fn a_shelf_is_filled_in_place_by_falling_keys_and_emptied_by_mixed_ones(
    rt: HostRuntime,
) -> Result<(), Fail> {
    assert_filled_and_emptied(&rt, rt.alloc(), Way::Consumed, Order::Falling, Order::Mixed)
}

#[test]
fn a_shelf_is_filled_in_place_by_mixed_keys_and_emptied_by_rising_ones(
    rt: HostRuntime,
) -> Result<(), Fail> {
    assert_filled_and_emptied(&rt, rt.alloc(), Way::Consumed, Order::Mixed, Order::Rising)
}
