//! A shelf and a plain list of the values by key, under the same changes.

ghost use Rattle.std.specs.Prelude.{◌<◌};

use crate::bounds::is_met;
use crate::wanted::{holds, is_number};
use std::alloc::{AllocError, Global};
use std::mem;
use std::process::Abort;
use std::test::Fail;
use version_shelf::Shelf;

const KEYS: u64 = 40;

/// Pseudo-random numbers, the same in each run (Knuth's MMIX generator).
#[derive(Drop)]
struct Draws {
    state: u64,
}

impl Draws {
    fn below(&mut self, bound: u64) -> u64
        requires { 0 < bound }
    {
        self.state = self
            .state
            .wrapping_mul(6_364_136_223_846_793_005)
            .wrapping_add(1_442_695_040_888_963_407);
        (self.state >> 33) % bound
    }
}

/// A shelf, and a list of the values by key.
#[derive(Drop)]
struct Pair {
    shelf: Shelf<u64, u64>,
    list: Vec<Option<u64>>,
}

fn new_pair(alloc: Global) -> Result<Pair, Fail> {
    Ok(Pair {
        shelf: Shelf::new(alloc),
        list: vec![in alloc; None; KEYS as usize]?,
    })
}

fn copy_of(pair: &Pair) -> Result<Pair, Fail> {
    Ok(Pair {
        shelf: pair.shelf.clone()?,
        list: pair.list.clone()?,
    })
}

/// How the next shelf is made: from a shelf that remains, or from one that is consumed.
#[derive(Clone, Copy)]
enum Way {
    Borrowed,
    Consumed,
}

/// The shelf with a row.
fn with_row(
    rt: &impl Abort,
    shelf: Shelf<u64, u64>,
    way: Way,
    key: u64,
    value: u64,
) -> Result<Shelf<u64, u64>, AllocError> {
    is_met(rt, shelf.has_room(), "has_room");
    match way {
        Way::Borrowed => shelf.with(key, value),
        Way::Consumed => shelf.into_with(key, value),
    }
}

/// The shelf without a key.
fn without_key(shelf: Shelf<u64, u64>, way: Way, key: u64) -> Result<Shelf<u64, u64>, AllocError> {
    match way {
        Way::Borrowed => shelf.without(&key),
        Way::Consumed => shelf.into_without(&key),
    }
}

/// Sets or removes a random key, in both.
fn change(
    rt: &impl Abort,
    alloc: Global,
    pair: &mut Pair,
    draws: &mut Draws,
    turn: u64,
) -> Result<(), Fail> {
    let way = if draws.below(4) > 0 {
        Way::Consumed
    } else {
        Way::Borrowed
    };
    let key = draws.below(KEYS);
    let place = pair
        .list
        .get_mut(key as usize)
        .expect(rt, "a place for each key");
    if draws.below(3) > 0 {
        *place = Some(turn);
        let shelf = mem::replace(&mut pair.shelf, Shelf::new(alloc));
        pair.shelf = with_row(rt, shelf, way, key, turn)?;
    } else {
        *place = None;
        let shelf = mem::replace(&mut pair.shelf, Shelf::new(alloc));
        pair.shelf = without_key(shelf, way, key)?;
    }
    Ok(())
}

/// The list's value at the key.
fn value_at(list: &[Option<u64>], key: u64) -> Option<u64> {
    match list.get(key as usize) {
        Some(value) => *value,
        None => None,
    }
}

/// Asserts that the row has this key and this value.
fn is_row(rt: &impl Abort, row: Option<(&u64, &u64)>, key: u64, value: u64) {
    let Some((key_found, value_found)) = row else {
        return holds(rt, false, "a row for each value");
    };
    is_number(rt, *key_found, key, "the next row's key");
    is_number(rt, *value_found, value, "the next row's value");
}

/// Asserts that the shelf has the list's values at all keys, and between the two bounds the list's rows in order.
fn assert_same(rt: &impl Abort, pair: &Pair, lo: u64, hi: u64) {
    let mut rows = pair.shelf.range(&lo, &hi);
    let mut count = 0_u64;
    for key in 0..KEYS {
        let wanted = value_at(pair.list.as_slice(), key);
        let found = pair.shelf.get(&key).copied();
        holds(rt, found == wanted, "get");
        let Some(value) = wanted else {
            continue;
        };
        count = count.wrapping_add(1);
        if lo <= key && key < hi {
            is_row(rt, rows.next(), key, value);
        }
    }
    is_number(rt, pair.shelf.len() as u64, count, "len");
    holds(rt, rows.next().is_none(), "no row too many");
}

#[test]
fn a_thousand_random_changes_are_those_of_a_plain_list(rt: HostRuntime) -> Result<(), Fail> {
    let mut draws = Draws { state: 1 };
    let mut pair = new_pair(rt.alloc())?;
    let mut kept = Vec::new(rt.alloc());
    for turn in 0..1_000 {
        change(&rt, rt.alloc(), &mut pair, &mut draws, turn)?;
        let (lo, hi) = (draws.below(KEYS + 1), draws.below(KEYS + 1));
        assert_same(&rt, &pair, lo, hi);
        if turn % 10 == 0 {
            kept.push(copy_of(&pair)?)?;
        }
    }
    for old in &kept {
        let (lo, hi) = (draws.below(KEYS + 1), draws.below(KEYS + 1));
        assert_same(&rt, old, lo, hi);
        assert_same(&rt, old, 0, KEYS);
    }
    is_number(&rt, kept.len() as u64, 100, "shelves that were kept");
    Ok(())
}
