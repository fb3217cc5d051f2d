//! Which nodes does a change of a consumed shelf copy?

use crate::bounds::is_met;
use crate::wanted::is_number;
use std::alloc::{AllocError, Global};
use std::process::Abort;
use std::test::Fail;
use version_shelf::{Count, Shelf};

/// A number of rows for which a shelf needs several inner nodes.
const ROWS: u64 = 3_000;

/// The shelf with the key. Asserts that this copies so many nodes.
fn with_key(
    rt: &impl Abort,
    shelf: Shelf<u64, u64>,
    key: u64,
    nodes: u64,
) -> Result<Shelf<u64, u64>, AllocError> {
    let mut copied = Count::new();
    is_met(rt, shelf.has_room(), "has_room");
    let more = shelf.into_with_counted(key, key, &mut copied)?;
    is_number(rt, copied.number(), nodes, "nodes copied for a row");
    Ok(more)
}

/// The shelf without the key. Asserts that this copies so many nodes.
fn without_key(
    rt: &impl Abort,
    shelf: Shelf<u64, u64>,
    key: u64,
    nodes: u64,
) -> Result<Shelf<u64, u64>, AllocError> {
    let mut copied = Count::new();
    let fewer = shelf.into_without_counted(&key, &mut copied)?;
    is_number(rt, copied.number(), nodes, "nodes copied to remove a row");
    Ok(fewer)
}

/// A shelf of the numbers below `ROWS`, put in rising order. Asserts that no node is copied.
fn filled(rt: &impl Abort, alloc: Global) -> Result<Shelf<u64, u64>, AllocError> {
    let mut shelf = Shelf::new(alloc);
    for key in 0..ROWS {
        shelf = with_key(rt, shelf, key, 0)?;
    }
    Ok(shelf)
}

#[test]
fn a_shelf_that_no_other_one_shares_is_changed_without_copies(rt: HostRuntime) -> Result<(), Fail> {
    let mut shelf = filled(&rt, rt.alloc())?;
    for key in 0..ROWS {
        shelf = with_key(&rt, shelf, key, 0)?;
    }
    is_number(&rt, shelf.len() as u64, ROWS, "rows");
    for key in 0..ROWS {
        shelf = without_key(&rt, shelf, key, 0)?;
    }
    is_number(&rt, shelf.len() as u64, 0, "rows");
    Ok(())
}

#[test]
fn a_node_that_another_shelf_has_is_copied_once(rt: HostRuntime) -> Result<(), Fail> {
    let shelf = filled(&rt, rt.alloc())?;
    let old = shelf.clone()?;
    // the root, the first inner node and its first leaf
    let shelf = with_key(&rt, shelf, 0, 3)?;
    let shelf = with_key(&rt, shelf, 0, 0)?;
    // another leaf of the first inner node
    let shelf = with_key(&rt, shelf, 100, 1)?;
    let shelf = with_key(&rt, shelf, 100, 0)?;
    // the last inner node and its last leaf
    let shelf = with_key(&rt, shelf, ROWS - 1, 2)?;
    let shelf = without_key(&rt, shelf, ROWS - 1, 0)?;
    is_number(&rt, old.len() as u64, ROWS, "rows of the old shelf");
    drop(old);
    // no other shelf has these nodes any longer
    let shelf = with_key(&rt, shelf, ROWS / 2, 0)?;
    is_number(&rt, shelf.len() as u64, ROWS - 1, "rows");
    Ok(())
}
