//! Shelves with the kinds of keys and values that the versions of a book have.

use crate::keys::{IdText, Part, SharedNumber};
use crate::scripts::plays;
use std::test::Fail;
use version_shelf::Shelf;

type Ids = Shelf<Part<IdText>, u64>;

const BOUNDS: &str = "\
0 with spiffe://a/m 1
1 with spiffe://b 2
2 with spiffe://a 3
3 range START END => 3 of 3: spiffe://a 3 spiffe://a/m 1 spiffe://b 2
3 range spiffe://a spiffe://b => 2 of 3: spiffe://a 3 spiffe://a/m 1
3 range spiffe://b END => 1 of 3: spiffe://b 2
3 range spiffe://b spiffe://a => 0 of 3:
3 get spiffe://a => 3
3 get START => none
";

#[test]
fn start_and_end_are_around_every_id(rt: HostRuntime) -> Result<(), Fail> {
    plays(&rt, rt.alloc(), Ids::new(rt.alloc()), BOUNDS)
}

const OLD_SHELVES: &str = "\
0 with spiffe://a/m 1
1 with spiffe://b 2
2 with spiffe://a 3
3 with spiffe://b 4
4 range START END => 3 of 3: spiffe://a 3 spiffe://a/m 1 spiffe://b 4
3 without spiffe://a
5 range START END => 2 of 2: spiffe://a/m 1 spiffe://b 2
5 without spiffe://a
6 range START END => 2 of 2: spiffe://a/m 1 spiffe://b 2
3 clone
7 range START END => 3 of 3: spiffe://a 3 spiffe://a/m 1 spiffe://b 2
3 range START END => 3 of 3: spiffe://a 3 spiffe://a/m 1 spiffe://b 2
0 range START END => 0 of 0:
";

#[test]
fn the_old_shelf_is_unchanged(rt: HostRuntime) -> Result<(), Fail> {
    plays(&rt, rt.alloc(), Ids::new(rt.alloc()), OLD_SHELVES)
}

type Members = Shelf<(IdText, Part<IdText>, Part<u128>), SharedNumber>;

/// The members of a parent's identity, and those of a parent.
const GROUPS: &str = "\
0 with p/j/8 8
1 with p/i/9 9
2 with q/i/1 1
3 with p/i/2 2
4 range p/i/START p/i/END => 2 of 4: p/i/2 2 p/i/9 9
4 range p/START/START p/END/START => 3 of 4: p/i/2 2 p/i/9 9 p/j/8 8
";

#[test]
fn a_group_is_a_range(rt: HostRuntime) -> Result<(), Fail> {
    plays(&rt, rt.alloc(), Members::new(rt.alloc()), GROUPS)
}
