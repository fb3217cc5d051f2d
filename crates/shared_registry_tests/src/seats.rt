//! What does a seat see, how many seats are there, and how many items of a long journal are stored?

use crate::plays::{plays, plays_with_seats};
use std::test::Fail;

/// Each outcome and each reply that one seat alone can have.
const ONE_SEAT: &str = "\
NEW => number 0; place 0; calls 0
0 token 7; create 1 n1 /web u:1 0 => committed at 1; entry 1.0
0 update 1 n1 /web u:2 0; show 1 => committed at 2; entry 1.1; shown 1.1
0 token 7; create 1 n1 /web u:1 0 => repeated at 1; entry 1.0
0 token 7; create 2 n1 /web u:1 0 => refused O9 at 2
0 set_agent n1 x:1; create 1 n1 /web u:1 0 => refused O1 at 2; operation 1
0 after 3; delete 1 => refused W1 at 2
0 show 1; show_agent n1 => answered at 2; shown 1.1; none
0 after 3; show 1 => refused W1 at 2
0 SEAT => number 0; place 2; calls 8
KEPT => 2
";

/// Seats that existed before a commit see it, in each way in which they can be informed: seat 0 queries; seat 1 obtains a receipt
/// and sends it on; seat 2 learns that receipt, which changes what it sees only at its next query; seat 3 learns it, and obtains
/// one too. Two more seats are taken after the commit: seat 5 queries, and seat 6 obtains a receipt.
const NEW_SEATS: &str = "\
NEW
NEW
NEW
NEW
NEW
4 create 1 n1 /web u:1 0 => committed at 1; entry 1.0
0 SEAT => number 0; place 0; calls 0
0 show 1 => answered at 1; shown 1.0
0 SEAT => number 0; place 1; calls 1
1 SEND 2 => sent at 1
1 SEAT => number 1; place 1; calls 0
1 show 1 => answered at 1; shown 1.0
1 SEAT => number 1; place 1; calls 1
2 TAKE => taken at 1
2 SEAT => number 2; place 0; calls 0
2 show 1 => answered at 1; shown 1.0
2 SEAT => number 2; place 1; calls 1
1 SEND 3 => sent at 1
3 TAKE => taken at 1
3 SEAT => number 3; place 0; calls 0
3 SEND 0 => sent at 1
3 SEAT => number 3; place 1; calls 0
NEW => number 5; place 0; calls 0
5 show 1 => answered at 1; shown 1.0
5 SEAT => number 5; place 1; calls 1
NEW => number 6; place 0; calls 0
6 SEND 0 => sent at 1
6 SEAT => number 6; place 1; calls 0
";

/// A seat has seen its own commits, and those of others before them.
const OWN_COMMITS: &str = "\
NEW
NEW
0 FOUND show 1; show 2 AFTER create 1 n1 /web u:1 0 => answered at 1; shown 1.0; none
0 SEAT => number 0; place 1; calls 1
1 create 2 n1 /web u:2 0 => committed at 2; entry 2.0
0 FOUND show 1; show 2; show 3 AFTER create 3 n1 /web u:3 0 => answered at 3; shown 1.0; shown 2.0; shown 3.0
0 SEAT => number 0; place 3; calls 2
1 FOUND show 1; show 3 AFTER delete 1 => answered at 4; none; shown 3.0
";

/// All seats of a registry, and one more, which is refused, and still is after the others are dropped.
const ALL_SEATS: &str = "\
NEW => number 0; place 0; calls 0
NEW => number 1; place 0; calls 0
NEW => number 2; place 0; calls 0
NEW => number 3; place 0; calls 0
NEW => number 4; place 0; calls 0
NEW => number 5; place 0; calls 0
NEW => number 6; place 0; calls 0
NEW => number 7; place 0; calls 0
NEW => number 8; place 0; calls 0
NEW => number 9; place 0; calls 0
NEW => number 10; place 0; calls 0
NEW => number 11; place 0; calls 0
NEW => number 12; place 0; calls 0
NEW => number 13; place 0; calls 0
NEW => number 14; place 0; calls 0
NEW => number 15; place 0; calls 0
NEW => number 16; place 0; calls 0
NEW => number 17; place 0; calls 0
NEW => number 18; place 0; calls 0
NEW => number 19; place 0; calls 0
NEW => number 20; place 0; calls 0
NEW => number 21; place 0; calls 0
NEW => number 22; place 0; calls 0
NEW => number 23; place 0; calls 0
NEW => number 24; place 0; calls 0
NEW => number 25; place 0; calls 0
NEW => number 26; place 0; calls 0
NEW => number 27; place 0; calls 0
NEW => number 28; place 0; calls 0
NEW => number 29; place 0; calls 0
NEW => number 30; place 0; calls 0
NEW => number 31; place 0; calls 0
LEFT => none
GONE
LEFT => none
";

/// A registry for three seats gives no fourth one.
const THREE_SEATS: &str = "\
NEW => number 0; place 0; calls 0
NEW => number 1; place 0; calls 0
0 create 1 n1 /web u:1 0 => committed at 1; entry 1.0
NEW => number 2; place 0; calls 0
LEFT => none
2 show 1 => answered at 1; shown 1.0
1 delete 1 => committed at 2; entry 1.0
0 show 1 => answered at 2; none
GONE
LEFT => none
";

/// A commit that finds 4,096 stored items first drops all but the last 64.
const CHECKPOINT: &str = "\
NEW
0 TIMES 4096 set_agent n1 x:1 => committed at 4096; agent n1 1
0 SEAT => number 0; place 4096; calls 4096
KEPT => 4096
0 set_agent n1 x:1 => committed at 4097; agent n1 1
0 SEAT => number 0; place 4097; calls 4097
KEPT => 65
0 TIMES 903 set_agent n1 x:1 => committed at 5000; agent n1 1
0 SEAT => number 0; place 5000; calls 5000
KEPT => 968
0 TIMES 3128 set_agent n1 x:1 => committed at 8128; agent n1 1
KEPT => 4096
0 set_agent n1 x:1 => committed at 8129; agent n1 1
KEPT => 65
";

#[test]
fn a_seat_gets_the_outcome_of_each_batch(rt: HostRuntime) -> Result<(), Fail> {
    plays(&rt, rt.alloc(), ONE_SEAT)
}

#[test]
fn a_new_seat_sees_what_was_committed(rt: HostRuntime) -> Result<(), Fail> {
    plays(&rt, rt.alloc(), NEW_SEATS)
}

#[test]
fn a_seat_has_found_its_own_commit(rt: HostRuntime) -> Result<(), Fail> {
    plays(&rt, rt.alloc(), OWN_COMMITS)
}

#[test]
fn there_are_32_seats(rt: HostRuntime) -> Result<(), Fail> {
    plays(&rt, rt.alloc(), ALL_SEATS)
}

#[test]
fn a_registry_has_the_number_of_seats_that_it_was_made_with(rt: HostRuntime) -> Result<(), Fail> {
    plays_with_seats(&rt, rt.alloc(), 3, THREE_SEATS)
}

#[test]
fn no_registry_has_33_seats(rt: HostRuntime) -> Result<(), Fail> {
    plays_with_seats(&rt, rt.alloc(), 33, ALL_SEATS)
}

#[test]
fn a_commit_that_finds_many_items_kept_makes_a_checkpoint(rt: HostRuntime) -> Result<(), Fail> {
    plays(&rt, rt.alloc(), CHECKPOINT)
}
