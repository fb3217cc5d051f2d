//! What is the outcome of a batch that is held while others commit?

use crate::plays::plays;
use std::test::Fail;

/// Two creates of one group, of which the one that began first is held until the other is committed.
const TWO_CREATES: &str = "\
NEW
NEW
HOLD after its begin: create 1 n1 /web u:1 0
0 create 2 n1 /web u:1 0 => committed at 1; entry 2.0
DONE => 1; conflict at 1
1 SEAT => number 1; place 1; calls 1
1 show 1; show 2 => answered at 1; none; shown 2.0
";

/// Each try of an update is overtaken by another update.
const ALL_TRIES: &str = "\
NEW
NEW
0 create 1 n1 /web u:1 0 => committed at 1; entry 1.0
HOLD after its begin: tries 16; update 1 n1 /web u:2 0
0 update 1 n1 /web u:3 0 => committed at 2; entry 1.1
0 update 1 n1 /web u:3 0 => committed at 3; entry 1.2
0 update 1 n1 /web u:3 0 => committed at 4; entry 1.3
0 update 1 n1 /web u:3 0 => committed at 5; entry 1.4
0 update 1 n1 /web u:3 0 => committed at 6; entry 1.5
0 update 1 n1 /web u:3 0 => committed at 7; entry 1.6
0 update 1 n1 /web u:3 0 => committed at 8; entry 1.7
0 update 1 n1 /web u:3 0 => committed at 9; entry 1.8
0 update 1 n1 /web u:3 0 => committed at 10; entry 1.9
0 update 1 n1 /web u:3 0 => committed at 11; entry 1.10
0 update 1 n1 /web u:3 0 => committed at 12; entry 1.11
0 update 1 n1 /web u:3 0 => committed at 13; entry 1.12
0 update 1 n1 /web u:3 0 => committed at 14; entry 1.13
0 update 1 n1 /web u:3 0 => committed at 15; entry 1.14
0 update 1 n1 /web u:3 0 => committed at 16; entry 1.15
0 update 1 n1 /web u:3 0 => committed at 17; entry 1.16
DONE => 16; conflict at 17
1 SEAT => number 1; place 17; calls 1
";

/// All tries except the last one are overtaken.
const LAST_TRY: &str = "\
NEW
NEW
0 create 1 n1 /web u:1 0 => committed at 1; entry 1.0
HOLD after its begin: tries 3; update 1 n1 /web u:2 0
0 update 1 n1 /web u:3 0 => committed at 2; entry 1.1
0 update 1 n1 /web u:3 0 => committed at 3; entry 1.2
DONE => 3; committed at 4; entry 1.3
1 SEAT => number 1; place 4; calls 1
";

/// A query sees nothing of a create that is held under the lock. Another create, which has begun meanwhile, waits for the lock: no
/// query sees it, and it is committed after the one that is held. Once they are committed, queries see them.
const UNDER_THE_LOCK: &str = "\
NEW
NEW
NEW
HOLD under the lock: create 1 n1 /web u:1 0
BEHIND: create 2 n2 /web u:1 0
0 TIMES 1000 show 1; show 2 => answered at 0; none; none
DONE => 1; committed at 1; entry 1.0; then committed at 2; entry 2.0
0 SEND 1 => sent at 2
0 show 1; show 2 => answered at 2; shown 1.0; shown 2.0
";

#[test]
fn of_two_creates_of_a_group_one_is_a_conflict(rt: HostRuntime) -> Result<(), Fail> {
    plays(&rt, rt.alloc(), TWO_CREATES)
}

#[test]
fn a_conflict_is_answered_after_all_tries(rt: HostRuntime) -> Result<(), Fail> {
    plays(&rt, rt.alloc(), ALL_TRIES)
}

#[test]
fn the_last_try_commits_that_is_not_overtaken(rt: HostRuntime) -> Result<(), Fail> {
    plays(&rt, rt.alloc(), LAST_TRY)
}

#[test]
fn a_query_answers_during_a_batch_under_the_lock(rt: HostRuntime) -> Result<(), Fail> {
    plays(&rt, rt.alloc(), UNDER_THE_LOCK)
}
