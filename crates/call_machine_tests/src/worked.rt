//! The answers to small worked schedules, and the order of the calls at the end.

use crate::playing::{plays, plays_at_once};
use std::test::Fail;

/// Both creates look for a similar entry before either is there. The second is a conflict, and is refused when it is retried.
const PHANTOM: &str = "
invoke 1 create 1 n1 /web u:1 0 => 1 new
invoke 2 create 2 n1 /web u:1 0 => 2 new
begin 1 => 1 running at 0
begin 2 => 2 running at 0
step 1 => 1 running by entry 1
step 1 => 1 ready by group n1 /web
step 2 => 2 running by entry 2
step 2 => 2 ready by group n1 /web
commit 1 => 1 committed at 1
commit 2 => 2 conflict at 1
invoke 3 create 2 n1 /web u:1 0 => 3 new
begin 3 => 3 running at 1
step 3 => 3 running by entry 2
step 3 => 3 settled by group n1 /web
reply 1 => 1 committed at 1; entry 1.0
reply 2 => 2 conflict at 1
reply 3 => 3 refused O2 at 1; operation 0 by 1
ORDER => 1 3
CALL 1 => operations 1; invoked 1; decided 9; replied 15; committed at 1; entry 1.0
CALL 2 => operations 1; invoked 2; replied 16; conflict at 1
CALL 3 => operations 1; invoked 11; decided 12; replied 17; refused O2 at 1; operation 0 by 1
CALL 4 => none
";

/// A prune looks for expired entries, and one is created meanwhile.
const PHANTOM_OF_PRUNE: &str = "
RUN 1 create 1 n1 /e1 u:1 0; create 2 n1 /e2 u:1 99; create 3 n1 /e3 u:1 100
invoke 2 prune 100 => 2 new
begin 2 => 2 running at 1
step 2 => 2 ready by expiring 100
RUN 3 create 4 n1 /e4 u:1 99
commit 2 => 2 conflict at 2
ORDER => 1 3
RUN 4 prune 100
CALL 4 => operations 1; invoked 21; decided 24; replied 25; committed at 3; pruned 2 4
reply 2 => 2 conflict at 2
ORDER => 1 3 4
";

/// Each of two calls reads what the other one writes, and writes another row: an entry that names a bundle is created, and the
/// bundle is dropped as long as no entry names it.
const SKEW: &str = "
RUN 1 set_bundle b.org
invoke 2 create 1 n1 /web u:1 0 b.org => 2 new
invoke 3 drop_bundle b.org restrict => 3 new
begin 2 => 2 running at 1
begin 3 => 3 running at 1
step 2 => 2 running by entry 1
step 2 => 2 running by group n1 /web
step 2 => 2 ready by bundle b.org
step 3 => 3 running by bundle b.org
step 3 => 3 ready by users b.org
commit 2 => 2 committed at 2
commit 3 => 3 conflict at 2
reply 2 => 2 committed at 2; entry 1.0 b.org
reply 3 => 3 conflict at 2
ORDER => 1 2
";

/// The same, and the drop is committed first.
const SKEW_TURNED: &str = "
RUN 1 set_bundle b.org
invoke 2 create 1 n1 /web u:1 0 b.org => 2 new
invoke 3 drop_bundle b.org restrict => 3 new
begin 2 => 2 running at 1
begin 3 => 3 running at 1
step 2 => 2 running by entry 1
step 2 => 2 running by group n1 /web
step 2 => 2 ready by bundle b.org
step 3 => 3 running by bundle b.org
step 3 => 3 ready by users b.org
commit 3 => 3 committed at 2
commit 2 => 2 conflict at 2
reply 3 => 3 committed at 2; dropped /
reply 2 => 2 conflict at 2
ORDER => 1 3
";

/// Two updates of one entry, neither of which has seen the other.
const LOST_UPDATE: &str = "
RUN 1 create 1 n1 /web u:1 0
invoke 2 update 1 n1 /web u:1 5 => 2 new
invoke 3 update 1 n1 /web u:1 7 => 3 new
begin 2 => 2 running at 1
begin 3 => 3 running at 1
step 2 => 2 running by entry 1
step 3 => 3 running by entry 1
step 2 => 2 ready by group n1 /web
step 3 => 3 ready by group n1 /web
commit 3 => 3 committed at 2
commit 2 => 2 conflict at 2
invoke 4 update0 1 n1 /web u:1 5 => 4 new
begin 4 => 4 running at 2
step 4 => 4 settled by entry 1
reply 4 => 4 refused O4 at 2; operation 0
ORDER => 1 3 4
";

/// Two sets of one row that neither changes: the second is a conflict all the same.
const EQUAL_WRITES: &str = "
RUN 1 set_agent n1 x:1
invoke 2 set_agent n1 x:1 => 2 new
invoke 3 set_agent n1 x:1 => 3 new
begin 2 => 2 running at 1
begin 3 => 3 running at 1
step 2 => 2 ready by agent n1
step 3 => 3 ready by agent n1
commit 2 => 2 committed at 2
commit 3 => 3 conflict at 2
ORDER => 1 2
";

/// A call that is invoked after another one's answer reads what that one wrote. One that began before reads the book of its
/// begin, to its end.
const STALE_READ: &str = "
invoke 1 show 1; show 1 => 1 new
begin 1 => 1 running at 0
step 1 => 1 running by entry 1
invoke 2 create 1 n1 /web u:1 0 => 2 new
begin 2 => 2 running at 0
step 2 => 2 running by entry 1
step 2 => 2 ready by group n1 /web
commit 2 => 2 committed at 1
reply 2 => 2 committed at 1; entry 1.0
invoke 3 show 1; show 1 => 3 new
begin 3 => 3 running at 1
step 3 => 3 running by entry 1
step 1 => 1 settled by entry 1
step 3 => 3 settled by entry 1
reply 3 => 3 answered at 1; shown 1.0; shown 1.0
reply 1 => 1 answered at 0; none; none
ORDER => 1 2 3
";

/// Only the call itself sees its uncommitted changes, and they are dropped if its commit is a conflict.
const DIRTY_READ: &str = "
invoke 1 create 1 n1 /web u:1 0; show 1 => 1 new
begin 1 => 1 running at 0
step 1 => 1 running by entry 1
step 1 => 1 running by group n1 /web
step 1 => 1 ready by entry 1
RUN 2 show 1
CALL 2 => operations 1; invoked 6; decided 7; replied 9; answered at 0; none
RUN 3 create 1 n2 /api u:2 0
commit 1 => 1 conflict at 1
RUN 4 show 1; children n1
CALL 4 => operations 2; invoked 17; decided 18; replied 21; answered at 1; shown 1.0; entries
ORDER => 2 3 4
";

/// Neither call passes the limit on bundles, but both together do. The second is refused at its commit, without a conflict.
const LIMIT_PASSED_BY_TWO: &str = "
FILL 101 1023
invoke 1 set_bundle b.org => 1 new
invoke 2 set_bundle c.org => 2 new
begin 1 => 1 running at 16
begin 2 => 2 running at 16
step 1 => 1 ready by bundle b.org
step 2 => 2 ready by bundle c.org
commit 1 => 1 committed at 17
commit 2 => 2 W5 at 17
ORDER => 101 102 103 104 105 106 107 108 109 110 111 112 113 114 115 116 1
reply 2 => 2 refused W5 at 17
ORDER => 101 102 103 104 105 106 107 108 109 110 111 112 113 114 115 116 1 2
CALL 2 => operations 1; invoked 1089; decided 1095; replied 1096; refused W5 at 17
";

/// Creates of one identity under two parents are no conflict.
const TWO_PARENTS: &str = "
invoke 1 create 1 /p1 /web u:1 0 => 1 new
invoke 2 create 2 /p2 /web u:1 0 => 2 new
begin 1 => 1 running at 0
begin 2 => 2 running at 0
step 1 => 1 running by entry 1
step 1 => 1 ready by group /p1 /web
step 2 => 2 running by entry 2
step 2 => 2 ready by group /p2 /web
commit 1 => 1 committed at 1
commit 2 => 2 committed at 2
reply 2 => 2 committed at 2; entry 2.0
ORDER => 1 2
reply 1 => 1 committed at 1; entry 1.0
ORDER => 1 2
";

/// A query settles at its last read. Once it has replied, it takes its position in the order where it began.
const QUERY: &str = "
invoke 1 show 1; show_agent n1; show_bundle b.org => 1 new
invoke 2 set_agent n1 x:1 => 2 new
begin 2 => 2 running at 0
begin 1 => 1 running at 0
step 1 => 1 running by entry 1
step 1 => 1 running by agent n1
step 2 => 2 ready by agent n1
commit 2 => 2 committed at 1
step 1 => 1 settled by bundle b.org
CALL 1 => operations 3; invoked 1; decided 4; answered at 0; none; none; none
ORDER => 2
reply 1 => 1 answered at 0; none; none; none
ORDER => 1 2
";

/// An agent's entries, and their bundles, are read one ID after another.
const AUTHORISED: &str = "
RUN 1 set_bundle b.org; set_agent n1 x:1; create 1 n1 /web u:1 0 b.org
invoke 2 trust n1 => 2 new
begin 2 => 2 running at 1
step 2 => 2 running by agent n1
step 2 => 2 running by children /spire/server
step 2 => 2 running by children n1
step 2 => 2 running by children /web
step 2 => 2 settled by bundle b.org
reply 2 => 2 answered at 1; bundles bundle b.org 0
ORDER => 1 2
";

/// An operation is refused because of what those before it did. Nothing of the batch takes effect.
const REFUSED: &str = "
RUN 1 create 1 n1 /web u:1 0
invoke 2 create 2 n1 /api u:1 0; update0 1 n1 /web u:1 0; delete0 1 => 2 new
begin 2 => 2 running at 1
step 2 => 2 running by entry 2
step 2 => 2 running by group n1 /api
step 2 => 2 running by entry 1
step 2 => 2 running by group n1 /web
step 2 => 2 settled by entry 1
reply 2 => 2 refused O4 at 1; operation 2
RUN 3 show 1; show 2
CALL 3 => operations 2; invoked 15; decided 16; replied 19; answered at 1; shown 1.0; none
ORDER => 1 2 3
";

/// A batch reads the effects of its own operations.
const OWN_CHANGES: &str = "
RUN 1 set_bundle b.org
invoke 2 create 1 n1 /web u:1 0 b.org; drop_bundle b.org dissociate; show 1 => 2 new
begin 2 => 2 running at 1
step 2 => 2 running by entry 1
step 2 => 2 running by group n1 /web
step 2 => 2 running by bundle b.org
step 2 => 2 running by bundle b.org
step 2 => 2 running by users b.org
step 2 => 2 ready by entry 1
commit 2 => 2 committed at 2
reply 2 => 2 committed at 2; entry 1.0 b.org; dropped / 1; shown 1.1
ORDER => 1 2
";

/// Pages of the book at a place, which others have changed since; and of a book that isn't there yet.
const PAGES: &str = "
RUN 1 create 1 n1 /a u:1 0; create 2 n1 /b u:1 0; create 3 n1 /c u:1 0; create 4 n1 /d u:1 0; create 5 n1 /e u:1 0
RUN 2 page 2 - -
CALL 2 => operations 1; invoked 15; decided 16; replied 18; answered at 1; page 1.0 2.0 next 2
invoke 3 page 2 1 2 => 3 new
invoke 4 page 2 2 - => 4 new
begin 3 => 3 running at 1
begin 4 => 4 running at 1
RUN 5 delete 4
step 3 => 3 settled by all
step 4 => 4 settled by all
reply 3 => 3 answered at 1; page 3.0 4.0 next 4
reply 4 => 4 refused O8 at 1; operation 0
RUN 6 page 2 1 2
CALL 6 => operations 1; invoked 32; decided 33; replied 35; answered at 2; page 3.0 4.0 next 4
RUN 7 page 2 - 2
CALL 7 => operations 1; invoked 36; decided 37; replied 39; answered at 2; page 3.0 5.0
ORDER => 1 2 3 4 5 6 7
";

/// A batch whose minimum place isn't reached is refused at its begin.
const AFTER: &str = "
invoke 1 after 1; show 1 => 1 new
begin 1 => 1 settled at 0
CALL 1 => operations 1; invoked 1; decided 2; refused W1 at 0
ORDER => 
reply 1 => 1 refused W1 at 0
invoke 2 after 1; show 1 => 2 new
RUN 3 set_agent n1 x:1
begin 2 => 2 running at 1
step 2 => 2 settled by entry 1
reply 2 => 2 answered at 1; none
invoke 4 after 2; token 7; set_agent n1 x:1 => 4 new
begin 4 => 4 settled at 1
reply 4 => 4 refused W1 at 1
ORDER => 1 3 2 4
";

/// A batch with a token is committed once. The same batch then gets its first reply, and another batch is refused.
const TOKEN: &str = "
invoke 1 token 7; set_agent n1 x:1 => 1 new
invoke 2 token 7; set_agent n1 x:1 => 2 new
begin 1 => 1 running at 0
begin 2 => 2 running at 0
step 1 => 1 running by token 7
step 2 => 2 running by token 7
step 1 => 1 ready by agent n1
step 2 => 2 ready by agent n1
commit 1 => 1 committed at 1
commit 2 => 2 conflict at 1
invoke 3 token 7; set_agent n1 x:1 => 3 new
begin 3 => 3 running at 1
step 3 => 3 settled by token 7
reply 3 => 3 repeated at 1; agent n1 1
invoke 4 token 7; set_agent n1 x:2 => 4 new
begin 4 => 4 running at 1
step 4 => 4 settled by token 7
reply 4 => 4 refused O9 at 1
RUN 5 set_agent n1 x:2,x:3
RUN 6 token 7; set_agent n1 x:1
CALL 6 => operations 1; invoked 24; decided 25; replied 27; repeated at 1; agent n1 1
ORDER => 1 3 4 5 6
";

/// Events of unknown calls, and events of a query that aren't possible in its state.
const OUT_OF_TURN: &str = "
begin 1 => E2
step 1 => E2
commit 1 => E2
reply 1 => E2
invoke 1 show 1 => 1 new
invoke 1 show 2; show 3 => E1
step 1 => E3
commit 1 => E3
reply 1 => E3
begin 7 => E2
begin 1 => 1 running at 0
invoke 1 show 1 => E1
begin 1 => E3
commit 1 => E3
reply 1 => E3
step 1 => 1 settled by entry 1
begin 1 => E3
step 1 => E3
commit 1 => E3
reply 1 => 1 answered at 0; none
invoke 1 show 1 => E1
begin 1 => E3
step 1 => E3
commit 1 => E3
reply 1 => E3
CALL 1 => operations 1; invoked 1; decided 2; replied 4; answered at 0; none
ORDER => 1
";

/// The same for two calls that change the same row.
const OUT_OF_TURN_IN_CHANGES: &str = "
invoke 1 set_agent n1 x:1 => 1 new
invoke 2 set_agent n1 x:2 => 2 new
begin 1 => 1 running at 0
begin 2 => 2 running at 0
step 1 => 1 ready by agent n1
step 2 => 2 ready by agent n1
begin 1 => E3
step 1 => E3
reply 1 => E3
commit 1 => 1 committed at 1
begin 1 => E3
step 1 => E3
commit 1 => E3
commit 2 => 2 conflict at 1
begin 2 => E3
step 2 => E3
commit 2 => E3
reply 2 => 2 conflict at 1
reply 2 => E3
invoke 2 set_agent n1 x:2 => E1
reply 1 => 1 committed at 1; agent n1 1
reply 1 => E3
CALL 2 => operations 1; invoked 2; replied 9; conflict at 1
ORDER => 1
";

/// The maximum number of calls. A number in use is refused for that first.
const MOST_CALLS: &str = "
HAND-IN 4095 show 1
invoke 5 show 1 => E1
invoke 4096 show 1 => 4096 new
invoke 4097 show 1 => E4
invoke 4096 show 1 => E1
invoke 5 show 1 => E1
begin 4097 => E2
begin 1 => 1 running at 0
step 1 => 1 settled by entry 1
reply 1 => 1 answered at 0; none
invoke 4097 show 1 => E4
invoke 1 show 1 => E1
CALL 4096 => operations 1; invoked 4096; no answer
CALL 4097 => none
ORDER => 1
";

const NOTHING: &str = "
ORDER => 
CALL 1 => none
";

#[test]
fn a_similar_entry_that_came_meanwhile_is_a_conflict(rt: HostRuntime) -> Result<(), Fail> {
    plays(&rt, rt.alloc(), PHANTOM)
}

#[test]
fn an_expiring_entry_that_came_meanwhile_is_a_conflict(rt: HostRuntime) -> Result<(), Fail> {
    plays(&rt, rt.alloc(), PHANTOM_OF_PRUNE)
}

#[test]
fn writes_skewed_over_two_rows_are_a_conflict(rt: HostRuntime) -> Result<(), Fail> {
    plays(&rt, rt.alloc(), SKEW)?;
    plays(&rt, rt.alloc(), SKEW_TURNED)
}

#[test]
fn no_update_is_lost(rt: HostRuntime) -> Result<(), Fail> {
    plays(&rt, rt.alloc(), LOST_UPDATE)?;
    plays(&rt, rt.alloc(), EQUAL_WRITES)
}

#[test]
fn no_read_is_stale_after_an_answer(rt: HostRuntime) -> Result<(), Fail> {
    plays(&rt, rt.alloc(), STALE_READ)
}

#[test]
fn no_read_is_of_what_isnt_committed(rt: HostRuntime) -> Result<(), Fail> {
    plays(&rt, rt.alloc(), DIRTY_READ)
}

#[test]
fn two_calls_that_pass_a_limit_together_are_not_both_admitted(rt: HostRuntime) -> Result<(), Fail> {
    plays(&rt, rt.alloc(), LIMIT_PASSED_BY_TWO)
}

#[test]
fn calls_on_different_rows_are_both_committed(rt: HostRuntime) -> Result<(), Fail> {
    plays(&rt, rt.alloc(), TWO_PARENTS)
}

#[test]
fn a_query_settles_at_the_place_where_it_began(rt: HostRuntime) -> Result<(), Fail> {
    plays(&rt, rt.alloc(), QUERY)?;
    plays(&rt, rt.alloc(), AUTHORISED)
}

#[test]
fn a_refused_batch_settles_and_does_nothing(rt: HostRuntime) -> Result<(), Fail> {
    plays(&rt, rt.alloc(), REFUSED)
}

#[test]
fn a_batch_reads_its_own_changes(rt: HostRuntime) -> Result<(), Fail> {
    plays(&rt, rt.alloc(), OWN_CHANGES)
}

#[test]
fn pages_of_a_past_book_stay_as_they_were(rt: HostRuntime) -> Result<(), Fail> {
    plays(&rt, rt.alloc(), PAGES)
}

#[test]
fn a_batch_for_a_later_place_settles_at_its_begin(rt: HostRuntime) -> Result<(), Fail> {
    plays(&rt, rt.alloc(), AFTER)
}

#[test]
fn a_batch_with_a_token_is_committed_once(rt: HostRuntime) -> Result<(), Fail> {
    plays(&rt, rt.alloc(), TOKEN)
}

#[test]
fn events_out_of_turn_are_handed_back_and_change_nothing(rt: HostRuntime) -> Result<(), Fail> {
    plays(&rt, rt.alloc(), OUT_OF_TURN)?;
    plays(&rt, rt.alloc(), OUT_OF_TURN_IN_CHANGES)
}

#[test]
fn there_is_room_for_so_many_calls_and_no_more(rt: HostRuntime) -> Result<(), Fail> {
    plays(&rt, rt.alloc(), MOST_CALLS)
}

#[test]
fn no_events_make_no_order(rt: HostRuntime) -> Result<(), Fail> {
    plays(&rt, rt.alloc(), NOTHING)
}

#[test]
fn a_list_of_events_is_answered_as_one_event_after_another(rt: HostRuntime) -> Result<(), Fail> {
    plays_at_once(&rt, rt.alloc(), PHANTOM)?;
    plays_at_once(&rt, rt.alloc(), OUT_OF_TURN)?;
    plays_at_once(&rt, rt.alloc(), OUT_OF_TURN_IN_CHANGES)
}
