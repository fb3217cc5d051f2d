//! What a small book replies, batch after batch.

use crate::playing::plays;
use std::test::Fail;

const PLACES: &str = "\
authorised n1 => refused O7 at 0; operation 0
set_agent n1 x:1 => committed at 1; agent n1 1
authorised n1 => answered at 1; entries
set_agent n1 x:1 => committed at 2; agent n1 1
BOOK => ex.org at 2
";

#[test]
fn places_count_the_batches_that_are_committed(rt: HostRuntime) -> Result<(), Fail> {
    plays(&rt, rt.alloc(), PLACES)
}

const IDS: &str = "\
set_agent n1 -; create 2 n1 /api x:1 99; create 2 n1 /web x:1 99 => refused O1 at 0; operation 2
create 2 n1 /web x:1 99 => committed at 1; entry 2.0
BOOK => ex.org at 1
";

#[test]
fn an_id_is_taken_by_an_entry_of_the_same_batch(rt: HostRuntime) -> Result<(), Fail> {
    plays(&rt, rt.alloc(), IDS)
}

const BUNDLES: &str = "\
set_bundle d1; create 1 n1 /web x:1 99 d1 => committed at 1; bundle d1 0; entry 1.0 d1
drop_bundle d1 restrict => refused O6 at 1; operation 0
delete0 1; drop_bundle d1 restrict => committed at 2; entry 1.0 d1; dropped /
BOOK => ex.org at 2
";

#[test]
fn a_bundle_is_dropped_once_its_user_is_deleted(rt: HostRuntime) -> Result<(), Fail> {
    plays(&rt, rt.alloc(), BUNDLES)
}
