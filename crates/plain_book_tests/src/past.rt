//! Pages of earlier books, and batches with a minimum place.

use crate::playing::plays_all;
use std::alloc::Global;
use std::process::Abort;
use std::test::Fail;

/// Makes a book of five entries at place 1, each with one more selector, and deletes the fourth at place 2.
const FOUR: &str = "\
create 1 n1 /web u:1 0; create 2 n1 /web u:1,u:2 0; create 3 n1 /web u:1,u:2,u:3 0; \
create 4 n1 /web u:1,u:2,u:3,u:4 0; create 5 n1 /web u:1,u:2,u:3,u:4,u:5 0 \
=> committed at 1; entry 1.0; entry 2.0; entry 3.0; entry 4.0; entry 5.0
page 2 - - => answered at 1; page 1.0 2.0 next 2
delete 4 => committed at 2; entry 4.0
";

/// Plays a script on the book of four entries.
fn plays(rt: &impl Abort, alloc: Global, script: &str) -> Result<(), Fail> {
    plays_all(rt, alloc, &[FOUR, script])
}

const DELETED_SINCE: &str = "\
page 2 1 2 => answered at 2; page 3.0 4.0 next 4
page 2 1 4 => answered at 2; page 5.0
page 2 - 2 => answered at 2; page 3.0 5.0
page 2 0 - => answered at 2; page
";

#[test]
fn pages_of_an_earlier_book_list_what_is_deleted_since(rt: HostRuntime) -> Result<(), Fail> {
    plays(&rt, rt.alloc(), DELETED_SINCE)
}

const KEPT: &str = "\
UP TO 64
page 2 1 2 => answered at 64; page 3.0 4.0 next 4
page 2 0 - => refused O8 at 64; operation 0
UP TO 65
page 2 1 2 => refused O8 at 65; operation 0
page 2 2 2 => answered at 65; page 3.0 5.0
";

#[test]
fn a_book_is_kept_until_it_is_the_sixty_fifth_from_the_last(rt: HostRuntime) -> Result<(), Fail> {
    plays(&rt, rt.alloc(), KEPT)
}

const LAST: &str = "\
page 2 2 2 => answered at 2; page 3.0 5.0
page 2 3 - => refused O8 at 2; operation 0
page 2 18446744073709551615 - => refused O8 at 2; operation 0
";

#[test]
fn the_last_book_may_be_asked_for_by_its_number_and_a_later_one_is_not_there(
    rt: HostRuntime,
) -> Result<(), Fail> {
    plays(&rt, rt.alloc(), LAST)
}

const EARLY: &str = "\
after 3; delete 4 => refused W1 at 2
after 2; delete 4 => refused O3 at 2; operation 0
after 3; page 2 9 - => refused W1 at 2
after 2; prune 0 => committed at 3; pruned
";

#[test]
fn a_batch_waits_for_its_place_before_anything_else(rt: HostRuntime) -> Result<(), Fail> {
    plays(&rt, rt.alloc(), EARLY)
}
