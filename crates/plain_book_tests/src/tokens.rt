//! Batches that carry a token.

use crate::playing::plays;
use std::test::Fail;

const AGAIN: &str = "\
token 7; set_agent n1 u:1; show_agent n1 => committed at 1; agent n1 1; agent n1 1
drop_agent n1 => committed at 2; agent n1 1
token 7; set_agent n1 u:1; show_agent n1 => repeated at 1; agent n1 1; agent n1 1
authorised n1 => refused O7 at 2; operation 0
";

#[test]
fn a_batch_given_again_with_its_token_is_answered_as_at_first(rt: HostRuntime) -> Result<(), Fail> {
    plays(&rt, rt.alloc(), AGAIN)
}

const OTHERS: &str = "\
token 7; set_agent n1 u:1; show_agent n1 => committed at 1; agent n1 1; agent n1 1
drop_agent n1 => committed at 2; agent n1 1
token 7; set_agent n1 u:1,u:2; show_agent n1 => refused O9 at 2
token 7; drop_agent n1 => refused O9 at 2
token 7; set_agent n1 u:1 => refused O9 at 2
token 8; set_agent n1 u:1,u:2; show_agent n1 => committed at 3; agent n1 2; agent n1 2
";

#[test]
fn other_operations_with_a_token_that_is_kept_are_refused(rt: HostRuntime) -> Result<(), Fail> {
    plays(&rt, rt.alloc(), OTHERS)
}

const REFUSED: &str = "\
token 7; drop_agent n1 => refused O7 at 0; operation 0
token 7; set_agent n1 u:1; show_agent n1 => committed at 1; agent n1 1; agent n1 1
token 7; drop_agent n1 => refused O9 at 1
";

#[test]
fn the_token_of_a_refused_batch_is_not_kept(rt: HostRuntime) -> Result<(), Fail> {
    plays(&rt, rt.alloc(), REFUSED)
}

const EARLY: &str = "\
token 7; set_agent n1 u:1; show_agent n1 => committed at 1; agent n1 1; agent n1 1
drop_agent n1 => committed at 2; agent n1 1
after 3; token 7; set_agent n1 u:1; show_agent n1 => refused W1 at 2
after 2; token 7; set_agent n1 u:1; show_agent n1 => repeated at 1; agent n1 1; agent n1 1
";

#[test]
fn a_repeat_waits_for_its_place_too(rt: HostRuntime) -> Result<(), Fail> {
    plays(&rt, rt.alloc(), EARLY)
}

const ORDERS: &str = "\
token 7; set_agent n2 u:1,u:2 => committed at 1; agent n2 2
token 7; set_agent n2 u:2,u:1 => repeated at 1; agent n2 2
token 7; set_agent n2 u:2,u:3 => refused O9 at 1
";

#[test]
fn sets_in_another_order_are_the_same_operations(rt: HostRuntime) -> Result<(), Fail> {
    plays(&rt, rt.alloc(), ORDERS)
}
