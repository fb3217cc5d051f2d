//! Which works commit on small worked books, and what the journal keeps of them.

use crate::playing::plays;
use std::test::Fail;

const AT_ONCE: &str = "
BEGIN create 1 n1 /web x:1 0; show 1
COMMIT 0 7 30 => committed at 1
ITEM 1 => seat 7 call 30 operations 2 writes 1; entry 1.0; shown 1.0
ITEM 0 => none
ITEM 2 => none
HEAD => place 1 kept 1 newest 1
";

/// Two creates of the same identity under two parents.
const TWO_PARENTS: &str = "
BEGIN create 1 n1 /web x:1 0
BEGIN create 2 n2 /web x:1 0
COMMIT 0 1 1 => committed at 1
COMMIT 0 2 1 => committed at 2
ITEM 2 => seat 2 call 1 operations 1 writes 1; entry 2.0
HEAD => place 2 kept 2 newest 2
";

/// Two creates of the same entry.
const SAME_ENTRY: &str = "
BEGIN create 1 n1 /web x:1 0
BEGIN create 1 n1 /web x:1 0
COMMIT 1 2 1 => committed at 1
COMMIT 0 1 1 => conflict at 1
HEAD => place 1 kept 1 newest 1
ITEM 1 => seat 2 call 1 operations 1 writes 1; entry 1.0
ITEM 2 => none
";

/// Two creates of different ids and the same parent, identity and selectors.
const SIMILAR_ENTRY: &str = "
BEGIN create 1 n1 /web x:1 0
BEGIN create 2 n1 /web x:1 0
COMMIT 0 1 1 => committed at 1
COMMIT 0 2 1 => conflict at 1
HEAD => place 1 kept 1 newest 1
";

/// An entry that names a bundle is created, and then a begun drop of the bundle tries to commit.
const NAMED_FIRST: &str = "
set_bundle b.org
BEGIN create 1 n1 /web x:1 0 b.org
BEGIN drop_bundle b.org restrict
COMMIT 0 1 1 => committed at 2
COMMIT 0 2 1 => conflict at 2
HEAD => place 2 kept 2 newest 2
ITEM 2 => seat 1 call 1 operations 1 writes 1; entry 1.0 b.org
";

/// The bundle is dropped, and then a begun create of an entry that names it tries to commit.
const DROPPED_FIRST: &str = "
set_bundle b.org
BEGIN create 1 n1 /web x:1 0 b.org
BEGIN drop_bundle b.org restrict
COMMIT 1 2 1 => committed at 2
COMMIT 0 1 1 => conflict at 2
HEAD => place 2 kept 2 newest 2
ITEM 2 => seat 2 call 1 operations 1 writes 1; dropped /
";

/// A prune, and an entry that was created meanwhile and expires before its moment.
const PRUNED: &str = "
create 1 n1 /web x:1 50
BEGIN prune 100
create 2 n1 /api x:1 99
COMMIT 0 1 1 => conflict at 2
BEGIN prune 100
COMMIT 0 1 2 => committed at 3
ITEM 3 => seat 1 call 2 operations 1 writes 2; pruned 1 2
";

/// A prune, and an entry that was created meanwhile and doesn't expire before its moment.
const NOT_PRUNED: &str = "
create 1 n1 /web x:1 50
BEGIN prune 100
create 2 n1 /api x:1 100
COMMIT 0 1 1 => committed at 3
ITEM 3 => seat 1 call 1 operations 1 writes 1; pruned 1
";

/// Up to 65 others commit, none of which writes what the work has read.
const NONE_HITS: &str = "
BEGIN create 1 n1 /web x:1 0
COMMIT 0 1 1 => committed at 1
BEGIN create 2 n1 /web x:2 0
AGAIN 1 set_agent n9 x:1
COMMIT 0 1 2 => committed at 3
BEGIN create 3 n1 /web x:3 0
AGAIN 63 set_agent n9 x:1
COMMIT 0 1 3 => committed at 67
BEGIN create 4 n1 /web x:4 0
AGAIN 64 set_agent n9 x:1
COMMIT 0 1 4 => committed at 132
BEGIN create 5 n1 /web x:5 0
AGAIN 65 set_agent n9 x:1
COMMIT 0 1 5 => committed at 198
ITEM 198 => seat 1 call 5 operations 1 writes 1; entry 5.0
HEAD => place 198 kept 198 newest 198
";

/// Up to 65 others commit, the first of which writes what the work has read.
const FIRST_HITS: &str = "
BEGIN create 1 n1 /web x:1 0
create 11 n1 /web x:11 0
COMMIT 0 1 1 => conflict at 1
BEGIN create 2 n1 /web x:2 0
create 12 n1 /web x:12 0
AGAIN 62 set_agent n9 x:1
COMMIT 0 1 2 => conflict at 64
BEGIN create 3 n1 /web x:3 0
create 13 n1 /web x:13 0
AGAIN 63 set_agent n9 x:1
COMMIT 0 1 3 => conflict at 128
BEGIN create 4 n1 /web x:4 0
create 14 n1 /web x:14 0
AGAIN 64 set_agent n9 x:1
COMMIT 0 1 4 => conflict at 193
HEAD => place 193 kept 193 newest 193
";

/// An entry of the group is created and deleted in the first two of up to 65 commits. Up to 63 commits are checked by their
/// writes, more by comparing the rows.
const CAME_AND_WENT: &str = "
BEGIN create 1 n1 /web x:1 0
create 11 n1 /web x:11 0
delete 11
COMMIT 0 1 1 => conflict at 2
BEGIN create 2 n1 /web x:2 0
create 12 n1 /web x:12 0
delete 12
AGAIN 61 set_agent n9 x:1
COMMIT 0 1 2 => conflict at 65
BEGIN create 3 n1 /web x:3 0
create 13 n1 /web x:13 0
delete 13
AGAIN 62 set_agent n9 x:1
COMMIT 0 1 3 => committed at 130
BEGIN create 4 n1 /web x:4 0
create 14 n1 /web x:14 0
delete 14
AGAIN 63 set_agent n9 x:1
COMMIT 0 1 4 => committed at 196
HEAD => place 196 kept 196 newest 196
";

/// A checkpoint keeps the last 64 items, and waiting works continue.
const CHECKPOINT: &str = "
AGAIN 99 set_agent n9 x:1
BEGIN create 1 n1 /web x:1 0
BEGIN create 2 n1 /web x:1 0
set_agent n9 x:1
HEAD => place 100 kept 100 newest 100
ITEM 1 => seat 0 call 0 operations 1 writes 1; agent n9 1
CHECKPOINT => 36
HEAD => place 100 kept 64 newest 100
ITEM 36 => none
ITEM 37 => seat 0 call 36 operations 1 writes 1; agent n9 1
ITEM 100 => seat 0 call 99 operations 1 writes 1; agent n9 1
ITEM 101 => none
COMMIT 0 1 1 => committed at 101
COMMIT 0 2 1 => conflict at 101
ITEM 101 => seat 1 call 1 operations 1 writes 1; entry 1.0
HEAD => place 101 kept 65 newest 101
CHECKPOINT => 1
CHECKPOINT => 0
HEAD => place 101 kept 64 newest 101
";

/// A checkpoint that moves the items to a list does the same, and commits continue.
const CHECKPOINT_INTO: &str = "
AGAIN 63 set_agent n9 x:1
CHECKPOINT-INTO => none
set_agent n9 x:1
CHECKPOINT-INTO => none
BEGIN create 1 n1 /web x:1 0
set_agent n9 x:1
CHECKPOINT-INTO => calls 0 to 0, 1 in all
HEAD => place 65 kept 64 newest 65
ITEM 1 => none
ITEM 2 => seat 0 call 1 operations 1 writes 1; agent n9 1
COMMIT 0 1 1 => committed at 66
AGAIN 34 set_agent n9 x:1
CHECKPOINT-INTO => calls 1 to 35, 35 in all
ITEM 36 => none
ITEM 37 => seat 0 call 36 operations 1 writes 1; agent n9 1
ITEM 66 => seat 1 call 1 operations 1 writes 1; entry 1.0
HEAD => place 100 kept 64 newest 100
";

/// An entry of the group is created and deleted, and a checkpoint drops the first of these two commits.
const DROPPED_ITEMS: &str = "
BEGIN create 1 n1 /web x:1 0
create 11 n1 /web x:11 0
delete 11
AGAIN 63 set_agent n9 x:1
CHECKPOINT => 1
HEAD => place 65 kept 64 newest 65
COMMIT 0 1 1 => committed at 66
";

/// A commit in two calls has the same result as one in one call.
const IN_TWO: &str = "
BEGIN create 1 n1 /web x:1 0
BEGIN create 2 n1 /web x:1 0
BEGIN create 3 n2 /web x:1 0; show 3
COMMIT-IN-TWO 0 1 1 => committed at 1
HEAD => place 1 kept 1 newest 1
ITEM 1 => seat 1 call 1 operations 1 writes 1; entry 1.0
COMMIT-IN-TWO 0 2 1 => conflict at 1
HEAD => place 1 kept 1 newest 1
COMMIT-IN-TWO 0 3 1 => committed at 2
ITEM 2 => seat 3 call 1 operations 2 writes 1; entry 3.0; shown 3.0
HEAD => place 2 kept 2 newest 2
";

/// The token is read, and written at the commit: the same batch committed again is a conflict, and then no commit.
const TOKEN: &str = "
BEGIN token 7; set_agent n1 x:1
BEGIN token 7; set_agent n2 x:1
COMMIT 0 1 1 => committed at 1
COMMIT 0 2 1 => conflict at 1
ITEM 1 => seat 1 call 1 operations 1 writes 2; agent n1 1
";

#[test]
fn a_batch_commits_that_began_on_the_newest_version(rt: HostRuntime) -> Result<(), Fail> {
    plays(&rt, rt.alloc(), AT_ONCE)
}

#[test]
fn two_creates_under_two_parents_both_commit(rt: HostRuntime) -> Result<(), Fail> {
    plays(&rt, rt.alloc(), TWO_PARENTS)
}

#[test]
fn the_second_create_of_an_entry_is_a_conflict(rt: HostRuntime) -> Result<(), Fail> {
    plays(&rt, rt.alloc(), SAME_ENTRY)
}

#[test]
fn the_second_create_of_a_similar_entry_is_a_conflict(rt: HostRuntime) -> Result<(), Fail> {
    plays(&rt, rt.alloc(), SIMILAR_ENTRY)
}

#[test]
fn a_bundle_that_was_named_meanwhile_is_a_conflict(rt: HostRuntime) -> Result<(), Fail> {
    plays(&rt, rt.alloc(), NAMED_FIRST)
}

#[test]
fn a_bundle_that_was_dropped_meanwhile_is_a_conflict(rt: HostRuntime) -> Result<(), Fail> {
    plays(&rt, rt.alloc(), DROPPED_FIRST)
}

#[test]
fn an_entry_that_expires_before_a_prune_is_a_conflict(rt: HostRuntime) -> Result<(), Fail> {
    plays(&rt, rt.alloc(), PRUNED)
}

#[test]
fn an_entry_that_expires_later_is_none(rt: HostRuntime) -> Result<(), Fail> {
    plays(&rt, rt.alloc(), NOT_PRUNED)
}

#[test]
fn others_that_hit_nothing_hinder_no_commit(rt: HostRuntime) -> Result<(), Fail> {
    plays(&rt, rt.alloc(), NONE_HITS)
}

#[test]
fn a_lasting_write_is_a_conflict_however_many_follow(rt: HostRuntime) -> Result<(), Fail> {
    plays(&rt, rt.alloc(), FIRST_HITS)
}

#[test]
fn a_row_that_came_and_went_is_a_conflict_by_its_writes_alone(rt: HostRuntime) -> Result<(), Fail> {
    plays(&rt, rt.alloc(), CAME_AND_WENT)
}

#[test]
fn a_checkpoint_keeps_the_last_items(rt: HostRuntime) -> Result<(), Fail> {
    plays(&rt, rt.alloc(), CHECKPOINT)
}

#[test]
fn a_checkpoint_moves_the_older_items_to_a_list(rt: HostRuntime) -> Result<(), Fail> {
    plays(&rt, rt.alloc(), CHECKPOINT_INTO)
}

#[test]
fn a_work_outlasts_the_items_since_it_began(rt: HostRuntime) -> Result<(), Fail> {
    plays(&rt, rt.alloc(), DROPPED_ITEMS)
}

#[test]
fn a_commit_in_two_calls_is_one(rt: HostRuntime) -> Result<(), Fail> {
    plays(&rt, rt.alloc(), IN_TWO)
}

#[test]
fn a_token_commits_once(rt: HostRuntime) -> Result<(), Fail> {
    plays(&rt, rt.alloc(), TOKEN)
}
