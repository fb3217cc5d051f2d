//! Which versions does a window have?

use crate::playing::{first_window, plays, plays_on};
use batch_work::Window;
use std::alloc::Global;
use std::process::Abort;
use std::test::Fail;

const ONE: &str = "
VERSIONS 0 1 => 0 newest 0
";

const SIXTY_FOUR: &str = "
AGAIN 63 set_agent n1 x:1
VERSIONS 0 2 => 0 1 2 newest 63
AGAIN 1 set_agent n1 x:1
VERSIONS 0 2 => 1 2 newest 64
";

const SEVENTY_ONE: &str = "
AGAIN 70 set_agent n1 x:1
VERSIONS 0 30 => 7 8 9 10 11 12 13 14 15 16 17 18 19 20 21 22 23 24 25 26 27 28 29 30 newest 70
VERSIONS 31 51 => 31 32 33 34 35 36 37 38 39 40 41 42 43 44 45 46 47 48 49 50 51 newest 70
VERSIONS 52 71 => 52 53 54 55 56 57 58 59 60 61 62 63 64 65 66 67 68 69 70 newest 70
";

#[test]
fn a_window_begins_with_one_version(rt: HostRuntime) -> Result<(), Fail> {
    plays(&rt, rt.alloc(), ONE)
}

#[test]
fn a_window_lets_nothing_go_until_it_has_64(rt: HostRuntime) -> Result<(), Fail> {
    plays(&rt, rt.alloc(), SIXTY_FOUR)
}

#[test]
fn a_window_has_the_last_64_versions(rt: HostRuntime) -> Result<(), Fail> {
    plays(&rt, rt.alloc(), SEVENTY_ONE)
}

const OWNER: &str = "
AGAIN 1 set_agent n1 x:1
VERSIONS 0 3 => 2 3 newest 65
VERSIONS 63 66 => 63 64 65 newest 65
";

const COPY: &str = "
VERSIONS 0 3 => 1 2 3 newest 64
VERSIONS 63 66 => 63 64 newest 64
";

/// Continues a window that has 64 versions, and asserts that a copy of it stays as it was.
fn play_both(
    rt: &impl Abort,
    alloc: Global,
    owner: &mut Window,
    copy: &mut Window,
) -> Result<(), Fail> {
    plays_on(rt, alloc, owner, OWNER)?;
    plays_on(rt, alloc, copy, COPY)
}

/// Copies the window once it has 64 versions.
fn play_copied(rt: &impl Abort, alloc: Global, window: &mut Window) -> Result<(), Fail> {
    plays_on(rt, alloc, window, "AGAIN 64 set_agent n1 x:1")?;
    let mut copy = window.clone()?;
    let played = play_both(rt, alloc, window, &mut copy);
    drop(copy);
    played
}

#[test]
fn a_copy_is_unchanged_while_its_owner_continues(rt: HostRuntime) -> Result<(), Fail> {
    let mut window = first_window(rt.alloc())?;
    let played = play_copied(&rt, rt.alloc(), &mut window);
    drop(window);
    played
}
