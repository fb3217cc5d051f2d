//! Does a shared window have the versions of a window, and do batches run alike on both?

ghost use Rattle.std.specs.Prelude.{◌≡◌, true};
ghost use Rattle.batch_work.specs.Windows.{IsNextVersion};

use crate::playing::{first_window, found_number, newest_number, plays_on};
use crate::running::{end_text, ended};
use crate::wanted::{holds_at, is_text};
use batch_work::{SharedWindow, Versioned, Window, Work, answer};
use std::alloc::Global;
use std::process::Abort;
use std::test::Fail;
use test_batches::{batch, reply_text};
use test_support::if_done;
use test_works::{MOST, may_begin};
use version_book::Version;

fn is_next(window: &SharedWindow, version: &Version) -> bool
    ensures { result ≡ true → IsNextVersion window.now.newest version.now }
{
    let number = window.newest().number();
    number <= MOST && version.number() == number + 1 && version.domain() == window.newest().domain()
}

/// The shared window after this one and the version, which must be the next one.
fn next(alloc: Global, shared: &SharedWindow, version: Version) -> Result<SharedWindow, Fail> {
    if !is_next(shared, &version) {
        drop(version);
        return Err(Fail::from("not the next version"));
    }
    Ok(shared.next(alloc, version)?)
}

/// The number of the version that the shared window returns for this one.
fn shared_number(shared: &SharedWindow, number: u64) -> Option<u64> {
    let version = shared.book(number)?;
    Some(version.number())
}

/// Returns true if both windows return the same for each number up to the one after the newest.
fn have_same(window: &Window, shared: &SharedWindow) -> bool {
    let newest = newest_number(window);
    for number in 0..newest.wrapping_add(2) {
        if found_number(window, number) != shared_number(shared, number) {
            return false;
        }
    }
    newest == shared.newest().number()
}

/// Plays one batch on the window, and returns the shared window after the version that it led to.
fn follow(
    rt: &impl Abort,
    alloc: Global,
    window: &mut Window,
    shared: &SharedWindow,
) -> Result<SharedWindow, Fail> {
    plays_on(rt, alloc, window, "set_agent n1 x:1")?;
    let next = next(alloc, shared, window.newest().clone()?)?;
    holds_at(
        rt,
        have_same(window, &next),
        "the same versions at",
        newest_number(window),
    );
    Ok(next)
}

/// Plays this many batches on the window, with a shared window after each, of which the last one is returned.
fn follow_often(
    rt: &impl Abort,
    alloc: Global,
    window: &mut Window,
    shared: &SharedWindow,
    times: u64,
) -> Result<SharedWindow, Fail> {
    let mut last = follow(rt, alloc, window, shared)?;
    for _ in 1..times {
        last = follow(rt, alloc, window, &last)?;
    }
    Ok(last)
}

/// The shared window with the newest version of the window alone.
fn first_shared(alloc: Global, window: &Window) -> Result<SharedWindow, Fail> {
    Ok(SharedWindow::of(alloc, window.newest().clone()?)?)
}

/// Begins with both windows of the empty book, and checks that the older shared windows have the same versions as before when the later
/// ones have shared their lists, and let versions go.
fn play_shared(rt: &impl Abort, alloc: Global, window: &mut Window) -> Result<(), Fail> {
    let first = first_shared(alloc, window)?;
    let early = follow_often(rt, alloc, window, &first, 70)?;
    let copy = window.clone()?;
    let late = follow_often(rt, alloc, window, &early, 25)?;
    holds_at(
        rt,
        have_same(&copy, &early),
        "the same versions later at",
        newest_number(&copy),
    );
    drop(late);
    drop(copy);
    drop(early);
    drop(first);
    Ok(())
}

#[test]
fn a_shared_window_has_the_versions_of_a_window(rt: HostRuntime) -> Result<(), Fail> {
    let mut window = first_window(rt.alloc())?;
    let played = play_shared(&rt, rt.alloc(), &mut window);
    drop(window);
    played
}

/// The outcome of a batch on the shared window.
fn shared_text(alloc: Global, shared: &SharedWindow, text: &str) -> Result<String, Fail> {
    let batch = batch(alloc, text)?;
    if !may_begin(shared, &batch) {
        drop(batch);
        return Err(Fail::from("no window for this batch"));
    }
    let mut work = Work::new(alloc, batch);
    let begun = work.begin(shared);
    let mut work = if_done(begun, work)?;
    let ran = work.run();
    let work = if_done(ran, work)?;
    let as_text = end_text(alloc, &work);
    drop(work);
    as_text
}

/// The reply of `answer` to a read-only batch.
fn answered_text(alloc: Global, shared: &SharedWindow, text: &str) -> Result<String, Fail> {
    let batch = batch(alloc, text)?;
    if !batch.is_query() || !may_begin(shared, &batch) {
        drop(batch);
        return Err(Fail::from("no window for this question"));
    }
    let borrowed = answer(alloc, &batch, shared)?;
    let reply = borrowed.to_owned(alloc);
    drop(borrowed);
    let reply = reply?;
    let text = reply_text(alloc, &reply);
    drop(reply);
    Ok(text?)
}

/// Plays a batch on both windows, which must have the same outcome.
fn comes_alike(
    rt: &impl Abort,
    alloc: Global,
    window: &Window,
    shared: &SharedWindow,
    text: &str,
) -> Result<(), Fail> {
    let work = ended(alloc, window, text)?;
    let expected = end_text(alloc, &work);
    drop(work);
    let expected = expected?;
    let got = shared_text(alloc, shared, text)?;
    is_text(rt, got.as_str(), expected.as_str(), text);
    Ok(())
}

/// A page of an earlier book that is still there, of one that is gone, and of one that isn't there yet; a change, and a batch that comes
/// too early.
const ALIKE: &str = "\
page 9 20 -
page 9 3 -
page 9 71 -
page 9 70 -
set_agent n1 x:1
after 90; set_agent n1 x:1
show 1
";

fn play_alike(rt: &impl Abort, alloc: Global, window: &mut Window) -> Result<(), Fail> {
    let first = first_shared(alloc, window)?;
    let shared = follow_often(rt, alloc, window, &first, 70)?;
    for text in ALIKE.lines() {
        comes_alike(rt, alloc, window, &shared, text)?;
    }
    let got = answered_text(alloc, &shared, "page 9 20 -")?;
    is_text(rt, got.as_str(), "answered at 70; page", "page 9 20 -");
    drop(shared);
    drop(first);
    Ok(())
}

#[test]
fn batches_run_alike_on_a_shared_window(rt: HostRuntime) -> Result<(), Fail> {
    let mut window = first_window(rt.alloc())?;
    let played = play_alike(&rt, rt.alloc(), &mut window);
    drop(window);
    played
}
