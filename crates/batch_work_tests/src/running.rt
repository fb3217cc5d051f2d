//! Works, run to their end with their marks as text, and the commit of those that are ready.

ghost use Rattle.std.specs.Prelude.{◌≡◌, true};
ghost use Rattle.batch_work.specs.Windows.{IsNextVersion};

use batch_work::{Status, Versioned, Window, Work, answer};
use entry_book::Batch;
use std::alloc::Global;
use std::test::Fail;
use test_batches::{add_mark, batch, marks_text, replies_text, reply_text};
use test_support::if_done;
use test_works::{MOST, STEPS, begun, may_begin, next_of};
use version_book::Version;

/// Makes one more step, appends its mark, and returns true; returns false if the work isn't running.
fn step(alloc: Global, work: &mut Work, text: &mut String) -> Result<bool, Fail> {
    if work.status() != Status::Running {
        return Ok(false);
    }
    let mark = work.next_mark()?;
    let mark = if_done(work.step(), mark)?;
    let added = add_mark(alloc, text, &mark);
    drop(mark);
    added?;
    Ok(true)
}

/// Makes all steps, and returns the marks that they read, as text.
pub fn run_to_end(alloc: Global, work: &mut Work) -> Result<String, Fail> {
    let mut text = String::new(alloc);
    for _ in 0..STEPS {
        if !step(alloc, work, &mut text)? {
            break;
        }
    }
    if text != marks_text(alloc, work.marks())? {
        return Err(Fail::from("other marks than those of the steps"));
    }
    Ok(text)
}

/// The reply of `answer` to a read-only batch on the window, as text.
fn answered_text(alloc: Global, window: &Window, batch: &Batch) -> Result<String, Fail> {
    if !batch.is_query() || !may_begin(window, batch) {
        return Err(Fail::from("no window for this question"));
    }
    let borrowed = answer(alloc, batch, window)?;
    let reply = borrowed.to_owned(alloc);
    drop(borrowed);
    let reply = reply?;
    let text = reply_text(alloc, &reply);
    drop(reply);
    Ok(text?)
}

/// Makes all steps. If the batch is read-only, checks that `answer` gives the same reply as the work.
fn run_and_ask(alloc: Global, window: &Window, work: &mut Work) -> Result<(), Fail> {
    run_to_end(alloc, work)?;
    if work.batch().is_query()
        && answered_text(alloc, window, work.batch())? != end_text(alloc, work)?
    {
        return Err(Fail::from("answered otherwise at once"));
    }
    Ok(())
}

/// The work of the batch of a text on the window, at its end.
pub fn ended(alloc: Global, window: &Window, text: &str) -> Result<Work, Fail> {
    let mut work = begun(alloc, window, batch(alloc, text)?)?;
    let run = run_and_ask(alloc, window, &mut work);
    if_done(run, work)
}

/// The outcome of a work, as text: it is ready, with these replies, or settled with this reply.
pub fn end_text(alloc: Global, work: &Work) -> Result<String, Fail> {
    if let Some(reply) = work.reply() {
        return Ok(reply_text(alloc, reply)?);
    }
    match work.replies() {
        Some(replies) => Ok(replies_text(alloc, "ready", replies.get().as_slice())?),
        None => Err(Fail::from("neither ready nor settled")),
    }
}

fn is_next(window: &Window, version: &Version) -> bool
    ensures { result ≡ true → IsNextVersion window.now.newest version.now }
{
    let number = window.newest().number();
    number <= MOST && version.number() == number + 1 && version.domain() == window.newest().domain()
}

/// Pushes the version after the batch of a work that is ready.
pub fn commit(window: &mut Window, work: &Work) -> Result<(), Fail> {
    if work.status() != Status::Ready {
        return Err(Fail::from("not ready"));
    }
    let version = next_of(work)?;
    if !is_next(window, &version) {
        drop(version);
        return Err(Fail::from("begun on an older version"));
    }
    window.push(version);
    Ok(())
}

/// Commits the batch of a work if it is ready. Returns true if it is.
pub fn commits(window: &mut Window, work: &Work) -> Result<bool, Fail> {
    if work.status() != Status::Ready {
        return Ok(false);
    }
    commit(window, work)?;
    Ok(true)
}
