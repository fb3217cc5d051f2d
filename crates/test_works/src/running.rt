//! Works, run to their end, and the version after one: a work computes the writes on the version before, which applies them.

ghost use Rattle.std.specs.Prelude.{◌≡◌, ◌+◌, IfOk, List, None, false, true};
ghost use Rattle.entry_book.specs.Book.{token_at};
ghost use Rattle.entry_book.specs.History.{kept_under};
ghost use Rattle.entry_book.specs.declared.reply.OpReply.{OpReply};
ghost use Rattle.version_book.specs.Applying.{MayApply};
ghost use Rattle.version_book.specs.CommittedRows.{book_of};
ghost use Rattle.version_book.specs.Written.{placed};
ghost use Rattle.batch_work.specs.declared.status.Status.TheVariants as status;
ghost use Rattle.batch_work.specs.Working.{IsAccepted, MayBegin, status_of};

use batch_work::{Versioned, Window, Work};
use entry_book::Batch;
use std::alloc::{AllocError, Global};
use std::test::Fail;
use test_support::{if_done, pair_with};
use uuid::Uuid;
use version_book::{Changes, Mark, Version, laws};

/// A bound on the length of the histories of these tests.
pub const MOST: u64 = 1_000_000;

/// A bound on the number of steps of a work in these tests.
pub const STEPS: u64 = 10_000;

/// Returns true if a work of the batch may begin on the window.
pub fn may_begin<W: Versioned>(window: &W, batch: &Batch) -> bool
    ensures { result ≡ true → MayBegin batch.now (W.window window.now) }
{
    batch.domain() == window.newest().domain() && window.newest().number() <= MOST
}

/// Returns a work of the batch, begun on the window.
pub fn begun(alloc: Global, window: &Window, batch: Batch) -> Result<Work, Fail> {
    if !may_begin(window, &batch) {
        drop(batch);
        return Err(Fail::from("no window for this batch"));
    }
    let mut work = Work::new(alloc, batch);
    let begun = work.begin(window);
    Ok(if_done(begun, work)?)
}

/// Returns a work of the batch, begun on the version.
fn begun_on_version(alloc: Global, version: &Version, batch: Batch) -> Result<Work, Fail> {
    let (batch, copy) = pair_with(batch, version.clone())?;
    let window = Window::of(copy);
    let work = begun(alloc, &window, batch);
    drop(window);
    work
}

/// Returns the work of the batch on the version, at its end.
pub fn ended(alloc: Global, version: &Version, batch: Batch) -> Result<Work, Fail> {
    let mut work = begun_on_version(alloc, version, batch)?;
    let ended = work.run();
    Ok(if_done(ended, work)?)
}

fn has_token(version: &Version, token: Uuid) -> Result<bool, AllocError>
    ensures { IfOk result (λ has. has ≡ false → token_at token (book_of version.now.rows) ≡ None) }
{
    let reading = version.read(&Mark::token(token))?;
    let has_none = reading.tokens().is_empty();
    drop(reading);
    Ok(!has_none)
}

/// Returns true if something is stored under the token, if there is one.
fn is_kept(version: &Version, token: Option<Uuid>) -> Result<bool, AllocError>
    ensures { IfOk result (λ is_kept. is_kept ≡ false → kept_under token (book_of version.now.rows) ≡ None) }
{
    match token {
        Some(token) => has_token(version, token),
        None => Ok(false),
    }
}

/// Returns the next version, with one retry if out of memory.
fn made(version: &Version, changes: &Changes, number: u64) -> Result<Version, AllocError>
    requires { MayApply (placed number changes.now) number version.now }
{
    match version.apply(changes, number) {
        Ok(next) => Ok(next),
        Err(AllocError) => version.apply(changes, number),
    }
}

fn applied(version: &Version, batch: &Batch, changes: &Changes) -> Result<Version, Fail>
    requires accepted { (replies : List OpReply) × IsAccepted batch.now (book_of version.now.rows) replies changes.now }
    requires domain { batch.now.domain ≡ version.now.domain }
    requires kept { kept_under batch.now.token (book_of version.now.rows) ≡ None }
{
    laws::places();
    laws::applying();
    // its contract says that the batch was made for its trust domain
    let _ = batch.ops();
    let number = version.number();
    let count = version.count();
    if count.entries > 16_384
        || count.agents > 4_096
        || count.bundles > 1_024
        || count.tokens > 65_536
        || number > MOST
    {
        return Err(Fail::from("a large version"));
    }
    Ok(made(version, changes, number + 1)?)
}

/// Returns the version after the batch of a work that is ready.
pub fn next_of(work: &Work) -> Result<Version, Fail>
    requires ready { status_of work.now ≡ status.Ready }
{
    let Some(version) = work.base() else {
        return Err(Fail::from("not begun"));
    };
    if work.batch().domain() != version.domain() {
        return Err(Fail::from("another trust domain"));
    }
    if is_kept(version, work.batch().token())? {
        return Err(Fail::from("the token is kept already"));
    }
    applied(version, work.batch(), work.changes())
}
