//! What is the result of a batch of changes on the published state?

ghost use Rattle.std.specs.Prelude.{◌≡◌, IfOk, Ok};
ghost use Rattle.shared_registry.specs.Works.{IsAtEnd, IsBegun};

use crate::published::PublishedValue;
use batch_work::Work;
use entry_book::Batch;
use std::alloc::{AllocError, Global};

/// Returns the value if there was memory for what was done to it; otherwise drops it.
fn if_done<T: Drop>(done: Result<(), AllocError>, value: T) -> Result<T, AllocError>
    ensures { IfOk result (λ returned. (returned ≡ value) × (done ≡ Ok tt)) }
{
    done?;
    Ok(value)
}

/// Returns a work of the batch that has begun on the published state. The error is out of memory.
pub(crate) fn begin_work(
    alloc: Global,
    snapshot: &PublishedValue,
    batch: Batch,
) -> Result<Work, AllocError>
    requires domain { batch.domain ≡ snapshot.now.window.newest.domain }
    ensures { IfOk result (IsBegun batch snapshot.now) }
{
    let mut work = Work::new(alloc, batch);
    let done = work.begin(snapshot.window());
    if_done(done, work)
}

/// Returns a work that has begun on the published state, after all its reads. The error is out of memory.
pub(crate) fn run_work(snapshot: &PublishedValue, mut work: Work) -> Result<Work, AllocError>
    requires began { IsBegun work.batch snapshot.now work }
    ensures { IfOk result (IsAtEnd work.batch snapshot.now) }
{
    // the snapshot occurs in the contract alone
    let _ = snapshot;
    let done = work.run();
    if_done(done, work)
}

/// Drops a work that is over.
pub(crate) fn discard(work: Work) {
    drop(work);
}
