//! A head, and the works that have begun on it and wait for their commits.

ghost use Rattle.std.specs.Prelude.{◌≡◌, IfOk, true};
ghost use Rattle.batch_work.specs.Working.{status_of};
ghost use Rattle.batch_work.specs.declared.status.Status.TheVariants as status;
ghost use Rattle.commit_head.specs.Heads.{BeganOn, IsCommit};

use batch_work::{Status, Versioned, Work};
use commit_head::{Commit, Head, Item};
use entry_book::Batch;
use spiffe_name::TrustDomain;
use std::alloc::{AllocError, Global};
use std::marker::Model;
use std::test::Fail;

/// A bound on the number of steps of a work in these tests.
const STEPS: u64 = 10_000;

/// Makes all steps of a work that has begun on the head.
fn run_to_end(head: &Head, work: &mut Work) -> Result<(), Fail>
    requires { BeganOn work.old.base head.now }
    ensures { BeganOn work.new.base head.now }
{
    let _ = head;
    for _ in 0..STEPS {
        if work.status() != Status::Running {
            break;
        }
        work.step()?;
    }
    Ok(())
}

/// A work of the batch, begun on the head.
fn begun(alloc: Global, head: &Head, batch: Batch) -> Result<Work, Fail>
    ensures { IfOk result (λ work. BeganOn work.base head.now) }
{
    let window = head.window();
    if batch.domain() != window.newest().domain() {
        return Err(Fail::from("another trust domain"));
    }
    let mut work = Work::new(alloc, batch);
    let Ok(()) = work.begin(window) else {
        drop(work);
        return Err(Fail::from(AllocError));
    };
    match run_to_end(head, &mut work) {
        Ok(()) => Ok(work),
        Err(why) => {
            drop(work);
            Err(why)
        }
    }
}

/// Returns true if the head may commit the work.
fn may_commit(head: &Head, work: &Work) -> bool
    ensures ready { result ≡ true → status_of work.now ≡ status.Ready }
    ensures domain { result ≡ true → work.now.batch.domain ≡ head.now.window.newest.domain }
{
    work.status() == Status::Ready && work.batch().domain() == head.window().newest().domain()
}

/// Commits in two calls. Also returns whether the place and the number of stored items were unchanged between the two calls.
fn commit_in_two(head: &mut Head, seat: u32, call: u64, work: &Work) -> (Commit, bool)
    requires ready { status_of work.now ≡ status.Ready }
    requires domain { work.now.batch.domain ≡ head.old.window.newest.domain }
    requires began { BeganOn work.now.base head.old }
    ensures { IsCommit head.old seat call work.now result.0 head.new }
{
    let (place, kept) = (head.place(), head.kept());
    match head.prepare(seat, call, work) {
        Ok(prepared) => {
            let same = head.place() == place && head.kept() == kept;
            (Commit::Committed(head.finish(prepared)), same)
        }
        Err(refusal) => (refusal, head.place() == place && head.kept() == kept),
    }
}

/// A head, and the works that have begun on it and wait, in the order in which they began.
#[derive(Drop)]
pub struct TestHead {
    head: Head,
    works: Vec<Work>,
}

impl Model for TestHead {
    ghost use Rattle.std.specs.Prelude.{All};
    ghost use Rattle.commit_head.specs.Heads.{BeganOn, Head};

    ghost Value = { Head };

    ghost view = { λ test_head. test_head.head };

    ghost invariant = { λ test_head. All (λ work. BeganOn work.base test_head.head) test_head.works.items };
}

impl TestHead {
    ghost use Rattle.std.specs.Prelude.{◌≡◌, ◌≤◌, [], IfOk, vec_capacity};
    ghost use Rattle.batch_work.specs.Working.{status_of};
    ghost use Rattle.batch_work.specs.declared.status.Status.TheVariants as status;
    ghost use Rattle.commit_head.specs.Heads.{BeganOn};

    /// The head of a trust domain's server, without a work.
    pub fn new(alloc: Global, domain: TrustDomain) -> Result<TestHead, Fail> {
        Ok(TestHead {
            head: Head::new(alloc, domain)?,
            works: Vec::new(alloc),
        })
    }

    pub fn head(&self) -> &Head {
        &self.head
    }

    /// The number of waiting works.
    pub fn waiting(&self) -> usize {
        self.works.len()
    }

    /// Begins a work of the batch and makes its steps. If it is then ready, adds it to the waiting works and returns true.
    pub fn begin(&mut self, alloc: Global, batch: Batch) -> Result<bool, Fail> {
        let work = begun(alloc, &self.head, batch)?;
        if work.status() != Status::Ready {
            drop(work);
            return Ok(false);
        }
        self.works.push(work)?;
        Ok(true)
    }

    /// Removes and returns the work at this index, if it is ready.
    fn taken(&mut self, index: usize) -> Result<Work, Fail>
        ensures head { self.new ≡ self.old }
        ensures ready { IfOk result (λ work. status_of work ≡ status.Ready) }
        ensures domain { IfOk result (λ work. work.batch.domain ≡ self.new.window.newest.domain) }
        ensures began { IfOk result (λ work. BeganOn work.base self.new) }
    {
        if index >= self.works.len() {
            return Err(Fail::from("no such work"));
        }
        let work = self.works.remove(index);
        if may_commit(&self.head, &work) {
            Ok(work)
        } else {
            drop(work);
            Err(Fail::from("not ready"))
        }
    }

    /// Removes and commits the work at this index. Returns the result, and the work.
    pub fn commit(&mut self, index: usize, seat: u32, call: u64) -> Result<(Commit, Work), Fail> {
        let work = self.taken(index)?;
        let commit = self.head.commit(seat, call, &work);
        Ok((commit, work))
    }

    /// Removes the work at this index and commits it in two calls, as the function above.
    pub fn commit_in_two(
        &mut self,
        index: usize,
        seat: u32,
        call: u64,
    ) -> Result<(Commit, bool), Fail> {
        let work = self.taken(index)?;
        let done = commit_in_two(&mut self.head, seat, call, &work);
        drop(work);
        Ok(done)
    }

    /// Drops all but the last 64 items of the journal (the commit log).
    pub fn checkpoint(&mut self) -> u64 {
        self.head.checkpoint()
    }

    /// Removes the same items, and moves them to the end of the list, which is empty.
    pub fn checkpoint_into(&mut self, older: &mut Vec<Item>)
        requires empty { older.old.items ≡ [] }
        requires room { 64 ≤ vec_capacity older.old }
    {
        self.head.checkpoint_into(older);
    }
}
