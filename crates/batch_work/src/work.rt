//! What is the state of a batch in execution, and what does its next read do?

ghost use Rattle.std.specs.Prelude.{◌≡◌, ◌+◌, ◌≤◌, IfOk, IfSome, Some, None, true, false, length, vec_capacity, vec_len};
ghost use Rattle.batch_work.specs.WorkInvariants.{IsStartOf, IsRunning, StageInvariant, FoundInvariant, base_of};

use crate::begin::{begin_on, first_stage};
use crate::look::{look, next_mark};
use crate::stage::{Begun, Found, Progress, Stage};
use crate::status::Status;
use crate::take::take_down;
use crate::versioned::Versioned;
use crate::versions::earlier_in;
use entry_book::{Batch, OpReply, Reply, Sequence, Shared};
use std::alloc::{AllocError, Global};
use std::marker::Model;
use std::mem::replace;
use version_book::{Changes, Mark, Version};

/// Records a read that was made, and its mark, for which there is room. Returns the stage after it, and true. If memory runs
/// out, it returns false, and the read is still to be recorded.
fn record_read(
    alloc: Global,
    begun: &Begun,
    batch: &Batch,
    progress: &mut Progress,
    mark: Mark,
    found: Found,
) -> (Stage, bool)
    requires began { IsStartOf batch.now begun.now }
    requires room { vec_len progress.old.marks + 1 ≤ vec_capacity progress.old.marks }
    requires holds_at_stage { FoundInvariant mark found batch.now (base_of begun.now) progress.old.marks.items progress.old.changes progress.old.replies.items }
    ensures holds_at_stage { StageInvariant result.0 batch.now (base_of begun.now) progress.new.marks.items progress.new.changes progress.new.replies.items }
    ensures kept { result.1 ≡ true → length progress.new.marks.items ≡ length progress.old.marks.items + 1 }
    ensures is_unchanged { result.1 ≡ false → progress.new.marks.items ≡ progress.old.marks.items }
{
    match take_down(alloc, begun, batch, progress, &mark, found) {
        Ok(stage) => {
            progress.marks.push_reserved(mark);
            (stage, true)
        }
        Err(found) => (Stage::Read(mark, found), false),
    }
}

/// Makes the next read of a running work, and records it and its mark, for which there is room. Returns the stage after it, and
/// true. If memory runs out, it returns false, and the same read is still to be made or to be recorded.
fn make_step(
    alloc: Global,
    begun: &Begun,
    batch: &Batch,
    progress: &mut Progress,
    stage: Stage,
) -> (Stage, bool)
    requires began { IsStartOf batch.now begun.now }
    requires room { vec_len progress.old.marks + 1 ≤ vec_capacity progress.old.marks }
    requires holds_at_stage { StageInvariant stage batch.now (base_of begun.now) progress.old.marks.items progress.old.changes progress.old.replies.items }
    requires running { IsRunning stage }
    ensures holds_at_stage { StageInvariant result.0 batch.now (base_of begun.now) progress.new.marks.items progress.new.changes progress.new.replies.items }
    ensures kept { result.1 ≡ true → length progress.new.marks.items ≡ length progress.old.marks.items + 1 }
    ensures is_unchanged { result.1 ≡ false → progress.new.marks.items ≡ progress.old.marks.items }
{
    match look(alloc, begun, batch, progress, stage) {
        Ok((mark, found)) => record_read(alloc, begun, batch, progress, mark, found),
        Err(stage) => (stage, false),
    }
}

/// Drops the previous stage.
fn discard(stage: Stage) {
    drop(stage);
}

/// A batch in execution. It begins on a window and makes one read with each step, through its own earlier changes. Then it
/// awaits its commit, or is settled. It changes no shared state. The model in contracts is its batch, what it began on, and the
/// number of reads made; everything else follows from these.
///
/// A step reads the rows of one mark. It costs the version's `read_after`, and storing what it found; it copies no row and no
/// text that it doesn't read. If memory runs out in a step, the work is unchanged, and the step can be repeated.
#[derive(Drop)]
pub struct Work {
    alloc: Global,
    batch: Batch,
    begun: Option<Begun>,
    progress: Progress,
    stage: Stage,
}

impl Model for Work {
    ghost use Rattle.std.specs.Prelude.{length, option_map};
    ghost use Rattle.batch_work.specs.WorkInvariants.{WorkInvariant, base_of};
    ghost use Rattle.batch_work.specs.Working.{Work};

    ghost Value = { Work };

    ghost view = { λ work. record {
      batch = work.batch;
      base = option_map base_of work.begun;
      steps = length work.progress.marks.items;
    } };

    ghost invariant = { λ work. WorkInvariant work.begun work.stage work.batch work.progress.marks.items work.progress.changes work.progress.replies.items };
}

impl Work {
    ghost use Rattle.std.specs.Prelude.{◌≡◌, ◌↔◌, ◌+◌, IfOk, IfSome, IsSome, OnOk, OnErr, Some, None, length, option_map};
    ghost use Rattle.std.specs.Option.{option_copied};
    ghost use Rattle.batch_work.specs.Working.{HasReplies, HasWrites, IsAnswer, IsNextRead, MayBegin, base_in, marks_so_far, status_of};

    /// Makes a work that hasn't begun. Allocates no memory.
    pub fn new(alloc: Global, batch: Batch) -> Work
        ensures { result ≡ record { batch = batch; base = None; steps = 0 } }
    {
        let progress = Progress {
            marks: Vec::new(alloc),
            changes: Changes::new(alloc),
            replies: Vec::new(alloc),
        };
        Work {
            alloc,
            batch,
            begun: None,
            progress,
            stage: Stage::New,
        }
    }

    /// Begins on a window of the trust domain that the batch was made for, whose number is within the limit on commits. A batch
    /// that may not run yet is settled immediately. The error is out of memory, and then nothing has changed.
    pub fn begin<W: Versioned>(&mut self, window: &W) -> Result<(), AllocError>
        requires is_new { status_of self.old ≡ Status.New }
        requires fits { MayBegin self.old.batch (W.window window.now) }
        ensures begun { OnOk result (self.new ≡ record self.old { base = Some (base_in self.old.batch (W.window window.now)) }) }
        ensures err { OnErr result (self.new ≡ self.old) }
    {
        // its contract says that the batch was made for its trust domain
        let _ = self.batch.ops();
        let earlier = earlier_in(&self.batch, window);
        let begun = begin_on(&self.batch, window.newest(), earlier)?;
        let stage = first_stage(&self.batch, &begun);
        self.begun = Some(begun);
        discard(replace(&mut self.stage, stage));
        Ok(())
    }

    /// Returns the mark that the next step reads. The error is out of memory.
    pub fn next_mark(&self) -> Result<Mark, AllocError>
        requires running { status_of self.now ≡ Status.Running }
        ensures { IfOk result (IsNextRead self.now) }
    {
        let Some(begun) = &self.begun else {
            unreachable!()
        };
        next_mark(begun, &self.batch, &self.progress, &self.stage)
    }

    /// Makes the next read; its mark is then the last of `marks`. After the last read of an operation, later operations see its
    /// writes. The error is out of memory, and then nothing has changed.
    pub fn step(&mut self) -> Result<(), AllocError>
        requires running { status_of self.old ≡ Status.Running }
        ensures stepped { OnOk result (self.new ≡ record self.old { steps = self.old.steps + 1 }) }
        ensures err { OnErr result (self.new ≡ self.old) }
    {
        let Some(begun) = &self.begun else {
            unreachable!()
        };
        self.progress.marks.reserve(1)?;
        let stage = replace(&mut self.stage, Stage::New);
        let (stage, is_made) = make_step(self.alloc, begun, &self.batch, &mut self.progress, stage);
        discard(replace(&mut self.stage, stage));
        if is_made { Ok(()) } else { Err(AllocError) }
    }

    /// Makes all reads that are left. The error is out of memory; then the call can be repeated.
    pub fn run(&mut self) -> Result<(), AllocError>
        ensures not_running { OnOk result (status_of self.new ≡ Status.Running → ⊥) }
        ensures same { self.new ≡ record self.old { steps = self.new.steps } }
    {
        while self.status() == Status::Running {
            self.step()?;
        }
        Ok(())
    }

    /// Returns what the work waits for. Allocates no memory.
    pub fn status(&self) -> Status
        ensures { result ≡ status_of self.now }
    {
        match &self.stage {
            Stage::New => Status::New,
            Stage::Token(_) | Stage::Gone | Stage::At(_, _) | Stage::Read(_, _) => Status::Running,
            Stage::Ready(_) => Status::Ready,
            Stage::Settled(_) => Status::Settled,
        }
    }

    /// Returns the batch.
    pub fn batch(&self) -> &Batch
        ensures { result.now ≡ self.now.batch }
    {
        &self.batch
    }

    /// Returns the newest version of the window on which it began, if it has begun.
    pub fn base(&self) -> Option<&Version>
        ensures { option_copied result ≡ option_map (λ base. base.newest) self.now.base }
    {
        match &self.begun {
            Some(begun) => Some(&begun.newest),
            None => None,
        }
    }

    /// Returns the marks read so far, in the order of the reads.
    pub fn marks(&self) -> &[Mark]
        ensures marks { result.now ≡ marks_so_far self.now }
        ensures steps { length result.now ≡ self.now.steps }
    {
        self.progress.marks.as_slice()
    }

    /// Returns the writes of the batch, in order, if the work is ready: those of its operations, then that of its token, with
    /// the place 0. Otherwise the contract says nothing about the result.
    pub fn changes(&self) -> &Changes
        ensures { status_of self.now ≡ Status.Ready → HasWrites self.now result.now }
    {
        &self.progress.changes
    }

    /// Returns the replies to the operations, if the work is ready.
    pub fn replies(&self) -> Option<&Shared<Sequence<OpReply>>>
        ensures ready { IsSome result ↔ (status_of self.now ≡ Status.Ready) }
        ensures replies { IfSome result (λ replies. HasReplies self.now replies.now) }
    {
        match &self.stage {
            Stage::Ready(all) => Some(all),
            _ => None,
        }
    }

    /// Returns the reply to the batch, if the work is settled.
    pub fn reply(&self) -> Option<&Reply>
        ensures settled { IsSome result ↔ (status_of self.now ≡ Status.Settled) }
        ensures answer { IfSome result (λ reply. IsAnswer self.now reply.now) }
    {
        match &self.stage {
            Stage::Settled(reply) => Some(reply),
            _ => None,
        }
    }

    /// Returns the batch by value, and drops the versions and everything else.
    pub fn into_batch(self) -> Batch
        ensures { result ≡ self.batch }
    {
        let Work {
            batch,
            begun,
            progress,
            stage,
            ..
        } = self;
        drop(begun);
        drop(progress);
        discard(stage);
        batch
    }

    /// Returns the reply to the batch by value, if the work is settled, and drops the versions and everything else.
    pub fn into_reply(self) -> Option<Reply>
        ensures settled { IsSome result ↔ (status_of self ≡ Status.Settled) }
        ensures answer { IfSome result (λ reply. IsAnswer self reply) }
    {
        let Work {
            batch,
            begun,
            progress,
            stage,
            ..
        } = self;
        drop(batch);
        drop(begun);
        drop(progress);
        match stage {
            Stage::Settled(answer) => Some(answer),
            _ => {
                discard(stage);
                None
            }
        }
    }
}
