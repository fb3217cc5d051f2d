//! Which version does a batch read, or why does it read none?

ghost use Rattle.std.specs.Prelude.{◌≡◌, ◌≤◌, IfSome};
ghost use Rattle.std.specs.Option.{option_copied};
ghost use Rattle.entry_book.specs.Batches.{past_place};
ghost use Rattle.batch_work.specs.Working.{earlier_in};

use crate::stage::Begun;
use crate::versioned::Versioned;
use entry_book::{Batch, OpRefusal, Refusal};
use std::marker::Model;
use version_book::Version;

/// Returns the version of the earlier book that a batch asks for, if it asks for one and the window has it.
pub(crate) fn earlier_in<'a, W: Versioned>(batch: &Batch, window: &'a W) -> Option<&'a Version>
    ensures found { option_copied result ≡ earlier_in (past_place batch.now.ops) (W.window window.now) }
    ensures earlier { IfSome result (λ version. (version.now.domain ≡ (W.window window.now).newest.domain) × (version.now.number ≤ (W.window window.now).newest.number)) }
{
    let place = batch.past_place()?;
    window.book(place)
}

/// Returns the refusal of a batch whose page asks for a book that isn't there.
pub(crate) fn version_gone() -> Refusal
    ensures { result ≡ Refusal.OfOp 0 OpRefusal.VersionGone }
{
    Refusal::OfOp(0, OpRefusal::VersionGone)
}

/// The versions that a batch may read, borrowed: the newest one, and that of the earlier book that it asks for, if it is there.
#[derive(Drop)]
pub(crate) struct Versions<'a> {
    newest: &'a Version,
    earlier: Option<&'a Version>,
}

impl<'a> Model for Versions<'a> {
    ghost use Rattle.std.specs.Option.{option_copied};
    ghost use Rattle.batch_work.specs.Working.{Base};

    ghost Value = { Base };

    ghost view = { λ versions. record {
      newest = versions.newest.now;
      earlier = option_copied versions.earlier;
    } };
}

impl<'a> Versions<'a> {
    ghost use Rattle.std.specs.Prelude.{◌≡◌, IfErr, IfOk, IfSome, Some};
    ghost use Rattle.std.specs.Option.{option_copied};
    ghost use Rattle.entry_book.specs.Batches.{past_place};
    ghost use Rattle.batch_work.specs.WorkInvariants.{InTime, ReadsNone, base_of};
    ghost use Rattle.batch_work.specs.Working.{base_in, version_read};

    /// Returns those of a window.
    pub(crate) fn of<W: Versioned>(batch: &Batch, window: &'a W) -> Versions<'a>
        ensures base { result ≡ base_in batch.now (W.window window.now) }
        ensures domain { IfSome result.earlier (λ earlier. earlier.domain ≡ (W.window window.now).newest.domain) }
    {
        Versions {
            newest: window.newest(),
            earlier: earlier_in(batch, window),
        }
    }

    /// Returns those on which a work began.
    pub(crate) fn begun(begun: &'a Begun) -> Versions<'a>
        ensures { result ≡ base_of begun.now }
    {
        Versions {
            newest: &begun.newest,
            earlier: begun.earlier.as_ref(),
        }
    }

    /// Returns the newest one.
    pub(crate) fn newest(&self) -> &'a Version
        ensures { result.now ≡ self.now.newest }
    {
        self.newest
    }

    /// Returns the one that a batch reads, if it is there.
    pub(crate) fn read(&self, batch: &Batch) -> Option<&'a Version>
        ensures { option_copied result ≡ version_read (past_place batch.now.ops) self.now }
    {
        match batch.past_place() {
            None => Some(self.newest),
            Some(_) => self.earlier,
        }
    }

    /// Returns the one that a batch reads. The error is why it reads none: it comes too early, or the book of its page isn't
    /// there.
    pub(crate) fn version_for(&self, batch: &Batch) -> Result<&'a Version, Refusal>
        ensures in_time { IfOk result (λ version. InTime batch.now self.now) }
        ensures read { IfOk result (λ version. Some version.now ≡ version_read (past_place batch.now.ops) self.now) }
        ensures refused { IfErr result (ReadsNone batch.now self.now) }
    {
        if self.newest.number() < batch.after() {
            return Err(Refusal::NotYet);
        }
        match self.read(batch) {
            Some(version) => Ok(version),
            None => Err(version_gone()),
        }
    }
}
