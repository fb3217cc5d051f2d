//! How are lines added to a log file, so that a crash leaves whole lines?

ghost use Rattle.std.specs.Prelude.{◌≡◌, ◌+◌, ◌<◌, ◌≤◌, ◌^◌, ◌++◌, ℕ, Bool, true, false, List, length, replicate, IsTrue, IfErr, IfOk, OnOk};
ghost use Rattle.line_log.specs.Failures.{LeavesLogUnchanged, IsWriteFault};
ghost use Rattle.line_log.specs.WritingPrivate.{IsDiskFault, IsSmallText};
ghost use Rattle.line_log.specs.Lines.{IsText, lines_in};
ghost use Rattle.line_log.specs.Log.{IsCrashed, IsSynced, MixesIf};
ghost use Rattle.line_log.specs.Tails.{MayEnd, tail_in};

use crate::error::LogError;
use crate::file::{LineFile, MAX_FILE_LEN};
use sqlite_disk::Disk;
use std::alloc::{AllocError, Global};

/// How many fillers one call writes.
const CHUNK: usize = 1 << 18;

/// Returns this many fillers. The error is out of memory.
fn fillers(alloc: Global, count: usize) -> Result<Vec<u8>, AllocError>
    ensures { IfOk result (λ v. v.items ≡ replicate count 30) }
{
    vec![in alloc; b'\x1e'; count]
}

impl<D: Disk> LineFile<D> {
    /// Adds whole lines, and syncs. At `Ok` each crash from then on leaves a file with them. A crash at any moment of the call
    /// leaves the lines from before it and the first k of the new ones, for some k. At an `Err` of the disk it isn't known whether
    /// they were added.
    pub(crate) fn append(&mut self, alloc: Global, text: &[u8]) -> Result<(), LogError>
        requires usable { IsTrue (D.Disk.is_usable self.old.disk) }
        requires synced { IsTrue (D.Disk.is_clean self.old.disk) → IsSynced D.Disk.seen D.Disk.may_leave self.old }
        requires text { IsText text.now }
        requires short { length text.now ≤ 2 ^ 23 }
        requires small { IsSmallText text.now }
        ensures clean { D.Disk.is_clean self.new.disk ≡ D.Disk.is_clean self.old.disk }
        ensures usable { OnOk result (IsTrue (D.Disk.is_usable self.new.disk)) }
        ensures synced { OnOk result (IsTrue (D.Disk.is_clean self.old.disk) → IsSynced D.Disk.seen D.Disk.may_leave self.new) }
        ensures added { OnOk result (IsTrue (D.Disk.is_clean self.old.disk) → lines_in (D.Disk.seen self.new.disk) ≡ lines_in (D.Disk.seen self.old.disk) ++ lines_in text.now) }
        ensures any_moment { IsTrue (D.Disk.is_clean self.old.disk) → (mixes : Bool) → MixesIf D.Disk.is_mixing mixes → (c : List ℕ) → D.Disk.may_leave self.new.disk c
            → IsCrashed mixes (lines_in (D.Disk.seen self.old.disk)) (lines_in (D.Disk.seen self.old.disk) ++ lines_in text.now) c }
        ensures refused { IfErr result (λ e. LeavesLogUnchanged e → self.new ≡ self.old) }
        ensures justified { IfErr result (λ e. IsWriteFault self.old.len (D.Disk.faults self.old.disk) (D.Disk.faults self.new.disk) e) }
    {
        self.make_room(alloc, text.len())?;
        self.write(text)
    }

    /// Makes room for this many bytes, and a filler behind them.
    fn make_room(&mut self, alloc: Global, count: usize) -> Result<(), LogError>
        requires usable { IsTrue (D.Disk.is_usable self.old.disk) }
        requires short { count ≤ 2 ^ 23 }
        requires synced { IsTrue (D.Disk.is_clean self.old.disk) → IsSynced D.Disk.seen D.Disk.may_leave self.old }
        ensures clean { D.Disk.is_clean self.new.disk ≡ D.Disk.is_clean self.old.disk }
        ensures usable { OnOk result (IsTrue (D.Disk.is_usable self.new.disk)) }
        ensures room { OnOk result (self.new.end + count < self.new.len) }
        ensures synced { OnOk result (IsTrue (D.Disk.is_clean self.old.disk) → IsSynced D.Disk.seen D.Disk.may_leave self.new) }
        ensures same { OnOk result (IsTrue (D.Disk.is_clean self.old.disk) → lines_in (D.Disk.seen self.new.disk) ≡ lines_in (D.Disk.seen self.old.disk)) }
        ensures any_moment { IsTrue (D.Disk.is_clean self.old.disk) → (c : List ℕ) → D.Disk.may_leave self.new.disk c
            → (lines_in c ≡ lines_in (D.Disk.seen self.old.disk)) × MayEnd true (tail_in c) }
        ensures refused { IfErr result (λ e. LeavesLogUnchanged e → self.new ≡ self.old) }
        ensures justified { IfErr result (λ e. IsWriteFault self.old.len (D.Disk.faults self.old.disk) (D.Disk.faults self.new.disk) e) }
        ensures faults { OnOk result (D.Disk.faults self.new.disk ≡ D.Disk.faults self.old.disk) }
    {
        if count < self.len - self.end {
            return Ok(());
        }
        if self.len > MAX_FILE_LEN {
            return Err(LogError::FileTooLong);
        }
        let fillers = fillers(alloc, count + CHUNK)?;
        self.disk.write_at(self.len, &fillers)?;
        self.disk.sync()?;
        self.len += fillers.len();
        Ok(())
    }

    /// Writes lines over fillers, and syncs.
    fn write(&mut self, text: &[u8]) -> Result<(), LogError>
        requires usable { IsTrue (D.Disk.is_usable self.old.disk) }
        requires synced { IsTrue (D.Disk.is_clean self.old.disk) → IsSynced D.Disk.seen D.Disk.may_leave self.old }
        requires text { IsText text.now }
        requires short { length text.now ≤ 2 ^ 23 }
        requires small { IsSmallText text.now }
        requires room { self.old.end + length text.now < self.old.len }
        ensures clean { D.Disk.is_clean self.new.disk ≡ D.Disk.is_clean self.old.disk }
        ensures usable { OnOk result (IsTrue (D.Disk.is_usable self.new.disk)) }
        ensures synced { OnOk result (IsTrue (D.Disk.is_clean self.old.disk) → IsSynced D.Disk.seen D.Disk.may_leave self.new) }
        ensures added { OnOk result (IsTrue (D.Disk.is_clean self.old.disk) → lines_in (D.Disk.seen self.new.disk) ≡ lines_in (D.Disk.seen self.old.disk) ++ lines_in text.now) }
        ensures any_moment { IsTrue (D.Disk.is_clean self.old.disk) → (mixes : Bool) → MixesIf D.Disk.is_mixing mixes → (c : List ℕ) → D.Disk.may_leave self.new.disk c
            → IsCrashed mixes (lines_in (D.Disk.seen self.old.disk)) (lines_in (D.Disk.seen self.old.disk) ++ lines_in text.now) c }
        ensures justified { IfErr result (λ e. IsDiskFault (D.Disk.faults self.old.disk) (D.Disk.faults self.new.disk) e) }
    {
        if text.is_empty() {
            return Ok(());
        }
        if self.disk.mixes() {
            self.write_at_once(text)
        } else {
            self.write_brace_last(text)
        }
    }

    /// Writes lines with one sync. A torn write must leave each byte a filler or new. A start takes a torn write of more than 64 KiB for one
    /// only if it was of one line.
    fn write_at_once(&mut self, text: &[u8]) -> Result<(), LogError>
        requires usable { IsTrue (D.Disk.is_usable self.old.disk) }
        requires synced { IsTrue (D.Disk.is_clean self.old.disk) → IsSynced D.Disk.seen D.Disk.may_leave self.old }
        requires text { IsText text.now }
        requires some { 0 < length text.now }
        requires short { length text.now ≤ 2 ^ 23 }
        requires small { IsSmallText text.now }
        requires room { self.old.end + length text.now < self.old.len }
        requires mixing { IsTrue (D.Disk.is_mixing self.old.disk) }
        ensures clean { D.Disk.is_clean self.new.disk ≡ D.Disk.is_clean self.old.disk }
        ensures usable { OnOk result (IsTrue (D.Disk.is_usable self.new.disk)) }
        ensures synced { OnOk result (IsTrue (D.Disk.is_clean self.old.disk) → IsSynced D.Disk.seen D.Disk.may_leave self.new) }
        ensures added { OnOk result (IsTrue (D.Disk.is_clean self.old.disk) → lines_in (D.Disk.seen self.new.disk) ≡ lines_in (D.Disk.seen self.old.disk) ++ lines_in text.now) }
        ensures any_moment { IsTrue (D.Disk.is_clean self.old.disk) → (c : List ℕ) → D.Disk.may_leave self.new.disk c
            → IsCrashed true (lines_in (D.Disk.seen self.old.disk)) (lines_in (D.Disk.seen self.old.disk) ++ lines_in text.now) c }
        ensures justified { IfErr result (λ e. IsDiskFault (D.Disk.faults self.old.disk) (D.Disk.faults self.new.disk) e) }
    {
        self.disk.write_at(self.end, text)?;
        self.disk.sync()?;
        self.end += text.len();
        Ok(())
    }

    /// Writes lines with two syncs: all but the first byte, and then that byte, without which none of them counts.
    fn write_brace_last(&mut self, text: &[u8]) -> Result<(), LogError>
        requires usable { IsTrue (D.Disk.is_usable self.old.disk) }
        requires synced { IsTrue (D.Disk.is_clean self.old.disk) → IsSynced D.Disk.seen D.Disk.may_leave self.old }
        requires text { IsText text.now }
        requires some { 0 < length text.now }
        requires room { self.old.end + length text.now < self.old.len }
        ensures clean { D.Disk.is_clean self.new.disk ≡ D.Disk.is_clean self.old.disk }
        ensures usable { OnOk result (IsTrue (D.Disk.is_usable self.new.disk)) }
        ensures synced { OnOk result (IsTrue (D.Disk.is_clean self.old.disk) → IsSynced D.Disk.seen D.Disk.may_leave self.new) }
        ensures added { OnOk result (IsTrue (D.Disk.is_clean self.old.disk) → lines_in (D.Disk.seen self.new.disk) ≡ lines_in (D.Disk.seen self.old.disk) ++ lines_in text.now) }
        ensures any_moment { IsTrue (D.Disk.is_clean self.old.disk) → (c : List ℕ) → D.Disk.may_leave self.new.disk c
            → IsCrashed false (lines_in (D.Disk.seen self.old.disk)) (lines_in (D.Disk.seen self.old.disk) ++ lines_in text.now) c }
        ensures justified { IfErr result (λ e. IsDiskFault (D.Disk.faults self.old.disk) (D.Disk.faults self.new.disk) e) }
    {
        self.disk.write_at(self.end + 1, &text[1..])?;
        self.disk.sync()?;
        self.disk.write_at(self.end, &text[..1])?;
        self.disk.sync()?;
        self.end += text.len();
        Ok(())
    }
}
