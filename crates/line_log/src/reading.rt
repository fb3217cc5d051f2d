//! How is the file of a log read, line by line, and opened at its end?

ghost use Rattle.std.specs.Prelude.{◌≡◌, ◌+◌, ◌-◌, ◌^◌, ◌<◌, ◌≤◌, ◌++◌, ◌∷◌, [], ℕ, Bool, false, List, drop, length, slice_index, IsTrue, IfNone, IfOk, IfErr, IfSome, OnOk};
ghost use Rattle.sqlite_disk.specs.Disk.{Only};
ghost use Rattle.line_log.specs.Damage.{JustifiesError, JustifiesFinish, IsOutside};
ghost use Rattle.line_log.specs.Failures.{DiskErrorIsCounted, KeepsFile, LeavesFileUnchanged};
ghost use Rattle.line_log.specs.Lines.{lines_in};
ghost use Rattle.line_log.specs.Hashes.{hashed};
ghost use Rattle.line_log.specs.Log.{HasLines, IsAtRest, IsCutOff, KeepsLines, MixesIf};
ghost use Rattle.line_log.specs.Reading.{HasReadLines, IsPartOf, held_by};
ghost use Rattle.line_log.specs.ReadingPrivate.{BeginsAs, IsEnd, IsNextFault, IsPastFault, IsTornAt};
ghost use Rattle.line_log.specs.Tails.{MayEnd, tail_in};
ghost use Rattle.line_log.specs.TornRestPrivate.{HasEnd};
ghost use Rattle.line_log.specs.declared.first_line.FirstLine.TheVariants.{Whole};

use crate::error::LogError;
use crate::file::{LineFile, MAX_FILE_LEN, MAX_LINE_LEN, MAX_REST_LEN};
use crate::first_line::FirstLine;
use crate::hashing::take_line;
use crate::log::LineLog;
use crate::reader::LogReader;
use crate::tail::{cut_tail, overwrite_brace};
use crate::torn_rest::{is_torn_rest, used_from};
use sha2::{Digest, Sha256};
use sqlite_disk::Disk;
use std::alloc::Global;

/// How many bytes of a file one call reads.
pub(crate) const BLOCK: usize = 1 << 18;

/// Reads a part of a file.
pub(crate) fn read_block<D: Disk>(
    alloc: Global,
    disk: &mut D,
    at: usize,
    size: usize,
) -> Result<Vec<u8>, LogError>
    requires usable { IsTrue (D.Disk.is_usable disk.old) }
    ensures usable { IsTrue (D.Disk.is_usable disk.new) }
    ensures clean { IsTrue (D.Disk.is_clean disk.new) → IsTrue (D.Disk.is_clean disk.old) }
    ensures seen { D.Disk.seen disk.new ≡ D.Disk.seen disk.old }
    ensures crash { (c : List ℕ) → D.Disk.may_leave disk.new c → D.Disk.may_leave disk.old c }
    ensures counted { IfErr result (λ e. (IsTrue (D.Disk.is_clean disk.old) → at + size ≤ length (D.Disk.seen disk.old)) → DiskErrorIsCounted (D.Disk.faults disk.old) (D.Disk.faults disk.new) e) }
    ensures faults { OnOk result (D.Disk.faults disk.new ≡ D.Disk.faults disk.old) }
    ensures outside { IfErr result (λ e. IsOutside e) }
    ensures size { IfOk result (λ block. length block.items ≡ size) }
    ensures bytes { IfOk result (λ block. IsTrue (D.Disk.is_clean disk.new) → (i : ℕ) → i < size → slice_index (D.Disk.seen disk.old) (at + i) ≡ slice_index block.items i) }
{
    let mut block = vec![in alloc; 0; size]?;
    disk.read_at(at, &mut block)?;
    Ok(block)
}

impl<D: Disk> LogReader<D> {
    /// Begins to read the file of a log. An error hands the file back.
    pub fn new(alloc: Global, mut disk: D) -> Result<LogReader<D>, (LogError, D)>
        requires usable { IsTrue (D.Disk.is_usable disk) }
        ensures usable { IfOk result (λ r. IsTrue (D.Disk.is_usable r.disk)) }
        ensures clean { IfOk result (λ r. IsTrue (D.Disk.is_clean r.disk) → IsTrue (D.Disk.is_clean disk)) }
        ensures clean_err { IfErr result (λ e. IsTrue (D.Disk.is_clean e.1) → IsTrue (D.Disk.is_clean disk)) }
        ensures seen { IfOk result (λ r. D.Disk.seen r.disk ≡ D.Disk.seen disk) }
        ensures crash { IfOk result (λ r. (c : List ℕ) → D.Disk.may_leave r.disk c → D.Disk.may_leave disk c) }
        ensures crash_err { IfErr result (λ e. (c : List ℕ) → D.Disk.may_leave e.1 c → D.Disk.may_leave disk c) }
        ensures seen_err { IfErr result (λ e. D.Disk.seen e.1 ≡ D.Disk.seen disk) }
        ensures faults { IfOk result (λ r. D.Disk.faults r.disk ≡ D.Disk.faults disk) }
        ensures outside { IfErr result (λ e. IsOutside e.0) }
        ensures counted { IfErr result (λ e. DiskErrorIsCounted (D.Disk.faults disk) (D.Disk.faults e.1) e.0) }
        ensures read { IfOk result (λ r. IsTrue (D.Disk.is_clean r.disk) → HasReadLines (D.Disk.seen r.disk) r []) }
    {
        match disk.len() {
            Ok(len) => Ok(LogReader {
                disk,
                len,
                at: 0,
                count: 0,
                block: Vec::new(alloc),
                from: 0,
                hasher: Sha256::new(),
            }),
            Err(error) => Err((LogError::Disk(error), disk)),
        }
    }

    /// Reads the next line, without its hash, and returns true; or false if no whole line follows. Nothing is written. At `Err`
    /// begin again. `Damaged(n)` says that the line behind the first n has another hash than its text, or that the lines end there in
    /// something that no crash leaves; `LineTooLong(n)` that this line doesn't end within 8 MiB.
    pub fn next_line(&mut self, alloc: Global, line: &mut Vec<u8>) -> Result<bool, LogError>
        requires usable { IsTrue (D.Disk.is_usable self.old.disk) }
        ensures usable { IsTrue (D.Disk.is_usable self.new.disk) }
        ensures clean { IsTrue (D.Disk.is_clean self.new.disk) → IsTrue (D.Disk.is_clean self.old.disk) }
        ensures seen { D.Disk.seen self.new.disk ≡ D.Disk.seen self.old.disk }
        ensures crash { (c : List ℕ) → D.Disk.may_leave self.new.disk c → D.Disk.may_leave self.old.disk c }
        ensures next { IfOk result (λ any. IsTrue any → IsTrue (D.Disk.is_clean self.new.disk) → (lines : List (List ℕ)) → HasReadLines (D.Disk.seen self.old.disk) self.old lines
            → HasReadLines (D.Disk.seen self.old.disk) self.new (lines ++ line.new.items ∷ [])) }
        ensures last { IfOk result (λ any. any ≡ false → IsTrue (D.Disk.is_clean self.new.disk) → (lines : List (List ℕ)) → HasReadLines (D.Disk.seen self.old.disk) self.old lines
            → lines_in (D.Disk.seen self.old.disk) ≡ hashed lines) }
        ensures kept { IfOk result (λ any. any ≡ false → IsTrue (D.Disk.is_clean self.new.disk) → (lines : List (List ℕ)) → HasReadLines (D.Disk.seen self.old.disk) self.old lines
            → HasReadLines (D.Disk.seen self.old.disk) self.new lines) }
        ensures end { IfOk result (λ any. any ≡ false → IsTrue (D.Disk.is_clean self.new.disk) → (lines : List (List ℕ)) → HasReadLines (D.Disk.seen self.old.disk) self.old lines
            → MayEnd (D.Disk.is_mixing self.new.disk) (tail_in (D.Disk.seen self.old.disk))) }
        ensures counted { IfErr result (λ e. (IsTrue (D.Disk.is_clean self.old.disk) → (lines : List (List ℕ)) × HasReadLines (D.Disk.seen self.old.disk) self.old lines)
            → DiskErrorIsCounted (D.Disk.faults self.old.disk) (D.Disk.faults self.new.disk) e) }
        ensures faults { OnOk result (D.Disk.faults self.new.disk ≡ D.Disk.faults self.old.disk) }
        ensures justified { IfErr result (λ e. IsTrue (D.Disk.is_clean self.new.disk) → (lines : List (List ℕ)) → HasReadLines (D.Disk.seen self.old.disk) self.old lines
            → JustifiesError (D.Disk.is_mixing self.new.disk) (D.Disk.seen self.old.disk) lines e) }
    {
        let Some(len) = self.next_len(alloc)? else {
            return Ok(false);
        };
        self.accept_line(len, line)?;
        Ok(true)
    }

    /// Returns how many bytes `finish` would cut off, so that a caller can keep a copy of them before. The fillers at the end don't count.
    /// Fails as `finish` does, and writes nothing.
    pub fn rest_len(&mut self, alloc: Global) -> Result<usize, LogError>
        requires usable { IsTrue (D.Disk.is_usable self.old.disk) }
        ensures usable { IsTrue (D.Disk.is_usable self.new.disk) }
        ensures clean { IsTrue (D.Disk.is_clean self.new.disk) → IsTrue (D.Disk.is_clean self.old.disk) }
        ensures seen { D.Disk.seen self.new.disk ≡ D.Disk.seen self.old.disk }
        ensures crash { (c : List ℕ) → D.Disk.may_leave self.new.disk c → D.Disk.may_leave self.old.disk c }
        ensures kept { IsTrue (D.Disk.is_clean self.new.disk) → (lines : List (List ℕ)) → HasReadLines (D.Disk.seen self.old.disk) self.old lines
            → HasReadLines (D.Disk.seen self.old.disk) self.new lines }
        ensures last { OnOk result (IsTrue (D.Disk.is_clean self.new.disk) → (lines : List (List ℕ)) → HasReadLines (D.Disk.seen self.old.disk) self.old lines
            → lines_in (D.Disk.seen self.old.disk) ≡ hashed lines) }
        ensures end { OnOk result (IsTrue (D.Disk.is_clean self.new.disk) → (lines : List (List ℕ)) → HasReadLines (D.Disk.seen self.old.disk) self.old lines
            → MayEnd (D.Disk.is_mixing self.new.disk) (tail_in (D.Disk.seen self.old.disk))) }
        ensures cut { IfOk result (λ cut. IsTrue (D.Disk.is_clean self.new.disk) → (lines : List (List ℕ)) → HasReadLines (D.Disk.seen self.old.disk) self.old lines → IsCutOff (D.Disk.seen self.old.disk) cut) }
        ensures counted { IfErr result (λ e. (IsTrue (D.Disk.is_clean self.old.disk) → (lines : List (List ℕ)) × HasReadLines (D.Disk.seen self.old.disk) self.old lines)
            → DiskErrorIsCounted (D.Disk.faults self.old.disk) (D.Disk.faults self.new.disk) e) }
        ensures faults { OnOk result (D.Disk.faults self.new.disk ≡ D.Disk.faults self.old.disk) }
        ensures justified { IfErr result (λ e. IsTrue (D.Disk.is_clean self.new.disk) → (lines : List (List ℕ)) → HasReadLines (D.Disk.seen self.old.disk) self.old lines
            → JustifiesFinish (D.Disk.is_mixing self.new.disk) (D.Disk.seen self.old.disk) lines e) }
    {
        let len = self.look_past(alloc)?;
        Ok(len)
    }

    /// Opens the log whose lines were all read: cuts off what a crash left behind them, and leaves a filler there. It may crash too, and
    /// then the file has the same lines. An error hands the file back. Nothing is written if a line follows (`Unread`), whole or too long
    /// (`LineTooLong`), or if the lines end in something that no crash leaves (`Damaged`). Also returns how many bytes were cut off, without
    /// the fillers at the end.
    pub fn finish(mut self, alloc: Global) -> Result<(LineLog<D>, usize), (LogError, D)>
        requires usable { IsTrue (D.Disk.is_usable self.disk) }
        // What is read is what is on the disk: the file was synced since it was opened.
        requires durable { Only (D.Disk.seen self.disk) (D.Disk.may_leave self.disk) }
        requires read { IsTrue (D.Disk.is_clean self.disk) → (lines : List (List ℕ)) × HasReadLines (D.Disk.seen self.disk) self lines }
        ensures usable { IfOk result (λ r. IsTrue (D.Disk.is_usable r.0.file.disk)) }
        ensures clean { IfOk result (λ r. IsTrue (D.Disk.is_clean r.0.file.disk) → IsTrue (D.Disk.is_clean self.disk)) }
        ensures clean_err { IfErr result (λ e. IsTrue (D.Disk.is_clean e.1) → IsTrue (D.Disk.is_clean self.disk)) }
        ensures opened { IfOk result (λ r. IsTrue (D.Disk.is_clean r.0.file.disk) → (lines : List (List ℕ)) → HasReadLines (D.Disk.seen self.disk) self lines
            → HasLines D.Disk.seen D.Disk.may_leave r.0 lines) }
        ensures end { IfOk result (λ r. IsTrue (D.Disk.is_clean r.0.file.disk) → (lines : List (List ℕ)) → HasReadLines (D.Disk.seen self.disk) self lines
            → (mixes : Bool) → MixesIf D.Disk.is_mixing mixes → MayEnd mixes (tail_in (D.Disk.seen self.disk))) }
        ensures cut { IfOk result (λ r. IsTrue (D.Disk.is_clean r.0.file.disk) → (lines : List (List ℕ)) → HasReadLines (D.Disk.seen self.disk) self lines → IsCutOff (D.Disk.seen self.disk) r.1) }
        ensures kept { IfErr result (λ e. LeavesFileUnchanged e.0 → KeepsFile D.Disk.seen D.Disk.may_leave self.disk e.1) }
        ensures counted { IfErr result (λ e. DiskErrorIsCounted (D.Disk.faults self.disk) (D.Disk.faults e.1) e.0) }
        ensures justified { IfErr result (λ e. IsTrue (D.Disk.is_clean e.1) → (lines : List (List ℕ)) → HasReadLines (D.Disk.seen self.disk) self lines
            → JustifiesFinish (D.Disk.is_mixing e.1) (D.Disk.seen self.disk) lines e.0) }
        ensures any_moment { IfOk result (λ r. IsTrue (D.Disk.is_clean r.0.file.disk) → (c : List ℕ) → D.Disk.may_leave r.0.file.disk c → KeepsLines D.Disk.is_mixing (D.Disk.seen self.disk) c) }
        ensures any_moment_err { IfErr result (λ e. IsTrue (D.Disk.is_clean e.1) → (c : List ℕ) → D.Disk.may_leave e.1 c → KeepsLines D.Disk.is_mixing (D.Disk.seen self.disk) c) }
    {
        let trimmed = self.trim(alloc);
        let LogReader {
            disk,
            at,
            hasher,
            ..
        } = self;
        match trimmed {
            Ok(cut) => {
                let file = LineFile {
                    disk,
                    end: at,
                    len: at + 1,
                };
                Ok((LineLog { file, hasher }, cut))
            }
            Err(error) => Err((error, disk)),
        }
    }

    /// Cuts off what isn't a whole line, and leaves a filler behind the lines, all of which were read. Returns how many bytes were cut off.
    fn trim(&mut self, alloc: Global) -> Result<usize, LogError>
        requires usable { IsTrue (D.Disk.is_usable self.old.disk) }
        requires durable { Only (D.Disk.seen self.old.disk) (D.Disk.may_leave self.old.disk) }
        requires read { IsTrue (D.Disk.is_clean self.old.disk) → (lines : List (List ℕ)) × HasReadLines (D.Disk.seen self.old.disk) self.old lines }
        ensures usable { OnOk result (IsTrue (D.Disk.is_usable self.new.disk)) }
        ensures clean { IsTrue (D.Disk.is_clean self.new.disk) → IsTrue (D.Disk.is_clean self.old.disk) }
        ensures short { OnOk result (self.new.at ≤ 2 ^ 60) }
        ensures at { self.new.at ≡ self.old.at }
        ensures hasher { self.new.hasher ≡ self.old.hasher }
        ensures durable { OnOk result (Only (D.Disk.seen self.new.disk) (D.Disk.may_leave self.new.disk)) }
        ensures rest { OnOk result (IsTrue (D.Disk.is_clean self.new.disk) → IsAtRest (D.Disk.seen self.new.disk) self.old.at) }
        ensures len { OnOk result (length (D.Disk.seen self.new.disk) ≡ self.old.at + 1) }
        ensures same { OnOk result (IsTrue (D.Disk.is_clean self.new.disk) → lines_in (D.Disk.seen self.new.disk) ≡ lines_in (D.Disk.seen self.old.disk)) }
        ensures all { OnOk result (IsTrue (D.Disk.is_clean self.new.disk) → lines_in (drop self.old.at (D.Disk.seen self.old.disk)) ≡ []) }
        ensures end { OnOk result (IsTrue (D.Disk.is_clean self.new.disk) → (lines : List (List ℕ)) → HasReadLines (D.Disk.seen self.old.disk) self.old lines
            → (mixes : Bool) → MixesIf D.Disk.is_mixing mixes → MayEnd mixes (tail_in (D.Disk.seen self.old.disk))) }
        ensures cut { IfOk result (λ cut. IsTrue (D.Disk.is_clean self.new.disk) → (lines : List (List ℕ)) → HasReadLines (D.Disk.seen self.old.disk) self.old lines → IsCutOff (D.Disk.seen self.old.disk) cut) }
        ensures kept { IfErr result (λ e. LeavesFileUnchanged e → KeepsFile D.Disk.seen D.Disk.may_leave self.old.disk self.new.disk) }
        ensures counted { IfErr result (λ e. DiskErrorIsCounted (D.Disk.faults self.old.disk) (D.Disk.faults self.new.disk) e) }
        ensures justified { IfErr result (λ e. IsTrue (D.Disk.is_clean self.new.disk) → (lines : List (List ℕ)) → HasReadLines (D.Disk.seen self.old.disk) self.old lines
            → JustifiesFinish (D.Disk.is_mixing self.new.disk) (D.Disk.seen self.old.disk) lines e) }
        ensures any_moment { IsTrue (D.Disk.is_clean self.new.disk) → (c : List ℕ) → D.Disk.may_leave self.new.disk c → KeepsLines D.Disk.is_mixing (D.Disk.seen self.old.disk) c }
    {
        let cut = self.look_past(alloc)?;
        let end = self.at;
        if end > MAX_FILE_LEN {
            return Err(LogError::FileTooLong);
        }
        let has_brace = self.begins_line();
        overwrite_brace(&mut self.disk, end, has_brace)?;
        cut_tail(&mut self.disk, end)?;
        Ok(cut)
    }

    /// Looks whether a line is left to read, which is an error, or damage. Returns how many bytes follow the lines, without the fillers at the
    /// end.
    fn look_past(&mut self, alloc: Global) -> Result<usize, LogError>
        requires usable { IsTrue (D.Disk.is_usable self.old.disk) }
        ensures usable { IsTrue (D.Disk.is_usable self.new.disk) }
        ensures clean { IsTrue (D.Disk.is_clean self.new.disk) → IsTrue (D.Disk.is_clean self.old.disk) }
        ensures seen { D.Disk.seen self.new.disk ≡ D.Disk.seen self.old.disk }
        ensures crash { (c : List ℕ) → D.Disk.may_leave self.new.disk c → D.Disk.may_leave self.old.disk c }
        ensures at { self.new.at ≡ self.old.at }
        ensures count { self.new.count ≡ self.old.count }
        ensures hasher { self.new.hasher ≡ self.old.hasher }
        ensures counted { IfErr result (λ e. (IsTrue (D.Disk.is_clean self.old.disk) → IsPartOf (D.Disk.seen self.old.disk) self.old) → DiskErrorIsCounted (D.Disk.faults self.old.disk) (D.Disk.faults self.new.disk) e) }
        ensures faults { OnOk result (D.Disk.faults self.new.disk ≡ D.Disk.faults self.old.disk) }
        ensures part { IsTrue (D.Disk.is_clean self.new.disk) → IsPartOf (D.Disk.seen self.old.disk) self.old → IsPartOf (D.Disk.seen self.old.disk) self.new }
        ensures end { OnOk result (IsTrue (D.Disk.is_clean self.new.disk) → IsPartOf (D.Disk.seen self.old.disk) self.old → IsEnd (D.Disk.is_mixing self.new.disk) (drop self.old.at (D.Disk.seen self.old.disk))) }
        ensures held { OnOk result (IsTrue (D.Disk.is_clean self.new.disk) → IsPartOf (D.Disk.seen self.old.disk) self.old → self.new.at < length (D.Disk.seen self.old.disk) → 0 < length (held_by self.new)) }
        ensures cut { IfOk result (λ cut. IsTrue (D.Disk.is_clean self.new.disk) → IsPartOf (D.Disk.seen self.old.disk) self.old → HasEnd (D.Disk.seen self.old.disk) self.old.at (length (D.Disk.seen self.old.disk)) (self.old.at + cut)) }
        ensures fault { IfErr result (λ e. IsTrue (D.Disk.is_clean self.new.disk) → IsPartOf (D.Disk.seen self.old.disk) self.old → IsPastFault (D.Disk.is_mixing self.new.disk) (D.Disk.seen self.old.disk) self.old e) }
    {
        let used = used_from(alloc, &mut self.disk, self.at, self.len)?;
        let cut = used.end.saturating_sub(self.at);
        match self.next_len(alloc)? {
            Some(_) => Err(LogError::Unread),
            None => Ok(cut),
        }
    }

    /// Returns the length of the next line, or nothing if no whole line follows. An end that no crash leaves is an error.
    fn next_len(&mut self, alloc: Global) -> Result<Option<usize>, LogError>
        requires usable { IsTrue (D.Disk.is_usable self.old.disk) }
        ensures usable { IsTrue (D.Disk.is_usable self.new.disk) }
        ensures clean { IsTrue (D.Disk.is_clean self.new.disk) → IsTrue (D.Disk.is_clean self.old.disk) }
        ensures seen { D.Disk.seen self.new.disk ≡ D.Disk.seen self.old.disk }
        ensures crash { (c : List ℕ) → D.Disk.may_leave self.new.disk c → D.Disk.may_leave self.old.disk c }
        ensures at { self.new.at ≡ self.old.at }
        ensures count { self.new.count ≡ self.old.count }
        ensures hasher { self.new.hasher ≡ self.old.hasher }
        ensures counted { IfErr result (λ e. (IsTrue (D.Disk.is_clean self.old.disk) → IsPartOf (D.Disk.seen self.old.disk) self.old) → DiskErrorIsCounted (D.Disk.faults self.old.disk) (D.Disk.faults self.new.disk) e) }
        ensures faults { OnOk result (D.Disk.faults self.new.disk ≡ D.Disk.faults self.old.disk) }
        ensures part { IsTrue (D.Disk.is_clean self.new.disk) → IsPartOf (D.Disk.seen self.old.disk) self.old → IsPartOf (D.Disk.seen self.old.disk) self.new }
        ensures whole { IfOk result (λ next. IfSome next (λ len. (len < length (held_by self.new)) × BeginsAs (held_by self.new) (Whole len))) }
        ensures end { IfOk result (λ next. IfNone next (IsTrue (D.Disk.is_clean self.new.disk) → IsPartOf (D.Disk.seen self.old.disk) self.old → IsEnd (D.Disk.is_mixing self.new.disk) (drop self.old.at (D.Disk.seen self.old.disk)))) }
        ensures held { IfOk result (λ next. IfNone next (IsTrue (D.Disk.is_clean self.new.disk) → IsPartOf (D.Disk.seen self.old.disk) self.old → self.new.at < length (D.Disk.seen self.old.disk) → 0 < length (held_by self.new))) }
        ensures fault { IfErr result (λ e. IsTrue (D.Disk.is_clean self.new.disk) → IsPartOf (D.Disk.seen self.old.disk) self.old → IsNextFault (D.Disk.is_mixing self.new.disk) (D.Disk.seen self.old.disk) self.old e) }
    {
        match self.peek_line(alloc)? {
            FirstLine::Whole(len) => Ok(Some(len)),
            FirstLine::Part => {
                let left = self.len - self.at;
                if left > 1 {
                    return Err(LogError::Damaged(self.count));
                }
                Ok(None)
            }
            FirstLine::Broken(front) => {
                if !self.is_short(front) {
                    return Err(LogError::Damaged(self.count));
                }
                if !is_torn_rest(alloc, &mut self.disk, self.at, front, self.len)? {
                    return Err(LogError::Damaged(self.count));
                }
                if !self.is_torn(front) {
                    return Err(LogError::Damaged(self.count));
                }
                Ok(None)
            }
        }
    }

    /// Takes a whole line of this length from the bytes in memory, if it has the right hash.
    fn accept_line(&mut self, len: usize, line: &mut Vec<u8>) -> Result<(), LogError>
        requires len { len < length (held_by self.old) }
        requires line { BeginsAs (held_by self.old) (Whole len) }
        ensures disk { self.new.disk ≡ self.old.disk }
        ensures taken { OnOk result ((lines : List (List ℕ)) → (file : List ℕ) → HasReadLines file self.old lines → HasReadLines file self.new (lines ++ line.new.items ∷ [])) }
        ensures counted { IfErr result (λ e. (old new : ℕ) → DiskErrorIsCounted old new e) }
        ensures justified { IfErr result (λ e. (mixes : Bool) → (lines : List (List ℕ)) → (file : List ℕ) → HasReadLines file self.old lines → JustifiesError mixes file lines e) }
    {
        let (_, held) = self.block.split_at(self.from);
        let (found, _) = held.split_at(len);
        let is_right = take_line(&mut self.hasher, found, line)?;
        if !is_right {
            return Err(LogError::Damaged(self.count));
        }
        self.from += len + 1;
        self.at += len + 1;
        self.count += 1;
        Ok(())
    }

    /// Returns whether a crash may have left a front of this length behind the lines, and as much behind it.
    fn is_short(&self, len: usize) -> bool
        ensures short { IsTrue result → (len < 2 ^ 23) × (self.now.len - self.now.at ≤ 2 ^ 24 + 2 ^ 18) }
        ensures other { result ≡ false → len < 2 ^ 23 → self.now.len - self.now.at ≤ 2 ^ 24 + 2 ^ 18 → ⊥ }
    {
        len < MAX_LINE_LEN && self.len - self.at <= MAX_REST_LEN
    }

    /// Returns whether a crash may have left the byte that follows a front of this length: a filler, and where a torn write may
    /// leave any byte, any in the place of its `{`. The same holds for a last byte, with which a file was made longer.
    fn is_torn(&self, len: usize) -> bool
        requires { len < length (held_by self.now) }
        ensures torn { IsTrue result → IsTornAt (D.Disk.is_mixing self.now.disk) len (self.now.len - self.now.at) (slice_index self.now.block.items (self.now.from + len)) }
        ensures other { result ≡ false → IsTornAt (D.Disk.is_mixing self.now.disk) len (self.now.len - self.now.at) (slice_index self.now.block.items (self.now.from + len)) → ⊥ }
    {
        let byte = self.block[self.from + len];
        if byte == b'\x1e' {
            return true;
        }
        if len > 0 {
            return false;
        }
        if !self.disk.mixes() {
            return true;
        }
        self.len - self.at == 1
    }
}
