//! What do the bytes of a log begin with that were not read?

ghost use Rattle.std.specs.Prelude.{◌≡◌, ◌==◌, ◌-◌, ◌<◌, ℕ, List, length, min, slice_index, IsTrue, IfNone, IfOk, IfErr, IfSome, OnOk};
ghost use Rattle.line_log.specs.Damage.{IsOutside};
ghost use Rattle.line_log.specs.Failures.{DiskErrorIsCounted};
ghost use Rattle.line_log.specs.Lines.{IsLineFront};
ghost use Rattle.line_log.specs.Reading.{IsPartOf, held_by};
ghost use Rattle.line_log.specs.ReadingPrivate.{IsLookFault, Tells};

use crate::error::LogError;
use crate::file::MAX_LINE_LEN;
use crate::first_line::{FirstLine, first_line};
use crate::reader::LogReader;
use crate::reading::{BLOCK, read_block};
use sqlite_disk::Disk;
use std::alloc::Global;

impl<D: Disk> LogReader<D> {
    /// Returns whether the next byte begins a line.
    pub(crate) fn begins_line(&self) -> bool
        ensures { result ≡ (slice_index (held_by self.now) 0 == 123) }
    {
        self.from < self.block.len() && self.block[self.from] == b'{'
    }

    /// Returns what the unread bytes begin with. Reads more of them if those in memory don't tell.
    pub(crate) fn peek_line(&mut self, alloc: Global) -> Result<FirstLine, LogError>
        requires usable { IsTrue (D.Disk.is_usable self.old.disk) }
        ensures usable { IsTrue (D.Disk.is_usable self.new.disk) }
        ensures clean { IsTrue (D.Disk.is_clean self.new.disk) → IsTrue (D.Disk.is_clean self.old.disk) }
        ensures seen { D.Disk.seen self.new.disk ≡ D.Disk.seen self.old.disk }
        ensures crash { (c : List ℕ) → D.Disk.may_leave self.new.disk c → D.Disk.may_leave self.old.disk c }
        ensures at { self.new.at ≡ self.old.at }
        ensures count { self.new.count ≡ self.old.count }
        ensures hasher { self.new.hasher ≡ self.old.hasher }
        ensures counted { IfErr result (λ e. (IsTrue (D.Disk.is_clean self.old.disk) → IsPartOf (D.Disk.seen self.old.disk) self.old) → DiskErrorIsCounted (D.Disk.faults self.old.disk) (D.Disk.faults self.new.disk) e) }
        ensures faults { OnOk result (D.Disk.faults self.new.disk ≡ D.Disk.faults self.old.disk) }
        ensures part { IsTrue (D.Disk.is_clean self.new.disk) → IsPartOf (D.Disk.seen self.old.disk) self.old → IsPartOf (D.Disk.seen self.old.disk) self.new }
        ensures tells { IfOk result (λ found. Tells self.new found) }
        ensures fault { IfErr result (λ e. IsTrue (D.Disk.is_clean self.new.disk) → IsPartOf (D.Disk.seen self.old.disk) self.old → IsLookFault (D.Disk.seen self.old.disk) self.old e) }
    {
        if let Some(found) = self.classify() {
            return Ok(found);
        }
        self.fill(alloc, BLOCK)?;
        if let Some(found) = self.classify() {
            return Ok(found);
        }
        self.fill(alloc, MAX_LINE_LEN)?;
        match self.classify() {
            Some(found) => Ok(found),
            None => Err(LogError::LineTooLong(self.count)),
        }
    }

    /// Returns what the unread bytes begin with, if those in memory tell.
    fn classify(&self) -> Option<FirstLine>
        ensures tells { IfSome result (λ found. Tells self.now found) }
        ensures more { IfNone result (IsLineFront (held_by self.now) × (length (held_by self.now) < self.now.len - self.now.at)) }
    {
        let (_, held) = self.block.split_at(self.from);
        let found = first_line(held);
        match found {
            FirstLine::Part if held.len() < self.len - self.at => None,
            _ => Some(found),
        }
    }

    /// Reads a block of this size into memory, or up to the end of the file.
    fn fill(&mut self, alloc: Global, size: usize) -> Result<(), LogError>
        requires usable { IsTrue (D.Disk.is_usable self.old.disk) }
        ensures usable { IsTrue (D.Disk.is_usable self.new.disk) }
        ensures clean { IsTrue (D.Disk.is_clean self.new.disk) → IsTrue (D.Disk.is_clean self.old.disk) }
        ensures seen { D.Disk.seen self.new.disk ≡ D.Disk.seen self.old.disk }
        ensures crash { (c : List ℕ) → D.Disk.may_leave self.new.disk c → D.Disk.may_leave self.old.disk c }
        ensures at { self.new.at ≡ self.old.at }
        ensures count { self.new.count ≡ self.old.count }
        ensures hasher { self.new.hasher ≡ self.old.hasher }
        ensures counted { IfErr result (λ e. (IsTrue (D.Disk.is_clean self.old.disk) → IsPartOf (D.Disk.seen self.old.disk) self.old) → DiskErrorIsCounted (D.Disk.faults self.old.disk) (D.Disk.faults self.new.disk) e) }
        ensures faults { OnOk result (D.Disk.faults self.new.disk ≡ D.Disk.faults self.old.disk) }
        ensures part { IsTrue (D.Disk.is_clean self.new.disk) → IsPartOf (D.Disk.seen self.old.disk) self.old → IsPartOf (D.Disk.seen self.old.disk) self.new }
        ensures len { self.new.len ≡ self.old.len }
        ensures size { OnOk result (length (held_by self.new) ≡ min size (self.old.len - self.old.at)) }
        ensures outside { IfErr result (λ e. IsOutside e) }
    {
        let size = size.min(self.len - self.at);
        let block = read_block(alloc, &mut self.disk, self.at, size)?;
        self.from = 0;
        self.block = block;
        Ok(())
    }
}
