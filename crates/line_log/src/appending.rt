//! How are lines added to a log, each with its hash?

ghost use Rattle.std.specs.Prelude.{◌≡◌, ◌++◌, ℕ, Bool, List, IsTrue, IfErr, OnOk};
ghost use Rattle.line_log.specs.Failures.{LeavesLogUnchanged, IsTooLong, JustifiesRefusal};
ghost use Rattle.line_log.specs.Lines.{IsText, lines_in};
ghost use Rattle.line_log.specs.Hashes.{CrashMayLeave};
ghost use Rattle.line_log.specs.Log.{HasLines, IsSynced, MixesIf};

use crate::error::LogError;
use crate::file::{MAX_GROUP_LEN, MAX_LINE_LEN};
use crate::first_line::is_one_line;
use crate::hashing::with_hashes;
use crate::log::LineLog;
use sqlite_disk::Disk;
use std::alloc::Global;

impl<D: Disk> LineLog<D> {
    /// Adds whole lines, each with its hash, and syncs. At `Ok` each crash from then on leaves a file with them. A crash at any
    /// moment of the call leaves the lines from before it and the first k of the new ones, for some k.
    ///
    /// Lines of more than 64 KiB with their hashes are refused, and a line of more than 8 MiB (`TextTooLong`). That, `FileTooLong` and `NoMemory`
    /// leave the log as it was. At `Disk` it isn't known whether the lines were added: drop the log with its disk, and open the file as at a
    /// start. The next start may find them, so a caller must not report that they were refused.
    pub fn append(&mut self, alloc: Global, text: &[u8]) -> Result<(), LogError>
        requires usable { IsTrue (D.Disk.is_usable self.old.file.disk) }
        requires synced { IsTrue (D.Disk.is_clean self.old.file.disk) → IsSynced D.Disk.seen D.Disk.may_leave self.old.file }
        requires text { IsText text.now }
        ensures clean { D.Disk.is_clean self.new.file.disk ≡ D.Disk.is_clean self.old.file.disk }
        ensures usable { OnOk result (IsTrue (D.Disk.is_usable self.new.file.disk)) }
        ensures synced { OnOk result (IsTrue (D.Disk.is_clean self.old.file.disk) → IsSynced D.Disk.seen D.Disk.may_leave self.new.file) }
        ensures added { OnOk result (IsTrue (D.Disk.is_clean self.old.file.disk) → (lines : List (List ℕ)) → HasLines D.Disk.seen D.Disk.may_leave self.old lines
            → HasLines D.Disk.seen D.Disk.may_leave self.new (lines ++ lines_in text.now)) }
        ensures any_moment { IsTrue (D.Disk.is_clean self.old.file.disk) → (mixes : Bool) → MixesIf D.Disk.is_mixing mixes
            → (lines : List (List ℕ)) → HasLines D.Disk.seen D.Disk.may_leave self.old lines
            → (c : List ℕ) → D.Disk.may_leave self.new.file.disk c → CrashMayLeave mixes lines (lines_in text.now) c }
        ensures small { OnOk result (IsTooLong text.now → ⊥) }
        ensures refused { IfErr result (λ e. LeavesLogUnchanged e → self.new ≡ self.old) }
        ensures justified { IfErr result (λ e. JustifiesRefusal text.now self.old.file.len (D.Disk.faults self.old.file.disk) (D.Disk.faults self.new.file.disk) e) }
    {
        let mut hasher = self.hasher.clone()?;
        let hashed = with_hashes(alloc, &mut hasher, text)?;
        let size = hashed.len();
        if size > MAX_LINE_LEN || (size > MAX_GROUP_LEN && !is_one_line(text)) {
            return Err(LogError::TextTooLong);
        }
        self.file.append(alloc, &hashed)?;
        self.hasher = hasher;
        Ok(())
    }
}
