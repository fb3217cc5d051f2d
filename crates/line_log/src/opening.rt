//! How is a log opened and read whole?

ghost use Rattle.std.specs.Prelude.{◌≡◌, ℕ, List, [], IsTrue, IfOk, IfErr, OnOk};
ghost use Rattle.line_log.specs.Damage.{JustifiesError, JustifiesFinish};
ghost use Rattle.line_log.specs.Failures.{DiskErrorIsCounted, KeepsFile, LeavesFileUnchanged};
ghost use Rattle.sqlite_disk.specs.Disk.{Only};
ghost use Rattle.line_log.specs.Lines.{lines_in, text_of};
ghost use Rattle.line_log.specs.Hashes.{hashed};
ghost use Rattle.line_log.specs.Log.{HasLines, KeepsLines, IsSynced};
ghost use Rattle.line_log.specs.Reading.{HasReadLines};

use crate::error::LogError;
use crate::log::LineLog;
use crate::reader::LogReader;
use sqlite_disk::Disk;
use std::alloc::Global;

/// Reads the lines that are left, and returns the text of all.
fn read_text<D: Disk>(alloc: Global, reader: &mut LogReader<D>) -> Result<Vec<u8>, LogError>
    requires usable { IsTrue (D.Disk.is_usable reader.old.disk) }
    ensures usable { IsTrue (D.Disk.is_usable reader.new.disk) }
    ensures clean { IsTrue (D.Disk.is_clean reader.new.disk) → IsTrue (D.Disk.is_clean reader.old.disk) }
    ensures seen { D.Disk.seen reader.new.disk ≡ D.Disk.seen reader.old.disk }
    ensures crash { (c : List ℕ) → D.Disk.may_leave reader.new.disk c → D.Disk.may_leave reader.old.disk c }
    ensures counted { IfErr result (λ e. (IsTrue (D.Disk.is_clean reader.old.disk) → HasReadLines (D.Disk.seen reader.old.disk) reader.old []) → DiskErrorIsCounted (D.Disk.faults reader.old.disk) (D.Disk.faults reader.new.disk) e) }
    ensures faults { OnOk result (D.Disk.faults reader.new.disk ≡ D.Disk.faults reader.old.disk) }
    ensures justified { IfErr result (λ e. IsTrue (D.Disk.is_clean reader.new.disk) → HasReadLines (D.Disk.seen reader.old.disk) reader.old [] → (lines : List (List ℕ)) × JustifiesError (D.Disk.is_mixing reader.new.disk) (D.Disk.seen reader.old.disk) lines e) }
    ensures text { IfOk result (λ text. IsTrue (D.Disk.is_clean reader.new.disk) → HasReadLines (D.Disk.seen reader.old.disk) reader.old [] → (lines : List (List ℕ)) × HasReadLines (D.Disk.seen reader.old.disk) reader.new lines × (text.items ≡ text_of lines)) }
{
    let mut text = Vec::new(alloc);
    let mut line = Vec::new(alloc);
    'lines: for _ in 0..u64::MAX {
        if !reader.next_line(alloc, &mut line)? {
            break;
        }
        text.extend_from_slice(&line)?;
        text.extend_from_slice(b"\n")?;
    }
    Ok(text)
}

/// Opens a log that a crash may have left, and returns it with the text of its lines, without hashes: for tests, and where that
/// fits into memory. An error hands the file back.
pub fn open_log<D: Disk>(alloc: Global, disk: D) -> Result<(LineLog<D>, Vec<u8>), (LogError, D)>
    requires usable { IsTrue (D.Disk.is_usable disk) }
    // What is read is what is on the disk: the file was synced since it was opened.
    requires durable { Only (D.Disk.seen disk) (D.Disk.may_leave disk) }
    ensures usable { IfOk result (λ r. IsTrue (D.Disk.is_usable r.0.file.disk)) }
    ensures clean { IfOk result (λ r. IsTrue (D.Disk.is_clean r.0.file.disk) → IsTrue (D.Disk.is_clean disk)) }
    ensures clean_err { IfErr result (λ e. IsTrue (D.Disk.is_clean e.1) → IsTrue (D.Disk.is_clean disk)) }
    ensures synced { IfOk result (λ r. IsTrue (D.Disk.is_clean r.0.file.disk) → IsSynced D.Disk.seen D.Disk.may_leave r.0.file) }
    ensures opened { IfOk result (λ r. IsTrue (D.Disk.is_clean r.0.file.disk) → (lines : List (List ℕ)) × HasLines D.Disk.seen D.Disk.may_leave r.0 lines × (lines_in (D.Disk.seen disk) ≡ hashed lines) × (r.1.items ≡ text_of lines)) }
    ensures kept { IfErr result (λ e. LeavesFileUnchanged e.0 → KeepsFile D.Disk.seen D.Disk.may_leave disk e.1) }
    ensures counted { IfErr result (λ e. DiskErrorIsCounted (D.Disk.faults disk) (D.Disk.faults e.1) e.0) }
    ensures justified { IfErr result (λ e. IsTrue (D.Disk.is_clean e.1) → (lines : List (List ℕ)) × JustifiesFinish (D.Disk.is_mixing e.1) (D.Disk.seen disk) lines e.0) }
    ensures any_moment { IfOk result (λ r. IsTrue (D.Disk.is_clean r.0.file.disk) → (c : List ℕ) → D.Disk.may_leave r.0.file.disk c → KeepsLines D.Disk.is_mixing (D.Disk.seen disk) c) }
    ensures any_moment_err { IfErr result (λ e. IsTrue (D.Disk.is_clean e.1) → (c : List ℕ) → D.Disk.may_leave e.1 c → KeepsLines D.Disk.is_mixing (D.Disk.seen disk) c) }
{
    let mut reader = LogReader::new(alloc, disk)?;
    match read_text(alloc, &mut reader) {
        Ok(text) => {
            let (log, _) = reader.finish(alloc)?;
            Ok((log, text))
        }
        Err(error) => {
            let LogReader { disk, .. } = reader;
            Err((error, disk))
        }
    }
}
