//! What does a log have after a crash at any moment, and the next starts?
//!
//! [`reopened`] is a theorem with a body: it runs on a disk that stops after some calls, lets the machine crash, and opens the log
//! again. No program calls it.

ghost use Rattle.std.specs.Prelude.{◌≡◌, ◌++◌, ℕ, List, take, All, IsTrue, IfSome};
ghost use Rattle.sqlite_disk.specs.Disk.{Only};
ghost use Rattle.sqlite_disk.specs.Fuse.{inner_of};
ghost use Rattle.line_log.specs.Lines.{IsBetween, IsText, lines_in, text_of};
ghost use Rattle.line_log.specs.Hashes.{hashed};
ghost use Rattle.line_log.specs.Log.{HasLines, IsSynced};
ghost use Rattle.line_log.specs.Restarts.{Survives, lines_of_all};

use crate::log::LineLog;
use crate::opening::open_log;
use sqlite_disk::{Crash, Disk, Fuse};
use std::alloc::Global;

/// What a run acknowledged, and what two later starts read.
#[derive(Drop)]
pub struct Restarts<D: Disk> {
    /// How many texts the run had added when the machine crashed.
    pub added: usize,
    /// The text that the next start read, unless the machine crashed before it had opened the log.
    pub next: Option<Vec<u8>>,
    /// The text that a later start read.
    pub later: Vec<u8>,
    pub disk: Fuse<Fuse<D>>,
}

/// Adds texts in turn until one fails, and returns how many were added.
fn append_all<D: Disk>(log: &mut LineLog<D>, alloc: Global, texts: &[Vec<u8>]) -> usize
    requires usable { IsTrue (D.Disk.is_usable log.old.file.disk) }
    requires synced { IsTrue (D.Disk.is_clean log.old.file.disk) → IsSynced D.Disk.seen D.Disk.may_leave log.old.file }
    requires texts { All (λ t. IsText t.items) texts.now }
    ensures clean { D.Disk.is_clean log.new.file.disk ≡ D.Disk.is_clean log.old.file.disk }
    ensures any_moment { IsTrue (D.Disk.is_clean log.old.file.disk) → (lines : List (List ℕ)) → HasLines D.Disk.seen D.Disk.may_leave log.old lines
        → (c : List ℕ) → D.Disk.may_leave log.new.file.disk c
        → (found : List (List ℕ)) × (lines_in c ≡ hashed found) × IsBetween (lines ++ lines_of_all (take result texts.now)) (lines ++ lines_of_all texts.now) found }
{
    let mut added = 0;
    for text in texts {
        if log.append(alloc, text).is_err() {
            return added;
        }
        added += 1;
    }
    added
}

/// Opens a log and adds texts in turn until a call fails. Returns what it read, if the log opened, how many texts were added, and the
/// disk.
fn run<D: Disk>(alloc: Global, disk: D, texts: &[Vec<u8>]) -> (Option<Vec<u8>>, usize, D)
    requires usable { IsTrue (D.Disk.is_usable disk) }
    requires durable { Only (D.Disk.seen disk) (D.Disk.may_leave disk) }
    requires texts { All (λ t. IsText t.items) texts.now }
    ensures clean { IsTrue (D.Disk.is_clean result.2) → IsTrue (D.Disk.is_clean disk) }
    ensures read { IsTrue (D.Disk.is_clean result.2) → (lines : List (List ℕ)) → lines_in (D.Disk.seen disk) ≡ hashed lines → IfSome result.0 (λ text. text.items ≡ text_of lines) }
    ensures any_moment { IsTrue (D.Disk.is_clean result.2) → (lines : List (List ℕ)) → lines_in (D.Disk.seen disk) ≡ hashed lines → (c : List ℕ) → D.Disk.may_leave result.2 c
        → (found : List (List ℕ)) × (lines_in c ≡ hashed found) × IsBetween (lines ++ lines_of_all (take result.1 texts.now)) (lines ++ lines_of_all texts.now) found }
{
    match open_log(alloc, disk) {
        Ok((mut log, text)) => {
            let added = append_all(&mut log, alloc, texts);
            let LineLog { file, .. } = log;
            (Some(text), added, file.disk)
        }
        Err((_, disk)) => (None, 0, disk),
    }
}

/// Opens a log, which may be an empty file, and adds texts on a disk that stops after this number of `calls`; that may be in the midst
/// of the opening. Then the machine crashes, and the log is opened on a disk that stops after `more` calls. It crashes again, and the
/// log is opened again. Nothing that was acknowledged is lost, and each start reads the same (`specs/Restarts`). Returns nothing if a sync
/// after a crash failed, or if the log doesn't open at last.
pub fn reopened<D: Crash + Drop>(
    alloc: Global,
    disk: D,
    calls: u64,
    more: u64,
    texts: &[Vec<u8>],
) -> Option<Restarts<D>>
    requires usable { IsTrue (D.Disk.is_usable disk) }
    requires durable { Only (D.Disk.seen disk) (D.Disk.may_leave disk) }
    requires texts { All (λ t. IsText t.items) texts.now }
    ensures { IfSome result (λ r. IsTrue (D.Disk.is_clean (inner_of (inner_of r.disk))) → (lines : List (List ℕ)) → lines_in (D.Disk.seen disk) ≡ hashed lines
        → Survives lines texts.now r.added r.next r.later) }
{
    let (_, added, mut disk) = run(alloc, Fuse::new(disk, calls), texts);
    disk.crash();
    if disk.sync().is_err() {
        return None;
    }
    let (next, _, mut disk) = run(alloc, Fuse::new(disk, more), &[]);
    disk.crash();
    if disk.sync().is_err() {
        return None;
    }
    match open_log(alloc, disk) {
        Ok((log, later)) => Some(Restarts {
            added,
            next,
            later,
            disk: log.file.disk,
        }),
        Err(_) => None,
    }
}
