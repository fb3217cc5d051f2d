//! May a torn write have left what follows a filler in a line?

ghost use Rattle.std.specs.Prelude.{◌≡◌, ◌≢◌, ◌⊎◌, ◌+◌, ◌-◌, ◌<◌, ◌≤◌, ℕ, false, List, drop, length, slice_index, IsTrue, IfErr, IfNone, IfOk, IfSome, OnOk};
ghost use Rattle.line_log.specs.Damage.{IsOutside};
ghost use Rattle.line_log.specs.Failures.{DiskErrorIsCounted};
ghost use Rattle.line_log.specs.Tails.{IsTornRest};
ghost use Rattle.line_log.specs.TornRestPrivate.{HasEnd, HasLineEnd, HasUsed};

use crate::error::LogError;
use crate::file::MAX_GROUP_LEN;
use crate::reading::{BLOCK, read_block};
use sqlite_disk::Disk;
use std::alloc::Global;

/// What bytes of a file have: where the last one ends that isn't a filler, and where the first line ends.
#[derive(Clone, Copy, Drop)]
pub(crate) struct Used {
    pub(crate) end: usize,
    pub(crate) line: usize,
}

/// Returns the end of the last byte that isn't a filler.
fn used_len(block: &[u8]) -> usize
    ensures within { result ≤ length block.now }
    ensures filler { (i : ℕ) → result ≤ i → i < length block.now → slice_index block.now i ≡ 30 }
    ensures last { 0 < result → slice_index block.now (result - 1) ≢ 30 }
{
    let mut used = 0;
    'bytes: for i in 0..block.len() {
        if block[i] != b'\x1e' {
            used = i + 1;
        }
    }
    used
}

/// Returns the end of the first line, with its LF.
fn line_end(block: &[u8]) -> Option<usize>
    ensures some { IfSome result (λ n. (0 < n) × (n ≤ length block.now) × (slice_index block.now (n - 1) ≡ 10)) }
    ensures before { IfSome result (λ n. (i : ℕ) → i + 1 < n → slice_index block.now i ≢ 10) }
    ensures none { IfNone result ((i : ℕ) → i < length block.now → slice_index block.now i ≢ 10) }
{
    'bytes: for i in 0..block.len() {
        if block[i] == b'\n' {
            return Some(i + 1);
        }
    }
    None
}

/// Returns the end of the last byte that isn't a filler, with a block more.
fn next_end(end: usize, block: &[u8], at: usize, len: usize) -> usize
    requires inside { at + length block.now ≤ len }
    ensures { (file : List ℕ) (from : ℕ) → HasEnd file from at end → ((i : ℕ) → i < length block.now → slice_index file (at + i) ≡ slice_index block.now i) → HasEnd file from (at + length block.now) result }
{
    let used = used_len(block);
    if used == 0 {
        return end;
    }
    at + used
}

/// Returns the end of the first line, or the length if there is none, with a block more.
fn next_line_end(end: usize, block: &[u8], at: usize, len: usize) -> usize
    requires inside { at + length block.now ≤ len }
    ensures { (file : List ℕ) (from : ℕ) → HasLineEnd file from at len end → ((i : ℕ) → i < length block.now → slice_index file (at + i) ≡ slice_index block.now i) → HasLineEnd file from (at + length block.now) len result }
{
    if end < len {
        return end;
    }
    match line_end(block) {
        Some(n) => at + n,
        None => end,
    }
}

/// Returns what the bytes of a file of this length have from here on.
pub(crate) fn used_from<D: Disk>(
    alloc: Global,
    disk: &mut D,
    from: usize,
    len: usize,
) -> Result<Used, LogError>
    requires usable { IsTrue (D.Disk.is_usable disk.old) }
    requires within { from ≤ len }
    ensures usable { IsTrue (D.Disk.is_usable disk.new) }
    ensures clean { IsTrue (D.Disk.is_clean disk.new) → IsTrue (D.Disk.is_clean disk.old) }
    ensures seen { D.Disk.seen disk.new ≡ D.Disk.seen disk.old }
    ensures crash { (c : List ℕ) → D.Disk.may_leave disk.new c → D.Disk.may_leave disk.old c }
    ensures counted { IfErr result (λ e. (IsTrue (D.Disk.is_clean disk.old) → len ≡ length (D.Disk.seen disk.old)) → DiskErrorIsCounted (D.Disk.faults disk.old) (D.Disk.faults disk.new) e) }
    ensures faults { OnOk result (D.Disk.faults disk.new ≡ D.Disk.faults disk.old) }
    ensures outside { IfErr result (λ e. IsOutside e) }
    ensures used { IfOk result (λ used. IsTrue (D.Disk.is_clean disk.new) → HasUsed (D.Disk.seen disk.old) from len len used) }
{
    let mut end = from;
    let mut line = len;
    let mut at = from;
    'rest: while at < len {
        let size = BLOCK.min(len - at);
        let block = read_block(alloc, disk, at, size)?;
        end = next_end(end, &block, at, len);
        line = next_line_end(line, &block, at, len);
        at += size;
    }
    Ok(Used { end, line })
}

/// Returns whether a torn write may have left what follows the front of a line at this place of a file, and the byte behind it, if that is
/// a filler. If there is no front, it may have left anything.
pub(crate) fn is_torn_rest<D: Disk>(
    alloc: Global,
    disk: &mut D,
    at: usize,
    front: usize,
    len: usize,
) -> Result<bool, LogError>
    requires usable { IsTrue (D.Disk.is_usable disk.old) }
    requires within { at + front < len }
    ensures usable { IsTrue (D.Disk.is_usable disk.new) }
    ensures clean { IsTrue (D.Disk.is_clean disk.new) → IsTrue (D.Disk.is_clean disk.old) }
    ensures seen { D.Disk.seen disk.new ≡ D.Disk.seen disk.old }
    ensures crash { (c : List ℕ) → D.Disk.may_leave disk.new c → D.Disk.may_leave disk.old c }
    ensures counted { IfErr result (λ e. (IsTrue (D.Disk.is_clean disk.old) → len ≡ length (D.Disk.seen disk.old)) → DiskErrorIsCounted (D.Disk.faults disk.old) (D.Disk.faults disk.new) e) }
    ensures faults { OnOk result (D.Disk.faults disk.new ≡ D.Disk.faults disk.old) }
    ensures outside { IfErr result (λ e. IsOutside e) }
    ensures torn { IfOk result (λ torn. IsTrue torn → IsTrue (D.Disk.is_clean disk.new) → len ≡ length (D.Disk.seen disk.old) → 0 < front → IsTornRest (drop (at + front + 1) (D.Disk.seen disk.old))) }
    ensures other { IfOk result (λ torn. torn ≡ false → IsTrue (D.Disk.is_clean disk.new) → len ≡ length (D.Disk.seen disk.old) → (0 < front) × (IsTornRest (drop (at + front + 1) (D.Disk.seen disk.old)) → ⊥)) }
{
    if front == 0 {
        return Ok(true);
    }
    let from = at + front + 1;
    let used = used_from(alloc, disk, from, len)?;
    Ok(used.end.saturating_sub(from) <= MAX_GROUP_LEN || used.end <= used.line)
}
