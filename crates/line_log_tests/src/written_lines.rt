//! Which bytes has a log file, and which lines come back?

ghost use Rattle.std.specs.Prelude.{◌≡◌, IsTrue};
ghost use Rattle.line_log.specs.Log.{IsSynced};

use crate::torn_disk::TornDisk;
use crate::wanted::holds;
use line_log::{LineLog, LogError, is_text, open_log};
use sqlite_disk::Disk;
use std::alloc::Global;
use std::process::Abort;
use std::test::Fail;

/// The first lines of a file with their hashes: those that `sha256sum` prints for the lines up to each.
const FILE: &[u8] =
    b"{\"log\":\"regd 1\"} d285f3136c9b0730537ed2391065be20\n{\"n\":1} 5fb8711356ca3a9ed4a763e046d6aa35\n{\"n\":2} a1ff0a4567980499140dec83ec9ba48c\n";
/// The lines without hashes.
const TEXT: &[u8] = b"{\"log\":\"regd 1\"}\n{\"n\":1}\n{\"n\":2}\n";

/// Returns whether lines are refused as too much, without a change of the log.
fn is_too_long<D: Disk>(alloc: Global, log: &mut LineLog<D>, text: &[u8]) -> bool
    requires usable { IsTrue (D.Disk.is_usable log.old.file.disk) }
    requires synced { IsTrue (D.Disk.is_clean log.old.file.disk) → IsSynced D.Disk.seen D.Disk.may_leave log.old.file }
    ensures { IsTrue result → log.new ≡ log.old }
{
    if !is_text(text) {
        return false;
    }
    match log.append(alloc, text) {
        Err(LogError::TextTooLong) => true,
        _ => false,
    }
}

#[test]
fn lines_of_more_than_64_kib_are_refused(rt: HostRuntime) -> Result<(), Fail> {
    let mut long = Vec::new(rt.alloc());
    long.extend_from_slice(b"{\"n\":1}\n{")?;
    long.resize((1 << 16) - 66, b'-')?;
    long.push(b'\n')?;
    let disk = TornDisk::new(rt.alloc(), b"", true)?;
    let Ok((mut log, _)) = open_log(rt.alloc(), disk) else {
        return Err(Fail::from("no log"));
    };
    if !is_too_long(rt.alloc(), &mut log, &long) {
        return Err(Fail::from("lines of 64 KiB and a byte are added"));
    }
    long.truncate((1 << 16) - 67);
    long.push(b'\n')?;
    if !is_text(&long) || log.append(rt.alloc(), &long).is_err() {
        return Err(Fail::from("lines of 64 KiB are not added"));
    }
    Ok(())
}

#[test]
fn each_line_has_the_hash_of_all_lines_up_to_it(rt: HostRuntime) -> Result<(), Fail> {
    let disk = TornDisk::new(rt.alloc(), b"", true)?;
    let Ok((mut log, text)) = open_log(rt.alloc(), disk) else {
        return Err(Fail::from("no log"));
    };
    holds(&rt, text.is_empty(), "an empty file has no lines");
    if !is_text(&TEXT[..17]) || !is_text(&TEXT[17..]) {
        return Err(Fail::from("no log"));
    }
    if log.append(rt.alloc(), &TEXT[..17]).is_err()
        || log.append(rt.alloc(), &TEXT[17..]).is_err()
    {
        return Err(Fail::from("a line is not added"));
    }
    let bytes = log.file.disk.bytes();
    let Some(fillers) = bytes.get(FILE.len()..) else {
        return Err(Fail::from("the file is too short"));
    };
    holds(&rt, bytes.starts_with(FILE), "the lines with their hashes");
    holds(
        &rt,
        fillers.iter().all(|byte| *byte == b'\x1e'),
        "fillers behind the lines",
    );
    let disk = TornDisk::new(rt.alloc(), bytes, true)?;
    let Ok((_, text)) = open_log(rt.alloc(), disk) else {
        return Err(Fail::from("no log"));
    };
    holds(&rt, text.as_slice() == TEXT, "the lines come back");
    Ok(())
}
