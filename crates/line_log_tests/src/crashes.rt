//! Does a log keep what it acknowledged, and nothing but a prefix of the rest, over a crash at each call of the disk?

ghost use Rattle.std.specs.Prelude.{IsTrue};
ghost use Rattle.line_log.specs.Log.{IsSynced};

use crate::random::Random;
use crate::torn_disk::TornDisk;
use crate::wanted::holds_at;
use line_log::{LineLog, is_text, open_log};
use sqlite_disk::{Disk, Fuse};
use std::alloc::{AllocError, Global};
use std::process::Abort;
use std::test::Fail;

/// What the runs add, one call for each text.
const TEXTS: [&[u8]; 4] = [
    b"{\"log\":\"regd 1\"}\n",
    b"{\"n\":1}\n{\"n\":2}\n{\"n\":3}\n",
    b"{\"n\":4}\n",
    b"{\"n\":5,\"long\":\"---------------------------------------------------------------------\"}\n{\"n\":6}\n",
];

/// How long the texts are that one run acknowledged, and what a crash left of the file.
#[derive(Drop)]
struct Run {
    acknowledged: usize,
    left: Vec<u8>,
}

/// Adds the texts that a log lacks, of whose text this number of bytes were found, until a call fails. Returns the length of the texts that it has
/// acknowledged.
fn add<D: Disk>(alloc: Global, log: &mut LineLog<D>, found: usize) -> usize
    requires usable { IsTrue (D.Disk.is_usable log.old.file.disk) }
    requires synced { IsTrue (D.Disk.is_clean log.old.file.disk) → IsSynced D.Disk.seen D.Disk.may_leave log.old.file }
{
    let mut acknowledged = found;
    let mut end: usize = 0;
    'texts: for text in TEXTS {
        end = end.saturating_add(text.len());
        if end > found && is_text(text) {
            if log.append(alloc, text).is_err() {
                return acknowledged;
            }
            acknowledged = end;
        }
    }
    acknowledged
}

/// Opens a file on a disk that stops after this number of calls, adds the texts that it lacks, and crashes.
fn crash_at(
    alloc: Global,
    file: &[u8],
    mixes: bool,
    calls: u64,
    random: &mut Random,
) -> Result<Run, AllocError> {
    let disk = Fuse::new(TornDisk::new(alloc, file, mixes)?, calls);
    let (acknowledged, disk) = match open_log(alloc, disk) {
        Ok((mut log, text)) => {
            let acknowledged = add(alloc, &mut log, text.len());
            let LineLog { file, .. } = log;
            (acknowledged, file.disk)
        }
        Err((_, disk)) => (0, disk),
    };
    let left = disk.inner().after_crash(alloc, random)?;
    Ok(Run { acknowledged, left })
}

/// Returns the text of a file, if it opens.
fn text_of_file(alloc: Global, file: &[u8], mixes: bool) -> Result<Vec<u8>, AllocError> {
    match open_log(alloc, TornDisk::new(alloc, file, mixes)?) {
        Ok((_, text)) => Ok(text),
        Err(_) => Err(AllocError),
    }
}

/// Runs to a crash after each number of calls, and again to a second crash. Asserts what the next start finds.
fn crash_twice(rt: &impl Abort, alloc: Global, mixes: bool, all: &[u8]) -> Result<(), AllocError> {
    let mut random = Random::new(if mixes { 1 } else { 2 });
    for calls in 0..24 {
        for _ in 0..2 {
            let first = crash_at(alloc, b"", mixes, calls, &mut random)?;
            let second = crash_at(
                alloc,
                &first.left,
                mixes,
                random.below(24) as u64,
                &mut random,
            )?;
            let found = text_of_file(alloc, &first.left, mixes)?;
            holds_at(
                rt,
                found.len() >= first.acknowledged,
                "what was acknowledged",
                calls,
            );
            holds_at(
                rt,
                all.starts_with(&found),
                "a beginning of the texts",
                calls,
            );
            let later = text_of_file(alloc, &second.left, mixes)?;
            holds_at(
                rt,
                later.len() >= second.acknowledged,
                "what was acknowledged later",
                calls,
            );
            holds_at(
                rt,
                later.starts_with(&found),
                "what was found before",
                calls,
            );
            holds_at(
                rt,
                all.starts_with(&later),
                "a beginning of the texts",
                calls,
            );
        }
    }
    Ok(())
}

#[test]
fn a_crash_at_any_call_loses_no_acknowledged_line(rt: HostRuntime) -> Result<(), Fail> {
    let mut all = Vec::new(rt.alloc());
    for text in TEXTS {
        all.extend_from_slice(text)?;
    }
    crash_twice(&rt, rt.alloc(), true, &all)?;
    crash_twice(&rt, rt.alloc(), false, &all)?;
    Ok(())
}
