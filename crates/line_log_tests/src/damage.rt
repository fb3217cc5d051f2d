//! Is a damaged file refused, and left as it is?

use crate::torn_disk::TornDisk;
use crate::wanted::{holds, holds_at};
use line_log::{LogError, LogReader, is_text, open_log};
use std::alloc::{AllocError, Global};
use std::process::Abort;
use std::test::Fail;

const TEXT: &[u8] = b"{\"log\":\"regd 1\"}\n{\"n\":1}\n{\"id\":\"0-0\"}\n";

/// Returns the bytes of a file with the lines, up to the last LF.
fn written(alloc: Global) -> Result<Vec<u8>, AllocError> {
    let Ok((mut log, _)) = open_log(alloc, TornDisk::new(alloc, b"", true)?) else {
        return Err(AllocError);
    };
    if !is_text(TEXT) || log.append(alloc, TEXT).is_err() {
        return Err(AllocError);
    }
    let Some(lines) = log.file.disk.bytes().get(..TEXT.len() + 99) else {
        return Err(AllocError);
    };
    let mut bytes = Vec::new(alloc);
    bytes.extend_from_slice(lines)?;
    Ok(bytes)
}

/// Returns whether a file with these bytes opens.
fn opens(alloc: Global, lines: &[u8]) -> Result<bool, AllocError> {
    Ok(open_log(alloc, TornDisk::new(alloc, lines, true)?).is_ok())
}

/// Returns whether the file is refused as damaged behind this number of lines, and not changed.
fn is_refused(alloc: Global, lines: &[u8], right: usize) -> Result<bool, AllocError> {
    let mut file = Vec::new(alloc);
    file.extend_from_slice(lines)?;
    file.extend_from_slice(b"\x1e\x1e\x1e")?;
    let outcome = open_log(alloc, TornDisk::new(alloc, &file, true)?);
    let Err((error, disk)) = outcome else {
        return Ok(false);
    };
    let LogError::Damaged(n) = error else {
        return Ok(false);
    };
    Ok(n == right && disk.bytes() == file.as_slice())
}

/// Changes one bit of a byte.
fn flip(file: &mut Vec<u8>, at: usize, bit: u8) {
    if let Some(byte) = file.get_mut(at) {
        *byte ^= bit;
    }
}

/// Changes each bit of each byte in turn, but not those of the last LF, and asserts that the file is refused.
fn flip_each(rt: &impl Abort, alloc: Global, file: &mut Vec<u8>) -> Result<(), AllocError> {
    for end in 1..file.len() {
        let at = end - 1;
        let right = file.iter().take(at).filter(|byte| **byte == b'\n').count();
        for bit in [1, 2, 4, 8, 16, 32, 64, 128] {
            flip(file, at, bit);
            holds_at(
                rt,
                is_refused(alloc, file, right)?,
                "a changed bit",
                at as u64,
            );
            flip(file, at, bit);
        }
    }
    Ok(())
}

#[test]
fn each_changed_bit_is_found(rt: HostRuntime) -> Result<(), Fail> {
    let mut file = written(rt.alloc())?;
    flip_each(&rt, rt.alloc(), &mut file)?;
    holds(&rt, opens(rt.alloc(), &file)?, "the file as it was written");
    Ok(())
}

#[test]
fn a_file_that_was_cut_short_inside_a_line_is_found(rt: HostRuntime) -> Result<(), Fail> {
    let file = written(rt.alloc())?;
    for end in 0..file.len() {
        let (left, _) = file.split_at(end);
        let seems_torn = end < 2
            || left
                .iter()
                .skip(end.saturating_sub(2))
                .any(|byte| *byte == b'\n');
        holds_at(
            &rt,
            opens(rt.alloc(), left)? == seems_torn,
            "a file that was cut short",
            end as u64,
        );
    }
    Ok(())
}

#[test]
fn missing_and_moved_lines_are_found(rt: HostRuntime) -> Result<(), Fail> {
    let file = written(rt.alloc())?;
    let (first, rest) = file.split_at(50.min(file.len()));
    let (second, third) = rest.split_at(41.min(rest.len()));
    for (lines, right) in [
        ([second, third], 0),
        ([first, third], 1),
        ([third, first], 0),
    ] {
        let mut changed = Vec::new(rt.alloc());
        changed.extend_from_slice(lines[0])?;
        changed.extend_from_slice(lines[1])?;
        holds(
            &rt,
            is_refused(rt.alloc(), &changed, right)?,
            "a missing or moved line",
        );
    }
    Ok(())
}

#[test]
fn damage_that_was_not_read_is_not_cut_off(rt: HostRuntime) -> Result<(), Fail> {
    let file: &[u8] = b"{\"n\":\x01}\n{\"n\":2}\n\x1e\x1e";
    let Ok(reader) = LogReader::new(rt.alloc(), TornDisk::new(rt.alloc(), file, true)?) else {
        return Err(Fail::from("the file is not read"));
    };
    let Err((error, disk)) = reader.finish(rt.alloc()) else {
        return Err(Fail::from("a damaged file opens"));
    };
    let LogError::Damaged(n) = error else {
        return Err(Fail::from("another error"));
    };
    holds(
        &rt,
        n == 0 && disk.bytes() == file,
        "the file stays as it is",
    );
    Ok(())
}

/// Returns the bytes of a file with a short line and then two lines of 40 KiB, which were added one by one.
fn long_file(alloc: Global) -> Result<Vec<u8>, AllocError> {
    let mut line = Vec::new(alloc);
    line.push(b'{')?;
    line.resize(40 << 10, b'>')?;
    line.push(b'\n')?;
    let Ok((mut log, _)) = open_log(alloc, TornDisk::new(alloc, b"", true)?) else {
        return Err(AllocError);
    };
    let first: &[u8] = b"{\"n>1\":1}\n";
    if !is_text(first) || !is_text(&line) {
        return Err(AllocError);
    }
    if log.append(alloc, first).is_err()
        || log.append(alloc, &line).is_err()
        || log.append(alloc, &line).is_err()
    {
        return Err(AllocError);
    }
    let mut bytes = Vec::new(alloc);
    bytes.extend_from_slice(log.file.disk.bytes())?;
    Ok(bytes)
}

/// Returns how many lines a file with these bytes has, or nothing if it doesn't open.
fn count_lines(alloc: Global, file: &[u8]) -> Result<Option<usize>, AllocError> {
    let Ok((_, text)) = open_log(alloc, TornDisk::new(alloc, file, true)?) else {
        return Ok(None);
    };
    Ok(Some(text.iter().filter(|byte| **byte == b'\n').count()))
}

#[test]
fn a_bit_that_makes_a_filler_is_found_before_64_kib_of_lines(rt: HostRuntime) -> Result<(), Fail> {
    let mut file = long_file(rt.alloc())?;
    flip(&mut file, 3, 32);
    holds(
        &rt,
        count_lines(rt.alloc(), &file)?.is_none(),
        "a byte of the first line",
    );
    flip(&mut file, 3, 32);
    flip(&mut file, 50 << 10, 32);
    holds(
        &rt,
        count_lines(rt.alloc(), &file)? == Some(2),
        "a byte of the last line, which seems torn",
    );
    Ok(())
}

#[test]
fn the_bytes_that_are_cut_off_are_counted(rt: HostRuntime) -> Result<(), Fail> {
    let file: &[u8] = b"{\"n\":1\x1e\x1e\x1e";
    let Ok(reader) = LogReader::new(rt.alloc(), TornDisk::new(rt.alloc(), file, true)?) else {
        return Err(Fail::from("the file is not read"));
    };
    let Ok((log, cut)) = reader.finish(rt.alloc()) else {
        return Err(Fail::from("a torn file doesn't open"));
    };
    holds(&rt, cut == 6, "six bytes are cut off");
    holds(
        &rt,
        log.file.disk.bytes() == [b'\x1e'].as_slice(),
        "one filler is left",
    );
    Ok(())
}

#[test]
fn the_bytes_to_be_cut_off_are_counted_before(rt: HostRuntime) -> Result<(), Fail> {
    let file: &[u8] = b"{\"n\":1\x1e\x1e\x1e";
    let Ok(mut reader) = LogReader::new(rt.alloc(), TornDisk::new(rt.alloc(), file, true)?) else {
        return Err(Fail::from("the file is not read"));
    };
    let Ok(rest) = reader.rest_len(rt.alloc()) else {
        return Err(Fail::from("a torn file is refused"));
    };
    holds(
        &rt,
        rest == 6 && reader.disk.bytes() == file,
        "six bytes follow the lines, and stay",
    );
    Ok(())
}
