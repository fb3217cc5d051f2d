//! Lines from texts, in which long parts and invalid bytes have a short notation.
//!
//! `«64*x»` means `x` 64 times, `«c3»` the byte with this value, and `«0*»` an empty line. Each line gets an LF at its end,
//! unless its text ends with `«»`.

use std::alloc::Global;
use std::test::Fail;

/// Appends what the notation between two marks means.
fn add_folded(alloc: Global, bytes: &mut Vec<u8>, folded: &str) -> Result<(), Fail> {
    if let Some((count, text)) = folded.split_once("*") {
        let text = text.repeat(alloc, count.parse::<usize>()?)?;
        bytes.extend_from_slice(text.as_bytes())?;
    } else if !folded.is_empty() {
        bytes.push(u8::from_str_radix(folded, 16)?)?;
    }
    Ok(())
}

/// Appends a piece that begins after a mark, or at the start of the text.
fn add_piece(alloc: Global, bytes: &mut Vec<u8>, piece: &str) -> Result<(), Fail> {
    let mut text = piece;
    if let Some((folded, behind)) = piece.split_once("»") {
        add_folded(alloc, bytes, folded)?;
        text = behind;
    }
    bytes.extend_from_slice(text.as_bytes())?;
    Ok(())
}

/// Appends the line that a text means.
pub fn add_line_of(alloc: Global, bytes: &mut Vec<u8>, text: &str) -> Result<(), Fail> {
    for piece in text.split('«') {
        add_piece(alloc, bytes, piece)?;
    }
    if !text.ends_with("«»") {
        bytes.push(b'\n')?;
    }
    Ok(())
}
