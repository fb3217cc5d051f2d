//! How do lines get their hashes, and how are they tested?

ghost use Rattle.std.specs.Prelude.{◌≡◌, ◌≢◌, ◌+◌, ◌≤◌, ◌++◌, ◌∷◌, ℕ, false, List, [], length, bytes_eq, IfOk, IsTrue, OnOk};
ghost use Rattle.std.specs.List.{AllByRecursion};
ghost use Rattle.sha2.specs.Hashers.{Holds256};
ghost use Rattle.hex.specs.Hex.{encode_lower};
ghost use Rattle.line_log.specs.Lines.{IsLogLine, IsText, lines_in};
ghost use Rattle.line_log.specs.Failures.{size_in_file};
ghost use Rattle.line_log.specs.Hashes.{hash_of, hashed_after, hashed_line};

use crate::first_line::line_len;
use sha2::{Digest, Sha256};
use std::alloc::{AllocError, Global};

/// The length of a hash in a file: its digits.
const HASH_LEN: usize = 32;

/// Returns 16 bytes as hexadecimal digits.
fn digits_of(bytes: &[u8]) -> [u8; HASH_LEN]
    requires { length bytes.now ≡ 16 }
    ensures is { result ≡ encode_lower bytes.now }
    ensures printed { AllByRecursion (λ c. 32 ≤ c) result }
{
    let mut digits = [0; HASH_LEN];
    let _ = hex::encode_to_slice(bytes, &mut digits);
    digits
}

/// Returns the hash of the text that was hashed.
fn hash_so_far(hasher: &Sha256) -> Result<[u8; HASH_LEN], AllocError>
    ensures hash { IfOk result (λ hash. (text : List ℕ) → Holds256 hasher.now text → hash ≡ hash_of text) }
    ensures printed { IfOk result (λ hash. AllByRecursion (λ c. 32 ≤ c) hash) }
{
    let digest = hasher.clone()?.finalize();
    Ok(digits_of(&digest[..HASH_LEN / 2]))
}

/// Adds a line and its LF to the text that was hashed, and returns the hash of that text.
fn hash_line(hasher: &mut Sha256, line: &[u8]) -> Result<[u8; HASH_LEN], AllocError>
    ensures text { OnOk result ((before : List ℕ) → Holds256 hasher.old before → Holds256 hasher.new (before ++ line.now ++ 10 ∷ [])) }
    ensures hash { IfOk result (λ hash. (before : List ℕ) → Holds256 hasher.old before → hash ≡ hash_of (before ++ line.now ++ 10 ∷ [])) }
    ensures printed { IfOk result (λ hash. AllByRecursion (λ c. 32 ≤ c) hash) }
{
    hasher.update(line);
    hasher.update(b"\n");
    hash_so_far(hasher)
}

/// Appends a line with its hash and LF to the text of a file.
fn put_line(hasher: &mut Sha256, line: &[u8], file: &mut Vec<u8>) -> Result<(), AllocError>
    requires text { IsText file.old.items }
    requires line { IsLogLine line.now }
    ensures text { OnOk result ((before : List ℕ) → Holds256 hasher.old before → Holds256 hasher.new (before ++ line.now ++ 10 ∷ [])) }
    ensures put { OnOk result ((before : List ℕ) → Holds256 hasher.old before → lines_in file.new.items ≡ lines_in file.old.items ++ hashed_line before line.now ∷ []) }
    ensures lines { OnOk result (IsText file.new.items) }
    ensures count { OnOk result (length (lines_in file.new.items) ≡ length (lines_in file.old.items) + 1) }
    ensures len { OnOk result (length file.new.items ≡ length file.old.items + length line.now + 34) }
{
    let hash = hash_line(hasher, line)?;
    file.extend_from_slice(line)?;
    file.push(b' ')?;
    file.extend_from_slice(&hash)?;
    file.push(b'\n')?;
    Ok(())
}

/// Returns whether this is a space and the hash.
fn is_hash(tail: &[u8], hash: &[u8]) -> bool
    ensures { result ≡ bytes_eq tail.now (32 ∷ hash.now) }
{
    match tail.split_first() {
        Some((first, digits)) => *first == b' ' && digits == hash,
        None => false,
    }
}

/// Returns lines with their hashes, and adds the lines to the text that was hashed.
pub(crate) fn with_hashes(
    alloc: Global,
    hasher: &mut Sha256,
    text: &[u8],
) -> Result<Vec<u8>, AllocError>
    requires { IsText text.now }
    ensures text { OnOk result ((before : List ℕ) → Holds256 hasher.old before → Holds256 hasher.new (before ++ text.now)) }
    ensures hashed { IfOk result (λ file. (before : List ℕ) → Holds256 hasher.old before → lines_in file.items ≡ hashed_after before (lines_in text.now)) }
    ensures lines { IfOk result (λ file. IsText file.items) }
    ensures count { IfOk result (λ file. length (lines_in file.items) ≡ length (lines_in text.now)) }
    ensures len { IfOk result (λ file. length file.items ≡ size_in_file text.now) }
{
    let mut file = Vec::new(alloc);
    let mut rest = text;
    'lines: while let Some(n) = line_len(rest) {
        put_line(hasher, rest.split_at(n).0, &mut file)?;
        rest = rest.split_at(n + 1).1;
    }
    Ok(file)
}

/// Returns whether a line of a file has the right hash. If so, it copies the line without that, and adds it to the text that was
/// hashed.
pub(crate) fn take_line(
    hasher: &mut Sha256,
    found: &[u8],
    line: &mut Vec<u8>,
) -> Result<bool, AllocError>
    ensures text { IfOk result (λ is_right. IsTrue is_right → (before : List ℕ) → Holds256 hasher.old before → Holds256 hasher.new (before ++ line.new.items ++ 10 ∷ [])) }
    ensures hashed { IfOk result (λ is_right. IsTrue is_right → (before : List ℕ) → Holds256 hasher.old before → found.now ≡ hashed_line before line.new.items) }
    ensures wrong { IfOk result (λ is_right. is_right ≡ false → (before : List ℕ) → Holds256 hasher.old before → (other : List ℕ) → found.now ≢ hashed_line before other) }
{
    if found.len() <= HASH_LEN {
        return Ok(false);
    }
    let (text, tail) = found.split_at(found.len() - HASH_LEN - 1);
    let hash = hash_line(hasher, text)?;
    if !is_hash(tail, &hash) {
        return Ok(false);
    }
    line.clear();
    line.extend_from_slice(text)?;
    Ok(true)
}
