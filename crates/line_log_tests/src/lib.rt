//! Does a log file keep its lines over crashes, and is damage found?
//!
//! The crate has tests alone, over the public calls of `line_log`:
//!
//! - `written_lines`: the bytes of a file, and the lines that are read from it.
//! - `crashes`: a crash at each call of the disk, of which it keeps a random part, and the next start.
//! - `damage`: changed bytes, and lines that are missing or moved.
//! - `torn_disk`: the disk of these tests; `random`: numbers for it; `wanted`: assertions.
//!
//! `docs/GLOSSARY.md` explains the terms.
#![tactic(auto)]

#[cfg(test)]
mod crashes;
#[cfg(test)]
mod damage;
#[cfg(test)]
mod random;
#[cfg(test)]
mod torn_disk;
#[cfg(test)]
mod wanted;
#[cfg(test)]
mod written_lines;
