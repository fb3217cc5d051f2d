//! Which lines does a log file hold, whatever a crash made of it?
//!
//! A file has lines and then fillers (0x1E, RS). A line begins with `{`, has no byte below 32 and ends with an LF; the first byte that
//! breaks this ends the lines. Each line has its hash behind it: a space and 32 hexadecimal digits, the first half of the SHA-256 of all
//! lines up to it, each with its LF and without its hash. The theorems on crashes rest on no hash, only on what a disk promises
//! (`sqlite_disk::Disk`). `docs/PROOFS.md` lists what that is in plain words.
//!
//! A file that was cut short inside a line is damaged. One that ends behind a line is a log with fewer lines, and so is one whose last lines
//! became fillers: nothing distinguishes these from lines that were never added. A caller who must know keeps the number of the last line and its
//! hash elsewhere. `docs/DECISIONS.md` lists what else looks as after a crash.
//!
//! - [`LogReader`] reads a file line by line, in memory bounded by a line, tests the hashes, and opens the log at the end.
//! - [`LineLog`] is an open log: `append` adds whole lines, syncs, and keeps what was there before over a crash at any moment.
//!   Its file is a [`LineFile`].
//! - [`open_log`] does both for a log whose text fits into memory; [`is_text`] tests whether bytes are whole lines.
//! - [`LogError`] says why a call failed.
//! - [`good_files`] states theorems about the definitions; [`reopened`] is one about runs, crashes and restarts ([`Restarts`]).
//!
//! The definitions are in `specs/`: `Lines` has the lines of a file, `Hashes` their hashes and what a crash may leave, `Tails` what may
//! follow the lines, `Log` when a file is at rest and which lines an open log has, `Reading` what a reader has read, `Damage` when it
//! may report damage, `Failures` when adding lines fails, `Laws` the theorems, `Restarts` what survives crashes. `ReadingPrivate`,
//! `TornRestPrivate` and `WritingPrivate` are for this crate's own contracts.
//!
//! - `log`, `file`, `reader`: the types; `error`: their error.
//! - `appending`, `hashing`: lines get their hashes and are added; `writing`: bytes are written so that a crash leaves whole lines.
//! - `reading`, `peeking`, `first_line`: a file is read line by line; `torn_rest`: what follows a broken line; `tail`: it gets its end back; `opening`: a log is opened and read whole.
//! - `laws`: theorems about the definitions; `restart`: the theorem on crashes and restarts.
//!
//! `docs/GLOSSARY.md` explains the terms.
#![tactic(auto)]

mod appending;
mod error;
mod file;
mod first_line;
mod hashing;
mod laws;
mod log;
mod opening;
mod peeking;
mod reader;
mod reading;
mod restart;
mod tail;
mod torn_rest;
mod writing;

pub use error::LogError;
pub use file::LineFile;
pub use first_line::is_text;
pub use laws::good_files;
pub use log::LineLog;
pub use opening::open_log;
pub use reader::LogReader;
pub use restart::{Restarts, reopened};
