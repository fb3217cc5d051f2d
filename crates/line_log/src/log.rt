//! What is an open log?

use crate::file::LineFile;
use sha2::Sha256;
use sqlite_disk::Disk;

/// An open log: its file, and the hasher of the text of its lines.
#[derive(Drop)]
pub struct LineLog<D: Disk> {
    pub file: LineFile<D>,
    pub hasher: Sha256,
}
