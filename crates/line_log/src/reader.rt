//! What is a log file that is being read?

ghost use Rattle.std.specs.Prelude.{◌+◌, ◌-◌, ◌≤◌, length};

use sha2::Sha256;
use sqlite_disk::Disk;

/// A log file that is being read, line by line: where the next line begins, how many lines were read, a block of the file that has the
/// next one, and the hasher of the text of those that were read.
#[derive(Drop)]
pub struct LogReader<D: Disk> {
    pub disk: D,
    pub len: usize,
    pub at: usize,
    pub count: usize,
    pub block: Vec<u8>,
    pub from: usize,
    pub hasher: Sha256,
    pub ghost inside: { from ≤ length block.items },
    pub ghost counted: { count ≤ at },
    pub ghost room: { at + (length block.items - from) ≤ len },
}
