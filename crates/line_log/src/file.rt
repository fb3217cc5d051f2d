//! What is the file of an open log?

ghost use Rattle.std.specs.Prelude.{◌<◌, ◌≤◌, ◌+◌, ◌^◌};

use sqlite_disk::Disk;

/// The maximum length of a file.
pub(crate) const MAX_FILE_LEN: usize = 1 << 60;

/// The maximum length of a line of a file, with its hash and its LF. No line that `regd` prints is as long.
pub(crate) const MAX_LINE_LEN: usize = 1 << 23;

/// The maximum length of several lines that one call adds, with their hashes. A start takes no more than that for a torn write.
pub(crate) const MAX_GROUP_LEN: usize = 1 << 16;

/// The maximum length of what follows the lines of a file. A file gets longer only if too little room is left for a line, and then it gets
/// room for this line and 256 KiB more.
pub(crate) const MAX_REST_LEN: usize = (1 << 24) + (1 << 18);

/// The file of an open log, the length of the text of its lines, and that of the file.
#[derive(Drop)]
pub struct LineFile<D: Disk> {
    pub disk: D,
    pub end: usize,
    pub len: usize,
    pub ghost room: { end < len },
    pub ghost short: { len ≤ end + (2 ^ 24 + 2 ^ 18) },
}
