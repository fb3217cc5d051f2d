//! Which entries expire before a moment?

ghost use Rattle.std.specs.Prelude.{◌≡◌, filter, IfOk};
ghost use Rattle.entry_book.specs.Book.{expires_before};

use entry_book::Entry;
use std::alloc::{AllocError, Global};

/// Returns the entries that expire before a moment, in seconds since the epoch. The error is out of memory.
pub(crate) fn expired_among(
    alloc: Global,
    entries: &[Entry],
    moment: u64,
) -> Result<Vec<Entry>, AllocError>
    ensures { IfOk result (λ expired. expired.items ≡ filter (expires_before moment) entries.now) }
{
    let mut expired = Vec::new(alloc);
    for entry in entries {
        if entry.expires_before(moment) {
            expired.push(entry.clone()?)?;
        }
    }
    Ok(expired)
}
