//! Which entry is similar to a new one?

ghost use Rattle.std.specs.Prelude.{◌≡◌, ◌&&◌, not, bytes_eq, filter};
ghost use Rattle.std.specs.Option.{option_copied};
ghost use Rattle.spiffe_name.specs.SelectorSet.{set_eq};
ghost use Rattle.entry_book.specs.Order.{first};
ghost use Rattle.entry_book.specs.Book.{in_group};
ghost use Rattle.plain_book.specs.Blocks.{joined};

use crate::blocks::Block;
use entry_book::{Entry, NewEntry};

/// Returns true if both entries have the same parent and identity.
fn is_in_group(entry: &Entry, new: &NewEntry) -> bool
    ensures { result ≡ in_group new.now.parent new.now.identity entry.now }
{
    entry.parent().get() == new.parent.get() && entry.identity().get() == new.identity.get()
}

/// Returns true if both entries have the same selectors, but different ids.
fn is_another_with_its_selectors(entry: &Entry, new: &NewEntry) -> bool
    ensures { result
        ≡ (set_eq entry.now.selectors new.now.selectors && not (bytes_eq entry.now.id new.now.id)) }
{
    entry.selectors().get() == new.selectors.get() && entry.id() != &new.id
}

/// Returns the first entry with the same parent, identity and selectors, but another id, if there is one.
fn similar_to<'a>(entries: &'a [Entry], new: &NewEntry) -> Option<&'a Entry>
    ensures { option_copied result ≡ first (filter
        (λ entry. set_eq entry.selectors new.now.selectors && not (bytes_eq entry.id new.now.id))
        (filter (in_group new.now.parent new.now.identity) entries.now)) }
{
    for entry in entries {
        if is_in_group(entry, new) && is_another_with_its_selectors(entry, new) {
            return Some(entry);
        }
    }
    None
}

/// Returns the first such entry of the blocks. Reads entries up to the one found.
pub(crate) fn first_similar<'a>(blocks: &'a [Block<Entry>], new: &NewEntry) -> Option<&'a Entry>
    ensures { option_copied result ≡ first (filter
        (λ entry. set_eq entry.selectors new.now.selectors && not (bytes_eq entry.id new.now.id))
        (filter (in_group new.now.parent new.now.identity) (joined blocks.now))) }
{
    for block in blocks {
        match similar_to(block.get().as_slice(), new) {
            Some(other) => return Some(other),
            None => {}
        }
    }
    None
}
