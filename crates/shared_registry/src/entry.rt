//! What does the history's log contain?

use commit_head::Item;

/// An entry of the history's log: an item, and the key of the right to append the next one. No value of this type is made.
#[derive(Drop)]
pub struct HistoryEntry {
    /// The item.
    pub item: Item,
    /// The key of the pen that is the right to append the next entry.
    pub next: u64,
}
