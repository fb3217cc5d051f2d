//! Which earlier books are still stored?

ghost use Rattle.std.specs.Prelude.{◌≡◌, ◌∷◌, ◌++◌, ◌≤◌, [], List, length, OnErr, OnOk, ℕ};
ghost use Rattle.std.specs.Option.{option_copied};
ghost use Rattle.entry_book.specs.History.{among_kept, last_of};

use crate::book::Book;
use std::alloc::AllocError;

/// Appends a book, and drops all but the last 63. The error is out of memory; it leaves the books unchanged.
pub(crate) fn push_older(older: &mut Vec<Book>, book: Book) -> Result<(), AllocError>
    requires few { length older.old.items ≤ 63 }
    ensures ok { OnOk result (older.new.items ≡ last_of 63 (older.old.items ++ book ∷ [])) }
    ensures err { OnErr result (older.new.items ≡ older.old.items) }
{
    older.push(book)?;
    if older.len() > 63 {
        older.remove(0);
    }
    Ok(())
}

/// Returns the book with this number, if it is stored: the newest one, whose number is the place, or an older one.
pub(crate) fn among_kept<'a>(
    number: u64,
    older: &'a [Book],
    newest: &'a Book,
    place: u64,
) -> Option<&'a Book>
    ensures { (domain : List ℕ) → option_copied result ≡ among_kept number (record {
      domain = domain;
      older = older.now;
      newest = newest.now;
      place = place;
    }) }
{
    if number >= place {
        return if number == place { Some(newest) } else { None };
    }
    let back = place - number;
    let count = older.len() as u64;
    if back > count {
        return None;
    }
    older.get((count - back) as usize)
}
