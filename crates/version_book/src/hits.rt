//! Which writes hit a mark?

ghost use Rattle.std.specs.Prelude.{◌≡◌};
ghost use Rattle.std.specs.List.{list_any};
ghost use Rattle.version_book.specs.Marks.{hits, is_of_entry, is_of_token, passes_if_some};
ghost use Rattle.version_book.specs.Written.{write_of};

use crate::changes::{Changes, RowChange, RowWrite, TokenWrite};
use crate::mark::{Mark, MarkKind};
use crate::row::BookRow;
use uuid::Uuid;

/// Returns true if there is a row and the mark names it.
pub(crate) fn is_passed<T: BookRow>(mark: &Mark, row: &Option<T>) -> bool
    ensures { result ≡ passes_if_some (T.names mark.now) row.now }
{
    match row {
        Some(row) => row.is_named(mark),
        None => false,
    }
}

/// Returns true if the mark is that of the entry of an id, or of all entries.
fn is_of_entry(id: &Uuid, mark: &Mark) -> bool
    ensures { result ≡ is_of_entry id.now mark.now }
{
    match mark.kind() {
        MarkKind::Entry(other) => id == other,
        MarkKind::All => true,
        _ => false,
    }
}

/// Returns true if the mark is that of a token.
fn is_of_token(token: &Uuid, mark: &Mark) -> bool
    ensures { result ≡ is_of_token token.now mark.now }
{
    match mark.kind() {
        MarkKind::Token(other) => token == other,
        _ => false,
    }
}

/// Returns true if the write hits the mark.
fn is_hit(write: &RowWrite, mark: &Mark) -> bool
    ensures { result ≡ hits (write_of write.now) mark.now }
{
    match write {
        RowWrite::Entry(RowChange { key, old, new }) => {
            is_of_entry(key, mark) || is_passed(mark, old) || is_passed(mark, new)
        }
        RowWrite::Agent(RowChange { old, new, .. }) => is_passed(mark, old) || is_passed(mark, new),
        RowWrite::Bundle(RowChange { old, new, .. }) => is_passed(mark, old)
            || is_passed(mark, new),
        RowWrite::Token(TokenWrite { token, .. }) => is_of_token(token, mark),
    }
}

impl Changes {
    ghost use Rattle.std.specs.Prelude.{◌≡◌};
    ghost use Rattle.std.specs.List.{list_any};
    ghost use Rattle.version_book.specs.Marks.{hits};

    /// Returns true if one of the writes hits the mark. Allocates no memory.
    pub fn hits(&self, mark: &Mark) -> bool
        ensures { result ≡ list_any (λ write. hits write mark.now) self.now }
    {
        for write in self.writes() {
            if is_hit(write, mark) {
                return true;
            }
        }
        false
    }
}
