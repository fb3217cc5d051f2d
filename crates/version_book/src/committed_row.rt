//! Which commit wrote a row?

ghost use Rattle.std.specs.Prelude.{◌≡◌, ◌↔◌, IfOk, IsTrue, map, option_map, option_to_list};
ghost use Rattle.std.specs.Option.{option_copied};
ghost use Rattle.version_shelf.specs.Shelf.{ClonesEqual};
ghost use Rattle.version_book.specs.CommittedRows.{row_of};

use std::alloc::{AllocError, Global};

/// A row with the number of the commit that last wrote it. If a clone of the row copies no text, neither does a clone of this.
#[derive(Drop)]
pub struct CommittedRow<T> {
    pub(crate) row: T,
    pub(crate) commit: u64,
}

impl<T: Clone> Clone for CommittedRow<T> {
    ghost is_clone = { λ original copy. T.is_clone original.row copy.row × (copy.commit ≡ original.commit) };

    fn clone(&self) -> Result<CommittedRow<T>, AllocError> {
        Ok(CommittedRow {
            row: self.row.clone()?,
            commit: self.commit,
        })
    }
}

/// Returns the row without its number, borrowed, if there is one.
pub(crate) fn borrowed<T>(row: Option<&CommittedRow<T>>) -> Option<&T>
    ensures { option_copied result ≡ option_map row_of (option_copied row.entry) }
{
    match row {
        Some(row) => Some(&row.row),
        None => None,
    }
}

/// Returns a list of the row, without its number, or an empty list if there is none. The error is out of memory.
pub(crate) fn row_alone<T: Clone + Drop>(
    alloc: Global,
    row: Option<&CommittedRow<T>>,
) -> Result<Vec<T>, AllocError>
    requires clones { ClonesEqual T.is_clone }
    ensures { IfOk result (λ rows. rows.items ≡ map row_of (option_to_list (option_copied row.entry))) }
{
    let mut rows = Vec::new(alloc);
    if let Some(row) = row {
        rows.push(row.row.clone()?)?;
    }
    Ok(rows)
}

/// Returns true if there is neither row, or both were last written by the same commit.
pub(crate) fn is_same_row<T>(one: Option<&CommittedRow<T>>, other: Option<&CommittedRow<T>>) -> bool
    ensures { IsTrue result ↔ (option_map (λ row. row.commit) (option_copied one.entry)
        ≡ option_map (λ row. row.commit) (option_copied other.entry)) }
{
    match (one, other) {
        (None, None) => true,
        (Some(one), Some(other)) => one.commit == other.commit,
        _ => false,
    }
}
