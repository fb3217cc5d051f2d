//! Rows that are borrowed from a version.

ghost use Rattle.std.specs.Prelude.{◌≡◌, IfOk};
ghost use Rattle.version_shelf.specs.Shelf.{ClonesEqual};

use std::alloc::{AllocError, Global};
use std::cmp::Ordering;
use std::marker::Model;

/// A borrowed value. Making one and passing it on change no reference count. The model in contracts is the value itself.
#[derive(Drop)]
pub struct Borrowed<'a, T: 'a> {
    value: &'a T,
}

impl<'a, T: 'a> Model for Borrowed<'a, T> {
    ghost Value = { T };

    ghost view = { λ borrowed. borrowed.value.now };
}

impl<'a, T: 'a> Borrowed<'a, T> {
    ghost use Rattle.std.specs.Prelude.{◌≡◌};

    /// Borrows the value.
    pub fn of(value: &'a T) -> Borrowed<'a, T>
        ensures { result ≡ value.now }
    {
        Borrowed { value }
    }

    /// Returns the value, borrowed.
    pub fn get(&self) -> &'a T
        ensures { result.now ≡ self.now }
    {
        self.value
    }
}

/// Two borrowed values are equal if the values are.
impl<'a, T: PartialEq + 'a> PartialEq for Borrowed<'a, T> {
    ghost eq = { T.eq };

    ghost laws = { T.PartialEq.laws };

    fn eq(&self, other: &Borrowed<'a, T>) -> bool {
        self.get() == other.get()
    }
}

impl<'a, T: Eq + 'a> Eq for Borrowed<'a, T> {
    ghost laws = { T.Eq.laws };
}

impl<'a, T: PartialOrd + 'a> PartialOrd for Borrowed<'a, T> {
    ghost partial_cmp = { T.partial_cmp };

    ghost laws = { T.PartialOrd.laws };

    fn partial_cmp(&self, other: &Borrowed<'a, T>) -> Option<Ordering> {
        self.get().partial_cmp(other.get())
    }
}

/// Borrowed values are ordered as the values are.
impl<'a, T: Ord + 'a> Ord for Borrowed<'a, T> {
    ghost cmp = { T.cmp };

    ghost total = { T.total };

    ghost matches_partial_cmp = { T.matches_partial_cmp };

    ghost matches_eq = { T.matches_eq };

    fn cmp(&self, other: &Borrowed<'a, T>) -> Ordering {
        self.get().cmp(other.get())
    }
}

/// Clones the values, in order. The error is out of memory.
pub fn owned<T: Clone + Drop>(
    alloc: Global,
    values: &[Borrowed<'_, T>],
) -> Result<Vec<T>, AllocError>
    requires clones { ClonesEqual T.is_clone }
    ensures { IfOk result (λ owned. owned.items ≡ values.now) }
{
    let mut owned = Vec::with_capacity(alloc, values.len())?;
    for value in values {
        owned.push(value.get().clone()?)?;
    }
    Ok(owned)
}
