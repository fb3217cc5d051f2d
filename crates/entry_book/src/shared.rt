//! A value with a reference count.

ghost use Rattle.std.specs.Prelude.{◌≡◌};

use std::alloc::{AllocError, Global};
use std::cmp::Ordering;
use std::marker::Model;
use std::sync::Arc;

/// A value behind an `Arc`. A clone increments the reference count and copies nothing else. The model in contracts is
/// the value itself.
#[derive(Drop)]
pub struct Shared<T> {
    value: Arc<T>,
}

impl<T> Model for Shared<T> {
    ghost use Rattle.std.specs.Arc.{arc_value};

    ghost Value = { T };

    ghost view = { λ shared. arc_value shared.value };
}

impl<T> Shared<T> {
    ghost use Rattle.std.specs.Prelude.{◌≡◌, IfOk};

    /// Makes a shared value with a reference count of 1. The error is out of memory.
    pub fn of(alloc: Global, value: T) -> Result<Shared<T>, AllocError>
    where
        T: Drop,
        ensures { IfOk result (λ shared. shared ≡ value) }
    {
        Ok(Shared {
            value: Arc::new(alloc, value)?,
        })
    }

    /// Returns the value.
    pub fn get(&self) -> &T
        ensures { result.now ≡ self.now }
    {
        &self.value
    }
}

impl<T: Drop> Clone for Shared<T> {
    ghost is_clone = { λ original copy. copy ≡ original };

    fn clone(&self) -> Result<Shared<T>, AllocError> {
        Ok(Shared {
            value: self.value.clone()?,
        })
    }
}

/// Two shared values are equal if the values are.
impl<T: PartialEq> PartialEq for Shared<T> {
    ghost eq = { T.eq };

    ghost laws = { T.PartialEq.laws };

    fn eq(&self, other: &Shared<T>) -> bool {
        self.get() == other.get()
    }
}

impl<T: Eq> Eq for Shared<T> {
    ghost laws = { T.Eq.laws };
}

impl<T: PartialOrd> PartialOrd for Shared<T> {
    ghost partial_cmp = { T.partial_cmp };

    ghost laws = { T.PartialOrd.laws };

    fn partial_cmp(&self, other: &Shared<T>) -> Option<Ordering> {
        self.get().partial_cmp(other.get())
    }
}

/// Shared values are ordered as the values are.
impl<T: Ord> Ord for Shared<T> {
    ghost cmp = { T.cmp };

    ghost total = { T.total };

    ghost matches_partial_cmp = { T.matches_partial_cmp };

    ghost matches_eq = { T.matches_eq };

    fn cmp(&self, other: &Shared<T>) -> Ordering {
        self.get().cmp(other.get())
    }
}
