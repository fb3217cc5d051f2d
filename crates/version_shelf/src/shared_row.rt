//! How is a row stored that several shelves share?

ghost use Rattle.std.specs.Prelude.{◌≡◌};

use std::alloc::{AllocError, Global};
use std::marker::Model;
use std::sync::Arc;

/// A row: a key with its value, shared by all shelves that contain it. Cloning increments the row's reference count and
/// copies neither the key nor the value. A contract sees the pair.
#[derive(Drop)]
pub(crate) struct SharedRow<K, V> {
    pair: Arc<(K, V)>,
}

impl<K, V> Model for SharedRow<K, V> {
    ghost use Rattle.std.specs.Arc.{arc_value};

    ghost Value = { K × V };

    ghost view = { λ row. arc_value row.pair };
}

impl<K, V> SharedRow<K, V> {
    ghost use Rattle.std.specs.Prelude.{◌≡◌, IfOk};

    /// Makes a row with a reference count of 1. The only error is out of memory.
    pub(crate) fn new(alloc: Global, key: K, value: V) -> Result<SharedRow<K, V>, AllocError>
    where
        K: Drop,
        V: Drop,
        ensures { IfOk result (λ row. row ≡ (key, value)) }
    {
        Ok(SharedRow {
            pair: Arc::new(alloc, (key, value))?,
        })
    }

    /// Returns the key.
    pub(crate) fn key(&self) -> &K
        ensures { result.now ≡ self.now.0 }
    {
        &self.pair.0
    }

    /// Returns the value.
    pub(crate) fn value(&self) -> &V
        ensures { result.now ≡ self.now.1 }
    {
        &self.pair.1
    }
}

/// Increments the reference count. The only error is that the count is at its maximum.
impl<K: Drop, V: Drop> Clone for SharedRow<K, V> {
    ghost is_clone = { λ original copy. copy ≡ original };

    fn clone(&self) -> Result<SharedRow<K, V>, AllocError> {
        Ok(SharedRow {
            pair: self.pair.clone()?,
        })
    }
}
