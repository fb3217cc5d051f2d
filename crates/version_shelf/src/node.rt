//! How are the nodes stored that several shelves share?

ghost use Rattle.std.specs.Prelude.{◌≡◌, ◌+◌, ◌<◌, ◌^◌, ◌≤◌, ◌++◌, ◌∷◌, [], IfOk, OnOk, length};
ghost use Rattle.version_shelf.specs.Shelf.{ClonesEqual};

use crate::count::Count;
use crate::shared_row::SharedRow;
use std::alloc::{AllocError, Global};
use std::marker::Model;
use std::sync::Arc;

/// A node of the tree: a list of parts, which are rows or other nodes. Cloning increments the node's reference count and
/// copies no part. A contract sees the list of the parts.
#[derive(Drop)]
pub(crate) struct Node<T> {
    parts: Arc<Vec<T>>,
}

impl<T> Model for Node<T> {
    ghost use Rattle.std.specs.Arc.{arc_value};
    ghost use Rattle.std.specs.Prelude.{List};

    ghost Value = { List T };

    ghost view = { λ node. (arc_value node.parts).items };
}

/// A leaf node: a node of rows.
pub(crate) type Leaf<K, V> = Node<SharedRow<K, V>>;

/// An inner node: a node of leaves.
pub(crate) type InnerNode<K, V> = Node<Leaf<K, V>>;

impl<T> Node<T> {
    /// Makes a node of these parts, with a reference count of 1. The only error is out of memory.
    pub(crate) fn of(alloc: Global, parts: Vec<T>) -> Result<Node<T>, AllocError>
    where
        T: Drop,
        ensures { IfOk result (λ node. node ≡ parts.items) }
    {
        Ok(Node {
            parts: Arc::new(alloc, parts)?,
        })
    }

    /// Returns the parts, in order.
    pub(crate) fn parts(&self) -> &[T]
        ensures { result.now ≡ self.now }
    {
        &self.parts
    }

    /// Returns the parts in a list. If this is the only reference to the node, they are moved out of it. Otherwise the node is
    /// unchanged, each part is cloned, and the count of copied nodes grows by 1. The error is out of memory, or that of a clone.
    pub(crate) fn into_parts(self, alloc: Global, copied: &mut Count) -> Result<Vec<T>, AllocError>
    where
        T: Clone,
        requires clones { ClonesEqual T.is_clone }
        requires room { copied.old + 1 < 2 ^ 64 }
        ensures parts { IfOk result (λ parts. parts.items ≡ self) }
        ensures counted { (copied.old ≤ copied.new) × (copied.new ≤ copied.old + 1) }
    {
        match Arc::try_unwrap(self.parts) {
            Ok(parts) => Ok(parts),
            Err(shared) => clones_of(alloc, &shared, copied),
        }
    }
}

/// Returns a list of clones of the parts, with room for one more, and adds 1 to the count of copied nodes. The error is out of
/// memory, or that of a clone.
fn clones_of<T: Clone>(alloc: Global, parts: &[T], copied: &mut Count) -> Result<Vec<T>, AllocError>
    requires clones { ClonesEqual T.is_clone }
    requires room { copied.old + 1 < 2 ^ 64 }
    ensures clones { IfOk result (λ clones. clones.items ≡ parts.now) }
    ensures counted { copied.new ≡ copied.old + 1 }
{
    copied.raise(1);
    let mut clones = Vec::with_capacity(alloc, parts.len().saturating_add(1))?;
    append(&mut clones, parts, &mut Count::new())?;
    Ok(clones)
}

/// Increments the reference count. The only error is that the count is at its maximum.
impl<T: Drop> Clone for Node<T> {
    ghost is_clone = { λ original copy. copy ≡ original };

    fn clone(&self) -> Result<Node<T>, AllocError> {
        Ok(Node {
            parts: self.parts.clone()?,
        })
    }
}

/// Appends the part, and adds 1 to the count, also if it fails. The only error is out of memory.
pub(crate) fn put<T: Drop>(all: &mut Vec<T>, part: T, count: &mut Count) -> Result<(), AllocError>
    requires room { count.old + 1 < 2 ^ 64 }
    ensures parts { OnOk result (all.new.items ≡ all.old.items ++ part ∷ []) }
    ensures counted { count.new ≡ count.old + 1 }
{
    count.raise(1);
    Ok(all.push(part)?)
}

/// Appends a clone of each part, and adds their number to the count, also if it fails. The error is out of memory, or
/// that of a clone.
pub(crate) fn append<T: Clone>(
    all: &mut Vec<T>,
    parts: &[T],
    count: &mut Count,
) -> Result<(), AllocError>
    requires clones { ClonesEqual T.is_clone }
    requires room { count.old + length parts.now < 2 ^ 64 }
    ensures parts { OnOk result (all.new.items ≡ all.old.items ++ parts.now) }
    ensures counted { count.new ≡ count.old + length parts.now }
{
    count.raise(parts.len());
    all.extend_from_slice(parts)
}
