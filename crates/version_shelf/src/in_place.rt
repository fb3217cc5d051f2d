//! How are the nodes on the path to a key changed in place?
//!
//! A node that another shelf has, too, is never changed: its parts are cloned into a new list. `copied` counts these nodes.

ghost use Rattle.std.specs.Prelude.{◌≡◌, ◌++◌, ◌∷◌, [], ◌+◌, ◌<◌, ◌≤◌, ◌^◌, ℕ, Bool, List, IfOk, OnOk, length};
ghost use Rattle.version_shelf.specs.Shelf.{ClonesEqual};
ghost use Rattle.version_shelf.specs.Nodes.{AreFullNodes, AreNodes, Cuts, IsCutAt, IsPath, IsPathPutBack, IsRebuilt, flatten, in_nodes, inners_of, least_leaves, least_rows};

use crate::count::Count;
use crate::node::{InnerNode, Leaf, Node};
use crate::path::{LEAST_LEAVES, LEAST_ROWS};
use crate::rebuilt::in_halves;
use crate::shared_row::SharedRow;
use std::alloc::{AllocError, Global};

/// Returns the inner nodes of a root, or an empty list if there is no root. The error is out of memory, or a reference count at
/// its maximum.
pub(crate) fn inners_in<K: Drop, V: Drop>(
    alloc: Global,
    root: Option<Node<InnerNode<K, V>>>,
    copied: &mut Count,
) -> Result<Vec<InnerNode<K, V>>, AllocError>
    requires room { copied.old + 1 < 2 ^ 64 }
    ensures inners { IfOk result (λ inners. inners.items ≡ inners_of root) }
    ensures counted { (copied.old ≤ copied.new) × (copied.new ≤ copied.old + 1) }
{
    match root {
        Some(root) => root.into_parts(alloc, copied),
        None => Ok(Vec::new(alloc)),
    }
}

/// Takes the node at a position out of the list, and returns its parts. If there is no node, the list is unchanged, and there
/// are no parts. The error is out of memory, or that of a clone.
fn take_out<T: Clone>(
    alloc: Global,
    nodes: &mut Vec<Node<T>>,
    position: usize,
    copied: &mut Count,
) -> Result<Vec<T>, AllocError>
    requires clones { ClonesEqual T.is_clone }
    requires room { copied.old + 1 < 2 ^ 64 }
    ensures node { IfOk result (λ parts. (below above : List (List T)) (node : List T) → nodes.old.items ≡ below ++ node ∷ above → length below ≡ position
        → (parts.items ≡ node) × (nodes.new.items ≡ below ++ above)) }
    ensures none { IfOk result (λ parts. nodes.old.items ≡ [] → (parts.items ≡ []) × (nodes.new.items ≡ [])) }
    ensures len { OnOk result (length nodes.old.items ≤ length nodes.new.items + 1) }
    ensures counted { (copied.old ≤ copied.new) × (copied.new ≤ copied.old + 1) }
{
    if position < nodes.len() {
        nodes.remove(position).into_parts(alloc, copied)
    } else {
        Ok(Vec::new(alloc))
    }
}

/// Puts a row at a position, in place of the row there if `is_there`, and otherwise before it. The error is out of memory.
pub(crate) fn put_row_at<K: Drop, V: Drop>(
    rows: &mut Vec<SharedRow<K, V>>,
    position: usize,
    is_there: bool,
    row: SharedRow<K, V>,
) -> Result<(), AllocError>
    requires cut { (below : List (K × V)) × (above : List (K × V)) × IsCutAt is_there rows.old.items below above × (length below ≡ position) }
    ensures { OnOk result ((below above : List (K × V)) → IsCutAt is_there rows.old.items below above → length below ≡ position
        → rows.new.items ≡ below ++ row ∷ above) }
{
    if is_there {
        rows[position] = row;
    } else {
        rows.insert(position, row)?;
    }
    Ok(())
}

/// Inserts these parts at a position of the list, as one node, or as two halves if there are more than `2 * least`. The error
/// is out of memory.
fn insert_nodes<T: Drop>(
    alloc: Global,
    least: usize,
    nodes: &mut Vec<Node<T>>,
    position: usize,
    parts: Vec<T>,
) -> Result<(), AllocError>
    requires least { least ≤ 32 }
    requires position { position ≤ length nodes.old.items }
    ensures { OnOk result ((below above : List (List T)) → nodes.old.items ≡ below ++ above → length below ≡ position
        → nodes.new.items ≡ below ++ (in_nodes least parts.items ++ above)) }
{
    if parts.len() > least + least {
        let (parts, others) = in_halves(parts, &mut Count::new())?;
        nodes.insert(position, Node::of(alloc, others)?)?;
        nodes.insert(position, Node::of(alloc, parts)?)?;
    } else {
        nodes.insert(position, Node::of(alloc, parts)?)?;
    }
    Ok(())
}

/// Takes the node before the position out of the list, and puts its parts, followed by these, back as one or two nodes.
fn put_with_left<T: Clone>(
    alloc: Global,
    least: usize,
    nodes: &mut Vec<Node<T>>,
    position: usize,
    parts: Vec<T>,
    copied: &mut Count,
) -> Result<(), AllocError>
    requires clones { ClonesEqual T.is_clone }
    requires least { least ≤ 32 }
    requires some { 0 < position }
    requires position { position ≤ length nodes.old.items }
    requires room { copied.old + 1 < 2 ^ 64 }
    ensures nodes { OnOk result ((below above : List (List T)) (node : List T) → nodes.old.items ≡ below ++ node ∷ above → length below + 1 ≡ position
        → nodes.new.items ≡ below ++ (in_nodes least (node ++ parts.items) ++ above)) }
    ensures counted { (copied.old ≤ copied.new) × (copied.new ≤ copied.old + 1) }
{
    let mut parts = parts;
    let mut all = take_out(alloc, nodes, position - 1, copied)?;
    all.append(&mut parts)?;
    insert_nodes(alloc, least, nodes, position - 1, all)
}

/// Takes the first node out of the list, and puts these parts, followed by its own, back as one or two nodes.
fn put_with_right<T: Clone>(
    alloc: Global,
    least: usize,
    nodes: &mut Vec<Node<T>>,
    parts: Vec<T>,
    copied: &mut Count,
) -> Result<(), AllocError>
    requires clones { ClonesEqual T.is_clone }
    requires least { least ≤ 32 }
    requires room { copied.old + 1 < 2 ^ 64 }
    ensures nodes { OnOk result ((above : List (List T)) (node : List T) → nodes.old.items ≡ node ∷ above
        → nodes.new.items ≡ in_nodes least (parts.items ++ node) ++ above) }
    ensures counted { (copied.old ≤ copied.new) × (copied.new ≤ copied.old + 1) }
{
    let mut all = parts;
    let mut others = take_out(alloc, nodes, 0, copied)?;
    all.append(&mut others)?;
    insert_nodes(alloc, least, nodes, 0, all)
}

/// Puts these parts at a position of the list, as one or two nodes. If the result has several nodes, each has at least `least`
/// parts; no node has more than twice as many. If these parts are fewer than `least`, they are merged with those of a
/// neighbour, if there is one; otherwise no other node changes. The error is out of memory, or that of a clone.
fn put_back<T: Clone>(
    alloc: Global,
    least: usize,
    nodes: Vec<Node<T>>,
    position: usize,
    parts: Vec<T>,
    copied: &mut Count,
) -> Result<Vec<Node<T>>, AllocError>
    requires clones { ClonesEqual T.is_clone }
    requires least { least ≤ 32 }
    requires position { position ≤ length nodes.items }
    requires room { copied.old + 1 < 2 ^ 64 }
    ensures rebuilt { IfOk result (λ new. (below above : List (List T)) → nodes.items ≡ below ++ above → length below ≡ position
        → 0 < least → AreFullNodes least below → AreFullNodes least above
        → length parts.items ≤ least + least + 1 → (0 < length below + length above → least ≤ length parts.items + 1)
        → IsRebuilt least below parts.items above new.items) }
    ensures unmerged { IfOk result (λ new. (below above : List (List T)) → nodes.items ≡ below ++ above → length below ≡ position
        → least ≤ length parts.items → new.items ≡ below ++ (in_nodes least parts.items ++ above)) }
    ensures counted { (copied.old ≤ copied.new) × (copied.new ≤ copied.old + 1) }
{
    let mut nodes = nodes;
    if parts.len() >= least {
        insert_nodes(alloc, least, &mut nodes, position, parts)?;
        return Ok(nodes);
    }
    if position > 0 {
        put_with_left(alloc, least, &mut nodes, position, parts, copied)?;
        return Ok(nodes);
    }
    if nodes.is_empty() {
        insert_nodes(alloc, least, &mut nodes, 0, parts)?;
        return Ok(nodes);
    }
    put_with_right(alloc, least, &mut nodes, parts, copied)?;
    Ok(nodes)
}

/// The path to a key, taken out of a list of inner nodes: the other inner nodes, the other leaves of its inner node, and the rows
/// of its leaf. The positions are those of the inner node and of the leaf.
#[derive(Drop)]
pub(crate) struct TakenPath<K, V> {
    inners: Vec<InnerNode<K, V>>,
    at_inner: usize,
    leaves: Vec<Leaf<K, V>>,
    at_leaf: usize,
    pub(crate) rows: Vec<SharedRow<K, V>>,
}

/// Takes the path to a leaf out of the inner nodes. The error is out of memory, or a reference count at its maximum.
pub(crate) fn take_path<K: Drop, V: Drop>(
    alloc: Global,
    inners: Vec<InnerNode<K, V>>,
    at_inner: usize,
    at_leaf: usize,
    copied: &mut Count,
) -> Result<TakenPath<K, V>, AllocError>
    requires room { copied.old + 2 < 2 ^ 64 }
    ensures at_inner { IfOk result (λ taken. taken.at_inner ≡ at_inner) }
    ensures at_leaf { IfOk result (λ taken. taken.at_leaf ≡ at_leaf) }
    ensures path { IfOk result (λ taken. (inners_below : List (List (List (K × V)))) (leaves : List (List (K × V))) (inners_above : List (List (List (K × V))))
        (below : List (List (K × V))) (rows : List (K × V)) (above : List (List (K × V)))
        → IsPath inners.items inners_below leaves inners_above below rows above → length inners_below ≡ at_inner → length below ≡ at_leaf
        → (taken.inners.items ≡ inners_below ++ inners_above) × (taken.leaves.items ≡ below ++ above) × (taken.rows.items ≡ rows)) }
    ensures counted { (copied.old ≤ copied.new) × (copied.new ≤ copied.old + 2) }
{
    let mut inners = inners;
    let mut leaves = take_out(alloc, &mut inners, at_inner, copied)?;
    let rows = take_out(alloc, &mut leaves, at_leaf, copied)?;
    Ok(TakenPath {
        inners,
        at_inner,
        leaves,
        at_leaf,
        rows,
    })
}

/// Puts the leaf and the inner node of a path back. The error is out of memory, or a reference count at its maximum.
pub(crate) fn put_path_back<K: Drop, V: Drop>(
    alloc: Global,
    taken: TakenPath<K, V>,
    copied: &mut Count,
) -> Result<Vec<InnerNode<K, V>>, AllocError>
    requires inner { taken.at_inner ≤ length taken.inners.items }
    requires leaf { taken.at_leaf ≤ length taken.leaves.items }
    requires room { copied.old + 2 < 2 ^ 64 }
    ensures path { IfOk result (λ inners. (old inners_below : List (List (List (K × V)))) (leaves : List (List (K × V))) (inners_above : List (List (List (K × V))))
        (below : List (List (K × V))) (rows : List (K × V)) (above : List (List (K × V)))
        → IsPath old inners_below leaves inners_above below rows above → length inners_below ≡ taken.at_inner → length below ≡ taken.at_leaf
        → taken.inners.items ≡ inners_below ++ inners_above → taken.leaves.items ≡ below ++ above
        → length taken.rows.items ≤ least_rows + least_rows + 1 → length rows ≤ length taken.rows.items + 1
        → IsPathPutBack inners_below below taken.rows.items above inners_above inners.items) }
    ensures counted { (copied.old ≤ copied.new) × (copied.new ≤ copied.old + 2) }
{
    let TakenPath {
        inners,
        at_inner,
        leaves,
        at_leaf,
        rows,
    } = taken;
    let leaves = put_back(alloc, LEAST_ROWS, leaves, at_leaf, rows, copied)?;
    put_back(alloc, LEAST_LEAVES, inners, at_inner, leaves, copied)
}
