//! How is a list of nodes rebuilt after the parts of one of them changed?

ghost use Rattle.std.specs.Prelude.{◌≡◌, ◌++◌, ◌+◌, ◌-◌, ◌/◌, ◌<◌, ◌≤◌, ◌^◌, OnOk, IfOk, length, take, drop};
ghost use Rattle.version_shelf.specs.Shelf.{ClonesEqual};
ghost use Rattle.version_shelf.specs.Nodes.{AreFullNodes, AreNodes, flatten, in_nodes};

use crate::count::Count;
use crate::node::{Node, append, put};
use std::alloc::{AllocError, Global};

/// Returns the nodes below, one or two nodes of these parts, and the nodes above. If the result has several nodes, each
/// has at least `least` parts; no node has more than twice as many. If these parts are fewer than `least`, they are merged
/// with those of a neighbour, if there is one; otherwise no other node changes. The error is out of memory, or a reference count
/// at its maximum.
pub(crate) fn rebuilt<T: Clone>(
    alloc: Global,
    least: usize,
    below: &[Node<T>],
    parts: Vec<T>,
    above: &[Node<T>],
    count: &mut Count,
) -> Result<Vec<Node<T>>, AllocError>
    requires clones { ClonesEqual T.is_clone }
    requires some { 0 < least }
    requires least { least ≤ 32 }
    requires below { AreFullNodes least below.now }
    requires above { AreFullNodes least above.now }
    requires fits { length below.now + length above.now < 512 }
    requires most { length parts.items ≤ least + least + 1 }
    requires fewest { 0 < length below.now + length above.now → least ≤ length parts.items + 1 }
    requires room { count.old + length below.now + length above.now + 146 < 2 ^ 64 }
    ensures parts { IfOk result (λ nodes. flatten nodes.items ≡ flatten below.now ++ (parts.items ++ flatten above.now)) }
    ensures nodes { IfOk result (λ nodes. AreNodes least nodes.items) }
    ensures unmerged { IfOk result (λ nodes. least ≤ length parts.items
        → nodes.items ≡ below.now ++ (in_nodes least parts.items ++ above.now)) }
    ensures fewest { IfOk result (λ nodes. length below.now + length above.now ≤ length nodes.items) }
    ensures most { IfOk result (λ nodes. length nodes.items ≤ length below.now + length above.now + 2) }
    ensures counted { (count.old ≤ count.new) × (count.new ≤ count.old + length below.now + length above.now + 146) }
{
    if parts.len() >= least {
        return joined(alloc, least, below, parts, above, count);
    }
    if let Some((neighbour, below)) = below.split_last() {
        let parts = put_together(alloc, neighbour.parts(), &parts, count)?;
        return joined(alloc, least, below, parts, above, count);
    }
    if let Some((neighbour, above)) = above.split_first() {
        let parts = put_together(alloc, &parts, neighbour.parts(), count)?;
        return joined(alloc, least, below, parts, above, count);
    }
    joined(alloc, least, below, parts, above, count)
}

/// Returns a new list of the parts, followed by the others.
fn put_together<T: Clone>(
    alloc: Global,
    parts: &[T],
    others: &[T],
    count: &mut Count,
) -> Result<Vec<T>, AllocError>
    requires clones { ClonesEqual T.is_clone }
    requires size { length parts.now + length others.now ≤ 96 }
    requires room { count.old + 96 < 2 ^ 64 }
    ensures parts { IfOk result (λ all. all.items ≡ parts.now ++ others.now) }
    ensures counted { (count.old ≤ count.new) × (count.new ≤ count.old + 96) }
{
    let mut all = Vec::with_capacity(alloc, parts.len() + others.len())?;
    append(&mut all, parts, count)?;
    append(&mut all, others, count)?;
    Ok(all)
}

/// Returns the nodes below, one or two nodes of these parts, and the nodes above.
fn joined<T: Clone>(
    alloc: Global,
    least: usize,
    below: &[Node<T>],
    parts: Vec<T>,
    above: &[Node<T>],
    count: &mut Count,
) -> Result<Vec<Node<T>>, AllocError>
    requires least { least ≤ 32 }
    requires size { length parts.items ≤ 96 }
    requires fits { length below.now + length above.now < 512 }
    requires room { count.old + length below.now + length above.now + 50 < 2 ^ 64 }
    ensures nodes { IfOk result (λ nodes. nodes.items ≡ below.now ++ (in_nodes least parts.items ++ above.now)) }
    ensures counted { (count.old ≤ count.new) × (count.new ≤ count.old + length below.now + length above.now + 50) }
{
    let mut nodes = Vec::with_capacity(alloc, below.len() + 2 + above.len())?;
    append(&mut nodes, below, count)?;
    put_nodes(alloc, least, &mut nodes, parts, count)?;
    append(&mut nodes, above, count)?;
    Ok(nodes)
}

/// Appends these parts as one node, or as two halves if there are more than `2 * least`.
fn put_nodes<T: Drop>(
    alloc: Global,
    least: usize,
    nodes: &mut Vec<Node<T>>,
    parts: Vec<T>,
    count: &mut Count,
) -> Result<(), AllocError>
    requires least { least ≤ 32 }
    requires size { length parts.items ≤ 96 }
    requires room { count.old + 50 < 2 ^ 64 }
    ensures nodes { OnOk result (nodes.new.items ≡ nodes.old.items ++ in_nodes least parts.items) }
    ensures counted { (count.old ≤ count.new) × (count.new ≤ count.old + 50) }
{
    if parts.len() > least + least {
        let (parts, others) = in_halves(parts, count)?;
        put(nodes, Node::of(alloc, parts)?, count)?;
        put(nodes, Node::of(alloc, others)?, count)
    } else {
        put(nodes, Node::of(alloc, parts)?, count)
    }
}

/// Splits the parts into two halves. The second half moves to a new list, and its length is added to the count. The only
/// error is out of memory.
pub(crate) fn in_halves<T: Drop>(
    parts: Vec<T>,
    count: &mut Count,
) -> Result<(Vec<T>, Vec<T>), AllocError>
    requires { count.old + (length parts.items - length parts.items / 2) < 2 ^ 64 }
    ensures first { IfOk result (λ halves. halves.0.items ≡ take (length parts.items / 2) parts.items) }
    ensures second { IfOk result (λ halves. halves.1.items ≡ drop (length parts.items / 2) parts.items) }
    ensures counted { count.new ≡ count.old + (length parts.items - length parts.items / 2) }
{
    let mut parts = parts;
    let half = parts.len() / 2;
    count.raise(parts.len() - half);
    let others = parts.split_off(half)?;
    Ok((parts, others))
}
