//! A persistent (immutable) ordered map: readers keep the shelf that they have while a writer makes a changed copy.
//!
//! A [`Shelf`] maps keys to values, in the order of its keys. It never changes: [`Shelf::with`] and [`Shelf::without`] return
//! a new shelf, and all older ones remain as they were. [`Shelf::into_with`] and [`Shelf::into_without`] consume the shelf,
//! and change the nodes that no other shelf has without copying them. A contract sees a shelf as the list of its rows, each a
//! key with its value, in strictly ascending order of keys. `specs/Shelf.antt` defines the terms of the contracts. [`Range`]
//! is an iterator over all rows, those from a key on, or those between two bounds. [`Bound`] is an end of a range: a key, or
//! the position of a key that need not be constructed. [`Count`] counts the work of a call.
//!
//! A shelf is a B-tree of three fixed levels, with nodes of three kinds. The leaves contain the rows, the inner nodes
//! contain the leaves, and the root contains the inner nodes. A leaf has at most 32 rows, and at least 16 unless it is the
//! only leaf. An inner node has at most 64 leaves, and at least 32 unless it is the only inner node. The root has at most
//! 512 inner nodes. A change rebuilds the leaf and the inner node of its key, and the root. A node with one part too many
//! is split into two halves. A node with one part too few is merged with a neighbour, and the result is split if it is too
//! large. This preserves the type invariant, `IsShelf` of `specs/Nodes.antt`, under all changes in any order of keys.
//!
//! The maximum cost of each call, for a shelf of n rows:
//!
//! | Call | Comparisons of keys | Copies of keys and values | Memory |
//! |---|---|---|---|
//! | `new`, `len`, `has_room` | none | none | none |
//! | `get`, `find` | 28; for 1 to 32 rows log2 n + 2 | none | none |
//! | `range` | 57; for 1 to 32 rows 2 log2 n + 3; none in `next` | none | none |
//! | `range_from` | as `get`; none in `next` | none | none |
//! | `rows` | none | none | none |
//! | `clone` | none | none | none; increments the root's reference count |
//! | `with`, `with_counted` | as `get` | none | the row, and new nodes with 1,024 parts in total |
//! | `without`, `without_counted` | as `get` | none | new nodes with 1,024 parts in total; as `clone` if no row has the key |
//! | `into_with`, `into_with_counted` | as `get` | none | as `with`, without the parts of nodes that no other shelf has |
//! | `into_without`, `into_without_counted` | as `get` | none | as `without`, without those parts; the root if no row has the key |
//!
//! The contract of `find` states at most 32 comparisons, those of `with_counted` and `without_counted` at most 1,024 parts,
//! those of `into_with_counted` and `into_without_counted` at most 5 copied nodes, each by a [`Count`]. All comparisons of
//! keys are made in `count::compared` and `count::is_below`, which calls `Bound::is_above` once. Parts (rows and nodes) enter
//! new nodes in `node::put`, `node::append` and `rebuilt::in_halves`, which count them. Nodes that another shelf has are copied
//! in `node::clones_of`, which counts them.
//!
//! Shelves share rows and nodes by reference counts. A row or a node taken over from an older shelf is the same object in
//! memory. Putting it into a new node increments its count, and it is freed with the last shelf that contains it. Dropping a
//! shelf decrements the root's count. A node that is freed decrements the counts of its parts. A clone of a shelf also shares
//! its root. A node on the path of an `into_` call is changed in place if its count and those of all nodes above it are 1.
//!
//! The only error is `AllocError`: out of memory, or a reference count at its maximum. Calls that neither allocate nor
//! increment a reference count return no error. After an error no other shelf has changed, and a consumed shelf is freed.
//!
//! - `shelf`: the public type: how a shelf is read, and how a changed copy is made.
//! - `bound`: where a range begins or ends.
//! - `range`: the public iterator over rows.
//! - `count`: the counter of the work of a call.
//! - `path`: where in a shelf a key belongs, and the inner nodes after a change of its leaf.
//! - `rebuilt`: a list of nodes after the parts of one of them changed.
//! - `in_place`: how the nodes on the path to a key are changed in place.
//! - `search`: where in an ordered list of parts a bound belongs.
//! - `walk`: how an iterator moves from node to node.
//! - `leaf`: the rows of one leaf.
//! - `node`: a node that several shelves share.
//! - `shared_row`: a row that several nodes share.
//!
//! Nothing outside this crate depends on the nodes.
//!
//! `docs/GLOSSARY.md` explains the terms.
#![tactic(auto)]

mod bound;
mod count;
mod in_place;
mod leaf;
mod node;
mod path;
mod range;
mod rebuilt;
mod search;
mod shared_row;
mod shelf;
mod walk;

pub use bound::Bound;
pub use count::Count;
pub use range::Range;
pub use shelf::Shelf;
