//! What is a version of the book, and what may a reader of one rely on?
//!
//! A version is a snapshot of the book after some commits. It is cheap to clone and never changes. It has an index for every
//! range that an operation reads. It can also check whether what was read from an older version is unchanged.
//!
//! Costs for readers and writers. No call copies the text of a row: cloning a row increments the reference counts of its parts.
//! A row is stored in a shelf of `version_shelf` once for each of its keys. Each row has its own key. An entry also has one for
//! its parent and identity, one for each trust domain that it names, and one for an expiry. A search in a shelf compares at
//! most 32 keys, and two searches find a range. A change of a shelf copies the nodes on the path from the root to the row,
//! unless the call copied them before. They have about 90 parts at 16,384 rows, and at most 1,024.
//!
//! | Call | Rows read, besides those that a search compares | Reference counts incremented | Memory allocated |
//! |---|---|---|---|
//! | `clone` | none | one, for all that the version has | none |
//! | `number`, `domain`, `server`, `count`, `Changes::hits` | none | none | none |
//! | `entry`, `agent`, `bundle` | the one with the key | none | none |
//! | `children` | those of the parent | none | a list of them, and for sorting it |
//! | `page` | from its start id to the one that shows that more follow | none | a list of those that it returns |
//! | `unchanged` | those that the mark names, up to the first difference | none | none |
//! | `read` | those that the mark names | those of these rows | two lists of them, and for sorting one |
//! | `read_after` | as `read`, and see below | as `read`, and of rows that changes add | as `read`, and room for added rows |
//! | `apply` | none | see below | the copied nodes, and a written row once for each of its keys |
//!
//! For each change, `read_after` also searches the rows of the mark for the change's row.
//!
//! For each key of a removed or written row, `apply` makes a search and changes the nodes on the path. It copies each node at
//! most once, however many changes it makes, and allocates a small block for each node of each path. A row that replaces one
//! with the same keys is put once under each of them; otherwise the old row is removed first. `apply` increments a reference
//! count for each part of a copied node, for each shelf, and for the server's names. It increments those of a written row once
//! for each of its keys.
//!
//! Sharing: a version has in common with the previous one each node that no change touched, and in the other nodes each row
//! that is unchanged. The last version that has them frees them.
//!
//! - [`Version`]: the rows of the book, each with the number of the commit that last wrote it. [`RowCounts`] has the number of
//!   rows of each kind.
//! - [`Borrowed`]: a row borrowed from a version. [`owned`] clones such rows, so that they outlive the version.
//! - [`Mark`]: an entry of a read set: one thing that a batch can read, such as the entries of a parent, or the batch stored
//!   under a token. [`MarkKind`] says which. [`RowsRead`]: the rows that it reads.
//! - [`Changes`]: the writes of a batch, in order, which make the next version. Each is a [`RowWrite`]: the [`RowChange`] of
//!   one row, or the [`TokenWrite`] that stores the batch under its token, with a place that the next version sets.
//! - [`laws`]: theorems about marks, writes and histories of versions, such as that a mark that no write hits reads the same.
//!
//! The definitions are in `specs/`. `Marks` defines what marks read and which writes hit them, `CommittedRows` the rows of
//! versions, and `History` how versions follow one another. `Applying` defines which writes may be applied, `Room` how many
//! rows a version may have, and `Written` the writes of [`Changes`] with the places that are set in them. `Index`,
//! `Stores` and `RowRanks` are for this crate's own contracts. No other crate depends on how the rows are stored:
//!
//! - `store`: the sets of rows of a version; `entries` and `row_shelf`: the shelves of a set; `index` and `key`: how an index
//!   is stored and ordered; `parent`: the bounds of a parent's keys; `committed_row`: rows with their commit numbers.
//! - `names`: what all versions of a book have in common.
//! - `row`: the key of a row, and whether a mark names it; `hits`: which writes hit a mark; `overlay`: what a mark reads after
//!   writes; `page`: which rows a page lists.
//!
//! `docs/GLOSSARY.md` explains the terms.
#![tactic(auto)]

mod borrowed;
mod changes;
mod committed_row;
mod entries;
mod hits;
mod index;
mod key;
pub mod laws;
mod mark;
mod names;
mod overlay;
mod page;
mod parent;
mod row;
mod row_shelf;
mod rows_read;
mod store;
mod version;

pub use borrowed::{Borrowed, owned};
pub use changes::{Changes, RowChange, RowWrite, TokenWrite};
pub use mark::{Mark, MarkKind};
pub use rows_read::RowsRead;
pub use version::{RowCounts, Version};
