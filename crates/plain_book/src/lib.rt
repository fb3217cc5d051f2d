//! What does a registration book for one thread reply, batch by batch?
//!
//! The reference implementation of the definitions in `entry_book`, with which other representations of a book are compared.
//! [`PlainBook`] runs a batch operation by operation on sorted lists of rows. It represents the list of all books so far: a
//! committed batch appends the next one.
//!
//! It stores the last 64 books, for pages of an earlier book. A list of rows consists of blocks of at most 256 rows. Books
//! share by reference counts the lists, blocks and rows that they have in common. Entries are in two lists: one in the
//! order of ids, and one that groups them by parent.
//!
//! Costs, on a book of n rows of the kind in question. *Finding* a row by its key takes about log2 n comparisons, and so does
//! finding the entries of a parent. *Changing* a row finds it, and copies the list of blocks and one block. A list has at most
//! n / 128 blocks, or one; after removals it may have more, since blocks are not merged.
//!
//! - `show`, `show_agent`, `show_bundle` find a row. `set_agent`, `drop_agent` and `set_bundle` change a row.
//! - `create` and `delete` change three lists: of all entries, of all parents, and of the parent's entries. `update` changes the
//!   last two twice. `create` and `update` also compare the entry with those of its parent, and find the bundle of each of its
//!   domains.
//! - `children` finds the entries of a parent and copies references to them.
//! - `authorised` compares the agent with each alias. For each entry that it reaches, it finds the children of its
//!   identity, and puts each child into a sorted vector. `trust` does the same, copies references to all bundles, and
//!   compares each with these entries.
//! - `page` scans the entries from the first one on, until it finds one more than it has room for. `prune` copies references to
//!   all entries, scans them, and then changes each one that it finds. `drop_bundle` does the same and then changes a bundle. In
//!   mode `Restrict`, it scans until it finds an entry, and changes the bundle if there is none.
//! - A batch with a token finds the token. If its operations are accepted, it also changes the list of tokens.
//!
//! - `plain_book`: the state between batches; `older`: the books before the last one.
//! - `verdict`: the outcome of a batch on the book that it reads.
//! - `run`: the operations of a batch, one after another; `ops`: a file for each operation.
//! - `book`: the four lists of rows, what operations read from them, and the books that they make.
//! - `rows`: a list of rows; `blocks`, `row`: how a row is found in blocks, inserted, replaced or removed.
//! - `entries`: both lists of entries; `siblings`, `by_parent`: the entries of one parent, and the list of all parents.
//! - `find`, `listing`, `users`, `expired`: the rows that an operation reads; `worklist`: the authorised entries of an agent.
//! - [`laws`]: the theorems that the state and the list of all books agree, stated in `specs/Laws.antt`. All other files of
//!   `specs/` are for this crate's own contracts. No other crate depends on how a book is stored.
//!
//! `docs/GLOSSARY.md` explains the terms.
#![tactic(auto)]

mod blocks;
mod book;
mod by_parent;
mod entries;
mod expired;
mod find;
pub mod laws;
mod listing;
mod older;
mod ops;
mod plain_book;
mod row;
mod rows;
mod run;
mod siblings;
mod users;
mod verdict;
mod worklist;

pub use plain_book::PlainBook;
