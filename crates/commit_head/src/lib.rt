//! When may a batch commit, and what does a commit change?
//!
//! A batch was run on an older version, and changed no shared state. A head decides whether its work commits. It commits only
//! if everything that the work has read is unchanged on the newest version. Then the work's replies and writes are those of
//! the specification there. The head adds the book after these writes, unless it would pass a limit. If a batch that was
//! committed since then wrote what the work has read, the outcome may be a conflict, and nothing changes.
//!
//! - [`Head`]: the only place where the book changes: the window on which works begin, and the journal (commit log).
//! - [`Item`]: what the journal stores of one commit: seat, call, batch, replies and writes.
//! - [`Commit`]: the outcome of a commit, from which the answer to its call follows. [`Prepared`]: a commit that has passed
//!   its checks and needs no more memory, so that it can be published before it is finished. [`Window`]: the newest version of
//!   a head and up to 63 before it; it is a type of `batch_work`, re-exported here.
//! - [`laws`]: theorems. They state what a head's journal implies for its versions and the specification, and what the outcome
//!   of a commit means; and that the version on which a work began remains one of the head's history.
//!
//! The definitions are in `specs/`. `Journals` defines items and where they lead, `Heads` what a head is and what a commit does
//! to it. `Outcomes` says what the outcome means in terms of the specification and which answer it gives, and `Laws` has the
//! theorems; `CommitRefusals` is for this crate's own contracts. No other crate depends on how a commit is checked:
//!
//! - `check`: whether a later batch wrote what a work has read; `prepare`: the outcome of a ready work on the newest version.
//!
//! `docs/GLOSSARY.md` explains the terms.
#![tactic(auto)]

mod check;
mod commit;
mod head;
mod item;
pub mod laws;
mod prepare;
mod prepared;

pub use batch_work::Window;
pub use commit::Commit;
pub use head::Head;
pub use item::Item;
pub use prepared::Prepared;
