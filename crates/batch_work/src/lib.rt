//! How is a batch run in small steps on one version of the book, and on what does its reply depend?
//!
//! Many callers read versions at the same time, because these never change. Each runs its batch alone, with one read in each
//! step, through the batch's own earlier changes. It changes no shared state. In the end it has the specification's reply on
//! the version that it began on. It also has its read set: the marks that it read, on which alone this reply depends. So a
//! commit of the batch checks only these marks.
//!
//! - [`Work`]: a batch in execution. It begins on a window, makes a read with each step, and is then ready for its commit, or
//!   settled; [`Status`] says which.
//! - [`answer`]: the reply to a read-only batch, in one pass: nothing commits on what it reads, so there are no steps and no
//!   marks.
//! - [`BorrowedReply`]: such a reply, whose rows are borrowed from the version, so that it changes no reference count. It has a
//!   [`BorrowedOpReply`] for each operation, which has its [`BorrowedRows`].
//! - [`Window`]: the newest version of one history and up to 63 before it. A batch reads the newest one, or the one of the
//!   earlier book that its page names. [`SharedWindow`]: the same in a small value that never changes; the next one shares most
//!   versions with it. Both are [`Versioned`]: works begin on them.
//! - [`laws`]: theorems. They state that what a batch reads decides its outcome, and what its outcome at a commit is; how many
//!   reads it makes, and which; and how a window represents the list of all books.
//!
//! The definitions are in `specs/`: `Reads` has the table of reads, the cases that a batch can meet, and its footprint in each;
//! `Working` has what a work is, `Windows` what a window is, and `BorrowedReplies` the replies of borrowed rows. `Laws`, `Bounds`
//! and `Walked` have the theorems. The others are for this crate's own contracts. No other crate depends on how a work is
//! executed:
//!
//! - `begin`: what a batch begins on; `versions`: which version it reads there, or why it reads none.
//! - `look`: what its next read finds; `take`: what follows from that; `stage`: its state between two steps.
//! - `read_only`: evaluates read-only batches in one pass.
//! - `phase`: the state of an operation between two reads; `advance`: its next state.
//! - `walk`: the walk to authorised entries, in steps; `sorted`: the sorted sets of this walk and of that in `read_only`.
//!
//! `docs/GLOSSARY.md` explains the terms.
#![tactic(auto)]

mod advance;
mod arrivals;
mod begin;
mod borrowed_reply;
mod domains;
pub mod laws;
mod look;
mod phase;
mod read_only;
mod rows;
mod shared_window;
mod sorted;
mod stage;
mod status;
mod take;
mod versioned;
mod versions;
mod walk;
mod window;
mod work;

pub use borrowed_reply::{BorrowedOpReply, BorrowedReply, BorrowedRows};
pub use read_only::answer;
pub use shared_window::SharedWindow;
pub use status::Status;
pub use versioned::Versioned;
pub use window::Window;
pub use work::Work;
