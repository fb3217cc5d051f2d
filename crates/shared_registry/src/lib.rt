//! What may threads that share one registration book rely on?
//!
//! Each caller has a seat, a client handle. A query takes no lock and waits for no other thread: the seat looks once at the
//! published state, and answers the batch on it. A batch of changes runs on that state in small steps, and the lock is held
//! only for its commit. If a batch that was committed since then wrote what it has read, it begins again while tries are
//! left. What a seat has seen only grows, is always a lawful journal, and begins with all that it learnt from the receipts
//! of others. What two seats have seen are prefixes of one list, so all answers agree with one list of committed batches.
//! Only the writer, under the lock, may append to this list: so it knows all of it, and whenever the lock is free, all of it is
//! published.
//!
//! - [`Registry`]: the state that the threads share. [`Seat`]: one caller, with what it has seen; [`NoSeat`]: all are
//!   given.
//! - [`Outcome`]: the outcome of a batch of changes, from which the answer to its call follows. [`Gate`]: a test hook at each
//!   [`Point`] of a try; [`OpenGate`] does nothing.
//! - [`Answer`]: the reply to a query. [`NoAnswer`] and [`NoEntry`]: why a query, a batch of changes or a request for news has no
//!   answer.
//! - [`Receipt`]: what a seat had seen, or all items at some time, for another seat to learn.
//! - [`commits_law`]: after a commit a seat may answer queries without a look. [`one_list`], [`one_list_of_receipts`] and
//!   [`one_list_with_receipt`]: what any two callers have seen are prefixes of one list. [`repeats_law`] and [`overtaken_law`]: which
//!   repeats and conflicts there are in a history that begins with the empty book.
//! - [`RegistryId`] and [`NewHistory`]: which registry it is, with the books that its history begins with, and its empty history.
//!   The types ensure that seats, receipts and registries of one registry belong together.
//! - [`ClosedRegistry`]: what is left of a registry that was closed. Nobody has seen more than it shows.
//! - [`PublishedValue`], [`History`], [`HistoryEntry`] and [`HistoryPrefix`] occur in contracts: what the writer publishes, the
//!   history with the right to append to it, an entry of it, and a prefix of it.
//!
//! The words of this crate:
//!
//! - journal: the list of all items committed since the first books; prefix: its first items, given by their number.
//! - published state: the window of the last books, and the number of commits of each seat; published value ([`PublishedValue`]): a
//!   published state with the prefix that it shows; snapshot: the published value that a seat has.
//! - found: the journal of the snapshot that a seat has; seen: the prefix that its answers were computed from; learnt: the
//!   longest prefix that it learnt of.
//! - own: the numbers of the calls that a seat has committed.
//! - first books: the list of books that the history begins with.
//! - place: the number of the last book. In a registry that begins with the empty book it is the number of items. The methods
//!   named `place` return the number of items since the first books.
//!
//! The definitions are in `specs/`. `Outcomes` defines the outcome of a batch of changes, `Shown` the published value, `Seated`
//! and `SeatCalls` a seat, `OneList` how the journals of two callers are related, and `Rules` the history's entries. The others are
//! for this crate's own contracts: `WriterStates` and `RetainedStates` define the state under the lock, `Works` a work in execution,
//! and the files that end in `Private` the invariants.
//!
//! - `history` and `entry`: the one history, and the prefixes of it that were seen; `published` and `rule`: the state that readers look at,
//!   and the invariant that each step over it preserves; `run`: how a batch of changes runs on the published state;
//!   `writer_state` and `commit`: the state under the lock, and the commit on it; `recent`: published states that are retained;
//!   `seat` and `registry`: the calls of the two types; `reading`: how a seat looks at the published state; `closed`: what is left
//!   of a registry that was closed; `outcome`; `gate`: the test hook; `laws`: theorems that follow from the contracts.
//!
//! A statement such as `let _place = seat.place();` has no effect at run time. It brings the contract of the call, mostly
//! an invariant of its value, into the proof, which fails without it.
//!
//! `docs/GLOSSARY.md` explains the terms.
#![tactic(auto)]

mod closed;
mod commit;
mod entry;
mod gate;
mod history;
mod laws;
mod outcome;
mod published;
mod reading;
mod recent;
mod registry;
mod rule;
mod run;
mod seat;
mod writer_state;

pub use closed::ClosedRegistry;
pub use entry::HistoryEntry;
pub use gate::{Gate, OpenGate, Point};
pub use history::{History, HistoryPrefix, NewHistory, RegistryId};
pub use laws::{
    commits_law, conflicts_take_commits, one_list, one_list_of_receipts, one_list_with_receipt,
    overtaken_law, repeats_law,
};
pub use outcome::Outcome;
pub use published::PublishedValue;
pub use registry::Registry;
pub use seat::{Answer, NoAnswer, NoEntry, Receipt, Seat};
pub use writer_state::NoSeat;
