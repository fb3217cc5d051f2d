//! What is a registration book, and what does a batch of operations do to it?
//!
//! The book of a server has four sets of rows: entries, agents, trust bundles, and the batches that were committed with a
//! token. A batch of operations is atomic. This crate defines that, has the types of rows and batches, and proves theorems
//! about the definitions. A crate with a book, such as `plain_book`, is proved to reply as they say.
//!
//! - [`Batch`]: 1 to 64 operations without a fault for the book of one trust domain, with a minimum place and optionally a
//!   token. [`BatchRefusal`] and [`OpFault`] say why a list of operations is not a batch.
//! - [`Op`]: one operation; [`NewEntry`], what a caller gives for an entry; [`DropMode`], what happens to the entries that
//!   name a dropped bundle's domain; and [`PageQuery`], which lists a bounded number of entries that pass a [`Filter`],
//!   optionally with a condition on their selectors ([`SelectorMatch`], in one of four [`MatchMode`]s).
//! - [`Reply`]: the outcome of a batch ([`ReplyOutcome`]): the [`OpReply`] of each operation, now or when the batch was first
//!   committed with its token; or the [`Refusal`], of a batch that is too early or reuses a token, of the first operation
//!   that the book refuses ([`OpRefusal`]), or for a [`Limit`] of the book. [`CallAnswer`]: such a reply, or a conflict, which only
//!   concurrent calls meet. A clone shares the replies.
//! - [`Entry`], [`Agent`], [`Bundle`], [`KeptBatch`]: the rows. Cloning a row copies no text.
//! - [`Shared`], [`Sequence`], [`Text`], [`DomainSet`]: what rows consist of. Contracts see them as a value, a list,
//!   bytes and a set.
//! - [`both`], [`pair_with`]: pairs of values, where making each of them, or only the second, may have run out of memory.
//! - [`is_server`]: whether an ID is that of a trust domain's server; [`limit_passed`]: the limit that a book passes, if any.
//! - [`laws`]: theorems about every book, such as that each reachable book is lawful.
//!
//! The definitions are in `specs/`. The crates above cite them, so a changed definition changes what the program promises:
//!
//! - `Rows`, `Book`, `Order`, `Writes`: what a book is, and how a write changes it; `Lawful`: the invariants of a book.
//! - `Batches`, `Tokens`: which lists of operations are a batch, and what is stored for a token; `SameOps`: when two are equal.
//! - `Ops`, `Runs`, `History`: what one operation, a batch, and one batch after another reply and change; `Limits`: how large a
//!   book may become. `Authorised`, `Pages`: what the queries for authorised entries and for pages return. `Codes`: the codes of
//!   refusals.
//! - `Effects`, `NamedRows`, `Listings`, `Faultless`: the same in direct words, without the order of evaluation. `Laws`: the
//!   theorems, among them that both agree. `Worked`: examples.
//!
//! `docs/BOOK.md` has the rules, and `docs/GLOSSARY.md` the terms.
#![tactic(auto)]

mod agent;
mod batch;
mod bundle;
mod check;
mod domains;
mod entry;
mod fault;
mod invariants;
mod kept;
pub mod laws;
mod limit;
mod listing;
mod mode;
mod op;
mod page;
mod pair;
mod reply;
mod same;
mod sequence;
mod shared;
mod text;

pub use agent::Agent;
pub use batch::Batch;
pub use bundle::Bundle;
pub use check::is_server;
pub use domains::DomainSet;
pub use entry::{Entry, NewEntry};
pub use fault::{BatchRefusal, OpFault};
pub use kept::KeptBatch;
pub use limit::{Limit, limit_passed};
pub use mode::DropMode;
pub use op::Op;
pub use page::{Filter, MatchMode, PageQuery, SelectorMatch};
pub use pair::{both, pair_with};
pub use reply::{CallAnswer, OpRefusal, OpReply, Refusal, Reply, ReplyOutcome};
pub use sequence::Sequence;
pub use shared::Shared;
pub use text::Text;
