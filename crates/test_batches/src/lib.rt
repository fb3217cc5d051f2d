//! Test library: batches and replies as short texts. Tests alone use this crate.
//!
//! The trust domain is always `ex.org`. An ID is written as its path, that of an agent as its name alone, and an entry or a
//! token as a number.
//!
//! - `making`: [`batch`] makes a batch from a text such as `token 7; create 1 n1 /web x:1 0 d1`. Other tables use its words too.
//! - `draws`: [`batch_text`] draws a random batch over a few names, as text. [`below`] draws a number.
//! - `marks`: [`marks_text`] writes marks as text.
//! - `telling`: [`reply_text`] writes a reply as text; the others write its parts.
//! - `failed`: the error of these functions.
//!
//! `docs/GLOSSARY.md` explains the terms.
#![tactic(auto)]

mod draws;
mod failed;
mod making;
mod marks;
mod telling;

pub use draws::{batch_text, below};
pub use failed::Failed;
pub use making::{batch, number, number_behind, trust_domain, word, words};
pub use marks::{add_mark, mark_words, marks_text};
pub use telling::{
    accepted_text, kind_at_place, of_number, outcome_text, replies_text, reply_text,
};
