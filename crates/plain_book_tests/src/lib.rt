//! Does a plain book keep the rules of a book, over random batches?
//!
//! The crate has tests alone, over the public calls of `plain_book`:
//!
//! - `random`: random requests over a few names. Each resulting book is lawful. The authorised entries of each agent, and
//!   each page of it or of an earlier book, are what a search finds: `rows` reads and checks all rows of a book, `search`
//!   finds chains by their length, and `requests` draws the requests and says which of them are early, repeated or too
//!   late.
//! - `worked`: what a small book replies, batch after batch; `past`: pages of earlier books, and batches with a minimum place;
//!   `tokens`: batches with a token. Each test is a script, which `playing` runs.
//! - `large`: what a book of over five hundred entries replies.
//! - `pages`: pages of random entries are what a search finds.
//! - `making`: batches from texts; `draws`: random texts from a grammar; `wanted`: assertions.
//!
//! `docs/GLOSSARY.md` explains the terms.
#![tactic(auto)]

#[cfg(test)]
mod draws;
#[cfg(test)]
mod large;
#[cfg(test)]
mod making;
#[cfg(test)]
mod pages;
#[cfg(test)]
mod past;
#[cfg(test)]
mod playing;
#[cfg(test)]
mod random;
#[cfg(test)]
mod requests;
#[cfg(test)]
mod rows;
#[cfg(test)]
mod search;
#[cfg(test)]
mod tokens;
#[cfg(test)]
mod wanted;
#[cfg(test)]
mod worked;
