//! What do versions read on small worked books and on random ones, and when do they report that nothing changed?
//!
//! The crate has tests alone, over the public calls of `version_book`:
//!
//! - `worked`: the marks of small books, as tables. `playing` plays a table.
//! - `random`: long histories of random operations from `draws`, compared with plain lists of their rows from `listed`.
//! - `marks`: marks from words; `rows`: rows as lines of text.
//! - `wanted`: assertions. `test_works` makes the version after a batch, whose writes a work of `batch_work` computes.
//!
//! `docs/GLOSSARY.md` explains the terms.
#![tactic(auto)]

#[cfg(test)]
mod draws;
#[cfg(test)]
mod listed;
#[cfg(test)]
mod marks;
#[cfg(test)]
mod playing;
#[cfg(test)]
mod random;
#[cfg(test)]
mod rows;
#[cfg(test)]
mod wanted;
#[cfg(test)]
mod worked;
