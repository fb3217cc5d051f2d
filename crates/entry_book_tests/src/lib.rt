//! Which lists of operations are refused as a batch, at each boundary, and do the public calls of `entry_book` answer?
//!
//! The crate has tests alone, over the public calls of `entry_book`:
//!
//! - `batches`: batches and their refusals; `pages`: those of pages; `kept`: what a batch carries besides its operations,
//!   and when operations are the same; `rows`: what rows consist of; `limits`: when a limit is passed; `laws`: each theorem
//!   is called.
//! - `making`: entries, and the parts of operations; `ops_of_text`: operations from the words of a text; `wanted`: assertions.
//!
//! `docs/GLOSSARY.md` explains the terms.
#![tactic(auto)]

#[cfg(test)]
mod batches;
#[cfg(test)]
mod kept;
#[cfg(test)]
mod laws;
#[cfg(test)]
mod limits;
#[cfg(test)]
mod making;
#[cfg(test)]
mod ops_of_text;
#[cfg(test)]
mod pages;
#[cfg(test)]
mod rows;
#[cfg(test)]
mod wanted;
