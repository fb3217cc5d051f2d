//! When does a batch commit that began before others did, and what does the journal keep?
//!
//! The crate has tests alone, over the public calls of `commit_head`:
//!
//! - `worked`: small histories, as tables. `playing` plays a table on a `test_head`: a head, and the works that wait for
//!   their commits. `telling` writes commits and items as text.
//! - `random`: a long history of random batches, compared with the plain book.
//! - `wanted`: assertions.
//!
//! `docs/GLOSSARY.md` explains the terms.
#![tactic(auto)]

#[cfg(test)]
mod playing;
#[cfg(test)]
mod random;
#[cfg(test)]
mod telling;
#[cfg(test)]
mod test_head;
#[cfg(test)]
mod wanted;
#[cfg(test)]
mod worked;
