//! Which marks do works read, what are their outcomes, and does a window have the versions on which they may begin?
//!
//! The crate has tests alone, over the public calls of `batch_work`:
//!
//! - `windows`: which versions a window has; `shared_windows`: the same of a shared window; `worked`: the marks and the outcomes
//!   of works on small books, as tables. `playing` plays a table.
//! - `random`: long histories of random batches, compared with the plain book. Their reads are compared with those that
//!   `footprints` computes over `plain_rows`.
//! - `elsewhere`: random batches on pairs of books.
//! - `running`: a work to its end, with its marks as text, and its commit. `details` writes the whole outcome.
//! - `wanted`: assertions.
//!
//! `docs/GLOSSARY.md` explains the terms.
#![tactic(auto)]

#[cfg(test)]
mod details;
#[cfg(test)]
mod elsewhere;
#[cfg(test)]
mod footprints;
#[cfg(test)]
mod plain_rows;
#[cfg(test)]
mod playing;
#[cfg(test)]
mod random;
#[cfg(test)]
mod running;
#[cfg(test)]
mod shared_windows;
#[cfg(test)]
mod wanted;
#[cfg(test)]
mod windows;
#[cfg(test)]
mod worked;
