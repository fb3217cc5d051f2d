//! Test library: works (transactions) of `batch_work`, run on small books. Tests alone use this crate.
//!
//! The functions check at run time what the calls of `batch_work` and `version_book` require, such as one trust domain, so that
//! their callers require little.
//!
//! - [`begun`]: a work that has begun on a window, if it may ([`may_begin`]); [`ended`]: a work on a version, at its end.
//! - [`next_of`]: the version after the batch of a work that is ready.
//!
//! `docs/GLOSSARY.md` explains the terms.
#![tactic(auto)]

mod running;

pub use running::{MOST, STEPS, begun, ended, may_begin, next_of};
