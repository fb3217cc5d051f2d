//! Test library: helpers for values of any type. Tests alone use this crate.
//!
//! If a function over concrete types dropped a value on an early return, the prover would have to show for each of its parts that
//! it may be dropped. These functions do it for a type parameter, of which nothing more is known.
//!
//! - [`if_done`], [`pair_with`], [`unless`], [`had`]: a value that is returned if a step succeeded, and dropped otherwise.
//! - [`copy`]: a clone of a value.
//! - [`one`], [`add`], [`add_copy`], [`add_some`]: vectors.
//!
//! The assertions of tests aren't here: CI refuses a library with a function that may abort. So each crate of tests has a copy of
//! the module `wanted`, and `tests/layout/crates` checks that the copies are equal.
//!
//! `docs/GLOSSARY.md` explains the terms.
#![tactic(auto)]

mod values;

pub use values::{add, add_copy, add_some, copy, had, if_done, one, pair_with, unless};
