//! Are the names that `spiffe_name` accepts and refuses those of the SPIFFE-ID specification, at each boundary?
//!
//! The crate has tests alone, over the public calls of `spiffe_name`:
//!
//! - `ids`: IDs and trust domains.
//! - `selectors`: selectors.
//! - `selector_sets`: sets of selectors.
//! - `faults`: tables of texts, each with its first fault.
//! - `wanted`: assertions.
//!
//! `docs/GLOSSARY.md` explains the terms.
#![tactic(auto)]

#[cfg(test)]
mod faults;
#[cfg(test)]
mod ids;
#[cfg(test)]
mod selector_sets;
#[cfg(test)]
mod selectors;
#[cfg(test)]
mod wanted;
