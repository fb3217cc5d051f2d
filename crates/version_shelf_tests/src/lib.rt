//! Does a `version_shelf` read as a plain map does, old versions too, at the costs that its root file states?
//!
//! The crate has tests alone, over the public calls of `version_shelf`:
//!
//! - `kinds_of_keys`: the kinds of key and value that the versions of a book have.
//! - `random_changes`: one shelf compared with a plain list, through random changes.
//! - `equal_keys`: keys that differ but compare as equal.
//! - `comparisons`: how many comparisons and copies of keys each call makes.
//! - `copied_nodes`: which nodes a change of a consumed shelf copies.
//! - `filled_shelves`: shelves of many nodes, filled and emptied in several orders.
//! - `scripts`: scripts that make shelves and read them.
//! - `keys`: keys and values for these tests.
//! - `counted_keys`: keys whose comparisons and copies are counted.
//! - `wanted`: assertions; `bounds`: those that these tests alone need.
//!
//! `docs/GLOSSARY.md` explains the terms.
#![tactic(auto)]

#[cfg(test)]
mod bounds;
#[cfg(test)]
mod comparisons;
#[cfg(test)]
mod copied_nodes;
#[cfg(test)]
mod counted_keys;
#[cfg(test)]
mod equal_keys;
#[cfg(test)]
mod filled_shelves;
#[cfg(test)]
mod keys;
#[cfg(test)]
mod kinds_of_keys;
#[cfg(test)]
mod random_changes;
#[cfg(test)]
mod scripts;
#[cfg(test)]
mod wanted;
