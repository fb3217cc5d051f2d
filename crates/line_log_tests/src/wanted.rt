//! Assertions, each in a function of its own, since an assertion that is written out takes the prover seconds.
//!
//! Every crate of tests that needs them has a copy of this file, because CI refuses a library with functions that may abort.
//! `tests/layout/crates` checks that the copies are equal.

use std::process::Abort;

/// Asserts that it holds.
pub fn holds(rt: &impl Abort, it: bool, at: &str) {
    assert!(rt; it, "{at}");
}

/// Asserts that it holds at this number.
pub fn holds_at(rt: &impl Abort, it: bool, at: &str, number: u64) {
    assert!(rt; it, "{at} {number}");
}

/// Asserts that the two numbers are equal.
pub fn is_number(rt: &impl Abort, got: u64, expected: u64, at: &str) {
    assert_eq!(rt; got, expected, "{at}");
}

/// Asserts that the two texts are equal.
pub fn is_text(rt: &impl Abort, got: &str, expected: &str, at: &str) {
    assert_eq!(rt; got, expected, "{at}");
}
