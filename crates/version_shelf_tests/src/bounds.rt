//! Assertions that these tests alone need: on bounds, and on what a later call requires.

ghost use Rattle.std.specs.Prelude.{IsTrue};

use std::process::Abort;

/// Asserts that it holds. Unlike `holds` of the module `wanted`, it ensures this, for a call that requires it.
pub fn is_met(rt: &impl Abort, it: bool, at: &str)
    ensures { IsTrue it }
{
    assert!(rt; it, "{at}");
}

/// Asserts that the number is this one or a lower one.
pub fn is_at_most(rt: &impl Abort, got: u64, most: u64, at: &str) {
    assert!(rt; got <= most, "{at}: {got}, and at most {most}");
}
