//! Which pages are valid, at each boundary?
//!
//! Which entries a filter passes is tested with a book, in `plain_book_tests`.

use crate::batches::check;
use std::test::Fail;

const SIZES: &str = "\
B9 page 0
ok page 1
ok page 500
B9 page 501
B9 page 18446744073709551615
";

#[test]
fn sizes_of_pages_at_their_boundaries(rt: HostRuntime) -> Result<(), Fail> {
    check(&rt, rt.alloc(), SIZES)
}

const IDS: &str = "\
ok page 1 parent=/web
ok page 1 identity=/web
ok page 1 parent=/spire/server
ok page 1 identity=/spire/server
ok page 1 parent=/spire/agent/n1
ok page 1 identity=/spire/agent/n1
B3 page 1 parent=spiffe://b.org/spire/agent/n1
B3 page 1 identity=spiffe://b.org/spire/agent/n1
B4 page 1 parent=spiffe://ex.org
B4 page 1 identity=spiffe://ex.org
";

#[test]
fn ids_of_pages_at_their_boundaries(rt: HostRuntime) -> Result<(), Fail> {
    check(&rt, rt.alloc(), IDS)
}

/// Pages of the entries that name a trust domain and have one of the given number of selectors.
const SELECTORS: &str = "\
B6 page 1 domain=d100 any=0
ok page 1 domain=d100 any=1
ok page 1 domain=d100 any=16
B6 page 1 domain=d100 any=17
";

#[test]
fn selectors_of_pages_at_their_boundaries(rt: HostRuntime) -> Result<(), Fail> {
    check(&rt, rt.alloc(), SELECTORS)
}

const FAULTS: &str = "\
B6 page 0 domain=d100 any=17
B4 page 0 parent=spiffe://ex.org
B3 page 0 identity=spiffe://b.org/spire/agent/n1
";

#[test]
fn a_pages_least_fault_is_reported(rt: HostRuntime) -> Result<(), Fail> {
    check(&rt, rt.alloc(), FAULTS)
}
