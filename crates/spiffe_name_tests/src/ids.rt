//! IDs and trust domains: what is accepted, the first fault of what is refused, the longest texts, the parts.

use crate::faults::check;
use crate::wanted::{holds, is_text};
use spiffe_name::{SpiffeId, TrustDomain, one_id_has_one_text, only_names_pass};
use std::alloc::Global;
use std::cmp::Ordering;
use std::process::Abort;
use std::test::Fail;

const IDS: &str = "\
ok spiffe://a
ok spiffe://a/...
ok spiffe://a/X.y-z_0/b
ok spiffe://ex.org/spire/agent/n1
I6 spiffe://a/
I6 spiffe://a//x
I6 spiffe://a/x/
I3 spiffe:///x
I3 spiffe://
I5 spiffe://a:80/x
I5 spiffe://a?x
I5 spiffe://A/x
I5 spiffe://a%2f/x
I2 SPIFFE://a/x
I2 spiffe:/a/x
I2
I2 http://a/x
I7 spiffe://a/.
I7 spiffe://a/..
I7 spiffe://a/x/../y
I7 spiffe://a/..//x
I6 spiffe://a//..
I8 spiffe://a/x?y
I8 spiffe://a/x#y
I8 spiffe://a/é
I5 spiffe://é/x
I8 spiffe://a/x y/..
I7 spiffe://a/../x y
";

#[test]
fn ids_and_the_first_fault_of_other_texts(rt: HostRuntime) -> Result<(), Fail> {
    check(&rt, rt.alloc(), "ID", IDS)
}

const LONG_IDS: &str = "\
ok spiffe://a/*2037 x
I1 spiffe://a/*2038 x
I1 http://a/*2040 x
I8 spiffe://a/*1018 é
I1 spiffe://a/*1019 é
ok spiffe://*255 a
I4 spiffe://*256 a
I4 spiffe://*256 A
I5 spiffe://*255 A
I4 spiffe://*2039 a
I1 spiffe://*2040 a
";

const DOMAINS: &str = "\
ok *255 a
I4 *256 a
I5 *127 é
I4 *128 é
ok ex.org
ok a-b_c.0
I3
I5 a/b
I5 ex.Org
I5 a:1
";

#[test]
fn the_longest_ids_and_domains(rt: HostRuntime) -> Result<(), Fail> {
    check(&rt, rt.alloc(), "ID", LONG_IDS)?;
    check(&rt, rt.alloc(), "trust domain", DOMAINS)
}

/// The ID of a text. It has no contract, so that callers' proofs don't evaluate the grammar on a literal.
fn id_of(alloc: Global, text: &str) -> Result<SpiffeId, Fail> {
    Ok(SpiffeId::parse(alloc, text)?)
}

/// The trust domain of a text. It has no contract either.
fn domain_of(alloc: Global, text: &str) -> Result<TrustDomain, Fail> {
    Ok(TrustDomain::parse(alloc, text)?)
}

/// Each line has an ID, its trust domain, and its path, if it has one.
const PARTS: &str = "\
spiffe://ex.org ex.org
spiffe://ex.org/web ex.org /web
spiffe://ex.org/spire/agent/n1 ex.org /spire/agent/n1
";

/// Asserts that the ID of the line has these parts, and equals its clone.
fn has_parts(rt: &impl Abort, alloc: Global, line: &str) -> Result<(), Fail> {
    let (text, parts) = line.split_once(' ').unwrap_or((line, ""));
    let (domain, path) = parts.split_once(' ').unwrap_or((parts, ""));
    let id = id_of(alloc, text)?;
    is_text(rt, id.domain(), domain, line);
    is_text(rt, id.path(), path, line);
    holds(rt, id.clone()? == id, line);
    Ok(())
}

/// Asserts that the ID of a trust domain's server is this one, and that the domain equals its clone.
fn has_server(rt: &impl Abort, alloc: Global, text: &str, expected: &str) -> Result<(), Fail> {
    let domain = domain_of(alloc, text)?;
    holds(rt, domain.clone()? == domain, text);
    let server = SpiffeId::server_of(alloc, &domain)?;
    is_text(rt, server.as_str(), expected, text);
    Ok(())
}

/// Asserts that the first ID differs from the second and is less.
fn is_below(rt: &impl Abort, alloc: Global, text: &str, other: &str) -> Result<(), Fail> {
    let id = id_of(alloc, text)?;
    let other = id_of(alloc, other)?;
    holds(rt, id != other, text);
    holds(rt, id.cmp(&other) == Ordering::Less, text);
    Ok(())
}

/// Asserts that the first trust domain is less than the second.
fn is_domain_below(rt: &impl Abort, alloc: Global, text: &str, other: &str) -> Result<(), Fail> {
    let domain = domain_of(alloc, text)?;
    holds(rt, domain < domain_of(alloc, other)?, text);
    Ok(())
}

/// Asserts that an ID and a trust domain are printed as their texts.
fn are_printed(rt: &impl Abort, alloc: Global, id: &str, domain: &str) -> Result<(), Fail> {
    let printed = format!(in alloc; "{}", id_of(alloc, id)?)?;
    is_text(rt, printed.as_str(), id, "print of an ID");
    let printed = format!(in alloc; "{}", domain_of(alloc, domain)?)?;
    is_text(rt, printed.as_str(), domain, "print of a trust domain");
    Ok(())
}

#[test]
fn the_parts_of_an_id_and_the_servers_id(rt: HostRuntime) -> Result<(), Fail> {
    let alloc = rt.alloc();
    for line in PARTS.lines() {
        has_parts(&rt, alloc, line)?;
    }
    has_server(&rt, alloc, "ex.org", "spiffe://ex.org/spire/server")?;
    is_below(&rt, alloc, "spiffe://ex.org/Web", "spiffe://ex.org/web")?;
    is_domain_below(&rt, alloc, "ex-org", "ex.org")?;
    are_printed(&rt, alloc, "spiffe://ex.org/web", "ex.org")?;
    one_id_has_one_text();
    only_names_pass();
    Ok(())
}
