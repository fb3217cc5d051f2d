//! Selectors: what is accepted, the first fault of what is refused, the longest texts, the parts.

use crate::faults::check;
use crate::wanted::{holds, is_text};
use spiffe_name::{Selector, one_selector_has_one_text};
use std::alloc::Global;
use std::process::Abort;
use std::test::Fail;

const SELECTORS: &str = "\
ok unix:uid:1000
ok k8s:ns::
ok ü:ß
S4 unix:
S3 :x
S3 :
S2 unix
S2
ok u:*510 x
S1 u:*511 x
S2 *512 x
S1 *513 :
ok ü:*254 é
S1 ü:*255 é
";

/// The selector of a text. It has no contract, so that callers' proofs don't evaluate the grammar on a literal.
fn selector_of(alloc: Global, text: &str) -> Result<Selector, Fail> {
    Ok(Selector::parse(alloc, text)?)
}

/// Asserts the type and the value of the selector, that it equals its clone, and that it is printed as its text.
fn has_parts(
    rt: &impl Abort,
    alloc: Global,
    text: &str,
    selector_type: &str,
    value: &str,
) -> Result<(), Fail> {
    let selector = selector_of(alloc, text)?;
    is_text(rt, selector.selector_type(), selector_type, "type");
    is_text(rt, selector.value(), value, "value");
    holds(rt, selector.clone()? == selector, "a selector's clone");
    let printed = format!(in alloc; "{selector}")?;
    is_text(rt, printed.as_str(), text, "print");
    Ok(())
}

#[test]
fn selectors_are_cut_at_their_first_colon(rt: HostRuntime) -> Result<(), Fail> {
    check(&rt, rt.alloc(), "selector", SELECTORS)?;
    has_parts(&rt, rt.alloc(), "unix:uid:1000", "unix", "uid:1000")?;
    one_selector_has_one_text();
    Ok(())
}
