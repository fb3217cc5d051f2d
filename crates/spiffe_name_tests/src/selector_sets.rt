//! Sets of selectors: their order, subsets and common members.

use crate::wanted::{holds, is_number, is_text};
use spiffe_name::{Selector, SelectorSet, one_set_is_one_list, set_has_members_of_list};
use std::alloc::Global;
use std::process::Abort;
use std::test::Fail;

/// Makes the set of the selectors in a text, where spaces separate them.
fn set_of(alloc: Global, texts: &str) -> Result<SelectorSet, Fail> {
    let mut selectors = Vec::new(alloc);
    for text in texts.split_whitespace() {
        selectors.push(Selector::parse(alloc, text)?)?;
    }
    Ok(SelectorSet::of(selectors)?)
}

/// Each line has some selectors, and the selectors of their set in order.
const ORDERED: &str = "\
u:2 u:1 u:2 => u:1 u:2
a!:y a:x a:b:c A:z a:x => A:z a:b:c a:x a!:y
=>
";

/// Asserts that the set of the given selectors has the wanted ones, in order.
fn is_ordered(rt: &impl Abort, alloc: Global, given: &str, wanted: &str) -> Result<(), Fail> {
    let set = set_of(alloc, given)?;
    let count = wanted.split_whitespace().count();
    is_number(rt, set.len() as u64, count as u64, given);
    holds(rt, set.is_empty() == (count == 0), given);
    for (selector, text) in set.iter().zip(wanted.split_whitespace()) {
        is_text(rt, selector.as_str(), text, given);
        holds(rt, set.contains(selector), text);
    }
    let same = set.clone()?;
    holds(rt, set.as_slice() == same.as_slice(), given);
    holds(rt, same == set, given);
    Ok(())
}

#[test]
fn sets_are_ordered_by_type_then_value(rt: HostRuntime) -> Result<(), Fail> {
    for case in ORDERED.lines() {
        let (given, wanted) = case.split_once("=>").unwrap_or((case, "no arrow"));
        is_ordered(&rt, rt.alloc(), given, wanted)?;
    }
    Ok(())
}

/// Each line has two sets, and how they are related.
const PAIRS: &str = "\
x:1 x:2 and x:1 x:2 => within, meets, is met
x:1 x:2 and x:3 x:2 x:1 => within, meets, is met
x:1 x:2 and x:1 => meets, is met
x:1 and x:1 x:2 => within, meets, is met
x:1 and x:2 => apart
and x:2 => within
x:1 and => apart
";

/// Describes whether the first set is a subset of the second, and whether each meets the other.
fn as_text(own: &SelectorSet, other: &SelectorSet) -> &'static str {
    match (own.within(other), own.meets(other), other.meets(own)) {
        (true, true, true) => "within, meets, is met",
        (false, true, true) => "meets, is met",
        (true, false, false) => "within",
        (false, false, false) => "apart",
        _ => "one meets the other, which doesn't meet it",
    }
}

/// Asserts that the two sets of a line are related as it says.
fn lie(rt: &impl Abort, alloc: Global, case: &str) -> Result<(), Fail> {
    let (sets, expected) = case.split_once(" => ").unwrap_or((case, "no arrow"));
    let (own, other) = sets.split_once("and").unwrap_or((sets, "no other set"));
    let own = set_of(alloc, own)?;
    let other = set_of(alloc, other)?;
    is_text(rt, as_text(&own, &other), expected, case);
    Ok(())
}

#[test]
fn sets_lie_within_one_another_and_meet(rt: HostRuntime) -> Result<(), Fail> {
    for case in PAIRS.lines() {
        lie(&rt, rt.alloc(), case)?;
    }
    one_set_is_one_list();
    set_has_members_of_list();
    Ok(())
}
