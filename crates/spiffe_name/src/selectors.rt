//! Which texts are selectors, and what are their parts?

ghost use Rattle.std.specs.Prelude.{Some, refl, ◌≡◌};
ghost use Rattle.std.specs.Cmp.{partial_equiv_from_equiv};
ghost use Rattle.spiffe_name.specs.Selector.{selector_refusal, selector_text};
ghost use Rattle.spiffe_name.specs.SelectorOrder.{selector_cmp, selector_cmp_total, selector_eq, selector_eq_equiv, selector_po, selector_ties};

use crate::refusals::{Failure, SelectorRefusal};
use std::alloc::{AllocError, Global};
use std::cmp::Ordering;
use std::fmt;
use std::marker::Model;

/// One attribute of a process or a node: a text `type:value` of at most 512 bytes, split at its first colon. Neither
/// part is empty; any other character is allowed. The model in contracts is the pair of its type and its value.
#[derive(Debug, Drop)]
pub struct Selector {
    text: String,
}

impl Model for Selector {
    ghost use Rattle.std.specs.String.{string_bytes};
    ghost use Rattle.std.specs.Prelude.{◌≡◌, None};
    ghost use Rattle.spiffe_name.specs.Selector.{SelectorPair, pair_of, selector_refusal};

    ghost Value = { SelectorPair };

    ghost view = { λ selector. pair_of (string_bytes selector.text) };

    ghost invariant = { λ selector. selector_refusal (string_bytes selector.text) ≡ None };
}

impl Selector {
    ghost use Rattle.std.specs.Prelude.{◌≡◌, IfErr, IfOk, MatchResult, None};
    ghost use Rattle.spiffe_name.specs.Failures.{FailsBy, IsNoMemory};
    ghost use Rattle.spiffe_name.specs.Selector.{SelectorPair, SpellsSelector, pair_of, selector_refusal, selector_text};

    /// Parses a selector. The error is the first [`SelectorRefusal`] that applies, in their order, or out of memory.
    pub fn parse(alloc: Global, text: &str) -> Result<Selector, Failure<SelectorRefusal>>
        ensures table { MatchResult result
            (λ selector. (selector ≡ pair_of text.now) × (selector_refusal text.now ≡ None))
            (FailsBy (selector_refusal text.now)) }
        ensures sound { IfOk result (SpellsSelector text.now) }
        ensures complete { (pair : SelectorPair) → SpellsSelector text.now pair
            → IfErr result IsNoMemory }
    {
        match selector_refusal(text) {
            Some(refusal) => Err(Failure::Refused(refusal)),
            None => Ok(Selector {
                text: String::from_str(alloc, text)?,
            }),
        }
    }

    /// Returns the text.
    pub fn as_str(&self) -> &str
        ensures text { result.now ≡ selector_text self.now }
        ensures selector { SpellsSelector result.now self.now }
    {
        self.text.as_str()
    }

    /// Returns the type: the text before the first colon.
    pub fn selector_type(&self) -> &str
        ensures { result.now ≡ self.now.type }
    {
        self.parts().0
    }

    /// Returns the value: the text after the first colon. It may contain further colons.
    pub fn value(&self) -> &str
        ensures { result.now ≡ self.now.value }
    {
        self.parts().1
    }

    /// Returns the texts before and after the first colon.
    fn parts(&self) -> (&str, &str)
        ensures before { result.0.now ≡ self.now.type }
        ensures behind { result.1.now ≡ self.now.value }
    {
        self.text.as_str().split_once(':').unwrap()
    }
}

impl Clone for Selector {
    ghost is_clone = { λ original copy. copy ≡ original };

    fn clone(&self) -> Result<Selector, AllocError> {
        Ok(Selector {
            text: self.text.clone()?,
        })
    }
}

/// Two selectors are equal if their types and their values are, and so if their texts are.
impl PartialEq for Selector {
    ghost eq = { selector_eq };

    ghost laws = { partial_equiv_from_equiv selector_eq_equiv };

    fn eq(&self, other: &Selector) -> bool {
        self.as_str() == other.as_str()
    }
}

impl Eq for Selector {
    ghost laws = { selector_eq_equiv };
}

impl PartialOrd for Selector {
    ghost partial_cmp = { λ a b. Some (selector_cmp a b) };

    ghost laws = { selector_po };

    fn partial_cmp(&self, other: &Selector) -> Option<Ordering> {
        Some(self.cmp(other))
    }
}

/// Selectors are ordered by the bytes of the type, then of the value: `a:x` comes before `a!:y`.
impl Ord for Selector {
    ghost cmp = { selector_cmp };

    ghost total = { selector_cmp_total };

    ghost matches_partial_cmp = { λ a b. refl };

    ghost matches_eq = { selector_ties };

    fn cmp(&self, other: &Selector) -> Ordering {
        let (own_type, own_value) = self.parts();
        let (other_type, other_value) = other.parts();
        own_type.cmp(other_type).then(own_value.cmp(other_value))
    }
}

impl fmt::Display for Selector {
    ghost output = { λ selector. Some (selector_text selector) };

    fn fmt<W: fmt::Write>(&self, f: &mut fmt::Formatter<W>) -> fmt::Result {
        f.write_str(self.as_str())
    }
}

/// Returns the first fault of a text, if it has one.
#[tactic(auto, unfolding(crate::specs::Selector::selector_refusal))]
fn selector_refusal(text: &str) -> Option<SelectorRefusal>
    ensures { result ≡ selector_refusal text.now }
{
    if text.len() > 512 {
        return Some(SelectorRefusal::TooLong);
    }
    let Some((before, behind)) = text.split_once(':') else {
        return Some(SelectorRefusal::NoColon);
    };
    if before.is_empty() {
        return Some(SelectorRefusal::EmptyType);
    }
    if behind.is_empty() {
        return Some(SelectorRefusal::EmptyValue);
    }
    None
}
