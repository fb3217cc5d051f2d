//! What is a set of selectors, and when is one a subset of another?

ghost use Rattle.std.specs.Prelude.{Bool, ◌≡◌};
ghost use Rattle.std.specs.Cmp.{partial_equiv_from_equiv};
ghost use Rattle.spiffe_name.specs.SelectorSet.{set_eq, set_eq_equiv};

use crate::selectors::Selector;
use std::alloc::AllocError;
use std::marker::Model;
use std::slice::Iter;

/// A finite set of selectors, as a list without duplicates in the order of the bytes of the type, then of the value.
/// Equal sets are equal lists. The model in contracts is this list.
#[derive(Debug, Drop)]
pub struct SelectorSet {
    selectors: Vec<Selector>,
}

impl Model for SelectorSet {
    ghost use Rattle.std.specs.Prelude.{List};
    ghost use Rattle.spiffe_name.specs.Selector.{SelectorPair};
    ghost use Rattle.spiffe_name.specs.SelectorSet.{IsSelectorSet};

    ghost Value = { List SelectorPair };

    ghost view = { λ set. set.selectors.items };

    ghost invariant = { λ set. IsSelectorSet set.selectors.items };
}

impl SelectorSet {
    ghost use Rattle.std.specs.Prelude.{Contains, IfOk, IsTrue, [], length, ◌↔◌, ◌≡◌};
    ghost use Rattle.std.specs.Slice.Iter.{iter_rest};
    ghost use Rattle.spiffe_name.specs.Selector.{SelectorPair};
    ghost use Rattle.spiffe_name.specs.SelectorSet.{IsSelectorSet, has, is_within, meets, set_of};

    /// Makes the set of these selectors: sorts them and drops duplicates. If out of memory, returns an error and drops them.
    pub fn of(selectors: Vec<Selector>) -> Result<SelectorSet, AllocError>
        ensures members { IfOk result (λ set. (s : SelectorPair) → Contains set s ↔ Contains selectors.items s) }
        ensures ordered { IfOk result IsSelectorSet }
        ensures computed { IfOk result (λ set. set ≡ set_of selectors.items) }
    {
        let mut selectors = selectors;
        selectors.sort()?;
        selectors.dedup();
        Ok(SelectorSet { selectors })
    }

    /// Returns the number of selectors.
    pub fn len(&self) -> usize
        ensures { result ≡ length self.now }
    {
        self.selectors.len()
    }

    /// Returns true if the set is empty.
    pub fn is_empty(&self) -> bool
        ensures { IsTrue result ↔ (self.now ≡ []) }
    {
        self.selectors.is_empty()
    }

    /// Returns the selectors in order.
    pub fn as_slice(&self) -> &[Selector]
        ensures items { result.now ≡ self.now }
        ensures set { IsSelectorSet self.now }
    {
        self.selectors.as_slice()
    }

    /// Iterates over the selectors in order.
    pub fn iter(&self) -> Iter<'_, Selector>
        ensures items { iter_rest result ≡ self.now }
        ensures set { IsSelectorSet self.now }
    {
        self.selectors.iter()
    }

    /// Returns true if this selector is in the set.
    pub fn contains(&self, selector: &Selector) -> bool
        ensures computed { result ≡ has self.now selector.now }
        ensures member { IsTrue result ↔ Contains self.now selector.now }
    {
        self.selectors.contains(selector)
    }

    /// Returns true if each selector of this set is in the other one, as for the empty set.
    pub fn within(&self, other: &SelectorSet) -> bool
        ensures computed { result ≡ is_within self.now other.now }
        ensures subset { IsTrue result ↔ ((s : SelectorPair) → Contains self.now s → Contains other.now s) }
    {
        self.selectors
            .iter()
            .all(|selector| other.contains(selector))
    }

    /// Returns true if the two sets have a selector in common.
    pub fn meets(&self, other: &SelectorSet) -> bool
        ensures computed { result ≡ meets self.now other.now }
        ensures common { IsTrue result ↔ ((s : SelectorPair) × Contains self.now s × Contains other.now s) }
    {
        self.selectors
            .iter()
            .any(|selector| other.contains(selector))
    }
}

impl Clone for SelectorSet {
    ghost is_clone = { λ original copy. copy ≡ original };

    fn clone(&self) -> Result<SelectorSet, AllocError> {
        Ok(SelectorSet {
            selectors: self.selectors.clone()?,
        })
    }
}

/// Two sets are equal if they have the same selectors.
impl PartialEq for SelectorSet {
    ghost eq = { set_eq };

    ghost laws = { partial_equiv_from_equiv set_eq_equiv };

    fn eq(&self, other: &SelectorSet) -> bool {
        self.selectors == other.selectors
    }
}

impl Eq for SelectorSet {
    ghost laws = { set_eq_equiv };
}
