//! Which invariant does every step over the published value preserve?

use crate::history::RegistryId;
use crate::published::PublishedValue;
use commit_head::Item;
use crossbeam_utils::rule::{Outcome, Protocol};
use std::collections::LinkedList;
use std::marker::PhantomData;

/// What a pass of a reader or of the writer has seen. No value of this type is made, and no invariant of a seat mentions
/// it: what a seat has seen is a `HistoryPrefix`, a token of the history.
pub type View = LinkedList<Item>;

/// The published value is of this history and trust domain, and its journal begins with what each pass has seen.
pub struct PublishedRule<J: RegistryId>(PhantomData<J>);

impl<J: RegistryId> Protocol<PublishedValue, View> for PublishedRule<J> {
    ghost use Rattle.std.specs.Prelude.{[]};
    ghost use Rattle.shared_registry.specs.ShownPrivate.{RuleInvariant};

    ghost holds = { λ x views. RuleInvariant J.history J.first J.domain x views };

    ghost first = { [] };
}

/// A step after which the pass has seen the published journal. A seat uses only that the published value is of this history
/// and trust domain.
pub struct Sees<J: RegistryId>(PhantomData<J>);

impl<J: RegistryId> Outcome<PublishedValue, View> for Sees<J> {
    ghost use Rattle.shared_registry.specs.ShownPrivate.{Saw};

    ghost then = { λ v x y w. Saw J.history J.first J.domain v y w };
}
