//! Which published states are retained, so that readers seldom free one, and what does a commit drop without the lock?

ghost use Rattle.std.specs.Prelude.{◌≡◌, ◌-◌, ◌++◌, ◌∷◌, [], IfOk, IfSome, IsSome, Some, length, option_to_list, vec_capacity};
ghost use Rattle.shared_registry.specs.RetainedStates.{last_states};

use crate::published::{PublishedState, PublishedValue};
use commit_head::Item;
use entry_book::Shared;
use std::alloc::{AllocError, Global};
use std::collections::VecDeque;
use std::marker::Model;

/// The maximum number of published states that are retained.
const MOST: usize = 64;

/// The published states of the last commits. Dropping the last reference to one frees its window, and each version that no other
/// window has. While a state is retained here, no reader has to do that. The thread whose commit takes its place does it, without
/// the lock. The model in contracts is the list of the states, the oldest first.
#[derive(Drop)]
pub(crate) struct Recent {
    published_states: VecDeque<Shared<PublishedState>>,
}

impl Model for Recent {
    ghost use Rattle.std.specs.Prelude.{◌≤◌, List};
    ghost use Rattle.std.specs.VecDeque.{deque_capacity, deque_len};
    ghost use Rattle.shared_registry.specs.declared.published.PublishedState.{PublishedState};

    ghost Value = { List PublishedState };

    ghost view = { λ r. r.published_states.items };

    ghost invariant = { λ r. (deque_len r.published_states ≤ 64) × (64 ≤ deque_capacity r.published_states) };
}

/// What a commit has replaced or removed, to be dropped without the lock: the snapshot that the seat had before it, the oldest
/// of the retained published states, if the list was full, and one of the items that a checkpoint has removed. As a commit adds
/// one item, all are dropped when the next checkpoint comes, and no commit waits until thousands of them are dropped.
#[derive(Drop)]
pub(crate) struct Replaced {
    snapshot: PublishedValue,
    published_state: Option<Shared<PublishedState>>,
    item: Option<Item>,
}

impl Recent {
    /// Makes an empty list, with room for as many states as it retains. The only error is a failed allocation.
    pub(crate) fn none(alloc: Global) -> Result<Recent, AllocError>
        ensures { IfOk result (λ r. r ≡ []) }
    {
        Ok(Recent {
            published_states: VecDeque::with_capacity(alloc, MOST)?,
        })
    }

    /// After a commit, retains the published state, unless its reference count can't grow, takes one of the items that are to be
    /// dropped, and returns what is to be dropped; `before` is the snapshot that its seat had. Without a commit `before` is `None`,
    /// and nothing is done.
    pub(crate) fn replace(
        &mut self,
        published: &PublishedValue,
        before: Option<PublishedValue>,
        older: &mut Vec<Item>,
    ) -> Option<Replaced>
        ensures capacity { vec_capacity older.new ≡ vec_capacity older.old }
        ensures taken { IsSome before → length older.new.items ≡ length older.old.items - 1 }
        ensures handed_out { IsSome before → IsSome result }
        ensures none_dropped { IfSome result (λ r. (before ≡ Some r.snapshot) × (older.old.items ≡ older.new.items ++ option_to_list r.item)) }
    {
        match before {
            Some(snapshot) => {
                let published_state = match published.published_state() {
                    Ok(published_state) => self.keep(published_state),
                    Err(AllocError) => None,
                };
                let item = older.pop();
                Some(Replaced {
                    snapshot,
                    published_state,
                    item,
                })
            }
            None => None,
        }
    }

    /// Retains the published state. If the list is full, it takes the place of the oldest one, which is returned.
    fn keep(&mut self, published_state: Shared<PublishedState>) -> Option<Shared<PublishedState>>
        ensures kept { self.new ≡ last_states (self.old ++ published_state ∷ []) }
        ensures none_dropped { option_to_list result ++ self.new ≡ self.old ++ published_state ∷ [] }
    {
        let passed = if self.published_states.len() < MOST {
            None
        } else {
            self.published_states.pop_front()
        };
        self.published_states.push_back_reserved(published_state);
        passed
    }
}
