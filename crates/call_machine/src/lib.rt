//! What is the result of any list of events?
//!
//! Many callers submit batches over one book, and events advance their calls in any order: a call is invoked, begins, makes
//! its reads one by one, commits, and replies. The result of every list of events is strictly serializable: the committed
//! batches and answered calls have a serial order in which the plain book gives each the same reply. A call that ended
//! before another was invoked comes first in it. A batch commits only if everything that it read is unchanged. A batch that
//! is refused as a conflict changes nothing; it is refused so only if a later batch wrote what it had read.
//!
//! - [`Machine`]: the calls over one book. It applies an [`Event`] and returns [`Done`], or hands it back as a
//!   [`RefusedEvent`]. It returns the order, and a [`KnownCall`] with what is known of a call. `call_events` and `call_answers`
//!   define these four types; this crate re-exports them, since they occur in the signatures of a machine.
//! - [`laws`]: the main theorem, what a call holds, and how a run continues.
//!
//! The definitions are in `specs/`. `Schedules` has the guarantees about a schedule, in terms of what a client sees, and
//! `Laws` the order and the theorems. `Machine` defines the effect of an event and which events are refused. `Calls`
//! defines the state of a call, and `Known` what is reported about it. `Kept` is for this crate's own contracts.
//!
//! - `slot`: the stored state of a call.
//!
//! `docs/GLOSSARY.md` explains the terms.
#![tactic(auto)]

pub mod laws;
mod machine;
mod slot;

pub use call_answers::{Done, KnownCall};
pub use call_events::{Event, RefusedEvent};
pub use machine::Machine;
