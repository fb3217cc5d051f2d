//! The input of `call_machine`: the events of a call, and why an event is refused. Types and codes alone.
//!
//! `call_answers` has the machine's output. The two are apart from each other and from the machine, so that `line_reading`, which
//! parses events, is proved before `batch_work` and the machine are.
//!
//! - [`Event`]: an event of the call with a number. Its batch is submitted; then it begins, makes its reads one by one, commits,
//!   and replies.
//! - [`RefusedEvent`]: an event that was refused, with its [`EventRefusal`].
//!
//! `specs/Events` defines the codes of refusals, and which events may be submitted for a trust domain.
//!
//! `docs/GLOSSARY.md` explains the terms.
#![tactic(auto)]

mod event;

pub use event::{Event, EventRefusal, RefusedEvent};
