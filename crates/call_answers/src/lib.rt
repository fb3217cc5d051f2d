//! The output of `call_machine`: the answer to an event, and what is known of a call. Types alone.
//!
//! `call_events` has the machine's input. The answers are apart from the machine, so that `reg_lines`, which prints them, is
//! proved before the machine is.
//!
//! - [`Done`]: the answer to an accepted event. [`Decision`]: the result of a commit. [`KnownCall`]: the state of a call. The answer
//!   to a call is a type of `entry_book`.
//!
//! `docs/GLOSSARY.md` explains the terms.
#![tactic(auto)]

mod answer;
mod call;

pub use answer::{Decision, Done};
pub use call::KnownCall;
