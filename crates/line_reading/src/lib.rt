//! Which request, which event of a schedule, or which record of a call does a line parse to?
//!
//! - [`read_request`] parses a line to a [`Request`]. The error is a [`LineRefusal`] with the line's number and the first
//!   [`Fault`] found, or out of memory. One definition, `spelled`, says both. A request has its [`Tries`], 1 to 16;
//!   [`unknown_keys_law`] says which unknown key a fault names.
//! - [`read_event`] does the same for the line of an event of the machine of calls; `spelled_event` is its definition.
//! - [`read_record`] parses a line to a [`Record`] of a call, for an audit; `spelled_record` is its definition.
//! - [`Ids`] gives ids to entries without one; [`ids_law`] says which words of its stream they are made of.
//! - [`kept_law`] says that the bytes kept of a line parse to what the whole line parses to; [`parsed_law`] which value a line
//!   has, and for which trust domain its event is.
//!
//! The definitions are in `specs/`. `Requests`, `Events` and `Records` define what a line parses to. `Batches` and `Operations`
//! define what an object with a batch parses to, and `Fields` the values at the keys. `Codes` has the codes and keys, `Ids` the
//! ids. `RecordViews` says which audit record a [`Record`] represents, and `Kept` has the theorem on the bytes that are kept of a
//! line, and `Laws` the other theorems. `FieldsPrivate` is for this crate's own contracts.
//!
//! - `fault`: what can be wrong with a line; `refusal`: the same with the line's number.
//! - `line`: the object that a line has. `request`, `event` and `record` read it; `tries`: how often a batch may be tried.
//! - `batch`, `ops`: an object that holds a batch, and its operations; `ids`: the ids for entries without one.
//! - `fields`: the values at an object's keys; `kept_lines`: the bytes kept of a line.
//!
//! `docs/GLOSSARY.md` explains the terms.
#![tactic(auto)]

mod batch;
mod event;
mod fault;
mod fields;
mod ids;
mod kept_lines;
mod laws;
mod line;
mod ops;
mod record;
mod refusal;
mod request;
mod tries;

pub use event::read_event;
pub use fault::{Code, Fault, Field, Key};
pub use fields::unknown_keys_law;
pub use ids::{Ids, ids_law};
pub use kept_lines::kept_law;
pub use laws::parsed_law;
pub use record::{Record, read_record};
pub use refusal::LineRefusal;
pub use request::{Request, read_request};
pub use tries::Tries;
