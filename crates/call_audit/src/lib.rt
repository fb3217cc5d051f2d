//! Are these records those of a run that kept its guarantees?
//!
//! The records of a schedule give for each call its batch, the numbers of its invoke and its reply, and its reply, in the claimed
//! order of the calls. An auditor relies on the plain book alone: it runs the batches in that order on one, and finds the first
//! line with a fault.
//!
//! - [`Auditor`]: checks line after line, and stores what it needs of the records so far: the book, the numbers of the calls, and
//!   the largest number of an invoke.
//! - [`Cause`]: what is wrong with a line, the first cause that applies.
//! - [`AuditVerdict`]: the result of an audit, which is printed as a line: yes with the number of calls, or no with the first
//!   line that has a fault, and its cause.
//! - [`laws`]: theorems that don't mention an auditor. Records without a fault are a history; a no gives the first line with a
//!   fault after a history. The verdict of a history is never no, and that of calls whose replies the plain book confirms is yes.
//!   A verdict is one line.
//!
//! The definitions are in `specs/`: `Audits` says which record is valid after others, and which cause a line has; `Follows` what
//! records without a fault guarantee; `Verdicts` and `Confirmed` have the verdict on lines and the theorems on it; `Represents`
//! what an auditor stores; `Texts` the printed line. `AuditsPrivate` is for this crate's own contracts.
//!
//! - `auditor`, `cause`, `verdict`: the three types; `reply`: whether a record's reply is the one that the book gives.
//!
//! `docs/GLOSSARY.md` explains the terms.
#![tactic(auto)]

mod auditor;
mod cause;
pub mod laws;
mod reply;
mod verdict;

pub use auditor::Auditor;
pub use cause::Cause;
pub use verdict::AuditVerdict;
