//! How are the lines of an input answered, from the bytes that are read to the bytes that are written?
//!
//! - [`LineHandler`]: a line handler, which answers the lines of an input; [`run_lines`]: a run of any of them over the bytes.
//! - [`plain`]: from the bytes of request lines to the bytes of reply lines, on a plain book; [`schedule`]: from event lines to
//!   their answers and the order of the calls; [`record_schedule`]: from event lines to the records of the calls alone;
//!   [`audit`]: from records of calls to the verdict on them.
//! - [`RunEnd`]: the result of a run that came to its end; [`RunFault`]: why a run failed.
//! - [`recorded_runs_are_confirmed`]: the verdict on the records of a schedule is yes. [`journals_are_replayed`] and
//!   [`items_are_replayed`]: `plain` answers the request log of a commit log with the replies of the commits.
//!
//! The definitions are in `specs/`: `Driver` defines a run of any line handler, and `Answers`, `Schedules`, `Recorded` and
//! `Audited` what each engine replies. `Confirmed` and `Replays` have the theorems. The files that end in `Private` are for this
//! crate's own contracts.
//!
//! - `driver`: runs of any line handler; `plain_engine`, `schedule_engine`, `record_engine`, `audit_engine`: the four engines,
//!   each a line handler; `run_end` and `fault`: the result of a run; `laws`: the theorems.
//!
//! `docs/GLOSSARY.md` explains the terms.
#![tactic(auto)]

mod audit_engine;
mod driver;
mod fault;
mod laws;
mod plain_engine;
mod record_engine;
mod run_end;
mod schedule_engine;

pub use audit_engine::audit;
pub use driver::{LineHandler, run_lines};
pub use fault::RunFault;
pub use laws::{items_are_replayed, journals_are_replayed, recorded_runs_are_confirmed};
pub use plain_engine::plain;
pub use record_engine::record_schedule;
pub use run_end::RunEnd;
pub use schedule_engine::schedule;
