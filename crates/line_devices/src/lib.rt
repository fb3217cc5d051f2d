//! Which lines do bytes consist of, and which bytes are still buffered for output?
//!
//! Bytes come from a [`Source`] and go to a [`Sink`]. The ghost members of these two traits say which
//! bytes are left or written, if that is known, and how many calls have failed. [`CountedDevice`] makes
//! either of a reader or a writer of std.
//!
//! - [`Input`] reads a source line by line into a [`Line`], whose memory is allocated once. It reports
//!   whether the next line is buffered already; [`flush_before_waiting`] asks for this.
//! - [`Output`] buffers bytes for a sink. `put` returns nothing: after a failed call no more is written,
//!   and one relation, `Puts`, says what the sink has and what is buffered. So printing is straight-line
//!   code.
//! - [`lines_law`] is the theorem about the lines of bytes; [`KEPT_BYTES`] and [`most_lines`] are the limits.
//!
//! The definitions are in `specs/`: `Lines` defines lines, `Stream` what a sink has and what is buffered, and `Runs` lines that
//! are answered one after another. `CountedDevice` defines what the device of that name counts. `StreamPrivate` is for this
//! crate's own contracts.
//!
//! - `source`, `sink`: what a device must implement; `counted`: how a reader or a writer of std does so.
//! - `input`, `read_buffer`, `line`: bytes come in line by line; `lines`: what lines are; `limits`: how much of them is
//!   kept.
//! - `output`: bytes go out; `waiting`: when they must be out.
//!
//! `docs/GLOSSARY.md` explains the terms.
#![tactic(auto)]

mod counted;
mod input;
mod limits;
mod line;
mod lines;
mod output;
mod read_buffer;
mod sink;
mod source;
mod waiting;

pub use counted::CountedDevice;
pub use input::Input;
pub use limits::{KEPT_BYTES, most_lines};
pub use line::Line;
pub use lines::lines_law;
pub use output::Output;
pub use sink::{Sink, SinkFailed};
pub use source::{Source, SourceFailed};
pub use waiting::flush_before_waiting;
