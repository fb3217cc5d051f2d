//! Which bytes print a value as a line?
//!
//! `line_devices` defines lines, and `line_reading` what they parse to. This crate prints values. It re-exports the three
//! readers of `line_reading`, [`read_request`], [`read_event`] and [`read_record`]: the calls that read and print lines.
//!
//! - [`PrintJson`] is a value with one compact JSON text, which it puts piece by piece on an [`Output`] without taking
//!   memory; [`print_text`], [`print_number`], [`print_list`] and [`print_line`] help.
//! - A [`LineRefusal`] is printed as a line. So are a reply with its call number, a [`CallReply`] or, with borrowed rows, a
//!   [`BorrowedCallReply`], and the answer to a call, an [`AnsweredCall`]. [`printed_law`] says which JSON values these lines
//!   are.
//! - A [`SeatRefused`] is printed as a line, too: a seat of a shared registry doesn't answer a request, because of a
//!   [`SeatRefusal`]; [`printed_seats_law`] says which values these lines are.
//! - The answer to an event, an [`EventRefused`] and a [`CallOrder`] are printed as the lines of a schedule;
//!   [`printed_events_law`] says which values they are.
//! - A [`CallRecord`] is printed as the line of a record, with the call's batch; [`printed_records_law`] says which values
//!   they are. [`CallRecord::know_types`] brings in the type invariants of its parts, from which it follows that the line
//!   parses back.
//! - [`spelled_law`] says that the printed text of each batch without a fault parses to it. [`read_back_law`] says the same
//!   of each record.
//! - [`one_line_law`] says that no printed line contains a line feed.
//!
//! The definitions are in `specs/`. `Json`, `Replies`, `Refusals`, `EventAnswers`, `SeatLines` and `RecordLines` define the text
//! of each printed value. `Values`, `EventValues`, `SeatValues` and `RecordValues` define the JSON values of these texts, and
//! have the theorems that a text is that of its value. `ReadBack`, `Spelled` and `OneLine` have the other theorems, and
//! `CallRecords` says what a record has of its call. `JsonPrivate` is for this crate's own contracts.
//!
//! - `printing`: which bytes print a value; `laws`: what is printed parses back, and each line is one line;
//!   `invariants`: the type invariants of a record's parts, for the prover.
//!
//! `docs/GLOSSARY.md` explains the terms.
#![tactic(auto)]

mod invariants;
mod laws;
mod printing;

pub use laws::{one_line_law, read_back_law, spelled_law};
pub use line_reading::{read_event, read_record, read_request};
pub use printing::{
    AnsweredCall, BorrowedCallReply, CallOrder, CallRecord, CallReply, EventRefused, PrintJson,
    SeatRefusal, SeatRefused, print_line, print_list, print_number, print_text, printed_events_law,
    printed_law, printed_records_law, printed_seats_law,
};
