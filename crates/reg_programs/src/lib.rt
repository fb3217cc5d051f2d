//! What do the programs of `regd` do, from their command line and the bytes they read to the bytes they write?
//!
//! `command_line` defines what a command line requests, and `line_engines` how the lines of an input are answered. This crate
//! re-exports the [`Settings`] of a command line, and the engines [`plain`], [`schedule`], [`record_schedule`] and [`audit`].
//!
//! - [`run_settings`]: the program that the [`Settings`] request, over an input and an output; [`told`]: the end of one without a
//!   book.
//! - [`session`]: the lines of one connection, answered through a seat of a shared registry; [`sessions_law`]: what the
//!   seat has seen only grows; [`session_alone_law`]: if nobody else uses the registry, which begins with the empty book, it writes
//!   what `plain` writes.
//! - [`serve`]: the program `regd serve`, with a session for each connection; [`Server`]: its parameters. [`serve_connections`]:
//!   the same at an existing listener, with what the workers share ([`ServerContext`]), their seats ([`seats_of`]) and a
//!   [`Queue`] of connections for each ([`queues_of`]); a [`QueueState`] says which worker sleeps. Its contract states that what
//!   all seats have seen, and so all connections, is one list.
//! - [`ServerCounts`]: what a server has done so far, as [`Counts`]; [`write_lines`] writes it to standard error when it is [`Due`].
//! - [`ServeFault`]: why a server ended before its last connection did.
//! - [`Ended`]: how a run ended; [`status`]: its exit status; [`ExitMessage`]: the text that a [`Stream`] gets.
//!
//! The definitions are in `specs/`: `Programs` says what a program does, `Told` what one without a book prints, `Sessions` what a
//! session replies, `Alone` what it replies if nobody else uses the registry, and `Ends` which exit status and which text an end has.
//! `SessionsPrivate` is for this crate's own contracts.
//!
//! - `programs`: the choice of the engine; `texts`: the programs without a book; `session_engine`: a session; `server`: the workers;
//!   `acceptor`, `accept_fault` and `queue`: how connections are accepted and get to a worker; `server_counts` and `server_log`: what
//!   a server writes to standard error; `ended`, `exit_message`, `serve_fault`: how a run ended.
//!
//! `docs/GLOSSARY.md` explains the terms.
#![tactic(auto)]

mod accept_fault;
mod acceptor;
mod ended;
mod exit_message;
mod programs;
mod queue;
mod serve_fault;
mod server;
mod server_counts;
mod server_log;
mod session_engine;
mod texts;

pub use command_line::Settings;
pub use ended::{Ended, status};
pub use exit_message::{ExitMessage, Stream};
pub use line_engines::{audit, plain, record_schedule, schedule};
pub use programs::run_settings;
pub use queue::{Queue, QueueState, queues_of};
pub use serve_fault::ServeFault;
pub use server::{Server, ServerContext, seats_of, serve, serve_connections};
pub use server_counts::{Counts, Due, ServerCounts};
pub use server_log::write_lines;
pub use session_engine::{session, session_alone_law, sessions_law};
pub use texts::told;
