//! What do the programs of `regd` reply, line by line, and how do they end?
//!
//! The crate has tests alone, over the public calls of `reg_programs`, `command_line`, `error_codes`, `line_engines` and `call_audit`:
//!
//! - `command_lines`: command lines and what `regd` writes about them, word for word. `explaining`: what is printed about a code.
//! - `engine`: runs of the engines over memory, as tables, in the notation of `lines`. These use it: `story`, `operations`,
//!   `refusals`, `ids`, `limits`, `pages`, `places`, `tokens`, `runs`, `replays` (request lines), `schedules` (event lines),
//!   `records`, `audits` and `spoiled` (recorded calls).
//! - `failing`: runs over a reader or a writer that fails.
//! - `sessions`: the lines of one connection over memory.
//! - `hosting`: a server over TCP and its clients, in one process, with a scripted listener and a runtime that counts (`staged`).
//!   These use it: `serving` (what clients get), `accepting` (errors of `accept`) and `logging` (standard error of a server without a
//!   last connection); `announcing` (the printed address, the plan) has its own.
//! - `queueing`: the state of a new queue. `seating`: how many workers get a seat.
//! - `wanted`: assertions.
//!
//! `docs/GLOSSARY.md` explains the terms.
#![tactic(auto)]

#[cfg(test)]
mod accepting;
#[cfg(test)]
mod announcing;
#[cfg(test)]
mod audits;
#[cfg(test)]
mod command_lines;
#[cfg(test)]
mod engine;
#[cfg(test)]
mod explaining;
#[cfg(test)]
mod failing;
#[cfg(test)]
mod hosting;
#[cfg(test)]
mod ids;
#[cfg(test)]
mod limits;
#[cfg(test)]
mod lines;
#[cfg(test)]
mod logging;
#[cfg(test)]
mod operations;
#[cfg(test)]
mod pages;
#[cfg(test)]
mod places;
#[cfg(test)]
mod queueing;
#[cfg(test)]
mod records;
#[cfg(test)]
mod refusals;
#[cfg(test)]
mod replays;
#[cfg(test)]
mod runs;
#[cfg(test)]
mod schedules;
#[cfg(test)]
mod seating;
#[cfg(test)]
mod serving;
#[cfg(test)]
mod sessions;
#[cfg(test)]
mod spoiled;
#[cfg(test)]
mod staged;
#[cfg(test)]
mod story;
#[cfg(test)]
mod tokens;
#[cfg(test)]
mod wanted;
