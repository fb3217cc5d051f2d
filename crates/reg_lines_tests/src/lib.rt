//! What do lines represent, what is printed, and how do bytes come in and go out?
//!
//! The crate has tests alone, over the public calls of `line_devices`, `line_reading` and `reg_lines`: what their contracts leave
//! open, and each call once where it succeeds. The tests with slow or failing devices are in `reg_programs_tests`.
//!
//! - `tables`: runs tables. A line of a table is a text that `lines` expands; it is described by `spelled`, answered on a plain
//!   book, or printed by `printed`, if it names one of the `values`. All of the following but the last use it:
//! - `frames`, `requests`, `operations`, `pages`, `tokens` and `ids`: the requests of lines.
//! - `events`: the events of lines.
//! - `schedules`: the lines of a schedule: what is printed for each answer to an event.
//! - `seats`: what is printed if a seat has no answer.
//! - `records`: the record of a call, printed and parsed again, and lines that aren't records.
//! - `texts` and `replies`: what is printed.
//! - `bytes`: lines over memory, over devices that are interrupted, and over one that is full, with the engine of `engine`. Its
//!   definition is in `specs/Numbered.antt`.
//! - `wanted`: assertions.
//!
//! `docs/GLOSSARY.md` explains the terms.
#![tactic(auto)]

#[cfg(test)]
mod bytes;
#[cfg(test)]
mod engine;
#[cfg(test)]
mod events;
#[cfg(test)]
mod frames;
#[cfg(test)]
mod ids;
#[cfg(test)]
mod lines;
#[cfg(test)]
mod operations;
#[cfg(test)]
mod pages;
#[cfg(test)]
mod printed;
#[cfg(test)]
mod records;
#[cfg(test)]
mod replies;
#[cfg(test)]
mod requests;
#[cfg(test)]
mod schedules;
#[cfg(test)]
mod seats;
#[cfg(test)]
mod spelled;
#[cfg(test)]
mod tables;
#[cfg(test)]
mod texts;
#[cfg(test)]
mod tokens;
#[cfg(test)]
mod values;
#[cfg(test)]
mod wanted;
