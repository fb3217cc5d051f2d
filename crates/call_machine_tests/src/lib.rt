//! What does each event return, and do all the answers together agree?
//!
//! The crate has tests alone, over the public calls of `call_machine` and the types of `call_events` and `call_answers`:
//!
//! - `worked`: small schedules as tables, which `playing` plays. `making` parses events, `telling` writes answers as text.
//! - `domain_machine`: a machine with its trust domain; `refused`: a refused event is returned to the caller and changes
//!   nothing.
//! - `wanted`: assertions.
//!
//! `docs/GLOSSARY.md` explains the terms.
#![tactic(auto)]

#[cfg(test)]
mod domain_machine;
#[cfg(test)]
mod making;
#[cfg(test)]
mod playing;
#[cfg(test)]
mod refused;
#[cfg(test)]
mod telling;
#[cfg(test)]
mod wanted;
#[cfg(test)]
mod worked;
