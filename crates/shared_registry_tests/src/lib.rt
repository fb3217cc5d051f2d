//! What are the outcomes of batches that many threads run concurrently?
//!
//! The crate has tests alone, over the public calls of `shared_registry`:
//!
//! - `seats`: the replies to one seat, what new seats see, and a long journal, which is truncated by checkpoints.
//! - `overtaken`: batches that a gate (test hook), the `turnstile`, holds while others commit.
//! - `together`: eight threads that commit concurrently, and receipts that go round them.
//! - `history`: many random batches by eight threads: one list of committed batches explains all replies.
//!
//! `plays` runs each test on a registry of its own, at a `site`. Tests of one or two threads are `scripts`, and those of eight
//! are `talks`, whose calls and replies `calls` collects. `telling` writes outcomes and seats as text, `wanted` has assertions,
//! and `failed` says why a test can't continue.
//!
//! `docs/GLOSSARY.md` explains the terms.
#![tactic(auto)]

#[cfg(test)]
mod calls;
#[cfg(test)]
mod failed;
#[cfg(test)]
mod history;
#[cfg(test)]
mod overtaken;
#[cfg(test)]
mod plays;
#[cfg(test)]
mod scripts;
#[cfg(test)]
mod seats;
#[cfg(test)]
mod site;
#[cfg(test)]
mod talks;
#[cfg(test)]
mod telling;
#[cfg(test)]
mod together;
#[cfg(test)]
mod turnstile;
#[cfg(test)]
mod wanted;
