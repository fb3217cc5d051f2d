//! Test library: readers and writers over memory. Tests alone use this crate.
//!
//! Both have a [`Chunking`], which says how many bytes they move in a call, and a [`Faults`]: they fail, or are interrupted, at
//! the call of a given number.
//!
//! - `fake_reader`: a [`FakeReader`] is a reader. It shows which bytes it hasn't returned yet, and how often it was called.
//! - `fake_writer`: a [`FakeWriter`] is a writer. It shows the bytes that it got, and how often it was called and flushed.
//! - `chunking` and `faults`: what the two have in common.
//!
//! `docs/GLOSSARY.md` explains the terms.
#![tactic(auto)]

mod chunking;
mod fake_reader;
mod fake_writer;
mod faults;

pub use chunking::Chunking;
pub use fake_reader::FakeReader;
pub use fake_writer::FakeWriter;
pub use faults::Faults;
