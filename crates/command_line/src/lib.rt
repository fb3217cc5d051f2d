//! What does a command line of `regd` request?
//!
//! - [`Settings`]: what a command line requests, with a [`ServerPlan`] for a server and a [`Topic`] for an explanation;
//!   [`Program`]: the requested program.
//! - [`LineFault`]: why a command line is invalid.
//! - [`version_text`] and [`help`]: what the programs `version` and `help` print.
//! - [`a_line_gives_its_domain`]: which words give which domain; [`a_line_without_a_book`]: which words request the programs that
//!   have none.
//!
//! The definitions are in `specs/`: `CommandLine` and `ParsedCommands` define what words request, and which faults they have;
//! `Conversions` which fault an error of a lower layer is. `Versions` has the text of the version, and `Laws` the theorems.
//! `CommandLinePrivate` is for this crate's own contracts.
//!
//! `docs/GLOSSARY.md` explains the terms.
#![tactic(auto)]

mod fault;
mod laws;
mod program;
mod seed;
mod settings;
mod version;

pub use fault::LineFault;
pub use laws::{a_line_gives_its_domain, a_line_without_a_book};
pub use program::Program;
pub use settings::{ServerPlan, Settings, Topic, help};
pub use version::version_text;
