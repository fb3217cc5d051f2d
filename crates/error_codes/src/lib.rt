//! What do the codes mean that `regd` prints?
//!
//! - [`ErrorCode`]: the codes, by their names. [`Row`]: what `docs/CODES.md` says of a code; [`row_of_code`] is the table of which that page is
//!   made.
//! - [`Explanation`]: what is printed about a code, and about the key that an answer names as `field`; [`note_of`]: what a key
//!   takes.
//!
//! The definitions are in `specs/`: `Codes` has the name of each code, and `Texts` what is printed.
//!
//! - `code`; `row` and `rows`: the table, a file for each family of codes; `field`; `explanation`.
//!
//! `docs/GLOSSARY.md` explains the terms.
#![tactic(auto)]

mod code;
mod explanation;
mod field;
mod row;
mod rows;

pub use code::ErrorCode;
pub use explanation::Explanation;
pub use field::note_of;
pub use row::{Row, row_of_code};
