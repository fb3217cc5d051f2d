//! The rows of the tables in `docs/CODES.md`. `tests/documents/codes` compares them.

pub(crate) mod batches;
pub(crate) mod book;
pub(crate) mod events;
pub(crate) mod limits;
pub(crate) mod lines;
pub(crate) mod names;
