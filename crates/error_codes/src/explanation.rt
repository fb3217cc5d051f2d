//! What is printed about a code?

ghost use Rattle.std.specs.Prelude.{◌≡◌};
ghost use Rattle.error_codes.specs.Texts.{explanation_text};

use crate::code::ErrorCode;
use crate::field::note_of;
use crate::row::{Row, row_of_code};
use std::fmt;
use std::fmt::Display;

/// What is printed about a code, and about the key that an answer names as `field`.
#[derive(Debug, Drop)]
pub struct Explanation {
    /// The code, and what `docs/CODES.md` says of it.
    pub row: Row,
    /// The key, if one is asked for.
    pub field: Option<String>,
    /// What that key takes.
    pub note: &'static str,
}

impl Explanation {
    /// Explains a code, and the key if there is one.
    pub fn of(code: ErrorCode, field: Option<String>) -> Explanation
        ensures code { result.row.code ≡ code }
        ensures field { result.field ≡ field }
    {
        let note = match &field {
            Some(field) => note_of(field.as_str()),
            None => "",
        };
        Explanation {
            row: row_of_code(code),
            field,
            note,
        }
    }
}

impl Display for Explanation {
    ghost use Rattle.std.specs.Prelude.{Some};

    ghost output = { λ explanation. Some (explanation_text explanation) };

    fn fmt<W: fmt::Write>(&self, f: &mut fmt::Formatter<W>) -> fmt::Result {
        write!(f, "{}: {}", self.row.code.name(), self.row)?;
        match &self.field {
            Some(field) => write!(f, "\nThe key `{field}`: {}\n", self.note),
            None => Ok(()),
        }
    }
}
