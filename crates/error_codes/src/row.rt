//! What does a code mean, and what is its cure?

ghost use Rattle.std.specs.Prelude.{◌≡◌};

use crate::code::ErrorCode;
use crate::rows::{batches, book, events, limits, lines, names};
use std::fmt;
use std::fmt::Display;

/// What `docs/CODES.md` says of a code, in the columns of its tables.
#[derive(Clone, Copy, Debug)]
pub struct Row {
    /// The code.
    pub code: ErrorCode,
    /// What the code means.
    pub meaning: &'static str,
    /// What the cause is in most cases.
    pub cause: &'static str,
    /// What to do about it.
    pub cure: &'static str,
    /// Whether the same line, sent again, can get another answer: `no`, `book` or `yes`, as the head of that page says.
    pub retry: &'static str,
}

impl Display for Row {
    ghost use Rattle.std.specs.Prelude.{Some};
    ghost use Rattle.error_codes.specs.Texts.{row_text};

    ghost output = { λ row. Some (row_text row) };

    fn fmt<W: fmt::Write>(&self, f: &mut fmt::Formatter<W>) -> fmt::Result {
        let Row {
            code: _,
            meaning,
            cause,
            cure,
            retry,
        } = *self;
        write!(
            f,
            "{meaning}\nLikely cause: {cause}\nCure: {cure}\nRetry: {retry}\n  (no: the line must change; book: once the book has changed; yes: as it is)\n"
        )
    }
}

/// Returns what the page says of a code.
pub fn row_of_code(code: ErrorCode) -> Row
    ensures { result.code ≡ code }
{
    match code {
        ErrorCode::I1 => names::I1,
        ErrorCode::I2 => names::I2,
        ErrorCode::I3 => names::I3,
        ErrorCode::I4 => names::I4,
        ErrorCode::I5 => names::I5,
        ErrorCode::I6 => names::I6,
        ErrorCode::I7 => names::I7,
        ErrorCode::I8 => names::I8,
        ErrorCode::S1 => names::S1,
        ErrorCode::S2 => names::S2,
        ErrorCode::S3 => names::S3,
        ErrorCode::S4 => names::S4,
        ErrorCode::U1 => names::U1,
        ErrorCode::B1 => batches::B1,
        ErrorCode::B2 => batches::B2,
        ErrorCode::B3 => batches::B3,
        ErrorCode::B4 => batches::B4,
        ErrorCode::B5 => batches::B5,
        ErrorCode::B6 => batches::B6,
        ErrorCode::B7 => batches::B7,
        ErrorCode::B8 => batches::B8,
        ErrorCode::B9 => batches::B9,
        ErrorCode::B10 => batches::B10,
        ErrorCode::B11 => batches::B11,
        ErrorCode::B12 => batches::B12,
        ErrorCode::B13 => batches::B13,
        ErrorCode::B14 => batches::B14,
        ErrorCode::O1 => book::O1,
        ErrorCode::O2 => book::O2,
        ErrorCode::O3 => book::O3,
        ErrorCode::O4 => book::O4,
        ErrorCode::O5 => book::O5,
        ErrorCode::O6 => book::O6,
        ErrorCode::O7 => book::O7,
        ErrorCode::O8 => book::O8,
        ErrorCode::O9 => book::O9,
        ErrorCode::W1 => limits::W1,
        ErrorCode::W2 => limits::W2,
        ErrorCode::W3 => limits::W3,
        ErrorCode::W4 => limits::W4,
        ErrorCode::W5 => limits::W5,
        ErrorCode::W6 => limits::W6,
        ErrorCode::E1 => events::E1,
        ErrorCode::E2 => events::E2,
        ErrorCode::E3 => events::E3,
        ErrorCode::E4 => events::E4,
        ErrorCode::E5 => events::E5,
        ErrorCode::L1 => lines::L1,
        ErrorCode::L2 => lines::L2,
        ErrorCode::L3 => lines::L3,
        ErrorCode::L4 => lines::L4,
        ErrorCode::L5 => lines::L5,
        ErrorCode::L6 => lines::L6,
        ErrorCode::L7 => lines::L7,
        ErrorCode::L8 => lines::L8,
    }
}
