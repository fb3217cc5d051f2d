//! Which codes does `regd` print?

ghost use Rattle.std.specs.Prelude.{◌≡◌, ◌≢◌, IfNone, IfSome};
ghost use Rattle.error_codes.specs.Codes.{code_name};
ghost use Rattle.error_codes.specs.declared.code.ErrorCode.{ErrorCode as AnyCode};

/// A code that `regd` prints in an answer.
#[derive(Clone, Copy, Debug, PartialEq, Eq, Drop)]
pub enum ErrorCode {
    /// I1.
    I1,
    /// I2.
    I2,
    /// I3.
    I3,
    /// I4.
    I4,
    /// I5.
    I5,
    /// I6.
    I6,
    /// I7.
    I7,
    /// I8.
    I8,
    /// S1.
    S1,
    /// S2.
    S2,
    /// S3.
    S3,
    /// S4.
    S4,
    /// U1.
    U1,
    /// B1.
    B1,
    /// B2.
    B2,
    /// B3.
    B3,
    /// B4.
    B4,
    /// B5.
    B5,
    /// B6.
    B6,
    /// B7.
    B7,
    /// B8.
    B8,
    /// B9.
    B9,
    /// B10.
    B10,
    /// B11.
    B11,
    /// B12.
    B12,
    /// B13.
    B13,
    /// B14.
    B14,
    /// O1.
    O1,
    /// O2.
    O2,
    /// O3.
    O3,
    /// O4.
    O4,
    /// O5.
    O5,
    /// O6.
    O6,
    /// O7.
    O7,
    /// O8.
    O8,
    /// O9.
    O9,
    /// W1.
    W1,
    /// W2.
    W2,
    /// W3.
    W3,
    /// W4.
    W4,
    /// W5.
    W5,
    /// W6.
    W6,
    /// E1.
    E1,
    /// E2.
    E2,
    /// E3.
    E3,
    /// E4.
    E4,
    /// E5.
    E5,
    /// L1.
    L1,
    /// L2.
    L2,
    /// L3.
    L3,
    /// L4.
    L4,
    /// L5.
    L5,
    /// L6.
    L6,
    /// L7.
    L7,
    /// L8.
    L8,
}

/// Each code once.
const CODES: [ErrorCode; 55] = [
    ErrorCode::I1,
    ErrorCode::I2,
    ErrorCode::I3,
    ErrorCode::I4,
    ErrorCode::I5,
    ErrorCode::I6,
    ErrorCode::I7,
    ErrorCode::I8,
    ErrorCode::S1,
    ErrorCode::S2,
    ErrorCode::S3,
    ErrorCode::S4,
    ErrorCode::U1,
    ErrorCode::B1,
    ErrorCode::B2,
    ErrorCode::B3,
    ErrorCode::B4,
    ErrorCode::B5,
    ErrorCode::B6,
    ErrorCode::B7,
    ErrorCode::B8,
    ErrorCode::B9,
    ErrorCode::B10,
    ErrorCode::B11,
    ErrorCode::B12,
    ErrorCode::B13,
    ErrorCode::B14,
    ErrorCode::O1,
    ErrorCode::O2,
    ErrorCode::O3,
    ErrorCode::O4,
    ErrorCode::O5,
    ErrorCode::O6,
    ErrorCode::O7,
    ErrorCode::O8,
    ErrorCode::O9,
    ErrorCode::W1,
    ErrorCode::W2,
    ErrorCode::W3,
    ErrorCode::W4,
    ErrorCode::W5,
    ErrorCode::W6,
    ErrorCode::E1,
    ErrorCode::E2,
    ErrorCode::E3,
    ErrorCode::E4,
    ErrorCode::E5,
    ErrorCode::L1,
    ErrorCode::L2,
    ErrorCode::L3,
    ErrorCode::L4,
    ErrorCode::L5,
    ErrorCode::L6,
    ErrorCode::L7,
    ErrorCode::L8,
];

impl ErrorCode {
    /// Returns the code with this name, if there is one.
    pub fn of_name(name: &str) -> Option<ErrorCode>
        ensures some { IfSome result (λ code. code_name code ≡ name.now) }
        ensures none { IfNone result ((code : AnyCode) → code_name code ≢ name.now) }
    {
        for code in CODES {
            if code.name() == name {
                return Some(code);
            }
        }
        None
    }

    /// Returns its name, as an answer has it.
    pub fn name(self) -> &'static str
        ensures { result.now ≡ code_name self }
    {
        match self {
            ErrorCode::I1 => "I1",
            ErrorCode::I2 => "I2",
            ErrorCode::I3 => "I3",
            ErrorCode::I4 => "I4",
            ErrorCode::I5 => "I5",
            ErrorCode::I6 => "I6",
            ErrorCode::I7 => "I7",
            ErrorCode::I8 => "I8",
            ErrorCode::S1 => "S1",
            ErrorCode::S2 => "S2",
            ErrorCode::S3 => "S3",
            ErrorCode::S4 => "S4",
            ErrorCode::U1 => "U1",
            ErrorCode::B1 => "B1",
            ErrorCode::B2 => "B2",
            ErrorCode::B3 => "B3",
            ErrorCode::B4 => "B4",
            ErrorCode::B5 => "B5",
            ErrorCode::B6 => "B6",
            ErrorCode::B7 => "B7",
            ErrorCode::B8 => "B8",
            ErrorCode::B9 => "B9",
            ErrorCode::B10 => "B10",
            ErrorCode::B11 => "B11",
            ErrorCode::B12 => "B12",
            ErrorCode::B13 => "B13",
            ErrorCode::B14 => "B14",
            ErrorCode::O1 => "O1",
            ErrorCode::O2 => "O2",
            ErrorCode::O3 => "O3",
            ErrorCode::O4 => "O4",
            ErrorCode::O5 => "O5",
            ErrorCode::O6 => "O6",
            ErrorCode::O7 => "O7",
            ErrorCode::O8 => "O8",
            ErrorCode::O9 => "O9",
            ErrorCode::W1 => "W1",
            ErrorCode::W2 => "W2",
            ErrorCode::W3 => "W3",
            ErrorCode::W4 => "W4",
            ErrorCode::W5 => "W5",
            ErrorCode::W6 => "W6",
            ErrorCode::E1 => "E1",
            ErrorCode::E2 => "E2",
            ErrorCode::E3 => "E3",
            ErrorCode::E4 => "E4",
            ErrorCode::E5 => "E5",
            ErrorCode::L1 => "L1",
            ErrorCode::L2 => "L2",
            ErrorCode::L3 => "L3",
            ErrorCode::L4 => "L4",
            ErrorCode::L5 => "L5",
            ErrorCode::L6 => "L6",
            ErrorCode::L7 => "L7",
            ErrorCode::L8 => "L8",
        }
    }
}
