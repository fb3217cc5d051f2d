//! What is wrong with the line of a record?

ghost use Rattle.std.specs.Prelude.{◌≡◌};
ghost use Rattle.call_audit.specs.Texts.{cause_text};

use line_reading::Code;

/// Why a line is not a valid record after those before it. The variants are checked in this order.
#[derive(Clone, Copy, Debug, PartialEq, Eq, Drop)]
pub enum Cause {
    /// The line isn't a record, for this reason.
    Spelling(Code),
    /// An earlier record has the call's number.
    Call,
    /// The call replied no later than it was invoked, or it hasn't replied and isn't committed.
    Stamps,
    /// The call replied before the call of an earlier record was invoked.
    Order,
    /// The reply isn't that of the plain book, or it contains a floating-point number.
    Reply,
}

impl Cause {
    /// Returns the word for the cause in a verdict; for a line that isn't a record, the code.
    pub fn text(self) -> &'static str
        ensures { result.now ≡ cause_text self }
    {
        match self {
            Cause::Spelling(code) => code.text(),
            Cause::Call => "call",
            Cause::Stamps => "stamps",
            Cause::Order => "order",
            Cause::Reply => "reply",
        }
    }
}
