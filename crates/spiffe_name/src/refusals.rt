//! Why is a text not a valid name?

ghost use Rattle.std.specs.Prelude.{◌≡◌};
ghost use Rattle.spiffe_name.specs.Codes.{id_code, selector_code};
ghost use Rattle.spiffe_name.specs.declared.refusals.Failure.TheVariants.{NoMemory};

use std::alloc::AllocError;

/// Why a text is not a valid trust domain or SPIFFE ID: the reasons in the order in which they are checked.
#[derive(Clone, Copy, Debug, PartialEq, Eq, Drop)]
pub enum IdRefusal {
    /// The text has over 2,048 bytes.
    TooLong,
    /// The text doesn't begin with `spiffe://`.
    Scheme,
    /// The trust domain is empty.
    NoDomain,
    /// The trust domain has over 255 bytes.
    DomainTooLong,
    /// The trust domain has a character that isn't one of `a-z`, `0-9`, `.`, `-`, `_`.
    DomainChar,
    /// The first bad segment of the path is empty.
    EmptySegment,
    /// The first bad segment of the path is `.` or `..`.
    DotSegment,
    /// The first bad segment has a character that isn't one of `a-z`, `A-Z`, `0-9`, `.`, `-`, `_`.
    PathChar,
}

impl IdRefusal {
    /// The refusal's code, as it is printed.
    pub fn code(self) -> &'static str
        ensures { result.now ≡ id_code self }
    {
        match self {
            IdRefusal::TooLong => "I1",
            IdRefusal::Scheme => "I2",
            IdRefusal::NoDomain => "I3",
            IdRefusal::DomainTooLong => "I4",
            IdRefusal::DomainChar => "I5",
            IdRefusal::EmptySegment => "I6",
            IdRefusal::DotSegment => "I7",
            IdRefusal::PathChar => "I8",
        }
    }
}

/// Why a text is not a valid selector: the reasons in the order in which they are checked.
#[derive(Clone, Copy, Debug, PartialEq, Eq, Drop)]
pub enum SelectorRefusal {
    /// The text has over 512 bytes.
    TooLong,
    /// The text has no colon.
    NoColon,
    /// The text before the first colon is empty.
    EmptyType,
    /// The text after the first colon is empty.
    EmptyValue,
}

impl SelectorRefusal {
    /// The refusal's code, as it is printed.
    pub fn code(self) -> &'static str
        ensures { result.now ≡ selector_code self }
    {
        match self {
            SelectorRefusal::TooLong => "S1",
            SelectorRefusal::NoColon => "S2",
            SelectorRefusal::EmptyType => "S3",
            SelectorRefusal::EmptyValue => "S4",
        }
    }
}

/// The error of a call.
#[derive(Clone, Copy, Debug, PartialEq, Eq, Drop)]
pub enum Failure<R> {
    /// Out of memory. A retry may succeed.
    NoMemory,
    /// The call refuses its input for this reason.
    Refused(R),
}

impl<R> From<AllocError> for Failure<R> {
    ghost from_gives = { λ _ e. e ≡ NoMemory };

    fn from(_: AllocError) -> Failure<R> {
        Failure::NoMemory
    }
}
