//! Why is a list of operations not a batch?

ghost use Rattle.std.specs.Prelude.{◌≡◌};
ghost use Rattle.entry_book.specs.Codes.{batch_code, batch_op, fault_code};

/// Why an operation is invalid in any batch for a trust domain, whatever the book; the variants are in the order of codes.
#[derive(Clone, Copy, Debug, PartialEq, Eq, Drop)]
pub enum OpFault {
    /// A parent, an identity or an agent is of another trust domain.
    ForeignId,
    /// A parent or an identity has an empty path.
    EmptyPath,
    /// An entry's identity is the ID of the server.
    ServerIdentity,
    /// An entry or a filter doesn't have 1 to 16 selectors, or an agent has more than 64.
    Selectors,
    /// An entry names more than 8 trust domains.
    TooManyDomains,
    /// An entry's hint is longer than 1,024 bytes.
    HintTooLong,
    /// A page's size isn't 1 to 500.
    PageSize,
    /// An agent's path doesn't begin with `/spire/agent/`.
    AgentPath,
    /// The bundle of the server's own trust domain is set or dropped.
    OwnDomainBundle,
    /// A bundle's text is longer than 65,536 bytes.
    BundleTooLong,
}

impl OpFault {
    /// Returns the code that is printed for the fault.
    pub fn code(self) -> &'static str
        ensures { result.now ≡ fault_code self }
    {
        match self {
            OpFault::ForeignId => "B3",
            OpFault::EmptyPath => "B4",
            OpFault::ServerIdentity => "B5",
            OpFault::Selectors => "B6",
            OpFault::TooManyDomains => "B7",
            OpFault::HintTooLong => "B8",
            OpFault::PageSize => "B9",
            OpFault::AgentPath => "B10",
            OpFault::OwnDomainBundle => "B11",
            OpFault::BundleTooLong => "B12",
        }
    }
}

/// Why a list of operations, with or without a token, is not a batch.
#[derive(Clone, Copy, Debug, PartialEq, Eq, Drop)]
pub enum BatchRefusal {
    /// There are no operations.
    NoOps,
    /// There are more than 64 operations.
    TooManyOps,
    /// The operation at this index, from 0, is the first one with a fault.
    OfOp(usize, OpFault),
    /// The page at this index, from 0, is the first that gives the number of a book, and there are other operations.
    PastPageNotAlone(usize),
    /// The batch is read-only, and has a token.
    TokenOnQuery,
}

impl BatchRefusal {
    /// Returns the code that is printed for the refusal.
    pub fn code(self) -> &'static str
        ensures { result.now ≡ batch_code self }
    {
        match self {
            BatchRefusal::NoOps => "B1",
            BatchRefusal::TooManyOps => "B2",
            BatchRefusal::OfOp(_, fault) => fault.code(),
            BatchRefusal::PastPageNotAlone(_) => "B13",
            BatchRefusal::TokenOnQuery => "B14",
        }
    }

    /// Returns the index, from 0, of the operation at fault, if it is a single one.
    pub fn op(self) -> Option<usize>
        ensures { result ≡ batch_op self }
    {
        match self {
            BatchRefusal::NoOps | BatchRefusal::TooManyOps | BatchRefusal::TokenOnQuery => None,
            BatchRefusal::OfOp(index, _) | BatchRefusal::PastPageNotAlone(index) => Some(index),
        }
    }
}
