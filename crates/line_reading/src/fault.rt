//! What can be wrong with a line, and where.

ghost use Rattle.std.specs.Prelude.{◌≡◌};
ghost use Rattle.spiffe_name.specs.declared.refusals.Failure.TheVariants.{Refused};
ghost use Rattle.line_reading.specs.Codes.{code_text, field_text, key_name};

use entry_book::{BatchRefusal, Text};
use spiffe_name::{Failure, IdRefusal, SelectorRefusal};

/// A key of the format.
#[derive(Clone, Copy, Debug, PartialEq, Eq, Drop)]
pub enum Key {
    /// The list of a batch's operations.
    Ops,
    /// The smallest place (commit number) at which a batch may run.
    After,
    /// The token under which a batch's commit is stored.
    Token,
    /// How often a batch may be tried.
    Tries,
    /// The kind of an event.
    Event,
    /// The number of a call.
    Call,
    /// The batch of a call.
    Batch,
    /// The event number of a call's invoke.
    Invoked,
    /// The event number of a call's reply.
    Replied,
    /// The reply to a call.
    Reply,
    /// The name of an operation.
    Op,
    /// An entry's id.
    Id,
    /// The ID of the agent, the server or the workload under which an entry is registered.
    Parent,
    /// The ID that a workload gets.
    Identity,
    /// The selectors of an entry or an agent.
    Selectors,
    /// A text for the workload's own use.
    Hint,
    /// The trust domains whose bundles a workload gets.
    Domains,
    /// The expiry of an entry, in seconds since the epoch; 0 for none.
    Expiry,
    /// The lifetime of an X.509 SVID of the workload, in seconds; 0 for the server's default.
    X509SvidTtl,
    /// The lifetime of a JWT SVID of the workload, in seconds; 0 for the server's default.
    JwtSvidTtl,
    /// The expected revision of an entry.
    Revision,
    /// An agent's ID.
    Agent,
    /// A trust domain.
    Domain,
    /// The moment before which the entries to prune expire, in seconds since the epoch.
    Before,
    /// A bundle's text.
    Text,
    /// What happens to the entries that name a dropped bundle.
    Mode,
    /// The maximum number of entries of a page.
    Size,
    /// The place (commit number) of the book that a page reads.
    At,
    /// The id after which a page begins.
    From,
    /// How the selectors of an entry are compared with those of a filter.
    Match,
}

impl Key {
    /// Returns the key's text.
    pub fn name(self) -> &'static str
        ensures { result.now ≡ key_name self }
    {
        match self {
            Key::Ops => "ops",
            Key::After => "after",
            Key::Token => "token",
            Key::Tries => "tries",
            Key::Event => "event",
            Key::Call => "call",
            Key::Batch => "batch",
            Key::Invoked => "invoked",
            Key::Replied => "replied",
            Key::Reply => "reply",
            Key::Op => "op",
            Key::Id => "id",
            Key::Parent => "parent",
            Key::Identity => "identity",
            Key::Selectors => "selectors",
            Key::Hint => "hint",
            Key::Domains => "domains",
            Key::Expiry => "expiry",
            Key::X509SvidTtl => "x509_svid_ttl",
            Key::JwtSvidTtl => "jwt_svid_ttl",
            Key::Revision => "revision",
            Key::Agent => "agent",
            Key::Domain => "domain",
            Key::Before => "before",
            Key::Text => "text",
            Key::Mode => "mode",
            Key::Size => "size",
            Key::At => "at",
            Key::From => "from",
            Key::Match => "match",
        }
    }
}

/// The key that a refusal names.
#[derive(Drop)]
pub enum Field {
    /// A key of the format.
    Known(Key),
    /// A key that the object may not have.
    Unknown(Text),
}

impl Field {
    /// Returns the key's text.
    pub fn name(&self) -> &str
        ensures { result.now ≡ field_text self.now }
    {
        match self {
            Field::Known(key) => key.name(),
            Field::Unknown(text) => text.as_str(),
        }
    }
}

/// Why a line is not a valid request, event or record.
#[derive(Clone, Copy, Debug, PartialEq, Eq, Drop)]
pub enum Code {
    /// The line has over 1,048,576 bytes before its LF.
    LineTooLong,
    /// The line isn't JSON text in UTF-8, or its arrays and objects are nested more than 127 deep.
    NotJson,
    /// The line has no LF at its end.
    Truncated,
    /// The line is JSON, but not an object.
    NotObject,
    /// A key is missing or unknown, or its value has the wrong type or isn't allowed there.
    Field,
    /// A text isn't a UUID.
    NotUuid,
    /// A text isn't a SPIFFE ID, or isn't a trust domain.
    Id(IdRefusal),
    /// A text isn't a selector.
    Selector(SelectorRefusal),
    /// The operations and the token aren't a valid batch.
    Batch(BatchRefusal),
}

impl Code {
    /// Returns the code, as it is printed.
    pub fn text(self) -> &'static str
        ensures { result.now ≡ code_text self }
    {
        match self {
            Code::LineTooLong => "L1",
            Code::NotJson => "L2",
            Code::Truncated => "L3",
            Code::NotObject => "L4",
            Code::Field => "L5",
            Code::NotUuid => "U1",
            Code::Id(refusal) => refusal.code(),
            Code::Selector(refusal) => refusal.code(),
            Code::Batch(refusal) => refusal.code(),
        }
    }
}

/// The first fault found in a line.
#[derive(Drop)]
pub struct Fault {
    /// Why the line is not valid.
    pub code: Code,
    /// The key at which the fault is, if it is at a key.
    pub field: Option<Field>,
    /// The index, from 0, of the operation that has the fault, if it belongs to one.
    pub op: Option<usize>,
}

/// Converts a fault that was found by a check that takes no memory.
impl From<Fault> for Failure<Fault> {
    ghost from_gives = { λ fault failure. failure ≡ Refused fault };

    fn from(fault: Fault) -> Failure<Fault> {
        Failure::Refused(fault)
    }
}
