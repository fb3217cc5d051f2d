//! How large may a book, and its history, become?

ghost use Rattle.std.specs.Prelude.{◌≡◌};
ghost use Rattle.entry_book.specs.Codes.{limit_code};
ghost use Rattle.entry_book.specs.Limits.{limit_over};

/// Why a batch of changes doesn't fit: there are too many commits already, or the new book would be too large. The
/// variants are in the order in which they are checked.
#[derive(Clone, Copy, Debug, PartialEq, Eq, Drop)]
pub enum Limit {
    /// 2^48 batches are committed already.
    History,
    /// The new book would have over 16,384 entries.
    Entries,
    /// The new book would have over 4,096 agents.
    Agents,
    /// The new book would have over 1,024 bundles.
    Bundles,
    /// The new book would store over 65,536 tokens.
    Tokens,
}

impl Limit {
    /// Returns the code that is printed for the limit.
    pub fn code(self) -> &'static str
        ensures { result.now ≡ limit_code self }
    {
        match self {
            Limit::History => "W2",
            Limit::Entries => "W3",
            Limit::Agents => "W4",
            Limit::Bundles => "W5",
            Limit::Tokens => "W6",
        }
    }
}

/// Returns the first limit that is passed by a book with these numbers of rows that follows the one at this place. The
/// place is the number of batches committed so far.
pub fn limit_passed(
    place: u64,
    entries: usize,
    agents: usize,
    bundles: usize,
    tokens: usize,
) -> Option<Limit>
    ensures { result ≡ limit_over place entries agents bundles tokens }
{
    if place >= 1 << 48 {
        return Some(Limit::History);
    }
    if entries > 16_384 {
        return Some(Limit::Entries);
    }
    if agents > 4_096 {
        return Some(Limit::Agents);
    }
    if bundles > 1_024 {
        return Some(Limit::Bundles);
    }
    if tokens > 65_536 {
        return Some(Limit::Tokens);
    }
    None
}
