//! What do the codes of the commit number and of the limits mean?

use crate::code::ErrorCode;
use crate::row::Row;

pub(crate) const W1: Row = Row {
    code: ErrorCode::W1,
    meaning: "the commit number is less than the line's `after`; the server checked nothing else in the line",
    cause: "the number is from another server's answer, or from before a restart; the client is ahead of what is committed",
    cure: "wait until enough batches are committed, or send a smaller `after` or none",
    retry: "book",
};

pub(crate) const W2: Row = Row {
    code: ErrorCode::W2,
    meaning: "2^48 batches are committed already",
    cause: "the server has run for very long",
    cure: "this process commits nothing more; it still answers read-only batches. Start another one with lines that create the current rows, up to 64 operations each. Revisions and sequences begin at 0 there",
    retry: "no, not in this process",
};

pub(crate) const W3: Row = Row {
    code: ErrorCode::W3,
    meaning: "over 16,384 entries",
    cause: "entries that expired and were never pruned, or whose workloads are gone",
    cure: "`prune`, `delete`. A line that removes as many as it adds is accepted",
    retry: "book",
};

pub(crate) const W4: Row = Row {
    code: ErrorCode::W4,
    meaning: "over 4,096 agents",
    cause: "agents whose machines are gone were never dropped",
    cure: "`drop_agent`",
    retry: "book",
};

pub(crate) const W5: Row = Row {
    code: ErrorCode::W5,
    meaning: "over 1,024 bundles",
    cause: "bundles of former partners were never dropped",
    cure: "`drop_bundle`",
    retry: "book",
};

pub(crate) const W6: Row = Row {
    code: ErrorCode::W6,
    meaning: "over 65,536 tokens",
    cause: "as many lines with a token were committed: a client gives one to each change, as `examples/client.py` does",
    cure: "tokens are never removed, so this process accepts no new one. Send the line without a token, and make sure yourself that it isn't committed twice. Repeats of stored tokens are still answered",
    retry: "no with the token, not in this process",
};
