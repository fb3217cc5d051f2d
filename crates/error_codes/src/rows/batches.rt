//! What do the codes of batches mean?

use crate::code::ErrorCode;
use crate::row::Row;

pub(crate) const B1: Row = Row {
    code: ErrorCode::B1,
    meaning: "there is no operation",
    cause: "`\"ops\":[]` from a script that found nothing to do",
    cure: "send nothing",
    retry: "no",
};

pub(crate) const B2: Row = Row {
    code: ErrorCode::B2,
    meaning: "there are over 64 operations",
    cause: "a long list in one line",
    cure: "several lines; together they aren't all or nothing",
    retry: "no",
};

pub(crate) const B3: Row = Row {
    code: ErrorCode::B3,
    meaning: "a parent, an identity or an agent is of another trust domain",
    cause: "the server was started with another `--domain`; a partner's ID",
    cure: "the ID's domain must be the server's",
    retry: "no",
};

pub(crate) const B4: Row = Row {
    code: ErrorCode::B4,
    meaning: "a parent or an identity has an empty path",
    cause: "`spiffe://ex.org` alone",
    cure: "an ID with a path",
    retry: "no",
};

pub(crate) const B5: Row = Row {
    code: ErrorCode::B5,
    meaning: "the identity of a `create` or `update` is the server's ID",
    cause: "parent and identity of an alias were exchanged",
    cure: "the server's ID is the alias's parent",
    retry: "no",
};

pub(crate) const B6: Row = Row {
    code: ErrorCode::B6,
    meaning: "an entry or a filter has no selector or over 16, or an agent has over 64; repeats don't count",
    cause: "an empty list; one entry for too many cases",
    cure: "1 to 16; several entries",
    retry: "no",
};

pub(crate) const B7: Row = Row {
    code: ErrorCode::B7,
    meaning: "an entry names over 8 domains; repeats don't count",
    cause: "the domains of all partners in one entry",
    cure: "fewer domains; several entries",
    retry: "no",
};

pub(crate) const B8: Row = Row {
    code: ErrorCode::B8,
    meaning: "an entry's hint has over 1,024 bytes",
    cause: "a description, or a whole document, as the hint",
    cure: "a shorter hint",
    retry: "no",
};

pub(crate) const B9: Row = Row {
    code: ErrorCode::B9,
    meaning: "a page's size isn't 1 to 500",
    cause: "all entries in one page",
    cure: "several pages: the `next` of each is the `from` of the following one",
    retry: "no",
};

pub(crate) const B10: Row = Row {
    code: ErrorCode::B10,
    meaning: "an agent's path doesn't begin with `/spire/agent/`",
    cause: "an alias or a workload instead of an agent",
    cure: "the agent's own ID",
    retry: "no",
};

pub(crate) const B11: Row = Row {
    code: ErrorCode::B11,
    meaning: "`set_bundle` or `drop_bundle` names the server's own domain",
    cause: "the partner's domain and the server's own were exchanged",
    cure: "the partner's domain: the server's own has no bundle in the book",
    retry: "no",
};

pub(crate) const B12: Row = Row {
    code: ErrorCode::B12,
    meaning: "a bundle's text has over 65,536 bytes",
    cause: "the wrong file",
    cure: "check it; a larger bundle can't be stored",
    retry: "no",
};

pub(crate) const B13: Row = Row {
    code: ErrorCode::B13,
    meaning: "a page with `at` is not the only operation of its line; `op` is the first such page",
    cause: "several pages in one line; a page with `at` among changes",
    cure: "one line for each page with `at`. A page without `at` may be among other operations, and sees their changes",
    retry: "no",
};

pub(crate) const B14: Row = Row {
    code: ErrorCode::B14,
    meaning: "a read-only batch has a token",
    cause: "a client that puts a token into each line",
    cure: "leave the token out: a read changes nothing, and can be repeated as it is",
    retry: "no",
};
