//! What do the codes of the book mean?

use crate::code::ErrorCode;
use crate::row::Row;

pub(crate) const O1: Row = Row {
    code: ErrorCode::O1,
    meaning: "`create`: its id is taken",
    cause: "the line was sent twice; a restored book is used with a seed that drew its ids before",
    cure: "`show` the id: the entry is there. Without `id`, send the line again: it draws the next id",
    retry: "book; of a `create` without `id`: yes",
};

pub(crate) const O2: Row = Row {
    code: ErrorCode::O2,
    meaning: "`create`, `update`: another entry has the same parent, identity and selectors; `detail` is its id",
    cause: "the line was sent twice",
    cure: "update the entry of `detail`, or use it",
    retry: "book",
};

pub(crate) const O3: Row = Row {
    code: ErrorCode::O3,
    meaning: "`update`, `delete`: there is no entry of this id",
    cause: "it was deleted, pruned or removed with a bundle; the id is of another book",
    cure: "look for it with `children` of its parent",
    retry: "book",
};

pub(crate) const O4: Row = Row {
    code: ErrorCode::O4,
    meaning: "`update`, `delete`: the entry has another revision than `revision`",
    cause: "another client changed it, or its partner's bundle was dropped with `dissociate`",
    cure: "`show` it, apply the change to its new state, send that revision",
    retry: "book, but a revision never returns",
};

pub(crate) const O5: Row = Row {
    code: ErrorCode::O5,
    meaning: "`create`, `update`: a domain of the entry has no bundle. `drop_bundle`: there is none. `detail` is the domain",
    cause: "the bundle isn't set yet; the domain is mistyped, or is the server's own, which never has a bundle",
    cure: "`set_bundle` first, perhaps earlier in the same line",
    retry: "book",
};

pub(crate) const O6: Row = Row {
    code: ErrorCode::O6,
    meaning: "`drop_bundle` in mode `restrict`: an entry names the domain",
    cause: "it is in use",
    cure: "update those entries, or choose `dissociate` or `delete`",
    retry: "book",
};

pub(crate) const O7: Row = Row {
    code: ErrorCode::O7,
    meaning: "`authorised`, `trust`, `drop_agent`: there is no such agent",
    cause: "it wasn't set, or was dropped; a slip in its ID",
    cure: "`set_agent`",
    retry: "book",
};

pub(crate) const O8: Row = Row {
    code: ErrorCode::O8,
    meaning: "`page`: the book `at` is not one of the last 64",
    cause: "64 batches or more were committed between two pages; a commit number from another server, or from before a restart",
    cure: "list again from the first page, with its `place` as `at` of the others, in larger pages",
    retry: "no if that book is too old; book if it is still to come",
};

pub(crate) const O9: Row = Row {
    code: ErrorCode::O9,
    meaning: "another batch was committed under the line's token",
    cause: "one token for two different lines; a line that was changed before it was sent again",
    cure: "send the original line, if it is a repeat; otherwise give it a new token",
    retry: "no",
};
