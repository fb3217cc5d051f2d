//! What do the codes of lines mean?

use crate::code::ErrorCode;
use crate::row::Row;

pub(crate) const L1: Row = Row {
    code: ErrorCode::L1,
    meaning: "the line has over 1,048,576 bytes before its LF",
    cause: "too many operations with large bundles or hints; line ends are missing, so that many lines are one",
    cure: "fewer operations a line; write an LF after each line",
    retry: "no",
};

pub(crate) const L2: Row = Row {
    code: ErrorCode::L2,
    meaning: "the line is empty, or not JSON in UTF-8. Or its arrays and objects nest over 127 deep. Or a number, under any key, is not finite as an IEEE 754 double: `1e400`, an integer of 400 digits. Or a `\\u` escape is half a surrogate pair: `\"\\ud800\"`",
    cause: "an empty line; a comma too many; single quotes; a byte order mark; another encoding; JSON laid out over several lines",
    cure: "write each line with a JSON library, in compact form (`jq -c`); drop empty lines",
    retry: "no",
};

pub(crate) const L3: Row = Row {
    code: ErrorCode::L3,
    meaning: "the input ends after the line without an LF",
    cause: "a file's last line has no LF; the sender was cut off within a line",
    cure: "end the line with an LF. What was cut off was not run",
    retry: "no",
};

pub(crate) const L4: Row = Row {
    code: ErrorCode::L4,
    meaning: "the line is JSON, but not an object",
    cause: "a list of operations without `{\"ops\":..}` around it",
    cure: "put the object around it",
    retry: "no",
};

pub(crate) const L5: Row = Row {
    code: ErrorCode::L5,
    meaning: "the key `field` is missing, unknown, of the wrong type, or not one of its stated values. `ops` with an index: this operation is not an object",
    cause: "no `{\"ops\":[..]}` around an operation (`ops`); a mistyped key or operation name (`op`), or a key of another name, such as SPIRE's `spiffe_id` for `identity`; a number in quotes; a required key left out or null. A finite number below 0, with a fraction or an exponent, or over 18,446,744,073,709,551,615; `tries` not 1 to 16. A `create` without `id` in a line with a token, or in a record. A record without `replied`: a call that hasn't replied has null there",
    cure: "`regd explain L5 KEY` says what the key takes, and LINES.md has the keys of each operation",
    retry: "no",
};

pub(crate) const L6: Row = Row {
    code: ErrorCode::L6,
    meaning: "out of memory while the line was read, run or answered",
    cause: "the machine, or the limit on the process, has no memory left",
    cure: "give it memory, or send smaller lines. The book is unchanged. The line may have taken its call number and drawn its ids",
    retry: "yes",
};

pub(crate) const L7: Row = Row {
    code: ErrorCode::L7,
    meaning: "the worker's client handle has made its 2^48 calls; only in `serve`",
    cause: "the server has run for very long",
    cure: "restart the server",
    retry: "no",
};

pub(crate) const L8: Row = Row {
    code: ErrorCode::L8,
    meaning: "the registry did not admit the client handle, or its published state doesn't fit what the handle has seen; only in `serve`",
    cause: "never seen at run time",
    cure: "send the line again; nothing of it is in the book",
    retry: "yes",
};
