//! What do the codes of names mean?

use crate::code::ErrorCode;
use crate::row::Row;

pub(crate) const I1: Row = Row {
    code: ErrorCode::I1,
    meaning: "an ID has over 2,048 bytes",
    cause: "a path that was joined from too many parts",
    cure: "a shorter path",
    retry: "no",
};

pub(crate) const I2: Row = Row {
    code: ErrorCode::I2,
    meaning: "an ID doesn't begin with `spiffe://`",
    cause: "the scheme was left out, or is in upper case; a path alone was given",
    cure: "write the whole ID",
    retry: "no",
};

pub(crate) const I3: Row = Row {
    code: ErrorCode::I3,
    meaning: "the trust domain is empty",
    cause: "a variable that was empty in a script; `spiffe:///path`",
    cure: "name the domain",
    retry: "no",
};

pub(crate) const I4: Row = Row {
    code: ErrorCode::I4,
    meaning: "the trust domain has over 255 bytes",
    cause: "a path without its first `/`",
    cure: "check the ID",
    retry: "no",
};

pub(crate) const I5: Row = Row {
    code: ErrorCode::I5,
    meaning: "the trust domain has a character other than `a` to `z`, `0` to `9`, `.`, `-`, `_`",
    cause: "an upper-case letter; a port; a whole ID at `domain` or `domains`",
    cure: "lower case; no port; the domain alone",
    retry: "no",
};

pub(crate) const I6: Row = Row {
    code: ErrorCode::I6,
    meaning: "a segment of the path is empty",
    cause: "`//`, or a `/` at the end",
    cure: "remove it",
    retry: "no",
};

pub(crate) const I7: Row = Row {
    code: ErrorCode::I7,
    meaning: "a segment is `.` or `..`",
    cause: "a relative path",
    cure: "write the path out",
    retry: "no",
};

pub(crate) const I8: Row = Row {
    code: ErrorCode::I8,
    meaning: "a segment has a character other than letters, digits, `.`, `-`, `_`",
    cause: "a space, a `:`, a `%`, a letter with an accent",
    cure: "another name",
    retry: "no",
};

pub(crate) const S1: Row = Row {
    code: ErrorCode::S1,
    meaning: "a selector has over 512 bytes",
    cause: "a long label or path as its value",
    cure: "a shorter one",
    retry: "no",
};

pub(crate) const S2: Row = Row {
    code: ErrorCode::S2,
    meaning: "a selector has no colon",
    cause: "the type was left out",
    cure: "write `type:value`",
    retry: "no",
};

pub(crate) const S3: Row = Row {
    code: ErrorCode::S3,
    meaning: "nothing precedes the first colon of a selector",
    cause: "an empty variable",
    cure: "name the type",
    retry: "no",
};

pub(crate) const S4: Row = Row {
    code: ErrorCode::S4,
    meaning: "nothing follows the first colon of a selector",
    cause: "an empty variable",
    cure: "name the value",
    retry: "no",
};

pub(crate) const U1: Row = Row {
    code: ErrorCode::U1,
    meaning: "a string is not a UUID",
    cause: "an entry's SPIFFE ID instead of its id; an id that SPIRE accepts and that is no UUID; a lost digit; at `token` a name of the client's own",
    cure: "the id that `create` answered; at `token` a new UUID for each line that isn't a repeat",
    retry: "no",
};
