//! What do the codes of events mean?

use crate::code::ErrorCode;
use crate::row::Row;

pub(crate) const E1: Row = Row {
    code: ErrorCode::E1,
    meaning: "`invoke`: a call has the number already",
    cause: "a number used twice; a call that met a conflict is retried under its own number",
    cure: "take another number: a retry is another call",
    retry: "no",
};

pub(crate) const E2: Row = Row {
    code: ErrorCode::E2,
    meaning: "no call has the number",
    cause: "an event before its `invoke`; a mistyped number; the `invoke` was refused",
    cure: "invoke the call first",
    retry: "after its `invoke`",
};

pub(crate) const E3: Row = Row {
    code: ErrorCode::E3,
    meaning: "the event is out of turn",
    cause: "a `step` of a call that is ready or settled; a `commit` before the last read, or of a read-only batch; a `reply` before there is one, or a second one",
    cure: "look at the `state` in the last answer to this call",
    retry: "after another event of the call",
};

pub(crate) const E4: Row = Row {
    code: ErrorCode::E4,
    meaning: "`invoke`: there are 4,096 calls",
    cause: "a long schedule",
    cure: "begin another run: each call is stored to the end",
    retry: "no",
};

pub(crate) const E5: Row = Row {
    code: ErrorCode::E5,
    meaning: "out of memory",
    cause: "the machine, or the limit on the process, has no memory left",
    cure: "give it memory",
    retry: "yes",
};
