//! Do printed values parse to themselves, and is each printed line one line?

ghost use Rattle.reg_lines.specs.OneLine.{ConflictsHaveNoLf, EventRefusalsHaveNoLf, EventsHaveNoLf, NumbersHaveNoLf, OrdersHaveNoLf, RecordsHaveNoLf, RefusalsHaveNoLf, RepliesHaveNoLf, SeatRefusalsHaveNoLf, TextsHaveNoLf};
ghost use Rattle.reg_lines.specs.ReadBack.{BatchesReadBack, OpsReadBack, RecordsReadBack};
ghost use Rattle.reg_lines.specs.Spelled.{BatchesAreSpelled, OpsAreSpelled, RecordsAreSpelled};

/// The printed text of each batch without a fault parses to that batch, if it isn't too long for a line. The same holds of
/// each operation without a fault, as the only one of a batch. This function does nothing at run time: its contract is the
/// theorem.
pub fn spelled_law()
    ensures batches { BatchesAreSpelled }
    ensures ops { OpsAreSpelled }
{}

/// The JSON values of a printed operation, batch or record parse to that operation, batch or record. The printed text of a
/// record parses to it, if it isn't too long for a line. This function does nothing at run time: its contract is the
/// theorem.
pub fn read_back_law()
    ensures ops { OpsReadBack }
    ensures batches { BatchesReadBack }
    ensures records { RecordsReadBack }
    ensures record_texts { RecordsAreSpelled }
{}

/// No printed line contains a line feed: no reply, conflict or refusal of a line, no answer to an event, refusal of an
/// event or order, and no record. Nor does a JSON string or a number, of which other crates print lines. This function does
/// nothing at run time: its contract is the theorem.
pub fn one_line_law()
    ensures replies { RepliesHaveNoLf }
    ensures conflicts { ConflictsHaveNoLf }
    ensures refusals { RefusalsHaveNoLf }
    ensures seat_refusals { SeatRefusalsHaveNoLf }
    ensures events { EventsHaveNoLf }
    ensures event_refusals { EventRefusalsHaveNoLf }
    ensures orders { OrdersHaveNoLf }
    ensures records { RecordsHaveNoLf }
    ensures texts { TextsHaveNoLf }
    ensures numbers { NumbersHaveNoLf }
{}
