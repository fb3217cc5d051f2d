//! Which JSON values are the printed lines?

ghost use Rattle.reg_lines.specs.EventValues.{EventRefusalsAreCompact, EventRefusalsHaveNoFloat, EventsAreCompact, EventsHaveNoFloat, OrdersAreCompact, OrdersHaveNoFloat};
ghost use Rattle.reg_lines.specs.RecordValues.{BatchesAreCompact, BatchesHaveNoFloat, RecordsAreCompact, RecordsHaveNoFloat};
ghost use Rattle.reg_lines.specs.SeatValues.{SeatRefusalsAreCompact, SeatRefusalsHaveNoFloat};
ghost use Rattle.reg_lines.specs.Values.{ConflictsAreCompact, ConflictsHaveNoFloat, RefusalsAreCompact, RefusalsHaveNoFloat, RepliesAreCompact, RepliesHaveNoFloat};

/// Each printed line is the compact text of a JSON value, whose objects have their keys in ascending order of their bytes.
/// The value has no float, so the line is the text that `serde_json` writes of it. This function does nothing at run time:
/// its contract is the theorem.
pub fn printed_law()
    ensures replies { RepliesAreCompact }
    ensures conflicts { ConflictsAreCompact }
    ensures refusals { RefusalsAreCompact }
    ensures no_float_in_replies { RepliesHaveNoFloat }
    ensures no_float_in_conflicts { ConflictsHaveNoFloat }
    ensures no_float_in_refusals { RefusalsHaveNoFloat }
{}

/// The same for the lines of a schedule: the answers to events, the refusals of events, and the order. This function does
/// nothing at run time: its contract is the theorem.
pub fn printed_events_law()
    ensures events { EventsAreCompact }
    ensures refusals { EventRefusalsAreCompact }
    ensures orders { OrdersAreCompact }
    ensures no_float_in_events { EventsHaveNoFloat }
    ensures no_float_in_refusals { EventRefusalsHaveNoFloat }
    ensures no_float_in_orders { OrdersHaveNoFloat }
{}

/// The same for the lines of records, and the batches in them. This function does nothing at run time: its contract is the
/// theorem.
pub fn printed_records_law()
    ensures batches { BatchesAreCompact }
    ensures records { RecordsAreCompact }
    ensures no_float_in_batches { BatchesHaveNoFloat }
    ensures no_float_in_records { RecordsHaveNoFloat }
{}

/// The same for the lines that report that a seat doesn't answer. This function does nothing at run time: its contract is
/// the theorem.
pub fn printed_seats_law()
    ensures refusals { SeatRefusalsAreCompact }
    ensures no_float { SeatRefusalsHaveNoFloat }
{}
