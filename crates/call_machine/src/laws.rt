//! Which theorems hold of schedules?
//!
//! Each function does nothing at run time. Its contract is a theorem on the definitions, stated in `specs/Laws.antt`; a
//! caller may rely on the theorem after the call.

ghost use Rattle.call_machine.specs.Laws.{AcceptedUnrefused, CallsAreInOrder, CallsAreStamped, EventLeaves, FoundUnderNumber, HeadlineHolds, RefusedWhereDue, RepliesHeld, RunsExtend};

/// The main theorem, strict serializability. After every run of a machine, its order is serial, legal and strict, what each
/// committed batch had read was unchanged, and every conflict was due. Each call of the order holds the reply that the plain
/// book gives it at that point. A call has the accepted numbers of its invoke, its deciding event and its reply, exactly as
/// far as these events have happened.
pub fn headline()
    ensures headline { HeadlineHolds }
    ensures held { RepliesHeld }
    ensures stamped { CallsAreStamped }
{}

/// What a call that is found under a number holds: this number, and, after every run, the accepted numbers of its invoke, of
/// its deciding event and of its reply, each smaller than the next.
pub fn found_calls()
    ensures number { FoundUnderNumber }
    ensures in_order { CallsAreInOrder }
{}

/// How a run continues, event by event; and that an event is refused exactly if a refusal is due, apart from out of memory.
pub fn machine_runs()
    ensures extends { RunsExtend }
    ensures leaves { EventLeaves }
    ensures accepted { AcceptedUnrefused }
    ensures refused { RefusedWhereDue }
{}
