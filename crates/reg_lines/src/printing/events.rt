//! Which line answers an event, and which one reports the order?

ghost use Rattle.std.specs.Prelude.{◌≡◌};
ghost use Rattle.reg_lines.specs.EventAnswers.{begun_json, commit_json, decided_json, event_json, event_refusal_json, full_json, invoked_json, order_json, status_json, status_text, stepped_json};
ghost use Rattle.line_devices.specs.Stream.{Puts};

use crate::printing::print_json::{PrintJson, print_list, print_number};
use crate::printing::refusal::print_refused_line;
use crate::printing::replies::AnsweredCall;
use crate::printing::text::print_text;
use batch_work::Status;
use call_answers::{Decision, Done};
use call_events::EventRefusal;
use entry_book::Limit;
use line_devices::{Output, Sink};
use version_book::Mark;

/// Returns the word for the status.
fn status_text(status: Status) -> &'static str
    ensures { result.now ≡ status_text status }
{
    match status {
        Status::New => "new",
        Status::Running => "running",
        Status::Ready => "ready",
        Status::Settled => "settled",
    }
}

impl PrintJson for Status {
    ghost text = { status_json };

    fn print_to<S: Sink>(&self, output: &mut Output<S>) {
        print_text(status_text(*self), output);
    }
}

/// An object with the number of the event's call.
impl PrintJson for Done {
    ghost text = { event_json };

    fn print_to<S: Sink>(&self, output: &mut Output<S>) {
        match self {
            Done::Invoked(call) => print_invoked(*call, output),
            Done::Begun(call, place, status) => print_begun(*call, *place, *status, output),
            Done::Stepped(call, read, status) => print_stepped(*call, read, *status, output),
            Done::Decided(call, decision, place) => print_decided(*call, *decision, *place, output),
            Done::Answered(call, answer) => {
                let call = *call;
                AnsweredCall { call, answer }.print_to(output);
            }
        }
    }
}

/// Prints that a call waits for its begin.
fn print_invoked<S: Sink>(call: u64, output: &mut Output<S>)
    ensures { Puts output.old output.new (invoked_json call) }
{
    output.put(b"{\"call\":");
    print_number(call, output);
    output.put(b",\"state\":\"new\"}");
}

/// Prints at which place a call began, and its status.
fn print_begun<S: Sink>(call: u64, place: u64, status: Status, output: &mut Output<S>)
    ensures { Puts output.old output.new (begun_json call place status) }
{
    output.put(b"{\"call\":");
    print_number(call, output);
    output.put(b",\"place\":");
    print_number(place, output);
    output.put(b",\"state\":");
    status.print_to(output);
    output.put(b"}");
}

/// Prints what a call read, and its status.
fn print_stepped<S: Sink>(call: u64, read: &Mark, status: Status, output: &mut Output<S>)
    ensures { Puts output.old output.new (stepped_json call read.now status) }
{
    output.put(b"{\"call\":");
    print_number(call, output);
    output.put(b",\"read\":");
    read.print_to(output);
    output.put(b",\"state\":");
    status.print_to(output);
    output.put(b"}");
}

/// Prints the decision on a commit.
fn print_decided<S: Sink>(call: u64, decision: Decision, place: u64, output: &mut Output<S>)
    ensures { Puts output.old output.new (decided_json call decision place) }
{
    match decision {
        Decision::Committed => print_commit(call, "committed", place, output),
        Decision::Conflict => print_commit(call, "conflict", place, output),
        Decision::Full(limit) => print_full(call, limit, place, output),
    }
}

/// Prints the decision on a commit that met no limit.
fn print_commit<S: Sink>(call: u64, decision_word: &str, place: u64, output: &mut Output<S>)
    ensures { Puts output.old output.new (commit_json call decision_word.now place) }
{
    output.put(b"{\"call\":");
    print_number(call, output);
    output.put(b",\"commit\":");
    print_text(decision_word, output);
    output.put(b",\"place\":");
    print_number(place, output);
    output.put(b"}");
}

/// Prints that a limit refused a commit.
fn print_full<S: Sink>(call: u64, limit: Limit, place: u64, output: &mut Output<S>)
    ensures { Puts output.old output.new (full_json call limit place) }
{
    output.put(b"{\"call\":");
    print_number(call, output);
    output.put(b",\"code\":");
    print_text(limit.code(), output);
    output.put(b",\"commit\":\"full\",\"place\":");
    print_number(place, output);
    output.put(b"}");
}

/// Why an event was refused, with the number of its line.
///
/// It is printed as an object with the refusal's `code` and the `line`. Printing takes no memory.
#[derive(Clone, Copy, Debug, PartialEq, Eq, Drop)]
pub struct EventRefused {
    /// The line's number, counted from 1.
    pub line: u64,
    /// Why the event was refused.
    pub refusal: EventRefusal,
}

impl PrintJson for EventRefused {
    ghost text = { λ r. event_refusal_json r.line r.refusal };

    fn print_to<S: Sink>(&self, output: &mut Output<S>) {
        print_refused_line(self.line, self.refusal.code(), output);
    }
}

/// The numbers of the calls in their order, for the last line of a schedule.
#[derive(Clone, Copy, Drop)]
pub struct CallOrder<'a> {
    /// The numbers of the calls.
    pub calls: &'a [u64],
}

impl PrintJson for CallOrder<'_> {
    ghost text = { λ o. order_json o.calls.now };

    fn print_to<S: Sink>(&self, output: &mut Output<S>) {
        output.put(b"{\"order\":");
        print_list(self.calls, output);
        output.put(b"}");
    }
}
