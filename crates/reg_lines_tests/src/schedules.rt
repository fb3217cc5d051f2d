//! What is printed for the lines of a schedule?

use crate::printed::add;
use crate::tables::{ReadAs, asserts_in_a_row, asserts_table, reply_of};
use batch_work::Status;
use call_answers::Done;
use call_events::Event;
use entry_book::{Batch, CallAnswer};
use plain_book::PlainBook;
use reg_lines::printed_events_law;
use std::alloc::Global;
use std::test::Fail;
use uuid::Uuid;
use version_book::Mark;

/// A mark of each kind.
const MARKS: &str = r#"
marks entry 1; group spiffe://ex.org/spire/agent/n1 spiffe://ex.org/web; children spiffe://ex.org/spire/agent/n1; users b.org; expiring 1700000000; bundle c.org; agent spiffe://ex.org/spire/agent/n1; all; token 9 => ["entry 00000000-0000-0000-0000-000000000001","group spiffe://ex.org/spire/agent/n1 spiffe://ex.org/web","children spiffe://ex.org/spire/agent/n1","users b.org","expiring 1700000000","bundle c.org","agent spiffe://ex.org/spire/agent/n1","all","token 00000000-0000-0000-0000-000000000009"]
"#;

#[test]
fn a_mark_is_printed_in_words(rt: HostRuntime) -> Result<(), Fail> {
    printed_events_law();
    asserts_table(&rt, rt.alloc(), ReadAs::Value, MARKS)
}

const BEGINS: &str = r#"
invoked 1 => {"call":1,"state":"new"}
begun 1 0 new => {"call":1,"place":0,"state":"new"}
begun 2 1 running => {"call":2,"place":1,"state":"running"}
begun 3 2 ready => {"call":3,"place":2,"state":"ready"}
begun 18446744073709551615 18446744073709551615 settled => {"call":18446744073709551615,"place":18446744073709551615,"state":"settled"}
"#;

#[test]
fn a_begin_reports_its_place(rt: HostRuntime) -> Result<(), Fail> {
    asserts_table(&rt, rt.alloc(), ReadAs::Value, BEGINS)
}

const STEPS: &str = r#"
stepped 4 running all => {"call":4,"read":"all","state":"running"}
stepped 4 ready group spiffe://ex.org/spire/agent/n1 spiffe://ex.org/web => {"call":4,"read":"group spiffe://ex.org/spire/agent/n1 spiffe://ex.org/web","state":"ready"}
stepped 5 settled expiring 0 => {"call":5,"read":"expiring 0","state":"settled"}
"#;

#[test]
fn a_step_reports_what_it_read(rt: HostRuntime) -> Result<(), Fail> {
    asserts_table(&rt, rt.alloc(), ReadAs::Value, STEPS)
}

const DECISIONS: &str = r#"
decided 6 7 committed => {"call":6,"commit":"committed","place":7}
decided 6 7 conflict => {"call":6,"commit":"conflict","place":7}
decided 6 7 history => {"call":6,"code":"W2","commit":"full","place":7}
decided 6 7 entries => {"call":6,"code":"W3","commit":"full","place":7}
decided 6 7 agents => {"call":6,"code":"W4","commit":"full","place":7}
decided 6 7 bundles => {"call":6,"code":"W5","commit":"full","place":7}
decided 6 7 tokens => {"call":6,"code":"W6","commit":"full","place":7}
"#;

#[test]
fn a_commit_reports_its_outcome(rt: HostRuntime) -> Result<(), Fail> {
    asserts_table(&rt, rt.alloc(), ReadAs::Value, DECISIONS)
}

const CONFLICTS: &str = r#"
conflicted 8 9 => {"call":8,"place":9,"result":"conflict"}
conflict 8 9 => {"call":8,"place":9,"result":"conflict"}
"#;

#[test]
fn a_conflict_is_a_reply_too(rt: HostRuntime) -> Result<(), Fail> {
    asserts_table(&rt, rt.alloc(), ReadAs::Value, CONFLICTS)
}

const REFUSED: &str = r#"
refused-event 5 taken => {"code":"E1","line":5}
refused-event 5 unknown => {"code":"E2","line":5}
refused-event 5 not-now => {"code":"E3","line":5}
refused-event 5 too-many => {"code":"E4","line":5}
refused-event 5 no-memory => {"code":"E5","line":5}
"#;

#[test]
fn a_refused_event_reports_its_line(rt: HostRuntime) -> Result<(), Fail> {
    asserts_table(&rt, rt.alloc(), ReadAs::Value, REFUSED)
}

const ORDERS: &str = r#"
order => {"order":[]}
order 30 4 18446744073709551615 => {"order":[30,4,18446744073709551615]}
"#;

#[test]
fn an_order_lists_its_calls(rt: HostRuntime) -> Result<(), Fail> {
    asserts_table(&rt, rt.alloc(), ReadAs::Value, ORDERS)
}

/// The book's reply to the batch that was invoked.
fn answer(
    alloc: Global,
    book: &mut PlainBook,
    handed_in: &Option<Batch>,
) -> Result<CallAnswer, Fail> {
    let Some(batch) = handed_in else {
        return Err(Fail::from("no batch"));
    };
    Ok(CallAnswer::Replied(reply_of(book, batch)?))
}

/// Appends the answer to an event in the small schedule, where a call makes one step.
pub(crate) fn add_scheduled(
    alloc: Global,
    text: &mut String,
    book: &mut PlainBook,
    handed_in: &mut Option<Batch>,
    event: Event,
) -> Result<(), Fail> {
    let done = match event {
        Event::Invoke(call, batch) => {
            *handed_in = Some(batch);
            Done::Invoked(call)
        }
        Event::Begin(call) => Done::Begun(call, 0, Status::Running),
        Event::Step(call) => Done::Stepped(call, Mark::entry(Uuid::from_u128(1)), Status::Settled),
        Event::Commit(_) => return Err(Fail::from("a question isn't committed")),
        Event::Reply(call) => Done::Answered(call, answer(alloc, book, handed_in)?),
    };
    add(alloc, text, "", &done)
}

/// A small schedule on an empty book, and its order.
const SCHEDULE: &str = r#"
{"event":"invoke","call":1,"batch":{"ops":[{"op":"show","id":"00000000-0000-0000-0000-000000000001"}]}} => {"call":1,"state":"new"}
{"event":"begin","call":1} => {"call":1,"place":0,"state":"running"}
{"event":"step","call":1} => {"call":1,"read":"entry 00000000-0000-0000-0000-000000000001","state":"settled"}
{"event":"reply","call":1} => {"call":1,"place":0,"replies":[{"entry":null}],"result":"answered"}
"#;

#[test]
fn a_small_schedule_is_read_and_printed(rt: HostRuntime) -> Result<(), Fail> {
    asserts_in_a_row(&rt, rt.alloc(), ReadAs::Scheduled, SCHEDULE)?;
    asserts_table(&rt, rt.alloc(), ReadAs::Value, "order 1 => {\"order\":[1]}")
}
