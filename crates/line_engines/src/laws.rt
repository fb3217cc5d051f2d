//! Is the verdict on the records of a schedule yes, and are the commits of a journal replayed from its request log?

ghost use Rattle.std.specs.List.{AllByRecursion};
ghost use Rattle.line_engines.specs.Confirmed.{RecordsAreAudited};
ghost use Rattle.line_engines.specs.Replays.{ItemsAreReplayed, JournalsAreReplayed, JournalsMayBeReplayed, LogsHaveLines, PlainWritesReplays};
ghost use Rattle.reg_lines.specs.Spelled.{IsWrittenBatch};

use call_audit::laws::confirmed_law;
use commit_head::Item;
use commit_head::laws::journals;
use entry_book::laws::histories;
use entry_book::{Refusal, Reply, ReplyOutcome};
use line_devices::lines_law;
use reg_lines::{CallRecord, one_line_law, spelled_law};

/// The verdict on the records of a schedule is yes, if each is short enough to be read as a line. So anyone who trusts the plain
/// book alone can confirm a run that the machine recorded.
pub fn recorded_runs_are_confirmed()
    ensures { RecordsAreAudited }
{
    confirmed_law();
}

/// The batches of a lawful journal, printed as request lines, are replayed by `plain`: item n gets the reply that it was committed
/// at place n with the item's replies, and the lines after them are answered on the books of the journal. Each batch must
/// satisfy the invariants of its types, and its text must fit into a line. If memory runs out for a line, its reply says so, and
/// the items before it got their replies. This function does nothing at run time: its contract is the theorem.
pub fn journals_are_replayed()
    ensures lines { LogsHaveLines }
    ensures replays { JournalsAreReplayed }
    ensures possible { JournalsMayBeReplayed }
    ensures plain { PlainWritesReplays }
{
    spelled_law();
    one_line_law();
    lines_law();
    histories();
    journals();
}

/// Brings the type invariants of the item's batch into a proof, as those of a record of the batch. Which reply the record has
/// doesn't matter. This only reads the item, and takes no memory.
fn know_item(item: &Item)
    ensures { IsWrittenBatch item.now.batch }
{
    let reply = Reply {
        place: 0,
        outcome: ReplyOutcome::Refused(Refusal::NotYet),
    };
    let record = CallRecord {
        batch: &item.batch,
        call: 0,
        invoked: 0,
        replied: None,
        reply: &reply,
    };
    record.know_types();
}

/// The same for each item.
fn know_items(items: &[Item])
    ensures { AllByRecursion (λ item. IsWrittenBatch item.batch) items.now }
{
    for item in items {
        know_item(item);
    }
}

/// The replay of the items of a program: their batches satisfy the invariants of their types. This function does nothing at run
/// time: it only reads the items, and its contract is the theorem.
pub fn items_are_replayed(items: &[Item])
    ensures { ItemsAreReplayed items.now }
{
    know_items(items);
    journals_are_replayed();
}
