//! Which line records a call?

ghost use Rattle.reg_lines.specs.RecordLines.{record_json};

use crate::invariants::Written;
use crate::printing::print_json::{PrintJson, print_number};
use crate::printing::replies::CallReply;
use call_answers::KnownCall;
use entry_book::{Batch, CallAnswer, Reply};
use line_devices::{Output, Sink};

/// A call with a reply, for the line of its record.
///
/// It is printed as an object. The keys are `batch`, `call` (its number), `invoked` and `replied` (the numbers of its
/// events), and `reply`, as on its reply line. Printing takes no memory.
#[derive(Clone, Copy, Drop)]
pub struct CallRecord<'a> {
    /// The batch of the call.
    pub batch: &'a Batch,
    /// The number of the call.
    pub call: u64,
    /// The number of its invoke among the accepted events, counted from 1.
    pub invoked: u64,
    /// The number of its reply; `None` if it hasn't replied.
    pub replied: Option<u64>,
    /// The reply, returned to the client or not.
    pub reply: &'a Reply,
}

impl<'a> CallRecord<'a> {
    ghost use Rattle.reg_lines.specs.CallRecords.{HasRecord};
    ghost use Rattle.reg_lines.specs.Spelled.{IsWrittenBatch, IsWrittenCall};

    /// Returns the record of the call of this number, if it has a reply. A conflict isn't a reply.
    pub fn of(call: u64, known: &KnownCall<'a>) -> Option<CallRecord<'a>>
        ensures { HasRecord call known.now result }
    {
        match known.answer {
            Some(CallAnswer::Replied(reply)) => Some(CallRecord {
                batch: known.batch,
                call,
                invoked: known.invoked,
                replied: known.replied,
                reply,
            }),
            Some(CallAnswer::Conflict(_)) => None,
            None => None,
        }
    }

    /// Brings the type invariants of the record's parts into a proof: the batch has no fault, and the parts are valid. They
    /// are the premises of [`crate::read_back_law`], which says that its line parses to it. This only reads the record, and
    /// takes no memory.
    pub fn know_types(&self)
        ensures batch { IsWrittenBatch self.now.batch.now }
        ensures call { IsWrittenCall self.now.call self.now.invoked self.now.replied self.now.reply.now }
    {
        let reply = CallReply {
            call: self.call,
            reply: self.reply,
        };
        self.batch.know();
        self.call.know();
        self.invoked.know();
        self.replied.know();
        reply.know();
    }
}

impl PrintJson for CallRecord<'_> {
    ghost text = { λ r. record_json r.batch.now r.call r.invoked r.replied r.reply.now };

    fn print_to<S: Sink>(&self, output: &mut Output<S>) {
        let call = self.call;
        let reply = self.reply;
        output.put(b"{\"batch\":");
        self.batch.print_to(output);
        output.put(b",\"call\":");
        print_number(call, output);
        output.put(b",\"invoked\":");
        print_number(self.invoked, output);
        output.put(b",\"replied\":");
        self.replied.print_to(output);
        output.put(b",\"reply\":");
        CallReply { call, reply }.print_to(output);
        output.put(b"}");
    }
}
