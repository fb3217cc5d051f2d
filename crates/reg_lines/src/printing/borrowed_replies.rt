//! Which line prints the reply to a read-only batch, with borrowed rows?

ghost use Rattle.reg_lines.specs.Replies.{op_reply_json, reply_json};

use crate::printing::print_json::PrintJson;
use crate::printing::replies::{print_done, print_page, print_refused, print_under};
use batch_work::{BorrowedOpReply, BorrowedReply, BorrowedRows};
use line_devices::{Output, Sink};
use version_book::Borrowed;

/// Printed like the borrowed value.
impl<T: PrintJson> PrintJson for Borrowed<'_, T> {
    ghost text = { T.text };

    fn print_to<S: Sink>(&self, output: &mut Output<S>) {
        self.get().print_to(output);
    }
}

/// An object whose first key names the kind of the reply. A row that doesn't exist is `null`.
impl PrintJson for BorrowedOpReply<'_> {
    ghost text = { op_reply_json };

    fn print_to<S: Sink>(&self, output: &mut Output<S>) {
        match self.rows() {
            BorrowedRows::Entry(entry) => print_under("entry", entry, output),
            BorrowedRows::Entries(entries) => print_under("entries", entries, output),
            BorrowedRows::Page(entries, next) => print_page(entries.as_slice(), next, output),
            BorrowedRows::Agent(agent) => print_under("agent", agent, output),
            BorrowedRows::Bundle(bundle) => print_under("bundle", bundle, output),
            BorrowedRows::Bundles(bundles) => print_under("bundles", bundles, output),
        }
    }
}

/// The reply to a read-only batch with the number of its call, for a reply line.
#[derive(Drop)]
pub struct BorrowedCallReply<'a> {
    /// The number of the call.
    pub call: u64,
    /// The reply to the batch.
    pub reply: BorrowedReply<'a>,
}

impl PrintJson for BorrowedCallReply<'_> {
    ghost text = { λ r. reply_json r.call r.reply };

    fn print_to<S: Sink>(&self, output: &mut Output<S>) {
        let place = self.reply.place();
        match self.reply.outcome() {
            Ok(replies) => print_done(self.call, place, replies.as_slice(), "answered", output),
            Err(refusal) => print_refused(self.call, place, refusal, output),
        }
    }
}
