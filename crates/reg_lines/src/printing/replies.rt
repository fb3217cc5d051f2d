//! Which line prints the reply to a batch?

ghost use Rattle.std.specs.Prelude.{◌++◌, codes};
ghost use Rattle.reg_lines.specs.Replies.{answer_json, conflict_json, detail_member, done_of, dropped_json, op_detail_member, op_reply_json, page_of, refused_json, reply_json, under};
ghost use Rattle.line_devices.specs.Stream.{Puts};

use crate::printing::print_json::{PrintJson, print_list, print_number};
use crate::printing::refusal::put_op;
use crate::printing::text::print_text;
use entry_book::{CallAnswer, OpRefusal, OpReply, Refusal, Reply, ReplyOutcome};
use line_devices::{Output, Sink};
use uuid::Uuid;

/// An object whose first key names the kind of the reply. A row that doesn't exist is `null`.
impl PrintJson for OpReply {
    ghost text = { op_reply_json };

    fn print_to<S: Sink>(&self, output: &mut Output<S>) {
        match self {
            OpReply::Entry(entry) => print_under("entry", entry, output),
            OpReply::EntryShown(entry) => print_under("entry", entry, output),
            OpReply::Entries(entries) => print_under("entries", entries, output),
            OpReply::Page(entries, next) => print_page(entries.as_slice(), next, output),
            OpReply::Agent(agent) => print_under("agent", agent, output),
            OpReply::AgentShown(agent) => print_under("agent", agent, output),
            OpReply::Bundle(bundle) => print_under("bundle", bundle, output),
            OpReply::BundleShown(bundle) => print_under("bundle", bundle, output),
            OpReply::Bundles(bundles) => print_under("bundles", bundles, output),
            OpReply::Pruned(ids) => print_under("pruned", ids, output),
            OpReply::Dropped(deleted, dissociated) => {
                print_dropped(deleted.as_slice(), dissociated.as_slice(), output);
            }
        }
    }
}

/// Prints an object with one key.
pub(crate) fn print_under<T: PrintJson, S: Sink>(key: &str, value: &T, output: &mut Output<S>)
    ensures { Puts output.old output.new (under key.now (T.text value.now)) }
{
    output.put(b"{");
    print_text(key, output);
    output.put(b":");
    value.print_to(output);
    output.put(b"}");
}

/// Prints the entries of a page, and the id after which the next page begins.
pub(crate) fn print_page<T: PrintJson, S: Sink>(
    entries: &[T],
    next: &Option<Uuid>,
    output: &mut Output<S>,
)
    ensures { Puts output.old output.new (page_of T.text entries.now next.now) }
{
    output.put(b"{\"entries\":");
    print_list(entries, output);
    output.put(b",\"next\":");
    next.print_to(output);
    output.put(b"}");
}

/// Prints the ids of the entries that were deleted with a bundle, and of those that were dissociated.
fn print_dropped<S: Sink>(deleted: &[Uuid], dissociated: &[Uuid], output: &mut Output<S>)
    ensures { Puts output.old output.new (dropped_json deleted.now dissociated.now) }
{
    output.put(b"{\"deleted\":");
    print_list(deleted, output);
    output.put(b",\"dissociated\":");
    print_list(dissociated, output);
    output.put(b"}");
}

/// The reply to a batch with the number of its call, for a reply line.
#[derive(Clone, Copy, Drop)]
pub struct CallReply<'a> {
    /// The number of the call that ran the batch.
    pub call: u64,
    /// The reply to the batch.
    pub reply: &'a Reply,
}

impl PrintJson for CallReply<'_> {
    ghost text = { λ r. reply_json r.call r.reply.now };

    fn print_to<S: Sink>(&self, output: &mut Output<S>) {
        let place = self.reply.place;
        match &self.reply.outcome {
            ReplyOutcome::Committed(replies) => {
                print_done(
                    self.call,
                    place,
                    replies.get().as_slice(),
                    "committed",
                    output,
                );
            }
            ReplyOutcome::Answered(replies) => {
                print_done(
                    self.call,
                    place,
                    replies.get().as_slice(),
                    "answered",
                    output,
                );
            }
            ReplyOutcome::Repeated(replies) => {
                print_done(
                    self.call,
                    place,
                    replies.get().as_slice(),
                    "repeated",
                    output,
                );
            }
            ReplyOutcome::Refused(refusal) => print_refused(self.call, place, refusal, output),
        }
    }
}

/// Prints the reply to a batch whose operations were all executed.
pub(crate) fn print_done<T: PrintJson, S: Sink>(
    call: u64,
    place: u64,
    replies: &[T],
    result_word: &str,
    output: &mut Output<S>,
)
    ensures { Puts output.old output.new (done_of T.text call place replies.now result_word.now) }
{
    output.put(b"{\"call\":");
    print_number(call, output);
    output.put(b",\"place\":");
    print_number(place, output);
    output.put(b",\"replies\":");
    print_list(replies, output);
    output.put(b",\"result\":");
    print_text(result_word, output);
    output.put(b"}");
}

/// Prints the reply to a batch that was refused.
pub(crate) fn print_refused<S: Sink>(
    call: u64,
    place: u64,
    refusal: &Refusal,
    output: &mut Output<S>,
)
    ensures { Puts output.old output.new (refused_json call place refusal.now) }
{
    output.put(b"{\"call\":");
    print_number(call, output);
    output.put(b",\"code\":");
    print_text(refusal.code(), output);
    put_detail(refusal, output);
    put_op(refusal.op(), output);
    output.put(b",\"place\":");
    print_number(place, output);
    output.put(b",\"result\":\"refused\"}");
}

/// Puts the detail of a refusal, if it has one.
fn put_detail<S: Sink>(refusal: &Refusal, output: &mut Output<S>)
    ensures { Puts output.old output.new (detail_member refusal.now) }
{
    match refusal {
        Refusal::NotYet => {}
        Refusal::TokenReused => {}
        Refusal::OfOp(_, refusal) => put_op_detail(refusal, output),
        Refusal::Full(_) => {}
    }
}

/// Puts the id of the similar entry or the missing trust domain, if the refusal has one.
fn put_op_detail<S: Sink>(refusal: &OpRefusal, output: &mut Output<S>)
    ensures { Puts output.old output.new (op_detail_member refusal.now) }
{
    match refusal {
        OpRefusal::IdTaken => {}
        OpRefusal::Similar(id) => put_detail_of(id, output),
        OpRefusal::NoEntry => {}
        OpRefusal::StaleRevision => {}
        OpRefusal::NoBundle(domain) => put_detail_of(domain, output),
        OpRefusal::BundleInUse => {}
        OpRefusal::NoAgent => {}
        OpRefusal::VersionGone => {}
    }
}

/// Puts the detail of a refusal, with a comma before its key.
fn put_detail_of<T: PrintJson, S: Sink>(value: &T, output: &mut Output<S>)
    ensures { Puts output.old output.new (codes ",\"detail\":" ++ T.text value.now) }
{
    output.put(b",\"detail\":");
    value.print_to(output);
}

/// The answer to a call with its number, for a reply line: the reply to its batch, or that its commit failed with a
/// conflict.
#[derive(Clone, Copy, Drop)]
pub struct AnsweredCall<'a> {
    /// The number of the call.
    pub call: u64,
    /// The answer to the call.
    pub answer: &'a CallAnswer,
}

impl PrintJson for AnsweredCall<'_> {
    ghost text = { λ a. answer_json a.call a.answer.now };

    fn print_to<S: Sink>(&self, output: &mut Output<S>) {
        let call = self.call;
        match self.answer {
            CallAnswer::Replied(reply) => CallReply { call, reply }.print_to(output),
            CallAnswer::Conflict(place) => print_conflict(call, *place, output),
        }
    }
}

/// Prints that a call ended in a conflict, and at which place this was found.
fn print_conflict<S: Sink>(call: u64, place: u64, output: &mut Output<S>)
    ensures { Puts output.old output.new (conflict_json call place) }
{
    output.put(b"{\"call\":");
    print_number(call, output);
    output.put(b",\"place\":");
    print_number(place, output);
    output.put(b",\"result\":\"conflict\"}");
}
