//! What are the type invariants of a reply and its rows?

ghost use Rattle.std.specs.Prelude.{⊤};
ghost use Rattle.reg_lines.specs.Spelled.{IsTyped};
ghost use Rattle.serde_json.specs.Data.{string};
ghost use Rattle.reg_lines.specs.Values.{agent_data, bundle_data, entry_data, op_detail, op_reply_data, option_data, refused_data, reply_data};

use crate::invariants::Written;
use crate::printing::replies::CallReply;
use entry_book::{Agent, Bundle, Entry, OpRefusal, OpReply, Refusal, ReplyOutcome};

impl Written for Entry {
    ghost is_written = { λ _. ⊤ };

    ghost value = { entry_data };

    fn know(&self) {
        self.id().know();
        self.parent().know();
        self.identity().know();
        self.selectors().know();
        self.hint().know();
        self.domains().know();
        self.expiry().know();
        self.x509_svid_ttl().know();
        self.jwt_svid_ttl().know();
        self.revision().know();
    }
}

impl Written for Agent {
    ghost is_written = { λ _. ⊤ };

    ghost value = { agent_data };

    fn know(&self) {
        self.id.know();
        self.selectors.know();
    }
}

impl Written for Bundle {
    ghost is_written = { λ _. ⊤ };

    ghost value = { bundle_data };

    fn know(&self) {
        self.domain.know();
        self.text.know();
        self.sequence.know();
    }
}

impl Written for OpReply {
    ghost is_written = { λ _. ⊤ };

    ghost value = { op_reply_data };

    fn know(&self) {
        match self {
            OpReply::Entry(entry) => entry.know(),
            OpReply::EntryShown(entry) => entry.know(),
            OpReply::Entries(entries) => entries.know(),
            OpReply::Page(entries, next) => {
                entries.know();
                next.know();
            }
            OpReply::Agent(agent) => agent.know(),
            OpReply::AgentShown(agent) => agent.know(),
            OpReply::Bundle(bundle) => bundle.know(),
            OpReply::BundleShown(bundle) => bundle.know(),
            OpReply::Bundles(bundles) => bundles.know(),
            OpReply::Pruned(ids) => ids.know(),
            OpReply::Dropped(deleted, dissociated) => {
                deleted.know();
                dissociated.know();
            }
        }
    }
}

/// Brings in the invariant of the detail of an operation's refusal.
fn know_detail(refusal: &OpRefusal)
    ensures { IsTyped (option_data string (op_detail refusal.now)) }
{
    match refusal {
        OpRefusal::IdTaken => {}
        OpRefusal::Similar(id) => id.know(),
        OpRefusal::NoEntry => {}
        OpRefusal::StaleRevision => {}
        OpRefusal::NoBundle(domain) => domain.know(),
        OpRefusal::BundleInUse => {}
        OpRefusal::NoAgent => {}
        OpRefusal::VersionGone => {}
    }
}

/// Brings in the invariants of the reply to a batch that was refused.
fn know_refused(call: u64, place: u64, refusal: &Refusal)
    ensures { IsTyped (refused_data call place refusal.now) }
{
    call.know();
    place.know();
    let _ = refusal.code();
    match refusal {
        Refusal::NotYet => {}
        Refusal::TokenReused => {}
        Refusal::OfOp(index, reason) => {
            index.know();
            know_detail(reason);
        }
        Refusal::Full(_) => {}
    }
}

/// The invariants of the reply to a batch, with the number of its call.
impl Written for CallReply<'_> {
    ghost is_written = { λ _. ⊤ };

    ghost value = { λ r. reply_data r.call r.reply.now };

    fn know(&self) {
        let call = self.call;
        let place = self.reply.place;
        call.know();
        place.know();
        match &self.reply.outcome {
            ReplyOutcome::Committed(replies) => replies.know(),
            ReplyOutcome::Answered(replies) => replies.know(),
            ReplyOutcome::Repeated(replies) => replies.know(),
            ReplyOutcome::Refused(refusal) => know_refused(call, place, refusal),
        }
    }
}
