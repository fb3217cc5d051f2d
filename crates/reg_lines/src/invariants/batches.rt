//! What are the type invariants of a batch and its operations?

ghost use Rattle.std.specs.Prelude.{ℕ, List, Option};
ghost use Rattle.std.specs.Str.{IsUtf8};
ghost use Rattle.reg_lines.specs.ReadBack.{AreSelectors, IsWrittenAgent, IsWrittenEntry, IsWrittenOp, IsWrittenPage};
ghost use Rattle.reg_lines.specs.RecordValues.{selectors_data, batch_data, entry_op_data, op_data, page_op_data, set_agent_data};
ghost use Rattle.reg_lines.specs.Spelled.{IsTyped, IsWrittenBatch};
ghost use Rattle.reg_lines.specs.Values.{option_data, whole};

use crate::invariants::{Written, know_all};
use entry_book::{Agent, Batch, NewEntry, Op, PageQuery, SelectorMatch};

/// Brings in the invariants of the entry of a create or an update.
fn know_entry(entry: &NewEntry)
    ensures written { IsWrittenEntry entry.now }
    ensures typed { (word : List ℕ) (expected : Option ℕ) → IsUtf8 word → IsTyped (option_data whole expected)
        → IsTyped (entry_op_data word entry.now expected) }
{
    entry.id.know();
    entry.parent.know();
    entry.identity.know();
    entry.selectors.know();
    entry.hint.know();
    entry.domains.know();
    entry.expiry.know();
    entry.x509_svid_ttl.know();
    entry.jwt_svid_ttl.know();
}

/// Brings in the invariants of the agent of a `set_agent`.
fn know_agent(agent: &Agent)
    ensures written { IsWrittenAgent agent.now }
    ensures typed { IsTyped (set_agent_data agent.now) }
{
    agent.id.know();
    agent.selectors.know();
}

impl Written for SelectorMatch {
    ghost is_written = { λ condition. AreSelectors condition.selectors };

    ghost value = { selectors_data };

    fn know(&self) {
        self.selectors.know();
    }
}

impl Written for PageQuery {
    ghost is_written = { IsWrittenPage };

    ghost value = { page_op_data };

    fn know(&self) {
        self.size.know();
        self.at.know();
        self.from.know();
        self.filter.parent.know();
        self.filter.identity.know();
        self.filter.domain.know();
        self.filter.selectors.know();
    }
}

impl Written for Op {
    ghost is_written = { IsWrittenOp };

    ghost value = { op_data };

    fn know(&self) {
        match self {
            Op::Create(entry) => know_entry(entry.get()),
            Op::Update(entry, expected) => {
                know_entry(entry.get());
                expected.know();
            }
            Op::Delete(id, expected) => {
                id.know();
                expected.know();
            }
            Op::Show(id) => id.know(),
            Op::ShowAgent(id) => id.know(),
            Op::ShowBundle(domain) => domain.know(),
            Op::Children(parent) => parent.know(),
            Op::Page(query) => query.know(),
            Op::Authorised(id) => id.know(),
            Op::Trust(id) => id.know(),
            Op::Prune(moment) => moment.know(),
            Op::SetAgent(agent) => know_agent(agent),
            Op::DropAgent(id) => id.know(),
            Op::SetBundle(domain, text) => {
                domain.know();
                text.know();
            }
            Op::DropBundle(domain, _) => domain.know(),
        }
    }
}

impl Written for Batch {
    ghost is_written = { IsWrittenBatch };

    ghost value = { batch_data };

    fn know(&self) {
        self.after().know();
        know_all(self.ops());
        self.token().know();
    }
}
