//! What does one operation reply, and how does it change the book?
//!
//! Each operation has a file of its own in `ops/`. Its function says when the operation is refused; the outer error is out of
//! memory. The book is never changed in place: the result has the book after the operation.

ghost use Rattle.std.specs.Prelude.{◌≡◌, IfOk};
ghost use Rattle.entry_book.specs.Lawful.{CanGrow};
ghost use Rattle.entry_book.specs.Ops.{op_of};
ghost use Rattle.plain_book.specs.Performed.{performed};

mod authorised;
mod children;
mod create;
mod delete;
mod drop_agent;
mod drop_bundle;
mod page;
mod prune;
mod put;
mod set_agent;
mod set_bundle;
mod show;
mod show_agent;
mod show_bundle;
mod trust;
mod update;

use crate::book::Book;
use authorised::authorised;
use children::children;
use create::create;
use delete::delete;
use drop_agent::drop_agent;
use drop_bundle::drop_bundle;
use entry_book::{Op, OpRefusal, OpReply};
use page::page;
use prune::prune;
use set_agent::set_agent;
use set_bundle::set_bundle;
use show::show;
use show_agent::show_agent;
use show_bundle::show_bundle;
use spiffe_name::TrustDomain;
use std::alloc::{AllocError, Global};
use trust::trust;
use update::update;

/// Runs an operation on the book of a trust domain. Returns its reply and the book after it, or the reason for which it is
/// refused. The outer error is out of memory.
pub(crate) fn perform(
    alloc: Global,
    own_domain: &TrustDomain,
    op: &Op,
    book: &Book,
) -> Result<Result<(OpReply, Book), OpRefusal>, AllocError>
    requires counts { CanGrow book.now }
    ensures { IfOk result
        (λ answer. answer ≡ performed (op_of own_domain.now op.now book.now) book.now) }
{
    match op {
        Op::Create(new) => create(alloc, new, book),
        Op::Update(new, expected) => update(alloc, new, *expected, book),
        Op::Delete(id, expected) => delete(alloc, id, *expected, book),
        Op::Show(id) => show(id, book),
        Op::ShowAgent(id) => show_agent(id.get(), book),
        Op::ShowBundle(domain) => show_bundle(domain.get(), book),
        Op::Children(parent) => children(alloc, parent.get(), book),
        Op::Page(query) => page(alloc, query.get(), book),
        Op::Authorised(agent) => authorised(alloc, own_domain, agent.get(), book),
        Op::Trust(agent) => trust(alloc, own_domain, agent.get(), book),
        Op::Prune(moment) => prune(alloc, *moment, book),
        Op::SetAgent(agent) => set_agent(alloc, agent, book),
        Op::DropAgent(id) => drop_agent(alloc, id.get(), book),
        Op::SetBundle(domain, text) => set_bundle(alloc, domain, text, book),
        Op::DropBundle(domain, mode) => drop_bundle(alloc, domain, *mode, book),
    }
}
