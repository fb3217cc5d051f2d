//! Which read of an operation comes next, and what follows from the rows read?
//!
//! The functions `.._next` of its modules return a [`Next`]: the next read, or the end or the refusal of the operation.

ghost use Rattle.std.specs.Prelude.{◌≡◌, [], Ok, IfErr, IfOk, is_ok};
ghost use Rattle.entry_book.specs.Lawful.{CanGrow};
ghost use Rattle.batch_work.specs.Steps.{advance, first_mark, first_next, mark_of};

mod agents;
mod authorised;
mod bundles;
mod entries;

use crate::advance::agents::{drop_agent_next, set_agent_next, walk_agent_next};
use crate::advance::authorised::{held_next, identity_next, own_next, trusted_turn};
use crate::advance::bundles::{drop_next, set_bundle_next, users_next};
use crate::advance::entries::{
    bundle_next, create_next, delete_next, page_next, prune_next, unless_similar_next, update_next,
};
use crate::phase::{Next, Phase, WalkFor};
use crate::rows::first_of;
use entry_book::{Op, OpReply, Sequence, Shared};
use spiffe_name::SpiffeId;
use std::alloc::{AllocError, Global};
use version_book::{Changes, Mark, RowsRead};

/// Returns the mark that an operation reads first. The error is out of memory.
fn first_mark(op: &Op) -> Result<Mark, AllocError>
    ensures { IfOk result (λ mark. mark ≡ first_mark op.now) }
{
    Ok(match op {
        Op::Create(new) => Mark::entry(new.get().id),
        Op::Update(new, _) => Mark::entry(new.get().id),
        Op::Delete(id, _) => Mark::entry(*id),
        Op::Show(id) => Mark::entry(*id),
        Op::ShowAgent(agent) => Mark::agent(agent.clone()?),
        Op::ShowBundle(domain) => Mark::bundle(domain.clone()?),
        Op::Children(parent) => Mark::children(parent)?,
        Op::Page(_) => Mark::all(),
        Op::Authorised(agent) => Mark::agent(agent.clone()?),
        Op::Trust(agent) => Mark::agent(agent.clone()?),
        Op::Prune(moment) => Mark::expiring(*moment),
        Op::SetAgent(agent) => Mark::agent(agent.id.clone()?),
        Op::DropAgent(agent) => Mark::agent(agent.clone()?),
        Op::SetBundle(domain, _) => Mark::bundle(domain.clone()?),
        Op::DropBundle(domain, _) => Mark::bundle(domain.clone()?),
    })
}

/// Returns the mark that an operation reads at this phase. The error is out of memory.
pub(crate) fn mark_of(server: &Shared<SpiffeId>, op: &Op, phase: &Phase) -> Result<Mark, AllocError>
    ensures { IfOk result (λ mark. mark ≡ mark_of server.now op.now phase.now) }
{
    Ok(match phase {
        Phase::First => first_mark(op)?,
        Phase::Group(_, entry) => Mark::group(entry.parent(), entry.identity())?,
        Phase::Bundle(_, _, domain, _) => Mark::bundle(domain.clone()?),
        Phase::Users(bundle, _) => Mark::users(&bundle.domain)?,
        Phase::Server(_, _) => Mark::children(server)?,
        Phase::OfAgent(_, walk) => Mark::children(&walk.agent().id)?,
        Phase::Identity(_, _, identity) => Mark::children(identity)?,
        Phase::Trusted(domain, _, _, _) => Mark::bundle(domain.clone()?),
    })
}

/// Returns the end of an operation that writes nothing. Allocates no memory.
fn answered(alloc: Global, reply: OpReply) -> Next
    ensures { result ≡ Next.Ends reply [] }
{
    Next::Ends(reply, Changes::new(alloc))
}

/// Returns what follows from the first read of an operation. The error is out of memory.
fn first_next(alloc: Global, op: &Op, reading: RowsRead) -> Result<Next, AllocError>
    requires counts { CanGrow reading }
    ensures { IfOk result (λ next. next ≡ first_next op.now reading) }
{
    match op {
        Op::Create(new) => create_next(new, reading.entries()),
        Op::Update(new, expected) => update_next(new, *expected, reading.entries()),
        Op::Delete(_, expected) => delete_next(alloc, *expected, reading.entries()),
        Op::Show(_) => {
            let shown = first_of(reading.into_entries());
            Ok(answered(alloc, OpReply::EntryShown(shown)))
        }
        Op::ShowAgent(_) => {
            let shown = first_of(reading.into_agents());
            Ok(answered(alloc, OpReply::AgentShown(shown)))
        }
        Op::ShowBundle(_) => {
            let shown = first_of(reading.into_bundles());
            Ok(answered(alloc, OpReply::BundleShown(shown)))
        }
        Op::Children(_) => {
            let children = Sequence::of(reading.into_entries());
            Ok(answered(alloc, OpReply::Entries(children)))
        }
        Op::Page(query) => page_next(alloc, query.get(), &reading),
        Op::Authorised(_) => walk_agent_next(WalkFor::Entries, reading.agents()),
        Op::Trust(_) => walk_agent_next(WalkFor::Bundles, reading.agents()),
        Op::Prune(_) => prune_next(alloc, reading.entries()),
        Op::SetAgent(agent) => set_agent_next(alloc, agent, reading.into_agents()),
        Op::DropAgent(_) => drop_agent_next(alloc, reading.agents()),
        Op::SetBundle(domain, text) => {
            set_bundle_next(alloc, domain, text, reading.into_bundles())
        }
        Op::DropBundle(domain, mode) => drop_next(domain, *mode, reading.bundles()),
    }
}

/// Returns what comes next, or the phase if memory runs out.
fn or_back(next: Result<Next, AllocError>, phase: Phase) -> Result<Next, Phase>
    ensures ok { is_ok result ≡ is_ok next }
    ensures next { IfOk result (λ made. next ≡ Ok made) }
    ensures back { IfErr result (λ back. back ≡ phase) }
{
    match next {
        Ok(next) => {
            drop(phase);
            Ok(next)
        }
        Err(AllocError) => Err(phase),
    }
}

/// Returns what follows from the read of a phase, given the rows read. Their revisions and sequences must have room to grow. If
/// memory runs out, the error is the phase, unchanged.
pub(crate) fn advance(
    alloc: Global,
    server: &Shared<SpiffeId>,
    op: &Op,
    phase: Phase,
    reading: RowsRead,
) -> Result<Next, Phase>
    requires counts { CanGrow reading }
    ensures next { IfOk result (λ next. next ≡ advance server.now op.now phase reading) }
    ensures back { IfErr result (λ back. back ≡ phase) }
{
    match phase {
        Phase::First => or_back(first_next(alloc, op, reading), Phase::First),
        Phase::Group(old, entry) => {
            let next = unless_similar_next(alloc, &old, &entry, reading.entries());
            or_back(next, Phase::Group(old, entry))
        }
        Phase::Bundle(old, entry, domain, index) => {
            let next = bundle_next(alloc, &old, &entry, &domain, index, reading.bundles());
            or_back(next, Phase::Bundle(old, entry, domain, index))
        }
        Phase::Users(bundle, mode) => {
            let next = users_next(alloc, mode, reading.entries(), &bundle);
            or_back(next, Phase::Users(bundle, mode))
        }
        Phase::Server(walk_for, agent) => {
            let next = held_next(alloc, server.get(), walk_for, &agent, reading.entries());
            or_back(next, Phase::Server(walk_for, agent))
        }
        Phase::OfAgent(walk_for, walk) => own_next(alloc, walk_for, walk, reading.into_entries()),
        Phase::Identity(walk_for, walk, identity) => {
            identity_next(alloc, walk_for, walk, identity, reading.into_entries())
        }
        Phase::Trusted(domain, domains, index, found) => {
            trusted_turn(alloc, domain, domains, index, found, reading.into_bundles())
        }
    }
}
