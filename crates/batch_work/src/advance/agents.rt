//! What comes after the read of an agent?

ghost use Rattle.std.specs.Prelude.{◌≡◌, ◌∷◌, [], IfOk, Some};
ghost use Rattle.entry_book.specs.Order.{first};
ghost use Rattle.entry_book.specs.Writes.{wrote_agent};
ghost use Rattle.batch_work.specs.Steps.{agent_gone, for_agent_next};

use crate::phase::{Next, Phase, WalkFor};
use crate::rows::first_of;
use entry_book::{Agent, OpRefusal, OpReply, both};
use std::alloc::{AllocError, Global};
use version_book::Changes;

/// The next read is that of the server's children. The operation is refused if there is no agent. The error is a reference
/// count at its maximum.
pub(crate) fn walk_agent_next(walk_for: WalkFor, agents: &[Agent]) -> Result<Next, AllocError>
    ensures { IfOk result (λ next. next ≡ for_agent_next (first agents.now) (λ a. Next.Continues (Phase.Server walk_for a))) }
{
    match agents {
        [] => Ok(Next::Refused(OpRefusal::NoAgent)),
        [agent, ..] => Ok(Next::Continues(Phase::Server(walk_for, agent.clone()?))),
    }
}

/// Returns the write of this agent's row, from the old row to the new one; either may be absent. The error is out of memory.
fn agent_put(
    alloc: Global,
    agent: &Agent,
    old: Option<Agent>,
    new: Option<Agent>,
) -> Result<Changes, AllocError>
    ensures { IfOk result (λ changes. changes ≡ wrote_agent (record { key = agent.now.id; old = old; new = new }) ∷ []) }
{
    let (id, (old, new)) = both(agent.id.clone(), Ok((old, new)))?;
    let mut changes = Changes::new(alloc);
    let put = changes.put_agent(id, old, new);
    let ((), changes) = both(put, Ok(changes))?;
    Ok(changes)
}

/// The operation ends with the agent in place of the one that was read. The error is out of memory.
pub(crate) fn set_agent_next(
    alloc: Global,
    agent: &Agent,
    agents: Vec<Agent>,
) -> Result<Next, AllocError>
    ensures { IfOk result (λ next. next ≡ Next.Ends (OpReply.Agent agent.now)
        (wrote_agent (record { key = agent.now.id; old = first agents.items; new = Some agent.now }) ∷ [])) }
{
    let copies = both(agent.clone(), agent.clone());
    let (old, (new, reply)) = both(Ok(first_of(agents)), copies)?;
    let changes = agent_put(alloc, agent, old, Some(new));
    let (changes, reply) = both(changes, Ok(reply))?;
    Ok(Next::Ends(OpReply::Agent(reply), changes))
}

/// The operation ends with the removal of the agent. It is refused if there is none. The error is out of memory.
pub(crate) fn drop_agent_next(alloc: Global, agents: &[Agent]) -> Result<Next, AllocError>
    ensures { IfOk result (λ next. next ≡ for_agent_next (first agents.now)
        (λ a. Next.Ends (OpReply.Agent a) (agent_gone a ∷ []))) }
{
    match agents {
        [] => Ok(Next::Refused(OpRefusal::NoAgent)),
        [agent, ..] => {
            let changes = agent_put(alloc, agent, Some(agent.clone()?), None);
            let (changes, agent) = both(changes, agent.clone())?;
            Ok(Next::Ends(OpReply::Agent(agent), changes))
        }
    }
}
