//! Operations on agents.

ghost use Rattle.line_reading.specs.FieldsPrivate.{Gives, data_of, members_of};
ghost use Rattle.line_reading.specs.Operations.{agent_in, authorised_in, drop_agent_in, set_agent_in, show_agent_in, trust_in};

use crate::fault::{Fault, Key};
use crate::fields::Object;
use entry_book::{Agent, Op, Shared};
use spiffe_name::{Failure, SpiffeId};
use std::alloc::Global;

/// The keys of an operation that only names an agent.
const AGENT: [Key; 2] = [Key::Op, Key::Agent];

const SET_AGENT: [Key; 3] = [Key::Op, Key::Agent, Key::Selectors];

/// Reads the one key of an operation that only names an agent.
#[tactic(auto, unfolding(crate::specs::Operations::agent_in))]
fn agent_in(alloc: Global, object: &Object<'_>) -> Result<Shared<SpiffeId>, Failure<Fault>>
    ensures { Gives (λ agent. agent) result (agent_in (data_of object.now) (members_of object.now)) }
{
    let agent = object.id_at(alloc, Key::Agent)?;
    object.no_others(&AGENT)?;
    Ok(Shared::of(alloc, agent)?)
}

/// Reads a query for an agent. The error is the first fault at a key, or out of memory.
#[tactic(auto, unfolding(crate::specs::Operations::show_agent_in))]
pub(super) fn show_agent_in(alloc: Global, object: &Object<'_>) -> Result<Op, Failure<Fault>>
    ensures { Gives (λ op. op) result (show_agent_in (data_of object.now) (members_of object.now)) }
{
    let agent = agent_in(alloc, object)?;
    Ok(Op::ShowAgent(agent))
}

/// Reads a query for the authorised entries of an agent. The error is the first fault at a key, or out of memory.
#[tactic(auto, unfolding(crate::specs::Operations::authorised_in))]
pub(super) fn authorised_in(alloc: Global, object: &Object<'_>) -> Result<Op, Failure<Fault>>
    ensures { Gives (λ op. op) result (authorised_in (data_of object.now) (members_of object.now)) }
{
    let agent = agent_in(alloc, object)?;
    Ok(Op::Authorised(agent))
}

/// Reads a query for the bundles that an agent's entries name. The error is the first fault at a key, or out of memory.
#[tactic(auto, unfolding(crate::specs::Operations::trust_in))]
pub(super) fn trust_in(alloc: Global, object: &Object<'_>) -> Result<Op, Failure<Fault>>
    ensures { Gives (λ op. op) result (trust_in (data_of object.now) (members_of object.now)) }
{
    let agent = agent_in(alloc, object)?;
    Ok(Op::Trust(agent))
}

/// Reads the set of an agent with its selectors. The error is the first fault at a key, or out of memory.
#[tactic(auto, unfolding(crate::specs::Operations::set_agent_in))]
pub(super) fn set_agent_in(alloc: Global, object: &Object<'_>) -> Result<Op, Failure<Fault>>
    ensures { Gives (λ op. op) result (set_agent_in (data_of object.now) (members_of object.now)) }
{
    let agent = object.id_at(alloc, Key::Agent)?;
    let selectors = object.selectors_at(alloc, Key::Selectors)?;
    object.no_others(&SET_AGENT)?;
    Ok(Op::SetAgent(Agent {
        id: Shared::of(alloc, agent)?,
        selectors: Shared::of(alloc, selectors)?,
    }))
}

/// Reads the drop of an agent. The error is the first fault at a key, or out of memory.
#[tactic(auto, unfolding(crate::specs::Operations::drop_agent_in))]
pub(super) fn drop_agent_in(alloc: Global, object: &Object<'_>) -> Result<Op, Failure<Fault>>
    ensures { Gives (λ op. op) result (drop_agent_in (data_of object.now) (members_of object.now)) }
{
    let agent = agent_in(alloc, object)?;
    Ok(Op::DropAgent(agent))
}
