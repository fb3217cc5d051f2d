//! A machine with its trust domain, which the tests need to know.

ghost use Rattle.std.specs.Prelude.{◌≡◌, IfOk, true};
ghost use Rattle.call_events.specs.Events.{IsFor};
ghost use Rattle.call_machine.specs.Machine.{AreFor};

use call_answers::{Done, KnownCall};
use call_events::{Event, EventRefusal, RefusedEvent};
use call_machine::Machine;
use spiffe_name::TrustDomain;
use std::alloc::Global;
use std::marker::Model;
use std::test::Fail;
use test_support::unless;

/// Returns true if the event may be submitted to a machine of this trust domain.
fn is_for(domain: &TrustDomain, event: &Event) -> bool
    ensures { result ≡ true → IsFor domain.now event.now }
{
    match event {
        Event::Invoke(_, batch) => batch.domain() == domain,
        _ => true,
    }
}

/// Returns true if each of the events may.
fn are_for(domain: &TrustDomain, events: &[Event]) -> bool
    ensures { result ≡ true → AreFor domain.now events.now }
{
    match events.split_first() {
        Some((event, others)) => is_for(domain, event) && are_for(domain, others),
        None => true,
    }
}

/// Returns true if it is refused because memory ran out.
pub fn lacks_memory(answer: &Result<Done, RefusedEvent>) -> bool {
    match answer {
        Ok(_) => false,
        Err(refused) => refused.refusal == EventRefusal::NoMemory,
    }
}

/// A machine, with its trust domain.
#[derive(Drop)]
pub struct DomainMachine {
    domain: TrustDomain,
    machine: Machine,
}

impl Model for DomainMachine {
    ghost use Rattle.std.specs.Prelude.{◌≡◌};
    ghost use Rattle.call_machine.specs.Calls.{MachineState};

    ghost Value = { MachineState };

    ghost view = { λ kept. kept.machine };

    ghost invariant = { λ kept. kept.machine.domain ≡ kept.domain };
}

impl DomainMachine {
    /// The machine of a trust domain's server.
    pub fn new(alloc: Global, domain: TrustDomain) -> Result<DomainMachine, Fail> {
        let machine = new_machine(alloc, &domain)?;
        Ok(DomainMachine { domain, machine })
    }

    /// Applies one event. Out of memory is an error.
    pub fn apply(&mut self, event: Event) -> Result<Result<Done, RefusedEvent>, Fail> {
        if !is_for(&self.domain, &event) {
            drop(event);
            return Err(Fail::from("not for this machine"));
        }
        let answer = self.machine.apply(event);
        unless(lacks_memory(&answer), "no memory", answer)
    }

    pub fn order(&self) -> Result<Vec<u64>, Fail> {
        Ok(self.machine.order()?)
    }

    pub fn call(&self, number: u64) -> Option<KnownCall<'_>> {
        self.machine.call(number)
    }
}

/// A new machine of this trust domain.
fn new_machine(alloc: Global, domain: &TrustDomain) -> Result<Machine, Fail>
    ensures { IfOk result (λ machine. machine.domain ≡ domain.now) }
{
    Ok(Machine::new(alloc, domain.clone()?)?)
}

/// The answers of a new machine of this trust domain to a list of events.
fn answers_of(
    mut machine: Machine,
    domain: &TrustDomain,
    events: Vec<Event>,
) -> Result<Vec<Result<Done, RefusedEvent>>, Fail>
    requires domain { machine.domain ≡ domain.now }
{
    if !are_for(domain, events.as_slice()) {
        drop(machine);
        drop(events);
        return Err(Fail::from("not for this machine"));
    }
    let answers = machine.run(events);
    drop(machine);
    Ok(answers?)
}

/// The answers of a new machine of this trust domain to a list of events.
pub fn run_at_once(
    alloc: Global,
    domain: &TrustDomain,
    events: Vec<Event>,
) -> Result<Vec<Result<Done, RefusedEvent>>, Fail> {
    match new_machine(alloc, domain) {
        Ok(machine) => answers_of(machine, domain, events),
        Err(failed) => {
            drop(events);
            Err(failed)
        }
    }
}
