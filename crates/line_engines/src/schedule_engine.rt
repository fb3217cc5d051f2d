//! How is an input of event lines answered by a machine of calls?

ghost use Rattle.std.specs.Prelude.{◌≡◌, ◌+◌, []};
ghost use Rattle.call_events.specs.Events.{IsFor};
ghost use Rattle.line_engines.specs.Schedules.{RunsSchedule, Scheduled};
ghost use Rattle.line_engines.specs.SchedulesPrivate.{Applied, TakesEventLine, is_lost, line_answer_json};

use crate::driver::{LineHandler, run_lines};
use crate::fault::RunFault;
use call_answers::Done;
use call_events::{Event, EventRefusal};
use call_machine::Machine;
use line_devices::{Input, Output, Sink, Source};
use line_reading::{Ids, LineRefusal, read_event};
use reg_lines::{CallOrder, EventRefused, PrintJson, print_line};
use spiffe_name::{Failure, TrustDomain};
use std::alloc::{AllocError, Global};
use std::marker::Model;

/// Answers each line of the input with a machine of calls of the trust domain, in order, and then writes the order of the calls.
/// Creates without an id get the ids of the seed, in order.
///
/// The replies are out before each read that may wait, and at the end. The error is a failed device, or out of memory before the
/// first line or for the order. If memory runs out for a line, its reply says so.
pub fn schedule<S: Source, K: Sink>(
    alloc: Global,
    domain: TrustDomain,
    seed: [u8; 32],
    input: &mut Input<S>,
    output: &mut Output<K>,
) -> Result<(), RunFault>
    requires input { input.old.failures ≡ 0 }
    requires output { output.old.failures ≡ 0 }
    requires none_held { output.old.held ≡ [] }
    ensures { RunsSchedule domain seed input.old input.new output.old output.new result }
{
    let mut run = ScheduleRun::new(alloc, domain, seed)?;
    run_lines(alloc, &mut run, input, output)
}

/// A machine that answers event lines, and the ids that it gives.
#[derive(Drop)]
pub(crate) struct ScheduleRun {
    domain: TrustDomain,
    machine: Machine,
    ids: Ids,
}

impl Model for ScheduleRun {
    ghost use Rattle.std.specs.Prelude.{◌≡◌};
    ghost use Rattle.line_engines.specs.SchedulesPrivate.{ScheduleKept};

    ghost Value = { ScheduleKept };

    ghost view = { λ r. record { machine = r.machine; ids = r.ids } };

    ghost invariant = { λ r. r.machine.domain ≡ r.domain };
}

impl ScheduleRun {
    ghost use Rattle.std.specs.Prelude.{◌≡◌, ◌+◌, ℕ, IfOk};
    ghost use Rattle.line_engines.specs.Schedules.{Scheduled, schedule_start};
    ghost use Rattle.line_engines.specs.SchedulesPrivate.{ScheduleRepresents, TakesKept, is_lost, line_answer_json};

    /// The state before the first line. The error is out of memory.
    pub(crate) fn new(
        alloc: Global,
        domain: TrustDomain,
        seed: [u8; 32],
    ) -> Result<ScheduleRun, AllocError>
        ensures represents { IfOk result (λ run. ScheduleRepresents run 0 (schedule_start domain seed)) }
        ensures domain { IfOk result (λ run. run.machine.domain ≡ domain) }
    {
        Ok(ScheduleRun {
            machine: Machine::new(alloc, domain.clone()?)?,
            domain,
            ids: Ids::of_seed(seed),
        })
    }

    /// Applies the line of this number, of which these bytes are kept, and returns its answer.
    pub(crate) fn take(&mut self, alloc: Global, number: u64, line: &[u8]) -> LineAnswer
        ensures domain { self.new.machine.domain ≡ self.old.machine.domain }
        ensures taken { (lines : ℕ) (now : Scheduled) → number ≡ lines + 1 → ScheduleRepresents self.old lines now
            → TakesKept self.old.machine.domain self.new number now line.now (line_answer_json result) (is_lost result) }
    {
        take(
            alloc,
            &self.domain,
            &mut self.machine,
            &mut self.ids,
            number,
            line,
        )
    }

    /// Returns the machine, after the lines so far.
    pub(crate) fn machine(&self) -> &Machine
        ensures { result.now ≡ self.now.machine }
    {
        &self.machine
    }
}

impl LineHandler for ScheduleRun {
    ghost use Rattle.std.specs.Prelude.{ℕ, List, false, ⊤};
    ghost use Rattle.line_engines.specs.Schedules.{AnswersEvent, ClosesWithOrder, Scheduled};
    ghost use Rattle.line_engines.specs.SchedulesPrivate.{ScheduleRepresents, an_event_answer};

    ghost State = { Scheduled };

    ghost Setting = { List ℕ };

    ghost setting = { λ r. r.machine.domain };

    ghost represents = { ScheduleRepresents };

    ghost preserves = { λ _ _. ⊤ };

    ghost answers = { AnswersEvent };

    ghost ends = { λ _. false };

    ghost closes = { λ _. ClosesWithOrder };

    ghost may_lack_memory = { ⊤ };

    ghost some_answer = { an_event_answer };

    fn answer<K: Sink>(
        &mut self,
        alloc: Global,
        number: u64,
        line: &[u8],
        output: &mut Output<K>,
    ) -> bool {
        print_line(&self.take(alloc, number, line), output);
        true
    }

    /// Prints the order of the calls.
    fn close<K: Sink>(&mut self, _: Global, output: &mut Output<K>) -> Result<(), AllocError> {
        let order = self.machine.order()?;
        print_line(
            &CallOrder {
                calls: order.as_slice(),
            },
            output,
        );
        Ok(())
    }
}

/// The answer to a line.
#[derive(Drop)]
pub(crate) enum LineAnswer {
    /// The machine's answer to the event.
    Done(Done),
    /// The machine refuses the event.
    Refused(EventRefused),
    /// The line isn't an event, or memory ran out while it was read.
    NotRead(LineRefusal),
}

impl LineAnswer {
    ghost use Rattle.std.specs.Prelude.{◌≡◌};
    ghost use Rattle.line_engines.specs.SchedulesPrivate.{is_lost};

    /// Returns true if the line was lost for lack of memory.
    pub(crate) fn is_lost(self) -> bool
        ensures { result ≡ is_lost self }
    {
        match self {
            LineAnswer::Done(_) => false,
            LineAnswer::Refused(event) => matches!(event.refusal, EventRefusal::NoMemory),
            LineAnswer::NotRead(refusal) => matches!(refusal.failure, Failure::NoMemory),
        }
    }
}

impl PrintJson for LineAnswer {
    ghost text = { line_answer_json };

    fn print_to<S: Sink>(&self, output: &mut Output<S>) {
        match self {
            LineAnswer::Done(done) => done.print_to(output),
            LineAnswer::Refused(refused) => refused.print_to(output),
            LineAnswer::NotRead(refusal) => refusal.print_to(output),
        }
    }
}

/// Applies the line of this number, and returns its answer.
fn take(
    alloc: Global,
    domain: &TrustDomain,
    machine: &mut Machine,
    ids: &mut Ids,
    number: u64,
    line: &[u8],
) -> LineAnswer
    requires domain { domain.now ≡ machine.old.domain }
    ensures domain { machine.new.domain ≡ machine.old.domain }
    ensures line { (now : Scheduled) → now.machine ≡ machine.old → now.ids ≡ ids.old → number ≡ now.lines + 1
        → TakesEventLine domain.now now line.now (line_answer_json result) (is_lost result) machine.new ids.new }
{
    match read_event(alloc, domain, ids, line, number) {
        Err(refusal) => LineAnswer::NotRead(refusal),
        Ok(event) => apply(machine, event, number),
    }
}

/// Applies the event of the line of this number, and returns the answer.
fn apply(machine: &mut Machine, event: Event, line: u64) -> LineAnswer
    requires domain { IsFor machine.old.domain event }
    ensures { Applied machine.old event line (line_answer_json result) (is_lost result) machine.new }
{
    match machine.apply(event) {
        Ok(done) => LineAnswer::Done(done),
        Err(refused) => LineAnswer::Refused(EventRefused {
            line,
            refusal: refused.refusal,
        }),
    }
}
