//! Which records does an input of event lines give?

ghost use Rattle.std.specs.Prelude.{◌≡◌, [], List};
ghost use Rattle.std.specs.List.{AllByRecursion, flat_map};
ghost use Rattle.line_devices.specs.Stream.{Puts};
ghost use Rattle.line_engines.specs.Recorded.{AreRecords, IsRecordOf, IsWritten, Recorded, RunsRecord, record_line};

use crate::driver::{LineHandler, run_lines};
use crate::fault::RunFault;
use crate::schedule_engine::ScheduleRun;
use call_machine::Machine;
use line_devices::{Input, Output, Sink, Source};
use reg_lines::{CallRecord, print_line};
use spiffe_name::TrustDomain;
use std::alloc::{AllocError, Global};
use std::marker::Model;

/// Applies each line of the input to a machine of calls of the trust domain, in order, as `schedule` does, but writes no answers.
/// At the end of the input it writes a record of each call of the machine's order, in this order. Creates without an id get the
/// ids of the seed, in order.
///
/// Returns how many lines were lost for lack of memory: those that `schedule` answers L6 or E5. If none was, the records are
/// those of all events of the input.
///
/// The error is a failed device, or out of memory before the first line or for the order.
pub fn record_schedule<S: Source, K: Sink>(
    alloc: Global,
    domain: TrustDomain,
    seed: [u8; 32],
    input: &mut Input<S>,
    output: &mut Output<K>,
) -> Result<u64, RunFault>
    requires input { input.old.failures ≡ 0 }
    requires output { output.old.failures ≡ 0 }
    requires none_held { output.old.held ≡ [] }
    ensures { RunsRecord domain seed input.old input.new output.old output.new result }
{
    let mut run = RecordRun::new(alloc, domain, seed)?;
    match run_lines(alloc, &mut run, input, output) {
        Ok(()) => Ok(run.lost()),
        Err(fault) => Err(fault),
    }
}

/// A machine that applies event lines and writes nothing before the end, and the number of lost lines.
#[derive(Drop)]
struct RecordRun {
    schedule: ScheduleRun,
    lost: u64,
}

impl Model for RecordRun {
    ghost use Rattle.line_engines.specs.RecordedPrivate.{RecordKept};

    ghost Value = { RecordKept };

    ghost view = { λ r. record { schedule = r.schedule; lost = r.lost } };
}

impl RecordRun {
    ghost use Rattle.std.specs.Prelude.{◌≡◌, IfOk};
    ghost use Rattle.line_engines.specs.Recorded.{first_recording};
    ghost use Rattle.line_engines.specs.RecordedPrivate.{RecordRepresents};

    /// The state before the first line. The error is out of memory.
    fn new(alloc: Global, domain: TrustDomain, seed: [u8; 32]) -> Result<RecordRun, AllocError>
        ensures represents { IfOk result (λ run. RecordRepresents run 0 (first_recording domain seed)) }
        ensures domain { IfOk result (λ run. run.schedule.machine.domain ≡ domain) }
    {
        Ok(RecordRun {
            schedule: ScheduleRun::new(alloc, domain, seed)?,
            lost: 0,
        })
    }

    /// Returns the number of lost lines.
    fn lost(&self) -> u64
        ensures { result ≡ self.now.lost }
    {
        self.lost
    }
}

impl LineHandler for RecordRun {
    ghost use Rattle.std.specs.Prelude.{ℕ, List, false, ⊤};
    ghost use Rattle.line_engines.specs.Recorded.{ClosesRecording, Recording, RecordsLine};
    ghost use Rattle.line_engines.specs.RecordedPrivate.{RecordRepresents, a_line_recorded};

    ghost State = { Recording };

    ghost Setting = { List ℕ };

    ghost setting = { λ r. r.schedule.machine.domain };

    ghost represents = { RecordRepresents };

    ghost preserves = { λ _ _. ⊤ };

    ghost answers = { RecordsLine };

    ghost ends = { λ _. false };

    ghost closes = { ClosesRecording };

    ghost may_lack_memory = { ⊤ };

    ghost some_answer = { a_line_recorded };

    /// Applies the line, which gets no reply, and counts it if it is lost.
    fn answer<K: Sink>(
        &mut self,
        alloc: Global,
        number: u64,
        line: &[u8],
        _: &mut Output<K>,
    ) -> bool {
        if self.schedule.take(alloc, number, line).is_lost() {
            // this never saturates: at most all lines are lost, and each line has a number
            self.lost = self.lost.saturating_add(1);
        }
        true
    }

    /// Writes the records of the calls, in their order.
    fn close<K: Sink>(&mut self, _: Global, output: &mut Output<K>) -> Result<(), AllocError> {
        let machine = self.schedule.machine();
        let order = machine.order()?;
        print_records(machine, order.as_slice(), output);
        Ok(())
    }
}

/// Prints the record of each of these calls, each on a line.
fn print_records<K: Sink>(machine: &Machine, calls: &[u64], output: &mut Output<K>)
    ensures printed { (records : List Recorded) → AreRecords machine.now.calls calls.now records
        → Puts output.old output.new (flat_map record_line records) }
    ensures written { (records : List Recorded) → AreRecords machine.now.calls calls.now records
        → AllByRecursion IsWritten records }
{
    for call in calls {
        print_record(machine, *call, output);
    }
}

/// Prints the record of the call of this number.
fn print_record<K: Sink>(machine: &Machine, call: u64, output: &mut Output<K>)
    ensures printed { (r : Recorded) → IsRecordOf machine.now.calls call r
        → Puts output.old output.new (record_line r) }
    ensures written { (r : Recorded) → IsRecordOf machine.now.calls call r → IsWritten r }
{
    let Some(known) = machine.call(call) else {
        return;
    };
    if let Some(record) = CallRecord::of(call, &known) {
        record.know_types();
        print_line(&record, output);
    }
}
