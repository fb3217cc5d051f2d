//! How are the lines of an input answered, by any line handler?

ghost use Rattle.std.specs.Prelude.{◌≡◌, ◌+◌, ◌<◌, ◌^◌, ◌⊎◌, ℕ, Bool, false, List, [], OnErr, OnOk, IfErr};
ghost use Rattle.line_devices.specs.Stream.{IsOut, Puts};
ghost use Rattle.line_engines.specs.Driver.{AfterSomeLines, AnswersKept, Closes, ClosesAs, RunsOver, StepsUntilEnd, TakesNoMore};
ghost use Rattle.line_engines.specs.DriverPrivate.{FailsToClose};

use crate::fault::RunFault;
use line_devices::{Input, Line, Output, Sink, Source, flush_before_waiting, most_lines};
use std::alloc::{AllocError, Global};

/// A line handler: it answers the lines of an input, one after another, and may add a last text.
pub trait LineHandler {
    // The state of a run.
    ghost State: { Type 0 };

    // What doesn't change in a run.
    ghost Setting: { Type 0 };

    ghost setting: { Self → Self.Setting };

    // Whether the value represents this state after this number of lines.
    ghost represents: { Self → ℕ → Self.State → Type 0 };

    // What a value at the start of a run and a later value have in common, whatever the replies to its lines and however it ends.
    ghost preserves: { Self → Self → Type 0 };

    // The reply that a line may get in a state, and the state after it.
    ghost answers: { Self.Setting → Self.State → List ℕ → Self.State → List ℕ → Type 0 };

    // Whether the run has ended, whatever lines follow.
    ghost ends: { Self.State → Bool };

    // The text that may follow the last reply.
    ghost closes: { Self.Setting → Self.State → List ℕ → Type 0 };

    // Whether that text may fail for lack of memory.
    ghost may_lack_memory: { Type 0 };

    /// Answers the line of this number, of which these bytes are kept. The first line has the number 1. Returns true if the run
    /// goes on.
    fn answer<K: Sink>(
        &mut self,
        alloc: Global,
        number: u64,
        line: &[u8],
        output: &mut Output<K>,
    ) -> bool
        ensures setting { Self.setting self.new ≡ Self.setting self.old }
        ensures preserves { (first : Self) → Self.preserves first self.old → Self.preserves first self.new }
        ensures answered { (lines : ℕ) (now : Self.State) → number ≡ lines + 1 → Self.represents self.old lines now
            → AnswersKept (Self.answers (Self.setting self.old)) Self.ends (Self.represents self.new number) now line.now output.old output.new result };

    /// Puts the text that follows the last reply; the state stays the same. The error is out of memory, and then nothing is
    /// put.
    fn close<K: Sink>(&mut self, alloc: Global, output: &mut Output<K>) -> Result<(), AllocError>
        ensures closed { (lines : ℕ) (now : Self.State) → Self.represents self.old lines now
            → OnOk result (Closes (Self.closes (Self.setting self.old)) now output.old output.new) }
        ensures represented { (lines : ℕ) (now : Self.State) → Self.represents self.old lines now → Self.represents self.new lines now }
        ensures preserves { (first : Self) → Self.preserves first self.old → Self.preserves first self.new }
        ensures lacks_memory_now { OnErr result Self.may_lack_memory }
        ensures is_unchanged { OnErr result (output.new ≡ output.old) };

    // Each line may get a reply.
    ghost some_answer: { (s : Self.Setting) (now : Self.State) (line : List ℕ) → (next : Self.State) × (reply : List ℕ) × Self.answers s now line next reply };
}

/// Numbers the lines of the input and answers each of them, in order, until the line handler ends the run. Then it puts the last
/// text. No line is read after the one at which the run ends.
///
/// The replies are out before each read that may wait, and at the end. The handler then represents the final state. A value to
/// which `preserves` relates the handler before the run is related to it afterwards, even if a device failed.
///
/// The error is a failed device, or out of memory before the first line or for the last text.
pub fn run_lines<A: LineHandler, S: Source, K: Sink>(
    alloc: Global,
    handler: &mut A,
    input: &mut Input<S>,
    output: &mut Output<K>,
) -> Result<(), RunFault>
    requires input { input.old.failures ≡ 0 }
    requires output { output.old.failures ≡ 0 }
    requires none_held { output.old.held ≡ [] }
    ensures preserves { (first : A) → A.preserves first handler.old → A.preserves first handler.new }
    ensures runs { (first : A.State) → A.represents handler.old 0 first → A.ends first ≡ false
        → RunsOver (StepsUntilEnd A.ends (A.answers (A.setting handler.old))) (ClosesAs (A.closes (A.setting handler.old)) (AfterSomeLines (A.represents handler.new))) A.may_lack_memory first input.old input.new output.old output.new result }
    ensures takes { (first : A.State) → A.represents handler.old 0 first → A.ends first ≡ false
        → TakesNoMore A.ends (A.answers (A.setting handler.old)) (AfterSomeLines (A.represents handler.new)) first input.old input.new result }
{
    let mut line = Line::new(alloc)?;
    for count in 0..most_lines() {
        flush_before_waiting(input, output);
        if output.has_failed() {
            return Err(RunFault::Output);
        }
        match input.read_line(&mut line) {
            Err(_) => return Err(RunFault::Input),
            Ok(false) => return finish(alloc, handler, output),
            Ok(true) => {
                if !handler.answer(alloc, count + 1, line.as_bytes(), output) {
                    return finish(alloc, handler, output);
                }
            }
        }
    }
    finish(alloc, handler, output)
}

/// Puts the last text, and flushes what is left, even if memory runs out for that text.
fn finish<A: LineHandler, K: Sink>(
    alloc: Global,
    handler: &mut A,
    output: &mut Output<K>,
) -> Result<(), RunFault>
    ensures closed { (lines : ℕ) (now : A.State) → A.represents handler.old lines now
        → Closes (A.closes (A.setting handler.old)) now output.old output.new ⊎ Puts output.old output.new [] }
    ensures represented { (lines : ℕ) (now : A.State) → A.represents handler.old lines now → A.represents handler.new lines now }
    ensures preserves { (first : A) → A.preserves first handler.old → A.preserves first handler.new }
    ensures ok { OnOk result ((output.new.failures ≡ 0) × IsOut output.new) }
    ensures ok_closed { (lines : ℕ) (now : A.State) → A.represents handler.old lines now
        → OnOk result (Closes (A.closes (A.setting handler.old)) now output.old output.new) }
    ensures err { IfErr result (λ fault. ((fault ≡ RunFault.Output) × (0 < output.new.failures))
        ⊎ ((fault ≡ RunFault.NoMemory) × FailsToClose A.may_lack_memory output.old output.new)) }
{
    let closed = handler.close(alloc, output);
    output.flush();
    if output.has_failed() {
        return Err(RunFault::Output);
    }
    match closed {
        Ok(()) => Ok(()),
        Err(AllocError) => Err(RunFault::NoMemory),
    }
}
