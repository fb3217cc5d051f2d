//! A minimal engine that numbers the lines of an input, proved as each engine is.

ghost use Rattle.std.specs.Prelude.{◌≡◌, ◌+◌, ◌<◌, ◌≤◌, ◌^◌, ◌⊎◌, ℕ, [], ◌++◌, codes, decimal, OnOk, IfOk, IfErr, IfSome, IsTrue};
ghost use Rattle.line_devices.specs.Runs.{AppendsRun, AppendsRunPrefix, TakesLines, first_lines};
ghost use Rattle.reg_lines_tests.specs.Numbered.{numbered};
ghost use Rattle.line_devices.specs.Stream.{IsOut, Puts};

use line_devices::{CountedDevice, Input, Line, Output, Sink, Source, flush_before_waiting};
use reg_lines::print_number;
use std::alloc::Global;

/// Why the engine failed.
#[derive(Drop)]
pub(crate) enum Ended {
    Input,
    Output,
}

fn put_numbered<W: Sink>(number: u64, line: &[u8], output: &mut Output<W>)
    ensures { Puts output.old output.new (decimal number ++ codes ":" ++ line.now) }
{
    print_number(number, output);
    output.put(b":");
    output.put(line);
}

fn finish<W: Sink>(output: &mut Output<W>) -> Result<(), Ended>
    ensures put { Puts output.old output.new [] }
    ensures ok { OnOk result ((output.new.failures ≡ 0) × IsOut output.new) }
    ensures err { IfErr result (λ e. (e ≡ Ended.Output) × (0 < output.new.failures)) }
{
    output.flush();
    if output.has_failed() {
        return Err(Ended::Output);
    }
    Ok(())
}

/// Writes each line, as far as it is kept, after its number.
pub(crate) fn number_lines<R: Source, W: Sink>(
    input: &mut Input<R>,
    output: &mut Output<W>,
    line: &mut Line,
    most: u64,
) -> Result<(), Ended>
    requires input { input.old.failures ≡ 0 }
    requires output { output.old.failures ≡ 0 }
    requires none_held { output.old.held ≡ [] }
    requires most { most < 2 ^ 63 }
    ensures text { OnOk result (IfSome input.old.left (λ bytes.
        AppendsRun numbered 0 (first_lines most bytes) output.old.written output.new.written)) }
    ensures input_failed { IfErr result (λ e. e ≡ Ended.Input → 0 < input.new.failures) }
    ensures output_failed { IfErr result (λ e. e ≡ Ended.Output → 0 < output.new.failures) }
    ensures so_far { IfErr result (λ e. e ≡ Ended.Input → IfSome input.old.left (λ bytes. (count : ℕ)
        × TakesLines count bytes input.new.left
        × AppendsRun numbered 0 (first_lines count bytes) output.old.written output.new.written)) }
    ensures front { IfSome input.old.left (λ bytes.
        AppendsRunPrefix numbered 0 (first_lines most bytes) output.old.written output.new.written) }
{
    for index in 0..most {
        flush_before_waiting(input, output);
        if output.has_failed() {
            return Err(Ended::Output);
        }
        match input.read_line(line) {
            Err(_) => return Err(Ended::Input),
            Ok(false) => return finish(output),
            Ok(true) => put_numbered(index + 1, line.as_bytes(), output),
        }
    }
    finish(output)
}

/// The same over memory, where all bytes are known.
pub(crate) fn number_text(
    alloc: Global,
    text: &[u8],
    line: &mut Line,
    most: u64,
) -> Result<Vec<u8>, Ended>
    requires { most < 2 ^ 63 }
    ensures { IfOk result (λ v. AppendsRun numbered 0 (first_lines most text.now) (Some []) (Some v.items)) }
{
    let mut input = Input::new(CountedDevice::new(text));
    let mut output = Output::new(CountedDevice::new(Vec::new(alloc)));
    number_lines(&mut input, &mut output, line, most)?;
    Ok(output.into_sink().into_inner())
}
