//! How much of a line is kept, and how many lines of an input are read?

ghost use Rattle.std.specs.Prelude.{◌≡◌, ◌<◌, ◌^◌};
ghost use Rattle.line_devices.specs.Lines.{most_lines};

/// The maximum number of bytes that are kept of a line: one more than the limit for a request line, so
/// that the kept bytes show whether a line is over the limit.
pub const KEPT_BYTES: usize = 1_048_577;

/// The maximum number of lines that are read from an input, 2^48. After them a run ends as at the end of
/// the input, so that line numbers and counts of calls fit a `u64` for any input.
#[tactic(auto, unfolding(crate::specs::Lines::most_lines))]
pub fn most_lines() -> u64
    ensures value { result ≡ most_lines }
    ensures small { result < 2 ^ 63 }
{
    1 << 48
}
