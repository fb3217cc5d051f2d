//! Which line reports that a seat doesn't answer a request?

ghost use Rattle.std.specs.Prelude.{◌≡◌};
ghost use Rattle.reg_lines.specs.SeatLines.{seat_code, seat_refusal_json};

use crate::printing::print_json::PrintJson;
use crate::printing::refusal::print_refused_line;
use line_devices::{Output, Sink};

/// Why a seat of a shared registry doesn't answer a valid request.
#[derive(Clone, Copy, Debug, PartialEq, Eq, Drop)]
pub enum SeatRefusal {
    /// The seat has no call number left.
    Spent,
    /// The seat couldn't enter the registry.
    NoEntry,
}

impl SeatRefusal {
    /// Returns the refusal's code, as it is printed.
    pub fn code(self) -> &'static str
        ensures { result.now ≡ seat_code self }
    {
        match self {
            SeatRefusal::Spent => "L7",
            SeatRefusal::NoEntry => "L8",
        }
    }
}

/// Why a seat doesn't answer a request, with the number of its line.
///
/// It is printed as an object with the refusal's `code` and the `line`. Printing takes no memory.
#[derive(Clone, Copy, Debug, PartialEq, Eq, Drop)]
pub struct SeatRefused {
    /// The line's number, counted from 1.
    pub line: u64,
    /// Why the seat doesn't answer.
    pub refusal: SeatRefusal,
}

impl PrintJson for SeatRefused {
    ghost text = { λ r. seat_refusal_json r.line r.refusal };

    fn print_to<S: Sink>(&self, output: &mut Output<S>) {
        print_refused_line(self.line, self.refusal.code(), output);
    }
}
