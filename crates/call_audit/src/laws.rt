//! What do records without a fault guarantee, which records have none, and is a verdict one line?
//!
//! The bodies do nothing. Each contract is a theorem, stated in `specs/Follows.antt`, `specs/Verdicts.antt`,
//! `specs/Confirmed.antt` and `specs/Texts.antt`; a caller may rely on it after the call.

ghost use Rattle.call_audit.specs.Confirmed.{ConfirmedAreAudited};
ghost use Rattle.call_audit.specs.Follows.{FaultlessAreHistory, HistoryIsFaultless};
ghost use Rattle.call_audit.specs.Texts.{VerdictsHaveNoLf};
ghost use Rattle.call_audit.specs.Verdicts.{HistoryIsYes, NoIsFirst, YesIsHistory};

use line_devices::lines_law;
use reg_lines::{one_line_law, printed_law, read_back_law};

/// Records without a fault, each after those before it, are a history, and so are those of lines whose verdict is yes. A no
/// gives the first line with a fault after such a history, and the first cause that applies.
pub fn audited_law()
    ensures history { FaultlessAreHistory }
    ensures yes { YesIsHistory }
    ensures no { NoIsFirst }
{}

/// The verdict of a history is never no: its records have no fault, and the verdict of lines that parse to them is yes. The same
/// holds for the lines of the records of calls whose replies the plain book gives in an order that respects real time, if each
/// line is short enough to be read.
pub fn confirmed_law()
    ensures faultless { HistoryIsFaultless }
    ensures yes { HistoryIsYes }
    ensures calls { ConfirmedAreAudited }
{
    read_back_law();
    one_line_law();
    lines_law();
    printed_law();
}

/// The line that is printed for a verdict contains no line feed.
pub fn verdict_line_law()
    ensures { VerdictsHaveNoLf }
{
    one_line_law();
}
