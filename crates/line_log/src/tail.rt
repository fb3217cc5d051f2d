//! How does the file of a log get its end back after a crash?

ghost use Rattle.std.specs.Prelude.{◌≡◌, ◌+◌, ◌<◌, ◌≤◌, ◌^◌, ℕ, Bool, false, List, length, slice_index, IsTrue, IfErr, OnOk};
ghost use Rattle.line_log.specs.WritingPrivate.{IsDiskFault};
ghost use Rattle.sqlite_disk.specs.Disk.{Only};
ghost use Rattle.line_log.specs.Lines.{lines_in, text_of};
ghost use Rattle.line_log.specs.Log.{BeginsWith, IsAtRest, KeepsLines, IsShutAt};

use crate::error::LogError;
use sqlite_disk::Disk;

/// Leaves a byte behind the lines that begins none, if there is a byte. The lines end at `end`, and `has_brace` says whether a `{`
/// follows them.
pub(crate) fn overwrite_brace<D: Disk>(
    disk: &mut D,
    end: usize,
    has_brace: bool,
) -> Result<(), LogError>
    requires usable { IsTrue (D.Disk.is_usable disk.old) }
    requires short { end ≤ 2 ^ 60 }
    requires durable { Only (D.Disk.seen disk.old) (D.Disk.may_leave disk.old) }
    requires end { IsTrue (D.Disk.is_clean disk.old) → end ≡ length (text_of (lines_in (D.Disk.seen disk.old))) }
    requires within { IsTrue (D.Disk.is_clean disk.old) → IsTrue has_brace → end < length (D.Disk.seen disk.old) }
    requires brace { IsTrue (D.Disk.is_clean disk.old) → IsTrue has_brace → slice_index (D.Disk.seen disk.old) end ≡ 123 }
    requires shut { IsTrue (D.Disk.is_clean disk.old) → has_brace ≡ false → IsShutAt (D.Disk.seen disk.old) end }
    ensures usable { OnOk result (IsTrue (D.Disk.is_usable disk.new)) }
    ensures clean { D.Disk.is_clean disk.new ≡ D.Disk.is_clean disk.old }
    ensures durable { OnOk result (Only (D.Disk.seen disk.new) (D.Disk.may_leave disk.new)) }
    ensures front { OnOk result (IsTrue (D.Disk.is_clean disk.old) → BeginsWith (D.Disk.seen disk.new) (lines_in (D.Disk.seen disk.old)) end) }
    ensures shut { OnOk result (IsTrue (D.Disk.is_clean disk.old) → IsShutAt (D.Disk.seen disk.new) end) }
    ensures justified { IfErr result (λ e. IsDiskFault (D.Disk.faults disk.old) (D.Disk.faults disk.new) e) }
    ensures faults { OnOk result (D.Disk.faults disk.new ≡ D.Disk.faults disk.old) }
    ensures any_moment { IsTrue (D.Disk.is_clean disk.old) → (c : List ℕ) → D.Disk.may_leave disk.new c → KeepsLines D.Disk.is_mixing (D.Disk.seen disk.old) c }
{
    if has_brace {
        disk.write_at(end, b"\x1e")?;
        disk.sync()?;
    }
    Ok(())
}

/// Cuts off what is behind the lines, and leaves a filler there.
pub(crate) fn cut_tail<D: Disk>(disk: &mut D, end: usize) -> Result<(), LogError>
    requires usable { IsTrue (D.Disk.is_usable disk.old) }
    requires short { end ≤ 2 ^ 60 }
    requires durable { Only (D.Disk.seen disk.old) (D.Disk.may_leave disk.old) }
    requires front { IsTrue (D.Disk.is_clean disk.old) → BeginsWith (D.Disk.seen disk.old) (lines_in (D.Disk.seen disk.old)) end }
    requires shut { IsTrue (D.Disk.is_clean disk.old) → IsShutAt (D.Disk.seen disk.old) end }
    ensures usable { OnOk result (IsTrue (D.Disk.is_usable disk.new)) }
    ensures clean { D.Disk.is_clean disk.new ≡ D.Disk.is_clean disk.old }
    ensures durable { OnOk result (Only (D.Disk.seen disk.new) (D.Disk.may_leave disk.new)) }
    ensures rest { OnOk result (IsTrue (D.Disk.is_clean disk.old) → IsAtRest (D.Disk.seen disk.new) end) }
    ensures len { OnOk result (length (D.Disk.seen disk.new) ≡ end + 1) }
    ensures same { OnOk result (IsTrue (D.Disk.is_clean disk.old) → lines_in (D.Disk.seen disk.new) ≡ lines_in (D.Disk.seen disk.old)) }
    ensures justified { IfErr result (λ e. IsDiskFault (D.Disk.faults disk.old) (D.Disk.faults disk.new) e) }
    ensures faults { OnOk result (D.Disk.faults disk.new ≡ D.Disk.faults disk.old) }
    ensures any_moment { IsTrue (D.Disk.is_clean disk.old) → (c : List ℕ) → D.Disk.may_leave disk.new c → KeepsLines D.Disk.is_mixing (D.Disk.seen disk.old) c }
{
    disk.set_len(end + 1)?;
    disk.sync()?;
    disk.write_at(end, b"\x1e")?;
    disk.sync()?;
    Ok(())
}
