//! Which version is this?

ghost use Rattle.std.specs.Prelude.{◌≡◌};
ghost use Rattle.command_line.specs.Versions.{version_text};

/// The version of all programs: the text of the file `VERSION` at the top of the repository. `tests/layout/version` compares them.
pub(crate) const VERSION: &str = "1.0+unreleased";

/// What `--version` prints: the version, and the logic of the toolchain with which the program is proved, as `rt version` prints it.
const VERSION_TEXT: &str = "regd 1.0+unreleased\nlogic dac8208d650f15bf\n";

/// Returns what `--version` prints.
pub fn version_text() -> &'static str
    ensures { result.now ≡ version_text }
{
    VERSION_TEXT
}
