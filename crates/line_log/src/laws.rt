//! Which theorems hold for files of logs?
//!
//! Each function has an empty body. Its contract is a theorem about the definitions, stated in `specs/Laws.antt`; a caller may rely on
//! the theorem after the call.

ghost use Rattle.line_log.specs.Laws.{NeverDamaged, NeverTooLong, OneListOfLines};

/// No good file is refused as damaged or for a long line, and none that a crash left of a good one (`LineLog::append`,
/// `LogReader::finish`). The lines of a file are known: no other lines have the same text with hashes.
pub fn good_files()
    ensures never_damaged { NeverDamaged }
    ensures never_too_long { NeverTooLong }
    ensures one_list { OneListOfLines }
{}
