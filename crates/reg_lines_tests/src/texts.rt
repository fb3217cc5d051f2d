//! What is printed for texts, numbers and lists?

use crate::tables::{ReadAs, asserts_table};
use std::test::Fail;

/// Texts, with characters that aren't letters: of one byte, of two, three and four.
const TEXTS: &str = r#"
text  => ""
text plain => "plain"
text a"b\c/d => "a\"b\\c/d"
text «08»«09»«0a»«0c»«0d» => "\b\t\n\f\r"
text «00»«01»«0b»«0e»«1f»«20» => "\u0000\u0001\u000b\u000e\u001f "
text «7f»«c2»«80»ü«e2»«80»«a8»😀 => "«7f»«c2»«80»ü«e2»«80»«a8»😀"
"#;

#[test]
fn texts_have_the_escapes_of_their_kind(rt: HostRuntime) -> Result<(), Fail> {
    asserts_table(&rt, rt.alloc(), ReadAs::Value, TEXTS)
}

const OTHERS: &str = "
number 0 => 0
number 10 => 10
number 18446744073709551615 => 18446744073709551615
lists  => []
lists 1 2; 30 4 => [[1,2],[30,4]]
some 7 => 7
none => null
";

#[test]
fn numbers_lists_and_nothing_are_printed_compactly(rt: HostRuntime) -> Result<(), Fail> {
    asserts_table(&rt, rt.alloc(), ReadAs::Value, OTHERS)
}
