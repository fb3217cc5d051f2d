//! What is printed if a seat of a shared registry has no answer?

use crate::tables::{ReadAs, asserts_table};
use reg_lines::printed_seats_law;
use std::test::Fail;

const REFUSED: &str = r#"
refused-seat 5 spent => {"code":"L7","line":5}
refused-seat 5 no-entry => {"code":"L8","line":5}
"#;

#[test]
fn a_seat_with_no_answer_reports_the_line(rt: HostRuntime) -> Result<(), Fail> {
    printed_seats_law();
    asserts_table(&rt, rt.alloc(), ReadAs::Value, REFUSED)
}
