//! What does a server without a last connection write to standard error?

use crate::hosting::{InTurn, Plan, host};
use crate::serving::{FIRST_ANSWERS, FIRST_LINES};
use crate::wanted::{holds, is_text};
use reg_programs::{Counts, ServeFault};
use std::process::Abort;
use std::test::Fail;
use std::time::Duration;

const SHORTAGE: i32 = 24;

const BAD_LISTENER: i32 = 9;

/// A connection, a hundred failures in a row, which are reported, and the end of the listener.
fn failing() -> [i32; 102] {
    let mut errors = [SHORTAGE; 102];
    errors[0] = 0;
    errors[101] = BAD_LISTENER;
    errors
}

#[test]
fn failures_in_a_row_and_the_end_are_reported(rt: HostRuntime) -> Result<(), Fail> {
    let errors = failing();
    let plan = Plan {
        workers: 1,
        connections: 2,
        errors: &errors,
        waits: false,
        line_time: Some(Duration::from_secs(3_600)),
    };
    let hosted = host(&rt, rt.alloc(), plan, &InTurn(&[FIRST_LINES]))?;
    let ended = hosted.ended == Err(ServeFault::Accept);
    holds(&rt, ended, "the server ends by its listener");
    is_text(&rt, hosted.answers.as_str(), FIRST_ANSWERS, "the answers");
    let counts = Counts {
        accepted: 1,
        begun: 1,
        ended: 1,
        failures: 101,
    };
    holds(&rt, hosted.counts == counts, "the counts");
    let lines = hosted.logged.as_str();
    let first = "regd: accept has failed 10";
    holds(&rt, lines.starts_with(first), lines);
    let last = "\nregd: served: 1 connections accepted, 1 begun, 1 ended\n";
    holds(&rt, lines.ends_with(last), lines);
    Ok(())
}

/// A line a millisecond: all but the last one say that it serves.
#[test]
fn a_line_is_written_when_its_time_has_passed(rt: HostRuntime) -> Result<(), Fail> {
    let plan = Plan {
        workers: 2,
        connections: 2,
        errors: &[],
        waits: true,
        line_time: Some(Duration::from_millis(1)),
    };
    let hosted = host(&rt, rt.alloc(), plan, &InTurn(&[FIRST_LINES, ""]))?;
    holds(&rt, hosted.ended.is_ok(), "the server ends well");
    let lines = hosted.logged.as_str();
    let Some((before, last)) = lines.rsplit_once("regd: served: ") else {
        return Err(Fail::from("no last line"));
    };
    is_text(
        &rt,
        last,
        "2 connections accepted, 2 begun, 2 ended\n",
        "the last line",
    );
    for line in before.lines() {
        holds(&rt, line.starts_with("regd: serving: "), line);
    }
    Ok(())
}

/// Twice 99 failures, with a connection in between: there are never a hundred in a row.
#[test]
fn a_connection_ends_the_row_of_failures(rt: HostRuntime) -> Result<(), Fail> {
    let mut errors = [SHORTAGE; 199];
    errors[99] = 0;
    let plan = Plan {
        workers: 1,
        connections: 2,
        errors: &errors,
        waits: false,
        line_time: Some(Duration::from_secs(3_600)),
    };
    let hosted = host(&rt, rt.alloc(), plan, &InTurn(&[FIRST_LINES, ""]))?;
    holds(&rt, hosted.ended.is_ok(), "the server ends well");
    let expected = "regd: served: 2 connections accepted, 2 begun, 2 ended\n";
    is_text(&rt, hosted.logged.as_str(), expected, "the lines");
    Ok(())
}
