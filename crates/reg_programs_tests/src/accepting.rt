//! Which errors of `accept` end a server?

ghost use Rattle.std.specs.Prelude.{◌≡◌};

use crate::hosting::{Hosted, InTurn, Plan, host};
use crate::serving::{FIRST_ANSWERS, FIRST_LINES};
use crate::wanted::{holds, holds_at, is_text};
use reg_programs::ServeFault;
use std::alloc::Global;
use std::process::Abort;
use std::test::Fail;

/// The errors of one connection in accept(2) of Linux: ECONNABORTED, EPROTO, ENOPROTOOPT, EOPNOTSUPP, ENETDOWN, ENETUNREACH,
/// EHOSTDOWN, EHOSTUNREACH, ENONET, ETIMEDOUT, ENOSR, ESOCKTNOSUPPORT, EPROTONOSUPPORT. Then the shortages: EMFILE, ENFILE,
/// ENOMEM, ENOBUFS, EPERM.
const RETRIED: [i32; 18] = [
    103, 71, 92, 95, 100, 101, 112, 113, 64, 110, 63, 94, 93, 24, 23, 12, 105, 1,
];

/// The largest number of an error of Linux; they begin at 1.
const LAST_ERROR: i32 = 133;

const ABORTED: i32 = 103;

const BAD_LISTENER: i32 = 9;

const SHORTAGES: [i32; 5] = [24, 23, 12, 105, 1];

/// Errors, each the given number of times in a row; 0 is a connection.
fn errors_of(alloc: Global, runs: &[(i32, u32)]) -> Result<Vec<i32>, Fail> {
    let mut errors = Vec::new(alloc);
    for run in runs {
        let (error, times) = *run;
        for _ in 0..times {
            errors.push(error)?;
        }
    }
    Ok(errors)
}

/// A plan for these errors, with a sleeping worker for each connection.
fn plan_of(errors: &[i32], connections: u64) -> Plan<'_>
    ensures { result.workers ≡ 2 }
{
    Plan {
        workers: 2,
        connections,
        errors,
        waits: true,
        line_time: None,
    }
}

/// Asserts that the server succeeded after this number of errors, with a pause after each, and what it replied.
fn is_served(rt: &impl Abort, hosted: &Hosted, errors: u64, connections: u64, expected: &str) {
    holds(rt, hosted.ended.is_ok(), "the server ends well");
    holds_at(rt, hosted.pauses == errors, "pauses", hosted.pauses);
    let accepts = errors.saturating_add(connections);
    holds_at(rt, hosted.accepts == accepts, "accepts", hosted.accepts);
    is_text(rt, hosted.answers.as_str(), expected, "all answers");
}

/// Asserts that the last of this number of errors ended the server.
fn is_ended(rt: &impl Abort, hosted: &Hosted, errors: u64) {
    let ended = hosted.ended == Err(ServeFault::Accept);
    holds(rt, ended, "the server ends by its listener");
    holds_at(rt, hosted.accepts == errors, "accepts", hosted.accepts);
    let pauses = errors.saturating_sub(1);
    holds_at(rt, hosted.pauses == pauses, "pauses", hosted.pauses);
}

#[test]
fn errors_of_one_connection_and_shortages_are_retried(rt: HostRuntime) -> Result<(), Fail> {
    let plan = plan_of(&RETRIED, 1);
    let hosted = host(&rt, rt.alloc(), plan, &InTurn(&[FIRST_LINES]))?;
    is_served(&rt, &hosted, 18, 1, FIRST_ANSWERS);
    Ok(())
}

#[test]
fn any_other_error_ends_a_server_and_its_workers_at_once(rt: HostRuntime) -> Result<(), Fail> {
    for error in 1..=LAST_ERROR {
        if !RETRIED.contains(&error) {
            let errors = [error];
            let hosted = host(&rt, rt.alloc(), plan_of(&errors, 1), &InTurn(&[]))?;
            is_ended(&rt, &hosted, 1);
        }
    }
    Ok(())
}

#[test]
fn a_thousand_shortages_before_the_first_connection_end_a_server(
    rt: HostRuntime,
) -> Result<(), Fail> {
    for error in SHORTAGES {
        let errors = errors_of(rt.alloc(), &[(error, 1_100), (BAD_LISTENER, 1)])?;
        let hosted = host(&rt, rt.alloc(), plan_of(&errors, 1), &InTurn(&[]))?;
        is_ended(&rt, &hosted, 1_000);
    }
    Ok(())
}

#[test]
fn no_number_of_errors_of_one_connection_ends_a_server(rt: HostRuntime) -> Result<(), Fail> {
    for error in RETRIED {
        if !SHORTAGES.contains(&error) {
            let errors = errors_of(rt.alloc(), &[(error, 1_100)])?;
            let plan = plan_of(&errors, 1);
            let hosted = host(&rt, rt.alloc(), plan, &InTurn(&[FIRST_LINES]))?;
            is_served(&rt, &hosted, 1_100, 1, FIRST_ANSWERS);
        }
    }
    Ok(())
}

/// An error of one connection comes in between: there are never a thousand in a row.
#[test]
fn fewer_shortages_in_a_row_end_no_server(rt: HostRuntime) -> Result<(), Fail> {
    let errors = errors_of(rt.alloc(), &[(24, 999), (ABORTED, 1), (105, 999)])?;
    let hosted = host(
        &rt,
        rt.alloc(),
        plan_of(&errors, 1),
        &InTurn(&[FIRST_LINES]),
    )?;
    is_served(&rt, &hosted, 1_999, 1, FIRST_ANSWERS);
    Ok(())
}

#[test]
fn no_number_of_shortages_ends_a_server_that_has_accepted_a_connection(
    rt: HostRuntime,
) -> Result<(), Fail> {
    let errors = errors_of(rt.alloc(), &[(0, 1), (23, 1_100), (1, 1_100)])?;
    let callers = InTurn(&[FIRST_LINES, ""]);
    let hosted = host(&rt, rt.alloc(), plan_of(&errors, 2), &callers)?;
    is_served(&rt, &hosted, 2_200, 2, FIRST_ANSWERS);
    Ok(())
}
