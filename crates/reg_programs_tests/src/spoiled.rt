//! The records of schedules with one digit changed: the audit says no.

use crate::audits::is_denied;
use crate::engine::answers_of_words;
use crate::records::{
    EARLY_QUESTION_RECORDS, IN_TURN_RECORDS, PHANTOM_RECORDS, REPEAT_RECORDS, UNREPLIED_RECORDS,
    WRITE_SKEW_RECORDS,
};
use crate::wanted::holds;
use line_engines::RunEnd;
use std::alloc::Global;
use std::process::Abort;
use std::test::Fail;

/// The records of each schedule of `records`.
const LOGS: [&str; 6] = [
    PHANTOM_RECORDS,
    WRITE_SKEW_RECORDS,
    EARLY_QUESTION_RECORDS,
    UNREPLIED_RECORDS,
    REPEAT_RECORDS,
    IN_TURN_RECORDS,
];

/// The next digit, and 0 after 9.
fn next_digit(digit: u8) -> u8 {
    if digit < b'9' { digit + 1 } else { b'0' }
}

/// Asserts that the audit of these records says no if the digit at this index is the next one.
fn is_noticed(rt: &impl Abort, alloc: Global, log: &str, index: usize) -> Result<(), Fail> {
    let mut spoiled = Vec::from_slice(alloc, log.as_bytes())?;
    if let Some(digit) = spoiled.get_mut(index) {
        *digit = next_digit(*digit);
    }
    let line = "regd|audit|--domain|ex.org";
    let verdict = answers_of_words(rt, alloc, line, RunEnd::Denied, &spoiled)?;
    let verdict = str::from_utf8(&verdict)?;
    holds(rt, verdict.starts_with("{\"audit\":\"no\","), verdict);
    Ok(())
}

/// The text with `_` for each digit.
fn hidden(alloc: Global, text: &str) -> Result<String, Fail> {
    let mut hidden = String::new(alloc);
    for character in text.chars() {
        let is_digit = matches!(character, '0'..='9');
        hidden.push(if is_digit { '_' } else { character })?;
    }
    Ok(hidden)
}

/// The batch of a record with this reply, with `_` for each digit that doesn't count.
fn mask_of_batch(alloc: Global, batch: &str, reply: &str) -> Result<String, Fail> {
    let is_shown = reply.ends_with(":\"committed\"}}") || reply.ends_with(":\"repeated\"}}");
    if !is_shown {
        return hidden(alloc, batch);
    }
    let (start, ops) = batch.split_once(",\"ops\":").ok_or("no operations")?;
    let start = hidden(alloc, start)?;
    Ok(format!(in alloc; "{start},\"ops\":{ops}")?)
}

/// A record with `_` for each digit that doesn't count.
fn mask_of_record(alloc: Global, record: &str) -> Result<String, Fail> {
    let (batch, rest) = record.split_once(",\"call\":").ok_or("no call")?;
    let (call, rest) = rest.split_once(",\"invoked\":").ok_or("no stamps")?;
    let (stamps, reply) = rest.split_once(",\"reply\":").ok_or("no reply")?;
    let batch = mask_of_batch(alloc, batch, reply)?;
    let stamps = hidden(alloc, stamps)?;
    Ok(format!(in alloc; "{batch},\"call\":{call},\"invoked\":{stamps},\"reply\":{reply}\n")?)
}

/// Records with `_` for each digit that doesn't count.
fn mask_of(alloc: Global, log: &str) -> Result<String, Fail> {
    let mut mask = String::new(alloc);
    for record in log.lines() {
        mask.push_str(mask_of_record(alloc, record)?.as_str())?;
    }
    Ok(mask)
}

/// Asserts that the audit of these records notices each digit that counts if it is another one.
fn are_noticed(rt: &impl Abort, alloc: Global, log: &str) -> Result<(), Fail> {
    let mask = mask_of(alloc, log)?;
    for (index, byte) in mask.as_bytes().iter().enumerate() {
        if matches!(*byte, b'0'..=b'9') {
            is_noticed(rt, alloc, log, index)?;
        }
    }
    Ok(())
}

/// A digit counts if it is in the number of the call, in the reply, or in the operations or the token of a batch that was committed
/// or repeated: the reply shows the rows that it wrote, and the repeat the token. The audit can't know that another number is wrong
/// in `after`, or in a batch whose reply doesn't show it. The next test is about `invoked` and `replied`.
#[test]
fn one_changed_digit_of_a_record_is_noticed(rt: HostRuntime) -> Result<(), Fail> {
    for log in LOGS {
        are_noticed(&rt, rt.alloc(), log)?;
    }
    Ok(())
}

/// Each line of the table is a part of the records, the same with one digit changed, and the verdict on the changed records.
fn stamps_are_noticed(rt: &impl Abort, alloc: Global, log: &str, table: &str) -> Result<(), Fail> {
    for case in table.lines() {
        if let Some((stamps, rest)) = case.split_once(" => ") {
            let (others, verdict) = rest.split_once(" => ").ok_or("no verdict")?;
            let spoiled = log.replace(alloc, stamps, others)?;
            is_denied(rt, alloc, spoiled.as_bytes(), verdict)?;
        }
    }
    Ok(())
}

const PHANTOM_STAMPS: &str = r#"
"invoked":11,"replied":17 => "invoked":17,"replied":17 => {"audit":"no","line":2,"why":"stamps"}
"invoked":11,"replied":17 => "invoked":11,"replied":11 => {"audit":"no","line":2,"why":"stamps"}
"#;

const WRITE_SKEW_STAMPS: &str = r#"
"invoked":1,"replied":5 => "invoked":5,"replied":5 => {"audit":"no","line":1,"why":"stamps"}
"invoked":1,"replied":5 => "invoked":1,"replied":0 => {"audit":"no","line":1,"why":"stamps"}
"#;

const EARLY_QUESTION_STAMPS: &str = r#"
"invoked":1,"replied":10 => "invoked":9,"replied":10 => {"audit":"no","line":2,"why":"order"}
"invoked":3,"replied":8 => "invoked":8,"replied":8 => {"audit":"no","line":2,"why":"stamps"}
"invoked":3,"replied":8 => "invoked":3,"replied":3 => {"audit":"no","line":2,"why":"stamps"}
"invoked":3,"replied":8 => "invoked":3,"replied":0 => {"audit":"no","line":2,"why":"stamps"}
"#;

const REPEAT_STAMPS: &str = r#"
"invoked":1,"replied":6 => "invoked":7,"replied":6 => {"audit":"no","line":1,"why":"stamps"}
"invoked":1,"replied":6 => "invoked":1,"replied":1 => {"audit":"no","line":1,"why":"stamps"}
"#;

const IN_TURN_STAMPS: &str = r#"
"invoked":1,"replied":null => "invoked":8,"replied":null => {"audit":"no","line":2,"why":"order"}
"invoked":5,"replied":7 => "invoked":9,"replied":7 => {"audit":"no","line":2,"why":"stamps"}
"invoked":5,"replied":7 => "invoked":5,"replied":4 => {"audit":"no","line":2,"why":"stamps"}
"#;

/// Another stamp may be as true, unless a call then replied before its invocation, or before that of the call of an earlier record.
#[test]
fn a_changed_stamp_that_puts_a_reply_too_early_is_noticed(rt: HostRuntime) -> Result<(), Fail> {
    stamps_are_noticed(&rt, rt.alloc(), PHANTOM_RECORDS, PHANTOM_STAMPS)?;
    stamps_are_noticed(&rt, rt.alloc(), WRITE_SKEW_RECORDS, WRITE_SKEW_STAMPS)?;
    let log = EARLY_QUESTION_RECORDS;
    stamps_are_noticed(&rt, rt.alloc(), log, EARLY_QUESTION_STAMPS)?;
    stamps_are_noticed(&rt, rt.alloc(), REPEAT_RECORDS, REPEAT_STAMPS)?;
    stamps_are_noticed(&rt, rt.alloc(), IN_TURN_RECORDS, IN_TURN_STAMPS)
}
