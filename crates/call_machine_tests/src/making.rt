//! Events from the words of a text.

use call_events::Event;
use std::alloc::Global;
use std::test::Fail;
use test_batches::batch;

/// The event of a call that isn't its invoke.
fn event_of(kind: &str, call: u64) -> Result<Event, Fail> {
    match kind {
        "begin" => Ok(Event::Begin(call)),
        "step" => Ok(Event::Step(call)),
        "commit" => Ok(Event::Commit(call)),
        "reply" => Ok(Event::Reply(call)),
        _ => Err(Fail::from("no such event")),
    }
}

/// The invoke of a text: a call, and its batch.
fn invoke(alloc: Global, text: &str) -> Result<Event, Fail> {
    match text.split_once(" ") {
        Some((call, text)) => Ok(Event::Invoke(call.parse::<u64>()?, batch(alloc, text)?)),
        None => Err(Fail::from("no batch")),
    }
}

/// The event of a text: its kind and its call, and after an invoke the batch.
pub fn event(alloc: Global, text: &str) -> Result<Event, Fail> {
    if let Some(text) = text.strip_prefix("invoke ") {
        return invoke(alloc, text);
    }
    match text.split_once(" ") {
        Some((kind, call)) => event_of(kind, call.parse::<u64>()?),
        None => Err(Fail::from("no call")),
    }
}

/// A batch that sets this many bundles, of domains with consecutive numbers.
pub fn bundles(alloc: Global, first: u64, count: u64) -> Result<String, Fail> {
    let mut text = String::new(alloc);
    for index in 0..count {
        let space = if text.is_empty() { "" } else { "; " };
        let number = first.wrapping_add(index);
        text.push_str(format!(in alloc; "{space}set_bundle b{number}")?.as_str())?;
    }
    Ok(text)
}
