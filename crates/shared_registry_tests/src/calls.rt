//! What replies do eight threads get that run batches on a registry concurrently?

use crate::failed::Failed;
use crate::site::Site;
use crate::talks::{THREADS, Talk, lines_of};
use crate::telling::{kind_of, place_of};
use crate::turnstile::Turnstile;
use crate::wanted::{holds, is_number, is_text};
use shared_registry::{RegistryId, Seat};
use std::alloc::Global;
use std::process::Abort;
use std::sync::Wait;
use std::thread::{Threads, map_indices};
use std::time::Clock;
use test_batches::{batch_text, below};

/// A line that a thread ran, and the reply to it.
#[derive(Drop)]
pub struct Call {
    pub text: String,
    pub reply: String,
}

/// Returns true if the reply is that to a batch, and not to a letter.
pub fn is_of_batch(call: &Call) -> bool {
    !matches!(kind_of(call.reply.as_str()), "sent" | "taken")
}

/// A random batch, with a number of tries.
fn drawn(alloc: Global, state: &mut u64, place: u64) -> Result<String, Failed> {
    let text = batch_text(alloc, state, place)?;
    let tries = below(state, 3) + 1;
    let text = text.as_str();
    Ok(format!(in alloc; "tries {tries}; {text}")?)
}

/// The text to run for a line.
fn text_of(alloc: Global, line: &str, state: &mut u64, place: u64) -> Result<String, Failed> {
    if line == "DRAW" {
        return drawn(alloc, state, place);
    }
    let (text, _) = line.split_once(" => ").unwrap_or((line, ""));
    Ok(String::from_str(alloc, text)?)
}

/// Asserts the replies to the operations, which follow the outcome and its place, if the line has any.
fn check_text(rt: &impl Abort, line: &str, reply: &str) {
    if let Some((_, expected)) = line.split_once(" => ") {
        let (_, replies) = reply.split_once("; ").unwrap_or((reply, ""));
        is_text(rt, replies, expected, line);
    }
}

/// Checks the place of a reply, which is the place that the seat has then seen, or that of the first commit for a repeated batch.
/// The seat has seen at least what it had seen or was informed of before, and more after a conflict. Returns the least place that
/// the next call must see: the seat is informed of the place of a letter.
fn check_place(rt: &impl Abort, reply: &str, least: u64, seen: u64) -> Result<u64, Failed> {
    let place = place_of(reply)?;
    let kind = kind_of(reply);
    if kind == "taken" {
        return Ok(least.max(place));
    }
    if kind != "repeated" {
        is_number(rt, seen, place, reply);
    }
    holds(rt, seen >= least, reply);
    holds(rt, kind != "conflict" || seen > least, reply);
    Ok(seen)
}

fn calls_once<J: RegistryId, R: Wait + Clock>(
    site: &Site<J, R>,
    seat: &mut Seat<J>,
    gate: &Turnstile<R>,
    thread: u64,
    text: String,
) -> Result<Call, Failed> {
    let reply = site.answer(seat, gate, thread, text.as_str())?;
    Ok(Call { text, reply })
}

/// The calls of a seat that runs these lines.
fn calls_of<J: RegistryId, R: Wait + Clock + Abort>(
    site: &Site<J, R>,
    seat: &mut Seat<J>,
    gate: &Turnstile<R>,
    thread: u64,
    lines: &str,
) -> Result<Vec<Call>, Failed> {
    let mut calls = Vec::new(site.alloc);
    let (mut state, mut least) = (thread, 0);
    for line in lines.lines() {
        let text = text_of(site.alloc, line, &mut state, seat.place())?;
        let call = calls_once(site, seat, gate, thread, text)?;
        check_text(site.rt, line, call.reply.as_str());
        least = check_place(site.rt, call.reply.as_str(), least, seat.place())?;
        calls.push(call)?;
    }
    Ok(calls)
}

/// Asserts how many of the calls were of batches.
fn check_count(rt: &impl Abort, calls: &[Call], count: u64) {
    let mut batches: u64 = 0;
    for call in calls {
        batches = batches.wrapping_add(is_of_batch(call) as u64);
    }
    is_number(rt, batches, count, "calls");
}

/// The calls of one thread, which has a seat of its own.
fn calls_of_thread<J: RegistryId, R: Wait + Clock + Abort>(
    site: &Site<J, R>,
    gate: &Turnstile<R>,
    talk: Talk,
    thread: u64,
) -> Result<Vec<Call>, Failed> {
    let lines = lines_of(site.alloc, talk, thread)?;
    let mut seat = site.seat()?;
    let calls = calls_of(site, &mut seat, gate, thread, lines.as_str())?;
    check_count(site.rt, calls.as_slice(), seat.calls());
    Ok(calls)
}

/// The same. Afterwards, no other thread waits for this one at the gate.
fn thread_calls<J: RegistryId, R: Wait + Clock + Abort>(
    site: &Site<J, R>,
    gate: &Turnstile<R>,
    talk: Talk,
    thread: u64,
) -> Result<Vec<Call>, Failed> {
    let calls = calls_of_thread(site, gate, talk, thread);
    gate.opens();
    calls
}

/// The calls of all threads, in order, or the error of the first one that failed.
fn joined(alloc: Global, done: Vec<Result<Vec<Call>, Failed>>) -> Result<Vec<Call>, Failed> {
    let mut all = Vec::new(alloc);
    for one in done {
        let mut made = one?;
        all.append(&mut made)?;
    }
    Ok(all)
}

/// The calls of all threads.
pub fn calls_of_all<J: RegistryId + Send + Sync, R: Threads + Wait + Clock + Abort + Sync>(
    site: &Site<J, R>,
    gate: &Turnstile<R>,
    talk: Talk,
) -> Result<Vec<Call>, Failed> {
    let done = map_indices(
        site.rt,
        site.alloc,
        THREADS as usize,
        &|thread: usize| -> Result<Vec<Call>, Failed> {
            thread_calls(site, gate, talk, thread as u64)
        },
    )?;
    joined(site.alloc, done)
}
