//! Scripts of several seats of one thread, or of two threads if a batch is held.
//!
//! `NEW` takes a seat, and `GONE` drops all of them; `LEFT` gives whether another seat is left, and `KEPT` the number of stored
//! items. A line that begins with a number is run by the seat of that number. The text after ` => ` is the expected answer.
//!
//! A script may hold a batch of the last seat, `HOLD after its begin: delete 1` or `HOLD under the lock: delete 1`. Another
//! thread runs each of the following lines after that batch has reached the point again, and then lets the batch continue. After
//! `DONE => ` come the number of times that the batch reached the point, and the reply to it.
//!
//! If the line after `HOLD` is `BEHIND: delete 2`, a third thread submits that batch for the seat before the last one, when the held
//! batch has reached its point. The following lines are run once that batch has begun, too. The reply to it comes last after `DONE => `.

use crate::failed::Failed;
use crate::site::Site;
use crate::telling::seat_text;
use crate::turnstile::Turnstile;
use crate::wanted::is_text;
use shared_registry::{OpenGate, Point, RegistryId, Seat, one_list};
use std::alloc::Global;
use std::process::Abort;
use std::sync::Wait;
use std::thread::{Threads, join};
use std::time::Clock;

/// The answer to the seat whose number begins the line.
fn seat_answer<J: RegistryId, R: Wait + Clock>(
    site: &Site<J, R>,
    seats: &mut [Seat<J>],
    line: &str,
) -> Result<String, Failed> {
    let (word, rest) = line.split_once(" ").unwrap_or((line, ""));
    let number = word.parse::<u64>()?;
    match seats.get_mut(number as usize) {
        Some(seat) => site.answer(seat, &OpenGate, number, rest),
        None => Err(Failed("no such seat in a script")),
    }
}

/// Takes a seat, and returns its text.
fn takes_seat<J: RegistryId, R: Wait + Clock>(
    site: &Site<J, R>,
    seats: &mut Vec<Seat<J>>,
) -> Result<String, Failed> {
    let seat = site.seat()?;
    if let Some(first) = seats.first() {
        one_list(first, &seat);
    }
    let as_text = seat_text(site.alloc, &seat)?;
    seats.push(seat)?;
    Ok(as_text)
}

/// Whether another seat is left.
fn seat_left<J: RegistryId, R: Wait + Clock>(site: &Site<J, R>) -> &'static str {
    match site.seat() {
        Ok(_) => "one",
        Err(_) => "none",
    }
}

fn answer<J: RegistryId, R: Wait + Clock>(
    site: &Site<J, R>,
    seats: &mut Vec<Seat<J>>,
    line: &str,
) -> Result<String, Failed> {
    match line {
        "NEW" => takes_seat(site, seats),
        "GONE" => {
            seats.clear();
            Ok(String::from_str(site.alloc, "gone")?)
        }
        "LEFT" => Ok(String::from_str(site.alloc, seat_left(site))?),
        "KEPT" => {
            let kept = site.kept();
            Ok(format!(in site.alloc; "{kept}")?)
        }
        _ => seat_answer(site, seats.as_mut_slice(), line),
    }
}

fn question_of(line: &str) -> &str {
    line.split_once(" => ").unwrap_or((line, "")).0
}

/// Asserts the answer that the line expects, if it has one.
fn check_text(rt: &impl Abort, line: &str, as_text: &str) {
    if let Some((question, expected)) = line.split_once(" => ") {
        is_text(rt, as_text, expected, question);
    }
}

fn plays_lines<J: RegistryId, R: Wait + Clock + Abort>(
    site: &Site<J, R>,
    seats: &mut Vec<Seat<J>>,
    lines: &str,
) -> Result<(), Failed> {
    for line in lines.lines() {
        let as_text = answer(site, seats, question_of(line))?;
        check_text(site.rt, line, as_text.as_str());
    }
    Ok(())
}

/// Waits until this many batches have come to the gate.
fn awaits<R: Clock>(gate: &Turnstile<R>, count: u64) -> Result<(), Failed> {
    if gate.holds(count) {
        Ok(())
    } else {
        Err(Failed("nobody came, as where there is no memory for a thread"))
    }
}

/// Runs a line when the held batch has reached its point this many times, and then lets it continue.
fn plays_concurrently<J: RegistryId, R: Wait + Clock + Abort>(
    site: &Site<J, R>,
    seats: &mut [Seat<J>],
    gate: &Turnstile<R>,
    line: &str,
    count: u64,
) -> Result<(), Failed> {
    awaits(gate, count)?;
    let as_text = seat_answer(site, seats, question_of(line))?;
    check_text(site.rt, line, as_text.as_str());
    gate.lets_on(count);
    Ok(())
}

fn plays_all_concurrently<J: RegistryId, R: Wait + Clock + Abort>(
    site: &Site<J, R>,
    seats: &mut [Seat<J>],
    gate: &Turnstile<R>,
    lines: &str,
) -> Result<(), Failed> {
    let mut count: u64 = 0;
    for line in lines.lines() {
        count = count.wrapping_add(1);
        plays_concurrently(site, seats, gate, line, count)?;
    }
    Ok(())
}

/// Runs the lines while the batch is held. Afterwards it is held no longer, whatever the result.
fn overtakes<J: RegistryId, R: Wait + Clock + Abort>(
    site: &Site<J, R>,
    seats: &mut [Seat<J>],
    gate: &Turnstile<R>,
    lines: &str,
) -> Result<(), Failed> {
    let played = plays_all_concurrently(site, seats, gate, lines);
    gate.opens();
    played
}

/// The reply to the batch that a line holds. It makes no assertions, since the concurrent lines may have failed.
fn is_held<J: RegistryId, R: Wait + Clock>(
    site: &Site<J, R>,
    seat: &mut Seat<J>,
    gate: &Turnstile<R>,
    line: &str,
) -> Result<String, Failed> {
    let (_, text) = line.split_once(": ").unwrap_or((line, ""));
    let as_text = site.answer(seat, gate, 0, text);
    gate.leaves();
    as_text
}

/// Runs the lines while the batch is held and the other one has begun.
fn overtakes_both<J: RegistryId, R: Wait + Clock + Abort>(
    site: &Site<J, R>,
    seats: &mut [Seat<J>],
    gate: &Turnstile<R>,
    begun: &Turnstile<R>,
    lines: &str,
) -> Result<(), Failed> {
    if let Err(failed) = awaits(begun, 1) {
        gate.opens();
        return Err(failed);
    }
    overtakes(site, seats, gate, lines)
}

/// The reply to a batch that begins while another one is held.
fn is_behind<J: RegistryId, R: Wait + Clock>(
    site: &Site<J, R>,
    seat: &mut Seat<J>,
    gate: &Turnstile<R>,
    begun: &Turnstile<R>,
    text: &str,
) -> Result<String, Failed> {
    let as_text = match awaits(gate, 1) {
        Ok(()) => site.answer(seat, begun, 0, text),
        Err(failed) => Err(failed),
    };
    begun.leaves();
    as_text
}

/// The reply to the batch of the seat before the last one, which waits behind the held batch. The lines run concurrently.
fn behind_text<J: RegistryId + Send + Sync, R: Threads + Wait + Clock + Abort + Sync>(
    site: &Site<J, R>,
    seats: &mut [Seat<J>],
    gate: &Turnstile<R>,
    text: &str,
    lines: &str,
) -> Result<String, Failed> {
    let begun = Turnstile::new(site.rt, Point::AfterBegin, 0, 1);
    let Some((seat, others)) = seats.split_last_mut() else {
        gate.opens();
        return Err(Failed("no seat in a script"));
    };
    let (as_text, played) = join(
        site.rt,
        || is_behind(site, seat, gate, &begun, text),
        || overtakes_both(site, others, gate, &begun, lines),
    );
    played?;
    as_text
}

/// Runs the lines while a batch is held, and returns the reply to a batch that waits behind it, if the first line has one.
fn others_text<J: RegistryId + Send + Sync, R: Threads + Wait + Clock + Abort + Sync>(
    site: &Site<J, R>,
    seats: &mut [Seat<J>],
    gate: &Turnstile<R>,
    lines: &str,
) -> Result<Option<String>, Failed> {
    let (line, rest) = lines.split_once("\n").unwrap_or((lines, ""));
    let Some(text) = line.strip_prefix("BEHIND: ") else {
        overtakes(site, seats, gate, lines)?;
        return Ok(None);
    };
    Ok(Some(behind_text(site, seats, gate, text, rest)?))
}

/// The reply to a held batch, and that to the batch behind it, if there is one.
fn both_texts(alloc: Global, held: String, behind: Option<String>) -> Result<String, Failed> {
    let Some(behind) = behind else {
        return Ok(held);
    };
    let (held, behind) = (held.as_str(), behind.as_str());
    Ok(format!(in alloc; "{held}; then {behind}")?)
}

/// The reply to the last seat's batch, which the first of the lines holds; the other lines run concurrently.
fn concurrent_text<J: RegistryId + Send + Sync, R: Threads + Wait + Clock + Abort + Sync>(
    site: &Site<J, R>,
    seats: &mut [Seat<J>],
    gate: &Turnstile<R>,
    lines: &str,
) -> Result<String, Failed> {
    let (line, concurrent) = lines.split_once("\n").unwrap_or((lines, ""));
    let Some((held, others)) = seats.split_last_mut() else {
        return Err(Failed("no seat in a script"));
    };
    let (as_text, played) = join(
        site.rt,
        || is_held(site, held, gate, line),
        || others_text(site, others, gate, concurrent),
    );
    let behind = played?;
    both_texts(site.alloc, as_text?, behind)
}

/// The point at which a line holds a batch.
fn point_of(line: &str) -> Point {
    if line.starts_with("under the lock: ") {
        return Point::BeforeCommit;
    }
    Point::AfterBegin
}

/// How often the batch that the first line holds reached its point, and the reply to it.
fn plays_held<J: RegistryId + Send + Sync, R: Threads + Wait + Clock + Abort + Sync>(
    site: &Site<J, R>,
    seats: &mut Vec<Seat<J>>,
    lines: &str,
) -> Result<String, Failed> {
    let last = seats.len().saturating_sub(1);
    let gate = Turnstile::new(site.rt, point_of(lines), last, u64::MAX);
    let as_text = concurrent_text(site, seats.as_mut_slice(), &gate, lines)?;
    let (passes, as_text) = (gate.passes()?, as_text.as_str());
    Ok(format!(in site.alloc; "{passes}; {as_text}")?)
}

/// Runs a script.
pub fn plays_script<J: RegistryId + Send + Sync, R: Threads + Wait + Clock + Abort + Sync>(
    site: &Site<J, R>,
    script: &str,
) -> Result<(), Failed> {
    let mut seats = Vec::new(site.alloc);
    let (before, rest) = script.split_once("HOLD ").unwrap_or((script, ""));
    plays_lines(site, &mut seats, before)?;
    if let Some((lines, rest)) = rest.split_once("DONE => ") {
        let (expected, after) = rest.split_once("\n").unwrap_or((rest, ""));
        let as_text = plays_held(site, &mut seats, lines)?;
        is_text(site.rt, as_text.as_str(), expected, "DONE");
        plays_lines(site, &mut seats, after)?;
    }
    Ok(())
}
