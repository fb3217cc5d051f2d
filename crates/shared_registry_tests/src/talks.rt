//! What does each of eight threads run, line by line?

use crate::failed::Failed;
use std::alloc::Global;

/// The number of threads.
pub const THREADS: u64 = 8;

const ROUNDS: u64 = 20;

/// What the threads do.
#[derive(Clone, Copy)]
pub enum Talk {
    /// Each creates a hundred entries, and queries each of them, in both ways in which a site queries.
    Creates,
    /// All submit the same batch with a token, with more tries than needed.
    Token,
    /// The threads form a ring. In each round, each of them creates an entry, sends a receipt to the next one, learns the one
    /// that it gets, and queries all entries that its sender knew of.
    Ring,
    /// Each runs this many random batches.
    Draws(u64),
}

/// Creates an entry under a parent of its own.
const CREATE: &str = "create # n# /web u:# 0 => entry #.0\n";

const SHOW: &str = "show # => shown #.0\n";

/// Of two consecutive queries, one is answered with borrowed rows, and the other with owned rows.
const SHOW_TWICE: &str = "show # => shown #.0\nshow # => shown #.0\n";

/// Sends a letter to a thread, and takes one.
const LETTERS: &str = "SEND #\nTAKE\n";

const TOKEN: &str = "\
tries 16; token 7; set_agent n1 x:1; create 1 n1 /web u:1 0 => agent n1 1; entry 1.0
";

/// Appends a text in which `#` is replaced by the number.
fn add(alloc: Global, lines: &mut String, text: &str, number: u64) -> Result<(), Failed> {
    let number = format!(in alloc; "{number}")?;
    let text = text.replace(alloc, "#", number.as_str())?;
    lines.push_str(text.as_str())?;
    Ok(())
}

fn creates(alloc: Global, thread: u64) -> Result<String, Failed> {
    let first = thread.wrapping_mul(1000);
    let mut lines = String::new(alloc);
    for number in 1..101_u64 {
        let entry = first.wrapping_add(number);
        add(alloc, &mut lines, CREATE, entry)?;
        add(alloc, &mut lines, SHOW_TWICE, entry)?;
    }
    Ok(lines)
}

/// The number of the entry that a thread creates in a round.
fn entry_of(round: u64, thread: u64) -> u64 {
    round
        .wrapping_mul(THREADS)
        .wrapping_add(thread)
        .wrapping_add(1)
}

/// The thread this many positions before this one in the ring; at most the number of threads.
fn before(thread: u64, count: u64) -> u64 {
    thread.wrapping_add(THREADS).wrapping_sub(count) % THREADS
}

/// Queries the entries of which the letter of a round informs, all the way round the ring: the one that its sender created in
/// that round, the one that the thread before it created in the round before, and so on.
fn add_shows(alloc: Global, lines: &mut String, thread: u64, round: u64) -> Result<(), Failed> {
    for back in 0..THREADS {
        if back <= round {
            let sender = before(thread, back.wrapping_add(1));
            let entry = entry_of(round.wrapping_sub(back), sender);
            add(alloc, lines, SHOW, entry)?;
        }
    }
    Ok(())
}

fn ring(alloc: Global, thread: u64) -> Result<String, Failed> {
    let mut lines = String::new(alloc);
    for round in 0..ROUNDS {
        add(alloc, &mut lines, CREATE, entry_of(round, thread))?;
        add(alloc, &mut lines, LETTERS, thread.wrapping_add(1) % THREADS)?;
        add_shows(alloc, &mut lines, thread, round)?;
    }
    Ok(lines)
}

fn draws(alloc: Global, count: u64) -> Result<String, Failed> {
    let mut lines = String::new(alloc);
    for _ in 0..count {
        lines.push_str("DRAW\n")?;
    }
    Ok(lines)
}

/// The lines of one thread; `DRAW` means a random batch. The text after ` => `, if the replies are known, has the replies to the
/// operations, without the outcome and its place.
pub fn lines_of(alloc: Global, talk: Talk, thread: u64) -> Result<String, Failed> {
    match talk {
        Talk::Creates => creates(alloc, thread),
        Talk::Token => Ok(String::from_str(alloc, TOKEN)?),
        Talk::Ring => ring(alloc, thread),
        Talk::Draws(count) => draws(alloc, count),
    }
}
