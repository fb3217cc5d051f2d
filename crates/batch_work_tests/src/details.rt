//! What the text of a reply leaves out: all fields of entries, as text.

use batch_work::Work;
use entry_book::{Entry, OpReply, ReplyOutcome};
use std::alloc::Global;
use std::test::Fail;
use test_batches::{accepted_text, marks_text, of_number, outcome_text};

fn add_word(text: &mut String, word: &str) -> Result<(), Fail> {
    text.push_str(" ")?;
    text.push_str(word)?;
    Ok(())
}

fn add_selectors(text: &mut String, entry: &Entry) -> Result<(), Fail> {
    for selector in entry.selectors().get().as_slice() {
        add_word(text, selector.as_str())?;
    }
    Ok(())
}

fn add_domains(text: &mut String, entry: &Entry) -> Result<(), Fail> {
    for domain in entry.domains().as_slice() {
        add_word(text, domain.get().as_str())?;
    }
    Ok(())
}

fn add_number(alloc: Global, text: &mut String, number: u64) -> Result<(), Fail> {
    let word = format!(in alloc; "{number}")?;
    add_word(text, word.as_str())
}

fn add_numbers(alloc: Global, text: &mut String, entry: &Entry) -> Result<(), Fail> {
    add_number(alloc, text, entry.expiry())?;
    add_number(alloc, text, entry.x509_svid_ttl())?;
    add_number(alloc, text, entry.jwt_svid_ttl())?;
    add_number(alloc, text, entry.revision())
}

/// Appends all fields of an entry.
fn add_entry(alloc: Global, text: &mut String, entry: &Entry) -> Result<(), Fail> {
    text.push_str(of_number(alloc, " | whole", entry.id())?.as_str())?;
    add_word(text, entry.parent().get().as_str())?;
    add_word(text, entry.identity().get().as_str())?;
    add_selectors(text, entry)?;
    add_word(text, entry.hint().get().as_str())?;
    add_domains(text, entry)?;
    add_numbers(alloc, text, entry)
}

fn add_entries(alloc: Global, text: &mut String, entries: &[Entry]) -> Result<(), Fail> {
    for entry in entries {
        add_entry(alloc, text, entry)?;
    }
    Ok(())
}

/// Appends all fields of the entries of a reply.
fn add_op_reply(alloc: Global, text: &mut String, reply: &OpReply) -> Result<(), Fail> {
    match reply {
        OpReply::Entry(entry) | OpReply::EntryShown(Some(entry)) => add_entry(alloc, text, entry),
        OpReply::Entries(entries) | OpReply::Page(entries, _) => {
            add_entries(alloc, text, entries.as_slice())
        }
        _ => Ok(()),
    }
}

fn add_op_replies(alloc: Global, text: &mut String, replies: &[OpReply]) -> Result<(), Fail> {
    for reply in replies {
        add_op_reply(alloc, text, reply)?;
    }
    Ok(())
}

fn add_outcome(alloc: Global, text: &mut String, outcome: &ReplyOutcome) -> Result<(), Fail> {
    match outcome {
        ReplyOutcome::Committed(replies)
        | ReplyOutcome::Answered(replies)
        | ReplyOutcome::Repeated(replies) => {
            add_op_replies(alloc, text, replies.get().as_slice())
        }
        ReplyOutcome::Refused(_) => Ok(()),
    }
}

/// The outcome of a batch at this place, with all fields of entries.
pub fn whole_text(alloc: Global, place: u64, outcome: &ReplyOutcome) -> Result<String, Fail> {
    let mut text = outcome_text(alloc, place, outcome)?;
    add_outcome(alloc, &mut text, outcome)?;
    Ok(text)
}

/// The same for a batch that is committed at this place.
fn whole_committed_text(alloc: Global, place: u64, replies: &[OpReply]) -> Result<String, Fail> {
    let mut text = accepted_text(alloc, "committed", place, replies)?;
    add_op_replies(alloc, &mut text, replies)?;
    Ok(text)
}

/// The outcome of a work at this place, with all fields of entries. A work that is ready is committed there.
fn end_text(alloc: Global, work: &Work, place: u64) -> Result<String, Fail> {
    if let Some(reply) = work.reply() {
        return whole_text(alloc, place, &reply.outcome);
    }
    match work.replies() {
        Some(replies) => whole_committed_text(alloc, place, replies.get().as_slice()),
        None => Err(Fail::from("neither ready nor settled")),
    }
}

/// What a work has read, and its outcome at this place, with all fields of entries.
pub fn run_text(alloc: Global, work: &Work, place: u64) -> Result<String, Fail> {
    let mut text = marks_text(alloc, work.marks())?;
    text.push_str(" => ")?;
    text.push_str(end_text(alloc, work, place)?.as_str())?;
    Ok(text)
}
