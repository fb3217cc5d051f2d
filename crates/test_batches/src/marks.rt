//! Marks as text.

use crate::failed::Failed;
use crate::telling::{of_number, of_text, path};
use std::alloc::Global;
use version_book::{Mark, MarkKind};

fn group_text(alloc: Global, parent: &str, identity: &str) -> Result<String, Failed> {
    Ok(format!(in alloc; "group {parent} {identity}")?)
}

fn expiring_text(alloc: Global, moment: u64) -> Result<String, Failed> {
    Ok(format!(in alloc; "expiring {moment}")?)
}

/// Returns a mark as words, such as `group n1 /web`.
pub fn mark_words(alloc: Global, mark: &Mark) -> Result<String, Failed> {
    match mark.kind() {
        MarkKind::Entry(id) => of_number(alloc, "entry", id),
        MarkKind::Token(token) => of_number(alloc, "token", token),
        MarkKind::Group(parent, identity) => {
            group_text(alloc, path(parent.get()), path(identity.get()))
        }
        MarkKind::Children(parent) => of_text(alloc, "children", path(parent.get())),
        MarkKind::Agent(id) => of_text(alloc, "agent", path(id.get())),
        MarkKind::Users(domain) => of_text(alloc, "users", domain.get().as_str()),
        MarkKind::Bundle(domain) => of_text(alloc, "bundle", domain.get().as_str()),
        MarkKind::Expiring(moment) => expiring_text(alloc, *moment),
        MarkKind::All => Ok(String::from_str(alloc, "all")?),
    }
}

/// Returns marks, separated by bars.
pub fn marks_text(alloc: Global, marks: &[Mark]) -> Result<String, Failed> {
    let mut text = String::new(alloc);
    for mark in marks {
        add_mark(alloc, &mut text, mark)?;
    }
    Ok(text)
}

/// Appends a mark to the others.
pub fn add_mark(alloc: Global, text: &mut String, mark: &Mark) -> Result<(), Failed> {
    if !text.is_empty() {
        text.push_str(" | ")?;
    }
    text.push_str(mark_words(alloc, mark)?.as_str())?;
    Ok(())
}
