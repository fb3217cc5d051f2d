//! The rows of a book as plain lists of lines, and which of them a mark names.

use std::alloc::{AllocError, Global};
use std::test::Fail;

/// All rows of a book, in the order of their lines, so that entries are in the order of their numbers, 1 to 6. The many
/// stored tokens are in a list of their own.
#[derive(Drop)]
pub struct Listed {
    rows: Vec<String>,
    tokens: Vec<String>,
}

/// Removes a row, or returns an error if it is missing.
fn remove(rows: &mut Vec<String>, line: &str) -> Result<(), Fail> {
    for index in 0..rows.len() {
        if rows[index].as_str() == line {
            rows.remove(index);
            return Ok(());
        }
    }
    Err(Fail::from("no such row"))
}

fn insert(alloc: Global, rows: &mut Vec<String>, line: &str) -> Result<(), AllocError> {
    rows.push(String::from_str(alloc, line)?)?;
    rows.sort()
}

/// Returns true for a row or a mark of a token.
fn is_of_token(line: &str) -> bool {
    line.starts_with("|token ")
}

/// The row without its marks.
pub fn as_text(row: &str) -> &str {
    match row.split_once(" =>") {
        Some((_, as_text)) => as_text,
        None => row,
    }
}

/// The mark that names this row alone.
pub fn own_mark(row: &str) -> &str {
    match row.trim_start_matches("|").split_once("|") {
        Some((own, _)) => own,
        None => row,
    }
}

impl Listed {
    pub fn empty(alloc: Global) -> Listed {
        Listed {
            rows: Vec::new(alloc),
            tokens: Vec::new(alloc),
        }
    }

    pub fn rows(&self) -> &[String] {
        self.rows.as_slice()
    }

    pub fn tokens(&self) -> &[String] {
        self.tokens.as_slice()
    }

    fn write(&mut self, alloc: Global, line: &str) -> Result<(), Fail> {
        if let Some(old) = line.strip_prefix("-") {
            return remove(&mut self.rows, old);
        }
        if is_of_token(line) {
            return Ok(insert(alloc, &mut self.tokens, line)?);
        }
        Ok(insert(alloc, &mut self.rows, line)?)
    }

    /// Makes these writes.
    pub fn apply(&mut self, alloc: Global, writes: &str) -> Result<(), Fail> {
        for line in writes.lines() {
            self.write(alloc, line)?;
        }
        Ok(())
    }

    /// The rows that a mark between bars names, as the text of a reading.
    pub fn named_text(&self, alloc: Global, name: &str) -> Result<String, AllocError> {
        let rows = if is_of_token(name) {
            &self.tokens
        } else {
            &self.rows
        };
        named_text(alloc, rows.as_slice(), name)
    }

    /// The number of rows that begin with this text, without those of tokens.
    pub fn count_of(&self, start: &str) -> usize {
        let mut count: usize = 0;
        for row in &self.rows {
            count = count.wrapping_add(usize::from(row.starts_with(start)));
        }
        count
    }
}

fn named_text(alloc: Global, rows: &[String], name: &str) -> Result<String, AllocError> {
    let mut text = String::new(alloc);
    for row in rows {
        if row.contains(name) {
            text.push_str(as_text(row.as_str()))?;
            text.push_str("\n")?;
        }
    }
    Ok(text)
}
