//! Pages of a book of random entries: page after page, for any filter and size, they list what a search over the entries
//! finds. The search knows the entries by the words that created them.

use crate::draws::drawn;
use crate::playing::{as_text, first_book, plays_on};
use crate::wanted::{holds, is_text};
use plain_book::PlainBook;
use std::alloc::Global;
use std::process::Abort;
use std::test::Fail;
use test_batches::{below, word, words};

/// `<entry>` is an entry without its number, `<filter>` a filter, of which each part is given in half of the cases.
const GRAMMAR: &str = "\
<entry>: <parent> <identity> <selectors> 0 <domains>
<parent>: /spire/agent/n1 | /spire/agent/n2
<identity>: /web | /api
<selectors>: u:1 | u:2 | w:1 | u:1,u:2 | u:1,w:1 | u:2,w:1 | u:1,u:2,w:1
<domains>: | b.org | c.org | b.org c.org
<domain>: b.org | c.org
<mode>: exact | any | superset | subset
<filter>: <parent?> <identity?> <domain?> <match?>
<parent?>: - | <parent>
<identity?>: - | <identity>
<domain?>: - | <domain>
<match?>: - | <mode> <selectors>
";

const BUNDLES: &str = "\
set_bundle b.org; set_bundle c.org => committed at 1; bundle b.org 0; bundle c.org 0
";

/// The entries that the book accepted, in the order of their ids; one that is similar to an earlier one is refused.
fn filled(alloc: Global, book: &mut PlainBook, state: &mut u64) -> Result<Vec<String>, Fail> {
    let mut rows = Vec::new(alloc);
    for number in 1..14_u64 {
        let drawn = drawn(alloc, state, GRAMMAR, "<entry>")?;
        let row = format!(in alloc; "create {number} {drawn}")?;
        if as_text(alloc, book, row.as_str())?.starts_with("committed") {
            rows.push(row)?;
        }
    }
    Ok(rows)
}

/// Returns true if the word is one of these, which commas separate.
fn is_among(word: &str, words: &str) -> bool {
    for other in words.split(',') {
        if other == word {
            return true;
        }
    }
    false
}

/// The number of these words that are among the others.
fn count_among(words: &str, others: &str) -> usize {
    let mut count: usize = 0;
    for word in words.split(',') {
        count = count.wrapping_add(usize::from(is_among(word, others)));
    }
    count
}

fn is_within(words: &str, others: &str) -> bool {
    count_among(words, others) == words.split(',').count()
}

/// Returns true if the selectors of an entry match those of a filter.
fn do_match(own: &str, given: &str, mode: &str) -> bool {
    match mode {
        "exact" => is_within(own, given) && is_within(given, own),
        "any" => count_among(own, given) > 0,
        "superset" => is_within(given, own),
        "subset" => is_within(own, given),
        _ => true,
    }
}

/// Returns true if no word is given, or this one.
fn is_given(given: &str, word: &str) -> bool {
    given == "-" || given == word
}

/// Returns true if no domain is given, or the entry names it.
fn names(row: &[&str], given: &str) -> bool {
    for domain in row.iter().skip(6) {
        if is_given(given, domain) {
            return true;
        }
    }
    given == "-"
}

/// Returns true if the search lists this entry.
fn is_found(row: &[&str], filter: &[&str]) -> bool {
    is_given(word(filter, 0), word(row, 2))
        && is_given(word(filter, 1), word(row, 3))
        && names(row, word(filter, 2))
        && do_match(word(row, 4), word(filter, 4), word(filter, 3))
}

/// The entries that the search finds.
fn found<'a>(alloc: Global, rows: &'a [String], filter: &str) -> Result<Vec<&'a str>, Fail> {
    let filter = words(alloc, filter)?;
    let mut found = Vec::new(alloc);
    for row in rows {
        if is_found(words(alloc, row.as_str())?.as_slice(), filter.as_slice()) {
            found.push(row.as_str())?;
        }
    }
    Ok(found)
}

/// Appends an entry to a page, as its number, its revision and its domains.
fn add_row(text: &mut String, row: &[&str]) -> Result<(), Fail> {
    text.push_str(" ")?;
    text.push_str(word(row, 1))?;
    text.push_str(".0")?;
    for domain in row.iter().skip(6) {
        text.push_str(" ")?;
        text.push_str(domain)?;
    }
    Ok(())
}

/// Ends a page after an entry, and begins the next one.
fn add_next(text: &mut String, row: &[&str], head: &str) -> Result<(), Fail> {
    text.push_str(" next ")?;
    text.push_str(word(row, 1))?;
    text.push_str("\n")?;
    text.push_str(head)?;
    Ok(())
}

/// The expected pages of these entries, each after this head; all but the last are full.
fn wanted_pages(alloc: Global, found: &[&str], size: u64, head: &str) -> Result<String, Fail> {
    let mut pages = String::from_str(alloc, head)?;
    let mut rest = found.len() as u64;
    let mut count: u64 = 0;
    for row in found {
        let row = words(alloc, row)?;
        add_row(&mut pages, row.as_slice())?;
        rest = rest.wrapping_sub(1);
        count = count.wrapping_add(1);
        if count == size && rest > 0 {
            add_next(&mut pages, row.as_slice(), head)?;
            count = 0;
        }
    }
    pages.push_str("\n")?;
    Ok(pages)
}

/// The book's page of this size and filter that begins after an entry.
fn page_text(
    alloc: Global,
    book: &mut PlainBook,
    (size, filter): (u64, &str),
    from: &str,
) -> Result<String, Fail> {
    let text = format!(in alloc; "page {size} - {from} with {filter}")?;
    as_text(alloc, book, text.as_str())
}

fn add_line(text: &mut String, line: &str) -> Result<(), Fail> {
    text.push_str(line)?;
    text.push_str("\n")?;
    Ok(())
}

/// Appends a page to the others, after its predecessor, and returns it, if there is a next page.
fn next_page(
    alloc: Global,
    book: &mut PlainBook,
    (size, filter): (u64, &str),
    page: &str,
    pages: &mut String,
) -> Result<Option<String>, Fail> {
    let Some((_, from)) = page.split_once(" next ") else {
        return Ok(None);
    };
    let next = page_text(alloc, book, (size, filter), from)?;
    add_line(pages, next.as_str())?;
    Ok(Some(next))
}

/// All pages of the book, from the first one on; none has more than thirteen entries.
fn pages_text(
    alloc: Global,
    book: &mut PlainBook,
    size: u64,
    filter: &str,
) -> Result<String, Fail> {
    let mut pages = String::new(alloc);
    let mut page = String::from_str(alloc, " next -")?;
    for _ in 0..20 {
        match next_page(alloc, book, (size, filter), page.as_str(), &mut pages)? {
            Some(next) => page = next,
            None => break,
        }
    }
    Ok(pages)
}

/// Asserts that page after page of this size is what the search finds.
fn are_pages_found(
    rt: &impl Abort,
    alloc: Global,
    book: &mut PlainBook,
    rows: &[String],
    filter: &str,
    size: u64,
) -> Result<(), Fail> {
    let place = rows.len().wrapping_add(1);
    let head = format!(in alloc; "answered at {place}; page")?;
    let found = found(alloc, rows, filter)?;
    let expected = wanted_pages(alloc, found.as_slice(), size, head.as_str())?;
    let got = pages_text(alloc, book, size, filter)?;
    is_text(rt, got.as_str(), expected.as_str(), filter);
    Ok(())
}

/// Asserts this for each of some random filters, after filling a book.
fn all_filters(rt: &impl Abort, alloc: Global, book: &mut PlainBook) -> Result<(), Fail> {
    plays_on(rt, alloc, book, BUNDLES)?;
    let mut state = 7;
    let rows = filled(alloc, book, &mut state)?;
    holds(rt, rows.len() > 8, "entries that the book took");
    for _ in 0..40 {
        let size = below(&mut state, 4).wrapping_add(1) as u64;
        let filter = drawn(alloc, &mut state, GRAMMAR, "<filter>")?;
        are_pages_found(rt, alloc, book, &rows, filter.as_str(), size)?;
    }
    Ok(())
}

#[test]
fn pages_are_what_a_search_finds(rt: HostRuntime) -> Result<(), Fail> {
    let mut book = first_book(rt.alloc())?;
    let found = all_filters(&rt, rt.alloc(), &mut book);
    drop(book);
    found
}
