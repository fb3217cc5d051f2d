//! Random texts from a grammar: a text whose lines, such as `<row>: <word>
//! <word> 1`, give the alternatives for a word.

use std::alloc::Global;
use std::test::Fail;
use test_batches::below;

/// The alternatives for a word, separated by bars; the word itself if the grammar has no line for it.
fn choices<'a>(grammar: &'a str, word: &'a str) -> &'a str {
    if word.starts_with('<') {
        for line in grammar.lines() {
            match line.split_once(": ") {
                Some((name, choices)) if name == word => return choices,
                _ => {}
            }
        }
    }
    word
}

/// The number of texts that bars separate.
fn count_of(texts: &str) -> u64 {
    let mut count: u64 = 0;
    for _ in texts.split('|') {
        count = count.wrapping_add(1);
    }
    count
}

/// The text at an index from 0, of texts that bars separate.
pub fn nth(texts: &str, index: u64) -> &str {
    let mut rest = index;
    for text in texts.split('|') {
        if rest == 0 {
            return text;
        }
        rest = rest.wrapping_sub(1);
    }
    ""
}

/// A random one of the texts.
fn one_of<'a>(state: &mut u64, texts: &'a str) -> &'a str {
    let index = below(state, count_of(texts).max(1));
    nth(texts, index as u64)
}

/// The text with a random alternative for each of its words.
fn rewritten(alloc: Global, state: &mut u64, grammar: &str, text: &str) -> Result<String, Fail> {
    let mut rewritten = String::new(alloc);
    for word in text.split_whitespace() {
        rewritten.push_str(one_of(state, choices(grammar, word)))?;
        rewritten.push_str(" ")?;
    }
    Ok(rewritten)
}

/// A random text derived from this one, by eight rewrites.
pub fn drawn(alloc: Global, state: &mut u64, grammar: &str, text: &str) -> Result<String, Fail> {
    let mut drawn = String::from_str(alloc, text)?;
    for _ in 0..8 {
        drawn = rewritten(alloc, state, grammar, drawn.as_str())?;
    }
    Ok(drawn)
}
