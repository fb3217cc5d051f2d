//! Random batches on few rows, as text.

use std::alloc::{AllocError, Global};
use test_batches::below;

/// The operations, with alternatives in a word separated by commas. Each of 12, 6, 4, 3, 2 or 1 alternatives is equally likely.
const OPS: &str = "\
create 1,2,3,4,5,6 /a,/ab,/x /a,/x u:1,u:2,u:3 0,1,2,3 ,,d1,d2 ,,d3
create 1,2,3,4,5,6 /a,/ab,/x /a,/x u:1,u:2,u:3 0,1,2,3 ,,d1,d2 ,,d3
create 1,2,3,4,5,6 /a,/ab,/x /a,/x u:1,u:2,u:3 0,1,2,3 ,,d1,d2 ,,d3
update 1,2,3,4,5,6 /a,/ab,/x /a,/x u:1,u:2,u:3 0,1,2,3 ,,d1,d2 ,,d3
update 1,2,3,4,5,6 /a,/ab,/x /a,/x u:1,u:2,u:3 0,1,2,3 ,,d1,d2 ,,d3
delete 1,2,3,4,5,6
prune 0,1,2,3
set_agent /spire/agent/m,/spire/agent/n u:1,u:2
drop_agent /spire/agent/m,/spire/agent/n
set_bundle d1,d2,d3
set_bundle d1,d2,d3
drop_bundle d1,d2,d3 restrict,delete,dissociate";

/// A random one of the choices between these separators: skips up to eleven, cyclically, and takes the next one.
fn draw<'a>(state: &mut u64, choices: &'a str, separator: &str) -> &'a str {
    let mut left = choices;
    for _ in 0..below(state, 12) {
        left = match left.split_once(separator) {
            Some((_, later)) => later,
            None => choices,
        };
    }
    match left.split_once(separator) {
        Some((first, _)) => first,
        None => left,
    }
}

/// Appends a random operation.
fn add_op(text: &mut String, state: &mut u64) -> Result<(), AllocError> {
    for choices in draw(state, OPS, "\n").split_whitespace() {
        text.push_str(draw(state, choices, ","))?;
        text.push_str(" ")?;
    }
    Ok(())
}

/// Appends a token to one batch in four. Only the first batch with a token that commits is stored under it.
fn add_token(text: &mut String, state: &mut u64) -> Result<(), AllocError> {
    if below(state, 4) != 0 {
        return Ok(());
    }
    let number = below(state, 200);
    write!(text, "token {number}; ")
}

/// Appends one to four random operations, after a token or none.
fn add_batch(text: &mut String, state: &mut u64) -> Result<(), AllocError> {
    add_token(text, state)?;
    add_op(text, state)?;
    for _ in 0..below(state, 4) {
        text.push_str("; ")?;
        add_op(text, state)?;
    }
    Ok(())
}

/// A random batch.
pub fn batch_text(alloc: Global, state: &mut u64) -> Result<String, AllocError> {
    let mut text = String::new(alloc);
    add_batch(&mut text, state)?;
    Ok(text)
}
