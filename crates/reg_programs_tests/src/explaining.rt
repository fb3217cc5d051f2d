//! What is printed about a code?

use crate::wanted::{holds, is_text};
use error_codes::{ErrorCode, Explanation, note_of, row_of_code};
use std::alloc::Global;
use std::process::Abort;
use std::test::Fail;

/// All codes, family by family.
const NAMES: &str =
    "I1 I2 I3 I4 I5 I6 I7 I8 S1 S2 S3 S4 U1 B1 B2 B3 B4 B5 B6 B7 B8 B9 B10 B11 B12 B13 B14 O1 O2 O3 O4 O5 O6 O7 O8 O9 W1 W2 W3 W4 W5 W6 E1 E2 E3 E4 E5 L1 L2 L3 L4 L5 L6 L7 L8";

/// Returns what is printed about the code of this name, and about a key.
fn explained(alloc: Global, name: &str, field: Option<&str>) -> Result<String, Fail> {
    let Some(code) = ErrorCode::of_name(name) else {
        return Err(Fail::from("no such code"));
    };
    let field = match field {
        Some(field) => Some(String::from_str(alloc, field)?),
        None => None,
    };
    Ok(Explanation::of(code, field).to_string(alloc)?)
}

/// Asserts that the row of a code has a text in each column.
fn is_filled(rt: &impl Abort, name: &str) -> Result<(), Fail> {
    let Some(code) = ErrorCode::of_name(name) else {
        return Err(Fail::from("no such code"));
    };
    is_text(rt, code.name(), name, "the code of a name has this name");
    let row = row_of_code(code);
    let is_empty = row.meaning.is_empty() || row.cause.is_empty() || row.cure.is_empty();
    holds(rt, !is_empty && !row.retry.is_empty(), name);
    Ok(())
}

#[test]
fn each_code_has_a_row(rt: HostRuntime) -> Result<(), Fail> {
    for name in NAMES.split(' ') {
        is_filled(&rt, name)?;
    }
    for name in ["", "l5", "L", "L0", "L9", "L55", "G1"] {
        holds(&rt, ErrorCode::of_name(name).is_none(), name);
    }
    Ok(())
}

const L3: &str = "\
L3: the input ends after the line without an LF
Likely cause: a file's last line has no LF; the sender was cut off within a line
Cure: end the line with an LF. What was cut off was not run
Retry: no
  (no: the line must change; book: once the book has changed; yes: as it is)
";

const SIZE: &str = "
The key `size`: a whole number from 1 to 500, without quotes
";

#[test]
fn an_explanation_has_each_column_and_the_key(rt: HostRuntime) -> Result<(), Fail> {
    let text = explained(rt.alloc(), "L3", None)?;
    is_text(&rt, text.as_str(), L3, "without a key");
    let text = explained(rt.alloc(), "L3", Some("size"))?;
    let expected = format!(in rt.alloc(); "{L3}{SIZE}")?;
    is_text(&rt, text.as_str(), expected.as_str(), "with a key");
    Ok(())
}

/// The keys of requests, events and records.
const KEYS: &str =
    "ops after token tries op id from parent identity agent selectors hint domain domains expiry x509_svid_ttl jwt_svid_ttl before revision text mode size at match event call batch invoked replied reply";

/// What is met in the place of a key, and a part of what is printed about it.
const MET: [(&str, &str); 6] = [
    ("expiry", "a whole number without quotes"),
    ("id", "A SPIFFE ID is no UUID"),
    ("spiffe_id", "here it is `identity`"),
    ("federates_with", "here it is `domains`"),
    ("dns_names", "has no counterpart"),
    (
        "zz",
        "no key of a request, an event or a record has this name",
    ),
];

#[test]
fn a_note_names_what_is_met_at_a_key(rt: HostRuntime) -> Result<(), Fail> {
    for key in KEYS.split(' ') {
        let note = note_of(key);
        holds(&rt, !note.is_empty() && !note.starts_with("no key"), key);
    }
    for (key, part) in MET {
        holds(&rt, note_of(key).contains(part), key);
    }
    Ok(())
}
