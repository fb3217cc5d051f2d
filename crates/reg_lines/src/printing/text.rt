//! How is a text printed as a JSON string?

ghost use Rattle.std.specs.Prelude.{◌≡◌, ◌+◌, ◌<◌, position, IsTrue};
ghost use Rattle.std.specs.List.{flat_map};
ghost use Rattle.reg_lines.specs.Json.{escaped, hex_digit, text_json};
ghost use Rattle.reg_lines.specs.JsonPrivate.{needs_escape};
ghost use Rattle.line_devices.specs.Stream.{Puts};

use line_devices::{Output, Sink};

/// Returns true if a JSON string must escape the byte: one below 32, a quotation mark or a backslash.
fn needs_escape(byte: u8) -> bool
    ensures { result ≡ needs_escape byte }
{
    byte < 32 || byte == b'"' || byte == b'\\'
}

/// Returns the index of the first byte that must be escaped.
fn escape_at(bytes: &[u8]) -> Option<usize>
    ensures { result ≡ position needs_escape bytes.now }
{
    bytes.iter().position(|byte| needs_escape(*byte))
}

/// Returns the character of a hexadecimal digit, in lower case.
fn hex_digit(digit: u8) -> u8
    requires { digit < 16 }
    ensures { result ≡ hex_digit digit }
{
    if digit < 10 {
        b'0' + digit
    } else {
        b'a' + (digit - 10)
    }
}

/// Puts the escape of a byte that must be escaped.
#[tactic(auto, unfolding(crate::specs::Json::escaped))]
fn put_escaped<S: Sink>(byte: u8, output: &mut Output<S>)
    requires { IsTrue (needs_escape byte) }
    ensures { Puts output.old output.new (escaped byte) }
{
    match byte {
        b'"' => output.put(b"\\\""),
        b'\\' => output.put(b"\\\\"),
        8 => output.put(b"\\b"),
        9 => output.put(b"\\t"),
        10 => output.put(b"\\n"),
        12 => output.put(b"\\f"),
        13 => output.put(b"\\r"),
        _ => output.put(&[
            b'\\',
            b'u',
            b'0',
            b'0',
            hex_digit(byte / 16),
            hex_digit(byte % 16),
        ]),
    }
}

/// Puts the bytes of a JSON string with their escapes. Each run of bytes without an escape is put in one piece.
pub(crate) fn put_all_escaped<S: Sink>(bytes: &[u8], output: &mut Output<S>)
    ensures { Puts output.old output.new (flat_map escaped bytes.now) }
{
    let mut rest = bytes;
    while let Some(at) = escape_at(rest) {
        output.put(rest.split_at(at).0);
        put_escaped(rest[at], output);
        rest = rest.split_at(at + 1).1;
    }
    output.put(rest);
}

/// Prints a text in quotes.
pub fn print_text<S: Sink>(text: &str, output: &mut Output<S>)
    ensures { Puts output.old output.new (text_json text.now) }
{
    output.put(b"\"");
    put_all_escaped(text.as_bytes(), output);
    output.put(b"\"");
}
