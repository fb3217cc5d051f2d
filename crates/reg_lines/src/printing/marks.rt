//! How is a read of a call printed?

ghost use Rattle.std.specs.Prelude.{◌++◌, codes, decimal};
ghost use Rattle.reg_lines.specs.EventAnswers.{mark_json};
ghost use Rattle.reg_lines.specs.Json.{text_json};
ghost use Rattle.reg_lines.specs.Replies.{uuid_text};
ghost use Rattle.line_devices.specs.Stream.{Puts};

use crate::printing::print_json::PrintJson;
use crate::printing::text::{print_text, put_all_escaped};
use itoa::Buffer;
use line_devices::{Output, Sink};
use spiffe_name::SpiffeId;
use uuid::Uuid;
use version_book::{Mark, MarkKind};

impl PrintJson for Mark {
    ghost text = { mark_json };

    fn print_to<S: Sink>(&self, output: &mut Output<S>) {
        self.kind().print_to(output);
    }
}

/// A text: the kind of the rows, and which they are, with a space between two parts.
impl PrintJson for MarkKind {
    ghost text = { mark_json };

    fn print_to<S: Sink>(&self, output: &mut Output<S>) {
        match self {
            MarkKind::Entry(id) => print_named_id("entry ", id, output),
            MarkKind::Group(parent, identity) => print_group(parent.get(), identity.get(), output),
            MarkKind::Children(parent) => print_named("children ", parent.get().as_str(), output),
            MarkKind::Users(domain) => print_named("users ", domain.get().as_str(), output),
            MarkKind::Expiring(moment) => print_moment(*moment, output),
            MarkKind::All => print_text("all", output),
            MarkKind::Agent(id) => print_named("agent ", id.get().as_str(), output),
            MarkKind::Bundle(domain) => print_named("bundle ", domain.get().as_str(), output),
            MarkKind::Token(token) => print_named_id("token ", token, output),
        }
    }
}

/// Prints one text: a word, which ends in its space, and a name.
fn print_named<S: Sink>(word: &str, name: &str, output: &mut Output<S>)
    ensures { Puts output.old output.new (text_json (word.now ++ name.now)) }
{
    output.put(b"\"");
    put_all_escaped(word.as_bytes(), output);
    put_all_escaped(name.as_bytes(), output);
    output.put(b"\"");
}

/// Prints one text: a word, and an id in the hyphenated form in lower case.
fn print_named_id<S: Sink>(word: &str, id: &Uuid, output: &mut Output<S>)
    ensures { Puts output.old output.new (text_json (word.now ++ uuid_text id.now)) }
{
    let mut buffer = Uuid::encode_buffer();
    print_named(word, id.hyphenated().encode_lower(&mut buffer), output);
}

/// Prints one text: the word `expiring`, and a moment in decimal.
fn print_moment<S: Sink>(moment: u64, output: &mut Output<S>)
    ensures { Puts output.old output.new (text_json (codes "expiring " ++ decimal moment)) }
{
    let mut buffer = Buffer::new();
    print_named("expiring ", buffer.format(moment), output);
}

/// Prints one text: the word `group` and two names, with a space between two parts.
fn print_group<S: Sink>(parent: &SpiffeId, identity: &SpiffeId, output: &mut Output<S>)
    ensures { Puts output.old output.new
        (text_json (codes "group " ++ parent.now ++ codes " " ++ identity.now)) }
{
    output.put(b"\"group ");
    put_all_escaped(parent.as_str().as_bytes(), output);
    output.put(b" ");
    put_all_escaped(identity.as_str().as_bytes(), output);
    output.put(b"\"");
}
