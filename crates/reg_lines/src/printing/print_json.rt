//! How is a value printed as one JSON text, without taking memory?

ghost use Rattle.std.specs.Prelude.{ℕ, List, decimal, string_bytes, ◌++◌, codes};
ghost use Rattle.reg_lines.specs.Json.{items_json, list_json, option_json, text_json};
ghost use Rattle.reg_lines.specs.JsonPrivate.{comma};
ghost use Rattle.line_devices.specs.Stream.{Puts};

use crate::printing::text::print_text;
use itoa::Buffer;
use line_devices::{Output, Sink};

/// A value that has one compact JSON text. Printing it takes no memory.
pub trait PrintJson {
    // The text.
    ghost text: { Self → List ℕ };

    /// Prints the text.
    fn print_to<S: Sink>(&self, output: &mut Output<S>)
        ensures { Puts output.old output.new (text self.now) };
}

/// Prints a whole number in decimal.
pub fn print_number<S: Sink>(number: u64, output: &mut Output<S>)
    ensures { Puts output.old output.new (decimal number) }
{
    let mut buffer = Buffer::new();
    output.put(buffer.format(number).as_bytes());
}

/// Prints a list in brackets.
pub fn print_list<T: PrintJson, S: Sink>(items: &[T], output: &mut Output<S>)
    ensures { Puts output.old output.new (list_json T.text items.now) }
{
    output.put(b"[");
    print_items(items, output);
    output.put(b"]");
}

/// Prints the items of a list, with a comma between two of them.
fn print_items<T: PrintJson, S: Sink>(items: &[T], output: &mut Output<S>)
    ensures { Puts output.old output.new (items_json T.text items.now) }
{
    for (index, item) in items.iter().enumerate() {
        put_comma(index, output);
        item.print_to(output);
    }
}

/// Puts the comma before the item of this index; the first item has none.
fn put_comma<S: Sink>(index: usize, output: &mut Output<S>)
    ensures { Puts output.old output.new (comma index) }
{
    if index > 0 {
        output.put(b",");
    }
}

/// Prints a value, then the LF that ends its line.
pub fn print_line<T: PrintJson, S: Sink>(value: &T, output: &mut Output<S>)
    ensures { Puts output.old output.new (T.text value.now ++ codes "\n") }
{
    value.print_to(output);
    output.put(b"\n");
}

impl PrintJson for u64 {
    ghost text = { decimal };

    fn print_to<S: Sink>(&self, output: &mut Output<S>) {
        print_number(*self, output);
    }
}

impl PrintJson for String {
    ghost text = { λ s. text_json (string_bytes s) };

    fn print_to<S: Sink>(&self, output: &mut Output<S>) {
        print_text(self.as_str(), output);
    }
}

impl<T: PrintJson> PrintJson for Vec<T> {
    ghost text = { λ v. list_json T.text v.items };

    fn print_to<S: Sink>(&self, output: &mut Output<S>) {
        print_list(self, output);
    }
}

/// The value, or `null`.
impl<T: PrintJson> PrintJson for Option<T> {
    ghost text = { option_json T.text };

    fn print_to<S: Sink>(&self, output: &mut Output<S>) {
        match self {
            Some(value) => value.print_to(output),
            None => output.put(b"null"),
        }
    }
}
