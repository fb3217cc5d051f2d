//! How are names printed, and the containers of values?

ghost use Rattle.reg_lines.specs.Json.{list_json, text_json};
ghost use Rattle.reg_lines.specs.Replies.{selector_json, uuid_json};

use crate::printing::print_json::{PrintJson, print_list};
use crate::printing::text::print_text;
use entry_book::{DomainSet, Sequence, Shared, Text};
use line_devices::{Output, Sink};
use spiffe_name::{Selector, SelectorSet, SpiffeId, TrustDomain};
use uuid::Uuid;

impl PrintJson for Text {
    ghost text = { text_json };

    fn print_to<S: Sink>(&self, output: &mut Output<S>) {
        print_text(self.as_str(), output);
    }
}

impl PrintJson for TrustDomain {
    ghost text = { text_json };

    fn print_to<S: Sink>(&self, output: &mut Output<S>) {
        print_text(self.as_str(), output);
    }
}

impl PrintJson for SpiffeId {
    ghost text = { text_json };

    fn print_to<S: Sink>(&self, output: &mut Output<S>) {
        print_text(self.as_str(), output);
    }
}

impl PrintJson for Selector {
    ghost text = { selector_json };

    fn print_to<S: Sink>(&self, output: &mut Output<S>) {
        print_text(self.as_str(), output);
    }
}

/// The hyphenated form in lower case.
impl PrintJson for Uuid {
    ghost text = { uuid_json };

    fn print_to<S: Sink>(&self, output: &mut Output<S>) {
        let mut buffer = Uuid::encode_buffer();
        print_text(self.hyphenated().encode_lower(&mut buffer), output);
    }
}

impl<T: PrintJson> PrintJson for Shared<T> {
    ghost text = { T.text };

    fn print_to<S: Sink>(&self, output: &mut Output<S>) {
        self.get().print_to(output);
    }
}

impl<T: PrintJson> PrintJson for Sequence<T> {
    ghost text = { list_json T.text };

    fn print_to<S: Sink>(&self, output: &mut Output<S>) {
        print_list(self.as_slice(), output);
    }
}

impl PrintJson for SelectorSet {
    ghost text = { list_json selector_json };

    fn print_to<S: Sink>(&self, output: &mut Output<S>) {
        print_list(self.as_slice(), output);
    }
}

impl PrintJson for DomainSet {
    ghost text = { list_json text_json };

    fn print_to<S: Sink>(&self, output: &mut Output<S>) {
        print_list(self.as_slice(), output);
    }
}
