//! How are the rows of a book printed?

ghost use Rattle.reg_lines.specs.Replies.{agent_json, bundle_json, entry_json, given_lifetime, lifetime_member};
ghost use Rattle.line_devices.specs.Stream.{Puts};

use crate::printing::print_json::{PrintJson, print_number};
use entry_book::{Agent, Bundle, Entry};
use line_devices::{Output, Sink};

/// The fields, in the order of their keys' bytes. A lifetime of 0 is left out.
impl PrintJson for Entry {
    ghost text = { entry_json };

    fn print_to<S: Sink>(&self, output: &mut Output<S>) {
        output.put(b"{\"domains\":");
        self.domains().print_to(output);
        output.put(b",\"expiry\":");
        print_number(self.expiry(), output);
        output.put(b",\"hint\":");
        self.hint().print_to(output);
        output.put(b",\"id\":");
        self.id().print_to(output);
        output.put(b",\"identity\":");
        self.identity().print_to(output);
        put_lifetime(b",\"jwt_svid_ttl\":", self.jwt_svid_ttl(), output);
        output.put(b",\"parent\":");
        self.parent().print_to(output);
        output.put(b",\"revision\":");
        print_number(self.revision(), output);
        output.put(b",\"selectors\":");
        self.selectors().print_to(output);
        put_lifetime(b",\"x509_svid_ttl\":", self.x509_svid_ttl(), output);
        output.put(b"}");
    }
}

/// Puts a lifetime in seconds with `before` in front of it, if it isn't 0.
pub(crate) fn put_lifetime<S: Sink>(before: &[u8], seconds: u64, output: &mut Output<S>)
    ensures { Puts output.old output.new (lifetime_member before.now (given_lifetime seconds)) }
{
    if seconds > 0 {
        output.put(before);
        print_number(seconds, output);
    }
}

impl PrintJson for Agent {
    ghost text = { agent_json };

    fn print_to<S: Sink>(&self, output: &mut Output<S>) {
        output.put(b"{\"id\":");
        self.id.print_to(output);
        output.put(b",\"selectors\":");
        self.selectors.print_to(output);
        output.put(b"}");
    }
}

impl PrintJson for Bundle {
    ghost text = { bundle_json };

    fn print_to<S: Sink>(&self, output: &mut Output<S>) {
        output.put(b"{\"domain\":");
        self.domain.print_to(output);
        output.put(b",\"sequence\":");
        print_number(self.sequence, output);
        output.put(b",\"text\":");
        self.text.print_to(output);
        output.put(b"}");
    }
}
