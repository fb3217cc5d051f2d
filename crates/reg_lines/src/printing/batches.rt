//! How are a batch and its operations printed?

ghost use Rattle.std.specs.Prelude.{◌≡◌};
ghost use Rattle.reg_lines.specs.RecordLines.{batch_json, children_json, delete_json, drop_bundle_json, entry_op_json, given_member, keyed_op_json, leading_member, match_json, match_member, match_text, mode_json, mode_text, op_json, page_op_json, selectors_member, set_agent_json, set_bundle_json};
ghost use Rattle.line_devices.specs.Stream.{Puts};

use crate::printing::book_rows::put_lifetime;
use crate::printing::print_json::{PrintJson, print_list, print_number};
use crate::printing::text::print_text;
use entry_book::{Agent, Batch, DropMode, MatchMode, NewEntry, Op, PageQuery, SelectorMatch, Text};
use line_devices::{Output, Sink};
use spiffe_name::{SpiffeId, TrustDomain};
use uuid::Uuid;

/// Returns the word for the mode.
fn mode_text(mode: DropMode) -> &'static str
    ensures { result.now ≡ mode_text mode }
{
    match mode {
        DropMode::Restrict => "restrict",
        DropMode::Delete => "delete",
        DropMode::Dissociate => "dissociate",
    }
}

impl PrintJson for DropMode {
    ghost text = { mode_json };

    fn print_to<S: Sink>(&self, output: &mut Output<S>) {
        print_text(mode_text(*self), output);
    }
}

/// Returns the word for the match mode.
fn match_text(mode: MatchMode) -> &'static str
    ensures { result.now ≡ match_text mode }
{
    match mode {
        MatchMode::Exact => "exact",
        MatchMode::Any => "any",
        MatchMode::Superset => "superset",
        MatchMode::Subset => "subset",
    }
}

impl PrintJson for MatchMode {
    ghost text = { match_json };

    fn print_to<S: Sink>(&self, output: &mut Output<S>) {
        print_text(match_text(*self), output);
    }
}

/// Puts the value with `before` in front of it, if there is one.
fn put_given<T: PrintJson, S: Sink>(before: &[u8], value: &Option<T>, output: &mut Output<S>)
    ensures { Puts output.old output.new (given_member before.now T.text value.now) }
{
    match value {
        None => {}
        Some(value) => {
            output.put(before);
            value.print_to(output);
        }
    }
}

/// Puts the value with `before` in front of it and a comma after it, if there is one.
fn put_leading<T: PrintJson, S: Sink>(before: &[u8], value: &Option<T>, output: &mut Output<S>)
    ensures { Puts output.old output.new (leading_member before.now T.text value.now) }
{
    match value {
        None => {}
        Some(value) => {
            output.put(before);
            value.print_to(output);
            output.put(b",");
        }
    }
}

/// An object with the name of the operation and its keys, in the order of their bytes. Optional values that aren't given
/// are left out; defaults are printed.
impl PrintJson for Op {
    ghost text = { op_json };

    fn print_to<S: Sink>(&self, output: &mut Output<S>) {
        match self {
            Op::Create(entry) => print_entry_op("create", entry.get(), &None, output),
            Op::Update(entry, expected) => print_entry_op("update", entry.get(), expected, output),
            Op::Delete(id, expected) => print_delete(id, expected, output),
            Op::Show(id) => print_keyed_op("id", id, "show", output),
            Op::ShowAgent(id) => print_keyed_op("agent", id, "show_agent", output),
            Op::ShowBundle(domain) => print_keyed_op("domain", domain, "show_bundle", output),
            Op::Children(parent) => print_children(parent.get(), output),
            Op::Page(query) => print_page_op(query.get(), output),
            Op::Authorised(id) => print_keyed_op("agent", id, "authorised", output),
            Op::Trust(id) => print_keyed_op("agent", id, "trust", output),
            Op::Prune(moment) => print_keyed_op("before", moment, "prune", output),
            Op::SetAgent(agent) => print_set_agent(agent, output),
            Op::DropAgent(id) => print_keyed_op("agent", id, "drop_agent", output),
            Op::SetBundle(domain, text) => print_set_bundle(domain.get(), text.get(), output),
            Op::DropBundle(domain, mode) => print_drop_bundle(domain.get(), *mode, output),
        }
    }
}

/// Prints the operation of this name on an entry. A lifetime of 0 is left out.
fn print_entry_op<S: Sink>(
    name: &str,
    entry: &NewEntry,
    expected: &Option<u64>,
    output: &mut Output<S>,
)
    ensures { Puts output.old output.new (entry_op_json name.now entry.now expected.now) }
{
    output.put(b"{\"domains\":");
    entry.domains.print_to(output);
    output.put(b",\"expiry\":");
    print_number(entry.expiry, output);
    output.put(b",\"hint\":");
    entry.hint.print_to(output);
    output.put(b",\"id\":");
    entry.id.print_to(output);
    output.put(b",\"identity\":");
    entry.identity.print_to(output);
    put_lifetime(b",\"jwt_svid_ttl\":", entry.jwt_svid_ttl, output);
    output.put(b",\"op\":");
    print_text(name, output);
    output.put(b",\"parent\":");
    entry.parent.print_to(output);
    put_given(b",\"revision\":", expected, output);
    output.put(b",\"selectors\":");
    entry.selectors.print_to(output);
    put_lifetime(b",\"x509_svid_ttl\":", entry.x509_svid_ttl, output);
    output.put(b"}");
}

/// Prints the delete of an entry, with its expected revision if given.
fn print_delete<S: Sink>(id: &Uuid, expected: &Option<u64>, output: &mut Output<S>)
    ensures { Puts output.old output.new (delete_json id.now expected.now) }
{
    output.put(b"{\"id\":");
    id.print_to(output);
    output.put(b",\"op\":\"delete\"");
    put_given(b",\"revision\":", expected, output);
    output.put(b"}");
}

/// Prints the operation of this name with one key, which comes before the name.
fn print_keyed_op<T: PrintJson, S: Sink>(key: &str, value: &T, name: &str, output: &mut Output<S>)
    ensures { Puts output.old output.new (keyed_op_json key.now (T.text value.now) name.now) }
{
    output.put(b"{");
    print_text(key, output);
    output.put(b":");
    value.print_to(output);
    output.put(b",\"op\":");
    print_text(name, output);
    output.put(b"}");
}

/// Prints a query for the entries of a parent.
fn print_children<S: Sink>(parent: &SpiffeId, output: &mut Output<S>)
    ensures { Puts output.old output.new (children_json parent.now) }
{
    output.put(b"{\"op\":\"children\",\"parent\":");
    parent.print_to(output);
    output.put(b"}");
}

/// Prints a query for a page. A condition that its filter doesn't have is left out.
fn print_page_op<S: Sink>(query: &PageQuery, output: &mut Output<S>)
    ensures { Puts output.old output.new (page_op_json query.now) }
{
    output.put(b"{");
    put_leading(b"\"at\":", &query.at, output);
    put_leading(b"\"domain\":", &query.filter.domain, output);
    put_leading(b"\"from\":", &query.from, output);
    put_leading(b"\"identity\":", &query.filter.identity, output);
    put_match(&query.filter.selectors, output);
    output.put(b"\"op\":\"page\"");
    put_given(b",\"parent\":", &query.filter.parent, output);
    put_selectors(&query.filter.selectors, output);
    output.put(b",\"size\":");
    print_number(query.size, output);
    output.put(b"}");
}

/// Puts the match mode with a comma after it, if there is a condition on selectors.
fn put_match<S: Sink>(condition: &Option<SelectorMatch>, output: &mut Output<S>)
    ensures { Puts output.old output.new (match_member condition.now) }
{
    match condition {
        None => {}
        Some(condition) => {
            output.put(b"\"match\":");
            condition.mode.print_to(output);
            output.put(b",");
        }
    }
}

/// Puts the selectors of the condition, if there is one.
fn put_selectors<S: Sink>(condition: &Option<SelectorMatch>, output: &mut Output<S>)
    ensures { Puts output.old output.new (selectors_member condition.now) }
{
    match condition {
        None => {}
        Some(condition) => {
            output.put(b",\"selectors\":");
            condition.selectors.print_to(output);
        }
    }
}

/// Prints the set of an agent with its selectors.
fn print_set_agent<S: Sink>(agent: &Agent, output: &mut Output<S>)
    ensures { Puts output.old output.new (set_agent_json agent.now) }
{
    output.put(b"{\"agent\":");
    agent.id.print_to(output);
    output.put(b",\"op\":\"set_agent\",\"selectors\":");
    agent.selectors.print_to(output);
    output.put(b"}");
}

/// Prints the set of a bundle with its text.
fn print_set_bundle<S: Sink>(domain: &TrustDomain, text: &Text, output: &mut Output<S>)
    ensures { Puts output.old output.new (set_bundle_json domain.now text.now) }
{
    output.put(b"{\"domain\":");
    domain.print_to(output);
    output.put(b",\"op\":\"set_bundle\",\"text\":");
    text.print_to(output);
    output.put(b"}");
}

/// Prints the drop of a bundle with its mode.
fn print_drop_bundle<S: Sink>(domain: &TrustDomain, mode: DropMode, output: &mut Output<S>)
    ensures { Puts output.old output.new (drop_bundle_json domain.now mode) }
{
    output.put(b"{\"domain\":");
    domain.print_to(output);
    output.put(b",\"mode\":");
    mode.print_to(output);
    output.put(b",\"op\":\"drop_bundle\"}");
}

/// The smallest place, the operations, and the token, if there is one.
impl PrintJson for Batch {
    ghost text = { batch_json };

    fn print_to<S: Sink>(&self, output: &mut Output<S>) {
        output.put(b"{\"after\":");
        print_number(self.after(), output);
        output.put(b",\"ops\":");
        print_list(self.ops(), output);
        put_given(b",\"token\":", &self.token(), output);
        output.put(b"}");
    }
}
