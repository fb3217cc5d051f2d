//! What does the key that an answer names as `field` take?

/// Returns what a key takes, and what is often met there instead; for any other key, that there is no such key, or which one has its
/// meaning.
pub fn note_of(field: &str) -> &'static str {
    match field {
        "ops" => {
            "a list of 1 to 64 operations, each an object. A single operation needs the list, too: `{\"ops\":[{..}]}`. If the answer has `op`, the element at this index is not an object"
        }
        "op" => {
            "the name of an operation, in lower case: create, update, delete, show, show_agent, show_bundle, children, page, authorised, trust, prune, set_agent, drop_agent, set_bundle or drop_bundle"
        }
        "after" | "at" => {
            "a commit number, which is a whole number without quotes: the `place` of an earlier answer of this server"
        }
        "token" => {
            "a UUID in quotes, another one for each line that isn't a repeat. A name or a number of the client's own is no UUID. A line with a token needs `id` in each `create`"
        }
        "tries" => {
            "a whole number from 1 to 16, without quotes. Only a request takes it: an event and a record don't"
        }
        _ => note_of_operations(field),
    }
}

/// The same for the keys of operations.
fn note_of_operations(field: &str) -> &'static str {
    match field {
        "id" => {
            "the UUID of an entry in quotes, such as \"00000000-0000-0000-0000-000000000001\". A SPIFFE ID is no UUID, and neither is an id with a letter or digit too few. `create` may leave it out, but not in a line with a token, and not in a record"
        }
        "from" => "a UUID in quotes: the `next` of the page before",
        "parent" => {
            "a SPIFFE ID in quotes, of the server's trust domain and with a path: an agent, the server's ID, or the identity of another entry. SPIRE calls it parent_id"
        }
        "identity" => {
            "a SPIFFE ID in quotes, of the server's trust domain and with a path. SPIRE calls it spiffe_id"
        }
        "agent" => {
            "the SPIFFE ID of an agent in quotes: its path begins with `/spire/agent/` and goes on"
        }
        "selectors" => {
            "a list of strings `type:value`. SPIRE's JSON has objects with `type` and `value` there: join the two with a colon"
        }
        "domain" => "a trust domain in quotes, such as \"b.org\". It is not an ID",
        "domains" => {
            "a list of trust domains in quotes, such as [\"b.org\"]. They are not IDs. SPIRE calls it federates_with"
        }
        "hint" => "a string",
        "text" => "the bundle as one string. An object is not accepted: print it into a string",
        _ => note_of_numbers(field),
    }
}

/// The same for the keys with numbers and words.
fn note_of_numbers(field: &str) -> &'static str {
    match field {
        "expiry" | "before" => {
            "a Unix time in seconds, which is a whole number without quotes and without a fraction. SPIRE's JSON has expires_at in quotes, and a date is not accepted"
        }
        "x509_svid_ttl" | "jwt_svid_ttl" => {
            "a number of seconds, which is a whole number without quotes. `1h` is not accepted"
        }
        "revision" => {
            "the revision that the entry is expected to have, which is a whole number without quotes. Only `update` and `delete` take it: `create` doesn't"
        }
        "size" => "a whole number from 1 to 500, without quotes",
        "mode" => "`restrict`, `delete` or `dissociate`, in quotes",
        "match" => {
            "`exact`, `any`, `superset` or `subset`, in quotes, and only together with `selectors`"
        }
        _ => note_of_events(field),
    }
}

/// The same for the keys of events and records.
fn note_of_events(field: &str) -> &'static str {
    match field {
        "event" => "`invoke`, `begin`, `step`, `commit` or `reply`, in quotes",
        "call" => "the number of a call, which is a whole number without quotes",
        "batch" => {
            "an object with the keys of a request, but without `tries`. Of the events only `invoke` has it"
        }
        "invoked" => "the number of an event, which is a whole number without quotes",
        "replied" => {
            "the number of an event, which is a whole number without quotes. A call that hasn't replied has null there: the key is never left out"
        }
        "reply" => "the object of the call's reply",
        _ => note_of_other_names(field),
    }
}

/// The same for keys that `regd` doesn't have.
fn note_of_other_names(field: &str) -> &'static str {
    match field {
        "spiffe_id" | "spiffeID" | "spiffeId" =>
            "no key has this name. It is SPIRE's: here it is `identity`",
        "parent_id" | "parentID" | "parentId" =>
            "no key has this name. It is SPIRE's: here it is `parent`",
        "entry_id" | "entryID" | "entryId" =>
            "no key has this name. It is SPIRE's: here it is `id`",
        "federates_with" | "federatesWith" =>
            "no key has this name. It is SPIRE's: here it is `domains`",
        "expires_at" | "expiresAt" | "entryExpiry" => {
            "no key has this name. It is SPIRE's: here it is `expiry`, a number without quotes"
        }
        "revision_number" | "revisionNumber" => {
            "no key has this name. It is SPIRE's: here it is `revision`, which only `update` and `delete` take"
        }
        "ttl" | "x509SVIDTTL" | "jwtSVIDTTL" => {
            "no key has this name. It is SPIRE's: here the keys are `x509_svid_ttl` and `jwt_svid_ttl`"
        }
        "admin"
        | "downstream"
        | "dns_names"
        | "dnsNames"
        | "store_svid"
        | "storeSvid"
        | "created_at"
        | "createdAt" => { "no key has this name. It is SPIRE's, and has no counterpart here" }
        _ => {
            "no key of a request, an event or a record has this name. It is mistyped, or another key has its meaning. docs/LINES.md lists the keys of each operation"
        }
    }
}
