//! What are the type invariants of texts, UUIDs and selectors?

ghost use Rattle.std.specs.Prelude.{⊤};
ghost use Rattle.serde_json.specs.Data.{string};
ghost use Rattle.reg_lines.specs.ReadBack.{AreDomains, AreSelectors, IsDomainText, IsIdText, IsSelector, IsUuid};
ghost use Rattle.reg_lines.specs.Values.{list_data, selector_data, uuid_data};

use crate::invariants::{Written, know_all};
use entry_book::{DomainSet, Text};
use spiffe_name::{Selector, SelectorSet, SpiffeId, TrustDomain};
use uuid::Uuid;

impl Written for Text {
    ghost is_written = { λ _. ⊤ };

    ghost value = { string };

    fn know(&self) {
        let _ = self.as_str();
    }
}

impl Written for TrustDomain {
    ghost is_written = { IsDomainText };

    ghost value = { string };

    fn know(&self) {
        let _ = self.as_str();
    }
}

impl Written for SpiffeId {
    ghost is_written = { IsIdText };

    ghost value = { string };

    fn know(&self) {
        let _ = self.as_str();
    }
}

impl Written for Selector {
    ghost is_written = { IsSelector };

    ghost value = { selector_data };

    fn know(&self) {
        let _ = self.as_str();
    }
}

impl Written for Uuid {
    ghost is_written = { IsUuid };

    ghost value = { uuid_data };

    fn know(&self) {
        let mut buffer = Uuid::encode_buffer();
        let _ = self.hyphenated().encode_lower(&mut buffer);
    }
}

impl Written for SelectorSet {
    ghost is_written = { AreSelectors };

    ghost value = { list_data selector_data };

    fn know(&self) {
        know_all(self.as_slice());
    }
}

impl Written for DomainSet {
    ghost is_written = { AreDomains };

    ghost value = { list_data string };

    fn know(&self) {
        know_all(self.as_slice());
    }
}
