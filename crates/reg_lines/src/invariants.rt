//! What are the type invariants of a record's parts? For the prover: these functions have no effect, and their contracts bring
//! the invariants into a proof.
//!
//! - `names`: texts, UUIDs and selectors; `batches`: batches and operations; `replies`: replies and rows.

ghost use Rattle.std.specs.Prelude.{IfSome, map, ◌<◌, ◌^◌};
ghost use Rattle.std.specs.List.{AllByRecursion};
ghost use Rattle.serde_json.specs.Data.{Data};
ghost use Rattle.serde_json.specs.View.{items_of};
ghost use Rattle.reg_lines.specs.Spelled.{IsTyped, ItemsAreTyped};
ghost use Rattle.reg_lines.specs.Values.{list_data, option_data, whole};

pub(crate) mod batches;
pub(crate) mod names;
pub(crate) mod replies;

use entry_book::{Sequence, Shared};

/// A value with type invariants on which reading it back depends: a UUID has 16 bytes, a set is in its order, a text is
/// UTF-8.
pub(crate) trait Written {
    // The type invariant, apart from that of its texts and numbers.
    ghost is_written: { Self → Type 0 };

    // The JSON value as which it is printed.
    ghost value: { Self → Data };

    /// Brings the invariants into a proof. It only reads the value.
    fn know(&self)
        ensures written { is_written self.now }
        ensures typed { IsTyped (value self.now) };
}

/// The same for each item.
pub(crate) fn know_all<T: Written>(items: &[T])
    ensures written { AllByRecursion T.is_written items.now }
    ensures typed { ItemsAreTyped (items_of (map T.value items.now)) }
{
    for item in items {
        item.know();
    }
}

impl Written for u64 {
    ghost is_written = { λ n. n < 2 ^ 64 };

    ghost value = { whole };

    fn know(&self) {
        let _number = *self;
    }
}

impl Written for usize {
    ghost is_written = { λ n. n < 2 ^ 64 };

    ghost value = { whole };

    fn know(&self) {
        let _number = *self;
    }
}

impl<T: Written> Written for Option<T> {
    ghost is_written = { λ given. IfSome given T.is_written };

    ghost value = { option_data T.value };

    fn know(&self) {
        if let Some(value) = self {
            value.know();
        }
    }
}

impl<T: Written> Written for Shared<T> {
    ghost is_written = { T.is_written };

    ghost value = { T.value };

    fn know(&self) {
        self.get().know();
    }
}

impl<T: Written> Written for Sequence<T> {
    ghost is_written = { AllByRecursion T.is_written };

    ghost value = { list_data T.value };

    fn know(&self) {
        know_all(self.as_slice());
    }
}
