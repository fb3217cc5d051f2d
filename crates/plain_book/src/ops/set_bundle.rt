//! `set_bundle`: adds the bundle of a trust domain at sequence 0, or replaces its text at its next sequence.

ghost use Rattle.std.specs.Prelude.{◌≡◌, IfOk};
ghost use Rattle.entry_book.specs.Book.{bundle_at};
ghost use Rattle.entry_book.specs.Lawful.{CanGrow};
ghost use Rattle.entry_book.specs.Ops.{bundle_set};
ghost use Rattle.plain_book.specs.Performed.{performed};

use crate::book::Book;
use entry_book::{Bundle, OpRefusal, OpReply, Shared, Text, pair_with};
use spiffe_name::TrustDomain;
use std::alloc::{AllocError, Global};

/// Never refused.
pub(crate) fn set_bundle(
    alloc: Global,
    domain: &Shared<TrustDomain>,
    text: &Shared<Text>,
    book: &Book,
) -> Result<Result<(OpReply, Book), OpRefusal>, AllocError>
    requires counts { CanGrow book.now }
    ensures { IfOk result (λ answer. answer ≡ performed
        (bundle_set domain.now text.now (bundle_at domain.now book.now)) book.now) }
{
    let sequence = match book.bundle(domain.get()) {
        None => 0,
        Some(old) => old.sequence + 1,
    };
    let (domain, text) = pair_with(domain.clone()?, text.clone())?;
    let bundle = Bundle {
        domain,
        text,
        sequence,
    };
    let reply = OpReply::Bundle(bundle.clone()?);
    Ok(Ok(pair_with(reply, book.with_bundle(alloc, bundle))?))
}
