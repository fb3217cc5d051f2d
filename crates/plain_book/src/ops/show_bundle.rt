//! `show_bundle`: returns a bundle, if the book has it.

ghost use Rattle.std.specs.Prelude.{◌≡◌, IfOk, []};
ghost use Rattle.entry_book.specs.Book.{bundle_at};
ghost use Rattle.entry_book.specs.Ops.{done};
ghost use Rattle.plain_book.specs.Performed.{performed};

use crate::book::Book;
use entry_book::{OpRefusal, OpReply, pair_with};
use spiffe_name::TrustDomain;
use std::alloc::AllocError;

/// Never refused.
pub(crate) fn show_bundle(
    domain: &TrustDomain,
    book: &Book,
) -> Result<Result<(OpReply, Book), OpRefusal>, AllocError>
    ensures { IfOk result (λ answer. answer ≡ performed
        (done (OpReply.BundleShown (bundle_at domain.now book.now)) []) book.now) }
{
    let shown = match book.bundle(domain) {
        Some(row) => Some(row.clone()?),
        None => None,
    };
    Ok(Ok(pair_with(OpReply::BundleShown(shown), book.clone())?))
}
