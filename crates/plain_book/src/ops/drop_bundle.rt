//! `drop_bundle`: removes the bundle of a trust domain; the mode selects what happens to the entries that name it.

ghost use Rattle.std.specs.Prelude.{◌≡◌, IfOk};
ghost use Rattle.entry_book.specs.Book.{bundle_at, users_of};
ghost use Rattle.entry_book.specs.Lawful.{CanGrow};
ghost use Rattle.entry_book.specs.Ops.{drop_in, drop_over};
ghost use Rattle.plain_book.specs.Performed.{performed};

use crate::book::Book;
use crate::users::ids_of;
use entry_book::{Bundle, DropMode, OpRefusal, OpReply, Sequence, Shared};
use spiffe_name::TrustDomain;
use std::alloc::{AllocError, Global};

/// Refused if there is no such bundle, or, in mode `Restrict`, if an entry names its domain.
pub(crate) fn drop_bundle(
    alloc: Global,
    domain: &Shared<TrustDomain>,
    mode: DropMode,
    book: &Book,
) -> Result<Result<(OpReply, Book), OpRefusal>, AllocError>
    requires counts { CanGrow book.now }
    ensures { IfOk result (λ answer. answer ≡ performed
        (drop_over (bundle_at domain.now book.now) domain.now mode book.now) book.now) }
{
    let Some(bundle) = book.bundle(domain.get()) else {
        return Ok(Err(OpRefusal::NoBundle(domain.clone()?)));
    };
    match mode {
        DropMode::Restrict => restrict(alloc, bundle, book),
        DropMode::Delete => delete_users(alloc, bundle, book),
        DropMode::Dissociate => free_users(alloc, bundle, book),
    }
}

/// Removes the bundle. Refused if an entry names its domain.
fn restrict(
    alloc: Global,
    bundle: &Bundle,
    book: &Book,
) -> Result<Result<(OpReply, Book), OpRefusal>, AllocError>
    ensures { IfOk result (λ answer. answer ≡ performed
        (drop_in DropMode.Restrict (users_of bundle.now.domain book.now) bundle.now) book.now) }
{
    if book.user(bundle.domain.get()).is_some() {
        return Ok(Err(OpRefusal::BundleInUse));
    }
    let after = book.without_bundle(alloc, bundle)?;
    let none = OpReply::Dropped(Sequence::empty(alloc), Sequence::empty(alloc));
    Ok(Ok((none, after)))
}

/// Removes the bundle and the entries that name its domain.
fn delete_users(
    alloc: Global,
    bundle: &Bundle,
    book: &Book,
) -> Result<Result<(OpReply, Book), OpRefusal>, AllocError>
    ensures { IfOk result (λ answer. answer ≡ performed
        (drop_in DropMode.Delete (users_of bundle.now.domain book.now) bundle.now) book.now) }
{
    let domain = bundle.domain.get();
    let users = book.users(alloc, domain)?;
    let rest = book.without_all(alloc, users.as_slice())?;
    let after = rest.without_bundle(alloc, bundle)?;
    let deleted = ids_of(alloc, users.as_slice())?;
    let reply = OpReply::Dropped(Sequence::of(deleted), Sequence::empty(alloc));
    Ok(Ok((reply, after)))
}

/// Removes the bundle, and its domain from the entries that name it.
fn free_users(
    alloc: Global,
    bundle: &Bundle,
    book: &Book,
) -> Result<Result<(OpReply, Book), OpRefusal>, AllocError>
    requires counts { CanGrow book.now }
    ensures { IfOk result (λ answer. answer ≡ performed
        (drop_in DropMode.Dissociate (users_of bundle.now.domain book.now) bundle.now) book.now) }
{
    let domain = bundle.domain.get();
    let users = book.users(alloc, domain)?;
    let freed = book.with_freed(alloc, users.as_slice(), domain)?;
    let after = freed.without_bundle(alloc, bundle)?;
    let dissociated = ids_of(alloc, users.as_slice())?;
    let reply = OpReply::Dropped(Sequence::empty(alloc), Sequence::of(dissociated));
    Ok(Ok((reply, after)))
}
