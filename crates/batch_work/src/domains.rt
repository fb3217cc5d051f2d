//! Which trust domains do entries name?

ghost use Rattle.std.specs.Prelude.{◌≡◌, ◌++◌, IfOk, OnOk, flat_map};
ghost use Rattle.entry_book.specs.Rows.{Entry as EntryRow};
ghost use Rattle.batch_work.specs.Reads.{domains_of, text_set};

use entry_book::{Entry, Shared};
use spiffe_name::TrustDomain;
use std::alloc::{AllocError, Global};
use version_book::Borrowed;

/// Appends the domains, and increments their reference counts. The error is out of memory.
fn push_all(
    all: &mut Vec<Shared<TrustDomain>>,
    domains: &[Shared<TrustDomain>],
) -> Result<(), AllocError>
    ensures { OnOk result (all.new.items ≡ all.old.items ++ domains.now) }
{
    for domain in domains {
        all.push(domain.clone()?)?;
    }
    Ok(())
}

/// Returns the domains that the entries name, as often as they are named. The error is out of memory.
fn all_domains(alloc: Global, entries: &[Entry]) -> Result<Vec<Shared<TrustDomain>>, AllocError>
    ensures { IfOk result (λ all. all.items ≡ flat_map (λ (entry : EntryRow). entry.domains) entries.now) }
{
    let mut all = Vec::new(alloc);
    for entry in entries {
        push_all(&mut all, entry.domains().as_slice())?;
    }
    Ok(all)
}

/// Returns the domains that borrowed entries name, as often as they are named. The error is out of memory.
fn all_borrowed_domains(
    alloc: Global,
    entries: &[Borrowed<'_, Entry>],
) -> Result<Vec<Shared<TrustDomain>>, AllocError>
    ensures { IfOk result (λ all. all.items ≡ flat_map (λ (entry : EntryRow). entry.domains) entries.now) }
{
    let mut all = Vec::new(alloc);
    for entry in entries {
        push_all(&mut all, entry.get().domains().as_slice())?;
    }
    Ok(all)
}

/// Returns these domains, each once, in order. The error is out of memory.
fn each_once(mut domains: Vec<Shared<TrustDomain>>) -> Result<Vec<Shared<TrustDomain>>, AllocError>
    ensures { IfOk result (λ set. set.items ≡ text_set domains.items) }
{
    domains.sort()?;
    domains.dedup();
    Ok(domains)
}

/// Returns the domains that the entries name, each once, in order. The error is out of memory.
pub(crate) fn domains_of(
    alloc: Global,
    entries: &[Entry],
) -> Result<Vec<Shared<TrustDomain>>, AllocError>
    ensures { IfOk result (λ set. set.items ≡ domains_of entries.now) }
{
    each_once(all_domains(alloc, entries)?)
}

/// Returns the domains that borrowed entries name, each once, in order. The error is out of memory.
pub(crate) fn domains_of_borrowed(
    alloc: Global,
    entries: &[Borrowed<'_, Entry>],
) -> Result<Vec<Shared<TrustDomain>>, AllocError>
    ensures { IfOk result (λ set. set.items ≡ domains_of entries.now) }
{
    each_once(all_borrowed_domains(alloc, entries)?)
}
