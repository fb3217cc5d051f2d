//! How many workers get a seat?

ghost use Rattle.std.specs.Prelude.{◌≡◌};
ghost use Rattle.entry_book.specs.History.{first_books};

use crate::wanted::holds;
use reg_programs::{ServeFault, seats_of};
use shared_registry::{NewHistory, Registry, RegistryId};
use spiffe_name::TrustDomain;
use std::alloc::Global;
use std::marker::Brand;
use std::process::Abort;
use std::sync::Wait;
use std::test::Fail;

/// Takes seats of a new registry for this number of workers, and returns why there are none.
fn seated<J: RegistryId, R: Wait>(
    rt: &R,
    alloc: Global,
    new_history: NewHistory,
    registry_domain: TrustDomain,
    workers: usize,
) -> Result<Option<ServeFault>, Fail>
    requires history { new_history.seen.book ≡ J.history }
    requires first { J.first ≡ first_books }
    requires registry_domain { registry_domain ≡ J.domain }
{
    let registry = Registry::<J>::new(alloc, new_history, registry_domain)?;
    let fault = match seats_of(rt, alloc, &registry, workers) {
        Ok(seats) => {
            drop(seats);
            None
        }
        Err(fault) => Some(fault),
    };
    registry.close(rt);
    Ok(fault)
}

/// Asserts why this number of workers gets no seats.
fn are_seated<R: Abort + Wait>(
    rt: &R,
    alloc: Global,
    workers: usize,
    fault: Option<ServeFault>,
) -> Result<(), Fail> {
    let domain = TrustDomain::parse(alloc, "ex.org")?;
    let got = seated::<Brand, R>(rt, alloc, NewHistory::new(), domain, workers)?;
    holds(rt, got == fault, "why there are no seats");
    Ok(())
}

#[test]
fn thirty_two_workers_get_seats_and_no_more(rt: HostRuntime) -> Result<(), Fail> {
    are_seated(&rt, rt.alloc(), 32, None)?;
    are_seated(&rt, rt.alloc(), 33, Some(ServeFault::NoSeat))
}
